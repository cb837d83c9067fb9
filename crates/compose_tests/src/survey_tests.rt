// Two files that are surveyed, a fault between heads, and the front of a stream. The bytes here are
// from another program too.
use crate::same::same;
use crate::streams::{
    CLONE_FROM_B, END, HEADER, HEADER_V2, MKFILE, MKFILE_Y, SNAPSHOT_B, SUBVOL_A, WRITE_HI, joined,
};
use crate::values::{key, two_names, uuid};
use file_survey::{Survey, survey};
use part_names::Overrides;
use std::alloc::{AllocError, Global};
use std::process::Abort;
use std::test::Fail;
use subvol_catalog::Key;
use sx_base::{Blob, PlainInputs};

// A full stream of a part a, and one that goes on from it.
const WITHOUT_DATA: &[&[u8]] = &[HEADER, SUBVOL_A, MKFILE, END];

const SECOND: &[&[u8]] = &[HEADER, SNAPSHOT_B, WRITE_HI, END];

// A frame with a bit that was flipped, and a part c.
const FLIPPED: &[u8] = b"\x05\x00\x00\x00\x03\x00,\x09]\x81\x0f\x00\x01\x00x";

const SNAPSHOT_C: &[u8] =
    b"E\x00\x00\x00\x02\x00\xec\xb7\x18l\x01\x00\x10\x003333333333333333\x02\x00\x08\x00\x03\x00\x00\x00\x00\x00\x00\x00\x0f\x00\x01\x00c\x14\x00\x10\x00\"\"\"\"\"\"\"\"\"\"\"\"\"\"\"\"\x15\x00\x08\x00\x02\x00\x00\x00\x00\x00\x00\x00";

const FAULTY: &[&[u8]] = &[HEADER, SNAPSHOT_B, FLIPPED, SNAPSHOT_C, END];

// A part b on another parent: with its header the front of a stream of version 2.
const SNAPSHOT_B_OF_OTHER: &[u8] =
    b"E\x00\x00\x00\x02\x00\xa4m\x8e\xcd\x01\x00\x10\x00\"\"\"\"\"\"\"\"\"\"\"\"\"\"\"\"\x02\x00\x08\x00\x02\x00\x00\x00\x00\x00\x00\x00\x0f\x00\x01\x00b\x14\x00\x10\x00\x99\x99\x99\x99\x99\x99\x99\x99\x99\x99\x99\x99\x99\x99\x99\x99\x15\x00\x08\x00\x07\x00\x00\x00\x00\x00\x00\x00";

const FRONT: &[&[u8]] = &[HEADER_V2, SNAPSHOT_B_OF_OTHER];

// The survey of two files.
fn surveyed(alloc: Global, first: &[&[u8]], second: &[&[u8]]) -> Result<Survey, Fail> {
    let mut inputs = PlainInputs::new(alloc);
    inputs.add("first", joined(alloc, first)?.as_slice())?;
    inputs.add("second", joined(alloc, second)?.as_slice())?;
    let files = two_names(alloc)?;
    match survey(
        alloc,
        &mut inputs,
        files.as_slice(),
        &Overrides::none(alloc),
    ) {
        Ok(seen) => Ok(seen),
        Err(_) => Err(Fail::from("the files are not surveyed")),
    }
}

fn last_key(seen: &Survey) -> Option<Key> {
    Some(seen.last()?.key())
}

// Whether UUIDs of these bytes are among the parts, and whether they are named.
fn are_found(rt: &impl Abort, seen: &Survey, table: &[(u8, bool, bool)]) {
    for (byte, is_part, is_named) in table {
        same(rt, seen.has_part(uuid(*byte)), *is_part);
        same(rt, seen.names(uuid(*byte)), *is_named);
    }
}

const FOUND: &[(u8, bool, bool)] = &[
    (0x11, true, true),
    (0x22, true, false),
    (0x33, false, false),
];

#[test]
fn heads_are_found_in_order(rt: HostRuntime) -> Result<(), Fail> {
    let seen = surveyed(rt.alloc(), WITHOUT_DATA, SECOND)?;
    same(&rt, last_key(&seen), Some(key(0x22, 2)));
    same(
        &rt,
        seen.last().is_some_and(|last| last.has_name(b"b")),
        true,
    );
    same(&rt, seen.version(), 1);
    same(&rt, seen.parts(), [uuid(0x11), uuid(0x22)].as_slice());
    are_found(&rt, &seen, FOUND);
    Ok(())
}

const WITH_CLONE: &[&[u8]] = &[HEADER, SUBVOL_A, MKFILE_Y, CLONE_FROM_B, END];

const NEXT: &[&[u8]] = &[HEADER, SNAPSHOT_C, END];

const NAMED: &[(u8, bool, bool)] = &[
    (0x11, true, false),
    (0x22, false, true),
    (0x33, true, false),
    (0x44, false, false),
];

// A clone names its source, and so does the head of a part its parent.
#[test]
fn parents_and_sources_of_clones_are_named(rt: HostRuntime) -> Result<(), Fail> {
    let seen = surveyed(rt.alloc(), WITH_CLONE, NEXT)?;
    are_found(&rt, &seen, NAMED);
    Ok(())
}

#[test]
fn nothing_behind_a_fault_is_looked_at(rt: HostRuntime) -> Result<(), Fail> {
    let seen = surveyed(rt.alloc(), FAULTY, WITHOUT_DATA)?;
    same(&rt, last_key(&seen), Some(key(0x22, 2)));
    same(&rt, seen.parts(), [uuid(0x22)].as_slice());
    Ok(())
}

// The front of a stream of version 2 with the last head, on another parent.
fn front(alloc: Global, seen: &Survey) -> Result<Blob, AllocError> {
    let mut front = Blob::new(alloc);
    if let Some(last) = seen.last() {
        last.begin_stream(Some(key(0x99, 7)), 2, &mut front)?;
    }
    Ok(front)
}

#[test]
fn a_stream_is_begun_in_the_version_that_is_asked_for(rt: HostRuntime) -> Result<(), Fail> {
    let seen = surveyed(rt.alloc(), WITHOUT_DATA, SECOND)?;
    let front = front(rt.alloc(), &seen)?;
    same(&rt, front.as_slice(), joined(rt.alloc(), FRONT)?.as_slice());
    Ok(())
}
