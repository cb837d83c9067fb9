// Files that take turns over objects in memory. The frames are from another program.
use crate::places::are_places;
use crate::same::same;
use disk_model::MemDisk;
use guard_rules::{AnyGuard, GuardSpec};
use receiver::GuardList;
use std::alloc::{AllocError, Global};
use std::test::Fail;
use store_commands::{StoreEnd, list_store};
use store_journal::Store;
use sx_base::{Disk, MemInputs, MemSink, Outcome, Refusal, Verdict};
use turn_sessions::{Task, interleave_store};

// SUBVOL a; MKFILE x; WRITE x 0 "hi"; END
pub(crate) const A: &[u8] =
    b"btrfs-stream\0\x01\0\0\0%\0\0\0\x01\033C\xee\x01\0\x10\0\x11\x11\x11\x11\x11\x11\x11\x11\x11\x11\x11\x11\x11\x11\x11\x11\x02\0\x08\0\x01\0\0\0\0\0\0\0\x0f\0\x01\0a\x05\0\0\0\x03\0/\x8a6s\x0f\0\x01\0x\x17\0\0\0\x0f\0C~\xee_\x0f\0\x01\0x\x12\0\x08\0\0\0\0\0\0\0\0\0\x13\0\x02\0hi\0\0\0\0\x15\0Pl\xc9\x9d";

// SNAPSHOT b of a; WRITE x 2 "!"; END
pub(crate) const B: &[u8] =
    b"btrfs-stream\0\x01\0\0\0E\0\0\0\x02\0\xca\x93\xbf\xed\x01\0\x10\0\x22\x22\x22\x22\x22\x22\x22\x22\x22\x22\x22\x22\x22\x22\x22\x22\x02\0\x08\0\x02\0\0\0\0\0\0\0\x0f\0\x01\0b\x14\0\x10\0\x11\x11\x11\x11\x11\x11\x11\x11\x11\x11\x11\x11\x11\x11\x11\x11\x15\0\x08\0\x01\0\0\0\0\0\0\0\x16\0\0\0\x0f\0\x95\xb7Kw\x0f\0\x01\0x\x12\0\x08\0\x02\0\0\0\0\0\0\0\x13\0\x01\0!\0\0\0\0\x15\0Pl\xc9\x9d";

// SUBVOL c; MKFILE y; END
pub(crate) const C: &[u8] =
    b"btrfs-stream\0\x01\0\0\0%\0\0\0\x01\0\x07\xecu\xf5\x01\0\x10\03333333333333333\x02\0\x08\0\x03\0\0\0\0\0\0\0\x0f\0\x01\0c\x05\0\0\0\x03\0,\x09]\x81\x0f\0\x01\0y\0\0\0\0\x15\0Pl\xc9\x9d";

pub(crate) const LINE_A: &[u8] = b"complete a 11111111-1111-1111-1111-111111111111 1\n";

const LINE_C: &[u8] = b"complete c 33333333-3333-3333-3333-333333333333 3\n";

pub(crate) const LINES_AB: &[u8] = b"complete a 11111111-1111-1111-1111-111111111111 1
complete b 22222222-2222-2222-2222-222222222222 2
";

pub(crate) const LINES_AC: &[u8] = b"complete a 11111111-1111-1111-1111-111111111111 1
complete c 33333333-3333-3333-3333-333333333333 3
";

pub(crate) const LINES_CA: &[u8] = b"complete c 33333333-3333-3333-3333-333333333333 3
complete a 11111111-1111-1111-1111-111111111111 1
";

const LIST_A: &[u8] = b"a 11111111-1111-1111-1111-111111111111 1 complete -\n";

const LIST_AC: &[u8] = b"a 11111111-1111-1111-1111-111111111111 1 complete -
c 33333333-3333-3333-3333-333333333333 3 complete -
";

pub(crate) const DONE: StoreEnd = StoreEnd::Ends(Outcome::Done);

// Two files, and their names.
pub(crate) struct Files {
    pub(crate) inputs: MemInputs,
    pub(crate) names: Vec<String>,
}

pub(crate) fn input_files(alloc: Global, all: &[&[u8]]) -> Result<Files, AllocError> {
    let mut inputs = MemInputs::new(alloc);
    let mut names = Vec::new(alloc);
    let letters = ["1", "2", "3"];
    for place in 0..all.len().min(3) {
        inputs.add(letters[place], all[place])?;
        names.push(String::from_str(alloc, letters[place])?)?;
    }
    Ok(Files { inputs, names })
}

// Guards of a session: of so many bytes.
fn guards_of(alloc: Global, most: u64) -> Result<GuardList<AnyGuard>, AllocError> {
    let mut list = Vec::new(alloc);
    list.push(AnyGuard::new(GuardSpec::Bytes(most)))?;
    Ok(GuardList::new(list))
}

// Guards of two sessions: of so many bytes of the first, and of all bytes of the second.
pub(crate) fn both_guards(
    alloc: Global,
    most: u64,
) -> Result<Vec<GuardList<AnyGuard>>, AllocError> {
    let mut all = Vec::new(alloc);
    all.push(guards_of(alloc, most)?)?;
    all.push(guards_of(alloc, 100)?)?;
    Ok(all)
}

// A new store that is empty.
pub(crate) fn new_store(alloc: Global) -> Result<MemDisk, Fail> {
    let mut disk = MemDisk::new(alloc, b"")?;
    Store::create(&mut disk)?;
    Ok(disk)
}

// How two files that take turns end, the first under a guard of so many bytes. An error where a
// digit of the schedule is no file's, or there are not as many files.
pub(crate) fn interleaved<D: Disk>(
    alloc: Global,
    disk: &mut D,
    schedule: &[u8],
    all: &[&[u8]],
    most: u64,
    out: &mut MemSink,
) -> Result<StoreEnd, AllocError> {
    let Files { mut inputs, names } = input_files(alloc, all)?;
    let guards = both_guards(alloc, most)?;
    if guards.len() != names.len() || !are_places(schedule, names.len()) {
        return Err(AllocError);
    }
    let task = Task {
        alloc,
        files: names.as_slice(),
        schedule,
    };
    Ok(interleave_store(&task, disk, &mut inputs, guards, out))
}

// A refusal.
pub(crate) fn refusal(file: u64, command: u64, offset: u64, refusal: Refusal) -> StoreEnd {
    StoreEnd::Ends(Outcome::Refused(Verdict {
        file,
        command,
        offset,
        refusal,
    }))
}

// What is listed of a store.
fn lists(alloc: Global, disk: &mut MemDisk, list: &[u8]) -> Result<bool, Fail> {
    let mut out = MemSink::new(alloc);
    let end = list_store(alloc, disk, &mut out);
    Ok(end == DONE && out.bytes() == list)
}

#[test]
fn a_snapshot_that_begins_too_early_is_refused(rt: HostRuntime) -> Result<(), Fail> {
    let alloc = rt.alloc();
    let mut disk = new_store(alloc)?;
    let mut out = MemSink::new(alloc);
    let end = interleaved(alloc, &mut disk, b"01", &[A, B], 100, &mut out)?;
    same(&rt, end, refusal(2, 1, 17, Refusal::NoParent));
    same(&rt, out.bytes(), LINE_A);
    same(&rt, lists(alloc, &mut disk, LIST_A)?, true);
    Ok(())
}

#[test]
fn a_snapshot_that_begins_in_time_is_complete(rt: HostRuntime) -> Result<(), Fail> {
    let alloc = rt.alloc();
    let mut disk = new_store(alloc)?;
    let mut out = MemSink::new(alloc);
    let end = interleaved(alloc, &mut disk, b"00001", &[A, B], 100, &mut out)?;
    same(&rt, end, DONE);
    same(&rt, out.bytes(), LINES_AB);
    Ok(())
}

#[test]
fn lines_come_in_the_order_of_completion(rt: HostRuntime) -> Result<(), Fail> {
    let alloc = rt.alloc();
    let mut disk = new_store(alloc)?;
    let mut out = MemSink::new(alloc);
    let end = interleaved(alloc, &mut disk, b"01111", &[A, C], 100, &mut out)?;
    same(&rt, end, DONE);
    same(&rt, out.bytes(), LINES_CA);
    same(&rt, lists(alloc, &mut disk, LIST_AC)?, true);
    Ok(())
}

#[test]
fn a_guard_is_of_its_own_session(rt: HostRuntime) -> Result<(), Fail> {
    let alloc = rt.alloc();
    let mut disk = new_store(alloc)?;
    let mut out = MemSink::new(alloc);
    let end = interleaved(alloc, &mut disk, b"01", &[A, C], 1, &mut out)?;
    same(
        &rt,
        end,
        refusal(1, 3, 79, Refusal::Guarded { guard: 0, used: 0 }),
    );
    same(&rt, out.bytes(), LINE_C);
    Ok(())
}
