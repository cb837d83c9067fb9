// Feeds over a file in pieces. The bytes are from another program.
use crate::same::same;
use std::alloc::AllocFailed;
use std::process::Abort;
use std::test::Fail;
use sx_base::Refusal;
use tlv_frame::{Feed, Passed, Unit};

// A stream with a SNAPSHOT, a WRITE of one byte and END.
const FILE: &[u8] =
    b"btrfs-stream\x00\x01\x00\x00\x00E\x00\x00\x00\x02\x00\xca\x93\xbf\xed\x01\x00\x10\x00\"\"\"\"\"\"\"\"\"\"\"\"\"\"\"\"\x02\x00\x08\x00\x02\x00\x00\x00\x00\x00\x00\x00\x0f\x00\x01\x00b\x14\x00\x10\x00\x11\x11\x11\x11\x11\x11\x11\x11\x11\x11\x11\x11\x11\x11\x11\x11\x15\x00\x08\x00\x01\x00\x00\x00\x00\x00\x00\x00\x16\x00\x00\x00\x0f\x00\x95\xb7Kw\x0f\x00\x01\x00x\x12\x00\x08\x00\x02\x00\x00\x00\x00\x00\x00\x00\x13\x00\x01\x00!\x00\x00\x00\x00\x15\x00Pl\xc9\x9d";

// The version of the header, and the number and the length of each frame.
const UNITS: &[(u16, u32)] = &[(0, 1), (2, 69), (15, 22), (21, 0)];

// Takes all units that are there, and gives the refusal if there is one.
fn drain(
    feed: &mut Feed,
    seen: &mut Vec<(u16, u32)>,
) -> Result<Option<Refusal>, AllocFailed<(u16, u32)>> {
    for _ in 0..100 {
        match feed.next() {
            Ok(Some(Unit::Head(head))) => seen.push((0, head.version))?,
            Ok(Some(Unit::Frame { head, .. })) => seen.push((head.cmd, head.len))?,
            Ok(None) => return Ok(None),
            Err(refusal) => return Ok(Some(refusal)),
        }
    }
    Ok(None)
}

// The feed takes the piece, and gives all units of it.
fn give(
    rt: &impl Abort,
    feed: &mut Feed,
    seen: &mut Vec<(u16, u32)>,
    piece: &[u8],
) -> Result<(), AllocFailed<(u16, u32)>> {
    same(rt, feed.give(piece), piece.len());
    same(rt, drain(feed, seen)?, None);
    Ok(())
}

#[test]
fn pieces_of_any_size_give_the_same(rt: HostRuntime) -> Result<(), Fail> {
    for size in 1..=20 {
        let mut feed = Feed::new(rt.alloc())?;
        let mut seen = Vec::new(rt.alloc());
        for piece in FILE.chunks(size) {
            same(&rt, feed.whole(), false);
            give(&rt, &mut feed, &mut seen, piece)?;
        }
        same(&rt, seen.as_slice(), UNITS);
        same(&rt, feed.whole(), true);
        same(&rt, feed.last(), &FILE[FILE.len() - 10..]);
    }
    Ok(())
}

#[test]
fn a_file_that_is_cut_is_not_whole(rt: HostRuntime) -> Result<(), Fail> {
    for cut in 0..FILE.len() {
        let mut feed = Feed::new(rt.alloc())?;
        let mut seen = Vec::new(rt.alloc());
        give(&rt, &mut feed, &mut seen, &FILE[..cut])?;
        same(&rt, UNITS.starts_with(&seen), true);
        same(&rt, seen.len() < 4, true);
        same(&rt, feed.whole(), false);
    }
    Ok(())
}

// What a feed says of bytes behind a header, and then again with more bytes.
fn refused(rt: &impl Abort, feed: &mut Feed, bytes: &[u8]) -> Option<Refusal> {
    feed.give(&FILE[..17]);
    assert!(rt; feed.next().is_ok());
    feed.give(bytes);
    let first = feed.next().err();
    feed.give(FILE);
    same(rt, feed.next().err(), first);
    first
}

const REFUSED: &[(&[u8], Refusal)] = &[
    (
        b"\x01\x00\x04\x00\x15\x00\x00\x00\x00\x00",
        Refusal::LongCommand(262_145),
    ),
    (
        b"\x00\x00\x00\x00\x15\x00\x01\x00\x00\x00",
        Refusal::BadChecksum {
            stored: 1,
            computed: 0x9dc9_6c50,
        },
    ),
];

#[test]
fn a_refusal_stays(rt: HostRuntime) -> Result<(), Fail> {
    for &(bytes, want) in REFUSED {
        let mut feed = Feed::new(rt.alloc())?;
        same(&rt, refused(&rt, &mut feed, bytes), Some(want));
    }
    let mut feed = Feed::new(rt.alloc())?;
    feed.give(b"btrfs-stream\x00\x03\x00\x00\x00");
    same(&rt, feed.next().err(), Some(Refusal::BadVersion(3)));
    Ok(())
}

#[test]
fn a_feed_takes_what_it_has_room_for(rt: HostRuntime) -> Result<(), Fail> {
    let mut piece = Vec::new(rt.alloc());
    piece.resize(100_000, 0)?;
    let mut feed = Feed::new(rt.alloc())?;
    feed.give(FILE);
    same(&rt, feed.next().is_ok(), true);
    for _ in 0..5 {
        same(&rt, feed.give(&piece), 100_000);
    }
    same(
        &rt,
        feed.give(&piece),
        524_288 - 500_000 - (FILE.len() - 17),
    );
    same(&rt, feed.give(&piece), 0);
    Ok(())
}

// How many bytes the frame or the header has that is passed next, if it is this one.
fn passed(feed: &mut Feed, cmd: u16, len: u32) -> usize {
    match feed.pass() {
        Ok(Some(Passed::Head(head))) if cmd == 0 && head.version == len => 17,
        Ok(Some(Passed::Frame { head, version: 1 })) if head.cmd == cmd && head.len == len => {
            (len as usize).saturating_add(10)
        }
        _ => 0,
    }
}

#[test]
fn the_bytes_of_what_was_passed_are_the_last_ones(rt: HostRuntime) -> Result<(), Fail> {
    let mut feed = Feed::new(rt.alloc())?;
    feed.give(FILE);
    for &(cmd, len) in UNITS {
        let size = passed(&mut feed, cmd, len);
        same(&rt, size > 0, true);
        same(&rt, feed.last().len(), size);
    }
    same(&rt, feed.whole(), true);
    Ok(())
}
