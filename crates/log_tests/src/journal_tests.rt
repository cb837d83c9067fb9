// What no clause says: that calls succeed, and what stands on the disk byte for byte.
ghost use Rattle.std.specs.Prelude.{IfOk, IfSome, OnOk};
ghost use Rattle.group_log.specs.Journal.{IsAtRest};

use crate::client::{publish_all, publish_and_read};
use crate::same::same;
use disk_model::{FlakyDisk, FuseDisk, MemDisk};
use group_log::{GroupPlace, Log, LogStop};
use std::alloc::Global;
use std::process::Abort;
use std::test::Fail;
use sx_base::{Disk, Failed};

const NEW: &[u8; 21] = b"sndstore\x02\0\0\0\0\0\0\0\0\x01\0\0\0";

// A store of the first format with a group that has no checksum.
const FIRST: &[u8; 32] = b"sndstore\x01\0\0\0\0\0\0\0\0\x01\0\0\x01\x02\0\0\0\0\0\0\0ab\0";

// The log at its end, and how many groups it has.
fn at_end<D: Disk>(disk: &mut D) -> Result<Option<(Log, u64)>, LogStop>
    ensures { IfOk result (λ found. IfSome found (λ end. IsAtRest (D.len disk.new) end.0)) }
{
    let mut log = Log::open(disk)?;
    for groups in 0..100 {
        if log.next(disk)?.is_none() {
            return Ok(Some((log, groups)));
        }
    }
    Ok(None)
}

// Publishes a group with these bytes, and counts what it did.
fn publish<D: Disk>(
    disk: &mut D,
    log: &mut Log,
    bytes: &[u8],
    begun: &mut u64,
    done: &mut u64,
) -> Result<(), LogStop>
    requires { IsAtRest (D.len disk.old) log.old }
    ensures { OnOk result (IsAtRest (D.len disk.new) log.new) }
{
    log.body(disk)?;
    log.append(disk, bytes)?;
    log.append(disk, &[0xff])?;
    log.prepare(disk)?;
    *begun = begun.saturating_add(1);
    log.publish(disk)?;
    *done = done.saturating_add(1);
    Ok(())
}

// Abandons a group and publishes two.
fn publish_two<D: Disk>(disk: &mut D, begun: &mut u64, done: &mut u64) -> Result<bool, LogStop> {
    let Some((mut log, _)) = at_end(disk)? else {
        return Ok(false);
    };
    log.body(disk)?;
    log.append(disk, &[1; 40])?;
    log.abandon();
    publish(disk, &mut log, b"one", begun, done)?;
    publish(disk, &mut log, b"three", begun, done)?;
    Ok(true)
}

// Each image that a crash may leave has so many groups.
fn expect_groups(
    rt: &impl Abort,
    alloc: Global,
    disk: &MemDisk,
    least: u64,
    most: u64,
) -> Result<(), Fail> {
    for choice in 0..16 {
        let mut left = disk.crash(alloc, choice)?;
        let found = at_end(&mut left)?.map_or(99, |end| end.1);
        same(rt, (choice, found < least), (choice, false));
        same(rt, (choice, most < found), (choice, false));
    }
    Ok(())
}

// Crashes at each call that publishing two groups makes, on a disk with these bytes and so many
// groups.
fn crash_at_each_call(
    rt: &impl Abort,
    alloc: Global,
    image: &[u8],
    groups: u64,
) -> Result<(), Fail> {
    let mut whole = false;
    for calls in 0..60 {
        let mut fuse = FuseDisk::new(MemDisk::new(alloc, image)?, calls);
        let mut begun = groups;
        let mut done = groups;
        let outcome = publish_two(&mut fuse, &mut begun, &mut done);
        whole = matches!(outcome, Ok(true));
        expect_groups(rt, alloc, &fuse.into_inner(), done, begun)?;
        if whole {
            same(rt, done, groups.saturating_add(2));
            break;
        }
    }
    same(rt, whole, true);
    Ok(())
}

#[test]
fn a_crash_leaves_whole_groups(rt: HostRuntime) -> Result<(), Fail> {
    let alloc = rt.alloc();
    crash_at_each_call(&rt, alloc, NEW, 0)?;
    crash_at_each_call(&rt, alloc, FIRST, 1)
}

// Publishes two groups with each call alone that fails, and opens the log again on the disk that
// goes on.
fn fault_at_each_call(
    rt: &impl Abort,
    alloc: Global,
    image: &[u8],
    groups: u64,
) -> Result<(), Fail> {
    let mut whole = false;
    for call in 1..60 {
        let failing = vec![in alloc; call; 1]?;
        let mut flaky = FlakyDisk::new(MemDisk::new(alloc, image)?, failing);
        let mut begun = groups;
        let mut done = groups;
        let outcome = publish_two(&mut flaky, &mut begun, &mut done);
        whole = matches!(outcome, Ok(true));
        if whole {
            same(rt, done, groups.saturating_add(2));
            break;
        }
        let found = at_end(&mut flaky)?.map_or(99, |end| end.1);
        same(rt, (call, found < done), (call, false));
        same(rt, (call, begun < found), (call, false));
        expect_groups(rt, alloc, &flaky.into_inner(), found, found)?;
    }
    same(rt, whole, true);
    Ok(())
}

#[test]
fn a_fault_leaves_whole_groups(rt: HostRuntime) -> Result<(), Fail> {
    let alloc = rt.alloc();
    fault_at_each_call(&rt, alloc, NEW, 0)?;
    fault_at_each_call(&rt, alloc, FIRST, 1)
}

// The group at fault, or how many groups there are.
fn judged(alloc: Global, bytes: &[u8]) -> Result<Result<u64, u64>, Fail> {
    let mut disk = MemDisk::new(alloc, bytes)?;
    match at_end(&mut disk) {
        Ok(found) => Ok(Ok(found.map_or(99, |end| end.1))),
        Err(LogStop::NotStore { group }) => Ok(Err(group)),
        Err(_) => Ok(Err(99)),
    }
}

// Headers that are cut short, or have another text or format.
const HEADERS: &[&[u8]] = &[
    b"",
    b"sndstore\x02\0\0\0\0\0\0\0\0\x01\0",
    b"sndstorf\x02\0\0\0\0\0\0\0\0\x01\0\0\0",
    b"sndstore\0\0\0\0\0\0\0\0\0\x01\0\0\0",
    b"sndstore\x03\0\0\0\0\0\0\0\0\x01\0\0\0",
    b"sndstore\x02\0\0\x01\0\0\0\0\0\x01\0\0\0",
];

#[test]
fn each_fault_of_a_header_is_that_of_group_0(rt: HostRuntime) -> Result<(), Fail> {
    for bytes in HEADERS {
        same(&rt, judged(rt.alloc(), bytes)?, Err(0));
    }
    Ok(())
}

// What stands behind the header.
const JOURNALS: &[(&[u8], Result<u64, u64>)] = &[
    (b"", Err(1)),
    (b"\0", Ok(0)),
    (b"\x07", Ok(0)),
    (b"\xff\x01\x02", Ok(0)),
    (b"\x01", Err(1)),
    (b"\x01\x02\0\0\0\0\0\0", Err(1)),
    (b"\x01\x02\0\0\0\0\0\0\0a", Err(1)),
    (b"\x01\xff\xff\xff\xff\xff\xff\xff\xffab", Err(1)),
    (b"\x01\x02\0\0\0\0\0\0\0ab", Err(2)),
    (b"\x01\x02\0\0\0\0\0\0\0ab\0", Ok(1)),
    (b"\x01\x02\0\0\0\0\0\0\0ab\x01\0\0\0\0\0\0\0\0\0", Ok(2)),
    (b"\x01\0\0\0\0\0\0\0\0\x01\x01\0\0\0\0\0\0", Err(2)),
];

// The verdict on a journal behind a header.
fn judged_behind(alloc: Global, header: &[u8], journal: &[u8]) -> Result<Result<u64, u64>, Fail> {
    let mut bytes = header.to_vec(alloc)?;
    bytes.extend_from_slice(journal)?;
    judged(alloc, &bytes)
}

#[test]
fn each_fault_of_a_group_has_its_number(rt: HostRuntime) -> Result<(), Fail> {
    for &(journal, verdict) in JOURNALS {
        same(
            &rt,
            judged_behind(rt.alloc(), &NEW[..20], journal)?,
            verdict,
        );
        same(
            &rt,
            judged_behind(rt.alloc(), &FIRST[..20], journal)?,
            verdict,
        );
    }
    Ok(())
}

// Adds a group to a log at its end, and reads seven bytes from this place on. Gives the format and
// the first group.
fn added(
    disk: &mut MemDisk,
    at: u64,
    back: &mut [u8; 7],
) -> Result<Option<(u32, GroupPlace)>, LogStop> {
    let Some((mut log, _)) = at_end(disk)? else {
        return Ok(None);
    };
    publish(disk, &mut log, b"ab", &mut 0, &mut 0)?;
    let size = disk.size()?;
    if at > size || size - at < 7 {
        return Ok(None);
    }
    log.read(disk, at, back)?;
    let mut log = Log::open(disk)?;
    let first = log.next(disk)?;
    Ok(first.map(|place| (log.format(), place)))
}

// Whether the format is this, and the first group so long and at its place behind the header.
fn is_first(added: Result<Option<(u32, GroupPlace)>, LogStop>, format: u32, len: u64) -> bool {
    let first = GroupPlace {
        number: 1,
        at: 29,
        len,
    };
    matches!(added, Ok(Some((of, place))) if of == format && place == first)
}

// Whether making a store over another is answered by the size of that one.
fn is_there(made: Result<(), LogStop>, size_there: u64) -> bool {
    matches!(made, Err(LogStop::StoreThere { size }) if size == size_there)
}

// The checksum of "ab\xff" behind these bytes, taken bit by bit.
const ADDED: &[u8; 7] = b"ab\xff\x0a\xaf\xc4\x89";

#[test]
fn a_new_store_takes_a_group(rt: HostRuntime) -> Result<(), Fail> {
    let mut disk = MemDisk::new(rt.alloc(), b"")?;
    let mut back = [0; 7];
    same(&rt, Log::create(&mut disk).is_ok(), true);
    same(&rt, is_first(added(&mut disk, 29, &mut back), 2, 7), true);
    same(&rt, back, *ADDED);
    same(&rt, disk.size(), Ok(37));
    same(&rt, is_there(Log::create(&mut disk), 37), true);
    same(&rt, disk.refused(), 0);
    Ok(())
}

// The first bytes of an image.
fn read_first(disk: &mut MemDisk) -> Result<(usize, [u8; 32]), Failed> {
    let mut image = [0; 32];
    let count = disk.read(0, &mut image)?;
    Ok((count, image))
}

#[test]
fn a_store_is_not_made_over_another(rt: HostRuntime) -> Result<(), Fail> {
    // Where even the size is not told, the store must stay.
    for calls in 0..5 {
        let mut fuse = FuseDisk::new(MemDisk::new(rt.alloc(), FIRST)?, calls);
        same(&rt, Log::create(&mut fuse).is_err(), true);
        let disk = fuse.into_inner();
        for choice in 0..4 {
            let mut image = disk.crash(rt.alloc(), choice)?;
            same(&rt, read_first(&mut image), Ok((32, *FIRST)));
        }
    }
    Ok(())
}

// What a read of the bytes from a place on gives, if there are as many.
fn expect_at<const N: usize>(
    rt: &impl Abort,
    disk: &mut MemDisk,
    at: u64,
    bytes: &[u8; N],
) -> Result<(), Failed> {
    let mut buf = [0; N];
    same(rt, disk.read(at, &mut buf)?, N);
    same(rt, buf.as_slice(), bytes.as_slice());
    Ok(())
}

#[test]
fn a_store_of_the_first_format_takes_a_group(rt: HostRuntime) -> Result<(), Fail> {
    let mut disk = MemDisk::new(rt.alloc(), FIRST)?;
    let mut back = [0; 7];
    same(&rt, is_first(added(&mut disk, 40, &mut back), 1, 2), true);
    same(&rt, back, *ADDED);
    expect_at(
        &rt,
        &mut disk,
        0,
        b"sndstore\x01\0\0\0\0\0\0\0\0\x01\0\0\x01\x02\0\0\0\0\0\0\0ab",
    )?;
    expect_at(
        &rt,
        &mut disk,
        31,
        b"\x01\x07\0\0\0\0\0\0\0ab\xff\x0a\xaf\xc4\x89\0",
    )?;
    Ok(())
}

// How many groups there are.
fn count(disk: &mut MemDisk) -> Result<u64, LogStop> {
    Ok(at_end(disk)?.map_or(99, |end| end.1))
}

// A new store with a group behind it that was not synced.
fn written_behind(alloc: Global) -> Result<MemDisk, Fail> {
    let mut disk = MemDisk::new(alloc, NEW)?;
    let group = FIRST;
    disk.write_at(20, &group[20..])?;
    Ok(disk)
}

#[test]
fn what_an_open_log_reads_is_stable(rt: HostRuntime) -> Result<(), Fail> {
    let mut disk = written_behind(rt.alloc())?;
    same(&rt, count(&mut disk.crash(rt.alloc(), 1)?)?, 0);
    for _ in 0..2 {
        same(&rt, count(&mut disk)?, 1);
        disk = disk.crash(rt.alloc(), 1)?;
    }
    Ok(())
}

// Adds so many bytes to a store with room for six, and one more group.
fn filled(disk: &mut MemDisk, bytes: &[u8]) -> Result<u64, LogStop> {
    let Some((mut log, _)) = at_end(disk)? else {
        return Ok(0);
    };
    log.body(disk)?;
    let end = log.end();
    log.append(disk, bytes)?;
    log.prepare(disk)?;
    log.publish(disk)?;
    log.body(disk)?;
    Ok(end)
}

// The end, what was wanted and the limit of a log that is full.
fn full(filled: Result<u64, LogStop>) -> Option<(u64, u64, u64)> {
    match filled {
        Err(LogStop::LogFull { end, wanted, limit }) => Some((end, wanted, limit)),
        _ => None,
    }
}

// The limit, how many bytes are added, and where the log is full.
const FULL: &[(u8, usize, u64, u64)] = &[
    (40, 6, 39, 9),
    (40, 7, 29, 7),
    (34, 0, 33, 9),
    (34, 1, 29, 1),
    (33, 0, 20, 9),
];

#[test]
fn a_full_log_says_where_it_ends(rt: HostRuntime) -> Result<(), Fail> {
    for &(limit, count, end, wanted) in FULL {
        let mut header = *NEW;
        header[12] = limit;
        header[17] = 0;
        let mut disk = MemDisk::new(rt.alloc(), &header)?;
        let bytes = [1; 7];
        let filled = filled(&mut disk, &bytes[..count.min(7)]);
        same(&rt, full(filled), Some((end, wanted, limit as u64)));
    }
    Ok(())
}

// Publishes these groups, and then the last of them again, the first bytes of which it reads back.
fn publish_groups(
    disk: &mut MemDisk,
    groups: &[Vec<Vec<u8>>],
    back: &mut [u8; 3],
) -> Result<Option<u64>, LogStop> {
    let Some((mut log, _)) = at_end(disk)? else {
        return Ok(None);
    };
    publish_all(&mut log, disk, groups)?;
    let [.., last] = groups else {
        return Ok(None);
    };
    let [first, ..] = last.as_slice() else {
        return Ok(None);
    };
    if first.len() < 3 {
        return Ok(None);
    }
    publish_and_read(&mut log, disk, last.as_slice(), back)?;
    Ok(at_end(disk)?.map(|end| end.1))
}

// Groups of no piece up to three, each of three bytes.
fn four_groups(alloc: Global) -> Result<Vec<Vec<Vec<u8>>>, Fail> {
    let mut groups = Vec::new(alloc);
    for count in 0..4_u8 {
        let mut pieces = Vec::new(alloc);
        for piece in 0..count {
            pieces.push(vec![in alloc; piece; 3]?)?;
        }
        groups.push(pieces)?;
    }
    Ok(groups)
}

// How many groups there are where all are published; none where they are not.
fn published(answer: Result<Option<u64>, LogStop>) -> Option<u64> {
    match answer {
        Ok(count) => count,
        Err(_) => None,
    }
}

#[test]
fn groups_of_several_pieces_are_published(rt: HostRuntime) -> Result<(), Fail> {
    let groups = four_groups(rt.alloc())?;
    let mut disk = MemDisk::new(rt.alloc(), NEW)?;
    let mut back = [7; 3];
    let answer = publish_groups(&mut disk, &groups, &mut back);
    same(&rt, published(answer), Some(5));
    same(&rt, back, [0; 3]);
    // Five groups with their gates, lengths and checksums, and the pieces in them.
    same(&rt, disk.size(), Ok(20 + 5 * 13 + 3 * (1 + 2 + 3 + 3) + 1));
    Ok(())
}
