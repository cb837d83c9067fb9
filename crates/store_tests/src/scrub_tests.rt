// What no clause says: that calls succeed, and images made by hand with checksums from another
// program.
use crate::same::same;
use disk_model::{FlakyDisk, FuseDisk, MemDisk};
use group_log::LogStop;
use std::alloc::Global;
use std::test::Fail;
use store_scrub::{GroupKind, ScrubStop, kind_of, scrub};
use sx_base::Disk;

// What a scrub comes to, by its numbers.
#[derive(Debug, Clone, Copy, PartialEq, Eq)]
enum Answer {
    Found(u64, u64),
    Damaged(u64, u32, u32),
    NoStore(u64),
    Fault,
    Other,
}

fn scrubbed<D: Disk>(disk: &mut D) -> Answer {
    match scrub(disk) {
        Ok(found) => Answer::Found(found.groups, found.unsealed),
        Err(
            ScrubStop::Damaged {
                group,
                stored,
                computed,
            },
        ) => Answer::Damaged(group, stored, computed),
        Err(ScrubStop::Log(LogStop::NotStore { group })) => Answer::NoStore(group),
        Err(ScrubStop::Log(LogStop::DiskFault)) => Answer::Fault,
        Err(ScrubStop::Log(_)) => Answer::Other,
    }
}

const IMAGES: &[(&str, &[u8], Answer)] = &[
    (
        "no group, format 2",
        b"sndstore\x02\0\0\0\0\0\0\0\0\x01\0\0\0",
        Answer::Found(0, 0),
    ),
    (
        "no group, format 1",
        b"sndstore\x01\0\0\0\0\0\0\0\0\x01\0\0\0",
        Answer::Found(0, 0),
    ),
    (
        "three sealed groups",
        b"sndstore\x02\0\0\0\0\0\0\0\0\x01\0\0\x01\x08\0\0\0\0\0\0\0\x04abc>\xad\x0d-\x01\x09\0\0\0\0\0\0\0\x05defg\x97e\x14\x9e\x01\x06\0\0\0\0\0\0\0\x06h\x9f\x9a\xd0\x82\0",
        Answer::Found(3, 0),
    ),
    (
        "sealed groups in format 1",
        b"sndstore\x01\0\0\0\0\0\0\0\0\x01\0\0\x01\x08\0\0\0\0\0\0\0\x04abc>\xad\x0d-\x01\x09\0\0\0\0\0\0\0\x05defg\x97e\x14\x9e\x01\x06\0\0\0\0\0\0\0\x06h\x9f\x9a\xd0\x82\0",
        Answer::Found(3, 0),
    ),
    (
        "old groups",
        b"sndstore\x01\0\0\0\0\0\0\0\0\x01\0\0\x01\x04\0\0\0\0\0\0\0\x01abc\x01\x05\0\0\0\0\0\0\0\x02defg\x01\x02\0\0\0\0\0\0\0\x03h\0",
        Answer::Found(3, 3),
    ),
    (
        "both sorts",
        b"sndstore\x01\0\0\0\0\0\0\0\0\x01\0\0\x01\x04\0\0\0\0\0\0\0\x01abc\x01\x08\0\0\0\0\0\0\0\x04abc>\xad\x0d-\x01\x05\0\0\0\0\0\0\0\x02defg\x01\x09\0\0\0\0\0\0\0\x05defg\x97e\x14\x9e\0",
        Answer::Found(4, 2),
    ),
    (
        "a kind alone",
        b"sndstore\x01\0\0\0\0\0\0\0\0\x01\0\0\x01\x01\0\0\0\0\0\0\0\x01\x01\x01\0\0\0\0\0\0\0\x03\0",
        Answer::Found(2, 2),
    ),
    (
        "a kind and a checksum",
        b"sndstore\x02\0\0\0\0\0\0\0\0\x01\0\0\x01\x05\0\0\0\0\0\0\0\x05\x1c\x14\xf15\0",
        Answer::Found(1, 0),
    ),
    (
        "another closed gate",
        b"sndstore\x02\0\0\0\0\0\0\0\0\x01\0\0\x01\x08\0\0\0\0\0\0\0\x04abc>\xad\x0d-\x07\x01\x09\0\0\0\0\0\0\0\x05defg\x97e\x14\x9e",
        Answer::Found(1, 0),
    ),
    (
        "bytes behind the end",
        b"sndstore\x02\0\0\0\0\0\0\0\0\x01\0\0\x01\x08\0\0\0\0\0\0\0\x04abc>\xad\x0d-\0\x01\x02",
        Answer::Found(1, 0),
    ),
    (
        "a byte was changed",
        b"sndstore\x02\0\0\0\0\0\0\0\0\x01\0\0\x01\x08\0\0\0\0\0\0\0\x04abd>\xad\x0d-\0",
        Answer::Damaged(1, 0x2d0dad3e, 0xf9c7c9d5),
    ),
    (
        "the checksum was changed",
        b"sndstore\x02\0\0\0\0\0\0\0\0\x01\0\0\x01\x08\0\0\0\0\0\0\0\x04abc?\xad\x0d-\0",
        Answer::Damaged(1, 0x2d0dad3f, 0x2d0dad3e),
    ),
    (
        "its last byte was changed",
        b"sndstore\x02\0\0\0\0\0\0\0\0\x01\0\0\x01\x08\0\0\0\0\0\0\0\x04abc>\xad\x0d\xad\0",
        Answer::Damaged(1, 0xad0dad3e, 0x2d0dad3e),
    ),
    (
        "another kind",
        b"sndstore\x02\0\0\0\0\0\0\0\0\x01\0\0\x01\x08\0\0\0\0\0\0\0\x05abc>\xad\x0d-\0",
        Answer::Damaged(1, 0x2d0dad3e, 0xf0480786),
    ),
    (
        "the second group",
        b"sndstore\x02\0\0\0\0\0\0\0\0\x01\0\0\x01\x08\0\0\0\0\0\0\0\x04abc>\xad\x0d-\x01\x09\0\0\0\0\0\0\0\x05dffg\x97e\x14\x9e\x01\x01\0\0\0\0\0\0\0\x04\0",
        Answer::Damaged(2, 0x9e146597, 0x743aa5e4),
    ),
    (
        "in format 1",
        b"sndstore\x01\0\0\0\0\0\0\0\0\x01\0\0\x01\x04\0\0\0\0\0\0\0\x01abc\x01\x08\0\0\0\0\0\0\0\x04abd>\xad\x0d-\0",
        Answer::Damaged(2, 0x2d0dad3e, 0xf9c7c9d5),
    ),
    (
        "an old group has none",
        b"sndstore\x01\0\0\0\0\0\0\0\0\x01\0\0\x01\x04\0\0\0\0\0\0\0\x01abd\0",
        Answer::Found(1, 1),
    ),
    ("an empty disk", b"", Answer::NoStore(0)),
    (
        "a short header",
        b"sndstore\x02\0\0\0\0\0\0\0\0\x01\0",
        Answer::NoStore(0),
    ),
    (
        "another text",
        b"rndstore\x02\0\0\0\0\0\0\0\0\x01\0\0\0",
        Answer::NoStore(0),
    ),
    (
        "format 0",
        b"sndstore\0\0\0\0\0\0\0\0\0\x01\0\0\0",
        Answer::NoStore(0),
    ),
    (
        "format 3",
        b"sndstore\x03\0\0\0\0\0\0\0\0\x01\0\0\0",
        Answer::NoStore(0),
    ),
    (
        "no gate",
        b"sndstore\x02\0\0\0\0\0\0\0\0\x01\0\0",
        Answer::NoStore(1),
    ),
    (
        "no gate behind a group",
        b"sndstore\x02\0\0\0\0\0\0\0\0\x01\0\0\x01\x08\0\0\0\0\0\0\0\x04abc>\xad\x0d-",
        Answer::NoStore(2),
    ),
    (
        "a gate alone",
        b"sndstore\x02\0\0\0\0\0\0\0\0\x01\0\0\x01",
        Answer::NoStore(1),
    ),
    (
        "a length that is cut short",
        b"sndstore\x02\0\0\0\0\0\0\0\0\x01\0\0\x01\x08\0\0\0\0\0\0\0\x04abc>\xad\x0d-\x01\x05\0\0\0\0\0\0",
        Answer::NoStore(2),
    ),
    (
        "a body that is cut short",
        b"sndstore\x02\0\0\0\0\0\0\0\0\x01\0\0\x01\x08\0\0\0\0\0\0\0\x04abc>\xad\x0d-\x01\x09\0\0\0\0\0\0\0\x05defg\x97e\x14",
        Answer::NoStore(2),
    ),
    (
        "the greatest length",
        b"sndstore\x02\0\0\0\0\0\0\0\0\x01\0\0\x01\xff\xff\xff\xff\xff\xff\xff\xff\x04abc",
        Answer::NoStore(1),
    ),
    (
        "an empty body",
        b"sndstore\x02\0\0\0\0\0\0\0\0\x01\0\0\x01\x08\0\0\0\0\0\0\0\x04abc>\xad\x0d-\x01\0\0\0\0\0\0\0\0\0",
        Answer::NoStore(2),
    ),
    (
        "an empty body in format 1",
        b"sndstore\x01\0\0\0\0\0\0\0\0\x01\0\0\x01\0\0\0\0\0\0\0\0\0",
        Answer::NoStore(1),
    ),
    (
        "kind 0",
        b"sndstore\x01\0\0\0\0\0\0\0\0\x01\0\0\x01\x08\0\0\0\0\0\0\0\0abc\xcd\x9c/V\0",
        Answer::NoStore(1),
    ),
    (
        "kind 7",
        b"sndstore\x02\0\0\0\0\0\0\0\0\x01\0\0\x01\x08\0\0\0\0\0\0\0\x04abc>\xad\x0d-\x01\x09\0\0\0\0\0\0\0\x05defg\x97e\x14\x9e\x01\x08\0\0\0\0\0\0\0\x07abc\x07$/O\0",
        Answer::NoStore(3),
    ),
    (
        "kind 255",
        b"sndstore\x02\0\0\0\0\0\0\0\0\x01\0\0\x01\x08\0\0\0\0\0\0\0\xffabc\x8ft,~\0",
        Answer::NoStore(1),
    ),
    (
        "kind 1 in format 2",
        b"sndstore\x02\0\0\0\0\0\0\0\0\x01\0\0\x01\x08\0\0\0\0\0\0\0\x04abc>\xad\x0d-\x01\x04\0\0\0\0\0\0\0\x01abc\0",
        Answer::NoStore(2),
    ),
    (
        "kind 2 in format 2",
        b"sndstore\x02\0\0\0\0\0\0\0\0\x01\0\0\x01\x05\0\0\0\0\0\0\0\x02defg\0",
        Answer::NoStore(1),
    ),
    (
        "kind 3 in format 2",
        b"sndstore\x02\0\0\0\0\0\0\0\0\x01\0\0\x01\x02\0\0\0\0\0\0\0\x03h\0",
        Answer::NoStore(1),
    ),
    (
        "kind 4 alone",
        b"sndstore\x02\0\0\0\0\0\0\0\0\x01\0\0\x01\x01\0\0\0\0\0\0\0\x04\0",
        Answer::NoStore(1),
    ),
    (
        "kind 5 and three bytes",
        b"sndstore\x02\0\0\0\0\0\0\0\0\x01\0\0\x01\x08\0\0\0\0\0\0\0\x04abc>\xad\x0d-\x01\x04\0\0\0\0\0\0\0\x05abc\0",
        Answer::NoStore(2),
    ),
    (
        "kind 6 and three bytes in format 1",
        b"sndstore\x01\0\0\0\0\0\0\0\0\x01\0\0\x01\x04\0\0\0\0\0\0\0\x01abc\x01\x04\0\0\0\0\0\0\0\x06abc\0",
        Answer::NoStore(2),
    ),
];

#[test]
fn images_are_scrubbed(rt: HostRuntime) -> Result<(), Fail> {
    for &(what, image, answer) in IMAGES {
        let mut disk = MemDisk::new(rt.alloc(), image)?;
        same(&rt, (what, scrubbed(&mut disk)), (what, answer));
    }
    Ok(())
}

// The checksums of a byte 5 and as many letters `a` behind it that all are so many bytes: around
// one piece that is read at once, two pieces, and the four bytes of a checksum behind them.
const LENGTHS: &[(usize, u32)] = &[
    (16_383, 0xdade_0ad9),
    (16_384, 0x3816_f40c),
    (16_385, 0xded6_c945),
    (16_386, 0xe7f9_cf08),
    (16_387, 0x1993_b161),
    (16_388, 0x0019_93b1),
    (16_389, 0xd3d3_f838),
    (32_768, 0x4ab6_8c8d),
    (32_769, 0xae39_d146),
    (32_772, 0xf5c5_f5b5),
    (32_773, 0x14bc_b341),
    (40_000, 0xeb77_e15e),
];

// An image with one group: such bytes and this checksum behind them.
fn long_image(alloc: Global, len: usize, sum: u32) -> Result<Vec<u8>, Fail> {
    let mut image = Vec::new(alloc);
    image.extend_from_slice(b"sndstore\x02\0\0\0\0\0\0\0\0\x01\0\0\x01")?;
    image.extend_from_slice(&(len as u64).saturating_add(4).to_le_bytes())?;
    image.push(5)?;
    for _ in 1..len {
        image.push(b'a')?;
    }
    image.extend_from_slice(&sum.to_le_bytes())?;
    image.push(0)?;
    Ok(image)
}

// What a scrub comes to of such an image.
fn scrubbed_long(alloc: Global, len: usize, sum: u32) -> Result<Answer, Fail> {
    let image = long_image(alloc, len, sum)?;
    let mut disk = MemDisk::new(alloc, image.as_slice())?;
    Ok(scrubbed(&mut disk))
}

#[test]
fn long_groups_are_summed(rt: HostRuntime) -> Result<(), Fail> {
    for &(len, sum) in LENGTHS {
        let right = scrubbed_long(rt.alloc(), len, sum)?;
        same(&rt, (len, right), (len, Answer::Found(1, 0)));
        let other = sum ^ 0x8000;
        let wrong = scrubbed_long(rt.alloc(), len, other)?;
        same(&rt, (len, wrong), (len, Answer::Damaged(1, other, sum)));
    }
    Ok(())
}

// A group with a checksum and one without, in format 1.
const TWO: &[u8] =
    b"sndstore\x01\0\0\0\0\0\0\0\0\x01\0\0\x01\x04\0\0\0\0\0\0\0\x01abc\x01\x09\0\0\0\0\0\0\0\x05defg\x97e\x14\x9e\0";

// A scrub asks the disk four times for the header, once for each gate, once for each length, and
// twice for each short body.
const CALLS: u64 = 4 + 3 + 2 + 2 * 2;

// What a scrub comes to on a disk that stops after so many calls, and on one of which the next call
// alone fails.
fn scrubbed_failing(alloc: Global, calls: u64) -> Result<(Answer, Answer), Fail> {
    let mut fuse = FuseDisk::new(MemDisk::new(alloc, TWO)?, calls);
    let mut failing = Vec::new(alloc);
    failing.push(calls.saturating_add(1))?;
    let mut flaky = FlakyDisk::new(MemDisk::new(alloc, TWO)?, failing);
    Ok((scrubbed(&mut fuse), scrubbed(&mut flaky)))
}

#[test]
fn a_disk_that_fails_is_a_fault(rt: HostRuntime) -> Result<(), Fail> {
    for calls in 0..CALLS {
        let (stopped, flaky) = scrubbed_failing(rt.alloc(), calls)?;
        same(&rt, (calls, stopped), (calls, Answer::Fault));
        same(&rt, (calls, flaky), (calls, Answer::Fault));
    }
    let mut fuse = FuseDisk::new(MemDisk::new(rt.alloc(), TWO)?, CALLS);
    same(&rt, scrubbed(&mut fuse), Answer::Found(2, 1));
    Ok(())
}

const FIRST_BYTES: &[(u32, u8, Option<(GroupKind, bool)>)] = &[
    (1, 0, None),
    (1, 1, Some((GroupKind::Mark, false))),
    (1, 2, Some((GroupKind::Edits, false))),
    (1, 3, Some((GroupKind::Drop, false))),
    (1, 4, Some((GroupKind::Mark, true))),
    (2, 1, None),
    (2, 2, None),
    (2, 3, None),
    (2, 4, Some((GroupKind::Mark, true))),
    (2, 5, Some((GroupKind::Edits, true))),
    (2, 6, Some((GroupKind::Drop, true))),
    (2, 7, None),
    (2, 255, None),
];

#[test]
fn a_first_byte_says_the_kind(rt: HostRuntime) {
    for &(format, first, kind) in FIRST_BYTES {
        same(&rt, kind_of(format, first), kind);
    }
}
