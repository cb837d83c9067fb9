// Subvolumes as archives, over images and with archives that another program made.
use crate::images::{
    HOLES_ARCHIVE, HOLES_IMAGE, KINDS_ARCHIVE, KINDS_IMAGE, NAMES_ARCHIVE, NAMES_IMAGE,
};
use crate::same::same;
use archive_writer::archive_entry;
use disk_model::{FlakyDisk, MemDisk};
use std::alloc::Global;
use std::test::Fail;
use store_commands::StoreEnd;
use sx_base::{Disk, MemSink, Outcome};

const DONE: StoreEnd = StoreEnd::Ends(Outcome::Done);

// Bytes, each with so many zero bytes behind them.
fn joined(alloc: Global, pieces: &[(&[u8], usize)]) -> Result<Vec<u8>, Fail> {
    let mut all = Vec::new(alloc);
    for (bytes, count) in pieces {
        all.extend_from_slice(bytes)?;
        for _ in 0..*count {
            all.push(0)?;
        }
    }
    Ok(all)
}

// Whether the archive of a name from an image ends so, with these bytes.
fn archives(
    alloc: Global,
    image: &[u8],
    name: &[u8],
    end: StoreEnd,
    archive: &[u8],
) -> Result<bool, Fail> {
    let mut disk = MemDisk::new(alloc, image)?;
    let mut out = MemSink::new(alloc);
    let ended = archive_entry(alloc, &mut disk, name, &mut out);
    Ok(ended == end && out.bytes() == archive)
}

// Whether that of `t` is whole, with the bytes of some pieces.
fn is_whole(
    alloc: Global,
    image: &[(&[u8], usize)],
    archive: &[(&[u8], usize)],
) -> Result<bool, Fail> {
    let image = joined(alloc, image)?;
    let archive = joined(alloc, archive)?;
    archives(alloc, image.as_slice(), b"t", DONE, archive.as_slice())
}

#[test]
fn each_kind_of_inode_has_its_member(rt: HostRuntime) -> Result<(), Fail> {
    same(&rt, is_whole(rt.alloc(), KINDS_IMAGE, KINDS_ARCHIVE)?, true);
    Ok(())
}

#[test]
fn long_and_odd_names_stand_in_records(rt: HostRuntime) -> Result<(), Fail> {
    same(&rt, is_whole(rt.alloc(), NAMES_IMAGE, NAMES_ARCHIVE)?, true);
    Ok(())
}

#[test]
fn holes_take_no_bytes(rt: HostRuntime) -> Result<(), Fail> {
    same(&rt, is_whole(rt.alloc(), HOLES_IMAGE, HOLES_ARCHIVE)?, true);
    Ok(())
}

// A store whose first group is cut off.
const CUT: &[u8] = b"sndstore\x01\0\0\0\0\0\0\0\0\x01\0\0\x01\x30\0\0";

#[test]
fn what_is_no_store_or_no_snapshot_is_said(rt: HostRuntime) -> Result<(), Fail> {
    let alloc = rt.alloc();
    let image = joined(alloc, KINDS_IMAGE)?;
    let rows: [(&[u8], &[u8], StoreEnd); 3] = [
        (image.as_slice(), b"zz", StoreEnd::NoName),
        (b"", b"t", StoreEnd::NotStore { group: 0 }),
        (CUT, b"t", StoreEnd::NotStore { group: 1 }),
    ];
    for (image, name, end) in rows {
        same(&rt, archives(alloc, image, name, end, b"")?, true);
    }
    Ok(())
}

// More calls than an archive makes of a disk.
const MOST: u64 = 20;

#[test]
fn each_call_of_a_disk_fails_once(rt: HostRuntime) -> Result<(), Fail> {
    let alloc = rt.alloc();
    let image = joined(alloc, HOLES_IMAGE)?;
    let archive = joined(alloc, HOLES_ARCHIVE)?;
    for call in 1..MOST {
        let mut failing = Vec::new(alloc);
        failing.push(call)?;
        let mut disk = FlakyDisk::new(MemDisk::new(alloc, image.as_slice())?, failing);
        let mut out = MemSink::new(alloc);
        let end = archive_entry(alloc, &mut disk, b"t", &mut out);
        let whole = end == DONE && out.bytes() == archive.as_slice();
        let cut = end == StoreEnd::StoreFault && out.bytes().is_empty();
        same(&rt, whole || cut, true);
    }
    Ok(())
}

#[test]
fn an_output_that_fails_is_said(rt: HostRuntime) -> Result<(), Fail> {
    let alloc = rt.alloc();
    let image = joined(alloc, KINDS_IMAGE)?;
    let archive = joined(alloc, KINDS_ARCHIVE)?;
    let mut disk = MemDisk::new(alloc, image.as_slice())?;
    let mut out = MemSink::new(alloc);
    out.fail_call(1)?;
    let end = archive_entry(alloc, &mut disk, b"t", &mut out);
    same(&rt, end, StoreEnd::Ends(Outcome::OutputFault));
    same(&rt, out.bytes().len() < archive.len(), true);
    same(&rt, archive.as_slice().starts_with(out.bytes()), true);
    Ok(())
}
