// What no clause says: that calls succeed, and examples of what a crash leaves.
use crate::same::same;
use disk_model::{FlakyDisk, FuseDisk, MemDisk};
use std::alloc::Global;
use std::process::Abort;
use std::test::Fail;
use sx_base::{Disk, Failed};

// What a read of the first bytes gives.
fn expect_bytes(rt: &impl Abort, disk: &mut MemDisk, bytes: &[u8]) -> Result<(), Failed> {
    let mut buf = [0; 16];
    let count = disk.read(0, &mut buf)?;
    same(rt, &buf[..count], bytes);
    Ok(())
}

// The same of each image that these choices of a crash leave.
fn expect_crashes(
    rt: &impl Abort,
    alloc: Global,
    disk: &MemDisk,
    table: &[(u64, &[u8])],
) -> Result<(), Fail> {
    for &(choice, bytes) in table {
        expect_bytes(rt, &mut disk.crash(alloc, choice)?, bytes)?;
    }
    Ok(())
}

// A disk with two writes and a cut that were not synced.
fn unsynced(alloc: Global) -> Result<MemDisk, Fail> {
    let mut disk = MemDisk::new(alloc, b"abcdef")?;
    disk.write_at(2, b"XY")?;
    disk.cut(5)?;
    disk.write_at(5, b"12345")?;
    Ok(disk)
}

// How long an image is, and the bytes of it that stay in any case.
fn kept(disk: &mut MemDisk) -> Result<(usize, [u8; 3]), Failed> {
    let mut buf = [0; 16];
    let count = disk.read(0, &mut buf)?;
    Ok((count, [buf[0], buf[1], buf[4]]))
}

const UNSYNCED: &[(u64, &[u8])] = &[(0, b"abXYe12345"), (1, b"ab\0\0e\0\0\0\0\0")];

#[test]
fn a_crash_tears_what_was_not_synced(rt: HostRuntime) -> Result<(), Fail> {
    let mut disk = unsynced(rt.alloc())?;
    expect_bytes(&rt, &mut disk, b"abXYe12345")?;
    expect_crashes(&rt, rt.alloc(), &disk, UNSYNCED)?;
    for choice in 2..40 {
        let (count, bytes) = kept(&mut disk.crash(rt.alloc(), choice)?)?;
        same(&rt, 5 <= count, true);
        same(&rt, count <= 10, true);
        same(&rt, bytes, *b"abe");
    }
    disk.sync()?;
    for choice in 0..8 {
        expect_bytes(&rt, &mut disk.crash(rt.alloc(), choice)?, b"abXYe12345")?;
    }
    same(&rt, disk.size(), Ok(10));
    same(&rt, disk.refused(), 0);
    Ok(())
}

const STOPPED: &[(u64, &[u8])] = &[(0, b"XYc"), (1, b"\0\0c")];

#[test]
fn a_disk_that_stops_fails_every_call(rt: HostRuntime) -> Result<(), Fail> {
    let mut fuse = FuseDisk::new(MemDisk::new(rt.alloc(), b"abc")?, 2);
    same(&rt, fuse.size(), Ok(3));
    same(&rt, fuse.write_at(0, b"X"), Ok(()));
    same(&rt, fuse.write_at(1, b"Y"), Err(Failed));
    same(&rt, fuse.sync(), Err(Failed));
    same(&rt, fuse.read(0, &mut [0; 3]), Err(Failed));
    expect_crashes(&rt, rt.alloc(), &fuse.into_inner(), STOPPED)
}

// The numbers of the calls that fail.
fn failing(alloc: Global) -> Result<Vec<u64>, Fail> {
    let mut failing = vec![in alloc; 2; 1]?;
    failing.push(5)?;
    failing.push(6)?;
    Ok(failing)
}

const FLAKY: &[(u64, &[u8])] = &[(0, b"XY"), (1, b"X\0\0")];

#[test]
fn a_flaky_disk_goes_on(rt: HostRuntime) -> Result<(), Fail> {
    let disk = MemDisk::new(rt.alloc(), b"abc")?;
    let mut flaky = FlakyDisk::new(disk, failing(rt.alloc())?);
    same(&rt, flaky.size(), Ok(3));
    same(&rt, flaky.write_at(0, b"X"), Err(Failed));
    same(&rt, flaky.sync(), Ok(()));
    same(&rt, flaky.write_at(1, b"Y"), Ok(()));
    same(&rt, flaky.cut(2), Err(Failed));
    same(&rt, flaky.sync(), Err(Failed));
    same(&rt, flaky.read(0, &mut [0; 3]), Ok(2));
    expect_crashes(&rt, rt.alloc(), &flaky.into_inner(), FLAKY)
}
