// What no clause says: that a store is made, and what stands where the disk fails.
use crate::same::same;
use crate::streams::NEW;
use disk_model::{FlakyDisk, FuseDisk, MemDisk};
use group_log::LogStop;
use std::test::Fail;
use store_journal::Store;
use sx_base::Disk;

// Whether making a store is answered by a store of 21 bytes that is there, or by a fault of the
// disk.
fn is_there(made: Result<(), LogStop>) -> bool {
    matches!(made, Err(LogStop::StoreThere { size: 21 }))
}

fn is_fault(made: Result<(), LogStop>) -> bool {
    matches!(made, Err(LogStop::DiskFault))
}

#[test]
fn a_store_is_made_once(rt: HostRuntime) -> Result<(), Fail> {
    let mut disk = MemDisk::new(rt.alloc(), b"")?;
    Store::create(&mut disk)?;
    let mut image = [0; 32];
    let count = disk.read(0, &mut image)?;
    same(&rt, &image[..count], NEW.as_slice());
    same(&rt, is_there(Store::create(&mut disk)), true);
    Ok(())
}

#[test]
fn a_disk_that_fails_is_a_fault(rt: HostRuntime) -> Result<(), Fail> {
    for calls in 0..3 {
        let mut fuse = FuseDisk::new(MemDisk::new(rt.alloc(), b"")?, calls);
        same(&rt, is_fault(Store::create(&mut fuse)), true);
        let mut failing = Vec::new(rt.alloc());
        failing.push(calls.saturating_add(1))?;
        let mut flaky = FlakyDisk::new(MemDisk::new(rt.alloc(), b"")?, failing);
        same(&rt, is_fault(Store::create(&mut flaky)), true);
    }
    Ok(())
}
