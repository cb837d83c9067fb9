// What no clause says: what crashes and faults leave of parts that are received and of a name that
// is dropped.
use crate::same::same;
use crate::streams::{NEW, OLD, key, receive_a, receive_b};
use disk_model::{FlakyDisk, FuseDisk, MemDisk};
use group_log::LogStop;
use std::alloc::Global;
use std::process::Abort;
use std::test::Fail;
use store_journal::{Store, StoreStop};
use sx_base::Disk;

// How many calls of a disk are tried at the most.
const MOST: u64 = 200;

// Receives two parts and drops the first, and counts what is done.
fn change_store<D: Disk>(
    rt: &impl Abort,
    alloc: Global,
    disk: &mut D,
    done: &mut u64,
) -> Result<(), StoreStop> {
    let mut store = Store::open(disk, alloc)?;
    receive_a(rt, &mut store, disk)?;
    *done = 1;
    receive_b(rt, &mut store, disk)?;
    *done = 2;
    store.drop_name(disk, b"a")?;
    *done = 3;
    Ok(())
}

// How much of it a store has, by which parts are complete.
fn found_in(store: &Store) -> u64 {
    let catalog = store.core().catalog();
    let first = catalog.by_key(key(b'A', 1)).is_some();
    let second = catalog.by_key(key(b'B', 2)).is_some();
    match (first, second) {
        (false, false) => 0,
        (true, false) => 1,
        (true, true) => 2,
        (false, true) => 3,
    }
}

// Each image that a crash may leave opens, with what was done and one change more at the most.
fn expect_stores(
    rt: &impl Abort,
    alloc: Global,
    disk: &MemDisk,
    least: u64,
    most: u64,
) -> Result<(), Fail> {
    for choice in 0..16 {
        let mut left = disk.crash(alloc, choice)?;
        let found = found_in(&Store::open(&mut left, alloc)?);
        same(rt, (choice, found, found < least), (choice, found, false));
        same(rt, (choice, found, most < found), (choice, found, false));
    }
    Ok(())
}

// Crashes at each call that the changes make, on a disk with these bytes.
fn crash_at_each_call(rt: &impl Abort, alloc: Global, image: &[u8]) -> Result<(), Fail> {
    for calls in 0..MOST {
        let mut fuse = FuseDisk::new(MemDisk::new(alloc, image)?, calls);
        let mut done = 0;
        let whole = change_store(rt, alloc, &mut fuse, &mut done).is_ok();
        expect_stores(
            rt,
            alloc,
            &fuse.into_inner(),
            done,
            done.saturating_add(1).min(3),
        )?;
        if whole {
            same(rt, done, 3);
            return Ok(());
        }
    }
    assert!(rt; false, "more calls than are tried");
    Ok(())
}

#[test]
fn a_crash_leaves_a_store(rt: HostRuntime) -> Result<(), Fail> {
    let alloc = rt.alloc();
    crash_at_each_call(&rt, alloc, NEW)?;
    crash_at_each_call(&rt, alloc, OLD)
}

// Makes the changes with each call alone that fails, and opens the store again on the disk that
// goes on.
fn fault_at_each_call(rt: &impl Abort, alloc: Global, image: &[u8]) -> Result<(), Fail> {
    for call in 1..MOST {
        let mut failing = Vec::new(alloc);
        failing.push(call)?;
        let mut flaky = FlakyDisk::new(MemDisk::new(alloc, image)?, failing);
        let mut done = 0;
        match change_store(rt, alloc, &mut flaky, &mut done) {
            Ok(()) => {
                same(rt, done, 3);
                return Ok(());
            }
            Err(StoreStop::Log(LogStop::DiskFault)) => {}
            Err(_) => assert!(rt; false, "call {call}: no fault of the disk"),
        }
        let found = found_in(&Store::open(&mut flaky, alloc)?);
        same(rt, (call, found, found < done), (call, found, false));
        let more = done.saturating_add(1) < found;
        same(rt, (call, found, more), (call, found, false));
        expect_stores(rt, alloc, &flaky.into_inner(), found, found)?;
    }
    assert!(rt; false, "more calls than are tried");
    Ok(())
}

#[test]
fn a_fault_leaves_a_store(rt: HostRuntime) -> Result<(), Fail> {
    let alloc = rt.alloc();
    fault_at_each_call(&rt, alloc, NEW)?;
    fault_at_each_call(&rt, alloc, OLD)
}
