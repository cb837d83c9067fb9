// What no clause says: that a store opens, and what it has then.
ghost use Rattle.std.specs.Prelude.{◌≡◌, IfOk};
ghost use Rattle.store_journal.specs.Reading.{HasSize};
ghost use Rattle.store_journal.specs.Shown.{IsIdle};

use crate::client::{open_again, read_back};
use crate::same::same;
use crate::streams::{FILE, NEW, OLD, image, judged, key, receive_a, receive_b, with_a};
use disk_model::MemDisk;
use group_log::LogStop;
use std::alloc::Global;
use std::process::Abort;
use std::test::Fail;
use store_journal::{Store, StoreStop};
use subvol_catalog::Key;
use sx_base::{Disk, Refusal};

// A range of a file has these bytes.
fn expect_range<D: Disk>(
    rt: &impl Abort,
    store: &Store,
    disk: &mut D,
    key: Key,
    at: u64,
    bytes: &[u8],
) -> Result<(), LogStop>
    requires { HasSize (D.len disk.old) store.now }
    ensures { D.len disk.new ≡ D.len disk.old }
{
    let mut buf = [7; 16];
    assert!(rt; bytes.len() <= 16);
    let back = &mut buf[..bytes.len()];
    same(rt, read_back(store, disk, key, FILE, at, back)?, true);
    same(rt, &*back, bytes);
    Ok(())
}

// The file of `a` has what was written, zeros beside it, and an end.
fn expect_a<D: Disk>(rt: &impl Abort, store: &Store, disk: &mut D) -> Result<(), LogStop>
    requires { HasSize (D.len disk.old) store.now }
    ensures { D.len disk.new ≡ D.len disk.old }
{
    expect_range(rt, store, disk, key(b'A', 1), 0, b"\0\0\0hi\0\0")?;
    expect_range(rt, store, disk, key(b'A', 1), 4094, b"\0\0end\0")?;
    expect_range(rt, store, disk, key(b'A', 1), 4998, b"\0\0")?;
    let past = read_back(store, disk, key(b'A', 1), FILE, 4999, &mut [0; 2])?;
    same(rt, past, false);
    let other = read_back(store, disk, key(b'A', 2), FILE, 0, &mut [0; 1])?;
    same(rt, other, false);
    Ok(())
}

// That of its snapshot has one byte more.
fn expect_b<D: Disk>(rt: &impl Abort, store: &Store, disk: &mut D) -> Result<(), LogStop>
    requires { HasSize (D.len disk.old) store.now }
    ensures { D.len disk.new ≡ D.len disk.old }
{
    expect_range(rt, store, disk, key(b'B', 2), 0, b"\0\0!hi\0\0")?;
    expect_range(rt, store, disk, key(b'B', 2), 4094, b"\0\0end\0")
}

// Both files.
fn expect_both<D: Disk>(rt: &impl Abort, store: &Store, disk: &mut D) -> Result<(), LogStop>
    requires { HasSize (D.len disk.old) store.now }
    ensures { D.len disk.new ≡ D.len disk.old }
{
    expect_a(rt, store, disk)?;
    expect_b(rt, store, disk)
}

// Receives two parts.
fn receive_two<D: Disk>(rt: &impl Abort, alloc: Global, disk: &mut D) -> Result<Store, StoreStop>
    ensures { IfOk result (IsIdle (D.len disk.new)) }
{
    let mut store = Store::open(disk, alloc)?;
    receive_a(rt, &mut store, disk)?;
    receive_b(rt, &mut store, disk)?;
    Ok(store)
}

// Drops one of two parts, and opens the store again.
fn drop_one<D: Disk>(
    rt: &impl Abort,
    alloc: Global,
    store: &mut Store,
    disk: &mut D,
) -> Result<(), StoreStop>
    requires { IsIdle (D.len disk.old) store.old }
{
    same(rt, store.core().catalog().len(), 2);
    same(rt, store.drop_name(disk, b"a")?, true);
    same(rt, store.drop_name(disk, b"a")?, false);
    let last = open_again(disk, alloc, store)?;
    same(rt, last.core().catalog().len(), 1);
    expect_b(rt, &last, disk)?;
    Ok(())
}

// Receives two parts into a store with these bytes, opens it again, and drops one of them.
fn receive_and_open(rt: &impl Abort, alloc: Global, start: &[u8]) -> Result<(), Fail> {
    let mut disk = MemDisk::new(alloc, start)?;
    let store = receive_two(rt, alloc, &mut disk)?;
    expect_both(rt, &store, &mut disk)?;
    let mut again = open_again(&mut disk, alloc, &store)?;
    expect_both(rt, &again, &mut disk)?;
    drop_one(rt, alloc, &mut again, &mut disk)?;
    Ok(())
}

#[test]
fn two_parts_are_read_again(rt: HostRuntime) -> Result<(), Fail> {
    let alloc = rt.alloc();
    receive_and_open(&rt, alloc, NEW)?;
    receive_and_open(&rt, alloc, OLD)
}

// How many entries the store with these bytes has, or the group at fault.
fn judged_bytes(alloc: Global, bytes: &[u8]) -> Result<Result<u64, u64>, Fail> {
    let mut disk = MemDisk::new(alloc, bytes)?;
    Ok(judged(alloc, &mut disk))
}

// The same of the first bytes alone.
fn judged_cut(alloc: Global, bytes: &[u8], len: usize) -> Result<Result<u64, u64>, Fail> {
    judged_bytes(alloc, &bytes[..len.min(bytes.len())])
}

const CUTS: &[(usize, Result<u64, u64>)] = &[
    (221, Err(3)),
    (200, Err(2)),
    (20, Err(1)),
    (19, Err(0)),
];

#[test]
fn the_first_group_at_fault_is_named(rt: HostRuntime) -> Result<(), Fail> {
    let alloc = rt.alloc();
    let mut bytes = with_a(&rt, alloc)?;
    let len = bytes.len();
    assert!(rt; len == 222);
    same(&rt, judged_bytes(alloc, &bytes)?, Ok(1));
    for &(len, verdict) in CUTS {
        same(&rt, judged_cut(alloc, &bytes, len)?, verdict);
    }
    bytes[200] = bytes[200] ^ 1;
    same(&rt, judged_bytes(alloc, &bytes)?, Err(2));
    bytes[30] = 3;
    same(&rt, judged_bytes(alloc, &bytes)?, Err(1));
    Ok(())
}

// Where the gates stand of a store that has received `a` and `b` and dropped `a`, and how many
// entries the groups before each make.
const GATES: &[(usize, u64)] = &[(20, 0), (81, 1), (221, 1), (314, 2), (375, 2), (390, 1)];

// The bytes of such a store, made of one with these bytes.
fn with_five_groups(rt: &impl Abort, alloc: Global, start: &[u8]) -> Result<Vec<u8>, Fail> {
    let mut disk = MemDisk::new(alloc, start)?;
    let mut store = receive_two(rt, alloc, &mut disk)?;
    same(rt, store.drop_name(&mut disk, b"a")?, true);
    image(alloc, &mut disk)
}

// The group in which a place stands, 0 in front of all.
fn group_at(place: usize) -> u64 {
    let mut group: u64 = 0;
    for &(gate, _) in GATES {
        if gate <= place {
            group = group.saturating_add(1);
        }
    }
    group
}

// A store that is cut is none, wherever.
fn cuts_are_none(rt: &impl Abort, alloc: Global, start: &[u8]) -> Result<(), Fail> {
    let bytes = with_five_groups(rt, alloc, start)?;
    same(rt, bytes.len(), 391);
    same(rt, judged_bytes(alloc, &bytes)?, Ok(1));
    for len in 0..bytes.len() {
        let judged = judged_cut(alloc, &bytes, len)?;
        same(rt, (len, judged), (len, Err(group_at(len))));
    }
    Ok(())
}

#[test]
fn a_store_that_is_cut_is_none(rt: HostRuntime) -> Result<(), Fail> {
    cuts_are_none(&rt, rt.alloc(), NEW)?;
    cuts_are_none(&rt, rt.alloc(), OLD)
}

// What a byte that has changed makes of such a store: a gate that is closed then ends it, an open
// last one wants a group behind it, the limit says nothing of the groups, and else the group is at
// fault in which the byte stands.
fn verdict_at(place: usize, byte: u8) -> Result<u64, u64> {
    for &(gate, entries) in GATES {
        if gate == place && byte != 1 {
            return Ok(entries);
        }
    }
    if place >= 12 && place < 20 {
        return Ok(1);
    }
    Err(group_at(place))
}

// Bytes of which one has changed.
fn with_change(alloc: Global, bytes: &[u8], place: usize, change: u8) -> Result<Vec<u8>, Fail> {
    let mut changed = bytes.to_vec(alloc)?;
    if place < changed.len() {
        changed[place] = changed[place] ^ change;
    }
    Ok(changed)
}

// A change of one byte of a store is found, wherever.
fn changes_are_found(rt: &impl Abort, alloc: Global, start: &[u8]) -> Result<(), Fail> {
    let bytes = with_five_groups(rt, alloc, start)?;
    for place in 0..bytes.len() {
        for change in [1, 0x10, 0x80, 0xff] {
            let changed = with_change(alloc, &bytes, place, change)?;
            let verdict = verdict_at(place, bytes[place] ^ change);
            let judged = judged_bytes(alloc, &changed)?;
            same(rt, (place, change, judged), (place, change, verdict));
        }
    }
    Ok(())
}

#[test]
fn a_byte_that_has_changed_is_found(rt: HostRuntime) -> Result<(), Fail> {
    changes_are_found(&rt, rt.alloc(), NEW)?;
    changes_are_found(&rt, rt.alloc(), OLD)
}

// Whether the name of a part is there.
fn is_there(answer: Result<(), StoreStop>) -> bool {
    matches!(answer, Err(StoreStop::Refused(Refusal::NameThere)))
}

#[test]
fn a_part_whose_name_is_there_is_refused(rt: HostRuntime) -> Result<(), Fail> {
    let mut disk = MemDisk::new(rt.alloc(), NEW)?;
    let mut store = Store::open(&mut disk, rt.alloc())?;
    receive_a(&rt, &mut store, &mut disk)?;
    let again = receive_a(&rt, &mut store, &mut disk);
    same(&rt, is_there(again), true);
    same(&rt, store.live(), true);
    Ok(())
}
