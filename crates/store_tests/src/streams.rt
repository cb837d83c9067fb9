// Streams for tests.
ghost use Rattle.std.specs.Prelude.{OnOk};
ghost use Rattle.store_journal.specs.Shown.{IsIdle};

use crate::client::{Frame, PartFrames, receive_one};
use disk_model::MemDisk;
use group_log::LogStop;
use std::alloc::Global;
use std::process::Abort;
use std::test::Fail;
use store_journal::{Store, StoreStop};
use subvol_catalog::Key;
use sx_base::Disk;
use uuid::Uuid;

/// A store of the second format without groups, and one of the first.
pub(crate) const NEW: &[u8; 21] = b"sndstore\x02\0\0\0\0\0\0\0\0\x01\0\0\0";

pub(crate) const OLD: &[u8; 21] = b"sndstore\x01\0\0\0\0\0\0\0\0\x01\0\0\0";

// The frames of `a`.
const HEAD_A: &Frame<'static> = &Frame {
    cmd: 1,
    body: b"\x01\0\x10\0AAAAAAAAAAAAAAAA\x02\0\x08\0\x01\0\0\0\0\0\0\0\x0f\0\x01\0a",
};

const EDITS_A: &[Frame<'static>] = &[
    Frame {
        cmd: 3,
        body: b"\x0f\0\x01\0x",
    },
    Frame {
        cmd: 15,
        body: b"\x0f\0\x01\0x\x12\0\x08\0\x03\0\0\0\0\0\0\0\x13\0\x02\0hi",
    },
    Frame {
        cmd: 15,
        body: b"\x0f\0\x01\0x\x12\0\x08\0\0\x10\0\0\0\0\0\0\x13\0\x03\0end",
    },
    Frame {
        cmd: 17,
        body: b"\x04\0\x08\0\x88\x13\0\0\0\0\0\0\x0f\0\x01\0x",
    },
];

// The frames of `b`.
const HEAD_B: &Frame<'static> = &Frame {
    cmd: 2,
    body: b"\x01\0\x10\0BBBBBBBBBBBBBBBB\x02\0\x08\0\x02\0\0\0\0\0\0\0\x0f\0\x01\0b\x14\0\x10\0AAAAAAAAAAAAAAAA\x15\0\x08\0\x01\0\0\0\0\0\0\0",
};

const EDITS_B: &[Frame<'static>] = &[Frame {
    cmd: 15,
    body: b"\x0f\0\x01\0x\x12\0\x08\0\x02\0\0\0\0\0\0\0\x13\0!",
}];

/// The inode of the first file of a subvolume.
pub(crate) const FILE: u64 = 257;

/// The key of the subvolume `a`, or of its snapshot `b`.
pub(crate) fn key(letter: u8, ctransid: u64) -> Key {
    Key {
        uuid: Uuid::from_bytes([letter; 16]),
        ctransid,
    }
}

/// The bytes of a disk.
pub(crate) fn image<D: Disk>(alloc: Global, disk: &mut D) -> Result<Vec<u8>, Fail> {
    let size = disk.size()?;
    let mut bytes = vec![in alloc; 0; size as usize]?;
    disk.read(0, &mut bytes)?;
    Ok(bytes)
}

/// How many entries a disk's store has, or the group at fault.
pub(crate) fn judged<D: Disk>(alloc: Global, disk: &mut D) -> Result<u64, u64> {
    match Store::open(disk, alloc) {
        Ok(store) => Ok(store.core().catalog().len() as u64),
        Err(StoreStop::Log(LogStop::NotStore { group })) => Err(group),
        Err(_) => Err(99),
    }
}

/// Receives the subvolume `a`: a file x with "hi" at 3 and, after a hole, "end" at 4096, 5000 bytes
/// long.
pub(crate) fn receive_a<D: Disk>(
    rt: &impl Abort,
    store: &mut Store,
    disk: &mut D,
) -> Result<(), StoreStop>
    requires { IsIdle (D.len disk.old) store.old }
    ensures { OnOk result (IsIdle (D.len disk.new) store.new) }
{
    let frames = PartFrames {
        version: 1,
        head: HEAD_A,
        edits: EDITS_A,
    };
    receive_one(rt, store, disk, &frames)
}

/// Receives `b`, a snapshot of `a`, in version 2: "!" over the file at 2.
pub(crate) fn receive_b<D: Disk>(
    rt: &impl Abort,
    store: &mut Store,
    disk: &mut D,
) -> Result<(), StoreStop>
    requires { IsIdle (D.len disk.old) store.old }
    ensures { OnOk result (IsIdle (D.len disk.new) store.new) }
{
    let frames = PartFrames {
        version: 2,
        head: HEAD_B,
        edits: EDITS_B,
    };
    receive_one(rt, store, disk, &frames)
}

/// The bytes of a store that has `a`.
pub(crate) fn with_a(rt: &impl Abort, alloc: Global) -> Result<Vec<u8>, Fail> {
    let mut disk = MemDisk::new(alloc, b"")?;
    Store::create(&mut disk)?;
    let mut store = Store::open(&mut disk, alloc)?;
    receive_a(rt, &mut store, &mut disk)?;
    image(alloc, &mut disk)
}
