// Bytes of a disk that are kept while a group is read.
ghost use Rattle.std.specs.Prelude.{◌≡◌, ◌⊎◌, ◌+◌, ◌-◌, ◌≤◌, length, take, drop, min, true, false, IfOk, OnOk, IfErr};
ghost use Rattle.std.specs.Int.{w32, to_le_bytes};
ghost use Rattle.sx_base.specs.Causes.{Rose, Steady};
ghost use Rattle.sx_base.specs.Disk.{IsAsBefore, IsImage};
ghost use Rattle.sx_base.specs.Crash.{LeavesOnly};
ghost use Rattle.group_log.specs.Stopping.{IsFault};
ghost use Rattle.group_replay.specs.Aheads.{window_len, IsAhead, IsFilled, Refills, Shows};

use group_log::{Log, LogStop};
use std::alloc::{AllocError, Global};
use sx_base::Disk;

// How many bytes of a group are kept at once.
pub(crate) const WINDOW: usize = 1 << 19;

// The greatest frame: a header of ten bytes and 262,144 bytes.
const GREATEST_FRAME: usize = 262_154;

/// Where bytes of a disk are kept while groups are read. It grows to what a group needs, 512 KiB at
/// the most.
#[derive(Drop)]
pub struct Window {
    pub(crate) bytes: Vec<u8>,
}

impl Window {
    /// A window that keeps nothing yet. Takes no memory.
    pub fn new(alloc: Global) -> Window {
        Window {
            bytes: Vec::new(alloc),
        }
    }
}

// Makes room for so many bytes, or for a whole window of them. What is there stays as it is.
pub(crate) fn grow(bytes: &mut Vec<u8>, len: u64) -> Result<(), AllocError>
    ensures room { OnOk result (min len window_len ≤ length bytes.new.items) }
{
    let count = len.min(WINDOW as u64) as usize;
    if bytes.len() < count {
        bytes.resize(count, 0)?;
    }
    Ok(())
}

// The bytes of a group that a window keeps and that were not gone through: those from `used` to
// `have`, the first of which stands at the place; and the checksum of what stands in front of them
// in the group.
#[derive(Debug, Clone, Copy)]
pub(crate) struct Ahead {
    pub(crate) at: u64,
    pub(crate) used: usize,
    pub(crate) have: usize,
    pub(crate) sum: u32,
}

// Fills the window up with the bytes of a group that ends at a place, unless it keeps the greatest
// frame or all that is left of the group. What it keeps moves to its front. `DiskFault` only.
pub(crate) fn refill<D: Disk>(
    log: &Log,
    disk: &mut D,
    ahead: Ahead,
    end: u64,
    window: &mut [u8],
) -> Result<Ahead, LogStop>
    requires fits { D.len disk.old ≡ log.now.size }
    requires within { end ≤ log.now.size }
    requires ahead { IsAhead end (length window.old) ahead }
    ensures window { length window.new ≡ length window.old }
    ensures refills { IfOk result (Refills end (length window.new) ahead) }
    ensures shows { D.tells → Shows (D.seen disk.old) window.old ahead →
        IfOk result (Shows (D.seen disk.new) window.new) }
    ensures fault { IfErr result (IsFault (Rose (D.faults disk.old) (D.faults disk.new))) }
    ensures len { D.len disk.new ≡ D.len disk.old }
    ensures same { D.tells → IsAsBefore D.seen D.pending disk.old disk.new }
    ensures any_moment { D.tells →
        LeavesOnly D.moment D.left_since disk.old disk.new (IsImage (D.pending disk.old)) }
    ensures later { D.faults disk.old ≤ D.faults disk.new }
    ensures steady { Steady (D.faults disk.old) (D.faults disk.new) result }
{
    let kept = ahead.have - ahead.used;
    let left = end - ahead.at - kept as u64;
    if kept >= GREATEST_FRAME || left == 0 {
        return Ok(ahead);
    }
    window.copy_within(ahead.used..ahead.have, 0);
    let more = left.min((window.len() - kept) as u64) as usize;
    log.read(disk, ahead.at + kept as u64, &mut window[kept..kept + more])?;
    Ok(Ahead {
        at: ahead.at,
        used: 0,
        have: kept + more,
        sum: ahead.sum,
    })
}
