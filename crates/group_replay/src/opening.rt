// Groups that are taken, one after the other.
ghost use Rattle.std.specs.Prelude.{◌≡◌, ◌+◌, ◌^◌, ◌<◌, ◌≤◌, true, false, length, take, drop, min, IfOk, IfErr};
ghost use Rattle.sx_base.specs.Causes.{Rose, Steady};
ghost use Rattle.sx_base.specs.Disk.{IsAsBefore, IsImage};
ghost use Rattle.sx_base.specs.Crash.{LeavesOnly};
ghost use Rattle.group_log.specs.Stopping.{IsFault};
ghost use Rattle.group_replay.specs.Kept.{AreKept};
ghost use Rattle.group_replay.specs.Stopping.{IsNoRefusal, IfLog};
ghost use Rattle.group_replay.specs.Taking.{TakesGroup};
ghost use Rattle.group_replay.specs.Aheads.{window_len};

use crate::body::take_body;
use crate::kinds::{Kind, TaggedGroup, kind_of, seal_len};
use crate::place::Place;
use crate::short::take_short;
use crate::stops::StoreStop;
use crate::window::{WINDOW, Window, grow};
use clone_resolve::EditCore;
use group_log::{GroupPlace, Log};
use sx_base::Disk;

/// Takes one group into the subvolumes. False where it is at fault; then the subvolumes may be
/// anything. What is read of the disk is put into the window.
///
/// # Errors
/// `NoMemory`, `DiskFault`.
pub fn take_group<D: Disk>(
    log: &Log,
    disk: &mut D,
    core: &mut EditCore<Place>,
    group: GroupPlace,
    window: &mut Window,
) -> Result<bool, StoreStop>
    requires fits { D.len disk.old ≡ log.now.size }
    requires within { group.at + group.len ≤ log.now.size }
    ensures taken { D.tells → IfOk result (TakesGroup log.now.format group.at
        (take group.len (drop group.at (D.seen disk.old))) core.old core.new) }

    // Whether or not the disk tells.
    ensures kept { AreKept group.at core.old →
        IfOk result (λ taken. taken ≡ true → AreKept (group.at + group.len) core.new) }
    ensures not_refused { IfErr result IsNoRefusal }
    ensures fault { IfLog result (IsFault (Rose (D.faults disk.old) (D.faults disk.new))) }
    ensures len { D.len disk.new ≡ D.len disk.old }
    ensures same { D.tells → IsAsBefore D.seen D.pending disk.old disk.new }
    ensures any_moment { D.tells →
        LeavesOnly D.moment D.left_since disk.old disk.new (IsImage (D.pending disk.old)) }
    ensures later { D.faults disk.old ≤ D.faults disk.new }
    ensures steady { Steady (D.faults disk.old) (D.faults disk.new) result }
{
    if group.len == 0 {
        return Ok(false);
    }
    grow(&mut window.bytes, group.len)?;
    take_kept(log, disk, core, group, &mut window.bytes)
}

// The same with room for the group's first bytes.
fn take_kept<D: Disk>(
    log: &Log,
    disk: &mut D,
    core: &mut EditCore<Place>,
    group: GroupPlace,
    window: &mut [u8],
) -> Result<bool, StoreStop>
    requires fits { D.len disk.old ≡ log.now.size }
    requires within { group.at + group.len ≤ log.now.size }
    requires some { 0 < group.len }
    requires room { min group.len window_len ≤ length window.old }
    ensures taken { D.tells → IfOk result (TakesGroup log.now.format group.at
        (take group.len (drop group.at (D.seen disk.old))) core.old core.new) }
    ensures kept { AreKept group.at core.old →
        IfOk result (λ taken. taken ≡ true → AreKept (group.at + group.len) core.new) }
    ensures not_refused { IfErr result IsNoRefusal }
    ensures fault { IfLog result (IsFault (Rose (D.faults disk.old) (D.faults disk.new))) }
    ensures len { D.len disk.new ≡ D.len disk.old }
    ensures same { D.tells → IsAsBefore D.seen D.pending disk.old disk.new }
    ensures any_moment { D.tells →
        LeavesOnly D.moment D.left_since disk.old disk.new (IsImage (D.pending disk.old)) }
    ensures later { D.faults disk.old ≤ D.faults disk.new }
    ensures steady { Steady (D.faults disk.old) (D.faults disk.new) result }
{
    let count = group.len.min(WINDOW as u64) as usize;
    log.read(disk, group.at, &mut window[..count])?;
    let Some(tag) = kind_of(log.format(), window[0]) else {
        return Ok(false);
    };
    if group.len < 1 + seal_len(tag.is_sealed) {
        return Ok(false);
    }
    if tag.kind == Kind::Body {
        let tagged = TaggedGroup { place: group, tag };
        return take_body(log, disk, core, tagged, window);
    }
    // A head's frame and a name are shorter than a window.
    let _names = core.catalog();
    if group.len > WINDOW as u64 {
        return Ok(false);
    }
    Ok(take_short(core, tag, &window[..count])?)
}
