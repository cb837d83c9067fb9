// Groups of edits.
ghost use Rattle.std.specs.Prelude.{◌≡◌, ◌⊎◌, ◌↔◌, ℕ, ◌+◌, ◌-◌, ◌<◌, ◌≤◌, List, true, length, take, drop, min, IfOk, IfErr, IfSome, IsTrue};
ghost use Rattle.send_model.specs.Reading.{is_version};
ghost use Rattle.sx_base.specs.Causes.{Rose, Steady};
ghost use Rattle.sx_base.specs.Disk.{IsAsBefore, IsImage};
ghost use Rattle.sx_base.specs.Crash.{LeavesOnly};
ghost use Rattle.group_log.specs.Stopping.{IsFault};
ghost use Rattle.group_replay.specs.Kept.{IsKept, AreKept};
ghost use Rattle.group_replay.specs.Stopping.{IsNoRefusal, IfLog};
ghost use Rattle.group_replay.specs.Taking.{open_state};
ghost use Rattle.group_replay.specs.Aheads.{window_len, IsAhead, IsFilled, Shows, GoesPast};
ghost use Rattle.group_replay.specs.Bodies.{FindsHead, TakesShown, TakesFrames, SumStands};
ghost use Rattle.group_replay.specs.Contents.{TakesBehind, seal_len};
ghost use Rattle.group_replay.specs.declared.kinds.Kind.TheVariants as kind_is;

use crate::edits::{resumed, take_front};
use crate::kinds::{TaggedGroup, seal_len};
use crate::place::Place;
use crate::short::is_sum;
use crate::stops::StoreStop;
use crate::sums::sum_past;
use crate::window::{Ahead, WINDOW, refill};
use clone_resolve::{EditCore, Part};
use crc32c_part::update;
use group_log::Log;
use std::alloc::AllocError;
use sx_base::Disk;
use uuid::Uuid;

// The number, the identifier and the version in front of the edits of a group.
const BODY_HEAD: usize = 18;

// What stands in front of edits: the identifier of their entry, and the version of their frames.
#[derive(Debug, Clone, Copy)]
pub(crate) struct BodyHead {
    pub(crate) uuid: Uuid,
    pub(crate) version: u32,
}

// The frames of a group: their version, where they end, and where the group ends.
#[derive(Debug, Clone, Copy)]
pub(crate) struct Frames {
    pub(crate) version: u32,
    pub(crate) end: u64,
    pub(crate) stop: u64,
}

// What a run over the frames of a group goes by: the journal that they stand in, and the frames.
#[derive(Debug, Clone, Copy)]
struct FrameRun<'a> {
    log: &'a Log,
    frames: Frames,
}

// Takes a group of edits, the first of whose bytes a window has. False where it is at fault.
pub(crate) fn take_body<D: Disk>(
    log: &Log,
    disk: &mut D,
    core: &mut EditCore<Place>,
    group: TaggedGroup,
    window: &mut [u8],
) -> Result<bool, StoreStop>
    requires kind { group.tag.kind ≡ kind_is.Body }
    requires fits { D.len disk.old ≡ log.now.size }
    requires within { group.place.at + group.place.len ≤ log.now.size }
    requires long { 1 + seal_len group.tag.is_sealed ≤ group.place.len }
    requires room { min group.place.len window_len ≤ length window.old }
    requires shows { D.tells → take (min group.place.len window_len) window.old
        ≡ take (min group.place.len window_len) (drop group.place.at (D.seen disk.old)) }
    ensures taken { D.tells → IfOk result (TakesBehind group.tag group.place.at
        (take group.place.len (drop group.place.at (D.seen disk.old))) core.old core.new) }
    ensures kept { AreKept group.place.at core.old →
        IfOk result
        (λ taken. taken ≡ true → AreKept (group.place.at + group.place.len) core.new) }
    ensures not_refused { IfErr result IsNoRefusal }
    ensures fault { IfLog result (IsFault (Rose (D.faults disk.old) (D.faults disk.new))) }
    ensures len { D.len disk.new ≡ D.len disk.old }
    ensures same { D.tells → IsAsBefore D.seen D.pending disk.old disk.new }
    ensures any_moment { D.tells →
        LeavesOnly D.moment D.left_since disk.old disk.new (IsImage (D.pending disk.old)) }
    ensures later { D.faults disk.old ≤ D.faults disk.new }
    ensures steady { Steady (D.faults disk.old) (D.faults disk.new) result }
{
    let _size = log.size();
    let stop = group.place.at + group.place.len;
    let end = stop - seal_len(group.tag.is_sealed);
    if end - group.place.at < BODY_HEAD as u64 {
        return Ok(false);
    }
    let Some(head) = body_head(&window[1..BODY_HEAD]) else {
        return Ok(false);
    };
    let Some(mut part) = resumed(core, head.uuid)? else {
        return Ok(false);
    };
    let ahead = Ahead {
        at: group.place.at + BODY_HEAD as u64,
        used: BODY_HEAD,
        have: group.place.len.min(WINDOW as u64) as usize,
        sum: update(0, &window[..BODY_HEAD]),
    };
    let run = FrameRun {
        log,
        frames: Frames {
            version: head.version,
            end,
            stop,
        },
    };
    if !take_frames(&run, disk, core, &mut part, ahead, window)? {
        return Ok(false);
    }
    core.complete(part);
    Ok(true)
}

// The identifier and the version that these bytes are, none where the version is not known.
fn body_head(bytes: &[u8]) -> Option<BodyHead>
    requires long { length bytes.now ≡ 17 }
    ensures found { FindsHead bytes.now result }
{
    let version = bytes[16] as u32;
    if version != 1 && version != 2 {
        return None;
    }
    let mut uuid = [0; 16];
    uuid.copy_from_slice(&bytes[..16]);
    Some(BodyHead {
        uuid: Uuid::from_bytes(uuid),
        version,
    })
}

// Takes the frames of a group, and compares the checksum behind them, if there is one. False where
// one of these is at fault.
fn take_frames<D: Disk>(
    run: &FrameRun<'_>,
    disk: &mut D,
    core: &EditCore<Place>,
    part: &mut Part<Place>,
    first: Ahead,
    window: &mut [u8],
) -> Result<bool, StoreStop>
    requires fits { D.len disk.old ≡ run.now.log.now.size }
    requires version { is_version run.now.frames.version ≡ true }
    requires within { (first.at ≤ run.now.frames.end)
        × (run.now.frames.end ≤ run.now.frames.stop)
        × (run.now.frames.stop ≤ run.now.log.now.size) }
    requires seal { (run.now.frames.stop ≡ run.now.frames.end)
        ⊎ (run.now.frames.stop ≡ run.now.frames.end + 4) }
    requires ahead { IsAhead run.now.frames.stop (length window.old) first }
    requires shows { D.tells → Shows (D.seen disk.old) window.old first }
    ensures key { part.new.key ≡ part.old.key }
    ensures taken { D.tells → IfOk result (TakesFrames run.now.frames first (D.seen disk.old)
        (open_state core.now part.old) (open_state core.now part.new)) }
    ensures kept { AreKept first.at core.now → IsKept first.at part.old.subvolume →
        IfOk result (λ t. t ≡ true → IsKept run.now.frames.end part.new.subvolume) }
    ensures not_refused { IfErr result IsNoRefusal }
    ensures fault { IfLog result (IsFault (Rose (D.faults disk.old) (D.faults disk.new))) }
    ensures len { D.len disk.new ≡ D.len disk.old }
    ensures same { D.tells → IsAsBefore D.seen D.pending disk.old disk.new }
    ensures any_moment { D.tells →
        LeavesOnly D.moment D.left_since disk.old disk.new (IsImage (D.pending disk.old)) }
    ensures later { D.faults disk.old ≤ D.faults disk.new }
    ensures steady { Steady (D.faults disk.old) (D.faults disk.new) result }
{
    let mut ahead = first;
    while ahead.at < run.frames.end {
        ahead = refill(run.log, disk, ahead, run.frames.stop, window)?;
        match take_shown(core, part, run.frames, ahead, window)? {
            Some(next) => ahead = next,
            None => return Ok(false),
        }
    }
    let last = refill(run.log, disk, ahead, run.frames.stop, window)?;
    Ok(has_seal(run.frames, last, window))
}

// Takes the edit whose frame a window shows next. None where it is at fault.
fn take_shown(
    core: &EditCore<Place>,
    part: &mut Part<Place>,
    frames: Frames,
    ahead: Ahead,
    window: &[u8],
) -> Result<Option<Ahead>, AllocError>
    requires version { is_version frames.version ≡ true }
    requires within { (ahead.at < frames.end) × (frames.end ≤ frames.stop) }
    requires ahead { IsAhead frames.stop (length window.now) ahead }
    requires filled { IsFilled frames.stop ahead }
    ensures key { part.new.key ≡ part.old.key }
    ensures past { IfOk result
        (λ o. IfSome o (GoesPast frames.end frames.stop (length window.now) ahead)) }
    ensures taken { (seen : List ℕ) → Shows seen window.now ahead →
        IfOk result (TakesShown frames ahead (record { seen = seen; window = window.now })
        (open_state core.now part.old) (open_state core.now part.new)) }
    ensures kept { AreKept ahead.at core.now → IsKept ahead.at part.old.subvolume →
        IfOk result (λ o. IfSome o (λ next. IsKept next.at part.new.subvolume)) }
{
    let left = frames.end - ahead.at;
    let count = left.min((ahead.have - ahead.used) as u64) as usize;
    let bytes = &window[ahead.used..ahead.used + count];
    match take_front(core, part, frames.version, ahead.at, bytes)? {
        Some(len) => Ok(Some(Ahead {
            at: ahead.at + len as u64,
            used: ahead.used + len,
            have: ahead.have,
            sum: sum_past(ahead.sum, &bytes[..len]),
        })),
        None => Ok(None),
    }
}

// Whether the checksum of all frames stands behind them, where they have one.
fn has_seal(frames: Frames, last: Ahead, window: &[u8]) -> bool
    requires seal { (frames.stop ≡ frames.end) ⊎ (frames.stop ≡ frames.end + 4) }
    requires at { last.at ≡ frames.end }
    requires ahead { IsAhead frames.stop (length window.now) last }
    requires filled { IsFilled frames.stop last }
    ensures right { (seen : List ℕ) → Shows seen window.now last →
        IsTrue result ↔ SumStands frames last.sum seen }
{
    frames.stop == frames.end || is_sum(&window[last.used..last.used + 4], last.sum)
}
