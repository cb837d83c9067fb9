// The frames of a part's edits, put into the group of the part.
ghost use Rattle.std.specs.Prelude.{◌≡◌, ◌≤◌, ◌+◌, ◌++◌, ◌∷◌, [], ℕ, List, length, true, Option, None, IfOk, OnOk, IfErr};
ghost use Rattle.sx_base.specs.Causes.{Rose, Steady};
ghost use Rattle.sx_base.specs.Crash.{LeavesOnly};
ghost use Rattle.send_model.specs.Command as meant;
ghost use Rattle.send_model.specs.Reading.{is_version};
ghost use Rattle.send_model.specs.Spelling.{canonical};
ghost use Rattle.send_model.specs.Subvolume.{Subvolume};
ghost use Rattle.send_model.specs.Store.{State};
ghost use Rattle.store_model.specs.Image.{Header};
ghost use Rattle.store_model.specs.Stored.{Group};
ghost use Rattle.group_replay.specs.declared.place.Place as here;
ghost use Rattle.group_replay.specs.Stopping.{IfLog, IsNoRefusal};
ghost use Rattle.group_replay.specs.Taking.{open_state};
ghost use Rattle.store_journal.specs.Filling.{first_full, piece_asks, IsStopOf};
ghost use Rattle.store_journal.specs.Shown.{IsOpen};
ghost use Rattle.store_journal.specs.Holding.{HasThese, Builds, in_progress};
ghost use Rattle.turn_sessions.specs.Fronts.{FindsFront};
ghost use Rattle.turn_sessions.specs.Edits.{AreFrames, AreMade, IsFront, IsTaken, frame_asks, IfStopped};

use clone_resolve::Part;
use cmd_reader::canonical_command;
use group_replay::{Place, StoreStop};
use send_commands::Command;
use store_journal::Store;
use sx_base::Disk;
use tlv_frame::{FRAME_HEAD_LEN, frame_in};

// A command and the length of its frame.
#[derive(Clone, Copy)]
pub(crate) struct Front<'a> {
    pub(crate) command: Command<'a>,
    pub(crate) len: usize,
}

// The command whose canonical spelling stands in front of the bytes, none where there is none.
fn front_of<'a>(version: u32, bytes: &'a [u8]) -> Option<Front<'a>>
    requires version { is_version version ≡ true }
    ensures found { FindsFront version bytes.now result }
{
    let head = match frame_in(bytes) {
        Ok(Some(head)) => head,
        Ok(None) => return None,
        Err(_) => return None,
    };
    let len = FRAME_HEAD_LEN + head.len as usize;
    let Some(command) = canonical_command(version, head.cmd, &bytes[FRAME_HEAD_LEN..len]) else {
        return None;
    };
    Some(Front { command, len })
}

// Edits the open part by the command of the frame in front, and says how long the frame is.
fn write_front<D: Disk>(
    store: &mut Store,
    disk: &mut D,
    part: &mut Part<Place>,
    version: u32,
    bytes: &[u8],
) -> Result<usize, StoreStop>
    requires is_open { IsOpen (D.len disk.old) part.old store.old }
    requires version { is_version version ≡ true }
    requires next { (c : meant.Command) × (more : List ℕ)
        × (middle : Subvolume (Option here.Place)) × IsFront version bytes.now c more
        × IsTaken version store.old part.old c middle }
    ensures key { part.new.key ≡ part.old.key }
    ensures core { store.new.core ≡ store.old.core }
    ensures gate { store.new.log.gate ≡ store.old.log.gate }
    ensures limit { store.new.log.limit ≡ store.old.log.limit }
    ensures len { (c : meant.Command) (more : List ℕ) → IsFront version bytes.now c more →
        IfOk result (λ len. len ≡ length (canonical version c)) }
    ensures size { (c : meant.Command) (more : List ℕ) → IsFront version bytes.now c more →
        OnOk result (store.new.log.size ≡ store.old.log.size + length (canonical version c)) }
    ensures edited { (c : meant.Command) (more : List ℕ)
        (middle : Subvolume (Option here.Place)) → IsFront version bytes.now c more →
        IsTaken version store.old part.old c middle → OnOk result (part.new.subvolume ≡ middle) }
    ensures still_open { OnOk result (IsOpen (D.len disk.new) part.new store.new) }
    ensures builds { D.tells → (header : Header) (groups : List Group)
        (commands : List meant.Command) (c : meant.Command) (more : List ℕ) →
        IsFront version bytes.now c more →
        Builds header groups (in_progress version commands part.old) store.old
        (D.seen disk.old) (D.pending disk.old) →
        OnOk result (Builds header groups (in_progress version (commands ++ c ∷ []) part.new)
        store.new (D.seen disk.new) (D.pending disk.new)) }

    // At every moment a crash leaves the groups that there were.
    ensures any_moment { D.tells → (header : Header) (groups : List Group)
        (commands : List meant.Command) →
        Builds header groups (in_progress version commands part.old) store.old
        (D.seen disk.old) (D.pending disk.old) →
        LeavesOnly D.moment D.left_since disk.old disk.new (HasThese header groups) }

    ensures not_refused { IfErr result IsNoRefusal }
    ensures stopped { IfStopped result store.new (IsOpen (D.len disk.new) part.new store.new) }
    ensures stops { (c : meant.Command) (more : List ℕ) → IsFront version bytes.now c more →
        IfLog result (IsStopOf (Rose (D.faults disk.old) (D.faults disk.new)) store.old.log.limit
        (first_full store.old.log.limit
        (piece_asks store.old.log.size (length (canonical version c))))) }
    ensures fits { (c : meant.Command) (more : List ℕ) → IsFront version bytes.now c more →
        OnOk result (first_full store.old.log.limit
        (piece_asks store.old.log.size (length (canonical version c))) ≡ None) }
    ensures later { D.faults disk.old ≤ D.faults disk.new }
    ensures steady { Steady (D.faults disk.old) (D.faults disk.new) result }
{
    let Some(front) = front_of(version, bytes) else {
        unreachable!()
    };
    let edited = store.edit(disk, part, &front.command, version);
    match edited {
        Ok(()) => Ok(front.len),
        Err(why) => Err(why),
    }
}

// Edits the open part by the command of each frame, in order.
pub(crate) fn write_frames<D: Disk>(
    store: &mut Store,
    disk: &mut D,
    part: &mut Part<Place>,
    version: u32,
    frames: &[u8],
) -> Result<(), StoreStop>
    requires is_open { IsOpen (D.len disk.old) part.old store.old }
    requires version { is_version version ≡ true }
    requires frames { (commands : List meant.Command) × (end : State (Option here.Place))
        × AreFrames version frames.now commands × AreMade version store.old part.old commands end }
    ensures key { part.new.key ≡ part.old.key }
    ensures core { store.new.core ≡ store.old.core }
    ensures gate { store.new.log.gate ≡ store.old.log.gate }
    ensures limit { store.new.log.limit ≡ store.old.log.limit }
    ensures size { OnOk result (store.new.log.size ≡ store.old.log.size + length frames.now) }
    ensures still_open { OnOk result (IsOpen (D.len disk.new) part.new store.new) }
    ensures made { (commands : List meant.Command) (end : State (Option here.Place)) →
        AreFrames version frames.now commands → AreMade version store.old part.old commands end →
        OnOk result (open_state store.new.core part.new ≡ end) }
    ensures builds { D.tells → (header : Header) (groups : List Group)
        (before commands : List meant.Command) → AreFrames version frames.now commands →
        Builds header groups (in_progress version before part.old) store.old
        (D.seen disk.old) (D.pending disk.old) →
        OnOk result (Builds header groups (in_progress version (before ++ commands) part.new)
        store.new (D.seen disk.new) (D.pending disk.new)) }

    // At every moment a crash leaves the groups that there were.
    ensures any_moment { D.tells → (header : Header) (groups : List Group)
        (before : List meant.Command) →
        Builds header groups (in_progress version before part.old) store.old
        (D.seen disk.old) (D.pending disk.old) →
        LeavesOnly D.moment D.left_since disk.old disk.new (HasThese header groups) }

    ensures not_refused { IfErr result IsNoRefusal }
    ensures stopped { IfStopped result store.new (IsOpen (D.len disk.new) part.new store.new) }
    ensures stops { (commands : List meant.Command) → AreFrames version frames.now commands →
        IfLog result (IsStopOf (Rose (D.faults disk.old) (D.faults disk.new)) store.old.log.limit
        (first_full store.old.log.limit (frame_asks version store.old.log.size commands))) }
    ensures fits { (commands : List meant.Command) → AreFrames version frames.now commands →
        OnOk result (first_full store.old.log.limit
        (frame_asks version store.old.log.size commands) ≡ None) }
    ensures later { D.faults disk.old ≤ D.faults disk.new }
    ensures steady { Steady (D.faults disk.old) (D.faults disk.new) result }
{
    let mut at = 0;
    while at < frames.len() {
        match write_front(store, disk, part, version, &frames[at..]) {
            Ok(len) => at += len,
            Err(why) => return Err(why),
        }
    }
    Ok(())
}
