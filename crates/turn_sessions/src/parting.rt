// What heads, edits and ends do to a session's part and to the store.
ghost use Rattle.std.specs.Prelude.{◌≡◌, ◌≤◌, ◌++◌, ◌∷◌, ℕ, List, [], Option, None, Some, Ok, true, IfErr, OnOk};
ghost use Rattle.std.specs.Option.{option_map};
ghost use Rattle.sx_base.specs.Causes.{Rose, Steady};
ghost use Rattle.sx_base.specs.Crash.{LeavesOnly};
ghost use Rattle.sx_base.specs.Later.{OutputLater};
ghost use Rattle.send_model.specs.Command as meant;
ghost use Rattle.send_model.specs.Spelling.{IsSpellable};
ghost use Rattle.send_model.specs.Reading.{is_version, CommandDue};
ghost use Rattle.send_model.specs.Store as model_store;
ghost use Rattle.send_model.specs.Store.{head_of, begun, entered, completed, step_edit};
ghost use Rattle.store_model.specs.Image.{Header};
ghost use Rattle.store_model.specs.Stored.{Group, Body, is_edit};
ghost use Rattle.store_model.specs.Turns.{Receiving, part_of, beginnings};
ghost use Rattle.auditor.specs.Following.{blank};
ghost use Rattle.send_commands.specs.Meaning.{meaning_of};
ghost use Rattle.clone_resolve.specs.Heads.{head_meant};
ghost use Rattle.cmd_reader.specs.Next.{item_of};
ghost use Rattle.group_replay.specs.declared.place.Place as here;
ghost use Rattle.group_replay.specs.Stopping.{IfLog, IsNoRefusal};
ghost use Rattle.store_journal.specs.Filling.{first_full, IsStopOf};
ghost use Rattle.store_journal.specs.Shown.{IsIdle};
ghost use Rattle.store_journal.specs.Holding.{new_group, HasThese, HasOneMore, Holds};
ghost use Rattle.receiver.specs.Answers.{fault_counts, ended_log, IsUsualLog};
ghost use Rattle.turn_sessions.specs.Edits.{AreFrames, IsCompletedBy, body_asks, body_end, IfStopped, IfLogFull};
ghost use Rattle.turn_sessions.specs.Standing.{Blank, blank_cells, AreParts, AreHeld};
ghost use Rattle.turn_sessions.specs.Doing.{ErrCaused, IdleSays, IsNoMemory, IsItemStop, run_of, stopped_as, work};
ghost use Rattle.turn_sessions.specs.Turning.{CloseSays, ItemSays, EditSays, HasVersionOf, to_do};

use crate::frames::write_frames;
use crate::part::{OpenPart, line_of};
use crate::task::FileItem;
use clone_resolve::Head;
use group_log::LogStop;
use group_replay::{Place, StoreStop};
use receiver::Received;
use send_commands::encode;
use store_journal::Store;
use sx_base::{Blob, Disk, Outcome, Refusal, Sink, Stop, write_whole};
use uuid::Uuid;

// Why the journal stopped, as the end of all turns.
fn ended_log(why: LogStop) -> Received
    requires usual { IsUsualLog why }
    ensures { result ≡ ended_log why }
{
    match why {
        LogStop::LogFull { end, wanted, limit } => Received::LogFull { end, wanted, limit },
        LogStop::DiskFault => Received::StoreFault,
        LogStop::NotStore { .. } => unreachable!(),
        LogStop::StoreThere { .. } => unreachable!(),
    }
}

// Why a call of the store stopped that refuses nothing.
fn ended_by(why: StoreStop) -> Received
    requires no_refusal { IsNoRefusal why }
    requires usual { IfLog {T = Unit {0}} (Err why) IsUsualLog }
    ensures { result ≡ stopped_as why }
{
    match why {
        StoreStop::Refused(_) => unreachable!(),
        StoreStop::NoMemory => Received::Files(Outcome::NoMemory),
        StoreStop::Log(why) => ended_log(why),
    }
}

// Writes the group of a part, and publishes it: the edits that complete an unfinished entry.
fn complete<D: Disk>(
    store: &mut Store,
    disk: &mut D,
    uuid: Uuid,
    version: u32,
    frames: &[u8],
) -> Result<(), StoreStop>
    requires idle { IsIdle (D.len disk.old) store.old }
    requires version { is_version version ≡ true }
    requires completed { (commands : List meant.Command)
        × (new : model_store.Store (Option here.Place)) × AreFrames version frames.now commands
        × IsCompletedBy version uuid store.old commands new }
    ensures idle { OnOk result (IsIdle (D.len disk.new) store.new) }
    ensures limit { store.new.log.limit ≡ store.old.log.limit }
    ensures made { (commands : List meant.Command) (new : model_store.Store (Option here.Place)) →
        AreFrames version frames.now commands → IsCompletedBy version uuid store.old commands new →
        OnOk result (store.new.core ≡ new) }
    ensures gate { (commands : List meant.Command) → AreFrames version frames.now commands →
        OnOk result (store.new.log.gate ≡ body_end version store.old.log.gate commands) }
    ensures holds { D.tells → (header : Header) (groups : List Group)
        (commands : List meant.Command) → AreFrames version frames.now commands →
        Holds header groups store.old (D.seen disk.old) (D.pending disk.old) →
        OnOk result (Holds header (groups ++ new_group (Body uuid version commands) ∷ [])
        store.new (D.seen disk.new) (D.pending disk.new)) }

    // At every moment a crash leaves the groups that there were, or these and that of the part.
    ensures any_moment { D.tells → (header : Header) (groups : List Group)
        (commands : List meant.Command) → AreFrames version frames.now commands →
        Holds header groups store.old (D.seen disk.old) (D.pending disk.old) →
        LeavesOnly D.moment D.left_since disk.old disk.new
        (HasOneMore header groups (new_group (Body uuid version commands))) }

    // Where there is no room for it, they are those that there were.
    ensures no_room { D.tells → (header : Header) (groups : List Group) →
        Holds header groups store.old (D.seen disk.old) (D.pending disk.old) →
        IfLogFull result (LeavesOnly D.moment D.left_since disk.old disk.new
        (HasThese header groups)) }
    ensures not_refused { IfErr result IsNoRefusal }
    ensures stopped { IfStopped result store.new (IsIdle (D.len disk.new) store.new) }
    ensures stops { (commands : List meant.Command) → AreFrames version frames.now commands →
        IfLog result (IsStopOf (Rose (D.faults disk.old) (D.faults disk.new)) store.old.log.limit
        (first_full store.old.log.limit (body_asks version store.old.log.gate commands))) }
    ensures fits { (commands : List meant.Command) → AreFrames version frames.now commands →
        OnOk result (first_full store.old.log.limit
        (body_asks version store.old.log.gate commands) ≡ None) }
    ensures later { D.faults disk.old ≤ D.faults disk.new }
    ensures steady { Steady (D.faults disk.old) (D.faults disk.new) result }
{
    let mut part = match store.reopen(disk, uuid, version) {
        Ok(part) => part,
        Err(why) => return Err(why),
    };
    match write_frames(store, disk, &mut part, version, frames) {
        Ok(()) => {}
        Err(why) => {
            store.abandon(part);
            return Err(why);
        }
    }
    match store.complete(disk, part) {
        Ok(()) => Ok(()),
        Err(why) => Err(StoreStop::Log(why)),
    }
}

// Completes the open part, if there is one: its group is written and published, and then its line.
pub(crate) fn close<D: Disk, O: Sink>(
    store: &mut Store,
    disk: &mut D,
    current: &mut Option<OpenPart>,
    out: &mut O,
) -> Result<(), Received>
    requires idle { IsIdle (D.len disk.old) store.old }
    requires held { (p : Option (Receiving Blank)) × AreParts p current.old
        × AreHeld (blank store.old.core) p }
    ensures none { current.new ≡ None }
    ensures closed { (p : Option (Receiving Blank)) → AreParts p current.old →
        AreHeld (blank store.old.core) p →
        CloseSays (run_of D.Disk (work disk.old store.old (O.taken out.old))
        (work disk.new store.new (O.taken out.new))) p result }
    ensures limit { store.new.log.limit ≡ store.old.log.limit }
    ensures idle { IdleSays result (D.len disk.new) store.new }
    ensures stops { IfErr result IsItemStop }
    ensures cause { ErrCaused (fault_counts 0 (O.faults out.old) (D.faults disk.old))
        (fault_counts 0 (O.faults out.new) (D.faults disk.new)) result }
    ensures later { D.faults disk.old ≤ D.faults disk.new }
    ensures steady { Steady (D.faults disk.old) (D.faults disk.new) result }
    ensures out { OutputLater O.Sink out.old out.new result }
{
    let Some(open) = current.take() else {
        return Ok(());
    };
    let OpenPart {
        part,
        line,
        version,
        frames,
    } = open;
    match complete(store, disk, part.key().uuid, version, frames.as_slice()) {
        Ok(()) => {}
        Err(why) => return Err(ended_by(why)),
    }
    let Ok(()) = write_whole(out, line.as_slice()) else {
        return Err(Received::Files(Outcome::OutputFault));
    };
    Ok(())
}

// Begins the part of a head, or gives the refusal of it. No part is open before it.
pub(crate) fn begin<D: Disk>(
    read: &FileItem<'_, '_>,
    head: &Head<'_>,
    store: &mut Store,
    disk: &mut D,
    current: &mut Option<OpenPart>,
) -> Result<Option<Refusal>, Received>
    requires idle { IsIdle (D.len disk.old) store.old }
    requires none { current.old ≡ None }
    requires head { head_of (meaning_of read.now.item.now.command) ≡ Some (head_meant head.now) }
    requires spellable { IsSpellable read.now.item.now.version
        (meaning_of read.now.item.now.command) }
    requires version { is_version read.now.item.now.version ≡ true }
    ensures begun { (written : Option (List ℕ)) →
        ItemSays (run_of D.Disk (work disk.old store.old written) (work disk.new store.new written))
        (to_do (item_of read.now.file read.now.item.now) None (entered (blank store.old.core)
        (head_meant head.now) (begun (blank store.old.core) (head_meant head.now))) (beginnings
        (item_of read.now.file read.now.item.now) (entered (blank store.old.core)
        (head_meant head.now) (begun (blank store.old.core) (head_meant head.now))).refusal))
        current.new result }
    ensures version { OnOk result (HasVersionOf read.now.item.now.version current.new) }
    ensures limit { store.new.log.limit ≡ store.old.log.limit }
    ensures idle { IdleSays result (D.len disk.new) store.new }
    ensures stops { IfErr result IsItemStop }
    ensures cause { ErrCaused (fault_counts 0 0 (D.faults disk.old))
        (fault_counts 0 0 (D.faults disk.new)) result }
    ensures later { D.faults disk.old ≤ D.faults disk.new }
    ensures steady { Steady (D.faults disk.old) (D.faults disk.new) result }
{
    let Ok(line) = line_of(read.alloc, head) else {
        return Err(Received::Files(Outcome::NoMemory));
    };
    match store.mark(disk, &read.item.command) {
        Ok(part) => {
            *current = Some(OpenPart {
                part,
                line,
                version: read.item.version,
                frames: Blob::new(read.alloc),
            });
            Ok(None)
        }
        Err(StoreStop::Refused(refusal)) => Ok(Some(refusal)),
        Err(StoreStop::NoMemory) => Err(Received::Files(Outcome::NoMemory)),
        Err(StoreStop::Log(why)) => Err(ended_log(why)),
    }
}

// Edits the open part, if there is one, and keeps the frame of the edit; or gives its refusal.
pub(crate) fn edit(
    read: &FileItem<'_, '_>,
    store: &Store,
    current: &mut Option<OpenPart>,
) -> Result<Option<Refusal>, Received>
    requires edit { is_edit (meaning_of read.now.item.now.command) ≡ true }
    requires spellable { IsSpellable read.now.item.now.version
        (meaning_of read.now.item.now.command) }
    requires version { HasVersionOf read.now.item.now.version current.old }
    ensures edited { (p : Option (Receiving Blank)) → AreParts p current.old →
        EditSays (item_of read.now.file read.now.item.now) p
        (step_edit tt (blank_cells (item_of read.now.file read.now.item.now))
        (record { store = blank store.now.core; part = part_of p })
        (meaning_of read.now.item.now.command)) current.new result }
    ensures version { OnOk result (HasVersionOf read.now.item.now.version current.new) }
    ensures memory { IfErr result IsNoMemory }
    ensures stops { IfErr result IsItemStop }
{
    let Some(open) = current.take() else {
        return Ok(Some(Refusal::NoSubvolume));
    };
    let OpenPart {
        mut part,
        line,
        version,
        mut frames,
    } = open;
    match store
        .core()
        .edit(&mut part, &read.item.command, Place { at: 0 })
    {
        Ok(()) => {}
        Err(Stop::Refused(refusal)) => return Ok(Some(refusal)),
        Err(Stop::NoMemory) => return Err(Received::Files(Outcome::NoMemory)),
    }
    let Ok(()) = encode(&read.item.command, version, &mut frames) else {
        return Err(Received::Files(Outcome::NoMemory));
    };
    *current = Some(OpenPart {
        part,
        line,
        version,
        frames,
    });
    Ok(None)
}
