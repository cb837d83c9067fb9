// What a head and an edit do to the store.
ghost use Rattle.std.specs.Prelude.{◌≡◌, ◌≤◌, ◌+◌, ◌++◌, ◌∷◌, ℕ, List, [], Option, None, Some, true, map, length};
ghost use Rattle.sx_base.specs.Causes.{Steady};
ghost use Rattle.sx_base.specs.Crash.{LeavesOnly};
ghost use Rattle.send_model.specs.Spelling.{IsSpellable};
ghost use Rattle.send_model.specs.Reading.{is_version};
ghost use Rattle.send_model.specs.Store.{head_of, begun, entered};
ghost use Rattle.store_model.specs.Image.{Header};
ghost use Rattle.store_model.specs.Stored.{Group, is_edit};
ghost use Rattle.store_model.specs.Written.{Begun, begun_by, begun_after};
ghost use Rattle.send_commands.specs.Meaning.{meaning_of};
ghost use Rattle.clone_resolve.specs.Heads.{head_meant};
ghost use Rattle.cmd_reader.specs.Next.{item_of};
ghost use Rattle.store_journal.specs.Shown.{IsIdle};
ghost use Rattle.store_journal.specs.Holding.{Holds};
ghost use Rattle.receiver.specs.Standing.{state_of, place_of, IsReady};
ghost use Rattle.receiver.specs.Steps.{EditsAs, begun_if};
ghost use Rattle.receiver.specs.Disks.{shown, Keeps, ItemKeeps, HasVersion, HasFront, marked};
ghost use Rattle.receiver.specs.Answers.{ended_log, ended_by, IsUsualLog, IsUsualStop, StepSays, PiecesSay, ReadySays, groups_behind, fault_counts, ErrCaused};

use crate::opened::{Opened, line_of};
use crate::outcome::Received;
use crate::task::FileItem;
use clone_resolve::Head;
use cmd_reader::Item;
use group_log::LogStop;
use group_replay::StoreStop;
use store_journal::Store;
use sx_base::{Disk, Outcome, Refusal, Verdict};

// A refusal, with the place of its command.
pub(crate) fn refused(file: u64, item: &Item<'_>, refusal: Refusal) -> Verdict
    ensures { result ≡ record {
      file = file;
      command = item.now.number;
      offset = item.now.offset;
      refusal = refusal;
    } }
{
    Verdict {
        file,
        command: item.number,
        offset: item.offset,
        refusal,
    }
}

// Why a call of the store stopped at a command.
fn stopped(file: u64, item: &Item<'_>, stop: StoreStop) -> Received
    requires usual { IsUsualStop stop }
    ensures { result ≡ ended_by (item_of file item.now) stop }
{
    match stop {
        StoreStop::Refused(refusal) => {
            Received::Files(Outcome::Refused(refused(file, item, refusal)))
        }
        StoreStop::NoMemory => Received::Files(Outcome::NoMemory),
        StoreStop::Log(why) => stopped_log(why),
    }
}

// Why the journal stopped.
fn stopped_log(why: LogStop) -> Received
    requires usual { IsUsualLog why }
    ensures { result ≡ ended_log why }
{
    match why {
        LogStop::LogFull { end, wanted, limit } => Received::LogFull { end, wanted, limit },
        LogStop::DiskFault => Received::StoreFault,
        LogStop::NotStore { .. } => unreachable!(),
        LogStop::StoreThere { .. } => unreachable!(),
    }
}

// Begins the part of a head. No part is open before it.
pub(crate) fn begin<D: Disk>(
    read: &FileItem<'_, '_>,
    head: &Head<'_>,
    store: &mut Store,
    disk: &mut D,
    current: &mut Option<Opened>,
) -> Result<(), Received>
    requires idle { IsIdle (D.len disk.old) store.old }
    requires none { current.old ≡ None }
    requires head { head_of (meaning_of read.now.item.now.command) ≡ Some (head_meant head.now) }
    requires spellable { IsSpellable read.now.item.now.version
        (meaning_of read.now.item.now.command) }
    requires version { is_version read.now.item.now.version ≡ true }
    ensures limit { store.new.log.limit ≡ store.old.log.limit }
    ensures stepped { StepSays result (item_of read.now.file read.now.item.now)
        (state_of store.new current.new) (entered store.old.core (head_meant head.now)
        (begun store.old.core (head_meant head.now))) }
    ensures pieces { PiecesSay result store.old.log.limit store.old.log.gate
        (place_of store.new current.new) (item_of read.now.file read.now.item.now) }
    ensures ready { ReadySays result (D.len disk.new) current.new store.new }

    // Where the disk tells, it has the group of the head then.
    ensures keeps { D.tells → (header : Header) (groups : List Group) (begun : Option Begun) →
        Holds header groups store.old (D.seen disk.old) (D.pending disk.old) →
        ItemKeeps result header current.new (shown D.Disk disk.new store.new)
        (groups_behind groups (groups ++ marked store.old.log.limit store.old.log.gate
        (meaning_of read.now.item.now.command))
        (groups ++ begun_by (meaning_of read.now.item.now.command))
        (begun_after begun (item_of read.now.file read.now.item.now))) }
    ensures any_moment { D.tells → (header : Header) (groups : List Group) →
        Holds header groups store.old (D.seen disk.old) (D.pending disk.old) →
        LeavesOnly D.moment D.left_since disk.old disk.new (HasFront header groups
        (begun_if (entered store.old.core (head_meant head.now)
        (begun store.old.core (head_meant head.now))) (meaning_of read.now.item.now.command))) }

    ensures cause { ErrCaused (fault_counts 0 0 (D.faults disk.old))
        (fault_counts 0 0 (D.faults disk.new)) result }
    ensures later { D.faults disk.old ≤ D.faults disk.new }
    ensures steady { Steady (D.faults disk.old) (D.faults disk.new) result }
{
    let Ok(line) = line_of(read.alloc, head) else {
        return Err(Received::Files(Outcome::NoMemory));
    };
    match store.begin(disk, &read.item.command, read.item.version) {
        Ok(part) => {
            *current = Some(Opened { part, line });
            Ok(())
        }
        Err(stop) => Err(stopped(read.file, read.item, stop)),
    }
}

// Edits the open part, if there is one.
pub(crate) fn edit<D: Disk>(
    read: &FileItem<'_, '_>,
    store: &mut Store,
    disk: &mut D,
    current: &mut Option<Opened>,
) -> Result<(), Received>
    requires ready { IsReady (D.len disk.old) current.old store.old }
    requires edit { is_edit (meaning_of read.now.item.now.command) ≡ true }
    requires spellable { IsSpellable read.now.item.now.version
        (meaning_of read.now.item.now.command) }
    ensures limit { store.new.log.limit ≡ store.old.log.limit }
    ensures stepped { EditsAs result (item_of read.now.file read.now.item.now)
        (state_of store.old current.old) (state_of store.new current.new) }
    ensures pieces { PiecesSay result store.old.log.limit (place_of store.old current.old)
        (place_of store.new current.new) (item_of read.now.file read.now.item.now) }
    ensures ready { ReadySays result (D.len disk.new) current.new store.new }

    // Where the disk tells, the edit stands in the group of the part then.
    ensures keeps { D.tells → (header : Header) (groups : List Group) (begun : Option Begun) →
        HasVersion read.now.item.now.version begun →
        Keeps header groups begun current.old (shown D.Disk disk.old store.old) →
        ItemKeeps result header current.new (shown D.Disk disk.new store.new)
        (groups_behind groups groups groups
        (begun_after begun (item_of read.now.file read.now.item.now))) }
    ensures any_moment { D.tells → (header : Header) (groups : List Group) (begun : Option Begun) →
        HasVersion read.now.item.now.version begun →
        Keeps header groups begun current.old (shown D.Disk disk.old store.old) →
        LeavesOnly D.moment D.left_since disk.old disk.new (HasFront header groups []) }

    ensures cause { ErrCaused (fault_counts 0 0 (D.faults disk.old))
        (fault_counts 0 0 (D.faults disk.new)) result }
    ensures later { D.faults disk.old ≤ D.faults disk.new }
    ensures steady { Steady (D.faults disk.old) (D.faults disk.new) result }
{
    let Some(opened) = current.take() else {
        let refused = refused(read.file, read.item, Refusal::NoSubvolume);
        return Err(Received::Files(Outcome::Refused(refused)));
    };
    let Opened { mut part, line } = opened;
    let edited = store.edit(disk, &mut part, &read.item.command, read.item.version);
    *current = Some(Opened { part, line });
    match edited {
        Ok(()) => Ok(()),
        Err(stop) => Err(stopped(read.file, read.item, stop)),
    }
}
