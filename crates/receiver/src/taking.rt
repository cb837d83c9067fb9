// Doing one command: a head, END or an edit.
ghost use Rattle.std.specs.Prelude.{◌≡◌, ◌≤◌, ◌++◌, ℕ, List, Option, Some, None, true, OnOk};
ghost use Rattle.sx_base.specs.Causes.{Steady};
ghost use Rattle.sx_base.specs.Crash.{LeavesOnly};
ghost use Rattle.send_model.specs.Counts.{is_end};
ghost use Rattle.send_model.specs.Spelling.{IsSpellable};
ghost use Rattle.send_model.specs.Reading.{is_version};
ghost use Rattle.send_model.specs.Store.{head_of, step};
ghost use Rattle.store_model.specs.Image.{Header};
ghost use Rattle.store_model.specs.Stored.{Group};
ghost use Rattle.store_model.specs.Written.{Begun, begun_by, begun_after};
ghost use Rattle.send_commands.specs.Meaning.{meaning_of};
ghost use Rattle.clone_resolve.specs.Heads.{head_meant};
ghost use Rattle.clone_resolve.specs.Steps.{cells_put};
ghost use Rattle.group_replay.specs.Placing.{further};
ghost use Rattle.group_replay.specs.declared.place.Place as here;
ghost use Rattle.cmd_reader.specs.Next.{item_of};
ghost use Rattle.receiver.specs.Standing.{state_of, place_of, behind_close, line_by, IsReady};
ghost use Rattle.receiver.specs.Steps.{TakesAs, begun_if};
ghost use Rattle.receiver.specs.Disks.{shown, Keeps, ItemKeeps, HasVersion, HasFront, work, HasNow, closing, marked};
ghost use Rattle.receiver.specs.Answers.{StepSays, PiecesSay, ReadySays, ItemWrites, groups_behind, fault_counts, ErrCaused};

use crate::closing::close;
use crate::doing::{begin, edit};
use crate::opened::Opened;
use crate::outcome::Received;
use crate::task::FileItem;
use clone_resolve::{Head, head_of};
use send_commands::Command;
use store_journal::Store;
use sx_base::{Disk, Sink};

// Whether a command ends its part.
#[tactic(auto, unfolding(send_commands::specs::Meaning::meaning_of))]
fn ends(command: &Command<'_>) -> bool
    ensures { result ≡ is_end (meaning_of command.now) }
{
    matches!(command, Command::End)
}

// Does a command that no guard refuses.
pub(crate) fn do_item<D: Disk, O: Sink>(
    read: &FileItem<'_, '_>,
    store: &mut Store,
    disk: &mut D,
    current: &mut Option<Opened>,
    out: &mut O,
) -> Result<(), Received>
    requires ready { IsReady (D.len disk.old) current.old store.old }
    requires spellable { IsSpellable read.now.item.now.version
        (meaning_of read.now.item.now.command) }
    requires version { is_version read.now.item.now.version ≡ true }
    ensures limit { store.new.log.limit ≡ store.old.log.limit }
    ensures stepped { TakesAs result (item_of read.now.file read.now.item.now)
        (state_of store.old current.old) (state_of store.new current.new) }
    ensures pieces { PiecesSay result store.old.log.limit
        (behind_close current.old (meaning_of read.now.item.now.command)
        (place_of store.old current.old))
        (place_of store.new current.new) (item_of read.now.file read.now.item.now) }
    ensures ready { ReadySays result (D.len disk.new) current.new store.new }
    ensures written { ItemWrites result ((place : here.Place) →
        HasNow D.Disk (work disk.old store.old current.old) disk.new read.now.item.now.version
        (closing (meaning_of read.now.item.now.command))
        (begun_if (step None (cells_put further place (meaning_of read.now.item.now.command))
        (state_of store.old current.old) (meaning_of read.now.item.now.command))
        (meaning_of read.now.item.now.command)))
        (line_by current.old (meaning_of read.now.item.now.command)) (O.taken out.old)
        (O.taken out.new) }
    ensures keeps { D.tells → (header : Header) (groups : List Group) (begun : Option Begun) →
        HasVersion read.now.item.now.version begun →
        Keeps header groups begun current.old (shown D.Disk disk.old store.old) →
        ItemKeeps result header current.new (shown D.Disk disk.new store.new)
        (groups_behind (groups ++ closing (meaning_of read.now.item.now.command) begun)
        (groups ++ (closing (meaning_of read.now.item.now.command) begun
        ++ marked store.old.log.limit (behind_close current.old
        (meaning_of read.now.item.now.command)
        (place_of store.old current.old)) (meaning_of read.now.item.now.command)))
        (groups ++ (closing (meaning_of read.now.item.now.command) begun
        ++ begun_by (meaning_of read.now.item.now.command)))
        (begun_after begun (item_of read.now.file read.now.item.now))) }
    ensures any_moment { D.tells → (header : Header) (groups : List Group) (begun : Option Begun) →
        (place : here.Place) → HasVersion read.now.item.now.version begun →
        Keeps header groups begun current.old (shown D.Disk disk.old store.old) →
        LeavesOnly D.moment D.left_since disk.old disk.new
        (HasFront header groups (closing (meaning_of read.now.item.now.command) begun
        ++ begun_if (step None (cells_put further place (meaning_of read.now.item.now.command))
        (state_of store.old current.old) (meaning_of read.now.item.now.command))
        (meaning_of read.now.item.now.command))) }
    ensures at_end { is_end (meaning_of read.now.item.now.command) ≡ true →
        OnOk result (current.new ≡ None) }
    ensures cause { ErrCaused (fault_counts 0 (O.faults out.old) (D.faults disk.old))
        (fault_counts 0 (O.faults out.new) (D.faults disk.new)) result }
    ensures later { D.faults disk.old ≤ D.faults disk.new }
    ensures out_later { O.faults out.old ≤ O.faults out.new }
    ensures steady { Steady (D.faults disk.old) (D.faults disk.new) result }
    ensures out_steady { Steady (O.faults out.old) (O.faults out.new) result }
{
    if ends(&read.item.command) {
        return close(store, disk, current, out);
    }
    match head_of(&read.item.command) {
        None => edit(read, store, disk, current),
        Some(head) => enter(read, &head, store, disk, current, out),
    }
}

// Completes the part before a head, and begins the one of the head.
fn enter<D: Disk, O: Sink>(
    read: &FileItem<'_, '_>,
    head: &Head<'_>,
    store: &mut Store,
    disk: &mut D,
    current: &mut Option<Opened>,
    out: &mut O,
) -> Result<(), Received>
    requires head { head_of (meaning_of read.now.item.now.command) ≡ Some (head_meant head.now) }
    requires ready { IsReady (D.len disk.old) current.old store.old }
    requires spellable { IsSpellable read.now.item.now.version
        (meaning_of read.now.item.now.command) }
    requires version { is_version read.now.item.now.version ≡ true }
    ensures limit { store.new.log.limit ≡ store.old.log.limit }
    ensures stepped { TakesAs result (item_of read.now.file read.now.item.now)
        (state_of store.old current.old) (state_of store.new current.new) }
    ensures pieces { PiecesSay result store.old.log.limit
        (behind_close current.old (meaning_of read.now.item.now.command)
        (place_of store.old current.old))
        (place_of store.new current.new) (item_of read.now.file read.now.item.now) }
    ensures ready { ReadySays result (D.len disk.new) current.new store.new }
    ensures written { ItemWrites result ((place : here.Place) →
        HasNow D.Disk (work disk.old store.old current.old) disk.new read.now.item.now.version
        (closing (meaning_of read.now.item.now.command))
        (begun_if (step None (cells_put further place (meaning_of read.now.item.now.command))
        (state_of store.old current.old) (meaning_of read.now.item.now.command))
        (meaning_of read.now.item.now.command)))
        (line_by current.old (meaning_of read.now.item.now.command)) (O.taken out.old)
        (O.taken out.new) }
    ensures keeps { D.tells → (header : Header) (groups : List Group) (begun : Option Begun) →
        HasVersion read.now.item.now.version begun →
        Keeps header groups begun current.old (shown D.Disk disk.old store.old) →
        ItemKeeps result header current.new (shown D.Disk disk.new store.new)
        (groups_behind (groups ++ closing (meaning_of read.now.item.now.command) begun)
        (groups ++ (closing (meaning_of read.now.item.now.command) begun
        ++ marked store.old.log.limit (behind_close current.old
        (meaning_of read.now.item.now.command)
        (place_of store.old current.old)) (meaning_of read.now.item.now.command)))
        (groups ++ (closing (meaning_of read.now.item.now.command) begun
        ++ begun_by (meaning_of read.now.item.now.command)))
        (begun_after begun (item_of read.now.file read.now.item.now))) }
    ensures any_moment { D.tells → (header : Header) (groups : List Group) (begun : Option Begun) →
        (place : here.Place) → HasVersion read.now.item.now.version begun →
        Keeps header groups begun current.old (shown D.Disk disk.old store.old) →
        LeavesOnly D.moment D.left_since disk.old disk.new
        (HasFront header groups (closing (meaning_of read.now.item.now.command) begun
        ++ begun_if (step None (cells_put further place (meaning_of read.now.item.now.command))
        (state_of store.old current.old) (meaning_of read.now.item.now.command))
        (meaning_of read.now.item.now.command))) }
    ensures at_end { is_end (meaning_of read.now.item.now.command) ≡ true →
        OnOk result (current.new ≡ None) }
    ensures cause { ErrCaused (fault_counts 0 (O.faults out.old) (D.faults disk.old))
        (fault_counts 0 (O.faults out.new) (D.faults disk.new)) result }
    ensures later { D.faults disk.old ≤ D.faults disk.new }
    ensures out_later { O.faults out.old ≤ O.faults out.new }
    ensures steady { Steady (D.faults disk.old) (D.faults disk.new) result }
    ensures out_steady { Steady (O.faults out.old) (O.faults out.new) result }
{
    match close(store, disk, current, out) {
        Ok(()) => {}
        Err(ended) => return Err(ended),
    }
    begin(read, head, store, disk, current)
}
