// Receiving one command: the guards look at it, it is done, and it is put into the journal.
ghost use Rattle.std.specs.Prelude.{◌≡◌, ◌≤◌, ◌++◌, ℕ, List, Option, Some, None, true, OnOk};
ghost use Rattle.sx_base.specs.Causes.{Steady};
ghost use Rattle.sx_base.specs.Crash.{LeavesOnly};
ghost use Rattle.send_model.specs.Counts.{is_end};
ghost use Rattle.send_model.specs.Spelling.{IsSpellable};
ghost use Rattle.send_model.specs.Reading.{is_version};
ghost use Rattle.store_model.specs.Image.{Header};
ghost use Rattle.store_model.specs.Stored.{Group};
ghost use Rattle.store_model.specs.Written.{Begun, closed_by, begun_by, begun_after};
ghost use Rattle.send_commands.specs.Meaning.{meaning_of};
ghost use Rattle.cmd_reader.specs.Next.{item_of};
ghost use Rattle.auditor.specs.Following.{beside, follow};
ghost use Rattle.receiver.specs.Standing.{place_of, behind_close, IsReady};
ghost use Rattle.receiver.specs.Steps.{blank_of, line_under, begun_if};
ghost use Rattle.receiver.specs.Disks.{shown, Keeps, ItemKeeps, HasVersion, HasFront, work, HasNow, marked};
ghost use Rattle.receiver.specs.Answers.{StepSays, PiecesSay, ReadySays, ItemWrites, groups_behind, fault_counts, ErrCaused};

use crate::doing::refused;
use crate::guarding::Guarding;
use crate::opened::Opened;
use crate::outcome::Received;
use crate::taking::do_item;
use crate::task::FileItem;
use store_journal::Store;
use sx_base::{Disk, Outcome, Sink};

// The next command of a file, which is the given one of several.
pub(crate) fn receive_item<D: Disk, O: Sink, G: Guarding>(
    read: &FileItem<'_, '_>,
    store: &mut Store,
    disk: &mut D,
    guards: &mut G,
    current: &mut Option<Opened>,
    out: &mut O,
) -> Result<(), Received>
    requires ready { IsReady (D.len disk.old) current.old store.old }
    requires spellable { IsSpellable read.now.item.now.version
        (meaning_of read.now.item.now.command) }
    requires version { is_version read.now.item.now.version ≡ true }
    ensures limit { store.new.log.limit ≡ store.old.log.limit }
    ensures followed { StepSays result (item_of read.now.file read.now.item.now)
        (beside (G.kept guards.new) (blank_of store.new current.new))
        (follow (beside (G.kept guards.old) (blank_of store.old current.old))
        (item_of read.now.file read.now.item.now)) }
    ensures pieces { PiecesSay result store.old.log.limit
        (behind_close current.old (meaning_of read.now.item.now.command)
        (place_of store.old current.old))
        (place_of store.new current.new) (item_of read.now.file read.now.item.now) }
    ensures ready { ReadySays result (D.len disk.new) current.new store.new }
    ensures written { ItemWrites result (HasNow D.Disk
        (work disk.old store.old current.old) disk.new read.now.item.now.version
        (closed_by (G.kept guards.old) (meaning_of read.now.item.now.command))
        (begun_if (follow (beside (G.kept guards.old) (blank_of store.old current.old))
        (item_of read.now.file read.now.item.now)) (meaning_of read.now.item.now.command)))
        (line_under (G.kept guards.old) current.old (meaning_of read.now.item.now.command))
        (O.taken out.old) (O.taken out.new) }
    ensures keeps { D.tells → (header : Header) (groups : List Group) (begun : Option Begun) →
        HasVersion read.now.item.now.version begun →
        Keeps header groups begun current.old (shown D.Disk disk.old store.old) →
        ItemKeeps result header current.new (shown D.Disk disk.new store.new)
        (groups_behind
        (groups ++ closed_by (G.kept guards.old) (meaning_of read.now.item.now.command) begun)
        (groups ++ (closed_by (G.kept guards.old) (meaning_of read.now.item.now.command) begun
        ++ marked store.old.log.limit (behind_close current.old
        (meaning_of read.now.item.now.command)
        (place_of store.old current.old)) (meaning_of read.now.item.now.command)))
        (groups ++ (closed_by (G.kept guards.old) (meaning_of read.now.item.now.command) begun
        ++ begun_by (meaning_of read.now.item.now.command)))
        (begun_after begun (item_of read.now.file read.now.item.now))) }
    ensures any_moment { D.tells → (header : Header) (groups : List Group) (begun : Option Begun) →
        HasVersion read.now.item.now.version begun →
        Keeps header groups begun current.old (shown D.Disk disk.old store.old) →
        LeavesOnly D.moment D.left_since disk.old disk.new (HasFront header groups
        (closed_by (G.kept guards.old) (meaning_of read.now.item.now.command) begun
        ++ begun_if (follow (beside (G.kept guards.old) (blank_of store.old current.old))
        (item_of read.now.file read.now.item.now)) (meaning_of read.now.item.now.command))) }
    ensures at_end { is_end (meaning_of read.now.item.now.command) ≡ true →
        OnOk result (current.new ≡ None) }
    ensures cause { ErrCaused (fault_counts 0 (O.faults out.old) (D.faults disk.old))
        (fault_counts 0 (O.faults out.new) (D.faults disk.new)) result }
    ensures later { D.faults disk.old ≤ D.faults disk.new }
    ensures out_later { O.faults out.old ≤ O.faults out.new }
    ensures steady { Steady (D.faults disk.old) (D.faults disk.new) result }
    ensures out_steady { Steady (O.faults out.old) (O.faults out.new) result }
{
    if let Some(refusal) = guards.look(&read.item.command) {
        let refused = refused(read.file, read.item, refusal);
        return Err(Received::Files(Outcome::Refused(refused)));
    }
    do_item(read, store, disk, current, out)
}
