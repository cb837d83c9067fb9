// What one command does that a session reads.
ghost use Rattle.std.specs.Prelude.{◌≡◌, ◌≤◌, ◌++◌, ℕ, List, [], Option, None, Some, true, OnOk, IfErr};
ghost use Rattle.sx_base.specs.Causes.{Steady};
ghost use Rattle.sx_base.specs.Later.{OutputLater};
ghost use Rattle.send_model.specs.Counts.{is_end};
ghost use Rattle.send_model.specs.Spelling.{IsSpellable};
ghost use Rattle.send_model.specs.Reading.{is_version};
ghost use Rattle.send_model.specs.Guards.{guarded, looked};
ghost use Rattle.send_model.specs.Store.{head_of, step};
ghost use Rattle.store_model.specs.Turns.{Receiving, part_of, completions, beginnings};
ghost use Rattle.auditor.specs.Following.{blank};
ghost use Rattle.send_commands.specs.Meaning.{meaning_of};
ghost use Rattle.clone_resolve.specs.Heads.{head_meant};
ghost use Rattle.cmd_reader.specs.Next.{item_of};
ghost use Rattle.store_journal.specs.Shown.{IsIdle};
ghost use Rattle.receiver.specs.Answers.{fault_counts};
ghost use Rattle.turn_sessions.specs.Standing.{Blank, blank_cells, AreParts, AreHeld};
ghost use Rattle.turn_sessions.specs.Doing.{ErrCaused, IdleSays, IsItemStop, run_of, work};
ghost use Rattle.turn_sessions.specs.Turning.{HasVersionOf, IfOkNone, ItemSays, LookSays, step_to_do};

use crate::part::OpenPart;
use crate::parting::{begin, close, edit};
use crate::task::FileItem;
use clone_resolve::{Head, head_of};
use receiver::{Guarding, Received};
use send_commands::Command;
use store_journal::Store;
use sx_base::{Disk, Refusal, Sink};

// Whether a command ends its part.
#[tactic(auto, unfolding(send_commands::specs::Meaning::meaning_of))]
fn ends(command: &Command<'_>) -> bool
    ensures { result ≡ is_end (meaning_of command.now) }
{
    matches!(command, Command::End)
}

// The next command of a session: its guards look at it, and it is done. None where it is taken.
pub(crate) fn take_item<D: Disk, O: Sink, G: Guarding + Drop>(
    read: &FileItem<'_, '_>,
    store: &mut Store,
    disk: &mut D,
    guards: &mut G,
    current: &mut Option<OpenPart>,
    out: &mut O,
) -> Result<Option<Refusal>, Received>
    requires idle { IsIdle (D.len disk.old) store.old }
    requires held { (p : Option (Receiving Blank)) × AreParts p current.old
        × AreHeld (blank store.old.core) p }
    requires spellable { IsSpellable read.now.item.now.version
        (meaning_of read.now.item.now.command) }
    requires version { is_version read.now.item.now.version ≡ true }
    requires same { HasVersionOf read.now.item.now.version current.old }
    ensures looked { G.kept guards.new
        ≡ looked (G.kept guards.old) (meaning_of read.now.item.now.command) }
    ensures taken { (p : Option (Receiving Blank)) → AreParts p current.old →
        AreHeld (blank store.old.core) p →
        LookSays (run_of D.Disk (work disk.old store.old (O.taken out.old))
        (work disk.new store.new (O.taken out.new)))
        (item_of read.now.file read.now.item.now) p
        (guarded (G.kept guards.old) (meaning_of read.now.item.now.command)) current.new result }
    ensures closed { is_end (meaning_of read.now.item.now.command) ≡ true →
        IfOkNone result (current.new ≡ None) }
    ensures version { OnOk result (HasVersionOf read.now.item.now.version current.new) }
    ensures limit { store.new.log.limit ≡ store.old.log.limit }
    ensures idle { IdleSays result (D.len disk.new) store.new }
    ensures stops { IfErr result IsItemStop }
    ensures cause { ErrCaused (fault_counts 0 (O.faults out.old) (D.faults disk.old))
        (fault_counts 0 (O.faults out.new) (D.faults disk.new)) result }
    ensures later { D.faults disk.old ≤ D.faults disk.new }
    ensures steady { Steady (D.faults disk.old) (D.faults disk.new) result }
    ensures out { OutputLater O.Sink out.old out.new result }
{
    if let Some(refusal) = guards.look(&read.item.command) {
        return Ok(Some(refusal));
    }
    do_item(read, store, disk, current, out)
}

// Does a command that no guard refuses.
fn do_item<D: Disk, O: Sink>(
    read: &FileItem<'_, '_>,
    store: &mut Store,
    disk: &mut D,
    current: &mut Option<OpenPart>,
    out: &mut O,
) -> Result<Option<Refusal>, Received>
    requires idle { IsIdle (D.len disk.old) store.old }
    requires held { (p : Option (Receiving Blank)) × AreParts p current.old
        × AreHeld (blank store.old.core) p }
    requires spellable { IsSpellable read.now.item.now.version
        (meaning_of read.now.item.now.command) }
    requires version { is_version read.now.item.now.version ≡ true }
    requires same { HasVersionOf read.now.item.now.version current.old }
    ensures done { (p : Option (Receiving Blank)) → AreParts p current.old →
        AreHeld (blank store.old.core) p →
        ItemSays (run_of D.Disk (work disk.old store.old (O.taken out.old))
        (work disk.new store.new (O.taken out.new))) (step_to_do (blank store.old.core)
        (item_of read.now.file read.now.item.now) p) current.new result }
    ensures closed { is_end (meaning_of read.now.item.now.command) ≡ true →
        IfOkNone result (current.new ≡ None) }
    ensures version { OnOk result (HasVersionOf read.now.item.now.version current.new) }
    ensures limit { store.new.log.limit ≡ store.old.log.limit }
    ensures idle { IdleSays result (D.len disk.new) store.new }
    ensures stops { IfErr result IsItemStop }
    ensures cause { ErrCaused (fault_counts 0 (O.faults out.old) (D.faults disk.old))
        (fault_counts 0 (O.faults out.new) (D.faults disk.new)) result }
    ensures later { D.faults disk.old ≤ D.faults disk.new }
    ensures steady { Steady (D.faults disk.old) (D.faults disk.new) result }
    ensures out { OutputLater O.Sink out.old out.new result }
{
    if ends(&read.item.command) {
        return match close(store, disk, current, out) {
            Ok(()) => Ok(None),
            Err(why) => Err(why),
        };
    }
    match head_of(&read.item.command) {
        None => edit(read, store, current),
        Some(head) => enter(read, &head, store, disk, current, out),
    }
}

// Completes the part before a head, and begins the one of the head.
fn enter<D: Disk, O: Sink>(
    read: &FileItem<'_, '_>,
    head: &Head<'_>,
    store: &mut Store,
    disk: &mut D,
    current: &mut Option<OpenPart>,
    out: &mut O,
) -> Result<Option<Refusal>, Received>
    requires idle { IsIdle (D.len disk.old) store.old }
    requires held { (p : Option (Receiving Blank)) × AreParts p current.old
        × AreHeld (blank store.old.core) p }
    requires head { head_of (meaning_of read.now.item.now.command) ≡ Some (head_meant head.now) }
    requires spellable { IsSpellable read.now.item.now.version
        (meaning_of read.now.item.now.command) }
    requires version { is_version read.now.item.now.version ≡ true }
    ensures done { (p : Option (Receiving Blank)) → AreParts p current.old →
        AreHeld (blank store.old.core) p →
        ItemSays (run_of D.Disk (work disk.old store.old (O.taken out.old))
        (work disk.new store.new (O.taken out.new))) (step_to_do (blank store.old.core)
        (item_of read.now.file read.now.item.now) p) current.new result }
    ensures version { OnOk result (HasVersionOf read.now.item.now.version current.new) }
    ensures limit { store.new.log.limit ≡ store.old.log.limit }
    ensures idle { IdleSays result (D.len disk.new) store.new }
    ensures stops { IfErr result IsItemStop }
    ensures cause { ErrCaused (fault_counts 0 (O.faults out.old) (D.faults disk.old))
        (fault_counts 0 (O.faults out.new) (D.faults disk.new)) result }
    ensures later { D.faults disk.old ≤ D.faults disk.new }
    ensures steady { Steady (D.faults disk.old) (D.faults disk.new) result }
    ensures out { OutputLater O.Sink out.old out.new result }
{
    match close(store, disk, current, out) {
        Ok(()) => {}
        Err(why) => return Err(why),
    }
    begin(read, head, store, disk, current)
}
