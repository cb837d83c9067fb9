// Receiving files that take turns.
ghost use Rattle.std.specs.Prelude.{◌≡◌, ◌≤◌, ℕ, List, length, map};
ghost use Rattle.std.specs.String.{string_bytes};
ghost use Rattle.sx_base.specs.Calls.{IfAllTold, Wrote};
ghost use Rattle.sx_base.specs.Crash.{LeavesOnly};
ghost use Rattle.sx_base.specs.Later.{AskedOnly};
ghost use Rattle.send_model.specs.Guards as model_guards;
ghost use Rattle.send_model.specs.Store as model_store;
ghost use Rattle.store_model.specs.Image.{Header};
ghost use Rattle.store_model.specs.Stored.{Group};
ghost use Rattle.store_model.specs.Turns.{turns_of, turn_groups};
ghost use Rattle.store_model.specs.TurnDues.{in_turns, files_read, shared};
ghost use Rattle.auditor.specs.Following.{HaveSameShape};
ghost use Rattle.store_journal.specs.Shown.{IsIdle};
ghost use Rattle.store_journal.specs.Holding.{Holds};
ghost use Rattle.receiver.specs.Answers.{fault_counts, Caused};
ghost use Rattle.receiver.specs.Disks.{shown, HasFront};
ghost use Rattle.receiver.specs.ReceiveEnds.{LeavesMore, SteadyIfReceived};
ghost use Rattle.turn_sessions.specs.Asked.{AreReadInTurns};
ghost use Rattle.turn_sessions.specs.Doing.{IdleAt};
ghost use Rattle.turn_sessions.specs.Ends.{ArePlaces, places_of, end_of, to_take, AreDone};

use crate::task::Task;
use crate::turning::{new_sessions, take_turns};
use receiver::{Guarding, Received};
use store_journal::Store;
use sx_base::{Disk, Inputs, Outcome, Sink, Verdict};

/// Receives the streams in the files into the store, one session for each file, with its own
/// guards. The sessions take turns, in each of which one command of the session's file is read,
/// looked at by its guards, and done: first one turn for each digit of the schedule, of the session
/// of that number, and then each session goes on to its end. A head begins its part, whose group is
/// written and published once the part is complete; then `out` gets its line, `complete NAME UUID
/// CTRANSID`. A session that is refused is over, its part stays unfinished, and the others go on;
/// the answer is the verdict of the one that was refused first.
pub fn interleave<I: Inputs, O: Sink, D: Disk, G: Guarding + Drop>(
    task: &Task<'_>,
    store: &mut Store,
    disk: &mut D,
    inputs: &mut I,
    guards: Vec<G>,
    out: &mut O,
) -> Received
    requires idle { IsIdle (D.len disk.old) store.old }
    requires schedule { ArePlaces (length task.now.files.now) task.now.schedule.now }
    requires guards { length guards.items ≡ length task.now.files.now }
    ensures same { I.told inputs.new ≡ I.told inputs.old }
    ensures asked { AskedOnly I.Inputs inputs.old inputs.new
        (AreReadInTurns (map string_bytes task.now.files.now)) }
    ensures limit { store.new.log.limit ≡ store.old.log.limit }
    ensures idle { IdleAt result (D.len disk.new) store.new }
    ensures interleaved { (base : model_store.Store ℕ) → HaveSameShape store.old.core base →
        (all : List model_guards.Guard) (shares : List ℕ) →
        map G.kept guards.items ≡ shared all shares →
        IfAllTold (I.told inputs.old) (map string_bytes task.now.files.now)
        (λ files. Wrote (O.taken out.old) (O.taken out.new) (λ written.
        LeavesMore D.tells (shown D.Disk disk.old store.old) (shown D.Disk disk.new store.new)
        result (AreDone (to_take store.old.log.limit store.old.log.gate base
        (in_turns (places_of task.now.schedule.now) files all shares)) result store.new.core
        written)
        × AreDone (to_take store.old.log.limit store.old.log.gate base
        (in_turns (places_of task.now.schedule.now) files all shares)) result store.new.core written
        (λ groups. Unit {0}))) }
    ensures any_moment { D.tells → (header : Header) (groups : List Group) →
        Holds header groups store.old (D.seen disk.old) (D.pending disk.old) →
        (base : model_store.Store ℕ) → HaveSameShape store.old.core base →
        (all : List model_guards.Guard) (shares : List ℕ) →
        map G.kept guards.items ≡ shared all shares →
        IfAllTold (I.told inputs.old) (map string_bytes task.now.files.now)
        (λ files. LeavesOnly D.moment D.left_since disk.old disk.new (HasFront header groups
        (turn_groups (turns_of base (places_of task.now.schedule.now) (files_read 1 files)
        all shares).events))) }
    ensures cause { Caused
        (fault_counts (I.faults inputs.old) (O.faults out.old) (D.faults disk.old))
        (fault_counts (I.faults inputs.new) (O.faults out.new) (D.faults disk.new)) result }
    ensures later { D.faults disk.old ≤ D.faults disk.new }
    ensures steady { SteadyIfReceived (I.faults inputs.old) (I.faults inputs.new) result }
    ensures ends_steady { SteadyIfReceived (I.ends inputs.old) (I.ends inputs.new) result }
    ensures out_steady { SteadyIfReceived (O.faults out.old) (O.faults out.new) result }
    ensures disk_steady { SteadyIfReceived (D.faults disk.old) (D.faults disk.new) result }
{
    let _count = store.core().catalog().len();
    let Ok(mut sessions) = new_sessions(task.alloc, task.files, guards) else {
        return Received::Files(Outcome::NoMemory);
    };
    let all = sessions.as_mut_slice();
    match take_turns(task, store, disk, inputs, all, out) {
        Ok(refused) => ended_as(refused),
        Err(why) => why,
    }
}

// How all turns end, by the verdict of the session that was refused first.
fn ended_as(refused: Option<Verdict>) -> Received
    ensures { result ≡ end_of refused }
{
    match refused {
        Some(verdict) => Received::Files(Outcome::Refused(verdict)),
        None => Received::Files(Outcome::Done),
    }
}
