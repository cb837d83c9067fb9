// Receiving files into a store.
ghost use Rattle.std.specs.Prelude.{◌≡◌, ◌≤◌, ℕ, List, None, map};
ghost use Rattle.std.specs.String.{string_bytes};
ghost use Rattle.sx_base.specs.Asks.{AreReadOnce};
ghost use Rattle.sx_base.specs.Calls.{IfAllTold, Wrote};
ghost use Rattle.sx_base.specs.Crash.{LeavesOnly};
ghost use Rattle.sx_base.specs.Later.{AskedOnly};
ghost use Rattle.send_model.specs.Due.{limited_from};
ghost use Rattle.send_model.specs.Overridden.{overridden_limited};
ghost use Rattle.send_model.specs.Store as meant;
ghost use Rattle.store_model.specs.Image.{Header};
ghost use Rattle.store_model.specs.Stored.{Group};
ghost use Rattle.store_model.specs.Written.{groups_of};
ghost use Rattle.auditor.specs.Following.{HaveSameShape};
ghost use Rattle.store_journal.specs.Shown.{IsIdle};
ghost use Rattle.store_journal.specs.Holding.{Holds};
ghost use Rattle.receiver.specs.Answers.{fault_counts, Caused};
ghost use Rattle.receiver.specs.Disks.{shown, HasFront};
ghost use Rattle.receiver.specs.ReceiveEnds.{to_receive, ReceiveEnds, AreLeft, LeavesMore, SteadyIfReceived, IdleAfter};

use crate::files::receive_files;
use crate::guarding::Guarding;
use crate::outcome::Received;
use part_names::NamedFiles;
use store_journal::Store;
use sx_base::{Disk, Inputs, Outcome, Sink};

/// Receives the streams in the files into the store, under guards. The files are read once, in
/// order and one command at a time, so a pipe serves: each command is read, looked at by the
/// guards, done, and put into the journal; and each head of a file for which a name is given has
/// that name in place of its own before anything looks at it. A head and END complete the part that
/// is open: its group is published, and then `out` gets its line, `complete NAME UUID CTRANSID`. A
/// part that is open where receiving ends early stays unfinished. The answer is the one that is
/// due, and the lines are those of the parts that are complete; else an object of the outside
/// failed, or there was no memory, and some of the lines were written. Where the disk tells, a
/// crash at any moment leaves the groups that there were and the first of those that are due; and
/// whatever ends it, it then has the groups of each part of whose line something was written.
pub fn receive<I: Inputs, O: Sink, D: Disk, G: Guarding>(
    given: &NamedFiles<'_>,
    store: &mut Store,
    disk: &mut D,
    inputs: &mut I,
    guards: &mut G,
    out: &mut O,
) -> Received
    requires idle { IsIdle (D.len disk.old) store.old }
    ensures same { I.told inputs.new ≡ I.told inputs.old }
    ensures asked { AskedOnly I.Inputs inputs.old inputs.new
        (AreReadOnce (map string_bytes given.now.files.now)) }
    ensures limit { store.new.log.limit ≡ store.old.log.limit }
    ensures idle { IdleAfter result (D.len disk.new) store.new }
    ensures received { (base : meant.Store ℕ) → HaveSameShape store.old.core base →
        IfAllTold (I.told inputs.old) (map string_bytes given.now.files.now)
        (λ files. Wrote (O.taken out.old) (O.taken out.new) (λ written.
        ReceiveEnds (to_receive store.old.log.limit store.old.log.gate base (G.kept guards.old)
        (record { bytes = files; overrides = given.now.overrides.now })) result store.new.core written
        × LeavesMore D.tells (shown D.Disk disk.old store.old) (shown D.Disk disk.new store.new)
        result (AreLeft (to_receive store.old.log.limit store.old.log.gate base
        (G.kept guards.old) (record { bytes = files; overrides = given.now.overrides.now }))
        result written))) }
    ensures any_moment { D.tells → (header : Header) (groups : List Group) →
        Holds header groups store.old (D.seen disk.old) (D.pending disk.old) →
        (base : meant.Store ℕ) → HaveSameShape store.old.core base →
        IfAllTold (I.told inputs.old) (map string_bytes given.now.files.now)
        (λ files. LeavesOnly D.moment D.left_since disk.old disk.new (HasFront header groups
        (groups_of base (G.kept guards.old)
        (overridden_limited given.now.overrides.now (limited_from 1 files)).items))) }
    ensures cause { Caused
        (fault_counts (I.faults inputs.old) (O.faults out.old) (D.faults disk.old))
        (fault_counts (I.faults inputs.new) (O.faults out.new) (D.faults disk.new)) result }
    ensures later { D.faults disk.old ≤ D.faults disk.new }
    ensures steady { SteadyIfReceived (I.faults inputs.old) (I.faults inputs.new) result }
    ensures ends_steady { SteadyIfReceived (I.ends inputs.old) (I.ends inputs.new) result }
    ensures out_steady { SteadyIfReceived (O.faults out.old) (O.faults out.new) result }
    ensures disk_steady { SteadyIfReceived (D.faults disk.old) (D.faults disk.new) result }
{
    match receive_files(given, store, disk, inputs, guards, out) {
        Ok(()) => Received::Files(Outcome::Done),
        Err(ended) => ended,
    }
}
