// Auditing files over a store.
ghost use Rattle.std.specs.Prelude.{◌≡◌, ◌≤◌, ℕ, List, [], Some, map, true};
ghost use Rattle.std.specs.String.{string_bytes};
ghost use Rattle.send_model.specs.Guards.{GuardSpec};
ghost use Rattle.send_model.specs.Words.{Audit, new_guards};
ghost use Rattle.store_model.specs.Requests.{OfStreams, reads_store, at_entry};
ghost use Rattle.store_model.specs.Answers.{Answers};
ghost use Rattle.sx_base.specs.Asks.{AreReadOnce};
ghost use Rattle.sx_base.specs.Calls.{IfAllTold, Wrote};
ghost use Rattle.sx_base.specs.Causes.{Rose};
ghost use Rattle.sx_base.specs.Crash.{LeavesOnly};
ghost use Rattle.sx_base.specs.Disk.{IsImage};
ghost use Rattle.sx_base.specs.Later.{AskedOnly};
ghost use Rattle.store_commands.specs.Ending.{answer_of, audit_ways, EndCaused};

use crate::ends::{StoreEnd, ended_by};
use auditor::audit;
use group_replay::Place;
use guard_rules::Guard;
use part_names::NamedFiles;
use store_journal::Store;
use sx_base::{Disk, Inputs, Sink};

/// Checks the streams in the files, with what is said in front of them, as if they were received
/// into a store, under guards; nothing is received. Where all is accepted, `out` gets the line that
/// says how many subvolumes and commands there are. What the disk gives stays as it is.
pub fn audit_store<D: Disk, I: Inputs, O: Sink>(
    given: &NamedFiles<'_>,
    disk: &mut D,
    inputs: &mut I,
    guards: &mut [Box<dyn Guard>],
    out: &mut O,
) -> StoreEnd
    ensures same { I.told inputs.new ≡ I.told inputs.old }
    ensures asked { AskedOnly I.Inputs inputs.old inputs.new
        (AreReadOnce (map string_bytes given.now.files.now)) }
    ensures answered { D.tells
        → IfAllTold (I.told inputs.old) (map string_bytes given.now.files.now)
        (λ files. Wrote (O.taken out.old) (O.taken out.new)
        (λ written. (words : List (List ℕ)) (specs : List GuardSpec) (store at : ℕ)
        → reads_store words (Some store) ≡ true
        → map (λ g. kept g) guards.old ≡ new_guards specs
        → Answers (OfStreams (Audit specs store at)) (at_entry words (D.seen disk.old)
        (record { bytes = files; overrides = given.now.overrides.now }))
        (answer_of [] [] result) written (D.seen disk.new))) }
    ensures cause { EndCaused audit_ways
        ((D.faults disk.new ≡ D.faults disk.old) × (I.faults inputs.new ≡ I.faults inputs.old)
        × (I.ends inputs.new ≡ I.ends inputs.old) × (O.faults out.new ≡ O.faults out.old))
        (Rose (D.faults disk.old) (D.faults disk.new))
        (Rose (I.faults inputs.old) (I.faults inputs.new))
        (Rose (O.faults out.old) (O.faults out.new)) result }
    ensures len { D.len disk.new ≡ D.len disk.old }
    ensures seen { D.tells → D.seen disk.new ≡ D.seen disk.old }
    ensures any_moment { D.tells →
        LeavesOnly D.moment D.left_since disk.old disk.new (IsImage (D.pending disk.old)) }
    ensures later { D.faults disk.old ≤ D.faults disk.new }
{
    let store = match Store::open(disk, given.alloc) {
        Ok(store) => store,
        Err(stop) => return ended_by(stop),
    };
    let core = store.into_core();
    let blank = Place { at: 0 };
    StoreEnd::Ends(audit(given, core, blank, inputs, guards, out))
}
