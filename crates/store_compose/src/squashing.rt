// Squashing a stream over a store.
ghost use Rattle.std.specs.Prelude.{◌≡◌, ◌≤◌, ℕ, List, [], ◌∷◌};
ghost use Rattle.send_model.specs.Store as meant;
ghost use Rattle.send_model.specs.Reading.{input};
ghost use Rattle.send_model.specs.Overridden.{IsLawfulOverride, overridden};
ghost use Rattle.store_model.specs.Stored.{StandsFor};
ghost use Rattle.squash_model.specs.SquashedStreams.{IsSquashedOf};
ghost use Rattle.squash_model.specs.SquashDues.{own_base};
ghost use Rattle.program_model.specs.Answers.{flat, Says};
ghost use Rattle.sx_base.specs.Asks.{AreReadTwice};
ghost use Rattle.sx_base.specs.Calls.{IfAllTold, Wrote};
ghost use Rattle.sx_base.specs.Causes.{Rose};
ghost use Rattle.sx_base.specs.Crash.{LeavesOnly};
ghost use Rattle.sx_base.specs.Disk.{IsImage};
ghost use Rattle.sx_base.specs.Later.{AskedOnly};
ghost use Rattle.sx_base.specs.declared.outcome.Outcome.TheVariants.{Done};
ghost use Rattle.store_commands.specs.Ending.{answer_of, audit_ways, EndCaused};
ghost use Rattle.store_commands.specs.declared.ends.StoreEnd.TheVariants.{Ends};
ghost use Rattle.store_compose.specs.Squashing.{squashed_in};

use crate::ending::ended_by;
use group_replay::Place;
use part_names::NamedFile;
use squasher::squash;
use store_commands::StoreEnd;
use store_journal::Store;
use sx_base::{Disk, Inputs, Sink};

/// Squashes the one stream in the first file over the subvolumes of the store that a disk holds,
/// without the one that the stream makes, and writes it to `out`. The file is read twice, and
/// nothing is written before all of it is judged. The disk is only read: what it gives stays as it
/// is.
pub fn squash_store<D: Disk, I: Inputs, O: Sink>(
    file: &NamedFile<'_>,
    disk: &mut D,
    inputs: &mut I,
    out: &mut O,
) -> StoreEnd
    requires first { file.now.number ≡ 1 }
    requires lawful { IsLawfulOverride file.now.said.now }
    ensures same { I.told inputs.new ≡ I.told inputs.old }
    ensures asked { AskedOnly I.Inputs inputs.old inputs.new
        (AreReadTwice (I.told inputs.old) (file.now.name.now ∷ [])) }
    ensures answered { D.tells → IfAllTold (I.told inputs.old) (file.now.name.now ∷ [])
        (λ bytes. Wrote (O.taken out.old) (O.taken out.new)
        (λ written. Says
        (squashed_in (D.seen disk.old) file.now.name.now file.now.said.now bytes)
        (flat (answer_of [] [] result)) written (D.seen disk.new))) }
    ensures squashed { D.tells → IfAllTold (I.told inputs.old) (file.now.name.now ∷ [])
        (λ bytes. Wrote (O.taken out.old) (O.taken out.new)
        (λ written. result ≡ Ends Done → (store : meant.Store ℕ) → StandsFor (D.seen disk.old) store
        → IsSquashedOf
        (own_base store (overridden (file.now.said.now ∷ []) (input bytes)).items)
        (overridden (file.now.said.now ∷ []) (input bytes)) written)) }
    ensures cause { EndCaused audit_ways
        ((D.faults disk.new ≡ D.faults disk.old) × (I.faults inputs.new ≡ I.faults inputs.old)
        × (I.ends inputs.new ≡ I.ends inputs.old) × (O.faults out.new ≡ O.faults out.old))
        (Rose (D.faults disk.old) (D.faults disk.new))
        (Rose (I.faults inputs.old) (I.faults inputs.new))
        (Rose (O.faults out.old) (O.faults out.new)) result }
    ensures len { D.len disk.new ≡ D.len disk.old }
    ensures seen { D.tells → D.seen disk.new ≡ D.seen disk.old }
    ensures any_moment { D.tells →
        LeavesOnly D.moment D.left_since disk.old disk.new (IsImage (D.pending disk.old)) }
    ensures later { D.faults disk.old ≤ D.faults disk.new }
{
    let store = match Store::open(disk, file.alloc) {
        Ok(store) => store,
        Err(stop) => return ended_by(stop),
    };
    let core = store.into_core();
    let blank = Place { at: 0 };
    StoreEnd::Ends(squash(file, core, blank, inputs, out))
}
