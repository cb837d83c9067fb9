// Exporting files over a store.
ghost use Rattle.std.specs.Prelude.{◌≡◌, ◌≢◌, ◌≤◌, ℕ, List, [], Some, map, true};
ghost use Rattle.std.specs.List.{AllByRecursion};
ghost use Rattle.std.specs.String.{string_bytes};
ghost use Rattle.send_model.specs.Attribute.{IsBytes};
ghost use Rattle.send_model.specs.Reading.{input};
ghost use Rattle.send_model.specs.Overridden.{overridden};
ghost use Rattle.send_model.specs.Store as meant;
ghost use Rattle.send_model.specs.Words.{Export};
ghost use Rattle.store_model.specs.Stored.{StandsFor};
ghost use Rattle.store_model.specs.Requests.{OfStreams, reads_store, at_entry};
ghost use Rattle.store_model.specs.Answers.{Answers};
ghost use Rattle.send_model.specs.ExportPromises.{IsExportedOf};
ghost use Rattle.sx_base.specs.Asks.{AreReadOnce};
ghost use Rattle.sx_base.specs.Calls.{IfAllTold, Wrote};
ghost use Rattle.sx_base.specs.Causes.{Rose};
ghost use Rattle.sx_base.specs.Crash.{LeavesOnly};
ghost use Rattle.sx_base.specs.Disk.{IsImage};
ghost use Rattle.sx_base.specs.Later.{AskedOnly};
ghost use Rattle.sx_base.specs.declared.outcome.Outcome.TheVariants.{Done};
ghost use Rattle.store_commands.specs.Ending.{answer_of, audit_ways, EndCaused};
ghost use Rattle.store_commands.specs.declared.ends.StoreEnd.TheVariants.{Ends};

use crate::ends::{StoreEnd, ended_by};
use group_replay::Place;
use part_names::NamedFiles;
use store_journal::Store;
use stream_export::export;
use sx_base::{Disk, Inputs, Sink};

/// Writes the streams in the files, with what is said in front of them, for the real receiver, over
/// the subvolumes of a store; nothing is received. Where all is accepted, every receiver that takes
/// the files with what is said takes what was written. It ends as an audit over the store does.
/// What the disk gives stays as it is.
pub fn export_store<D: Disk, I: Inputs, O: Sink>(
    given: &NamedFiles<'_>,
    disk: &mut D,
    inputs: &mut I,
    out: &mut O,
) -> StoreEnd
    requires some { given.now.files.now ≢ [] }
    ensures same { I.told inputs.new ≡ I.told inputs.old }
    ensures asked { AskedOnly I.Inputs inputs.old inputs.new
        (AreReadOnce (map string_bytes given.now.files.now)) }
    ensures answered { D.tells
        → IfAllTold (I.told inputs.old) (map string_bytes given.now.files.now)
        (λ files. Wrote (O.taken out.old) (O.taken out.new)
        (λ written. (words : List (List ℕ)) (store at : ℕ)
        → reads_store words (Some store) ≡ true
        → Answers (OfStreams (Export store at)) (at_entry words (D.seen disk.old)
        (record { bytes = files; overrides = given.now.overrides.now }))
        (answer_of [] [] result) written (D.seen disk.new))) }
    ensures exported { D.tells
        → IfAllTold (I.told inputs.old) (map string_bytes given.now.files.now)
        (λ files. Wrote (O.taken out.old) (O.taken out.new)
        (λ written. result ≡ Ends Done → (store : meant.Store ℕ)
        → StandsFor (D.seen disk.old) store → AllByRecursion IsBytes files
        → IsExportedOf store (overridden given.now.overrides.now (input files)) written)) }
    ensures cause { EndCaused audit_ways
        ((D.faults disk.new ≡ D.faults disk.old) × (I.faults inputs.new ≡ I.faults inputs.old)
        × (I.ends inputs.new ≡ I.ends inputs.old) × (O.faults out.new ≡ O.faults out.old))
        (Rose (D.faults disk.old) (D.faults disk.new))
        (Rose (I.faults inputs.old) (I.faults inputs.new))
        (Rose (O.faults out.old) (O.faults out.new)) result }
    ensures len { D.len disk.new ≡ D.len disk.old }
    ensures seen { D.tells → D.seen disk.new ≡ D.seen disk.old }
    ensures any_moment { D.tells →
        LeavesOnly D.moment D.left_since disk.old disk.new (IsImage (D.pending disk.old)) }
    ensures later { D.faults disk.old ≤ D.faults disk.new }
{
    given.overrides.are_given();
    let store = match Store::open(disk, given.alloc) {
        Ok(store) => store,
        Err(stop) => return ended_by(stop),
    };
    let core = store.into_core();
    let blank = Place { at: 0 };
    StoreEnd::Ends(export(given, core, blank, inputs, out))
}
