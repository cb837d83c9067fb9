// Receiving files into a store.
ghost use Rattle.std.specs.Prelude.{◌≡◌, ◌≤◌, ℕ, List, [], map};
ghost use Rattle.std.specs.List.{AllByRecursion};
ghost use Rattle.std.specs.String.{string_bytes};
ghost use Rattle.send_model.specs.Attribute.{IsBytes};
ghost use Rattle.send_model.specs.Guards.{GuardSpec};
ghost use Rattle.send_model.specs.Words.{new_guards};
ghost use Rattle.store_model.specs.Requests.{ReceiveFiles, at_entry};
ghost use Rattle.store_model.specs.Answers.{Answers};
ghost use Rattle.sx_base.specs.Asks.{AreReadOnce};
ghost use Rattle.sx_base.specs.Calls.{IfAllTold, Wrote};
ghost use Rattle.sx_base.specs.Causes.{Rose};
ghost use Rattle.sx_base.specs.Crash.{LeavesOnly};
ghost use Rattle.sx_base.specs.Disk.{IsImage};
ghost use Rattle.sx_base.specs.Later.{AskedOnly};
ghost use Rattle.store_commands.specs.Ending.{answer_of, receive_ways, EndCaused};
ghost use Rattle.store_commands.specs.Receiving.{LeftByReceive};

use crate::ends::{StoreEnd, ended_by, ended_received};
use part_names::NamedFiles;
use receiver::{Guarding, receive};
use store_journal::Store;
use store_model::receiving_passes_states;
use sx_base::{Disk, Inputs, Sink};

/// Receives the streams in the files, with what is said in front of them, into a store, under
/// guards. The files are read once, in order, so a pipe serves; `out` gets a line for each part
/// that is complete and stable. A part that is open where it ends early stays unfinished.
pub fn receive_store<D: Disk, I: Inputs, O: Sink, G: Guarding>(
    given: &NamedFiles<'_>,
    disk: &mut D,
    inputs: &mut I,
    guards: &mut G,
    out: &mut O,
) -> StoreEnd
    ensures same { I.told inputs.new ≡ I.told inputs.old }
    ensures asked { AskedOnly I.Inputs inputs.old inputs.new
        (AreReadOnce (map string_bytes given.now.files.now)) }
    ensures answered { D.tells
        → IfAllTold (I.told inputs.old) (map string_bytes given.now.files.now)
        (λ files. Wrote (O.taken out.old) (O.taken out.new)
        (λ written. (words : List (List ℕ)) (specs : List GuardSpec) (store at : ℕ)
        → AllByRecursion IsBytes files → G.kept guards.old ≡ new_guards specs
        → Answers (ReceiveFiles specs store at) (at_entry words (D.seen disk.old)
        (record { bytes = files; overrides = given.now.overrides.now }))
        (answer_of [] [] result) written (D.seen disk.new))) }

    // At the end each image that a crash may leave has each part complete whose line stands whole
    // in what was written.
    ensures acknowledged { D.tells
        → IfAllTold (I.told inputs.old) (map string_bytes given.now.files.now)
        (λ files. Wrote (O.taken out.old) (O.taken out.new)
        (λ written. (specs : List GuardSpec)
        → AllByRecursion IsBytes files → G.kept guards.old ≡ new_guards specs
        → (image : List ℕ) → IsImage (D.pending disk.new) image
        → LeftByReceive (D.pending disk.old) (D.seen disk.old) (new_guards specs)
        (record { bytes = files; overrides = given.now.overrides.now }) written image)) }

    // At each moment one that a crash may leave stands for a store on the way.
    ensures any_moment { D.tells
        → IfAllTold (I.told inputs.old) (map string_bytes given.now.files.now)
        (λ files. (specs : List GuardSpec)
        → AllByRecursion IsBytes files → G.kept guards.old ≡ new_guards specs
        → LeavesOnly D.moment D.left_since disk.old disk.new (LeftByReceive (D.pending disk.old)
        (D.seen disk.old) (new_guards specs)
        (record { bytes = files; overrides = given.now.overrides.now }) [])) }
    ensures cause { EndCaused receive_ways ((D.faults disk.new ≡ D.faults disk.old)
        × (I.faults inputs.new ≡ I.faults inputs.old) × (I.ends inputs.new ≡ I.ends inputs.old)
        × (O.faults out.new ≡ O.faults out.old)) (Rose (D.faults disk.old) (D.faults disk.new))
        (Rose (I.faults inputs.old) (I.faults inputs.new))
        (Rose (O.faults out.old) (O.faults out.new)) result }
    ensures later { D.faults disk.old ≤ D.faults disk.new }
{
    receiving_passes_states::<u8>();
    given.overrides.are_given();
    let mut store = match Store::open(disk, given.alloc) {
        Ok(store) => store,
        Err(stop) => return ended_by(stop),
    };
    ended_received(receive(given, &mut store, disk, inputs, guards, out))
}
