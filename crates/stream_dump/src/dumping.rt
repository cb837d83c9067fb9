// Dumping a file.
ghost use Rattle.std.specs.Prelude.{◌≡◌, ◌≤◌, [], ◌∷◌};
ghost use Rattle.send_model.specs.Words.{Dump};
ghost use Rattle.sx_base.specs.Asks.{IsReadOnce};
ghost use Rattle.sx_base.specs.Calls.{Caused, IfAllTold, Wrote, Ends, SteadyIfDone};
ghost use Rattle.sx_base.specs.Later.{AskedOnly};

use crate::file_writing::write_file;
use crate::lines::DumpLines;
use std::alloc::Global;
use sx_base::{Inputs, Outcome, Sink};

/// Writes a line for each command of the file that can be read, and before the first of each stream
/// one for the stream. The file is read once, in order. `Done` says that it is whole, and `Refused`
/// gives its first fault; with both `out` got all these lines, and with every other outcome a front
/// part of them. `InputTooLong` comes exactly where the file is too long.
#[tactic(auto, using(crate::proofs::Dumps::dumped))]
pub fn dump<I: Inputs, O: Sink>(alloc: Global, inputs: &mut I, file: &str, out: &mut O) -> Outcome
    ensures same { I.told inputs.new ≡ I.told inputs.old }
    ensures later { I.faults inputs.old ≤ I.faults inputs.new }
    ensures out_later { O.faults out.old ≤ O.faults out.new }
    ensures steady { SteadyIfDone (I.faults inputs.old) (I.faults inputs.new) result }
    ensures ends_steady { SteadyIfDone (I.ends inputs.old) (I.ends inputs.new) result }
    ensures asked { AskedOnly I.Inputs inputs.old inputs.new (IsReadOnce file.now) }
    ensures out_steady { SteadyIfDone (O.faults out.old) (O.faults out.new) result }
    ensures cause { Caused (I.faults inputs.old) (I.faults inputs.new)
        (O.faults out.old) (O.faults out.new) result }
    ensures dumped { IfAllTold (I.told inputs.old) (file.now ∷ [])
        (λ files. Wrote (O.taken out.old) (O.taken out.new)
        (λ written. Ends (Dump 1) [] files result written)) }
{
    write_file(alloc, &mut DumpLines, inputs, file, out)
}
