// Squashing a file.
ghost use Rattle.std.specs.Prelude.{◌≡◌, ◌≤◌, ◌^◌, ℕ, [], ◌∷◌};
ghost use Rattle.send_model.specs.Overridden.{IsLawfulOverride};
ghost use Rattle.send_model.specs.Store.{Store};
ghost use Rattle.send_model.specs.Outside.{keys_outside, FindsLawful};
ghost use Rattle.sx_base.specs.Asks.{AreReadTwice};
ghost use Rattle.sx_base.specs.Calls.{Caused, Wrote, SteadyIfDone};
ghost use Rattle.sx_base.specs.Later.{AskedOnly};
ghost use Rattle.cmd_reader.specs.Places.{IfTold};
ghost use Rattle.squash_model.specs.SquashDues.{own_base};
ghost use Rattle.squasher.specs.Judging.{HaveSameShape, read_with};
ghost use Rattle.squasher.specs.Squashing.{SquashEnds};

use crate::judging::judge;
use crate::writing::write_squashed;
use clone_resolve::EditCore;
use extent_map::Origin;
use part_names::NamedFile;
use sx_base::{Inputs, Outcome, Sink};

/// Squashes the one part in a file over the subvolumes of `core`, and writes the stream to `out`:
/// each byte of a WRITE that the subvolume does not have when the part is complete is left out. The
/// file is read twice, in order and one command at a time: first to be judged, and nothing is
/// written before all of it is; then to write. A head has the name that is given for its file, if
/// one is, in place of its own. `blank` is the origin of every WRITE; nobody looks at it.
///
/// `Done` says that `out` took the squashed stream, and `Refused` gives the verdict on the file;
/// then `out` took nothing. With every other outcome what `out` took is no whole stream. A file that
/// is found changed when it is read again is refused too, and `out` may have taken some bytes.
pub fn squash<R: Origin, I: Inputs, O: Sink>(
    file: &NamedFile<'_>,
    core: EditCore<R>,
    blank: R,
    inputs: &mut I,
    out: &mut O,
) -> Outcome
    requires lawful { IsLawfulOverride file.now.said.now }
    requires reach { 2 ^ 18 ≤ R.reach blank }
    ensures same { I.told inputs.new ≡ I.told inputs.old }
    ensures asked { AskedOnly I.Inputs inputs.old inputs.new
        (AreReadTwice (I.told inputs.old) (file.now.name.now ∷ [])) }
    ensures steady { SteadyIfDone (I.faults inputs.old) (I.faults inputs.new) result }
    ensures ends_steady { SteadyIfDone (I.ends inputs.old) (I.ends inputs.new) result }
    ensures out_steady { SteadyIfDone (O.faults out.old) (O.faults out.new) result }
    ensures cause { Caused (I.faults inputs.old) (I.faults inputs.new)
        (O.faults out.old) (O.faults out.new) result }
    ensures squashed { (store : Store ℕ) → HaveSameShape core store
        → IfTold (I.told inputs.old) file.now.name.now
        (λ bytes. FindsLawful
        (own_base store (read_with file.now.said.now file.now.number bytes).items)
        (keys_outside (read_with file.now.said.now file.now.number bytes).items)
        → Wrote (O.taken out.old) (O.taken out.new)
        (SquashEnds (own_base store (read_with file.now.said.now file.now.number bytes).items)
        (read_with file.now.said.now file.now.number bytes) result)) }
{
    let judged = match judge(file, core, blank, inputs) {
        Ok(judged) => judged,
        Err(outcome) => return outcome,
    };
    match write_squashed(file, judged, inputs, out) {
        Ok(()) => Outcome::Done,
        Err(outcome) => outcome,
    }
}
