// Exporting files.
ghost use Rattle.std.specs.Prelude.{◌≡◌, ◌≤◌, ◌^◌, ℕ, map};
ghost use Rattle.std.specs.String.{string_bytes};
ghost use Rattle.send_model.specs.Store as meant;
ghost use Rattle.send_model.specs.Reading.{input};
ghost use Rattle.send_model.specs.Receive.{start_of};
ghost use Rattle.send_model.specs.Exported.{AreSmallBy, byte_step};
ghost use Rattle.send_model.specs.Overridden.{overridden};
ghost use Rattle.send_model.specs.Words.{Export};
ghost use Rattle.sx_base.specs.declared.outcome.Outcome.TheVariants as ended;
ghost use Rattle.sx_base.specs.Asks.{AreReadOnce};
ghost use Rattle.sx_base.specs.Calls.{Caused, IfAllTold, Wrote, SteadyIfDone};
ghost use Rattle.sx_base.specs.Later.{AskedOnly};
ghost use Rattle.part_names.specs.Overriding.{EndsOf, sources_with};
ghost use Rattle.auditor.specs.Following.{HaveSameShape};

use crate::exporter::Exporter;
use crate::files::export_files;
use clone_resolve::EditCore;
use extent_map::Origin;
use part_names::NamedFiles;
use stream_dump::{Gathered, finish};
use sx_base::{Inputs, Outcome, Sink};

/// Steps the streams in the files over the subvolumes of `core`, receives nothing, and writes each
/// command that is taken in the receivable spelling, each stream with its own version, and
/// separators between them. Each head of a file for which a name is given has it before anything
/// looks at the head. The files are read once, in order and one command at a time, so a pipe
/// serves. `Refused` gives the first command that would be refused, or the first fault; then, and
/// with `Done`, `out` got all commands before, and with every other outcome a front part of them.
/// `blank` is the origin of every WRITE; nobody looks at it.
pub fn export<R: Origin, I: Inputs, O: Sink>(
    given: &NamedFiles<'_>,
    core: EditCore<R>,
    blank: R,
    inputs: &mut I,
    out: &mut O,
) -> Outcome
    requires reach { 2 ^ 18 ≤ R.reach blank }
    ensures same { I.told inputs.new ≡ I.told inputs.old }
    ensures steady { SteadyIfDone (I.faults inputs.old) (I.faults inputs.new) result }
    ensures ends_steady { SteadyIfDone (I.ends inputs.old) (I.ends inputs.new) result }
    ensures asked { AskedOnly I.Inputs inputs.old inputs.new
        (AreReadOnce (map string_bytes given.now.files.now)) }
    ensures out_steady { SteadyIfDone (O.faults out.old) (O.faults out.new) result }
    ensures later { I.faults inputs.old ≤ I.faults inputs.new }
    ensures out_later { O.faults out.old ≤ O.faults out.new }
    ensures cause { Caused (I.faults inputs.old) (I.faults inputs.new)
        (O.faults out.old) (O.faults out.new) result }
    ensures exported { (store : meant.Store ℕ) → HaveSameShape core store
        → IfAllTold (I.told inputs.old) (map string_bytes given.now.files.now)
        (λ files. Wrote (O.taken out.old) (O.taken out.new)
        (λ written. EndsOf (Export 0 0) store (sources_with given.now.overrides.now files)
        result written)) }
    ensures small { (store : meant.Store ℕ) → HaveSameShape core store
        → IfAllTold (I.told inputs.old) (map string_bytes given.now.files.now)
        (λ files. result ≡ ended.Done
        → AreSmallBy byte_step (start_of store)
        (overridden given.now.overrides.now (input files)).items) }
{
    let mut exporter = Exporter::new(given.alloc, core, blank);
    let mut gathered = Gathered::new(given.alloc);
    match export_files(given, &mut exporter, &mut gathered, inputs, out) {
        Ok(()) => finish(&mut gathered, out, Outcome::Done),
        Err(outcome) => finish(&mut gathered, out, outcome),
    }
}
