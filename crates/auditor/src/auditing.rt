// Auditing files.
ghost use Rattle.std.specs.Prelude.{◌≡◌, ◌≤◌, ◌^◌, ℕ, map, IfOk};
ghost use Rattle.std.specs.String.{string_bytes};
ghost use Rattle.send_model.specs.Store as meant;
ghost use Rattle.sx_base.specs.Asks.{AreReadOnce};
ghost use Rattle.sx_base.specs.Calls.{Caused, IfAllTold, Wrote, SteadyIfDone};
ghost use Rattle.sx_base.specs.Later.{AskedOnly};
ghost use Rattle.auditor.specs.Following.{HaveSameShape};
ghost use Rattle.auditor.specs.Answers.{AuditEnds, WritesLine, accepted_text};

use crate::counts::Totals;
use crate::files::follow_files;
use crate::following::Follower;
use clone_resolve::EditCore;
use extent_map::Origin;
use guard_rules::Guard;
use part_names::NamedFiles;
use std::alloc::{AllocError, Global};
use sx_base::{Inputs, Outcome, Sink, write_whole};

/// Follows the streams in the files over the subvolumes of `core`, under guards, and receives
/// nothing: `Refused` gives the first command that would be refused. Each head of a file for which
/// a name is given has it before anything looks at the head. The files are read once, in order and
/// one command at a time, so a pipe serves. Where all is accepted, `out` gets one line, `accepted
/// PARTS COMMANDS`, counted over all files with END among the commands; and else nothing. `blank`
/// is the origin of every WRITE; nobody looks at it. `InputTooLong` comes where a file is too long
/// and no command before its end is refused.
pub fn audit<R: Origin, I: Inputs, O: Sink>(
    given: &NamedFiles<'_>,
    core: EditCore<R>,
    blank: R,
    inputs: &mut I,
    guards: &mut [Box<dyn Guard>],
    out: &mut O,
) -> Outcome
    requires reach { 2 ^ 18 ≤ R.reach blank }
    ensures same { I.told inputs.new ≡ I.told inputs.old }
    ensures steady { SteadyIfDone (I.faults inputs.old) (I.faults inputs.new) result }
    ensures ends_steady { SteadyIfDone (I.ends inputs.old) (I.ends inputs.new) result }
    ensures asked { AskedOnly I.Inputs inputs.old inputs.new
        (AreReadOnce (map string_bytes given.now.files.now)) }
    ensures out_steady { SteadyIfDone (O.faults out.old) (O.faults out.new) result }
    ensures cause { Caused (I.faults inputs.old) (I.faults inputs.new)
        (O.faults out.old) (O.faults out.new) result }
    ensures audited { (store : meant.Store ℕ) → HaveSameShape core store
        → IfAllTold (I.told inputs.old) (map string_bytes given.now.files.now)
        (λ files. Wrote (O.taken out.old) (O.taken out.new)
        (AuditEnds store (map (λ g. kept g) guards.old) given.now.overrides.now files result)) }
{
    let mut follower = Follower::new(core, blank);
    match follow_files(given, &mut follower, guards, inputs) {
        Ok(totals) => write_accepted(given.alloc, totals, out),
        Err(outcome) => outcome,
    }
}

// Writes the line of an audit that accepts all.
fn write_accepted<O: Sink>(alloc: Global, totals: Totals, out: &mut O) -> Outcome
    ensures steady { SteadyIfDone (O.faults out.old) (O.faults out.new) result }
    ensures written { WritesLine (accepted_text totals.parts totals.commands)
        (O.taken out.old) (O.taken out.new) (O.faults out.old) (O.faults out.new) result }
{
    let Ok(line) = line_of(alloc, totals) else {
        return Outcome::NoMemory;
    };
    match write_whole(out, line.as_bytes()) {
        Ok(()) => Outcome::Done,
        Err(_) => Outcome::OutputFault,
    }
}

// The line itself.
fn line_of(alloc: Global, totals: Totals) -> Result<String, AllocError>
    ensures line { IfOk result
        (λ line. string_bytes line ≡ accepted_text totals.parts totals.commands) }
{
    let Totals { parts, commands } = totals;
    format!(in alloc; "accepted {parts} {commands}\n")
}
