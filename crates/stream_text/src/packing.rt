// The file of a text.
ghost use Rattle.std.specs.Prelude.{◌≡◌, ◌↔◌, ◌<◌, ◌≤◌, ◌++◌, ℕ, List, [], ◌∷◌, length, IfOk};
ghost use Rattle.std.specs.Prelude.{IfErr, OnErr, IsTrue, None};
ghost use Rattle.std.specs.String.{string_bytes};
ghost use Rattle.send_model.specs.Lengths.{limit};
ghost use Rattle.send_model.specs.Words.{first_file};
ghost use Rattle.sx_base.specs.Asks.{IsReadOnce};
ghost use Rattle.sx_base.specs.Calls.{Caused, ErrCaused, IfAllTold, Wrote, IsStop, SteadyIfDone};
ghost use Rattle.sx_base.specs.Causes.{Rose};
ghost use Rattle.sx_base.specs.Later.{AskedOnly, InputsLater, OutputLater, ReadsOn};
ghost use Rattle.stream_dump.specs.Steps.{output};
ghost use Rattle.stream_text.specs.Lines.{HasNoLine, IfFile, IsHeld, IsLineIn};
ghost use Rattle.stream_text.specs.Reading.{IsReader, held, fed};
ghost use Rattle.stream_text.specs.Packed.{PackEnds};
ghost use Rattle.stream_text.specs.Taking.{FrontFits, FrontThere, outcome_of, bad_line};
ghost use Rattle.stream_text.specs.Taking.{Finishes, SendsSome, IsFurther, StepSays};

use crate::line_reader::{Front, LineFault, LineReader};
use crate::text_line::Packed;
use std::alloc::Global;
use stream_dump::PIECE;
use sx_base::{Failed, Inputs, Outcome, Refusal, Sink, Verdict, write_whole};

/// Writes the headers and the commands that the lines of a text stand for, each command in its
/// canonical spelling. The text is read once, in order and line by line, so a pipe serves. `Done`
/// says that it is the text of one or more whole streams. `Refused` names with BadText the first
/// line up to whose end the text is not the first lines of such a text, or the line behind the last
/// one where only something is missing; then `out` got the bytes of all lines before. With every
/// other outcome it got a front part of the bytes of the lines before the one that is wrong, and
/// never all that a lawful text stands for. `InputTooLong` comes exactly where the file has 2^62
/// bytes or more and each line is right that ends, or passes 2^21 bytes, before that.
pub fn pack<I: Inputs, O: Sink>(alloc: Global, inputs: &mut I, file: &str, out: &mut O) -> Outcome
    ensures same { I.told inputs.new ≡ I.told inputs.old }
    ensures later { I.faults inputs.old ≤ I.faults inputs.new }
    ensures out_later { O.faults out.old ≤ O.faults out.new }
    ensures steady { SteadyIfDone (I.faults inputs.old) (I.faults inputs.new) result }
    ensures ends_steady { SteadyIfDone (I.ends inputs.old) (I.ends inputs.new) result }
    ensures asked { AskedOnly I.Inputs inputs.old inputs.new (IsReadOnce file.now) }
    ensures out_steady { SteadyIfDone (O.faults out.old) (O.faults out.new) result }
    ensures cause { Caused (I.faults inputs.old) (I.faults inputs.new)
        (O.faults out.old) (O.faults out.new) result }
    ensures packed { IfAllTold (I.told inputs.old) (file.now ∷ [])
        (λ files. Wrote (O.taken out.old) (O.taken out.new)
        (PackEnds (first_file files) result)) }
{
    let Ok(mut lines) = LineReader::new(alloc, file) else {
        return Outcome::NoMemory;
    };
    let mut packed = Packed::new(alloc);
    loop {
        let step = match take_next(&mut lines, &mut packed, inputs, out) {
            Ok(step) => step,
            Err(outcome) => return outcome,
        };
        match step {
            Step::Line => {}
            Step::End => return finish(&packed, out, Outcome::Done),
        }
    }
}

// What was found behind the lines so far.
#[derive(Debug, Clone, Copy, PartialEq, Eq)]
enum Step {
    // A line, which was taken.
    Line,
    // The end of the file, where a text may end.
    End,
}

// Takes the next line, or says that the text ends.
fn take_next<I: Inputs, O: Sink>(
    lines: &mut LineReader,
    packed: &mut Packed,
    inputs: &mut I,
    out: &mut O,
) -> Result<Step, Outcome>
    requires reader { IsReader lines.old }
    requires ahead { IfFile (I.told inputs.old) (string_bytes lines.old.name)
        (IsHeld lines.old.at (held lines.old)) }
    ensures inputs { InputsLater I.Inputs inputs.old inputs.new result }
    ensures out { OutputLater O.Sink out.old out.new result }
    ensures asked { ReadsOn I.Inputs inputs.old inputs.new (string_bytes lines.old.name)
        (fed lines.old) (fed lines.new) }
    ensures reader { IsReader lines.new }
    ensures name { lines.new.name ≡ lines.old.name }
    ensures stops { IfErr result IsStop }
    ensures cause { ErrCaused (I.faults inputs.old) (I.faults inputs.new)
        (O.faults out.old) (O.faults out.new) result }
    ensures further { IsFurther lines.old lines.new result }
    ensures says { IfFile (I.told inputs.old) (string_bytes lines.old.name)
        (StepSays lines.old packed.old lines.new packed.new
        (O.taken out.old) (O.taken out.new) result) }
{
    match lines.look(inputs) {
        Ok(front) => take_front(lines, packed, front, out),
        Err(fault) => Err(end_by(fault)),
    }
}

// How the call ends where more of the file can't be read.
fn end_by(fault: LineFault) -> Outcome
    ensures outcome { result ≡ outcome_of fault }
{
    match fault {
        LineFault::InputFault => Outcome::InputFault,
        LineFault::InputTooLong => Outcome::InputTooLong { file: 1 },
    }
}

// Takes what stands in front of the bytes that were not passed.
fn take_front<O: Sink>(
    lines: &mut LineReader,
    packed: &mut Packed,
    front: Front,
    out: &mut O,
) -> Result<Step, Outcome>
    requires reader { IsReader lines.old }
    requires front { FrontFits front (held lines.old) }
    ensures out { OutputLater O.Sink out.old out.new result }
    ensures fed { fed lines.new ≡ fed lines.old }
    ensures reader { IsReader lines.new }
    ensures name { lines.new.name ≡ lines.old.name }
    ensures stops { IfErr result IsStop }
    ensures cause { (before now : ℕ) → ErrCaused before now
        (O.faults out.old) (O.faults out.new) result }
    ensures further { IsFurther lines.old lines.new result }
    ensures says { (file : List ℕ) → IsHeld lines.old.at (held lines.old) file
        → FrontThere front (fed lines.old) file
        → StepSays lines.old packed.old lines.new packed.new
        (O.taken out.old) (O.taken out.new) result file }
{
    match front {
        Front::Line(len) => take_line(lines, packed, len, out),
        Front::Long => Err(refuse(lines, packed, out)),
        Front::End => at_end(lines, packed, out),
    }
}

// Adds the next line, which has so many bytes, where it may stand there. What was kept is written
// first, where it is much: so the last bytes of a lawful text are kept until its end.
fn take_line<O: Sink>(
    lines: &mut LineReader,
    packed: &mut Packed,
    len: usize,
    out: &mut O,
) -> Result<Step, Outcome>
    requires reader { IsReader lines.old }
    requires line { IsLineIn (held lines.old) len }
    ensures out { OutputLater O.Sink out.old out.new result }
    ensures fed { fed lines.new ≡ fed lines.old }
    ensures reader { IsReader lines.new }
    ensures name { lines.new.name ≡ lines.old.name }
    ensures stops { IfErr result IsStop }
    ensures cause { (before now : ℕ) → ErrCaused before now
        (O.faults out.old) (O.faults out.new) result }
    ensures further { IsFurther lines.old lines.new result }
    ensures says { (file : List ℕ) → IsHeld lines.old.at (held lines.old) file
        → StepSays lines.old packed.old lines.new packed.new
        (O.taken out.old) (O.taken out.new) result file }
{
    let Ok(()) = send_if_much(packed, out) else {
        return Err(Outcome::OutputFault);
    };
    match packed.add(lines.line(len)) {
        Ok(true) => {
            lines.pass(len);
            Ok(Step::Line)
        }
        Ok(false) => Err(refuse(lines, packed, out)),
        Err(_) => Err(Outcome::NoMemory),
    }
}

// Whether the text may end here, or which line is named: what is there has no newline, and the file
// ends.
fn at_end<O: Sink>(lines: &LineReader, packed: &Packed, out: &mut O) -> Result<Step, Outcome>
    requires reader { IsReader lines.now }
    ensures out { OutputLater O.Sink out.old out.new result }
    ensures stops { IfErr result IsStop }
    ensures cause { (before now : ℕ) → ErrCaused before now
        (O.faults out.old) (O.faults out.new) result }
    ensures further { IsFurther lines.now lines.now result }
    ensures says { (file : List ℕ) → IsHeld lines.now.at (held lines.now) file
        → HasNoLine (held lines.now) → fed lines.now < limit → length file ≡ fed lines.now
        → StepSays lines.now packed.now lines.now packed.now
        (O.taken out.old) (O.taken out.new) result file }
{
    if is_whole(lines, packed) {
        return Ok(Step::End);
    }
    Err(refuse(lines, packed, out))
}

// Whether a text may end behind the lines so far, and no byte stands there.
fn is_whole(lines: &LineReader, packed: &Packed) -> bool
    requires reader { IsReader lines.now }
    ensures whole { IsTrue result ↔ ((held lines.now ≡ []) × (0 < lines.now.number)
        × (packed.now.due ≡ None)) }
{
    lines.is_empty() && lines.number > 0 && packed.due.is_none()
}

// Writes what is kept, where it is much.
fn send_if_much<O: Sink>(packed: &mut Packed, out: &mut O) -> Result<(), Failed>
    ensures out { OutputLater O.Sink out.old out.new result }
    ensures due { packed.new.due ≡ packed.old.due }
    ensures cause { OnErr result (Rose (O.faults out.old) (O.faults out.new)) }
    ensures sent { SendsSome packed.old.bytes packed.new.bytes
        (O.taken out.old) (O.taken out.new) result }
{
    if packed.bytes.as_slice().len() < PIECE {
        return Ok(());
    }
    write_whole(out, packed.bytes.as_slice())?;
    packed.bytes.clear();
    Ok(())
}

// Writes what is left and names the next line.
fn refuse<O: Sink>(lines: &LineReader, packed: &Packed, out: &mut O) -> Outcome
    requires reader { IsReader lines.now }
    ensures later { O.faults out.old ≤ O.faults out.new }
    ensures ends { Finishes packed.now.bytes (bad_line lines.now)
        (output O.Sink out.old) (output O.Sink out.new) result }
{
    let verdict = Verdict {
        file: 1,
        command: lines.number + 1,
        offset: lines.at,
        refusal: Refusal::BadText,
    };
    finish(packed, out, Outcome::Refused(verdict))
}

// Writes what is left, and then gives this outcome.
fn finish<O: Sink>(packed: &Packed, out: &mut O, outcome: Outcome) -> Outcome
    ensures later { O.faults out.old ≤ O.faults out.new }
    ensures steady { SteadyIfDone (O.faults out.old) (O.faults out.new) result }
    ensures ends { Finishes packed.now.bytes outcome
        (output O.Sink out.old) (output O.Sink out.new) result }
{
    match write_whole(out, packed.bytes.as_slice()) {
        Ok(()) => outcome,
        Err(_) => Outcome::OutputFault,
    }
}
