// How a run answers: its exit status, and the line on standard error.
ghost use Rattle.std.specs.Prelude.{◌≡◌, ◌+◌, ◌≤◌, ◌++◌, length, OnOk, OnErr};
ghost use Rattle.std.specs.Io.KnownBytes.{Appends};
ghost use Rattle.send_model.specs.Answer.{kept_values, verdict_text};
ghost use Rattle.program_model.specs.Answers.{Done, IsMissing, status_of, note_of};
ghost use Rattle.sx_base.specs.Causes.{HasCause};
ghost use Rattle.sx_base.specs.Outside.{AppendsPart};
ghost use Rattle.sx_base.specs.Refusals.{refusal_of, verdict_meant};
ghost use Rattle.request_answers.specs.Answered.{answer_of};
ghost use Rattle.send_top.specs.Answered.{HandedOn, HasShortNote};

use crate::one_line::Line;
use request_answers::Answer;
use sx_base::{Failed, Outcome, Refusal, Sink, Verdict, write_whole};

/// The exit status of an answer.
#[tactic(auto, unfolding(program_model::specs::Answers::status_of))]
pub fn status(answer: &Answer) -> u8
    ensures { result ≡ status_of (answer_of answer.now) }
{
    match answer {
        Answer::Ended(Outcome::Done) => 0,
        Answer::Ended(Outcome::Refused(_)) => 1,
        Answer::Usage => 2,
        Answer::Ended(Outcome::InputFault) => 3,
        Answer::Ended(Outcome::OutputFault) => 4,
        Answer::StoreFault => 5,
        Answer::NotStore { .. } => 6,
        Answer::Ended(Outcome::NoMemory) => 7,
        Answer::Missing { .. } => 8,
        Answer::Ended(Outcome::TooMuch { .. }) => 9,
        Answer::LogFull { .. } => 10,
        Answer::Ended(Outcome::InputTooLong { .. }) => 11,
        Answer::StoreThere { .. } => 12,
        Answer::Ended(Outcome::InputChanged { .. }) => 13,
        Answer::Damaged { .. } => 14,
    }
}

/// Writes the note of an answer, a line with its newline, and nothing where all was done. At
/// `Failed`, which comes only where the count of the notes rose, they got a proper prefix of it.
/// Takes no memory.
pub fn write_note<N: Sink>(answer: &Answer, notes: &mut N) -> Result<(), Failed>
    ensures whole { OnOk result
        (Appends (N.taken notes.old) (N.taken notes.new) (note_of (answer_of answer.now))) }
    ensures part { OnErr result
        (AppendsPart (N.taken notes.old) (N.taken notes.new) (note_of (answer_of answer.now))) }
    ensures cause { HasCause (N.faults notes.old) (N.faults notes.new) result }
    ensures quiet { answer_of answer.now ≡ Done → notes.new ≡ notes.old }
{
    if status(answer) == 0 {
        return Ok(());
    }
    if let Answer::Missing { what } = answer {
        return write_missing(what.as_slice(), notes);
    }
    let line = note_line(answer);
    write_whole(notes, line.as_slice())
}

// Writes the note of what is missing, of any length, a line's room at a time.
fn write_missing<N: Sink>(what: &[u8], notes: &mut N) -> Result<(), Failed>
    ensures whole { OnOk result
        (Appends (N.taken notes.old) (N.taken notes.new) (note_of (IsMissing what.now))) }
    ensures part { OnErr result
        (AppendsPart (N.taken notes.old) (N.taken notes.new) (note_of (IsMissing what.now))) }
    ensures cause { HasCause (N.faults notes.old) (N.faults notes.new) result }
{
    let mut line = Line::new();
    line.push(b"missing ");
    for place in 0..what.len() {
        make_room(&mut line, notes)?;
        line.push_escaped(what[place]);
    }
    make_room(&mut line, notes)?;
    line.push(b"\n");
    write_whole(notes, line.as_slice())
}

// Writes a line that has no room for four bytes more, and begins another.
fn make_room<N: Sink>(line: &mut Line, notes: &mut N) -> Result<(), Failed>
    ensures room { OnOk result (length line.new + 4 ≤ 160) }
    ensures whole { OnOk result (HandedOn line.old line.new (N.taken notes.old) (N.taken notes.new)) }
    ensures part { OnErr result (AppendsPart (N.taken notes.old) (N.taken notes.new) line.old) }
    ensures cause { HasCause (N.faults notes.old) (N.faults notes.new) result }
{
    if line.len() <= 156 {
        return Ok(());
    }
    write_whole(notes, line.as_slice())?;
    *line = Line::new();
    Ok(())
}

// The note of an answer that is missing nothing.
#[tactic(auto, unfolding(program_model::specs::Answers::note_of))]
fn note_line(answer: &Answer) -> Line
    requires short { HasShortNote (answer_of answer.now) }
    ensures { result ≡ note_of (answer_of answer.now) }
{
    let mut line = Line::new();
    match answer {
        Answer::Ended(Outcome::Done) => return line,
        Answer::Ended(Outcome::Refused(verdict)) => push_verdict(verdict, &mut line),
        Answer::Usage => line.push(b"usage"),
        Answer::Ended(Outcome::InputFault) => line.push(b"input fault"),
        Answer::Ended(Outcome::OutputFault) => line.push(b"output fault"),
        Answer::StoreFault => line.push(b"store fault"),
        Answer::NotStore { group } => {
            line.push(b"not a store");
            line.push_number(*group);
        }
        Answer::Ended(Outcome::NoMemory) => line.push(b"no memory"),
        Answer::Missing { .. } => unreachable!(),
        Answer::Ended(Outcome::TooMuch { sum }) => {
            line.push(b"too much");
            line.push_number(*sum);
        }
        Answer::LogFull { end, wanted, limit } => {
            line.push(b"log full");
            line.push_number(*end);
            line.push_number(*wanted);
            line.push_number(*limit);
        }
        Answer::Ended(Outcome::InputTooLong { file }) => {
            line.push(b"input too long");
            line.push_number(*file);
        }
        Answer::StoreThere { size } => {
            line.push(b"store there");
            line.push_number(*size);
        }
        Answer::Ended(Outcome::InputChanged { file, place }) => {
            line.push(b"input changed");
            line.push_number(*file);
            line.push_number(*place);
        }
        Answer::Damaged {
            group,
            stored,
            computed,
        } => {
            line.push(b"damaged");
            line.push_number(*group);
            line.push_checksum(*stored);
            line.push_checksum(*computed);
        }
    }
    line.push(b"\n");
    line
}

#[tactic(auto, using(crate::proofs::Notes::short_name), unfolding(send_model::specs::Answer::verdict_text))]
fn push_verdict(verdict: &Verdict, line: &mut Line)
    requires room { length line.old ≡ 0 }
    ensures pushed { line.new ≡ line.old ++ verdict_text (verdict_meant verdict.now) }
    ensures len { length line.new ≤ 151 }
{
    line.push(b"refused");
    line.push_number(verdict.file);
    line.push_number(verdict.command);
    line.push_number(verdict.offset);
    line.push_number(verdict.refusal.number());
    line.push_field(verdict.refusal.name().as_bytes());
    push_kept(&verdict.refusal, line);
}

// The values that a refusal keeps.
#[tactic(auto, unfolding(send_model::specs::Answer::kept_values))]
fn push_kept(refusal: &Refusal, line: &mut Line)
    requires room { length line.old + 43 ≤ 160 }
    ensures pushed { line.new ≡ line.old ++ kept_values (refusal_of refusal.now) }
    ensures len { length line.new ≤ length line.old + 42 }
{
    match refusal {
        Refusal::BadVersion(kept) => line.push_number(u64::from(*kept)),
        Refusal::LongCommand(kept) => line.push_number(u64::from(*kept)),
        Refusal::BadChecksum { stored, computed } => {
            line.push_checksum(*stored);
            line.push_checksum(*computed);
        }
        Refusal::UnknownCommand(kept) => line.push_number(u64::from(*kept)),
        Refusal::BadAttribute(kept) => line.push_number(u64::from(*kept)),
        Refusal::MissingAttribute(kept) => line.push_number(u64::from(*kept)),
        Refusal::Guarded { guard, used } => {
            line.push_number(*guard);
            line.push_number(*used);
        }
        Refusal::BadFallocate(kept) => line.push_number(u64::from(*kept)),
        Refusal::NotBuilt(kept) => line.push_number(u64::from(*kept)),
        _ => {}
    }
}
