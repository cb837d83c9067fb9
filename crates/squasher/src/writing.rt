// The second reading: what stands for each command is written.
ghost use Rattle.std.specs.Prelude.{◌≡◌, ◌+◌, ℕ, [], ◌∷◌, true, map, length, take, drop, IfErr, OnOk};
ghost use Rattle.send_model.specs.Command.{Write, Truncate};
ghost use Rattle.send_model.specs.Spelling.{canonical};
ghost use Rattle.send_model.specs.Store.{Store};
ghost use Rattle.send_model.specs.Reading.{is_version};
ghost use Rattle.send_model.specs.Laws.{CanWrite};
ghost use Rattle.send_model.specs.Overridden.{command_as, IsLawfulOverride};
ghost use Rattle.sx_base.specs.Asks.{IsReadOnce};
ghost use Rattle.sx_base.specs.Calls.{ErrCaused, IsStop, Wrote};
ghost use Rattle.sx_base.specs.Later.{InputsLater, OutputLater, AskedOnly};
ghost use Rattle.send_commands.specs.Meaning.{meaning_of};
ghost use Rattle.send_commands.specs.Writing.{IsWritable};
ghost use Rattle.cmd_reader.specs.Places.{IfTold};
ghost use Rattle.clone_pieces.specs.Sending.{output};
ghost use Rattle.squash_log.specs.Fates.{Parts};
ghost use Rattle.squash_log.specs.Resolved.{span_write, next_fate, by_fate};
ghost use Rattle.squasher.specs.Judging.{read_with};
ghost use Rattle.squasher.specs.Squashing.{IsFound};
ghost use Rattle.squasher.specs.Writing.{Puts, written_for, fates_behind, changed_at, end_by, Counts, CommandsEnd, EndGoesOut, WriteEnds};

use crate::judging::Judged;
use clone_pieces::{SendStop, put, put_bytes, send};
use cmd_reader::{CmdReader, Item, outcome_of};
use part_names::{NamedFile, given_or, override_item};
use send_commands::Command;
use squash_log::{Fate, Fates, Span};
use sx_base::{Blob, Inputs, Outcome, Refusal, Sink, Verdict};
use tlv_frame::StreamHead;

// Why what stands for a command was not written: it did not go out, or the command is not the one
// that was judged.
#[derive(Clone, Copy)]
enum WriteStop {
    Send(SendStop),
    Changed,
}

impl From<SendStop> for WriteStop {
    ghost use Rattle.std.specs.Prelude.{◌≡◌};
    ghost use Rattle.squasher.specs.declared.writing.WriteStop.TheVariants.{Send};

    ghost from_gives = { λ stop made. made ≡ Send stop };

    fn from(stop: SendStop) -> WriteStop {
        WriteStop::Send(stop)
    }
}

// A WRITE.
#[derive(Clone, Copy)]
struct Written<'a> {
    path: &'a [u8],
    offset: u64,
    bytes: &'a [u8],
}

/// Writes the stream that stands for a file which was judged. The file is read once more, and each
/// frame that stays goes out as it came where it is canonical. END goes out only where the file was
/// read to its end.
///
/// # Errors
/// Those of reading, and that the output failed. `Refused` with NotConsecutive where a command is
/// not the one that was judged, as in a file that was changed.
pub(crate) fn write_squashed<I: Inputs, O: Sink>(
    file: &NamedFile<'_>,
    judged: Judged,
    inputs: &mut I,
    out: &mut O,
) -> Result<(), Outcome>
    requires lawful { IsLawfulOverride file.now.said.now }
    ensures inputs { InputsLater I.Inputs inputs.old inputs.new result }
    ensures asked { AskedOnly I.Inputs inputs.old inputs.new (IsReadOnce file.now.name.now) }
    ensures out { OutputLater O.Sink out.old out.new result }
    ensures stops { IfErr result IsStop }
    ensures cause { ErrCaused (I.faults inputs.old) (I.faults inputs.new)
        (O.faults out.old) (O.faults out.new) result }
    ensures written { (base : Store ℕ) → IfTold (I.told inputs.old) file.now.name.now
        (λ bytes. IsFound base (read_with file.now.said.now file.now.number bytes) judged
        → Wrote (O.taken out.old) (O.taken out.new)
        (WriteEnds judged (read_with file.now.said.now file.now.number bytes).items result)) }
{
    let version = judged.version;
    let mut pending = Blob::new(file.alloc);
    let Ok(()) = pending.push_all(&StreamHead { version }.bytes()) else {
        return Err(Outcome::NoMemory);
    };
    match write_commands(file, judged, inputs, &mut pending, out) {
        Ok(()) => {}
        Err(outcome) => return Err(outcome),
    }
    write_end(version, &mut pending, out)
}

// Writes what stands for the commands before END.
fn write_commands<I: Inputs, O: Sink>(
    file: &NamedFile<'_>,
    judged: Judged,
    inputs: &mut I,
    pending: &mut Blob,
    out: &mut O,
) -> Result<(), Outcome>
    requires lawful { IsLawfulOverride file.now.said.now }
    ensures inputs { InputsLater I.Inputs inputs.old inputs.new result }
    ensures asked { AskedOnly I.Inputs inputs.old inputs.new (IsReadOnce file.now.name.now) }
    ensures out { OutputLater O.Sink out.old out.new result }
    ensures stops { IfErr result IsStop }
    ensures cause { ErrCaused (I.faults inputs.old) (I.faults inputs.new)
        (O.faults out.old) (O.faults out.new) result }
    ensures written { (base : Store ℕ) → IfTold (I.told inputs.old) file.now.name.now
        (λ bytes. IsFound base (read_with file.now.said.now file.now.number bytes) judged
        → CommandsEnd judged (read_with file.now.said.now file.now.number bytes).items
        (output O.Sink out.old pending.old) (output O.Sink out.new pending.new) result) }
{
    let Judged {
        fates,
        version,
        commands,
    } = judged;
    let mut fates = fates;
    let Ok(mut reader) = CmdReader::new(file.alloc, file.number, file.name) else {
        return Err(Outcome::NoMemory);
    };
    let mut last = 0;
    let mut place = 0;
    loop {
        let frame = match reader.advance(inputs) {
            Ok(Some(frame)) => frame,
            Ok(None) => return counted(last, commands, changed_at(file.number, last, place)),
            Err(stop) => return Err(outcome_of(file.number, stop)),
        };
        let item = match reader.item(frame) {
            Ok(item) => item,
            Err(verdict) => return Err(Outcome::Refused(verdict)),
        };
        last = item.number;
        place = item.offset;
        if item.version != version {
            return Err(changed_at(file.number, last, place));
        }
        let came = reader.last_frame();
        match write_named(file, &item, came, &mut fates, pending, out) {
            Ok(()) => {}
            Err(stop) => return Err(ended_by(file.number, &item, stop)),
        }
    }
}

// The file was read to its end: it has as many commands as were judged, or else it was changed.
fn counted(last: u64, commands: u64, changed: Outcome) -> Result<(), Outcome>
    ensures { Counts last commands changed result }
{
    if last != commands {
        return Err(changed);
    }
    Ok(())
}

// END, behind what is pending.
fn write_end<O: Sink>(version: u32, pending: &mut Blob, out: &mut O) -> Result<(), Outcome>
    ensures out { OutputLater O.Sink out.old out.new result }
    ensures stops { IfErr result IsStop }
    ensures cause { ErrCaused 0 0 (O.faults out.old) (O.faults out.new) result }
    ensures ended { EndGoesOut version (output O.Sink out.old pending.old)
        (output O.Sink out.new pending.new) result }
{
    match put(&Command::End, version, pending, out) {
        Ok(()) => {}
        Err(stop) => return Err(Outcome::from(stop)),
    }
    match send(pending, out) {
        Ok(()) => Ok(()),
        Err(_) => Err(Outcome::OutputFault),
    }
}

// What stands for a command, with what is said in front of the file.
fn write_named<O: Sink>(
    file: &NamedFile<'_>,
    item: &Item<'_>,
    frame: &[u8],
    fates: &mut Fates,
    pending: &mut Blob,
    out: &mut O,
) -> Result<(), WriteStop>
    requires lawful { IsLawfulOverride file.now.said.now }
    requires version { is_version item.now.version ≡ true }
    requires writable { IsWritable item.now.version (meaning_of item.now.command) }
    requires can_write { CanWrite item.now.version (meaning_of item.now.command) }
    requires spelled { item.now.canonical ≡ true
        → frame.now ≡ canonical item.now.version (meaning_of item.now.command) }
    ensures out { OutputLater O.Sink out.old out.new result }
    ensures fates { OnOk result (fates.new ≡ fates_behind fates.old
        (command_as file.now.said.now (meaning_of item.now.command))) }
    ensures put { Puts item.now.version (output O.Sink out.old pending.old)
        (output O.Sink out.new pending.new)
        (written_for fates.old (command_as file.now.said.now (meaning_of item.now.command)))
        result }
{
    let changed = override_item(file.said, item);
    let meant = given_or(item, &changed);
    write_item(meant, frame, fates, pending, out)
}

// What stands for a command.
fn write_item<O: Sink>(
    item: &Item<'_>,
    frame: &[u8],
    fates: &mut Fates,
    pending: &mut Blob,
    out: &mut O,
) -> Result<(), WriteStop>
    requires writable { IsWritable item.now.version (meaning_of item.now.command) }
    requires can_write { CanWrite item.now.version (meaning_of item.now.command) }
    requires spelled { item.now.canonical ≡ true
        → frame.now ≡ canonical item.now.version (meaning_of item.now.command) }
    ensures out { OutputLater O.Sink out.old out.new result }
    ensures fates { OnOk result (fates.new ≡ fates_behind fates.old (meaning_of item.now.command)) }
    ensures put { Puts item.now.version (output O.Sink out.old pending.old)
        (output O.Sink out.new pending.new)
        (written_for fates.old (meaning_of item.now.command)) result }
{
    match &item.command {
        Command::End => Ok(()),
        Command::Write {
            path,
            offset,
            bytes,
        } => {
            let written = Written {
                path,
                offset: *offset,
                bytes,
            };
            let result = write_fate(&written, item, frame, fates, pending, out);
            fates.pass();
            result
        }
        _ => write_frame(item, frame, pending, out),
    }
}

// What stands for a WRITE, by the next fate.
fn write_fate<O: Sink>(
    written: &Written<'_>,
    item: &Item<'_>,
    frame: &[u8],
    fates: &Fates,
    pending: &mut Blob,
    out: &mut O,
) -> Result<(), WriteStop>
    requires write { meaning_of item.now.command
        ≡ Write written.now.path.now written.now.offset written.now.bytes.now }
    requires writable { IsWritable item.now.version (meaning_of item.now.command) }
    requires can_write { CanWrite item.now.version (meaning_of item.now.command) }
    requires spelled { item.now.canonical ≡ true
        → frame.now ≡ canonical item.now.version (meaning_of item.now.command) }
    ensures out { OutputLater O.Sink out.old out.new result }
    ensures put { Puts item.now.version (output O.Sink out.old pending.old)
        (output O.Sink out.new pending.new)
        (by_fate (next_fate fates.now) written.now.path.now written.now.offset
        written.now.bytes.now) result }
{
    match fates.first() {
        Some(Fate::Parts { spans, lengthens }) => {
            write_parts(written, item.version, spans, lengthens, pending, out)
        }
        Some(Fate::Whole) => write_frame(item, frame, pending, out),
        None => write_frame(item, frame, pending, out),
    }
}

// A command that stays.
fn write_frame<O: Sink>(
    item: &Item<'_>,
    frame: &[u8],
    pending: &mut Blob,
    out: &mut O,
) -> Result<(), WriteStop>
    requires writable { IsWritable item.now.version (meaning_of item.now.command) }
    requires can_write { CanWrite item.now.version (meaning_of item.now.command) }
    requires spelled { item.now.canonical ≡ true
        → frame.now ≡ canonical item.now.version (meaning_of item.now.command) }
    ensures out { OutputLater O.Sink out.old out.new result }
    ensures put { Puts item.now.version (output O.Sink out.old pending.old)
        (output O.Sink out.new pending.new) (meaning_of item.now.command ∷ []) result }
{
    if item.canonical {
        put_bytes(frame, pending, out)?;
        return Ok(());
    }
    put(&item.command, item.version, pending, out)?;
    Ok(())
}

// A WRITE for each stretch, and a TRUNCATE.
fn write_parts<O: Sink>(
    written: &Written<'_>,
    version: u32,
    spans: &[Span],
    lengthens: bool,
    pending: &mut Blob,
    out: &mut O,
) -> Result<(), WriteStop>
    requires writable { IsWritable version
        (Write written.now.path.now written.now.offset written.now.bytes.now) }
    requires can_write { CanWrite version
        (Write written.now.path.now written.now.offset written.now.bytes.now) }
    ensures out { OutputLater O.Sink out.old out.new result }
    ensures put { Puts version (output O.Sink out.old pending.old)
        (output O.Sink out.new pending.new)
        (by_fate (Parts spans.now lengthens) written.now.path.now written.now.offset
        written.now.bytes.now) result }
{
    write_spans(written, version, spans, pending, out)?;
    if lengthens {
        return write_length(written, version, pending, out);
    }
    Ok(())
}

// A WRITE for each stretch.
fn write_spans<O: Sink>(
    written: &Written<'_>,
    version: u32,
    spans: &[Span],
    pending: &mut Blob,
    out: &mut O,
) -> Result<(), WriteStop>
    requires writable { IsWritable version
        (Write written.now.path.now written.now.offset written.now.bytes.now) }
    requires can_write { CanWrite version
        (Write written.now.path.now written.now.offset written.now.bytes.now) }
    ensures out { OutputLater O.Sink out.old out.new result }
    ensures put { Puts version (output O.Sink out.old pending.old)
        (output O.Sink out.new pending.new)
        (map (span_write written.now.path.now written.now.offset written.now.bytes.now) spans.now)
        result }
{
    for span in spans {
        write_span(written, version, span, pending, out)?;
    }
    Ok(())
}

// A WRITE for a stretch.
fn write_span<O: Sink>(
    written: &Written<'_>,
    version: u32,
    span: &Span,
    pending: &mut Blob,
    out: &mut O,
) -> Result<(), WriteStop>
    requires writable { IsWritable version
        (Write written.now.path.now written.now.offset written.now.bytes.now) }
    requires can_write { CanWrite version
        (Write written.now.path.now written.now.offset written.now.bytes.now) }
    ensures out { OutputLater O.Sink out.old out.new result }
    ensures put { Puts version (output O.Sink out.old pending.old)
        (output O.Sink out.new pending.new)
        (span_write written.now.path.now written.now.offset written.now.bytes.now span.now ∷ [])
        result }
{
    let Some(offset) = written.offset.checked_add(span.at) else {
        return Err(WriteStop::Changed);
    };
    let command = Command::Write {
        path: written.path,
        offset,
        bytes: stretch(written.bytes, span),
    };
    put(&command, version, pending, out)?;
    Ok(())
}

// The bytes of a stretch, as far as they are there.
fn stretch<'a>(bytes: &'a [u8], span: &Span) -> &'a [u8]
    ensures { result.now ≡ take span.now.len (drop span.now.at bytes.now) }
{
    let from = (span.at as usize).min(bytes.len());
    let rest = &bytes[from..];
    let len = (span.len as usize).min(rest.len());
    &rest[..len]
}

// A TRUNCATE to the end of a WRITE.
fn write_length<O: Sink>(
    written: &Written<'_>,
    version: u32,
    pending: &mut Blob,
    out: &mut O,
) -> Result<(), WriteStop>
    requires writable { IsWritable version
        (Write written.now.path.now written.now.offset written.now.bytes.now) }
    requires can_write { CanWrite version
        (Write written.now.path.now written.now.offset written.now.bytes.now) }
    ensures out { OutputLater O.Sink out.old out.new result }
    ensures put { Puts version (output O.Sink out.old pending.old)
        (output O.Sink out.new pending.new)
        (Truncate (written.now.offset + length written.now.bytes.now) written.now.path.now ∷ [])
        result }
{
    let Some(size) = written.offset.checked_add(written.bytes.len() as u64) else {
        return Err(WriteStop::Changed);
    };
    let command = Command::Truncate {
        size,
        path: written.path,
    };
    put(&command, version, pending, out)?;
    Ok(())
}

// How the run ends where what stands for a command was not written.
fn ended_by(file: u64, item: &Item<'_>, stop: WriteStop) -> Outcome
    ensures { result ≡ end_by (changed_at file item.now.number item.now.offset) stop }
{
    match stop {
        WriteStop::Send(stop) => Outcome::from(stop),
        WriteStop::Changed => changed_at(file, item.number, item.offset),
    }
}

// The file has another command at a place than the one that was judged.
fn changed_at(file: u64, command: u64, offset: u64) -> Outcome
    ensures { result ≡ changed_at file command offset }
{
    Outcome::Refused(Verdict {
        file,
        command,
        offset,
        refusal: Refusal::NotConsecutive,
    })
}
