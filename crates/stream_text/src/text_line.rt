// The lines of a text, and the bytes that they stand for.
ghost use Rattle.std.specs.Prelude.{◌≡◌, [], None, Some, IfOk, option_map};
ghost use Rattle.send_commands.specs.Meaning.{kind_meant};
ghost use Rattle.stream_text.specs.LineTaking.{KindNamed, HeaderRead, due_of, TakesLine, AddsFrame};

use crate::values::{Frame, ValueReader, word_end};
use send_commands::Kind;
use std::alloc::{AllocError, Global};
use stream_dump::command_name;
use sx_base::Blob;
use tlv_frame::{FrameWriter, StreamHead};

// The greatest body of a frame.
const GREATEST_BODY: usize = 262_144;

// How many bytes stand in front of a frame's body.
const HEAD: usize = 10;

// The bytes of lines that were read, and what the next line may say.
#[derive(Debug, Drop)]
pub(crate) struct Packed {
    pub(crate) bytes: Blob,
    // The version of the stream that has not ended.
    pub(crate) due: Option<u32>,
    values: ValueReader,
}

impl Packed {
    pub(crate) fn new(alloc: Global) -> Packed
        ensures empty { result.bytes ≡ [] }
        ensures due { result.due ≡ None }
    {
        Packed {
            bytes: Blob::new(alloc),
            due: None,
            values: ValueReader::new(alloc),
        }
    }

    // Appends the bytes of a line, which is given without its newline. False where no such line may
    // stand here; then the bytes are as they were.
    pub(crate) fn add(&mut self, line: &[u8]) -> Result<bool, AllocError>
        ensures taken { IfOk result (TakesLine self.old.due line.now
            self.old.bytes self.new.bytes self.new.due) }
    {
        match self.due {
            None => self.add_header(line),
            Some(version) => self.add_command(version, line),
        }
    }

    fn add_header(&mut self, line: &[u8]) -> Result<bool, AllocError>
        requires due { self.old.due ≡ None }
        ensures taken { IfOk result (TakesLine None line.now
            self.old.bytes self.new.bytes self.new.due) }
    {
        let Some(version) = header_version(line) else {
            return Ok(false);
        };
        let head = StreamHead { version };
        self.bytes.push_all(&head.bytes())?;
        self.due = Some(version);
        Ok(true)
    }

    fn add_command(&mut self, version: u32, line: &[u8]) -> Result<bool, AllocError>
        requires due { self.old.due ≡ Some version }
        ensures taken { IfOk result (TakesLine (Some version) line.now
            self.old.bytes self.new.bytes self.new.due) }
    {
        let end = word_end(line, 0);
        let Some(kind) = kind_named(version, &line[..end]) else {
            return Ok(false);
        };
        if !self.add_frame(version, kind, &line[end..])? {
            return Ok(false);
        }
        self.due = due_behind(version, kind);
        Ok(true)
    }

    // Appends the frame of a command with the values that the text says. False where it is not that
    // of such values, or the frame is too long; then the bytes are as they were.
    fn add_frame(&mut self, version: u32, kind: Kind, text: &[u8]) -> Result<bool, AllocError>
        ensures due { self.new.due ≡ self.old.due }
        ensures added { IfOk result (AddsFrame version (kind_meant kind) text.now
            self.old.bytes self.new.bytes) }
    {
        let start = self.bytes.as_slice().len();
        let writer = FrameWriter::begin(&mut self.bytes, kind.number(), version)?;
        let mut frame = Frame { version, writer };
        let wanted = kind.wanted();
        if !self
            .values
            .read_all(wanted, text, &mut frame, &mut self.bytes)?
        {
            self.bytes.cut(start);
            return Ok(false);
        }
        if self.bytes.as_slice().len() - start > HEAD + GREATEST_BODY {
            self.bytes.cut(start);
            return Ok(false);
        }
        frame.writer.finish(&mut self.bytes);
        Ok(true)
    }
}

// The version that the line of a stream says, None for every other line.
fn header_version(line: &[u8]) -> Option<u32>
    ensures read { HeaderRead line.now result }
{
    if line == b"stream 1".as_slice() {
        return Some(1);
    }
    if line == b"stream 2".as_slice() {
        return Some(2);
    }
    None
}

// What is due behind a command: another one of its stream, unless it is END.
fn due_behind(version: u32, kind: Kind) -> Option<u32>
    ensures due { result ≡ due_of version (kind_meant kind) }
{
    match kind {
        Kind::End => None,
        _ => Some(version),
    }
}

// The command of this name in a stream of this version, None where there is none.
fn kind_named(version: u32, name: &[u8]) -> Option<Kind>
    ensures named { KindNamed version name.now (option_map kind_meant result) }
{
    for number in 1..25 {
        if let Some(kind) = Kind::from_number(version, number) {
            if command_name(kind) == name {
                return Some(kind);
            }
        }
    }
    None
}
