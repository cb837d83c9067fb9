// The lines of a file, read piece by piece.
ghost use Rattle.std.specs.Prelude.{◌≡◌, ◌↔◌, ◌+◌, ◌-◌, ◌<◌, ◌≤◌, [], length, take, drop, IfOk};
ghost use Rattle.std.specs.Prelude.{IsTrue};
ghost use Rattle.std.specs.String.{string_bytes};
ghost use Rattle.send_model.specs.Lengths.{limit};
ghost use Rattle.sx_base.specs.Asks.{came};
ghost use Rattle.sx_base.specs.Later.{InputsLater, ReadsOn};
ghost use Rattle.sx_base.specs.Outside.{GivesAt};
ghost use Rattle.stream_text.specs.Lines.{HasNoLine, IfFile, IsHeld, IsLineIn, LineEnd};
ghost use Rattle.stream_text.specs.Reading.{IsReader, held, fed, IsOfSame, ReadsMore, IsInputFault};
ghost use Rattle.stream_text.specs.Reading.{LookSays};

use memchr::memchr;
use std::alloc::{AllocError, Global};
use sx_base::Inputs;

// How many bytes of a file are read at the most.
const LIMIT: u64 = 1 << 62;

// One byte more than a line of a text may have.
const ROOM: usize = 2_097_153;

// What stands in front of the bytes that were not passed.
#[derive(Debug, Clone, Copy, PartialEq, Eq)]
pub(crate) enum Front {
    // A line of so many bytes, its newline among them.
    Line(usize),
    // More bytes than a line may have, and no newline among them.
    Long,
    // What is behind the last newline of the file.
    End,
}

// Why no more can be said of a file.
#[derive(Debug, Clone, Copy, PartialEq, Eq)]
pub(crate) enum LineFault {
    // The inputs answered that they failed.
    InputFault,
    // The file has 2^62 bytes or more.
    InputTooLong,
}

// The lines of a file, from its front on.
#[derive(Debug, Drop)]
pub(crate) struct LineReader {
    name: String,
    room: Vec<u8>,
    // Where the next line begins in the room, and up to where the room has bytes of the file.
    from: usize,
    end: usize,
    // The place of the next line in the file, and how many lines there are before it.
    pub(crate) at: u64,
    pub(crate) number: u64,
}

impl LineReader {
    // The named file, at its start.
    pub(crate) fn new(alloc: Global, name: &str) -> Result<LineReader, AllocError>
        ensures reader { IfOk result (λ reader. IsReader reader) }
        ensures name { IfOk result (λ reader. string_bytes reader.name ≡ name.now) }
        ensures place { IfOk result (λ reader. reader.at ≡ 0) }
        ensures number { IfOk result (λ reader. reader.number ≡ 0) }
        ensures empty { IfOk result (λ reader. held reader ≡ []) }
    {
        Ok(LineReader {
            name: String::from_str(alloc, name)?,
            room: room_for(alloc)?,
            from: 0,
            end: 0,
            at: 0,
            number: 0,
        })
    }

    // Looks for the end of the next line, and reads the file on as far as that takes.
    pub(crate) fn look<I: Inputs>(&mut self, inputs: &mut I) -> Result<Front, LineFault>
        requires reader { IsReader self.old }
        requires ahead { IfFile (I.told inputs.old) (string_bytes self.old.name)
            (IsHeld self.old.at (held self.old)) }
        ensures inputs { InputsLater I.Inputs inputs.old inputs.new result }
        ensures asked { ReadsOn I.Inputs inputs.old inputs.new (string_bytes self.old.name)
            (fed self.old) (fed self.new) }
        ensures reader { IsReader self.new }
        ensures same { IsOfSame self.old self.new }
        ensures ahead { IfFile (I.told inputs.old) (string_bytes self.old.name)
            (IsHeld self.old.at (held self.new)) }
        ensures says { LookSays (I.told inputs.old) self.new
            (I.faults inputs.old) (I.faults inputs.new) result }
    {
        let mut seen = 0;
        loop {
            if let Some(len) = line_end(&self.room.as_slice()[self.from..self.end], seen) {
                return Ok(Front::Line(len));
            }
            seen = self.end - self.from;
            if seen == ROOM {
                return Ok(Front::Long);
            }
            match self.read_on(inputs) {
                Ok(0) => return Ok(Front::End),
                Ok(_) => {}
                Err(fault) => return Err(fault),
            }
        }
    }

    // Reads the next bytes of the file behind those that are there. None come only at its end.
    fn read_on<I: Inputs>(&mut self, inputs: &mut I) -> Result<usize, LineFault>
        requires reader { IsReader self.old }
        requires room { length (held self.old) < 2_097_153 }
        requires ahead { IfFile (I.told inputs.old) (string_bytes self.old.name)
            (IsHeld self.old.at (held self.old)) }
        ensures inputs { InputsLater I.Inputs inputs.old inputs.new result }
        ensures asked { ReadsOn I.Inputs inputs.old inputs.new (string_bytes self.old.name)
            (fed self.old) (fed self.new) }
        ensures reader { IsReader self.new }
        ensures same { IsOfSame self.old self.new }
        ensures ahead { IfFile (I.told inputs.old) (string_bytes self.old.name)
            (IsHeld self.old.at (held self.new)) }
        ensures says { ReadsMore (I.told inputs.old) self.old self.new
            (I.faults inputs.old) (I.faults inputs.new) result }
    {
        self.make_room();
        let at = self.at + (self.end - self.from) as u64;
        if at >= LIMIT {
            return Err(LineFault::InputTooLong);
        }
        let room = &mut self.room.as_mut_slice()[self.end..];
        match read_piece(inputs, self.name.as_str(), at, room) {
            Ok(count) => {
                self.end += count;
                Ok(count)
            }
            Err(fault) => Err(fault),
        }
    }

    // Moves the bytes that are there to the front, where there is no room behind them.
    fn make_room(&mut self)
        requires reader { IsReader self.old }
        requires room { length (held self.old) < 2_097_153 }
        ensures reader { IsReader self.new }
        ensures same { IsOfSame self.old self.new }
        ensures held { held self.new ≡ held self.old }
        ensures room { self.new.end < 2_097_153 }
    {
        if self.end < ROOM {
            return;
        }
        let count = self.end - self.from;
        self.room.as_mut_slice().copy_within(self.from..self.end, 0);
        self.from = 0;
        self.end = count;
    }

    // The next line, which has so many bytes, without its newline.
    pub(crate) fn line(&self, len: usize) -> &[u8]
        requires reader { IsReader self.now }
        requires line { IsLineIn (held self.now) len }
        ensures line { result.now ≡ take (len - 1) (held self.now) }
    {
        &self.room.as_slice()[self.from..self.from + len - 1]
    }

    // Goes past the next line, which has so many bytes.
    pub(crate) fn pass(&mut self, len: usize)
        requires reader { IsReader self.old }
        requires line { IsLineIn (held self.old) len }
        ensures reader { IsReader self.new }
        ensures name { self.new.name ≡ self.old.name }
        ensures place { self.new.at ≡ self.old.at + len }
        ensures number { self.new.number ≡ self.old.number + 1 }
        ensures held { held self.new ≡ drop len (held self.old) }
    {
        self.from += len;
        self.at += len as u64;
        self.number += 1;
    }

    // Whether no byte stands behind the last newline that was passed.
    pub(crate) fn is_empty(&self) -> bool
        requires reader { IsReader self.now }
        ensures empty { IsTrue result ↔ (held self.now ≡ []) }
    {
        self.from == self.end
    }
}

// Room for a line, and one byte more.
fn room_for(alloc: Global) -> Result<Vec<u8>, AllocError>
    ensures { IfOk result (λ room. length room.items ≡ 2_097_153) }
{
    vec![in alloc; 0; ROOM]
}

// How many bytes the first line has, its newline among them; None where there is no newline. There
// is none in the first bytes, so many.
fn line_end(bytes: &[u8], seen: usize) -> Option<usize>
    requires seen { seen ≤ length bytes.now }
    requires none { HasNoLine (take seen bytes.now) }
    ensures end { LineEnd bytes.now result }
{
    match memchr(b'\n', &bytes[seen..]) {
        Some(len) => Some(seen + len + 1),
        None => None,
    }
}

// Fills the front of the piece with the bytes of the named file from the place on, and with none
// behind the limit.
fn read_piece<I: Inputs>(
    inputs: &mut I,
    name: &str,
    at: u64,
    piece: &mut [u8],
) -> Result<usize, LineFault>
    requires place { at < limit }
    requires some { 0 < length piece.old }
    requires few { length piece.old ≤ 2_097_153 }
    ensures inputs { InputsLater I.Inputs inputs.old inputs.new result }
    ensures asked { ReadsOn I.Inputs inputs.old inputs.new name.now at (at + came result) }
    ensures len { length piece.new ≡ length piece.old }
    ensures bound { IfOk result (λ count. count ≤ length piece.new) }
    ensures place { IfOk result (λ count. at + count ≤ limit) }
    ensures bytes { IfOk result (λ count. GivesAt (I.told inputs.old) name.now at piece.new count) }
    ensures fault { IsInputFault (I.faults inputs.old) (I.faults inputs.new) result }
{
    let most = (LIMIT - at).min(piece.len() as u64) as usize;
    let room = &mut piece[..most];
    match inputs.read_at(name, at, room) {
        Ok(count) => Ok(count),
        Err(_) => Err(LineFault::InputFault),
    }
}
