// The values of a line, as the attributes of a frame.
ghost use Rattle.std.specs.Prelude.{◌≡◌, ◌≢◌, ℕ, List, ◌+◌, ◌*◌, ◌^◌, ◌<◌, ◌≤◌, ◌↔◌, ◌++◌, ◌∷◌, []};
ghost use Rattle.std.specs.Prelude.{◌==◌, true, false, length, slice_index, take, drop, IfOk, OnOk};
ghost use Rattle.std.specs.Prelude.{IfSome, IfNone, IsTrue, Some};
ghost use Rattle.std.specs.Fmt.{decimal};
ghost use Rattle.send_model.specs.Attribute.{HasRoom, IsBytes, form_of, AnIdentifier, ANumber};
ghost use Rattle.send_model.specs.Attribute.{AShortNumber, AMoment, AnyBytes, is_one_of};
ghost use Rattle.send_model.specs.Attribute.{XATTR_DATA, DATA, MODE};
ghost use Rattle.send_model.specs.Printed.{uuid_text};
ghost use Rattle.sx_base.specs.Bytes.{IsFront};
ghost use Rattle.stream_dump.specs.Values.{name_of};
ghost use Rattle.stream_text.specs.ValueReading.{ReadsValue, ReadsValues, AddsAttribute, lead_of};
ghost use Rattle.stream_text.specs.ValueReading.{IsWordEnd, IsNumeralOf, pair_in};

use crate::glyphs::{digit_of, unescape_into, unhex_into};
use crate::shapes::{Shape, shape_of};
use memchr::memchr;
use send_commands::Time;
use std::alloc::{AllocError, Global};
use stream_dump::{push_decimal, push_octal, push_time, push_uuid, value_name};
use sx_base::{Blob, escape_into};
use tlv_frame::FrameWriter;
use tlv_frame::attribute_numbers::*;
use uuid::Uuid;

const SECOND: u64 = 1_000_000_000;

const UUID_LEN: usize = 36;

// Reads values. Most are read by what their digits say, printed, and compared with what was read,
// so that each value has one text.
#[derive(Debug, Drop)]
pub(crate) struct ValueReader {
    bytes: Blob,
    printed: Blob,
}

impl ValueReader {
    pub(crate) fn new(alloc: Global) -> ValueReader {
        ValueReader {
            bytes: Blob::new(alloc),
            printed: Blob::new(alloc),
        }
    }

    // Appends the attributes of these numbers with the values that the text says, each after a
    // space, with its name. False where the text is not that of such values.
    pub(crate) fn read_all(
        &mut self,
        kinds: &[u16],
        text: &[u8],
        frame: &mut Frame,
        to: &mut Blob,
    ) -> Result<bool, AllocError>
        requires version { frame.old.writer.version ≡ frame.old.version }
        ensures read { IfOk result
            (ReadsValues frame.old.version kinds.now text.now to.old to.new) }
        ensures kept { IsFront to.old to.new }
        ensures frame { frame.new ≡ frame.old }
    {
        let mut at = 0;
        for place in 0..kinds.len() {
            let kind = kinds[place];
            let Some(lead) = lead_len(kind, &text[at..]) else {
                return Ok(false);
            };
            let from = at + lead;
            let end = word_end(text, from);
            if !self.read(kind, &text[from..end], frame, to)? {
                return Ok(false);
            }
            at = end;
        }
        Ok(at == text.len())
    }

    // Appends the attribute of this number with the value that the text says. False where the text
    // is that of no value of it.
    fn read(
        &mut self,
        kind: u16,
        text: &[u8],
        frame: &mut Frame,
        to: &mut Blob,
    ) -> Result<bool, AllocError>
        requires version { frame.old.writer.version ≡ frame.old.version }
        ensures read { IfOk result
            (ReadsValue frame.old.version kind text.now to.old to.new) }
        ensures kept { IsFront to.old to.new }
        ensures frame { frame.new ≡ frame.old }
    {
        let Some(shape) = shape_of(kind) else {
            return Ok(false);
        };
        match shape {
            Shape::Identifier => self.read_uuid(kind, text, frame, to),
            Shape::Moment => self.read_time(kind, text, frame, to),
            Shape::Contents => self.read_contents(kind, text, frame, to),
            Shape::Escaped => self.read_escaped(kind, text, frame, to),
            Shape::ShortNumber => self.read_short_number(kind, text, frame, to),
            Shape::Octal => self.read_octal(kind, text, frame, to),
            Shape::Number => self.read_number(kind, text, frame, to),
        }
    }

    fn read_uuid(
        &mut self,
        kind: u16,
        text: &[u8],
        frame: &mut Frame,
        to: &mut Blob,
    ) -> Result<bool, AllocError>
        requires form { form_of kind ≡ AnIdentifier }
        requires version { frame.old.writer.version ≡ frame.old.version }
        ensures read { IfOk result
            (ReadsValue frame.old.version kind text.now to.old to.new) }
        ensures kept { IsFront to.old to.new }
        ensures frame { frame.new ≡ frame.old }
    {
        if text.len() != UUID_LEN {
            return Ok(false);
        }
        let bytes = uuid_in(text);
        self.printed.clear();
        push_uuid(&Uuid::from_bytes(bytes), &mut self.printed)?;
        if self.printed.as_slice() != text {
            return Ok(false);
        }
        if !frame.add(kind, &bytes, to)? {
            return Ok(false);
        }
        Ok(true)
    }

    fn read_time(
        &mut self,
        kind: u16,
        text: &[u8],
        frame: &mut Frame,
        to: &mut Blob,
    ) -> Result<bool, AllocError>
        requires form { form_of kind ≡ AMoment }
        requires version { frame.old.writer.version ≡ frame.old.version }
        ensures read { IfOk result
            (ReadsValue frame.old.version kind text.now to.old to.new) }
        ensures kept { IsFront to.old to.new }
        ensures frame { frame.new ≡ frame.old }
    {
        if text.len() < 11 {
            return Ok(false);
        }
        let point = text.len() - 10;
        let Some(secs) = digits_in(&text[..point], 10) else {
            return Ok(false);
        };
        let Some(nanos) = digits_in(&text[point + 1..], 10) else {
            return Ok(false);
        };
        if nanos >= SECOND {
            return Ok(false);
        }
        let time = Time {
            secs,
            nanos: nanos as u32,
        };
        self.printed.clear();
        push_time(time, &mut self.printed)?;
        if self.printed.as_slice() != text {
            return Ok(false);
        }
        if !frame.add(kind, &time.bytes(), to)? {
            return Ok(false);
        }
        Ok(true)
    }

    fn read_contents(
        &mut self,
        kind: u16,
        text: &[u8],
        frame: &mut Frame,
        to: &mut Blob,
    ) -> Result<bool, AllocError>
        requires form { form_of kind ≡ AnyBytes }
        requires contents { is_one_of kind (XATTR_DATA ∷ DATA ∷ []) ≡ true }
        requires version { frame.old.writer.version ≡ frame.old.version }
        ensures read { IfOk result
            (ReadsValue frame.old.version kind text.now to.old to.new) }
        ensures kept { IsFront to.old to.new }
        ensures frame { frame.new ≡ frame.old }
    {
        self.bytes.clear();
        if !unhex_into(text, &mut self.bytes)? {
            return Ok(false);
        }
        if !frame.add(kind, self.bytes.as_slice(), to)? {
            return Ok(false);
        }
        Ok(true)
    }

    fn read_escaped(
        &mut self,
        kind: u16,
        text: &[u8],
        frame: &mut Frame,
        to: &mut Blob,
    ) -> Result<bool, AllocError>
        requires form { form_of kind ≡ AnyBytes }
        requires name { is_one_of kind (XATTR_DATA ∷ DATA ∷ []) ≡ false }
        requires version { frame.old.writer.version ≡ frame.old.version }
        ensures read { IfOk result
            (ReadsValue frame.old.version kind text.now to.old to.new) }
        ensures kept { IsFront to.old to.new }
        ensures frame { frame.new ≡ frame.old }
    {
        self.bytes.clear();
        unescape_into(text, &mut self.bytes)?;
        self.printed.clear();
        escape_into(self.bytes.as_slice(), &mut self.printed)?;
        if self.printed.as_slice() != text {
            return Ok(false);
        }
        if !frame.add(kind, self.bytes.as_slice(), to)? {
            return Ok(false);
        }
        Ok(true)
    }

    fn read_short_number(
        &mut self,
        kind: u16,
        text: &[u8],
        frame: &mut Frame,
        to: &mut Blob,
    ) -> Result<bool, AllocError>
        requires form { form_of kind ≡ AShortNumber }
        requires version { frame.old.writer.version ≡ frame.old.version }
        ensures read { IfOk result
            (ReadsValue frame.old.version kind text.now to.old to.new) }
        ensures kept { IsFront to.old to.new }
        ensures frame { frame.new ≡ frame.old }
    {
        let Some(n) = self.decimal(text)? else {
            return Ok(false);
        };
        if n > u32::MAX as u64 {
            return Ok(false);
        }
        if !frame.add(kind, &(n as u32).to_le_bytes(), to)? {
            return Ok(false);
        }
        Ok(true)
    }

    fn read_number(
        &mut self,
        kind: u16,
        text: &[u8],
        frame: &mut Frame,
        to: &mut Blob,
    ) -> Result<bool, AllocError>
        requires form { form_of kind ≡ ANumber }
        requires other { (kind == MODE) ≡ false }
        requires version { frame.old.writer.version ≡ frame.old.version }
        ensures read { IfOk result
            (ReadsValue frame.old.version kind text.now to.old to.new) }
        ensures kept { IsFront to.old to.new }
        ensures frame { frame.new ≡ frame.old }
    {
        let Some(n) = self.decimal(text)? else {
            return Ok(false);
        };
        if !frame.add(kind, &n.to_le_bytes(), to)? {
            return Ok(false);
        }
        Ok(true)
    }

    fn read_octal(
        &mut self,
        kind: u16,
        text: &[u8],
        frame: &mut Frame,
        to: &mut Blob,
    ) -> Result<bool, AllocError>
        requires form { form_of kind ≡ ANumber }
        requires mode { (kind == MODE) ≡ true }
        requires version { frame.old.writer.version ≡ frame.old.version }
        ensures read { IfOk result
            (ReadsValue frame.old.version kind text.now to.old to.new) }
        ensures kept { IsFront to.old to.new }
        ensures frame { frame.new ≡ frame.old }
    {
        let Some(n) = digits_in(text, 8) else {
            return Ok(false);
        };
        self.printed.clear();
        push_octal(n, &mut self.printed)?;
        if self.printed.as_slice() != text {
            return Ok(false);
        }
        if !frame.add(kind, &n.to_le_bytes(), to)? {
            return Ok(false);
        }
        Ok(true)
    }

    // The number that this text is the decimal form of.
    fn decimal(&mut self, text: &[u8]) -> Result<Option<u64>, AllocError>
        ensures some { IfOk result (λ found. IfSome found (λ n. decimal n ≡ text.now)) }
        ensures none { IfOk result (λ found. IfNone found
            ((m : ℕ) → m < 2 ^ 64 → decimal m ≢ text.now)) }
    {
        let Some(n) = digits_in(text, 10) else {
            return Ok(None);
        };
        self.printed.clear();
        push_decimal(n, &mut self.printed)?;
        if self.printed.as_slice() != text {
            return Ok(None);
        }
        Ok(Some(n))
    }
}

// A frame that is being built at the end of a blob, which is lent to each call.
#[derive(Debug, Drop)]
pub(crate) struct Frame {
    pub(crate) version: u32,
    pub(crate) writer: FrameWriter,
}

impl Frame {
    // Appends an attribute with these bytes. False where they are too many for its length field.
    fn add(&mut self, kind: u16, bytes: &[u8], to: &mut Blob) -> Result<bool, AllocError>
        requires version { self.old.writer.version ≡ self.old.version }
        ensures added { IfOk result
            (AddsAttribute self.old.version kind bytes.now to.old to.new) }
        ensures kept { IsFront to.old to.new }
        ensures frame { self.new ≡ self.old }
        ensures bytes { IsBytes bytes.now }
    {
        if !has_room(self.version, kind, bytes.len()) {
            return Ok(false);
        }
        self.writer.attr_bytes(to, kind, bytes)?;
        Ok(true)
    }
}

// Whether so many bytes are short enough for the length field of an attribute, where it has one.
fn has_room(version: u32, kind: u16, len: usize) -> bool
    ensures room { IsTrue result ↔ HasRoom version kind len }
{
    if version == 2 && kind == DATA {
        return true;
    }
    len < 65_536
}

// How many bytes the space, the name and the sign in front of a value have, None where the text
// does not begin with them.
fn lead_len(kind: u16, text: &[u8]) -> Option<usize>
    ensures some { IfSome result (λ len. (len ≤ length text.now)
        × (take len text.now ≡ lead_of kind)) }
    ensures none { IfNone result ((rest : List ℕ) → text.now ≢ lead_of kind ++ rest) }
{
    let name = value_name(kind);
    let rest = text
        .strip_prefix(b" ")?
        .strip_prefix(name)?
        .strip_prefix(b"=")?;
    Some(text.len() - rest.len())
}

// The end of the word that begins at a place: the next space, or the end of the text.
pub(crate) fn word_end(text: &[u8], from: usize) -> usize
    requires within { from ≤ length text.now }
    ensures end { IsWordEnd text.now from result }
{
    match memchr(b' ', &text[from..]) {
        Some(len) => from + len,
        None => text.len(),
    }
}

// The identifier that digits in its usual form say, whatever else is read so.
fn uuid_in(text: &[u8]) -> [u8; 16]
    requires len { length text.now ≡ 36 }
    ensures meant { (bytes : List ℕ) → length bytes ≡ 16 → IsBytes bytes
        → uuid_text bytes ≡ text.now → result ≡ bytes }
{
    [
        pair_at(text, 0),
        pair_at(text, 2),
        pair_at(text, 4),
        pair_at(text, 6),
        pair_at(text, 9),
        pair_at(text, 11),
        pair_at(text, 14),
        pair_at(text, 16),
        pair_at(text, 19),
        pair_at(text, 21),
        pair_at(text, 24),
        pair_at(text, 26),
        pair_at(text, 28),
        pair_at(text, 30),
        pair_at(text, 32),
        pair_at(text, 34),
    ]
}

// The byte that two digits from a place on say, if they are digits.
fn pair_at(text: &[u8], at: usize) -> u8
    requires within { at + 1 < length text.now }
    ensures pair { result ≡ pair_in (slice_index text.now at) (slice_index text.now (at + 1)) }
{
    (digit_of(text[at]) % 16) * 16 + digit_of(text[at + 1]) % 16
}

// The number of 64 bits that one or more digits of this base say; None for all other bytes.
fn digits_in(text: &[u8], base: u64) -> Option<u64>
    requires base { is_one_of base (8 ∷ 10 ∷ []) ≡ true }
    ensures says { (m : ℕ) → m < 2 ^ 64 → IsNumeralOf base m text.now → result ≡ Some m }
{
    if text.is_empty() {
        return None;
    }
    let mut number: u64 = 0;
    for place in 0..text.len() {
        let digit = digit_of(text[place]) as u64;
        if digit >= base {
            return None;
        }
        number = number.checked_mul(base)?.checked_add(digit)?;
    }
    Some(number)
}
