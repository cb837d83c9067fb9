// A line of text on the stack.
ghost use Rattle.std.specs.Prelude.{◌≡◌, ◌+◌, ◌≤◌, ◌<◌, [], ◌++◌, length, false};
ghost use Rattle.std.specs.Fmt.{digit_glyph};
ghost use Rattle.send_model.specs.Answer.{and_field, and_number, eight_digits};
ghost use Rattle.send_model.specs.Printed.{escaped_byte, is_plain, hex_digit};

use itoa::Buffer;
use std::marker::Model;

/// A line of at most 160 bytes, seen as their list. It takes no memory.
#[derive(Debug, Drop)]
pub struct Line {
    bytes: [u8; 160],
    len: usize,
}

impl Model for Line {
    ghost use Rattle.std.specs.Prelude.{◌≡◌, ℕ, ◌≤◌, List, length, take};

    ghost Value = { List ℕ };

    ghost view = { λ s. take s.len s.bytes };

    ghost invariant = { λ s. (s.len ≤ 160) × (length s.bytes ≡ 160) };
}

impl Line {
    /// A line without bytes.
    pub fn new() -> Line
        ensures empty { result ≡ [] }
    {
        Line {
            bytes: [0; 160],
            len: 0,
        }
    }

    /// The bytes.
    pub fn as_slice(&self) -> &[u8]
        ensures bytes { result.now ≡ self.now }
    {
        &self.bytes[..self.len]
    }

    /// How many bytes it has.
    pub fn len(&self) -> usize
        ensures len { result ≡ length self.now }
    {
        self.len
    }

    /// Appends bytes, for which there is room.
    pub fn push(&mut self, piece: &[u8])
        requires room { length self.old + length piece.now ≤ 160 }
        ensures pushed { self.new ≡ self.old ++ piece.now }
        ensures len { length self.new ≡ length self.old + length piece.now }
    {
        let end = self.len + piece.len();
        self.bytes[self.len..end].copy_from_slice(piece);
        self.len = end;
    }

    /// Appends a space and a field.
    pub fn push_field(&mut self, field: &[u8])
        requires room { length self.old + length field.now < 160 }
        ensures pushed { self.new ≡ self.old ++ and_field field.now }
        ensures len { length self.new ≡ length self.old + length field.now + 1 }
    {
        self.push(b" ");
        self.push(field);
    }

    /// Appends a space and a number in decimal digits.
    pub fn push_number(&mut self, n: u64)
        requires room { length self.old + 21 ≤ 160 }
        ensures pushed { self.new ≡ self.old ++ and_number n }
        ensures len { length self.new ≤ length self.old + 21 }
    {
        let mut buffer = Buffer::new();
        self.push_field(buffer.format(n).as_bytes());
    }

    /// Appends a space and a checksum in eight lower hexadecimal digits.
    pub fn push_checksum(&mut self, sum: u32)
        requires room { length self.old + 9 ≤ 160 }
        ensures pushed { self.new ≡ self.old ++ and_field (eight_digits sum) }
        ensures len { length self.new ≡ length self.old + 9 }
    {
        self.push_field(&hexadecimal(sum));
    }

    /// Appends a byte in its escaped form.
    #[tactic(auto, unfolding(send_model::specs::Printed::escaped_byte))]
    pub fn push_escaped(&mut self, byte: u8)
        requires room { length self.old + 4 ≤ 160 }
        ensures pushed { self.new ≡ self.old ++ escaped_byte byte }
        ensures len { length self.new ≤ length self.old + 4 }
    {
        if stands_for_itself(byte) {
            return self.push(&[byte]);
        }
        self.push(&[
            b'\\',
            b'x',
            hexadecimal_digit(byte / 16),
            hexadecimal_digit(byte % 16),
        ]);
    }
}

#[tactic(auto, unfolding(send_model::specs::Printed::is_plain))]
fn stands_for_itself(byte: u8) -> bool
    ensures { result ≡ is_plain byte }
{
    0x21 <= byte && byte <= 0x7e && byte != b'\\'
}

#[tactic(auto, unfolding(send_model::specs::Printed::hex_digit))]
fn hexadecimal_digit(n: u8) -> u8
    requires { n < 16 }
    ensures { result ≡ hex_digit n }
{
    if n < 10 { b'0' + n } else { b'a' - 10 + n }
}

fn hexadecimal(n: u32) -> [u8; 8]
    ensures { result ≡ eight_digits n }
{
    let sevens = n / 16;
    let sixes = sevens / 16;
    let fives = sixes / 16;
    let fours = fives / 16;
    let threes = fours / 16;
    let twos = threes / 16;
    let ones = twos / 16;
    [
        digit(ones % 16),
        digit(twos % 16),
        digit(threes % 16),
        digit(fours % 16),
        digit(fives % 16),
        digit(sixes % 16),
        digit(sevens % 16),
        digit(n % 16),
    ]
}

fn digit(n: u32) -> u8
    requires { n < 16 }
    ensures { result ≡ digit_glyph false n }
{
    let n = n as u8;
    if n < 10 { b'0' + n } else { b'a' - 10 + n }
}
