// Digits as numbers, and what pairs of them say.
ghost use Rattle.std.specs.Prelude.{◌≡◌, ℕ, List, ◌/◌, ◌%◌, ◌≤◌, ◌++◌, length, take, IfOk, OnOk};
ghost use Rattle.send_model.specs.Attribute.{IsBytes};
ghost use Rattle.send_model.specs.Printed.{escaped};
ghost use Rattle.sx_base.specs.Bytes.{IsFront};
ghost use Rattle.stream_text.specs.ValueReading.{digit_in, ReadsHex, FillsHex};

use std::alloc::AllocError;
use sx_base::Blob;

// How many bytes are made of digits at once.
const PIECE: usize = 128;

// What a glyph that is no digit counts as.
pub(crate) const NO_DIGIT: u8 = 16;

// The number that a lower hexadecimal digit stands for, 16 for any other byte.
#[tactic(auto, unfolding(crate::specs::ValueReading::digit_in))]
pub(crate) fn digit_of(glyph: u8) -> u8
    ensures value { result ≡ digit_in glyph }
    ensures few { result ≤ 16 }
{
    if b'0' <= glyph && glyph <= b'9' {
        return glyph - b'0';
    }
    if b'a' <= glyph && glyph <= b'f' {
        return glyph - b'a' + 10;
    }
    NO_DIGIT
}

// Appends the bytes that pairs of lower hexadecimal digits say. False where the text is none of
// such pairs; then some bytes may be there.
pub(crate) fn unhex_into(text: &[u8], to: &mut Blob) -> Result<bool, AllocError>
    ensures read { IfOk result (ReadsHex text.now to.old to.new) }
    ensures kept { IsFront to.old to.new }
{
    if text.len() % 2 != 0 {
        return Ok(false);
    }
    let mut bytes = [0; PIECE];
    let mut at = 0;
    while at < text.len() {
        let piece = &text[at..(at + 2 * PIECE).min(text.len())];
        if !fill_bytes(piece, &mut bytes) {
            return Ok(false);
        }
        to.push_all(&bytes[..piece.len() / 2])?;
        at += piece.len();
    }
    Ok(true)
}

// Puts the bytes of pairs of digits into the front of the buffer. False where there is another byte
// among the digits.
fn fill_bytes(text: &[u8], bytes: &mut [u8; 128]) -> bool
    requires few { length text.now ≤ 256 }
    requires even { length text.now % 2 ≡ 0 }
    ensures read { FillsHex text.now (take (length text.now / 2) bytes.new) result }
{
    let mut worst = 0;
    for place in 0..text.len() / 2 {
        let high = digit_of(text[2 * place]);
        let low = digit_of(text[2 * place + 1]);
        worst = worst.max(high).max(low);
        bytes[place] = (high % 16) * 16 + low % 16;
    }
    worst < NO_DIGIT
}

// Appends the bytes whose escaped form this is, if it is one; of other bytes it says nothing.
pub(crate) fn unescape_into(text: &[u8], to: &mut Blob) -> Result<(), AllocError>
    ensures read { OnOk result ((bytes : List ℕ) → IsBytes bytes → escaped bytes ≡ text.now
        → to.new ≡ to.old ++ bytes) }
    ensures kept { IsFront to.old to.new }
{
    let mut from = 0;
    let mut at = 0;
    while at < text.len() {
        if text[at] != b'\\' {
            at += 1;
            continue;
        }
        if text.len() - at < 4 {
            at += 1;
            continue;
        }
        to.push_all(&text[from..at])?;
        to.push_all(&[(digit_of(text[at + 2]) % 16) * 16 + digit_of(text[at + 3]) % 16])?;
        at += 4;
        from = at;
    }
    to.push_all(&text[from..])
}
