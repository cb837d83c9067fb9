// The escaped form of bytes.
ghost use Rattle.std.specs.Prelude.{◌≡◌, ℕ, ◌*◌, ◌<◌, ◌≤◌, ◌++◌, length, take, OnOk, OnErr, false};
ghost use Rattle.sx_base.specs.Bytes.{IsFront};
ghost use Rattle.send_model.specs.Printed.{is_plain, hex_digit, hex_bytes, escaped_byte, escaped};

use crate::blob::Blob;
use std::alloc::AllocError;

// How many bytes are made digits at once.
const PIECE: usize = 64;

/// Appends the escaped form of the bytes, or changes nothing where there is no memory. Visible
/// characters of ASCII but the backslash stand for themselves; every other byte is `\x` and two
/// lower hexadecimal digits.
pub fn escape_into(bytes: &[u8], to: &mut Blob) -> Result<(), AllocError>
    ensures appended { OnOk result (to.new ≡ to.old ++ escaped bytes.now) }
    ensures same { OnErr result (to.new ≡ to.old) }
{
    let start = to.as_slice().len();
    let answer = push_all_escaped(bytes, to);
    if answer.is_err() {
        to.cut(start);
    }
    answer
}

/// Appends two lower hexadecimal digits for each byte, or changes nothing where there is no memory.
pub fn hex_into(bytes: &[u8], to: &mut Blob) -> Result<(), AllocError>
    ensures appended { OnOk result (to.new ≡ to.old ++ hex_bytes bytes.now) }
    ensures same { OnErr result (to.new ≡ to.old) }
{
    let before = to.as_slice().len();
    let answer = push_all_digits(bytes, to);
    if answer.is_err() {
        to.cut(before);
    }
    answer
}

// Without memory some of the digits may be there.
fn push_all_digits(bytes: &[u8], to: &mut Blob) -> Result<(), AllocError>
    ensures appended { OnOk result (to.new ≡ to.old ++ hex_bytes bytes.now) }
    ensures kept { IsFront to.old to.new }
{
    let mut digits = [0; 2 * PIECE];
    let mut at = 0;
    while at < bytes.len() {
        let piece = &bytes[at..(at + PIECE).min(bytes.len())];
        fill_digits(piece, &mut digits);
        to.push_all(&digits[..2 * piece.len()])?;
        at += piece.len();
    }
    Ok(())
}

// Puts the digits of the bytes into the front of the buffer.
fn fill_digits(bytes: &[u8], digits: &mut [u8; 128])
    requires few { length bytes.now ≤ 64 }
    ensures filled { take (2 * length bytes.now) digits.new ≡ hex_bytes bytes.now }
{
    for place in 0..bytes.len() {
        let byte = bytes[place];
        digits[2 * place] = digit(byte / 16);
        digits[2 * place + 1] = digit(byte % 16);
    }
}

// Bytes that stand for themselves are pushed in whole runs. Without memory some of the form may be
// there.
fn push_all_escaped(bytes: &[u8], to: &mut Blob) -> Result<(), AllocError>
    ensures appended { OnOk result (to.new ≡ to.old ++ escaped bytes.now) }
    ensures kept { IsFront to.old to.new }
{
    let mut from = 0;
    for at in 0..bytes.len() {
        let byte = bytes[at];
        if stands_for_itself(byte) {
            continue;
        }
        to.push_all(&bytes[from..at])?;
        push_escaped(byte, to)?;
        from = at + 1;
    }
    to.push_all(&bytes[from..])
}

#[tactic(auto, unfolding(send_model::specs::Printed::escaped_byte))]
fn push_escaped(byte: u8, to: &mut Blob) -> Result<(), AllocError>
    requires { is_plain byte ≡ false }
    ensures appended { OnOk result (to.new ≡ to.old ++ escaped_byte byte) }
    ensures same { OnErr result (to.new ≡ to.old) }
{
    to.push_all(&[b'\\', b'x', digit(byte / 16), digit(byte % 16)])
}

#[tactic(auto, unfolding(send_model::specs::Printed::is_plain))]
fn stands_for_itself(byte: u8) -> bool
    ensures { result ≡ is_plain byte }
{
    0x21 <= byte && byte <= 0x7e && byte != b'\\'
}

#[tactic(auto, unfolding(send_model::specs::Printed::hex_digit))]
fn digit(n: u8) -> u8
    requires { n < 16 }
    ensures { result ≡ hex_digit n }
{
    if n < 10 { b'0' + n } else { b'a' - 10 + n }
}
