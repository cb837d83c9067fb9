// Numbers, moments and identifiers as text.
ghost use Rattle.std.specs.Prelude.{◌≡◌, ◌≤◌, ◌∷◌, ◌++◌, OnOk, length, replicate};
ghost use Rattle.std.specs.Fmt.{decimal};
ghost use Rattle.send_model.specs.Printed.{octal, hex_bytes, time_text, uuid_text};
ghost use Rattle.send_commands.specs.Meaning.{time_of};
ghost use Rattle.sx_base.specs.Bytes.{IsFront};

use itoa::Buffer;
use send_commands::Time;
use std::alloc::AllocError;
use sx_base::{Blob, hex_into};
use uuid::Uuid;

// How many octal digits a number of 64 bits has at the most.
const OCTAL_DIGITS: usize = 22;

/// Appends a number in decimal digits.
pub fn push_decimal(n: u64, to: &mut Blob) -> Result<(), AllocError>
    ensures pushed { OnOk result (to.new ≡ to.old ++ decimal n) }
    ensures kept { IsFront to.old to.new }
{
    let mut buffer = Buffer::new();
    to.push_all(buffer.format(n).as_bytes())
}

/// Appends a number in octal digits, without zeros in front.
pub fn push_octal(n: u64, to: &mut Blob) -> Result<(), AllocError>
    ensures pushed { OnOk result (to.new ≡ to.old ++ octal n) }
    ensures kept { IsFront to.old to.new }
{
    let mut digits = [0; OCTAL_DIGITS];
    let mut at = OCTAL_DIGITS - 1;
    let mut left = n;
    while left >= 8 {
        digits[at] = b'0' + (left % 8) as u8;
        at -= 1;
        left /= 8;
    }
    digits[at] = b'0' + left as u8;
    to.push_all(&digits[at..])
}

/// Appends a moment: seconds, a point, and nine digits of nanoseconds.
#[tactic(auto, unfolding(send_model::specs::Printed::time_text))]
pub fn push_time(time: Time, to: &mut Blob) -> Result<(), AllocError>
    ensures pushed { OnOk result (to.new ≡ to.old ++ time_text (time_of time)) }
    ensures kept { IsFront to.old to.new }
{
    push_decimal(time.secs, to)?;
    to.push_all(b".")?;
    let mut buffer = Buffer::new();
    let nanos = buffer.format(time.nanos).as_bytes();
    push_zeros(9usize.saturating_sub(nanos.len()), to)?;
    to.push_all(nanos)
}

// Appends so many zeros, at most nine.
#[tactic(auto, using(crate::proofs::ValueLines::zeros_taken))]
fn push_zeros(count: usize, to: &mut Blob) -> Result<(), AllocError>
    requires few { count ≤ 9 }
    ensures pushed { OnOk result (to.new ≡ to.old ++ replicate count 0x30) }
    ensures kept { IsFront to.old to.new }
{
    let zeros: &[u8] = b"000000000";
    to.push_all(&zeros[..count])
}

/// Appends an identifier in its usual form.
#[tactic(auto, unfolding(send_model::specs::Printed::uuid_text))]
pub fn push_uuid(uuid: &Uuid, to: &mut Blob) -> Result<(), AllocError>
    ensures pushed { OnOk result (to.new ≡ to.old ++ uuid_text uuid.now) }
    ensures kept { IsFront to.old to.new }
{
    let bytes: &[u8; 16] = uuid.as_bytes();
    let (_, node) = bytes.split_at(10);
    hex_into(&bytes[..4], to)?;
    push_group(&bytes[4..6], to)?;
    push_group(&bytes[6..8], to)?;
    push_group(&bytes[8..10], to)?;
    push_group(node, to)
}

// Appends a hyphen and the digits of these bytes.
fn push_group(bytes: &[u8], to: &mut Blob) -> Result<(), AllocError>
    ensures pushed { OnOk result (to.new ≡ to.old ++ 0x2d ∷ hex_bytes bytes.now) }
    ensures kept { IsFront to.old to.new }
{
    to.push_all(b"-")?;
    hex_into(bytes, to)
}
