// The fields of a line, each after a space.
ghost use Rattle.std.specs.Prelude.{◌≡◌, ◌++◌, OnOk};
ghost use Rattle.send_model.specs.Answer.{and_field, and_number};
ghost use Rattle.send_model.specs.Printed.{escaped, hex_bytes, octal, time_text, uuid_text};
ghost use Rattle.inode_tree.specs.Kinds.{time_of};

use inode_tree::Timestamp;
use send_commands::Time;
use std::alloc::AllocError;
use stream_dump::{push_decimal, push_octal, push_time, push_uuid};
use sx_base::{Blob, escape_into, hex_into};
use uuid::Uuid;

// A word.
pub(crate) fn push_word(word: &[u8], to: &mut Blob) -> Result<(), AllocError>
    ensures pushed { OnOk result (to.new ≡ to.old ++ and_field word.now) }
{
    to.push_all(b" ")?;
    to.push_all(word)
}

// A number in decimal digits.
pub(crate) fn push_number(n: u64, to: &mut Blob) -> Result<(), AllocError>
    ensures pushed { OnOk result (to.new ≡ to.old ++ and_number n) }
{
    to.push_all(b" ")?;
    push_decimal(n, to)
}

// The bits of a mode in octal digits.
pub(crate) fn push_mode(mode: u16, to: &mut Blob) -> Result<(), AllocError>
    ensures pushed { OnOk result (to.new ≡ to.old ++ and_field (octal mode)) }
{
    to.push_all(b" ")?;
    push_octal(u64::from(mode), to)
}

// A moment.
pub(crate) fn push_moment(moment: Timestamp, to: &mut Blob) -> Result<(), AllocError>
    ensures pushed { OnOk result (to.new ≡ to.old ++ and_field (time_text (time_of moment))) }
{
    to.push_all(b" ")?;
    let time = Time {
        secs: moment.secs,
        nanos: moment.nanos,
    };
    push_time(time, to)
}

// An identifier.
pub(crate) fn push_identifier(uuid: &Uuid, to: &mut Blob) -> Result<(), AllocError>
    ensures pushed { OnOk result (to.new ≡ to.old ++ and_field (uuid_text uuid.now)) }
{
    to.push_all(b" ")?;
    push_uuid(uuid, to)
}

// The escaped form of bytes.
pub(crate) fn push_escaped(bytes: &[u8], to: &mut Blob) -> Result<(), AllocError>
    ensures pushed { OnOk result (to.new ≡ to.old ++ and_field (escaped bytes.now)) }
{
    to.push_all(b" ")?;
    escape_into(bytes, to)
}

// Bytes as hexadecimal digits.
pub(crate) fn push_hex(bytes: &[u8], to: &mut Blob) -> Result<(), AllocError>
    ensures pushed { OnOk result (to.new ≡ to.old ++ and_field (hex_bytes bytes.now)) }
{
    to.push_all(b" ")?;
    hex_into(bytes, to)
}
