// The values of a command, each with its name.
ghost use Rattle.std.specs.Prelude.{◌≡◌, ◌++◌, OnOk, length, map};
ghost use Rattle.send_model.specs.Command.{row};
ghost use Rattle.send_model.specs.Lines.{value_with, values_with};
ghost use Rattle.send_commands.specs.Meaning.{kind_meant};
ghost use Rattle.stream_dump.specs.Values.{field_of, form_of, name_of, one_value};
ghost use Rattle.sx_base.specs.Bytes.{IsFront};

use crate::numbers::{push_decimal, push_octal, push_time, push_uuid};
use send_commands::{Kind, Time};
use std::alloc::AllocError;
use sx_base::{Blob, escape_into, hex_into};
use tlv_frame::attribute_numbers::*;
use uuid::Uuid;

/// How the contents of a file or of an extended attribute are printed.
#[derive(Debug, Clone, Copy)]
pub enum Contents {
    /// How many bytes they have.
    Count,
    /// Two lower hexadecimal digits for each byte.
    Digits,
}

/// A value of a command.
#[derive(Debug, Clone, Copy)]
pub enum Value<'a> {
    /// An identifier.
    Identifier(Uuid),
    /// A number of eight bytes.
    Number(u64),
    /// A number of four bytes.
    ShortNumber(u32),
    /// A moment.
    Moment(Time),
    /// Bytes.
    Bytes(&'a [u8]),
}

/// Appends the values of a command's wanted attributes in their order, each after a space, with its
/// name.
pub fn push_values(
    kind: Kind,
    values: &[Value<'_>],
    contents: Contents,
    to: &mut Blob,
) -> Result<(), AllocError>
    requires count { length values.now ≡ length (row (kind_meant kind)).wanted }
    ensures pushed { OnOk result
        (to.new ≡ to.old
        ++ values_with (form_of contents) (row (kind_meant kind)).wanted (map field_of values.now)) }
    ensures kept { IsFront to.old to.new }
{
    let wanted = kind.wanted();
    for place in 0..values.len() {
        push_value(wanted[place], &values[place], contents, to)?;
    }
    Ok(())
}

// Appends a value after a space, with its name.
fn push_value(
    kind: u16,
    value: &Value<'_>,
    contents: Contents,
    to: &mut Blob,
) -> Result<(), AllocError>
    ensures pushed { OnOk result
        (to.new ≡ to.old ++ one_value (form_of contents) kind (field_of value.now)) }
    ensures kept { IsFront to.old to.new }
{
    to.push_all(b" ")?;
    to.push_all(value_name(kind))?;
    to.push_all(b"=")?;
    push_text(kind, value, contents, to)
}

fn push_text(
    kind: u16,
    value: &Value<'_>,
    contents: Contents,
    to: &mut Blob,
) -> Result<(), AllocError>
    ensures pushed { OnOk result
        (to.new ≡ to.old ++ value_with (form_of contents) kind (field_of value.now)) }
    ensures kept { IsFront to.old to.new }
{
    match value {
        Value::Identifier(uuid) => push_uuid(uuid, to),
        Value::Number(n) => {
            if kind == MODE {
                push_octal(*n, to)
            } else {
                push_decimal(*n, to)
            }
        }
        Value::ShortNumber(n) => push_decimal(*n as u64, to),
        Value::Moment(time) => push_time(*time, to),
        Value::Bytes(bytes) => {
            if kind == XATTR_DATA || kind == DATA {
                push_contents(bytes, contents, to)
            } else {
                escape_into(bytes, to)
            }
        }
    }
}

fn push_contents(bytes: &[u8], contents: Contents, to: &mut Blob) -> Result<(), AllocError>
    ensures pushed { OnOk result (to.new ≡ to.old ++ form_of contents bytes.now) }
    ensures kept { IsFront to.old to.new }
{
    match contents {
        Contents::Count => push_decimal(bytes.len() as u64, to),
        Contents::Digits => hex_into(bytes, to),
    }
}

/// The name of the values of the attribute of this number, nothing where no command wants it.
#[tactic(auto, unfolding(crate::specs::Values::name_of))]
pub fn value_name(kind: u16) -> &'static [u8]
    ensures name { result.now ≡ name_of kind }
{
    match kind {
        UUID => b"uuid",
        CTRANSID => b"ctransid",
        SIZE => b"size",
        MODE => b"mode",
        UID => b"uid",
        GID => b"gid",
        RDEV => b"rdev",
        MTIME => b"mtime",
        ATIME => b"atime",
        XATTR_NAME => b"xattr",
        XATTR_DATA => b"value",
        PATH => b"path",
        PATH_TO => b"to",
        PATH_LINK => b"link",
        FILE_OFFSET => b"offset",
        DATA => b"data",
        CLONE_UUID => b"clone_uuid",
        CLONE_CTRANSID => b"clone_ctransid",
        CLONE_PATH => b"clone_path",
        CLONE_OFFSET => b"clone_offset",
        CLONE_LEN => b"clone_len",
        FALLOCATE_MODE => b"fmode",
        FILE_FLAGS => b"flags",
        _ => b"",
    }
}
