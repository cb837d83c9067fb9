// Commands that are written as frames.
ghost use Rattle.std.specs.Prelude.{◌≡◌, ◌==◌, false, ◌+◌, ◌<◌, ◌≤◌, ◌++◌, map, length, OnOk, OnErr};
ghost use Rattle.send_model.specs.Attribute.{field_bytes};
ghost use Rattle.send_model.specs.Command.{row};
ghost use Rattle.send_model.specs.Spelling.{attribute_bytes, body_of, with_fields, frame_of, canonical, greatest_body};
ghost use Rattle.sx_base.specs.Bytes.{IsFront};
ghost use Rattle.send_commands.specs.Meaning.{meaning_of, kind_meant, time_of};
ghost use Rattle.send_commands.specs.Writing.{FieldShort, FieldsShort, IsWritable, IsShortEnough, IfSecond, field_of, data_at};

use crate::command::{Command, Time};
use crate::kind::Kind;
use std::alloc::AllocError;
use sx_base::Blob;
use tlv_frame::FrameWriter;
use uuid::Uuid;

// A value of a command.
#[derive(Clone, Copy)]
enum Field<'a> {
    Identifier(Uuid),
    Number(u64),
    ShortNumber(u32),
    Moment(Time),
    Bytes(&'a [u8]),
}

/// Appends the canonical spelling of the command, a frame with the wanted attributes alone in
/// rising order of their numbers, or changes nothing where there is no memory.
pub fn encode(c: &Command<'_>, version: u32, to: &mut Blob) -> Result<(), AllocError>
    requires writable { IsWritable version (meaning_of c.now) }
    requires short { IsShortEnough version (meaning_of c.now) }
    ensures appended { OnOk result (to.new ≡ to.old ++ canonical version (meaning_of c.now)) }
    ensures same { OnErr result (to.new ≡ to.old) }
{
    let start = to.as_slice().len();
    let answer = put_command(c, version, to);
    if answer.is_err() {
        to.cut(start);
    }
    answer
}

/// The place in the canonical spelling of the command where the bytes of a write begin, None for
/// other commands.
#[tactic(auto, unfolding(crate::specs::Writing::data_at, send_model::specs::Spelling::attributes_of, send_model::specs::Command::row))]
pub fn data_place(c: &Command<'_>, version: u32) -> Option<u64>
    ensures place { result ≡ data_at version (meaning_of c.now) }
{
    match c {
        Command::Write { path, .. } => {
            let head = if version == 2 { 28 } else { 30 };
            Some(head + path.len() as u64)
        }
        _ => None,
    }
}

#[tactic(auto, unfolding(send_model::specs::Spelling::canonical, send_model::specs::Spelling::attributes_of, send_model::specs::Command::row, crate::specs::Writing::IsWritable))]
fn put_command(c: &Command<'_>, version: u32, to: &mut Blob) -> Result<(), AllocError>
    requires writable { IsWritable version (meaning_of c.now) }
    requires short { IsShortEnough version (meaning_of c.now) }
    ensures appended { OnOk result (to.new ≡ to.old ++ canonical version (meaning_of c.now)) }
    ensures front { IsFront to.old to.new }
{
    match c {
        Command::Subvol {
            uuid,
            ctransid,
            path,
        } => put(
            Kind::Subvol,
            version,
            &[
                Field::Identifier(*uuid),
                Field::Number(*ctransid),
                Field::Bytes(path),
            ],
            to,
        ),
        Command::Snapshot {
            uuid,
            ctransid,
            path,
            clone_uuid,
            clone_ctransid,
        } => put(
            Kind::Snapshot,
            version,
            &[
                Field::Identifier(*uuid),
                Field::Number(*ctransid),
                Field::Bytes(path),
                Field::Identifier(*clone_uuid),
                Field::Number(*clone_ctransid),
            ],
            to,
        ),
        Command::MkFile { path } => put(Kind::MkFile, version, &[Field::Bytes(path)], to),
        Command::MkDir { path } => put(Kind::MkDir, version, &[Field::Bytes(path)], to),
        Command::MkNod { mode, rdev, path } => put(
            Kind::MkNod,
            version,
            &[
                Field::Number(*mode),
                Field::Number(*rdev),
                Field::Bytes(path),
            ],
            to,
        ),
        Command::MkFifo { path } => put(Kind::MkFifo, version, &[Field::Bytes(path)], to),
        Command::MkSock { path } => put(Kind::MkSock, version, &[Field::Bytes(path)], to),
        Command::Symlink { path, path_link } => put(
            Kind::Symlink,
            version,
            &[Field::Bytes(path), Field::Bytes(path_link)],
            to,
        ),
        Command::Rename { path, path_to } => put(
            Kind::Rename,
            version,
            &[Field::Bytes(path), Field::Bytes(path_to)],
            to,
        ),
        Command::Link { path, path_link } => put(
            Kind::Link,
            version,
            &[Field::Bytes(path), Field::Bytes(path_link)],
            to,
        ),
        Command::Unlink { path } => put(Kind::Unlink, version, &[Field::Bytes(path)], to),
        Command::Rmdir { path } => put(Kind::Rmdir, version, &[Field::Bytes(path)], to),
        Command::SetXattr { name, value, path } => put(
            Kind::SetXattr,
            version,
            &[Field::Bytes(name), Field::Bytes(value), Field::Bytes(path)],
            to,
        ),
        Command::RemoveXattr { name, path } => put(
            Kind::RemoveXattr,
            version,
            &[Field::Bytes(name), Field::Bytes(path)],
            to,
        ),
        Command::Write {
            path,
            offset,
            bytes,
        } => put(
            Kind::Write,
            version,
            &[
                Field::Bytes(path),
                Field::Number(*offset),
                Field::Bytes(bytes),
            ],
            to,
        ),
        Command::Clone {
            path,
            offset,
            clone_uuid,
            clone_ctransid,
            clone_path,
            clone_offset,
            clone_len,
        } => put(
            Kind::Clone,
            version,
            &[
                Field::Bytes(path),
                Field::Number(*offset),
                Field::Identifier(*clone_uuid),
                Field::Number(*clone_ctransid),
                Field::Bytes(clone_path),
                Field::Number(*clone_offset),
                Field::Number(*clone_len),
            ],
            to,
        ),
        Command::Truncate { size, path } => put(
            Kind::Truncate,
            version,
            &[Field::Number(*size), Field::Bytes(path)],
            to,
        ),
        Command::Chmod { mode, path } => put(
            Kind::Chmod,
            version,
            &[Field::Number(*mode), Field::Bytes(path)],
            to,
        ),
        Command::Chown { uid, gid, path } => put(
            Kind::Chown,
            version,
            &[Field::Number(*uid), Field::Number(*gid), Field::Bytes(path)],
            to,
        ),
        Command::Utimes { mtime, atime, path } => put(
            Kind::Utimes,
            version,
            &[
                Field::Moment(*mtime),
                Field::Moment(*atime),
                Field::Bytes(path),
            ],
            to,
        ),
        Command::End => put(Kind::End, version, &[], to),
        Command::UpdateExtent { size, path, offset } => put(
            Kind::UpdateExtent,
            version,
            &[
                Field::Number(*size),
                Field::Bytes(path),
                Field::Number(*offset),
            ],
            to,
        ),
        Command::Fallocate {
            size,
            path,
            offset,
            mode,
        } => put(
            Kind::Fallocate,
            version,
            &[
                Field::Number(*size),
                Field::Bytes(path),
                Field::Number(*offset),
                Field::ShortNumber(*mode),
            ],
            to,
        ),
        Command::FileAttr { path, flags } => put(
            Kind::FileAttr,
            version,
            &[Field::Bytes(path), Field::Number(*flags)],
            to,
        ),
    }
}

// Appends a frame of the command with these values of its wanted attributes. Without memory the
// blob begins with the bytes that it had.
fn put(kind: Kind, version: u32, fields: &[Field<'_>], to: &mut Blob) -> Result<(), AllocError>
    requires values { FieldsShort version (row (kind_meant kind)).wanted (map field_of fields.now) }
    requires short { IfSecond (version == 2)
        (length
        (body_of version (with_fields (row (kind_meant kind)).wanted (map field_of fields.now)))
        ≤ greatest_body) }
    requires count { length fields.now ≡ length (row (kind_meant kind)).wanted }
    ensures appended { OnOk result
        (to.new ≡ to.old
        ++ frame_of (row (kind_meant kind)).number
        (body_of version (with_fields (row (kind_meant kind)).wanted (map field_of fields.now)))) }
    ensures front { IsFront to.old to.new }
{
    let wanted = kind.wanted();
    let mut writer = FrameWriter::begin(to, kind.number(), version)?;
    for i in 0..fields.len() {
        put_field(&mut writer, to, wanted[i], &fields[i])?;
    }
    writer.finish(to);
    Ok(())
}

// Appends an attribute with this value. Without memory the blob begins with the bytes that it had.
fn put_field(
    writer: &mut FrameWriter,
    to: &mut Blob,
    kind: u16,
    field: &Field<'_>,
) -> Result<(), AllocError>
    requires short { FieldShort writer.old.version kind (field_of field.now) }
    ensures appended { OnOk result
        (to.new ≡ to.old
        ++ attribute_bytes writer.old.version
        (record { kind = kind; bytes = field_bytes (field_of field.now) })) }
    ensures front { IsFront to.old to.new }
    ensures short { OnOk result
        ((writer.old.version == 2) ≡ false → length to.new < length to.old + 65_540) }
    ensures writer { writer.new ≡ writer.old }
{
    match field {
        Field::Identifier(uuid) => writer.attr_bytes(to, kind, uuid.as_bytes()),
        Field::Number(n) => writer.attr_u64(to, kind, *n),
        Field::ShortNumber(n) => writer.attr_bytes(to, kind, &n.to_le_bytes()),
        Field::Moment(time) => writer.attr_bytes(to, kind, &time.bytes()),
        Field::Bytes(bytes) => writer.attr_bytes(to, kind, bytes),
    }
}
