// A command's name and values as text.
ghost use Rattle.std.specs.Prelude.{◌≡◌, ◌++◌, OnOk, length, map};
ghost use Rattle.send_model.specs.Command.{row};
ghost use Rattle.send_model.specs.Lines.{values_with};
ghost use Rattle.send_commands.specs.Meaning.{meaning_of, kind_meant};
ghost use Rattle.stream_dump.specs.Values.{field_of, form_of, command_text};
ghost use Rattle.sx_base.specs.Bytes.{IsFront};

use crate::values::{Contents, Value, push_values};
use send_commands::{Command, Kind};
use std::alloc::AllocError;
use sx_base::Blob;

/// Appends a command's name and the values of its wanted attributes.
#[tactic(auto, unfolding(crate::specs::Values::command_text, send_model::specs::Command::row))]
pub fn push_command(
    command: &Command<'_>,
    contents: Contents,
    to: &mut Blob,
) -> Result<(), AllocError>
    ensures pushed { OnOk result
        (to.new ≡ to.old ++ command_text (form_of contents) (meaning_of command.now)) }
    ensures kept { IsFront to.old to.new }
{
    match command {
        Command::Subvol {
            uuid,
            ctransid,
            path,
        } => put(
            Kind::Subvol,
            &[
                Value::Identifier(*uuid),
                Value::Number(*ctransid),
                Value::Bytes(path),
            ],
            contents,
            to,
        ),
        Command::Snapshot {
            uuid,
            ctransid,
            path,
            clone_uuid,
            clone_ctransid,
        } => put(
            Kind::Snapshot,
            &[
                Value::Identifier(*uuid),
                Value::Number(*ctransid),
                Value::Bytes(path),
                Value::Identifier(*clone_uuid),
                Value::Number(*clone_ctransid),
            ],
            contents,
            to,
        ),
        Command::MkFile { path } => put(Kind::MkFile, &[Value::Bytes(path)], contents, to),
        Command::MkDir { path } => put(Kind::MkDir, &[Value::Bytes(path)], contents, to),
        Command::MkNod { mode, rdev, path } => put(
            Kind::MkNod,
            &[
                Value::Number(*mode),
                Value::Number(*rdev),
                Value::Bytes(path),
            ],
            contents,
            to,
        ),
        Command::MkFifo { path } => put(Kind::MkFifo, &[Value::Bytes(path)], contents, to),
        Command::MkSock { path } => put(Kind::MkSock, &[Value::Bytes(path)], contents, to),
        Command::Symlink { path, path_link } => put(
            Kind::Symlink,
            &[Value::Bytes(path), Value::Bytes(path_link)],
            contents,
            to,
        ),
        Command::Rename { path, path_to } => put(
            Kind::Rename,
            &[Value::Bytes(path), Value::Bytes(path_to)],
            contents,
            to,
        ),
        Command::Link { path, path_link } => put(
            Kind::Link,
            &[Value::Bytes(path), Value::Bytes(path_link)],
            contents,
            to,
        ),
        Command::Unlink { path } => put(Kind::Unlink, &[Value::Bytes(path)], contents, to),
        Command::Rmdir { path } => put(Kind::Rmdir, &[Value::Bytes(path)], contents, to),
        Command::SetXattr { name, value, path } => put(
            Kind::SetXattr,
            &[Value::Bytes(name), Value::Bytes(value), Value::Bytes(path)],
            contents,
            to,
        ),
        Command::RemoveXattr { name, path } => put(
            Kind::RemoveXattr,
            &[Value::Bytes(name), Value::Bytes(path)],
            contents,
            to,
        ),
        Command::Write {
            path,
            offset,
            bytes,
        } => put(
            Kind::Write,
            &[
                Value::Bytes(path),
                Value::Number(*offset),
                Value::Bytes(bytes),
            ],
            contents,
            to,
        ),
        Command::Clone {
            path,
            offset,
            clone_uuid,
            clone_ctransid,
            clone_path,
            clone_offset,
            clone_len,
        } => put(
            Kind::Clone,
            &[
                Value::Bytes(path),
                Value::Number(*offset),
                Value::Identifier(*clone_uuid),
                Value::Number(*clone_ctransid),
                Value::Bytes(clone_path),
                Value::Number(*clone_offset),
                Value::Number(*clone_len),
            ],
            contents,
            to,
        ),
        Command::Truncate { size, path } => put(
            Kind::Truncate,
            &[Value::Number(*size), Value::Bytes(path)],
            contents,
            to,
        ),
        Command::Chmod { mode, path } => put(
            Kind::Chmod,
            &[Value::Number(*mode), Value::Bytes(path)],
            contents,
            to,
        ),
        Command::Chown { uid, gid, path } => put(
            Kind::Chown,
            &[Value::Number(*uid), Value::Number(*gid), Value::Bytes(path)],
            contents,
            to,
        ),
        Command::Utimes { mtime, atime, path } => put(
            Kind::Utimes,
            &[
                Value::Moment(*mtime),
                Value::Moment(*atime),
                Value::Bytes(path),
            ],
            contents,
            to,
        ),
        Command::End => put(Kind::End, &[], contents, to),
        Command::UpdateExtent { size, path, offset } => put(
            Kind::UpdateExtent,
            &[
                Value::Number(*size),
                Value::Bytes(path),
                Value::Number(*offset),
            ],
            contents,
            to,
        ),
        Command::Fallocate {
            size,
            path,
            offset,
            mode,
        } => put(
            Kind::Fallocate,
            &[
                Value::Number(*size),
                Value::Bytes(path),
                Value::Number(*offset),
                Value::ShortNumber(*mode),
            ],
            contents,
            to,
        ),
        Command::FileAttr { path, flags } => put(
            Kind::FileAttr,
            &[Value::Bytes(path), Value::Number(*flags)],
            contents,
            to,
        ),
    }
}

// Appends the name of the command and these values.
fn put(
    kind: Kind,
    values: &[Value<'_>],
    contents: Contents,
    to: &mut Blob,
) -> Result<(), AllocError>
    requires count { length values.now ≡ length (row (kind_meant kind)).wanted }
    ensures pushed { OnOk result
        (to.new ≡ to.old ++ (row (kind_meant kind)).name
        ++ values_with (form_of contents) (row (kind_meant kind)).wanted (map field_of values.now)) }
    ensures kept { IsFront to.old to.new }
{
    to.push_all(command_name(kind))?;
    push_values(kind, values, contents, to)
}

/// The name of the command.
#[tactic(auto, unfolding(send_model::specs::Command::row))]
pub fn command_name(kind: Kind) -> &'static [u8]
    ensures name { result.now ≡ (row (kind_meant kind)).name }
{
    match kind {
        Kind::Subvol => b"SUBVOL",
        Kind::Snapshot => b"SNAPSHOT",
        Kind::MkFile => b"MKFILE",
        Kind::MkDir => b"MKDIR",
        Kind::MkNod => b"MKNOD",
        Kind::MkFifo => b"MKFIFO",
        Kind::MkSock => b"MKSOCK",
        Kind::Symlink => b"SYMLINK",
        Kind::Rename => b"RENAME",
        Kind::Link => b"LINK",
        Kind::Unlink => b"UNLINK",
        Kind::Rmdir => b"RMDIR",
        Kind::SetXattr => b"SET_XATTR",
        Kind::RemoveXattr => b"REMOVE_XATTR",
        Kind::Write => b"WRITE",
        Kind::Clone => b"CLONE",
        Kind::Truncate => b"TRUNCATE",
        Kind::Chmod => b"CHMOD",
        Kind::Chown => b"CHOWN",
        Kind::Utimes => b"UTIMES",
        Kind::End => b"END",
        Kind::UpdateExtent => b"UPDATE_EXTENT",
        Kind::Fallocate => b"FALLOCATE",
        Kind::FileAttr => b"FILEATTR",
    }
}
