// Commands that are read from the attributes of a frame.
ghost use Rattle.std.specs.Prelude.{◌≡◌, true, List, IfOk};
ghost use Rattle.send_model.specs.Command.{row, is_encoded, command_with};
ghost use Rattle.send_model.specs.Spelling.{Attribute};
ghost use Rattle.send_model.specs.Reading.{command_of};
ghost use Rattle.tlv_frame.specs.Table.{StandsFor};
ghost use Rattle.sx_base.specs.Answers.{Reads};
ghost use Rattle.send_commands.specs.Meaning.{meaning_of, kind_meant};
ghost use Rattle.send_commands.specs.Values.{bytes_in, HaveForms, are_timely};
ghost use Rattle.send_commands.specs.Writing.{IsWritable};

use crate::command::Command;
use crate::kind::Kind;
use crate::values::{bytes, identifier, moment, number, short_number};
use crate::wanted::{find_wanted, times_lawful};
use sx_base::Refusal;
use tlv_frame::AttrTable;
use tlv_frame::attribute_numbers::*;

// The number of the command ENCODED_WRITE of version 2.
const ENCODED_WRITE: u16 = 25;

/// The command of this number with these attributes, in the version that they were read in. Encoded
/// where the number is that of a write of compressed bytes, which version 2 has; UnknownCommand
/// where no command of the version has the number; then for the first wanted attribute, in rising
/// order, MissingAttribute where it is not there and BadAttribute where it has a wrong length; then
/// BadTime where a time has 1,000,000,000 nanoseconds or more. What is read can be written by
/// `encode`, and its bytes stay where the table has them. Takes no memory.
pub fn decode<'a>(cmd: u16, table: &AttrTable<'a>) -> Result<Command<'a>, Refusal>
    ensures exact { (attributes : List Attribute) → StandsFor table.now attributes
        → Reads meaning_of result (command_of table.now.version cmd attributes) }
    ensures writable { IfOk result (λ command. IsWritable table.now.version (meaning_of command)) }
{
    match lawful_kind(cmd, table) {
        Ok(kind) => Ok(command_in(kind, table)),
        Err(refusal) => Err(refusal),
    }
}

/// Which command it is, where it has a number of the version and lawful attributes: it refuses what
/// `decode` refuses, in the same order. The values of the attributes are those of the command.
/// Takes no memory.
pub fn lawful_kind(cmd: u16, table: &AttrTable<'_>) -> Result<Kind, Refusal>
    ensures exact { (attributes : List Attribute) → StandsFor table.now attributes
        → Reads (λ kind. command_with (kind_meant kind) (bytes_in table.now)) result
        (command_of table.now.version cmd attributes) }
    ensures forms { IfOk result (λ kind. HaveForms table.now (row (kind_meant kind)).wanted) }
    ensures timely { IfOk result
        (λ kind. are_timely table.now (row (kind_meant kind)).wanted ≡ true) }
{
    if is_compressed_write(table.version(), cmd) {
        return Err(Refusal::Encoded);
    }
    let Some(kind) = Kind::from_number(table.version(), cmd) else {
        return Err(Refusal::UnknownCommand(cmd));
    };
    match find_wanted(table, kind.wanted()) {
        Ok(()) => {}
        Err(refusal) => return Err(refusal),
    }
    if !times_lawful(table, kind) {
        return Err(Refusal::BadTime);
    }
    Ok(kind)
}

// Whether the number is that of ENCODED_WRITE, which is never taken.
fn is_compressed_write(version: u32, cmd: u16) -> bool
    ensures { result ≡ is_encoded version cmd }
{
    version == 2 && cmd == ENCODED_WRITE
}

// The command of this name with the values of its attributes, which are lawful.
#[tactic(auto, unfolding(crate::specs::Writing::IsWritable, send_model::specs::Command::row, send_model::specs::Attribute::form_of))]
fn command_in<'a>(kind: Kind, table: &AttrTable<'a>) -> Command<'a>
    requires forms { HaveForms table.now (row (kind_meant kind)).wanted }
    requires timely { are_timely table.now (row (kind_meant kind)).wanted ≡ true }
    ensures exact { meaning_of result ≡ command_with (kind_meant kind) (bytes_in table.now) }
    ensures writable { IsWritable table.now.version (meaning_of result) }
{
    match kind {
        Kind::Subvol => Command::Subvol {
            uuid: identifier(table, UUID),
            ctransid: number(table, CTRANSID),
            path: bytes(table, PATH),
        },
        Kind::Snapshot => Command::Snapshot {
            uuid: identifier(table, UUID),
            ctransid: number(table, CTRANSID),
            path: bytes(table, PATH),
            clone_uuid: identifier(table, CLONE_UUID),
            clone_ctransid: number(table, CLONE_CTRANSID),
        },
        Kind::MkFile => Command::MkFile {
            path: bytes(table, PATH),
        },
        Kind::MkDir => Command::MkDir {
            path: bytes(table, PATH),
        },
        Kind::MkNod => Command::MkNod {
            mode: number(table, MODE),
            rdev: number(table, RDEV),
            path: bytes(table, PATH),
        },
        Kind::MkFifo => Command::MkFifo {
            path: bytes(table, PATH),
        },
        Kind::MkSock => Command::MkSock {
            path: bytes(table, PATH),
        },
        Kind::Symlink => Command::Symlink {
            path: bytes(table, PATH),
            path_link: bytes(table, PATH_LINK),
        },
        Kind::Rename => Command::Rename {
            path: bytes(table, PATH),
            path_to: bytes(table, PATH_TO),
        },
        Kind::Link => Command::Link {
            path: bytes(table, PATH),
            path_link: bytes(table, PATH_LINK),
        },
        Kind::Unlink => Command::Unlink {
            path: bytes(table, PATH),
        },
        Kind::Rmdir => Command::Rmdir {
            path: bytes(table, PATH),
        },
        Kind::SetXattr => Command::SetXattr {
            name: bytes(table, XATTR_NAME),
            value: bytes(table, XATTR_DATA),
            path: bytes(table, PATH),
        },
        Kind::RemoveXattr => Command::RemoveXattr {
            name: bytes(table, XATTR_NAME),
            path: bytes(table, PATH),
        },
        Kind::Write => Command::Write {
            path: bytes(table, PATH),
            offset: number(table, FILE_OFFSET),
            bytes: bytes(table, DATA),
        },
        Kind::Clone => Command::Clone {
            path: bytes(table, PATH),
            offset: number(table, FILE_OFFSET),
            clone_uuid: identifier(table, CLONE_UUID),
            clone_ctransid: number(table, CLONE_CTRANSID),
            clone_path: bytes(table, CLONE_PATH),
            clone_offset: number(table, CLONE_OFFSET),
            clone_len: number(table, CLONE_LEN),
        },
        Kind::Truncate => Command::Truncate {
            size: number(table, SIZE),
            path: bytes(table, PATH),
        },
        Kind::Chmod => Command::Chmod {
            mode: number(table, MODE),
            path: bytes(table, PATH),
        },
        Kind::Chown => Command::Chown {
            uid: number(table, UID),
            gid: number(table, GID),
            path: bytes(table, PATH),
        },
        Kind::Utimes => Command::Utimes {
            mtime: moment(table, MTIME),
            atime: moment(table, ATIME),
            path: bytes(table, PATH),
        },
        Kind::End => Command::End,
        Kind::UpdateExtent => Command::UpdateExtent {
            size: number(table, SIZE),
            path: bytes(table, PATH),
            offset: number(table, FILE_OFFSET),
        },
        Kind::Fallocate => Command::Fallocate {
            size: number(table, SIZE),
            path: bytes(table, PATH),
            offset: number(table, FILE_OFFSET),
            mode: short_number(table, FALLOCATE_MODE),
        },
        Kind::FileAttr => Command::FileAttr {
            path: bytes(table, PATH),
            flags: number(table, FILE_FLAGS),
        },
    }
}
