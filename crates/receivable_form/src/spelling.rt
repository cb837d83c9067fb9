// Commands in the receivable spelling.
ghost use Rattle.std.specs.Prelude.{◌≡◌, ◌∷◌, ◌++◌, ◌<◌, ◌^◌, OnOk, [], length};
ghost use Rattle.send_model.specs.Attribute.{PATH};
ghost use Rattle.send_model.specs.Command.{MkNod, Symlink, Utimes, row};
ghost use Rattle.send_model.specs.Spelling.{body_of, frame_of};
ghost use Rattle.send_model.specs.Receivable.{number_zero, asked_for, receivable};
ghost use Rattle.send_commands.specs.Meaning.{meaning_of, kind_meant, time_of};
ghost use Rattle.send_commands.specs.Writing.{IsWritable, IsShortEnough};
ghost use Rattle.sx_base.specs.Bytes.{IsFront};

use send_commands::{Command, Kind, Time, encode};
use std::alloc::AllocError;
use sx_base::Blob;
use tlv_frame::FrameWriter;
use tlv_frame::attribute_numbers::{
    ATIME, CTIME, INO, MODE, MTIME, PATH as PATH_NUMBER, PATH_LINK, RDEV,
};

/// Appends a command in the receivable spelling of a version, 1 or 2. One of which more is asked
/// than its wanted attributes is spelled attribute by attribute; the number of an inode that is
/// made is 0. Fails for want of memory alone; then a part of the frame may stand behind what stood
/// there.
#[tactic(auto, unfolding(send_model::specs::Receivable::receivable, send_model::specs::Receivable::receivable_attributes, send_model::specs::Spelling::attributes_of, send_model::specs::Command::row, send_commands::specs::Writing::IsWritable), using(crate::proofs::Frames::short_text))]
pub fn push_receivable(command: &Command<'_>, version: u32, to: &mut Blob) -> Result<(), AllocError>
    requires writable { IsWritable version (meaning_of command.now) }
    requires short { IsShortEnough version (meaning_of command.now) }
    ensures added { OnOk result
        (to.new ≡ to.old ++ receivable version (meaning_of command.now)) }
    ensures kept { IsFront to.old to.new }
{
    match command {
        Command::MkFile { path } => push_made(Kind::MkFile, path, version, to),
        Command::MkDir { path } => push_made(Kind::MkDir, path, version, to),
        Command::MkFifo { path } => push_made(Kind::MkFifo, path, version, to),
        Command::MkSock { path } => push_made(Kind::MkSock, path, version, to),
        Command::MkNod { mode, rdev, path } => { push_device(*mode, *rdev, path, version, to) }
        Command::Symlink { path, path_link } => { push_symlink(path, path_link, version, to) }
        Command::Utimes { mtime, atime, path } => { push_times(*mtime, *atime, path, version, to) }
        Command::Subvol { .. } => push_plain(command, version, to),
        Command::Snapshot { .. } => push_plain(command, version, to),
        Command::Rename { .. } => push_plain(command, version, to),
        Command::Link { .. } => push_plain(command, version, to),
        Command::Unlink { .. } => push_plain(command, version, to),
        Command::Rmdir { .. } => push_plain(command, version, to),
        Command::SetXattr { .. } => push_plain(command, version, to),
        Command::RemoveXattr { .. } => push_plain(command, version, to),
        Command::Write { .. } => push_plain(command, version, to),
        Command::Clone { .. } => push_plain(command, version, to),
        Command::Truncate { .. } => push_plain(command, version, to),
        Command::Chmod { .. } => push_plain(command, version, to),
        Command::Chown { .. } => push_plain(command, version, to),
        Command::End => push_plain(command, version, to),
        Command::UpdateExtent { .. } => push_plain(command, version, to),
        Command::Fallocate { .. } => push_plain(command, version, to),
        Command::FileAttr { .. } => push_plain(command, version, to),
    }
}

// The same for a command of which nothing more is asked, so that the canonical spelling is the
// receivable one.
#[tactic(auto, using(crate::proofs::Frames::plain_is))]
fn push_plain(command: &Command<'_>, version: u32, to: &mut Blob) -> Result<(), AllocError>
    requires plain { asked_for (meaning_of command.now) ≡ [] }
    requires writable { IsWritable version (meaning_of command.now) }
    requires short { IsShortEnough version (meaning_of command.now) }
    ensures added { OnOk result
        (to.new ≡ to.old ++ receivable version (meaning_of command.now)) }
    ensures kept { IsFront to.old to.new }
{
    encode(command, version, to)
}

// Appends a command that makes an inode by its path alone.
fn push_made(kind: Kind, path: &[u8], version: u32, to: &mut Blob) -> Result<(), AllocError>
    requires short { length path.now < 2 ^ 16 }
    ensures added { OnOk result
        (to.new ≡ to.old
        ++ frame_of (row (kind_meant kind)).number
        (body_of version (number_zero ∷ record { kind = PATH; bytes = path.now } ∷ []))) }
    ensures kept { IsFront to.old to.new }
{
    let mut writer = FrameWriter::begin(to, kind.number(), version)?;
    writer.attr_u64(to, INO, 0)?;
    writer.attr_bytes(to, PATH_NUMBER, path)?;
    writer.finish(to);
    Ok(())
}

// Appends a MKNOD.
fn push_device(
    mode: u64,
    rdev: u64,
    path: &[u8],
    version: u32,
    to: &mut Blob,
) -> Result<(), AllocError>
    requires short { length path.now < 2 ^ 16 }
    ensures added { OnOk result (to.new ≡ to.old ++ receivable version (MkNod mode rdev path.now)) }
    ensures kept { IsFront to.old to.new }
{
    let mut writer = FrameWriter::begin(to, Kind::MkNod.number(), version)?;
    writer.attr_u64(to, INO, 0)?;
    writer.attr_u64(to, MODE, mode)?;
    writer.attr_u64(to, RDEV, rdev)?;
    writer.attr_bytes(to, PATH_NUMBER, path)?;
    writer.finish(to);
    Ok(())
}

// Appends a SYMLINK.
fn push_symlink(
    path: &[u8],
    path_link: &[u8],
    version: u32,
    to: &mut Blob,
) -> Result<(), AllocError>
    requires short { length path.now < 2 ^ 16 }
    requires short_link { length path_link.now < 2 ^ 16 }
    ensures added { OnOk result
        (to.new ≡ to.old ++ receivable version (Symlink path.now path_link.now)) }
    ensures kept { IsFront to.old to.new }
{
    let mut writer = FrameWriter::begin(to, Kind::Symlink.number(), version)?;
    writer.attr_u64(to, INO, 0)?;
    writer.attr_bytes(to, PATH_NUMBER, path)?;
    writer.attr_bytes(to, PATH_LINK, path_link)?;
    writer.finish(to);
    Ok(())
}

/// Appends UTIMES in the receivable spelling of a version, 1 or 2. The time of the last change is
/// that of the contents. Fails for want of memory alone; then a part of the frame may stand behind
/// what stood there.
pub fn push_times(
    mtime: Time,
    atime: Time,
    path: &[u8],
    version: u32,
    to: &mut Blob,
) -> Result<(), AllocError>
    requires short { length path.now < 2 ^ 16 }
    ensures added { OnOk result
        (to.new ≡ to.old ++ receivable version (Utimes (time_of mtime) (time_of atime) path.now)) }
    ensures kept { IsFront to.old to.new }
{
    let mut writer = FrameWriter::begin(to, Kind::Utimes.number(), version)?;
    writer.attr_bytes(to, CTIME, &mtime.bytes())?;
    writer.attr_bytes(to, MTIME, &mtime.bytes())?;
    writer.attr_bytes(to, ATIME, &atime.bytes())?;
    writer.attr_bytes(to, PATH_NUMBER, path)?;
    writer.finish(to);
    Ok(())
}
