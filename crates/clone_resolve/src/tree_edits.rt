// Commands that change names and attributes.
ghost use Rattle.std.specs.Prelude.{◌≡◌, false, None, []};
ghost use Rattle.send_model.specs.Edit as edit;
ghost use Rattle.send_commands.specs.Meaning.{meaning_of};
ghost use Rattle.sx_base.specs.Answers.{MayChange};
ghost use Rattle.inode_tree.specs.Kinds.{kind_of, new_of_kind};
ghost use Rattle.inode_tree.specs.Kinds as tree_times;
ghost use Rattle.send_commands.specs.Meaning.{time_of};
ghost use Rattle.clone_resolve.specs.Steps.{is_of_contents};

use extent_map::Origin;
use inode_tree::{NodeKind, Timestamp, Tree};
use send_commands::{Command, Time};
use sx_base::{Refusal, Stop};

// The bits of a mode that say what is made, and those of the two kinds of device. Source: inode(7).
const FORMAT_BITS: u64 = 0o170_000;

const CHARACTER_DEVICE: u64 = 0o020_000;

const BLOCK_DEVICE: u64 = 0o060_000;

/// A command that changes names or attributes; one that changes neither changes nothing. After
/// `NoMemory` nothing is said of the tree.
///
/// # Errors
/// The refusals of the command, after which the tree is unchanged.
#[tactic(auto, unfolding(send_model::specs::Edit::edit))]
pub(crate) fn edit_tree<O: Origin>(tree: &mut Tree<O>, c: &Command<'_>) -> Result<(), Stop>
    requires tree { is_of_contents (meaning_of c.now) ≡ false }
    ensures { MayChange result tree.old tree.new (edit.edit None [] (meaning_of c.now) tree.old) }
{
    match c {
        Command::MkFile { path } => make(tree, path, NodeKind::File, 0, b""),
        Command::MkDir { path } => make(tree, path, NodeKind::Directory, 0, b""),
        Command::MkNod { mode, rdev, path } => make_device(tree, *mode, *rdev, path),
        Command::MkFifo { path } => make(tree, path, NodeKind::Fifo, 0, b""),
        Command::MkSock { path } => make(tree, path, NodeKind::Socket, 0, b""),
        Command::Symlink { path, path_link } => {
            make(tree, path, NodeKind::SymbolicLink, 0, path_link)
        }
        Command::Rename { path, path_to } => tree.rename(path, path_to),
        Command::Link { path, path_link } => tree.link(path, path_link),
        Command::Unlink { path } => tree.unlink(path),
        Command::Rmdir { path } => tree.rmdir(path),
        Command::SetXattr { name, value, path } => { tree.set_xattr(path, name, value) }
        Command::RemoveXattr { name, path } => tree.remove_xattr(path, name),
        Command::Chmod { mode, path } => { tree.set_mode(path, (*mode % 0o10_000) as u16) }
        Command::Chown { uid, gid, path } => tree.set_owner(path, *uid, *gid),
        Command::Utimes { mtime, atime, path } => {
            tree.set_times(path, timestamp(atime), timestamp(mtime))
        }
        Command::FileAttr { path, flags } => tree.set_flags(path, *flags),
        Command::UpdateExtent { .. }
        | Command::Write { .. }
        | Command::Truncate { .. }
        | Command::Fallocate { .. }
        | Command::Clone { .. }
        | Command::Subvol { .. }
        | Command::Snapshot { .. }
        | Command::End => Ok(()),
    }
}

// Makes an inode under a path.
fn make<O: Origin>(
    tree: &mut Tree<O>,
    path: &[u8],
    kind: NodeKind,
    rdev: u64,
    target: &[u8],
) -> Result<(), Stop>
    ensures { MayChange result tree.old tree.new
        (edit.make (new_of_kind (kind_of kind) rdev target.now) path.now tree.old) }
{
    let _number = tree.make(path, kind, rdev, target)?;
    Ok(())
}

// Makes the device that a mode says.
#[tactic(auto, unfolding(send_model::specs::Edit::make_device))]
fn make_device<O: Origin>(tree: &mut Tree<O>, mode: u64, rdev: u64, path: &[u8]) -> Result<(), Stop>
    ensures { MayChange result tree.old tree.new (edit.make_device mode rdev path.now tree.old) }
{
    let format = mode & FORMAT_BITS;
    if format == CHARACTER_DEVICE {
        return make(tree, path, NodeKind::CharacterDevice, rdev, b"");
    }
    if format == BLOCK_DEVICE {
        return make(tree, path, NodeKind::BlockDevice, rdev, b"");
    }
    Err(Stop::Refused(Refusal::BadDevice))
}

// A time of a command as that of an inode.
fn timestamp(time: &Time) -> Timestamp
    ensures { tree_times.time_of result ≡ time_of time.now }
{
    Timestamp {
        secs: time.secs,
        nanos: time.nanos,
    }
}
