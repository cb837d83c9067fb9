// The command that makes an inode.
ghost use Rattle.std.specs.Prelude.{◌≡◌, ◌++◌, OnOk};
ghost use Rattle.send_commands.specs.Meaning.{meaning_of};
ghost use Rattle.snapshot_model.specs.Sent.{making};
ghost use Rattle.inode_commands.specs.Spelled.{IsShortPath, IsSaid};

use crate::form::Form;
use crate::spelling::Spelling;
use extent_map::Origin;
use inode_tree::{Inode, NodeKind};
use send_commands::Command;
use std::alloc::AllocError;
use sx_base::Blob;

// The type of MKNOD's mode: a character device, and a block device. Source: inode(7).
const CHARACTER: u64 = 0o020_000;

const BLOCK: u64 = 0o060_000;

impl<F: Form> Spelling<F> {
    /// Appends the command that makes an inode at a path.
    pub fn making<R: Origin>(
        &self,
        path: &[u8],
        inode: &Inode<R>,
        to: &mut Blob,
    ) -> Result<(), AllocError>
        requires short { IsShortPath path.now }
        requires said { IsSaid inode.now }
        ensures added { OnOk result (to.new ≡ to.old
            ++ F.spelled self.now.version (making path.now inode.now.kind inode.now)) }
    {
        self.push(&making(path, inode), to)
    }
}

// The command that makes an inode at a path.
fn making<'a, R: Origin>(path: &'a [u8], inode: &'a Inode<R>) -> Command<'a>
    ensures { meaning_of result ≡ making path.now inode.now.kind inode.now }
{
    match inode.kind() {
        NodeKind::File => Command::MkFile { path },
        NodeKind::Directory => Command::MkDir { path },
        NodeKind::SymbolicLink => Command::Symlink {
            path,
            path_link: inode.target(),
        },
        NodeKind::CharacterDevice => Command::MkNod {
            mode: CHARACTER,
            rdev: inode.rdev(),
            path,
        },
        NodeKind::BlockDevice => Command::MkNod {
            mode: BLOCK,
            rdev: inode.rdev(),
            path,
        },
        NodeKind::Fifo => Command::MkFifo { path },
        NodeKind::Socket => Command::MkSock { path },
    }
}
