// Tracing a complete subvolume to itself.
ghost use Rattle.std.specs.Prelude.{◌≡◌, IfOk};
ghost use Rattle.inode_tree.specs.Retraced.{retraced};
ghost use Rattle.subvol_catalog.specs.Entries.{key_of};
ghost use Rattle.provenance.specs.Traces.{first_of, advanced_by, IsTracedTo};

use crate::trace::Trace;
use extent_map::Origin;
use inode_tree::Starts;
use std::alloc::AllocError;
use subvol::Subvol;
use subvol_catalog::Key;

/// The first places of the inodes of one subvolume.
#[derive(Drop)]
struct Firsts {
    key: Key,
}

impl Starts<Trace> for Firsts {
    ghost use Rattle.provenance.specs.Traces.{first_of};

    ghost starts = { λ firsts ino. first_of firsts.key ino };

    fn start(&self, ino: u64) -> Trace {
        Trace::Outside {
            key: self.key,
            ino,
            at: 0,
        }
    }
}

/// The same inodes and names as `sub`, where each byte of a file comes from its own place in the
/// subvolume that `key` names: what provenance begins with for a complete subvolume whose files
/// have these sizes. Fails for want of memory alone.
pub fn retag<R: Origin>(sub: &Subvol<R>, key: Key) -> Result<Subvol<Trace>, AllocError>
    ensures tree { IfOk result (λ traced. traced ≡ retraced advanced_by (first_of key) sub.now) }
    ensures places { IfOk result (IsTracedTo (key_of key) sub.now) }
{
    sub.retraced(&Firsts { key })
}
