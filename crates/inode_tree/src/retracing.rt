// Giving the contents of inodes origins of their own.
ghost use Rattle.std.specs.Prelude.{◌≡◌, map, IfOk};
ghost use Rattle.inode_tree.specs.Retraced.{retraced_inode, retraced, AreReached};

use crate::inode::Inode;
use crate::starts::Starts;
use crate::tree::Tree;
use crate::walked::LastWalks;
use extent_map::Origin;
use shared_map::{Shared, SharedMap};
use std::alloc::{AllocError, Global};

impl<O: Origin> Tree<O> {
    /// A tree of the same inodes and names, where the contents of each inode are one run of their
    /// old size from the start of its number. It shares the names, and no inode. Fails for want of
    /// memory alone.
    pub fn retraced<P: Origin, S: Starts<P>>(&self, starts: &S) -> Result<Tree<P>, AllocError>
        requires { AreReached P.reach (S.starts starts.now) self.now.inodes }
        ensures { IfOk result (λ tree. tree ≡ retraced P.advanced (S.starts starts.now) self.now) }
    {
        Ok(Tree {
            inodes: retraced_inodes(&self.inodes, self.alloc, starts)?,
            names: self.names.copy()?,
            further: self.further.copy()?,
            next: self.next,
            alloc: self.alloc,
            copied: 0,
            whole: self.whole,
            last: LastWalks::new(self.alloc),
        })
    }
}

// The same inodes, each with the run from its start.
fn retraced_inodes<O: Origin, P: Origin, S: Starts<P>>(
    inodes: &SharedMap<u64, Shared<Inode<O>>>,
    alloc: Global,
    starts: &S,
) -> Result<SharedMap<u64, Shared<Inode<P>>>, AllocError>
    requires { AreReached P.reach (S.starts starts.now) inodes.now }
    ensures { IfOk result
        (λ there. there ≡ map (λ e. (e.0, retraced_inode P.advanced (S.starts starts.now) e.0 e.1))
        inodes.now) }
{
    let mut there = SharedMap::new(alloc);
    for (ino, inode) in inodes.iter() {
        let inode = inode.get().retraced(alloc, starts.start(*ino))?;
        there.insert(ino, Shared::new(alloc, inode)?)?;
    }
    Ok(there)
}
