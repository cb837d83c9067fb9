// The subvolume itself.
ghost use Rattle.std.specs.Prelude.{◌≡◌, IfOk};
ghost use Rattle.std.specs.Borrow.{Lends, sem};
ghost use Rattle.send_model.specs.Subvolume.{root_alone};
ghost use Rattle.inode_tree.specs.Retraced.{retraced, AreReached};
ghost use Rattle.inode_tree.specs.contracts.tree.Tree.{the_row as tree_row};
ghost use Rattle.subvol.specs.contracts.subvol.Subvol.{the_row};

use extent_map::Origin;
use inode_tree::{Starts, Tree};
use std::alloc::{AllocError, Global};
use std::marker::Model;

/// The inodes, names and contents of a subvolume, seen as that of the definitions over cells that
/// are an origin or zero. A copy shares all that neither changes.
#[derive(Debug, Drop)]
pub struct Subvol<O: Origin> {
    pub(crate) tree: Tree<O>,
    pub(crate) alloc: Global,
}

impl<O: Origin> Model for Subvol<O> {
    ghost use Rattle.std.specs.Prelude.{Option};
    ghost use Rattle.send_model.specs.Subvolume.{Subvolume};

    ghost Value = { Subvolume (Option O) };

    ghost view = { λ s. s.tree };
}

impl<O: Origin> Subvol<O> {
    /// A root alone. Fails for want of memory alone.
    pub fn new_root(alloc: Global) -> Result<Subvol<O>, AllocError>
        ensures { IfOk result (λ subvol. subvol ≡ root_alone) }
    {
        Ok(Subvol {
            tree: Tree::new(alloc)?,
            alloc,
        })
    }

    /// An equal subvolume, which shares all inodes and names. Fails for want of memory alone.
    pub fn copy(&self) -> Result<Subvol<O>, AllocError>
        ensures { IfOk result (λ subvol. subvol ≡ self.now) }
    {
        Ok(Subvol {
            tree: self.tree.copy()?,
            alloc: self.alloc,
        })
    }

    /// A subvolume of the same inodes and names, where the contents of each inode are one run of
    /// their old size from the start of its number. It shares the names, and no inode. Fails for
    /// want of memory alone.
    pub fn retraced<P: Origin, S: Starts<P>>(&self, starts: &S) -> Result<Subvol<P>, AllocError>
        requires { AreReached P.reach (S.starts starts.now) self.now.inodes }
        ensures { IfOk result
            (λ subvol. subvol ≡ retraced P.advanced (S.starts starts.now) self.now) }
    {
        Ok(Subvol {
            tree: self.tree.retraced(starts)?,
            alloc: self.alloc,
        })
    }

    /// The inodes and names.
    pub fn tree(&self) -> &Tree<O>
        ensures { result.now ≡ self.now }
    {
        &self.tree
    }

    /// How many inodes were copied since the subvolume was made, because a change met one that
    /// another subvolume shares. At the greatest u64 it stays. Takes no memory.
    pub fn copied(&self) -> u64 {
        self.tree.copied()
    }

    /// The inodes and names, to be changed: what becomes of them becomes of the subvolume.
    pub fn tree_mut(&mut self) -> &mut Tree<O>
        ensures* writes_back { sem 𝓛
            (Lends (the_row O.row O.Origin) (tree_row O.row O.Origin) self.entry result (λ w. w)) }
        ensures value { result.now ≡ self.old }
    {
        &mut self.tree
    }
}
