// The paths, and how they are passed.
ghost use Rattle.std.specs.Prelude.{◌≡◌, ℕ, List, [], Ok, IfOk, OnOk, OnErr};
ghost use Rattle.std.specs.Option.{option_map};
ghost use Rattle.send_model.specs.Subvolume.{IsLawful, is_directory, walk};
ghost use Rattle.path_walk.specs.Passing.{StepsOn, earlier, Learns, IsKnown};

use crate::ahead::add_entries;
use crate::key::{Path, PathRef};
use extent_map::Origin;
use inode_tree::{NodeKind, Tree};
use shared_map::SharedMap;
use std::alloc::{AllocError, Global};
use std::marker::Model;
use sx_base::Blob;

// The number of the root of each subvolume.
const ROOT: u64 = 256;

/// The paths of a lawful subvolume, seen as the subvolume and the last path that was passed; at
/// first this is the root's.
#[derive(Debug, Drop)]
pub struct Paths<'a, O: Origin> {
    tree: &'a Tree<O>,
    // The path that was passed last.
    at: Blob,
    // The paths that come after it, of the entries of directories that were passed.
    ahead: SharedMap<Path, u64>,
    // The first paths of the inodes that were passed and are no directories.
    firsts: SharedMap<u64, Path>,
    alloc: Global,
}

impl<'a, O: Origin> Model for Paths<'a, O> {
    ghost use Rattle.std.specs.Prelude.{Option};
    ghost use Rattle.path_walk.specs.Passing.{Passed, IsPassed};

    ghost Value = { Passed (Option O) };

    ghost view = { λ p. record { subvolume = p.tree.now; at = p.at } };

    ghost invariant = { λ p. IsPassed p.tree.now p.at p.ahead p.firsts };
}

impl<'a, O: Origin> Paths<'a, O> {
    /// The paths of a tree, of which the root's was passed. Fails for want of memory alone.
    pub fn new(alloc: Global, tree: &'a Tree<O>) -> Result<Paths<'a, O>, AllocError>
        requires lawful { IsLawful tree.now }
        ensures begins { IfOk result (λ paths. paths ≡ record { subvolume = tree.now; at = [] }) }
    {
        let mut ahead = SharedMap::new(alloc);
        add_entries(alloc, tree, b"", ROOT, &mut ahead)?;
        Ok(Paths {
            tree,
            at: Blob::new(alloc),
            ahead,
            firsts: SharedMap::new(alloc),
            alloc,
        })
    }

    /// Passes the next path, and gives the number of the inode that it leads to, or None where none
    /// is left. Fails for want of memory alone, and then no path is passed.
    pub fn next(&mut self) -> Result<Option<u64>, AllocError>
        ensures steps { IfOk result (StepsOn self.old self.new) }
        ensures same { OnErr result (self.new ≡ self.old) }
    {
        let Some((path, ino)) = self.ahead.next_after(&PathRef::new(self.at.as_slice())) else {
            return Ok(None);
        };
        let ino = *ino;
        let next = Path::new(self.alloc, path.as_slice())?;
        let at = Blob::from(Vec::from_slice(self.alloc, path.as_slice())?);
        add_entries(self.alloc, self.tree, next.as_slice(), ino, &mut self.ahead)?;
        learn(self.tree, ino, next, &mut self.firsts)?;
        self.ahead.remove(&PathRef::new(at.as_slice()))?;
        self.at = at;
        Ok(Some(ino))
    }

    /// The path that was passed last.
    pub fn path(&self) -> &[u8]
        ensures { result.now ≡ self.now.at }
    {
        self.at.as_slice()
    }

    /// The first path of the inode that the path which was passed last leads to, or None where it
    /// is this one. Takes no memory.
    pub fn earlier(&self, ino: u64) -> Option<&[u8]>
        requires there { walk self.now.subvolume self.now.at ≡ Ok ino }
        ensures { option_map (λ first. first.now) result ≡ earlier self.now ino }
    {
        let first = self.firsts.get(&ino)?.as_slice();
        if self.at.as_slice() == first {
            return None;
        }
        Some(first)
    }
}

// Keeps the path of an inode that is no directory, unless one is known already. Fails for want of
// memory alone, and then nothing changes.
fn learn<O: Origin>(
    tree: &Tree<O>,
    ino: u64,
    path: Path,
    firsts: &mut SharedMap<u64, Path>,
) -> Result<(), AllocError>
    ensures learns { Learns tree.now ino path firsts.old firsts.new }
    ensures known { OnOk result (IsKnown tree.now ino firsts.new) }
{
    if !is_directory(tree, ino) {
        firsts.insert_new(&ino, path)?;
    }
    Ok(())
}

// Whether there is a directory of that number.
#[tactic(auto, unfolding(send_model::specs::Subvolume::is_directory))]
fn is_directory<O: Origin>(tree: &Tree<O>, ino: u64) -> bool
    ensures { result ≡ is_directory tree.now ino }
{
    match tree.inode(ino) {
        Some(inode) => matches!(inode.kind(), NodeKind::Directory),
        None => false,
    }
}
