// The version of a stream: whether a flag is sent.
ghost use Rattle.std.specs.Prelude.{◌≡◌, ◌||◌, IfOk};
ghost use Rattle.send_model.specs.Subvolume.{IsLawful};
ghost use Rattle.snapshot_model.specs.Listing.{paths_of};
ghost use Rattle.full_send.specs.Versions.{is_flagged, any_flagged, version_for};

use extent_map::Origin;
use inode_tree::Tree;
use path_walk::Paths;
use std::alloc::{AllocError, Global};

// The number of the root of each subvolume.
pub(crate) const ROOT: u64 = 256;

// The version that can say all commands of a subvolume: 2 where a path leads to an inode with a
// flag, else 1. Fails for want of memory alone.
pub(crate) fn version_of<O: Origin>(alloc: Global, tree: &Tree<O>) -> Result<u32, AllocError>
    requires lawful { IsLawful tree.now }
    ensures { IfOk result (λ version. version ≡ version_for tree.now) }
{
    if has_flags(tree, ROOT) {
        return Ok(2);
    }
    if some_flags(alloc, tree)? {
        Ok(2)
    } else {
        Ok(1)
    }
}

// Whether a path but the root's leads to an inode with a flag.
fn some_flags<O: Origin>(alloc: Global, tree: &Tree<O>) -> Result<bool, AllocError>
    requires lawful { IsLawful tree.now }
    ensures { IfOk result (λ found.
        (is_flagged tree.now 256 || found) ≡ any_flagged tree.now (paths_of tree.now)) }
{
    let mut paths = Paths::new(alloc, tree)?;
    while let Some(ino) = paths.next()? {
        if has_flags(tree, ino) {
            return Ok(true);
        }
    }
    Ok(false)
}

// Whether an inode has a flag.
#[tactic(auto, unfolding(snapshot_model::specs::Listing::listed))]
fn has_flags<O: Origin>(tree: &Tree<O>, ino: u64) -> bool
    ensures { result ≡ is_flagged tree.now ino }
{
    match tree.inode(ino) {
        Some(inode) => inode.flags() != 0,
        None => false,
    }
}
