// The paths of the entries of a directory.
ghost use Rattle.std.specs.Prelude.{◌≡◌, true, Ok, IfOk, OnOk};
ghost use Rattle.send_model.specs.Subvolume.{IsLawful, is_directory, walk, path_below};
ghost use Rattle.path_walk.specs.Ahead.{Grows, HasEntries, BelowEnd};

use crate::key::{Path, PathRef};
use extent_map::Origin;
use inode_tree::Tree;
use shared_map::SharedMap;
use std::alloc::{AllocError, Global};
use sx_base::Blob;

// How many bytes a path has at most.
const LONGEST_PATH: usize = 4095;

// Adds the paths of the entries of the directory that a path leads to. Where that is no directory,
// there are none. Fails for want of memory alone, and then some of them were added.
pub(crate) fn add_entries<O: Origin>(
    alloc: Global,
    tree: &Tree<O>,
    front: &[u8],
    directory: u64,
    ahead: &mut SharedMap<Path, u64>,
) -> Result<(), AllocError>
    requires lawful { IsLawful tree.now }
    requires leads { walk tree.now front.now ≡ Ok directory }
    ensures grows { Grows tree.now front.now directory ahead.old ahead.new }
    ensures entries { OnOk result (HasEntries tree.now front.now directory ahead.new) }
{
    let mut last: &[u8] = b"";
    while let Some((next, name, ino)) = tree.name_after(directory, last) {
        if next != directory {
            return Ok(());
        }
        if let Some(path) = path_below(alloc, front, name)? {
            ahead.insert(&PathRef::new(path.as_slice()), ino)?;
        }
        last = name;
    }
    Ok(())
}

// The path of a name below a path, None where it is too long. Fails for want of memory alone.
fn path_below(alloc: Global, front: &[u8], name: &[u8]) -> Result<Option<Blob>, AllocError>
    ensures { IfOk result (BelowEnd front.now name.now) }
{
    let mut path = Blob::new(alloc);
    if !front.is_empty() {
        path.push_all(front)?;
        path.push_all(b"/")?;
    }
    path.push_all(name)?;
    if path.as_slice().len() > LONGEST_PATH {
        return Ok(None);
    }
    Ok(Some(path))
}
