// Making an index from the names of a tree.
ghost use Rattle.std.specs.Prelude.{◌≡◌, IfOk, OnOk};
ghost use Rattle.std.specs.Option.{unwrap_or};
ghost use Rattle.std.specs.Ordering.{nat_cmp};
ghost use Rattle.send_model.specs.Map.{value_at, without};
ghost use Rattle.send_model.specs.Subvolume.{IsLawful};
ghost use Rattle.path_index.specs.Places.{IsIndexOf, IsOneMore, links_at};

use crate::links::Links;
use extent_map::Origin;
use inode_tree::Tree;
use shared_map::SharedMap;
use std::alloc::{AllocError, Global};

// The names of each inode of a tree. Fails for want of memory alone.
pub(crate) fn index_names<O: Origin>(
    alloc: Global,
    tree: &Tree<O>,
) -> Result<SharedMap<u64, Links>, AllocError>
    requires lawful { IsLawful tree.now }
    ensures { IfOk result (λ index. IsIndexOf index tree.now.names) }
{
    let mut index = SharedMap::new(alloc);
    let mut directory = 0;
    let mut last: &[u8] = b"";
    while let Some((next, name, ino)) = tree.name_after(directory, last) {
        add(alloc, &mut index, ino, next, name)?;
        directory = next;
        last = name;
    }
    Ok(index)
}

// One name more of an inode.
fn add(
    alloc: Global,
    index: &mut SharedMap<u64, Links>,
    ino: u64,
    directory: u64,
    name: &[u8],
) -> Result<(), AllocError>
    ensures { OnOk result (IsOneMore index.old index.new ino (directory, name.now)) }
{
    let mut links = take_links(alloc, index, ino)?;
    links.push(alloc, directory, name)?;
    index.insert(&ino, links)
}

// Takes out the names of an inode, none where it has none yet.
fn take_links(
    alloc: Global,
    index: &mut SharedMap<u64, Links>,
    ino: u64,
) -> Result<Links, AllocError>
    ensures links { IfOk result (λ links. links ≡ links_at index.old ino) }
    ensures without { OnOk result (index.new ≡ without nat_cmp ino index.old) }
{
    match index.remove(&ino)? {
        Some(links) => Ok(links),
        None => Ok(Links::new(alloc)),
    }
}
