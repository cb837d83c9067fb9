// The index, and first paths by it.
ghost use Rattle.std.specs.Prelude.{◌≡◌, ◌≤◌, length, IfOk, IfSome, IsTrue, is_some, slice_get};
ghost use Rattle.std.specs.Option.{option_copied};
ghost use Rattle.send_model.specs.Subvolume.{IsLawful, named, first_path, is_nameable, lesser};
ghost use Rattle.path_index.specs.Places.{links_at};
ghost use Rattle.path_index.specs.Ways.{HasWay, WriteEnd, IsLesserBy};

use crate::building::index_names;
use crate::links::{Link, Links};
use crate::writing::put_before;
use extent_map::Origin;
use send_model::first_paths_are_least;
use shared_map::SharedMap;
use std::alloc::{AllocError, Global};
use std::cmp::Ordering;
use std::marker::Model;
use subvol::Subvol;
use sx_base::Blob;

// The number of the root of each subvolume.
const ROOT: u64 = 256;

// How many bytes a path has at most.
const LONGEST_PATH: usize = 4095;

/// A complete subvolume with its inodes' names by their numbers, seen as the subvolume. It is
/// lawful.
#[derive(Debug, Drop)]
pub struct PathIndex<O: Origin> {
    sub: Subvol<O>,
    names: SharedMap<u64, Links>,
}

impl<O: Origin> Model for PathIndex<O> {
    ghost use Rattle.std.specs.Prelude.{Option};
    ghost use Rattle.send_model.specs.Subvolume.{Subvolume};
    ghost use Rattle.path_index.specs.Places.{IsIndexed};

    ghost Value = { Subvolume (Option O) };

    ghost view = { λ i. i.sub };

    ghost invariant = { λ i. IsIndexed i.sub i.names };
}

impl<O: Origin> PathIndex<O> {
    /// Makes the index of a subvolume, in time that grows with its names. Fails for want of memory
    /// alone.
    pub fn new(alloc: Global, sub: Subvol<O>) -> Result<PathIndex<O>, AllocError>
        requires lawful { IsLawful sub }
        ensures { IfOk result (λ index. index ≡ sub) }
    {
        let names = index_names(alloc, sub.tree())?;
        Ok(PathIndex { sub, names })
    }

    /// The subvolume. It is lawful.
    pub fn sub(&self) -> &Subvol<O>
        ensures same { result.now ≡ self.now }
        ensures lawful { IsLawful self.now }
    {
        &self.sub
    }

    /// The least path by bytes of those that lead to an inode, or None where none does. Takes time
    /// that grows with the names of the inode and of the directories above it. Fails for want of
    /// memory alone.
    pub fn first_path(&self, alloc: Global, ino: u64) -> Result<Option<Blob>, AllocError>
        ensures first { IfOk result (λ path. path ≡ first_path self.now ino) }
        ensures short { IfOk result (λ found. IfSome found (λ path. length path ≤ 4095)) }
    {
        let names = &self.names;
        first_paths_are_least::<Option<O>>();
        if ino == ROOT {
            return Ok(Some(Blob::new(alloc)));
        }
        let Some(links) = names.get(&ino) else {
            return Ok(None);
        };
        let mut buffer = [0; LONGEST_PATH];
        let mut least = None;
        for link in links.as_slice() {
            least = self.lesser_by(alloc, link, &mut buffer, least)?;
        }
        Ok(least)
    }

    /// Whether a path leads to an inode, in the same time. Takes no memory.
    pub fn is_nameable(&self, ino: u64) -> bool
        ensures { result ≡ is_nameable self.now ino }
    {
        let names = &self.names;
        first_paths_are_least::<Option<O>>();
        if ino == ROOT {
            return true;
        }
        let Some(links) = names.get(&ino) else {
            return false;
        };
        for link in links.as_slice() {
            if self.has_path(link) {
                return true;
            }
        }
        false
    }

    // Whether the path that ends with a name is no longer than a path may be. None of it is
    // written.
    fn has_path(&self, link: &Link) -> bool
        requires there { IsTrue (is_some (named self.now link.now.0 link.now.1)) }
        ensures { HasWay self.now link.now result }
    {
        let names = &self.names;
        let mut room = LONGEST_PATH - link.name().len();
        let mut directory = link.directory();
        while directory != ROOT {
            let Some(up) = first_link(names, directory) else {
                return false;
            };
            if up.name().len() >= room {
                return false;
            }
            room -= up.name().len() + 1;
            directory = up.directory();
        }
        true
    }

    // The lesser of the path that ends with a name, if there is one, and another.
    fn lesser_by(
        &self,
        alloc: Global,
        link: &Link,
        buffer: &mut [u8],
        least: Option<Blob>,
    ) -> Result<Option<Blob>, AllocError>
        requires room { length buffer.old ≡ 4095 }
        requires there { IsTrue (is_some (named self.now link.now.0 link.now.1)) }
        ensures { IfOk result (IsLesserBy self.now link.now least) }
    {
        match self.write_path(link, buffer) {
            Some(start) => lesser(alloc, &buffer[start..], least),
            None => Ok(least),
        }
    }

    // Writes the path that ends with a name at the end of the buffer, and gives the place where it
    // begins; None where it is longer than a path may be.
    fn write_path(&self, link: &Link, buffer: &mut [u8]) -> Option<usize>
        requires room { length buffer.old ≡ 4095 }
        requires there { IsTrue (is_some (named self.now link.now.0 link.now.1)) }
        ensures within { IfSome result (λ start. start ≤ 4095) }
        ensures written { WriteEnd self.now link.now result buffer.new }
    {
        let names = &self.names;
        let mut start = put_before(buffer, LONGEST_PATH, link.name());
        let mut directory = link.directory();
        while directory != ROOT {
            let Some(up) = first_link(names, directory) else {
                return None;
            };
            if up.name().len() >= start {
                return None;
            }
            start = put_before(buffer, start, b"/");
            start = put_before(buffer, start, up.name());
            directory = up.directory();
        }
        Some(start)
    }
}

// The first name of an inode.
fn first_link(names: &SharedMap<u64, Links>, ino: u64) -> Option<&Link>
    ensures { option_copied result ≡ slice_get (links_at names.now ino) 0 }
{
    names.get(&ino)?.as_slice().first()
}

// The lesser of a path and another, if there is one.
fn lesser(alloc: Global, path: &[u8], least: Option<Blob>) -> Result<Option<Blob>, AllocError>
    ensures { IfOk result (λ less. less ≡ lesser path.now least) }
{
    if let Some(other) = &least {
        if path.cmp(other.as_slice()) == Ordering::Greater {
            return Ok(least);
        }
    }
    Ok(Some(Blob::from(Vec::from_slice(alloc, path)?)))
}
