// What an edit changes of one inode.
ghost use Rattle.std.specs.Prelude.{◌≡◌};
ghost use Rattle.inode_tree.specs.Changes.{changed};

use crate::inode::Inode;
use crate::time::Timestamp;
use extent_map::{Extents, Origin};
use shared_map::Edit;
use std::alloc::{AllocError, Global};
use std::marker::Model;

// A change of an inode that keeps its kind and its contents.
#[derive(Drop)]
pub(crate) enum Change<'a> {
    // The low twelve bits of the mode become the inode's.
    Mode(u16),
    // Another owner and another group.
    Owner(u64, u64),
    // Other times: of the last reading, and of the last writing.
    Times(Timestamp, Timestamp),
    // Other flags.
    Flags(u64),
    // An extended attribute, by its name, gets a value.
    SetXattr(&'a [u8], &'a [u8]),
    // An extended attribute goes, by its name.
    RemoveXattr(&'a [u8]),
}

// A change, as an edit of an inode where it stands.
#[derive(Drop)]
pub(crate) struct Changing<'a> {
    change: &'a Change<'a>,
    alloc: Global,
}

impl<'a> Model for Changing<'a> {
    ghost use Rattle.inode_tree.specs.declared.change.Change.{Change};

    ghost Value = { Change };

    ghost view = { λ c. c.change.now };
}

impl<'a> Changing<'a> {
    pub(crate) fn new(alloc: Global, change: &'a Change<'a>) -> Changing<'a>
        ensures { result ≡ change.now }
    {
        Changing { change, alloc }
    }
}

impl<O: Origin> Edit<Inode<O>> for Changing<'_> {
    ghost edited = { λ c inode. changed c inode };

    ghost left = { λ c inode. c };

    fn edit(&mut self, inode: &mut Inode<O>) -> Result<(), AllocError> {
        inode.apply(self.alloc, self.change)
    }
}

// Other contents for an inode, and then those that it had.
#[derive(Drop)]
pub(crate) struct Swapping<O: Origin> {
    contents: Extents<O>,
}

impl<O: Origin> Model for Swapping<O> {
    ghost use Rattle.std.specs.Prelude.{List, Option};

    ghost Value = { List (Option O) };

    ghost view = { λ s. s.contents };
}

impl<O: Origin> Swapping<O> {
    pub(crate) fn new(contents: Extents<O>) -> Swapping<O>
        ensures { result ≡ contents }
    {
        Swapping { contents }
    }

    // The contents that the inode had.
    pub(crate) fn into_contents(self) -> Extents<O>
        ensures { result ≡ self }
    {
        self.contents
    }
}

impl<O: Origin> Edit<Inode<O>> for Swapping<O> {
    ghost edited = { λ s inode. record inode { cells = s } };

    ghost left = { λ s inode. inode.cells };

    fn edit(&mut self, inode: &mut Inode<O>) -> Result<(), AllocError> {
        inode.swap_contents(&mut self.contents);
        Ok(())
    }
}
