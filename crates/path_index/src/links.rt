// The names of one inode.
ghost use Rattle.std.specs.Prelude.{◌≡◌, ◌++◌, ◌∷◌, [], IfOk, OnOk};

use shared_map::Copied;
use std::alloc::{AllocError, Global};
use std::marker::Model;
use sx_base::Blob;

// A name in a directory, seen as the number of the directory and the bytes.
#[derive(Debug, Drop)]
pub(crate) struct Link {
    directory: u64,
    name: Blob,
}

impl Model for Link {
    ghost use Rattle.std.specs.Prelude.{ℕ, List};

    ghost Value = { ℕ × List ℕ };

    ghost view = { λ l. (l.directory, l.name) };
}

impl Link {
    // The number of the directory.
    pub(crate) fn directory(&self) -> u64
        ensures { result ≡ self.now.0 }
    {
        self.directory
    }

    // The name alone.
    pub(crate) fn name(&self) -> &[u8]
        ensures { result.now ≡ self.now.1 }
    {
        self.name.as_slice()
    }
}

// Names in their order, seen as their list.
#[derive(Debug, Drop)]
pub(crate) struct Links {
    links: Vec<Link>,
}

impl Model for Links {
    ghost use Rattle.std.specs.Prelude.{ℕ, List};

    ghost Value = { List (ℕ × List ℕ) };

    ghost view = { λ l. l.links.items };
}

impl Links {
    // No names. Takes no memory.
    pub(crate) fn new(alloc: Global) -> Links
        ensures { result ≡ [] }
    {
        Links {
            links: Vec::new(alloc),
        }
    }

    // One name more. Fails for want of memory alone.
    pub(crate) fn push(
        &mut self,
        alloc: Global,
        directory: u64,
        name: &[u8],
    ) -> Result<(), AllocError>
        ensures { OnOk result (self.new ≡ self.old ++ (directory, name.now) ∷ []) }
    {
        let name = Blob::from(Vec::from_slice(alloc, name)?);
        self.links.push(Link { directory, name })?;
        Ok(())
    }

    // The names.
    pub(crate) fn as_slice(&self) -> &[Link]
        ensures { result.now ≡ self.now }
    {
        self.links.as_slice()
    }
}

impl Copied for Links {
    fn copy(&self) -> Result<Links, AllocError> {
        let mut links = Vec::with_capacity(*self.links.allocator(), self.links.len())?;
        for link in &self.links {
            links.push(Link {
                directory: link.directory,
                name: link.name.copy()?,
            })?;
        }
        Ok(Links { links })
    }
}
