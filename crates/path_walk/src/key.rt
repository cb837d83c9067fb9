// Paths as keys and values of maps.
ghost use Rattle.std.specs.Prelude.{◌≡◌, IfOk};

use shared_map::{Copied, Key, Sought};
use std::alloc::{AllocError, Global};
use std::cmp::Ordering;
use std::marker::Model;
use sx_base::Blob;

// A path, seen as its bytes.
#[derive(Debug, Drop)]
pub(crate) struct Path {
    bytes: Blob,
}

impl Model for Path {
    ghost use Rattle.std.specs.Prelude.{ℕ, List};

    ghost Value = { List ℕ };

    ghost view = { λ p. p.bytes };
}

impl Path {
    // These bytes. Fails for want of memory alone.
    pub(crate) fn new(alloc: Global, bytes: &[u8]) -> Result<Path, AllocError>
        ensures { IfOk result (λ path. path ≡ bytes.now) }
    {
        Ok(Path {
            bytes: Blob::from(Vec::from_slice(alloc, bytes)?),
        })
    }

    // The bytes.
    pub(crate) fn as_slice(&self) -> &[u8]
        ensures { result.now ≡ self.now }
    {
        self.bytes.as_slice()
    }
}

impl Copied for Path {
    fn copy(&self) -> Result<Path, AllocError> {
        Ok(Path {
            bytes: self.bytes.copy()?,
        })
    }
}

impl Key for Path {
    ghost use Rattle.send_model.specs.Map.{bytes_cmp};
    ghost use Rattle.std.proofs.lemmas.Cmp.{nat_list_cmp_total};

    ghost order = { bytes_cmp };

    fn copy_key(&self) -> Result<Path, AllocError> {
        self.copy()
    }

    fn most_entries() -> usize {
        128
    }

    ghost total = { nat_list_cmp_total };
}

// A path in a look-up.
#[derive(Drop)]
pub(crate) struct PathRef<'a> {
    bytes: &'a [u8],
}

impl<'a> Model for PathRef<'a> {
    ghost use Rattle.std.specs.Prelude.{ℕ, List};

    ghost Value = { List ℕ };

    ghost view = { λ p. p.bytes.now };
}

impl<'a> PathRef<'a> {
    pub(crate) fn new(bytes: &'a [u8]) -> PathRef<'a>
        ensures { result ≡ bytes.now }
    {
        PathRef { bytes }
    }
}

impl Sought<Path> for PathRef<'_> {
    ghost sought = { λ p. p };

    fn against(&self, key: &Path) -> Ordering {
        key.as_slice().cmp(self.bytes)
    }

    fn own(&self, alloc: Global) -> Result<Path, AllocError> {
        Path::new(alloc, self.bytes)
    }
}
