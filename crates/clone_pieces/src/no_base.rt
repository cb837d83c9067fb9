// No base.
ghost use Rattle.std.specs.Prelude.{[], None};

use crate::outside::{Known, OutsideBytes};
use provenance::Ends;
use std::alloc::{AllocError, Global};
use subvol_catalog::Key;
use sx_base::{Blob, Failed};

/// A base that has no subvolume.
#[derive(Debug, Clone, Copy)]
pub struct NoBase;

impl Ends for NoBase {
    ghost ends = { λ nothing key ino. None };

    fn end_of(&self, key: Key, ino: u64) -> Option<u64> {
        let _ = (key, ino);
        None
    }
}

impl Known for NoBase {
    ghost use Rattle.clone_pieces.specs.Nothing.{nothing_ends};

    ghost base = { λ nothing. [] };

    ghost ends_are = { λ nothing. nothing_ends };

    fn first_path(&self, alloc: Global, key: Key, ino: u64) -> Result<Option<Blob>, AllocError> {
        let _ = (alloc, key, ino);
        Ok(None)
    }
}

impl OutsideBytes for NoBase {
    ghost tells = { Unit {0} };

    ghost held = { λ nothing key ino. [] };

    ghost faults = { λ nothing. 0 };

    fn fill(&mut self, key: Key, ino: u64, at: u64, buf: &mut [u8]) -> Result<(), Failed> {
        let _ = (key, ino, at, buf.len());
        Ok(())
    }
}
