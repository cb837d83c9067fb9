// The bytes of the files of a base, which is a part of what is read.
use crate::anchor::Anchor;
use crate::fetch::Fetch;
use clone_pieces::OutsideBytes;
use std::marker::{Model, PhantomData};
use subvol_catalog::Key;
use sx_base::Failed;

// What reads the bytes, and how many reads failed.
pub(crate) struct BaseBytes<H: Fetch, K: Anchor<H>> {
    pub(crate) reader: H,
    pub(crate) failures: u64,
    pub(crate) of: PhantomData<K>,
}

impl<H: Fetch, K: Anchor<H>> Model for BaseBytes<H, K> {
    ghost use Rattle.std.specs.Prelude.{ℕ};
    ghost use Rattle.store_compose.specs.Reading.{IsHeld};

    ghost Value = { ℕ };

    ghost view = { λ b. b.failures };

    ghost invariant = { λ b. IsHeld H.Fetch K.base K.begun b.failures b.reader };
}

impl<H: Fetch, K: Anchor<H>> OutsideBytes for BaseBytes<H, K> {
    ghost use Rattle.clone_pieces.specs.Origins.{outside_cells};

    ghost tells = { H.tells };

    ghost held = { λ failures. outside_cells K.base };

    ghost faults = { λ failures. failures };

    fn fill(&mut self, key: Key, ino: u64, at: u64, buf: &mut [u8]) -> Result<(), Failed> {
        match self.reader.fetch(key, ino, at, buf) {
            Ok(()) => Ok(()),
            Err(_) => {
                self.failures = self.failures.saturating_add(1);
                Err(Failed)
            }
        }
    }
}
