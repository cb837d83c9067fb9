// A disk without a file.
ghost use Rattle.std.specs.Prelude.{◌≡◌, ◌≤◌, []};
ghost use Rattle.sx_base.specs.Causes.{Rose};
ghost use Rattle.sx_base.specs.Disk.{settled};

use sx_base::{Disk, Failed};

/// A disk behind which there is no file, for words that name none and where the file could not be
/// opened. Its size is 0, and each call answers `Failed` and raises the count of faults, which ends
/// at the greatest u64.
#[derive(Debug, Drop)]
pub struct NoDisk {
    faults: u64,
}

impl NoDisk {
    /// With no fault counted yet.
    pub fn new() -> NoDisk
        ensures { result.faults ≡ 0 }
    {
        NoDisk { faults: 0 }
    }

    fn fail(&mut self) -> Failed
        ensures later { self.old.faults ≤ self.new.faults }
        ensures rose { Rose self.old.faults self.new.faults }
    {
        self.faults = self.faults.saturating_add(1);
        Failed
    }
}

impl Disk for NoDisk {
    ghost tells = { ⊥ };

    ghost seen = { λ _. [] };

    ghost pending = { λ _. settled [] };

    ghost len = { λ _. 0 };

    ghost moment = { λ d. d.faults };

    ghost left_since = { λ _ _ _. ⊥ };

    ghost faults = { λ d. d.faults };

    ghost sized = { λ _ tells. absurd tells };

    ghost seen_is_image = { λ _ tells. absurd tells };

    ghost counts_now = { λ _ _ _ tells _ _. absurd tells };

    ghost only_now = { λ _ _ tells _. absurd tells };

    fn size(&mut self) -> Result<u64, Failed> {
        Err(self.fail())
    }

    fn read(&mut self, at: u64, buf: &mut [u8]) -> Result<usize, Failed> {
        let _ = (at, buf.len());
        Err(self.fail())
    }

    fn write_at(&mut self, at: u64, piece: &[u8]) -> Result<(), Failed> {
        let _ = (at, piece.len());
        Err(self.fail())
    }

    fn cut(&mut self, size: u64) -> Result<(), Failed> {
        let _ = size;
        Err(self.fail())
    }

    fn sync(&mut self) -> Result<(), Failed> {
        Err(self.fail())
    }
}
