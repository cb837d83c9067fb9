// Where a cell comes from.
ghost use Rattle.std.specs.Prelude.{◌≡◌, ℕ, ◌≤◌};

use extent_map::Origin;
use subvol_catalog::Key;

/// Where a byte of a file comes from. The next byte of a run comes from the next place.
#[derive(Debug, Clone, Copy, PartialEq, Eq)]
pub enum Trace {
    /// Bytes that a command wrote: they stand in an input file.
    Fresh {
        /// The number of the input file.
        file: u64,
        /// The place in that file, in bytes.
        at: u64,
    },
    /// Bytes of a file of a complete subvolume.
    Outside {
        /// What names the subvolume.
        key: Key,
        /// The inode number of the file.
        ino: u64,
        /// The place in the file, in bytes.
        at: u64,
    },
}

impl Origin for Trace {
    ghost use Rattle.provenance.specs.Traces.{reach_of, advanced_by, is_outside};
    ghost use Rattle.provenance.specs.TraceLaws.{by_none, is_left, by_both, outside_stays};

    ghost reach = { reach_of };

    ghost advanced = { advanced_by };

    ghost foreign = { is_outside };

    fn advance(&self, k: u64) -> Trace {
        match *self {
            Trace::Fresh { file, at } => Trace::Fresh { file, at: at + k },
            Trace::Outside { key, ino, at } => Trace::Outside {
                key,
                ino,
                at: at + k,
            },
        }
    }

    fn is_foreign(&self) -> bool {
        match *self {
            Trace::Fresh { .. } => false,
            Trace::Outside { .. } => true,
        }
    }

    ghost advanced_by_none = { by_none };

    ghost reach_is_left = { is_left };

    ghost advanced_twice = { by_both };

    ghost foreign_stays = { outside_stays };
}
