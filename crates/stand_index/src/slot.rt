// Blocks that follow each other, as a key of an ordered map.
ghost use Rattle.std.specs.Prelude.{◌≡◌};
ghost use Rattle.stand_index.specs.Slots.{has_cell};

use crate::blocks::BLOCK;
use crate::source::Source;

// The first of some blocks: its source, where the stretch of the source begins that has its first
// cell, the file that it was put into, its place there less that of the cell in the stretch and
// plus the width of stretches, and the place of the cell in the source.
#[derive(Debug, Clone, Copy, PartialEq, Eq, PartialOrd, Ord)]
pub(crate) struct Slot<S: Source> {
    pub(crate) source: S,
    pub(crate) start: u64,
    pub(crate) ino: u64,
    pub(crate) shift: u64,
    pub(crate) first: u64,
}

impl<S: Source> Slot<S> {
    // Whether one of so many blocks begins with a cell of the same source.
    pub(crate) fn has(&self, count: u64, cell: u64) -> bool
        ensures { result ≡ has_cell self.now count cell }
    {
        self.first <= cell
            && (cell - self.first) % BLOCK == 0
            && (cell - self.first) / BLOCK < count
    }
}
