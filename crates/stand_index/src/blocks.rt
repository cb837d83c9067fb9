// Blocks that follow each other.

// How many cells a block has.
pub(crate) const BLOCK: u64 = 4_096;

// So many blocks that follow each other in one file. The first one begins at the place `at` there,
// with a cell from the place `first` of a source.
#[derive(Debug, Clone, Copy)]
pub(crate) struct Blocks<S> {
    pub(crate) source: S,
    pub(crate) first: u64,
    pub(crate) ino: u64,
    pub(crate) at: u64,
    pub(crate) count: u64,
}
