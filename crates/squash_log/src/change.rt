// What a command of contents did.

/// A range of a file of the part, which a command replaced, and how long the file was before.
#[derive(Debug, Clone, Copy, PartialEq, Eq)]
pub struct FileRange {
    /// The file, by its inode number.
    pub ino: u64,
    /// Where the range begins.
    pub at: u64,
    /// How long it is.
    pub len: u64,
    /// How long the file was before the command.
    pub size: u64,
}

/// What a command did to the contents of a file of the part.
#[derive(Debug, Clone, Copy, PartialEq, Eq)]
pub enum Change {
    /// A WRITE put its bytes into a range.
    Wrote(FileRange),
    /// What is no byte of a WRITE took the place of a range: zero cells, or cells of another
    /// subvolume. A range of no cells says that the file may have become longer.
    Replaced(FileRange),
    /// Cells of a file of the part were copied into a range.
    Cloned {
        /// The range.
        to: FileRange,
        /// The file that they were copied from, by its inode number.
        source: u64,
        /// Where they begin there.
        from: u64,
    },
    /// The file was cut, or filled with zero cells.
    Resized {
        /// The file, by its inode number.
        ino: u64,
        /// How long it was before the command.
        size: u64,
        /// How long it is after it.
        new: u64,
    },
}
