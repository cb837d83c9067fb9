// What a range is cut into.
use subvol_catalog::Key;

/// A piece of a range of cells.
#[derive(Debug, Clone, Copy, PartialEq, Eq)]
pub enum Plan {
    /// Blocks that a file of a complete subvolume carries, one after the other.
    Carry {
        /// What names the subvolume.
        key: Key,
        /// The inode number of the file.
        ino: u64,
        /// Where they begin in that file, in bytes.
        from: u64,
        /// How long they are together, in bytes.
        len: u64,
    },
    /// Bytes that no file carries.
    Literal {
        /// Where they begin in the contents that have the range, in bytes.
        from: u64,
        /// How many there are.
        len: u64,
    },
}
