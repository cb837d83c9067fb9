// Where outside files end.
ghost use Rattle.std.specs.Prelude.{◌≡◌, ℕ, Option};
ghost use Rattle.send_model.specs.Store as meant;
ghost use Rattle.subvol_catalog.specs.Entries.{key_of};

use subvol_catalog::Key;

/// The sizes of the files of complete subvolumes.
pub trait Ends {
    /// The size of each file that a path names, by its subvolume and its inode number. None is the
    /// size of any other.
    ghost ends: { Self → meant.Key → ℕ → Option ℕ };

    /// The size of a file in bytes, or None where the number is not that of a file that a path
    /// names. Takes no memory.
    fn end_of(&self, key: Key, ino: u64) -> Option<u64>
        ensures { result ≡ ends self.now (key_of key) ino };
}
