// Where the contents of inodes come from.
ghost use Rattle.std.specs.Prelude.{◌≡◌, ℕ};

use extent_map::Origin;

/// An origin for each inode number: that of the first cell of the inode's contents.
pub trait Starts<P: Origin> {
    /// The origin of each number.
    ghost starts: { Self → ℕ → P };

    /// The origin of a number. Refuses nothing, and takes no memory.
    fn start(&self, ino: u64) -> P
        ensures { result ≡ starts self.now ino };
}
