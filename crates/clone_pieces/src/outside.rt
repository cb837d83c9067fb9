// Where outside subvolumes and their bytes come from.
ghost use Rattle.std.specs.Prelude.{◌≡◌, ℕ, ◌+◌, ◌<◌, ◌≤◌, ◌^◌, List, length, take, drop, IfOk, OnOk, IfSome, is_some};
ghost use Rattle.send_model.specs.Store as meant;
ghost use Rattle.send_model.specs.Store.{Store};
ghost use Rattle.send_model.specs.Composed.{path_of};
ghost use Rattle.subvol_catalog.specs.Entries.{key_of};
ghost use Rattle.provenance.specs.Cuts.{AreEndsOf};
ghost use Rattle.clone_pieces.specs.Origins.{AreAsLong};
ghost use Rattle.sx_base.specs.Causes.{HasCause, Steady};

use provenance::Ends;
use std::alloc::{AllocError, Global};
use subvol_catalog::Key;
use sx_base::{Blob, Failed};

/// The complete subvolumes of a base: how long their files are, and which paths lead to them.
pub trait Known: Ends {
    /// The base.
    ghost base: { Self → Store ℕ };

    /// The first path of a file, or None where no path names it. Fails for want of memory alone.
    fn first_path(&self, alloc: Global, key: Key, ino: u64) -> Result<Option<Blob>, AllocError>
        ensures named { IfOk result
            (λ found. is_some found ≡ is_some (Self.Ends.ends self.now (key_of key) ino)) }
        ensures path { IfOk result
            (λ found. IfSome found
            (λ path. path ≡ path_of (base self.now)
            (record { key = key_of key; ino = ino; offset = 0 }))) }
        ensures short { IfOk result (λ found. IfSome found (λ path. length path < 2 ^ 16)) };

    /// The files' ends are those of the base.
    ghost ends_are: { (known : Self) → AreEndsOf (base known) (Self.Ends.ends known) };
}

/// The bytes of the files of complete subvolumes.
pub trait OutsideBytes {
    /// Holds where reads give the bytes that are held. Of what does not tell, as files on a real
    /// disk, only their lengths are known.
    ghost tells: { Type 0 };

    /// The bytes of each file, by its subvolume and its inode number.
    ghost held: { Self → meant.Key → ℕ → List ℕ };

    ghost faults: { Self → ℕ };

    /// Fills the buffer with the bytes of a file from the place `at` on. `Failed` comes only where
    /// the count of faults rose.
    fn fill(&mut self, key: Key, ino: u64, at: u64, buf: &mut [u8]) -> Result<(), Failed>
        requires within { at + length buf.old ≤ length (held self.old (key_of key) ino) }
        ensures sizes { AreAsLong (held self.new) (held self.old) }
        ensures same { tells → held self.new ≡ held self.old }
        ensures bytes { tells → OnOk result
            (buf.new ≡ take (length buf.new) (drop at (held self.old (key_of key) ino))) }
        ensures cause { HasCause (faults self.old) (faults self.new) result }
        ensures steady { Steady (faults self.old) (faults self.new) result };
}
