// What a run writes to.
ghost use Rattle.std.specs.Prelude.{◌≡◌, ℕ, ◌<◌, ◌≤◌, List, length, IfOk, Option};
ghost use Rattle.std.specs.Io.KnownBytes.{WriteAppends};
ghost use Rattle.sx_base.specs.Causes.{HasCause, Steady};

use crate::failed::Failed;

/// A place that takes bytes in order. Where it tells, its meaning is the list of the bytes taken so
/// far. It counts its faults.
pub trait Sink {
    ghost taken: { Self → Option (List ℕ) };

    ghost faults: { Self → ℕ };

    /// Takes a prefix of the piece and gives its length. Of a piece that is not empty it takes a
    /// byte at least, or answers `Failed` and takes nothing. `Failed` comes only where the count of
    /// faults rose.
    fn write(&mut self, piece: &[u8]) -> Result<usize, Failed>
        ensures bound { IfOk result (λ count. count ≤ length piece.now) }
        ensures progress { IfOk result (λ count. 0 < length piece.now → 0 < count) }
        ensures bytes { WriteAppends (taken self.old) (taken self.new) result piece.now }
        ensures cause { HasCause (faults self.old) (faults self.new) result }
        ensures steady { Steady (faults self.old) (faults self.new) result };
}
