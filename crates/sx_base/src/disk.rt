// A disk that may lose what was not yet stable when power fails.
ghost use Rattle.std.specs.Prelude.{◌≡◌, ◌⊎◌, ◌+◌, ◌^◌, ◌<◌, ◌≤◌, ℕ, List, length, max, take, IfOk, OnOk, OnErr};
ghost use Rattle.sx_base.specs.Disk.{Pending, IsImage, IsAsBefore, IsReadAt, Passes, members, written, shortened, settled};
ghost use Rattle.sx_base.specs.Bytes.{put_at};
ghost use Rattle.sx_base.specs.Causes.{Steady};

use crate::Failed;

/// A disk: bytes that are read and written at places counted in bytes, and that a crash may leave
/// torn.
pub trait Disk {
    /// Holds where the disk tells what it contains. One that does not, as a real file, says only
    /// what no clause puts under this premise.
    ghost tells: { Type 0 };

    /// What a read gives: all the bytes.
    ghost seen: { Self → List ℕ };

    /// Which images a crash now may leave.
    ghost pending: { Self → Pending };

    /// The size in bytes.
    ghost len: { Self → ℕ };

    /// The clock.
    ghost moment: { Self → ℕ };

    /// Which images a crash at some moment from that one on may have left, during a call or between
    /// two.
    ghost left_since: { Self → ℕ → List ℕ → Type 0 };

    /// How often the disk has failed.
    ghost faults: { Self → ℕ };

    /// The size in bytes. `Failed` only where the count of faults rose, here and below.
    fn size(&mut self) -> Result<u64, Failed>
        ensures size { IfOk result (λ size. size ≡ len self.old) }
        ensures len { len self.new ≡ len self.old }
        ensures same { tells → IsAsBefore seen pending self.old self.new }
        ensures passes { Passes (members tells moment left_since pending faults)
            self.old self.new result }
        ensures steady { Steady (faults self.old) (faults self.new) result };

    /// Reads from place `at` into the buffer, and says how many bytes: at most as many as it has
    /// room for, and 0 only for an empty buffer or where `at` is not below the size.
    fn read(&mut self, at: u64, buf: &mut [u8]) -> Result<usize, Failed>
        ensures bound { IfOk result (λ count. count ≤ length buf.new) }
        ensures progress { IfOk result
            (λ count. count ≡ 0 → 0 < length buf.new → len self.old ≤ at) }
        ensures bytes { tells → IfOk result (IsReadAt (seen self.old) at buf.new) }
        ensures len { len self.new ≡ len self.old }
        ensures same { tells → IsAsBefore seen pending self.old self.new }
        ensures passes { Passes (members tells moment left_since pending faults)
            self.old self.new result }
        ensures steady { Steady (faults self.old) (faults self.new) result };

    /// Puts the piece at place `at`, over what is there and past the end. A write that failed
    /// counts as written: until the next successful sync a crash may leave any bytes in its range.
    fn write_at(&mut self, at: u64, piece: &[u8]) -> Result<(), Failed>
        requires place { at ≤ len self.old }
        requires room { at + length piece.now < 2 ^ 63 }
        ensures len { OnOk result (len self.new ≡ max (len self.old) (at + length piece.now)) }
        ensures len_err { OnErr result ((len self.old ≤ len self.new)
            × (len self.new ≤ max (len self.old) (at + length piece.now))) }
        ensures seen { tells
            → OnOk result (seen self.new ≡ put_at at piece.now (seen self.old)) }
        ensures pending { tells
            → pending self.new ≡ written at (length piece.now) (pending self.old) }
        ensures passes { Passes (members tells moment left_since pending faults)
            self.old self.new result }
        ensures steady { Steady (faults self.old) (faults self.new) result };

    /// Makes the disk shorter. A cut that failed counts as a size that was reached.
    fn cut(&mut self, size: u64) -> Result<(), Failed>
        requires { size ≤ len self.old }
        ensures len { OnOk result (len self.new ≡ size) }
        ensures len_err { OnErr result ((size ≤ len self.new) × (len self.new ≤ len self.old)) }
        ensures seen { tells → OnOk result (seen self.new ≡ take size (seen self.old)) }
        ensures pending { tells → pending self.new ≡ shortened size (pending self.old) }
        ensures passes { Passes (members tells moment left_since pending faults)
            self.old self.new result }
        ensures steady { Steady (faults self.old) (faults self.new) result };

    /// Makes stable what was written: a crash then leaves what a read gives. A sync that failed
    /// changes nothing.
    fn sync(&mut self) -> Result<(), Failed>
        ensures len { len self.new ≡ len self.old }
        ensures seen { tells → seen self.new ≡ seen self.old }
        ensures pending { tells → OnOk result (pending self.new ≡ settled (seen self.old)) }
        ensures pending_err { tells → OnErr result (pending self.new ≡ pending self.old) }
        ensures passes { Passes (members tells moment left_since pending faults)
            self.old self.new result }
        ensures steady { Steady (faults self.old) (faults self.new) result };

    /// The size is that of what a read gives.
    ghost sized: { (disk : Self) → tells → len disk ≡ length (seen disk) };

    /// What a read gives is always one of the images.
    ghost seen_is_image: { (disk : Self) → tells → IsImage (pending disk) (seen disk) };

    /// This moment is one of those since an earlier one.
    ghost counts_now: { (disk : Self) (t : ℕ) (image : List ℕ) → tells → t ≤ moment disk →
        IsImage (pending disk) image → left_since disk t image };

    /// Since this moment there is no other.
    ghost only_now: { (disk : Self) (image : List ℕ) → tells →
        left_since disk (moment disk) image → IsImage (pending disk) image };
}
