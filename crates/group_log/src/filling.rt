// Reads that fill a whole buffer.
ghost use Rattle.std.specs.Prelude.{◌≡◌, ℕ, slice_index, ◌+◌, ◌^◌, ◌<◌, ◌≤◌, length, take, drop, OnOk};
ghost use Rattle.sx_base.specs.Causes.{HasCause, Steady};
ghost use Rattle.sx_base.specs.Disk.{IsAsBefore, IsImage};
ghost use Rattle.sx_base.specs.Crash.{LeavesOnly};

use sx_base::{Disk, Failed};

/// Fills the buffer with the bytes from `at` on.
pub(crate) fn fill<D: Disk>(disk: &mut D, at: u64, buf: &mut [u8]) -> Result<(), Failed>
    requires within { at + length buf.old ≤ D.len disk.old }
    requires room { at + length buf.old < 2 ^ 64 }
    ensures bytes { D.tells →
        OnOk result (buf.new ≡ take (length buf.new) (drop at (D.seen disk.old))) }
    ensures are_bytes { (i : ℕ) → slice_index buf.new i < 256 }
    ensures len { D.len disk.new ≡ D.len disk.old }
    ensures same { D.tells → IsAsBefore D.seen D.pending disk.old disk.new }
    ensures any_moment { D.tells →
        LeavesOnly D.moment D.left_since disk.old disk.new (IsImage (D.pending disk.old)) }
    ensures cause { HasCause (D.faults disk.old) (D.faults disk.new) result }
    ensures steady { Steady (D.faults disk.old) (D.faults disk.new) result }
{
    let mut done = 0;
    while done < buf.len() {
        done += disk.read(at + done as u64, &mut buf[done..])?;
    }
    Ok(())
}
