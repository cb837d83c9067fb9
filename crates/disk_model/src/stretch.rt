// What a disk in memory keeps of the time from one successful sync to the next.
ghost use Rattle.std.specs.Prelude.{◌≡◌, ◌+◌, ◌-◌, ◌^◌, ◌<◌, ◌≤◌, ◌++◌, true, length, take, drop, replicate, OnOk, OnErr};
ghost use Rattle.sx_base.specs.Bytes.{put_at};

use std::alloc::{AllocError, Global};

#[derive(Debug, Drop)]
pub(crate) struct Stretch {
    /// What a read gives.
    pub(crate) bytes: Vec<u8>,
    /// For each place below the least size since the sync, whether a write since then holds it.
    pub(crate) touched: Vec<bool>,
    /// The greatest size since the sync.
    pub(crate) greatest: u64,
    /// How many calls there were since the sync.
    pub(crate) calls: u64,
    ghost covers: { length touched.items ≤ length bytes.items },
}

impl Stretch {
    ghost use Rattle.std.specs.Prelude.{◌≡◌, ◌+◌, ◌<◌, ◌-◌, ◌≤◌, ◌^◌, IfOk, OnOk, OnErr, length, take, min};
    ghost use Rattle.sx_base.specs.Disk.{written, shortened, settled};
    ghost use Rattle.sx_base.specs.Bytes.{put_at};
    ghost use Rattle.disk_model.specs.Stretch.{pending_in};

    /// A disk with these bytes, all of them stable.
    pub(crate) fn new(alloc: Global, bytes: &[u8]) -> Result<Stretch, AllocError>
        ensures bytes { IfOk result (λ stretch. stretch.bytes.items ≡ bytes.now) }
        ensures settled { IfOk result (λ stretch. pending_in stretch ≡ settled bytes.now) }
        ensures calls { IfOk result (λ stretch. stretch.calls ≡ 0) }
    {
        let touched = vec![in alloc; false; bytes.len()]?;
        let bytes = bytes.to_vec(alloc)?;
        let greatest = bytes.len() as u64;
        Ok(Stretch {
            bytes,
            touched,
            greatest,
            calls: 0,
        })
    }

    /// Puts the piece at `at`. Where memory is wanting for the bytes, they stay; the write counts
    /// all the same.
    pub(crate) fn write(&mut self, at: usize, piece: &[u8]) -> Result<(), AllocError>
        requires place { at ≤ length self.old.bytes.items }
        requires room { at + length piece.now < 2 ^ 63 }
        ensures bytes { OnOk result
            (self.new.bytes.items ≡ put_at at piece.now self.old.bytes.items) }
        ensures kept { OnErr result (self.new.bytes.items ≡ self.old.bytes.items) }
        ensures pending { pending_in self.new
            ≡ written at (length piece.now) (pending_in self.old) }
        ensures calls { self.new.calls ≡ self.old.calls }
    {
        let end = at + piece.len();
        let known = self.touched.len();
        mark(&mut self.touched, at.min(known), end.min(known));
        self.greatest = self.greatest.max(end as u64);
        overwrite(&mut self.bytes, at, piece)
    }

    /// Makes the disk shorter.
    pub(crate) fn cut(&mut self, size: usize)
        requires { size ≤ length self.old.bytes.items }
        ensures bytes { self.new.bytes.items ≡ take size self.old.bytes.items }
        ensures pending { pending_in self.new ≡ shortened size (pending_in self.old) }
        ensures calls { self.new.calls ≡ self.old.calls }
    {
        self.greatest = self.greatest.max(self.bytes.len() as u64);
        self.touched.truncate(size);
        self.bytes.truncate(size);
    }

    /// Counts a call.
    pub(crate) fn tick(&mut self)
        ensures bytes { self.new.bytes.items ≡ self.old.bytes.items }
        ensures pending { pending_in self.new ≡ pending_in self.old }
        ensures calls { self.new.calls ≡ min (self.old.calls + 1) (2 ^ 64 - 1) }
    {
        self.calls = self.calls.saturating_add(1);
    }
}

// Marks the places from `from` to before `to`.
fn mark(touched: &mut Vec<bool>, from: usize, to: usize)
    requires order { from ≤ to }
    requires within { to ≤ length touched.old.items }
    ensures { touched.new.items ≡ take from touched.old.items ++ replicate (to - from) true
        ++ drop to touched.old.items }
{
    touched[from..to].fill(true);
}

// Puts the piece at `at`; where memory is wanting, nothing changes.
fn overwrite(bytes: &mut Vec<u8>, at: usize, piece: &[u8]) -> Result<(), AllocError>
    requires place { at ≤ length bytes.old.items }
    requires room { at + length piece.now < 2 ^ 63 }
    ensures ok { OnOk result (bytes.new.items ≡ put_at at piece.now bytes.old.items) }
    ensures err { OnErr result (bytes.new.items ≡ bytes.old.items) }
    ensures len { length bytes.old.items ≤ length bytes.new.items }
{
    let end = at + piece.len();
    if bytes.len() < end {
        bytes.resize(end, 0)?;
    }
    bytes[at..end].copy_from_slice(piece);
    Ok(())
}
