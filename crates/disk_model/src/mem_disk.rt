// A disk in memory that may crash.
ghost use Rattle.std.specs.Prelude.{◌≡◌, ◌+◌, ◌-◌, ◌^◌, ◌<◌, ◌≤◌, ◌++◌, [], ◌∷◌, length, take, min, max, IfOk, OnOk, OnErr, IsOk, is_ok, if◌then◌else◌};
ghost use Rattle.std.proofs.Common.{inr, refl};
ghost use Rattle.sx_base.specs.Causes.{Steady};
ghost use Rattle.sx_base.specs.Disk.{IsAsBefore, IsReadAt, Passes, members, written, shortened, settled};
ghost use Rattle.sx_base.specs.Bytes.{put_at};
ghost use Rattle.disk_model.specs.Stretch.{pending_in};
ghost use Rattle.disk_model.specs.History.{only_this, bytes_are_image};
ghost use Rattle.disk_model.specs.MemDisk.{seen_of, pending_of, refused_of, moment_of, left_of, past_of};

use crate::stretch::Stretch;
use crate::tearing::torn;
use std::alloc::{AllocError, Global};
use std::mem;
use sx_base::{Disk, Failed};

/// A disk in memory. It keeps what each successful sync made stable, so that `crash` can give an
/// image that a loss of power may leave. A call fails for want of memory alone, for the bytes or
/// for what is kept.
#[derive(Debug, Drop)]
pub struct MemDisk {
    alloc: Global,
    current: Stretch,
    past: Vec<Stretch>,
    refused: u64,
}

impl MemDisk {
    ghost use Rattle.std.specs.Prelude.{◌≡◌, IfOk};
    ghost use Rattle.sx_base.specs.Disk.{settled, IsImage};
    ghost use Rattle.disk_model.specs.Torn.{stable_of};

    /// A disk with these bytes as its one image.
    pub fn new(alloc: Global, bytes: &[u8]) -> Result<MemDisk, AllocError>
        ensures seen { IfOk result (λ disk. seen_of disk ≡ bytes.now) }
        ensures settled { IfOk result (λ disk. pending_of disk ≡ settled bytes.now) }
        ensures refused { IfOk result (λ disk. refused_of disk ≡ 0) }
    {
        let current = Stretch::new(alloc, bytes)?;
        Ok(MemDisk {
            alloc,
            current,
            past: Vec::new(alloc),
            refused: 0,
        })
    }

    /// A disk with one of the images that a crash now may leave, all of it stable: what a read
    /// gives for choice 0, what is stable, with the greatest size and zeros where nothing is known,
    /// for choice 1, and for another choice a mixture drawn from the number.
    pub fn crash(&self, alloc: Global, choice: u64) -> Result<MemDisk, AllocError>
        ensures image { IfOk result (λ disk. IsImage (pending_of self.now) (seen_of disk)) }
        ensures seen { choice ≡ 0 → IfOk result (λ disk. seen_of disk ≡ seen_of self.now) }
        ensures stable { choice ≡ 1 →
            IfOk result (λ disk. seen_of disk ≡ stable_of (pending_of self.now)) }
        ensures settled { IfOk result (λ disk. pending_of disk ≡ settled (seen_of disk)) }
        ensures refused { IfOk result (λ disk. refused_of disk ≡ 0) }
    {
        if choice == 0 {
            return MemDisk::new(alloc, &self.current.bytes);
        }
        let image = torn(alloc, &self.current, choice)?;
        MemDisk::new(alloc, &image)
    }

    /// How many calls failed, all of them for want of memory.
    pub fn refused(&self) -> u64
        ensures { result ≡ refused_of self.now }
    {
        self.refused
    }
}

// Ends the time since the last sync: all bytes are stable. Where memory is wanting, nothing
// changes.
fn settle(alloc: Global, now: &mut Stretch, past: &mut Vec<Stretch>) -> Result<(), AllocError>
    ensures bytes { now.new.bytes.items ≡ now.old.bytes.items }
    ensures pending { OnOk result (pending_in now.new ≡ settled now.old.bytes.items) }
    ensures calls { OnOk result (now.new.calls ≡ 0) }
    ensures past { OnOk result (past.new.items ≡ past.old.items ++ now.old ∷ []) }
    ensures pending_err { OnErr result (pending_in now.new ≡ pending_in now.old) }
    ensures calls_err { OnErr result (now.new.calls ≡ now.old.calls) }
    ensures past_err { OnErr result (past.new.items ≡ past.old.items) }
{
    let next = Stretch::new(alloc, &now.bytes)?;
    past.reserve(1)?;
    let ended = mem::replace(now, next);
    past.push_reserved(ended);
    Ok(())
}

impl Disk for MemDisk {
    ghost tells = { Unit {0} };

    ghost seen = { seen_of };

    ghost pending = { pending_of };

    ghost len = { λ disk. length (seen_of disk) };

    ghost moment = { moment_of };

    ghost left_since = { left_of };

    ghost faults = { refused_of };

    ghost sized = { λ disk tells. refl };

    ghost seen_is_image = { λ disk tells.
        bytes_are_image disk.current.touched.items disk.current.bytes.items disk.current.greatest };

    ghost counts_now = { λ disk t image tells le now. inr now };

    ghost only_now = { λ disk image tells left.
        only_this (past_of disk) disk.current.calls (pending_of disk) image left };

    fn size(&mut self) -> Result<u64, Failed>
        ensures size { IfOk result (λ size. size ≡ length (seen_of self.old)) }
        ensures len { length (seen_of self.new) ≡ length (seen_of self.old) }
        ensures same { IsAsBefore seen_of pending_of self.old self.new }
        ensures passes { Passes (members (Unit {0}) moment_of left_of pending_of refused_of)
            self.old self.new result }
        ensures steady { Steady (refused_of self.old) (refused_of self.new) result }
        ensures succeeds { IsOk result }
        ensures refused { refused_of self.new ≡ refused_of self.old }
    {
        self.current.tick();
        Ok(self.current.bytes.len() as u64)
    }

    fn read(&mut self, at: u64, buf: &mut [u8]) -> Result<usize, Failed>
        ensures bound { IfOk result (λ count. count ≤ length buf.new) }
        ensures progress { IfOk result
            (λ count. count ≡ 0 → 0 < length buf.new → length (seen_of self.old) ≤ at) }
        ensures bytes { IfOk result (IsReadAt (seen_of self.old) at buf.new) }
        ensures len { length (seen_of self.new) ≡ length (seen_of self.old) }
        ensures same { IsAsBefore seen_of pending_of self.old self.new }
        ensures passes { Passes (members (Unit {0}) moment_of left_of pending_of refused_of)
            self.old self.new result }
        ensures steady { Steady (refused_of self.old) (refused_of self.new) result }
        ensures succeeds { IsOk result }
        ensures refused { refused_of self.new ≡ refused_of self.old }
    {
        self.current.tick();
        let len = self.current.bytes.len();
        let from = (at as usize).min(len);
        let count = buf.len().min(len - from);
        buf[..count].copy_from_slice(&self.current.bytes[from..from + count]);
        Ok(count)
    }

    fn write_at(&mut self, at: u64, piece: &[u8]) -> Result<(), Failed>
        requires place { at ≤ length (seen_of self.old) }
        requires room { at + length piece.now < 2 ^ 63 }
        ensures len { OnOk result (length (seen_of self.new)
            ≡ max (length (seen_of self.old)) (at + length piece.now)) }
        ensures len_err { OnErr result ((length (seen_of self.old) ≤ length (seen_of self.new))
            × (length (seen_of self.new) ≤ max (length (seen_of self.old))
            (at + length piece.now))) }
        ensures seen { OnOk result
            (seen_of self.new ≡ put_at at piece.now (seen_of self.old)) }
        ensures pending { pending_of self.new
            ≡ written at (length piece.now) (pending_of self.old) }
        ensures passes { Passes (members (Unit {0}) moment_of left_of pending_of refused_of)
            self.old self.new result }
        ensures steady { Steady (refused_of self.old) (refused_of self.new) result }
        ensures refused { refused_of self.new
            ≡ (if is_ok result then refused_of self.old else min (refused_of self.old + 1)
            (2 ^ 64 - 1)) }
        ensures seen_err { OnErr result (seen_of self.new ≡ seen_of self.old) }
    {
        self.current.tick();
        match self.current.write(at as usize, piece) {
            Ok(()) => Ok(()),
            Err(_) => {
                self.refused = self.refused.saturating_add(1);
                Err(Failed)
            }
        }
    }

    fn cut(&mut self, size: u64) -> Result<(), Failed>
        requires { size ≤ length (seen_of self.old) }
        ensures len { OnOk result (length (seen_of self.new) ≡ size) }
        ensures len_err { OnErr result ((size ≤ length (seen_of self.new))
            × (length (seen_of self.new) ≤ length (seen_of self.old))) }
        ensures seen { OnOk result (seen_of self.new ≡ take size (seen_of self.old)) }
        ensures pending { pending_of self.new ≡ shortened size (pending_of self.old) }
        ensures passes { Passes (members (Unit {0}) moment_of left_of pending_of refused_of)
            self.old self.new result }
        ensures steady { Steady (refused_of self.old) (refused_of self.new) result }
        ensures succeeds { IsOk result }
        ensures refused { refused_of self.new ≡ refused_of self.old }
    {
        self.current.tick();
        self.current.cut(size as usize);
        Ok(())
    }

    fn sync(&mut self) -> Result<(), Failed>
        ensures len { length (seen_of self.new) ≡ length (seen_of self.old) }
        ensures seen { seen_of self.new ≡ seen_of self.old }
        ensures pending { OnOk result (pending_of self.new ≡ settled (seen_of self.old)) }
        ensures pending_err { OnErr result (pending_of self.new ≡ pending_of self.old) }
        ensures passes { Passes (members (Unit {0}) moment_of left_of pending_of refused_of)
            self.old self.new result }
        ensures steady { Steady (refused_of self.old) (refused_of self.new) result }
        ensures refused { refused_of self.new
            ≡ (if is_ok result then refused_of self.old else min (refused_of self.old + 1)
            (2 ^ 64 - 1)) }
    {
        self.current.tick();
        match settle(self.alloc, &mut self.current, &mut self.past) {
            Ok(()) => Ok(()),
            Err(_) => {
                self.refused = self.refused.saturating_add(1);
                Err(Failed)
            }
        }
    }
}
