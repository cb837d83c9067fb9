// A disk that stops.
ghost use Rattle.std.specs.Prelude.{◌≡◌, ◌⊎◌, ◌+◌, ◌-◌, ◌^◌, ◌<◌, ◌≤◌, ◌↔◌, IsTrue, length, take, min, max, IfOk, OnOk, OnErr, IsErr, if◌then◌else◌};
ghost use Rattle.sx_base.specs.Causes.{Rose, Steady};
ghost use Rattle.sx_base.specs.Disk.{IsAsBefore, IsReadAt, Passes, members, written, shortened, settled};
ghost use Rattle.sx_base.specs.Bytes.{put_at};
ghost use Rattle.disk_model.specs.FuseDisk.{of_inner, left_inside, faults_of};

use std::marker::Model;
use sx_base::{Disk, Failed};

/// A disk that passes a number of calls to the disk inside, and then fails every one, as when the
/// power fails. A write or a cut that fails so counts as done: it reaches the disk inside, and
/// stays unstable there. No later sync and no later read does.
#[derive(Debug, Drop)]
pub struct FuseDisk<D> {
    disk: D,
    left: u64,
    stopped: u64,
}

impl<D> Model for FuseDisk<D> {
    ghost use Rattle.disk_model.specs.FuseDisk.{Fused};

    ghost Value = { Fused D };

    ghost view = { λ fuse. record { disk = fuse.disk; left = fuse.left; stopped = fuse.stopped } };
}

impl<D> FuseDisk<D> {
    /// A disk that passes `calls` calls.
    pub fn new(disk: D, calls: u64) -> FuseDisk<D>
        ensures new { result ≡ record { disk = disk; left = calls; stopped = 0 } }
    {
        FuseDisk {
            disk,
            left: calls,
            stopped: 0,
        }
    }

    // It passes so many calls from here on.
    pub(crate) fn set_left(&mut self, calls: u64)
        ensures { self.new ≡ record self.old { left = calls } }
    {
        self.left = calls;
    }

    /// The disk inside.
    pub fn into_inner(self) -> D
        ensures { result ≡ self.disk }
    {
        let FuseDisk {
            disk,
            left: _,
            stopped: _,
        } = self;
        disk
    }
}

// Takes one from the calls that are left, and says whether there was one.
fn passes(left: &mut u64, stopped: &mut u64) -> bool
    ensures passed { IsTrue result ↔ (0 < left.old) }
    ensures left { left.new ≡ left.old - 1 }
    ensures stopped { stopped.new
        ≡ (if result then stopped.old else min (stopped.old + 1) (2 ^ 64 - 1)) }
    ensures grows { stopped.old ≤ stopped.new }
{
    if *left == 0 {
        *stopped = stopped.saturating_add(1);
        false
    } else {
        *left -= 1;
        true
    }
}

impl<D: Disk> Disk for FuseDisk<D> {
    ghost tells = { D.tells };

    ghost seen = { of_inner D.seen };

    ghost pending = { of_inner D.pending };

    ghost len = { of_inner D.len };

    ghost moment = { of_inner D.moment };

    ghost left_since = { left_inside D.left_since };

    ghost faults = { faults_of D.faults };

    ghost sized = { λ fuse tells. D.sized fuse.disk tells };

    ghost seen_is_image = { λ fuse tells. D.seen_is_image fuse.disk tells };

    ghost counts_now = { λ fuse t image tells le now. D.counts_now fuse.disk t image tells le now };

    ghost only_now = { λ fuse image tells left. D.only_now fuse.disk image tells left };

    fn size(&mut self) -> Result<u64, Failed>
        ensures size { IfOk result (λ size. size ≡ D.len self.old.disk) }
        ensures len { D.len self.new.disk ≡ D.len self.old.disk }
        ensures same { D.tells →
            IsAsBefore (of_inner D.seen) (of_inner D.pending) self.old self.new }
        ensures passes { Passes (members D.tells (of_inner D.moment)
            (left_inside D.left_since) (of_inner D.pending) (faults_of D.faults))
            self.old self.new result }
        ensures steady { Steady (faults_of D.faults self.old) (faults_of D.faults self.new) result }
        ensures counts { self.new.left ≡ self.old.left - 1 }
        ensures stopped { self.old.left ≡ 0 → IsErr result }
        ensures passed { 0 < self.old.left →
            OnErr result (Rose (D.faults self.old.disk) (D.faults self.new.disk)) }
    {
        let passes = passes(&mut self.left, &mut self.stopped);
        let outcome = self.disk.size();
        if !passes {
            return Err(Failed);
        }
        outcome
    }

    fn read(&mut self, at: u64, buf: &mut [u8]) -> Result<usize, Failed>
        ensures bound { IfOk result (λ count. count ≤ length buf.new) }
        ensures progress { IfOk result
            (λ count. count ≡ 0 → 0 < length buf.new → D.len self.old.disk ≤ at) }
        ensures bytes { D.tells → IfOk result (IsReadAt (D.seen self.old.disk) at buf.new) }
        ensures len { D.len self.new.disk ≡ D.len self.old.disk }
        ensures same { D.tells →
            IsAsBefore (of_inner D.seen) (of_inner D.pending) self.old self.new }
        ensures passes { Passes (members D.tells (of_inner D.moment)
            (left_inside D.left_since) (of_inner D.pending) (faults_of D.faults))
            self.old self.new result }
        ensures steady { Steady (faults_of D.faults self.old) (faults_of D.faults self.new) result }
        ensures counts { self.new.left ≡ self.old.left - 1 }
        ensures stopped { self.old.left ≡ 0 → IsErr result }
        ensures passed { 0 < self.old.left →
            OnErr result (Rose (D.faults self.old.disk) (D.faults self.new.disk)) }
    {
        let passes = passes(&mut self.left, &mut self.stopped);
        if passes {
            return self.disk.read(at, buf);
        }
        // The clock goes on.
        let _ = self.disk.size();
        Err(Failed)
    }

    fn write_at(&mut self, at: u64, piece: &[u8]) -> Result<(), Failed>
        requires place { at ≤ D.len self.old.disk }
        requires room { at + length piece.now < 2 ^ 63 }
        ensures len { OnOk result
            (D.len self.new.disk ≡ max (D.len self.old.disk) (at + length piece.now)) }
        ensures len_err { OnErr result ((D.len self.old.disk ≤ D.len self.new.disk)
            × (D.len self.new.disk ≤ max (D.len self.old.disk) (at + length piece.now))) }
        ensures seen { D.tells →
            OnOk result (D.seen self.new.disk ≡ put_at at piece.now (D.seen self.old.disk)) }
        ensures pending { D.tells → D.pending self.new.disk
            ≡ written at (length piece.now) (D.pending self.old.disk) }
        ensures reaches { D.tells →
            (D.seen self.new.disk ≡ put_at at piece.now (D.seen self.old.disk))
            ⊎ Rose (D.faults self.old.disk) (D.faults self.new.disk) }
        ensures passes { Passes (members D.tells (of_inner D.moment)
            (left_inside D.left_since) (of_inner D.pending) (faults_of D.faults))
            self.old self.new result }
        ensures steady { Steady (faults_of D.faults self.old) (faults_of D.faults self.new) result }
        ensures counts { self.new.left ≡ self.old.left - 1 }
        ensures stopped { self.old.left ≡ 0 → IsErr result }
        ensures passed { 0 < self.old.left →
            OnErr result (Rose (D.faults self.old.disk) (D.faults self.new.disk)) }
    {
        let passes = passes(&mut self.left, &mut self.stopped);
        let outcome = self.disk.write_at(at, piece);
        if !passes {
            return Err(Failed);
        }
        outcome
    }

    fn cut(&mut self, size: u64) -> Result<(), Failed>
        requires { size ≤ D.len self.old.disk }
        ensures len { OnOk result (D.len self.new.disk ≡ size) }
        ensures len_err { OnErr result ((size ≤ D.len self.new.disk)
            × (D.len self.new.disk ≤ D.len self.old.disk)) }
        ensures seen { D.tells →
            OnOk result (D.seen self.new.disk ≡ take size (D.seen self.old.disk)) }
        ensures pending { D.tells → D.pending self.new.disk
            ≡ shortened size (D.pending self.old.disk) }
        ensures reaches { D.tells →
            (D.seen self.new.disk ≡ take size (D.seen self.old.disk))
            ⊎ Rose (D.faults self.old.disk) (D.faults self.new.disk) }
        ensures passes { Passes (members D.tells (of_inner D.moment)
            (left_inside D.left_since) (of_inner D.pending) (faults_of D.faults))
            self.old self.new result }
        ensures steady { Steady (faults_of D.faults self.old) (faults_of D.faults self.new) result }
        ensures counts { self.new.left ≡ self.old.left - 1 }
        ensures stopped { self.old.left ≡ 0 → IsErr result }
        ensures passed { 0 < self.old.left →
            OnErr result (Rose (D.faults self.old.disk) (D.faults self.new.disk)) }
    {
        let passes = passes(&mut self.left, &mut self.stopped);
        let outcome = self.disk.cut(size);
        if !passes {
            return Err(Failed);
        }
        outcome
    }

    fn sync(&mut self) -> Result<(), Failed>
        ensures len { D.len self.new.disk ≡ D.len self.old.disk }
        ensures seen { D.tells → D.seen self.new.disk ≡ D.seen self.old.disk }
        ensures pending { D.tells →
            OnOk result (D.pending self.new.disk ≡ settled (D.seen self.old.disk)) }
        ensures pending_err { D.tells →
            OnErr result (D.pending self.new.disk ≡ D.pending self.old.disk) }
        ensures passes { Passes (members D.tells (of_inner D.moment)
            (left_inside D.left_since) (of_inner D.pending) (faults_of D.faults))
            self.old self.new result }
        ensures steady { Steady (faults_of D.faults self.old) (faults_of D.faults self.new) result }
        ensures counts { self.new.left ≡ self.old.left - 1 }
        ensures stopped { self.old.left ≡ 0 → IsErr result }
        ensures passed { 0 < self.old.left →
            OnErr result (Rose (D.faults self.old.disk) (D.faults self.new.disk)) }
    {
        let passes = passes(&mut self.left, &mut self.stopped);
        if passes {
            return self.disk.sync();
        }
        // The clock goes on.
        let _ = self.disk.size();
        Err(Failed)
    }
}
