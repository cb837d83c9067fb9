// A disk that fails now and then.
ghost use Rattle.std.specs.Prelude.{◌≡◌, ◌⊎◌, ◌+◌, ◌-◌, ◌^◌, ◌<◌, ◌≤◌, [], false, IsTrue, length, take, min, max, IfOk, OnOk, OnErr, IsErr, if◌then◌else◌};
ghost use Rattle.sx_base.specs.Causes.{Rose, Steady};
ghost use Rattle.sx_base.specs.Disk.{IsAsBefore, IsReadAt, Passes, members, written, shortened, settled};
ghost use Rattle.sx_base.specs.Bytes.{put_at};
ghost use Rattle.disk_model.specs.FlakyDisk.{is_listed, CountsCall, within, left_within, faults_within};

use crate::fuse_disk::FuseDisk;
use std::marker::Model;
use sx_base::{Disk, Failed};

/// A disk that fails the calls of the numbers that it was given, and passes all others to the disk
/// inside, as a medium with bad places. A write or a cut that fails so counts as done: it reaches
/// the disk inside, and stays unstable there until a sync that passes.
#[derive(Debug, Drop)]
pub struct FlakyDisk<D> {
    fuse: FuseDisk<D>,
    failing: Vec<u64>,
    calls: u64,
}

impl<D> Model for FlakyDisk<D> {
    ghost use Rattle.disk_model.specs.FlakyDisk.{Flaky};

    ghost Value = { Flaky D };

    ghost view = { λ flaky. record {
      disk = flaky.fuse.disk;
      failing = flaky.failing.items;
      calls = flaky.calls;
      stopped = flaky.fuse.stopped;
    } };
}

impl<D> FlakyDisk<D> {
    /// A disk that fails the calls of these numbers, counted from 1 over all its calls.
    pub fn new(disk: D, failing: Vec<u64>) -> FlakyDisk<D>
        ensures new { result
            ≡ record { disk = disk; failing = failing.items; calls = 0; stopped = 0 } }
    {
        FlakyDisk {
            fuse: FuseDisk::new(disk, 0),
            failing,
            calls: 0,
        }
    }

    /// The disk inside.
    pub fn into_inner(self) -> D
        ensures { result ≡ self.disk }
    {
        let FlakyDisk {
            fuse,
            failing: _,
            calls: _,
        } = self;
        fuse.into_inner()
    }
}

// Counts one call more, and says how many calls are left to pass before one fails: none where it is
// listed.
fn left(failing: &[u64], calls: &mut u64) -> u64
    ensures counted { calls.new ≡ min (calls.old + 1) (2 ^ 64 - 1) }
    ensures left { result ≡ (if is_listed failing.now calls.new then 0 else 1) }
{
    *calls = calls.saturating_add(1);
    if failing.contains(calls) { 0 } else { 1 }
}

impl<D: Disk> Disk for FlakyDisk<D> {
    ghost tells = { D.tells };

    ghost seen = { within D.seen };

    ghost pending = { within D.pending };

    ghost len = { within D.len };

    ghost moment = { within D.moment };

    ghost left_since = { left_within D.left_since };

    ghost faults = { faults_within D.faults };

    ghost sized = { λ flaky tells. D.sized flaky.disk tells };

    ghost seen_is_image = { λ flaky tells. D.seen_is_image flaky.disk tells };

    ghost counts_now = { λ flaky t image tells le now. D.counts_now flaky.disk t image tells le now };

    ghost only_now = { λ flaky image tells left. D.only_now flaky.disk image tells left };

    fn size(&mut self) -> Result<u64, Failed>
        ensures size { IfOk result (λ size. size ≡ D.len self.old.disk) }
        ensures len { D.len self.new.disk ≡ D.len self.old.disk }
        ensures same { D.tells →
            IsAsBefore (within D.seen) (within D.pending) self.old self.new }
        ensures passes { Passes (members D.tells (within D.moment)
            (left_within D.left_since) (within D.pending) (faults_within D.faults))
            self.old self.new result }
        ensures steady { Steady (faults_within D.faults self.old)
            (faults_within D.faults self.new) result }
        ensures counts { CountsCall self.old self.new }
        ensures stopped { IsTrue (is_listed self.old.failing self.new.calls) → IsErr result }
        ensures passed { is_listed self.old.failing self.new.calls ≡ false →
            OnErr result (Rose (D.faults self.old.disk) (D.faults self.new.disk)) }
    {
        self.fuse.set_left(left(&self.failing, &mut self.calls));
        self.fuse.size()
    }

    fn read(&mut self, at: u64, buf: &mut [u8]) -> Result<usize, Failed>
        ensures bound { IfOk result (λ count. count ≤ length buf.new) }
        ensures progress { IfOk result
            (λ count. count ≡ 0 → 0 < length buf.new → D.len self.old.disk ≤ at) }
        ensures bytes { D.tells → IfOk result (IsReadAt (D.seen self.old.disk) at buf.new) }
        ensures len { D.len self.new.disk ≡ D.len self.old.disk }
        ensures same { D.tells →
            IsAsBefore (within D.seen) (within D.pending) self.old self.new }
        ensures passes { Passes (members D.tells (within D.moment)
            (left_within D.left_since) (within D.pending) (faults_within D.faults))
            self.old self.new result }
        ensures steady { Steady (faults_within D.faults self.old)
            (faults_within D.faults self.new) result }
        ensures counts { CountsCall self.old self.new }
        ensures stopped { IsTrue (is_listed self.old.failing self.new.calls) → IsErr result }
        ensures passed { is_listed self.old.failing self.new.calls ≡ false →
            OnErr result (Rose (D.faults self.old.disk) (D.faults self.new.disk)) }
    {
        self.fuse.set_left(left(&self.failing, &mut self.calls));
        self.fuse.read(at, buf)
    }

    fn write_at(&mut self, at: u64, piece: &[u8]) -> Result<(), Failed>
        requires place { at ≤ D.len self.old.disk }
        requires room { at + length piece.now < 2 ^ 63 }
        ensures len { OnOk result
            (D.len self.new.disk ≡ max (D.len self.old.disk) (at + length piece.now)) }
        ensures len_err { OnErr result ((D.len self.old.disk ≤ D.len self.new.disk)
            × (D.len self.new.disk ≤ max (D.len self.old.disk) (at + length piece.now))) }
        ensures seen { D.tells →
            OnOk result (D.seen self.new.disk ≡ put_at at piece.now (D.seen self.old.disk)) }
        ensures pending { D.tells → D.pending self.new.disk
            ≡ written at (length piece.now) (D.pending self.old.disk) }
        ensures reaches { D.tells →
            (D.seen self.new.disk ≡ put_at at piece.now (D.seen self.old.disk))
            ⊎ Rose (D.faults self.old.disk) (D.faults self.new.disk) }
        ensures passes { Passes (members D.tells (within D.moment)
            (left_within D.left_since) (within D.pending) (faults_within D.faults))
            self.old self.new result }
        ensures steady { Steady (faults_within D.faults self.old)
            (faults_within D.faults self.new) result }
        ensures counts { CountsCall self.old self.new }
        ensures stopped { IsTrue (is_listed self.old.failing self.new.calls) → IsErr result }
        ensures passed { is_listed self.old.failing self.new.calls ≡ false →
            OnErr result (Rose (D.faults self.old.disk) (D.faults self.new.disk)) }
    {
        self.fuse.set_left(left(&self.failing, &mut self.calls));
        self.fuse.write_at(at, piece)
    }

    fn cut(&mut self, size: u64) -> Result<(), Failed>
        requires { size ≤ D.len self.old.disk }
        ensures len { OnOk result (D.len self.new.disk ≡ size) }
        ensures len_err { OnErr result ((size ≤ D.len self.new.disk)
            × (D.len self.new.disk ≤ D.len self.old.disk)) }
        ensures seen { D.tells →
            OnOk result (D.seen self.new.disk ≡ take size (D.seen self.old.disk)) }
        ensures pending { D.tells → D.pending self.new.disk
            ≡ shortened size (D.pending self.old.disk) }
        ensures reaches { D.tells →
            (D.seen self.new.disk ≡ take size (D.seen self.old.disk))
            ⊎ Rose (D.faults self.old.disk) (D.faults self.new.disk) }
        ensures passes { Passes (members D.tells (within D.moment)
            (left_within D.left_since) (within D.pending) (faults_within D.faults))
            self.old self.new result }
        ensures steady { Steady (faults_within D.faults self.old)
            (faults_within D.faults self.new) result }
        ensures counts { CountsCall self.old self.new }
        ensures stopped { IsTrue (is_listed self.old.failing self.new.calls) → IsErr result }
        ensures passed { is_listed self.old.failing self.new.calls ≡ false →
            OnErr result (Rose (D.faults self.old.disk) (D.faults self.new.disk)) }
    {
        self.fuse.set_left(left(&self.failing, &mut self.calls));
        self.fuse.cut(size)
    }

    fn sync(&mut self) -> Result<(), Failed>
        ensures len { D.len self.new.disk ≡ D.len self.old.disk }
        ensures seen { D.tells → D.seen self.new.disk ≡ D.seen self.old.disk }
        ensures pending { D.tells →
            OnOk result (D.pending self.new.disk ≡ settled (D.seen self.old.disk)) }
        ensures pending_err { D.tells →
            OnErr result (D.pending self.new.disk ≡ D.pending self.old.disk) }
        ensures passes { Passes (members D.tells (within D.moment)
            (left_within D.left_since) (within D.pending) (faults_within D.faults))
            self.old self.new result }
        ensures steady { Steady (faults_within D.faults self.old)
            (faults_within D.faults self.new) result }
        ensures counts { CountsCall self.old self.new }
        ensures stopped { IsTrue (is_listed self.old.failing self.new.calls) → IsErr result }
        ensures passed { is_listed self.old.failing self.new.calls ≡ false →
            OnErr result (Rose (D.faults self.old.disk) (D.faults self.new.disk)) }
    {
        self.fuse.set_left(left(&self.failing, &mut self.calls));
        self.fuse.sync()
    }
}
