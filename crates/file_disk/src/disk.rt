// The disk.
ghost use Rattle.std.specs.Prelude.{◌≡◌, ◌⊎◌, ◌-◌, ◌+◌, ◌^◌, ◌<◌, ◌≤◌, ◌↔◌, [], true, false, IsTrue, IsOk, IsErr, is_some, length, min, max, IfOk, OnOk, OnErr};
ghost use Rattle.sx_base.specs.Causes.{Steady};
ghost use Rattle.sx_base.specs.Disk.{Passes, members};
ghost use Rattle.file_disk.specs.Syncing.{IsStable, needs_no_sync};
ghost use Rattle.file_disk.specs.State.{opened, passed, failed, size_of, moment_of, faults_of, unseen, unknown, never, sent, broken_down, follows, after_write, IsBroken, IsCounted};

use std::alloc::{AllocError, Global};
use std::fs::OpenFile;
use std::io;
use std::io::ErrorKind;
use std::marker::Model;
use std::os::unix::fs::FileExt;
use sx_base::{Disk, Failed};

/// How many bytes are gathered at the most.
pub const ROOM: usize = 1 << 20;

/// A disk that is a file of the system. It tells nothing of its bytes.
///
/// Writes that follow one another are gathered, up to 1 MiB, and sent as one: before a read, a cut
/// and a sync, before a write elsewhere, and where there is no room for more. So a fault is
/// answered where it surfaces, which may be a later call than the write. After a write, a cut or a
/// sync that failed nothing is tried again, since the system may have dropped the bytes and say so
/// only once: from then on each call answers `Failed`.
///
/// Memory is taken at the first write that is gathered. While there is none, each write goes
/// straight to the file.
///
/// The size is kept here, with what is gathered. Each `Failed` raises the count of faults, which
/// ends at the greatest u64.
#[derive(Debug, Drop)]
pub struct FileDisk<F> {
    file: F,
    // The folder in which a new file stands, until a sync made the file's name stable there.
    folder: Option<F>,
    writable: bool,
    size: u64,
    alloc: Global,
    // The bytes that are gathered stand first. There is no room for them before there are any.
    room: Vec<u8>,
    roomy: bool,
    filled: usize,
    // Where the first of them goes.
    from: u64,
    broken: bool,
    faults: u64,
    moment: u64,
}

impl<F> Model for FileDisk<F> {
    ghost use Rattle.std.specs.Prelude.{take, is_some, length, ◌<◌, ◌≤◌, ◌^◌};
    ghost use Rattle.file_disk.specs.State.{FileState};

    ghost Value = { FileState };

    ghost view = { λ d. record {
      size = d.size;
      from = d.from;
      gathered = take d.filled d.room.items;
      roomy = d.roomy;
      broken = d.broken;
      writable = d.writable;
      fresh = is_some d.folder;
      faults = d.faults;
      moment = d.moment;
    } };

    ghost use Rattle.file_disk.specs.State.{IsHeld};

    ghost invariant = { λ d. IsHeld d.roomy d.size d.from d.filled d.room.items };
}

impl<F: FileExt + OpenFile + Drop> FileDisk<F> {
    /// A file that is open, of this size, which is below 2^63. The folder is given where the file
    /// may be new there: the first sync then makes the file's name stable too. Takes no memory.
    pub fn new(alloc: Global, file: F, folder: Option<F>, writable: bool, size: u64) -> FileDisk<F>
        requires small { size < 2 ^ 63 }
        ensures new { result ≡ opened size writable (is_some folder) }
    {
        FileDisk {
            file,
            folder,
            writable,
            size,
            alloc,
            room: Vec::new(alloc),
            roomy: false,
            filled: 0,
            from: 0,
            broken: false,
            faults: 0,
            moment: 0,
        }
    }

    // Counts a call.
    fn pass(&mut self)
        ensures { self.new ≡ passed self.old }
    {
        self.moment = self.moment.saturating_add(1);
    }

    // Counts a call that failed.
    fn fail(&mut self) -> Failed
        ensures state { self.new ≡ failed self.old }
        ensures counted { IsCounted self.old self.new }
    {
        self.moment = self.moment.saturating_add(1);
        self.faults = self.faults.saturating_add(1);
        Failed
    }

    // Counts a call that failed, and lets each later one fail.
    fn break_down(&mut self) -> Failed
        ensures state { self.new ≡ failed (broken_down self.old) }
        ensures counted { IsCounted self.old self.new }
    {
        self.broken = true;
        self.fail()
    }

    // Sends what is gathered.
    fn send(&mut self) -> Result<(), Failed>
        ensures sent { OnOk result (self.new ≡ sent self.old) }
        ensures same { OnErr result (self.new ≡ self.old) }
        ensures stuck { IsTrue self.old.broken → IsErr result }
    {
        if self.broken {
            return Err(Failed);
        }
        let gathered = &self.room[..self.filled];
        let Ok(()) = self.file.write_all_at(gathered, self.from) else {
            return Err(Failed);
        };
        self.filled = 0;
        self.from = 0;
        Ok(())
    }

    // Whether so many bytes at this place follow those that are gathered, and there is room for
    // them.
    fn follows(&self, at: u64, count: usize) -> bool
        ensures { result ≡ follows at count self.now }
    {
        0 < self.filled && at == self.from + self.filled as u64 && count <= ROOM - self.filled
    }

    // Gathers a piece behind the others.
    fn gather(&mut self, at: u64, piece: &[u8])
        requires room { at + length piece.now < 2 ^ 63 }
        requires follows { follows at (length piece.now) self.old ≡ true }
        ensures { self.new ≡ after_write at piece.now self.old }
    {
        let end = self.filled + piece.len();
        self.room[self.filled..end].copy_from_slice(piece);
        self.filled = end;
        self.size = self.size.max(at + piece.len() as u64);
    }

    // Whether there is room, which is made where there is none.
    fn make_room(&mut self) -> bool
        ensures room { self.new ≡ record self.old { roomy = result } }
        ensures stays { IsTrue self.old.roomy → IsTrue result }
    {
        if !self.roomy {
            if let Ok(room) = room_for(self.alloc) {
                self.room = room;
                self.roomy = true;
            }
        }
        self.roomy
    }

    // Gathers a piece, where nothing is gathered.
    fn begin(&mut self, at: u64, piece: &[u8])
        requires room { at + length piece.now < 2 ^ 63 }
        requires short { length piece.now ≤ 2 ^ 20 }
        requires roomy { self.old.roomy ≡ true }
        ensures { self.new ≡ record self.old {
          size = max self.old.size (at + length piece.now);
          from = at;
          gathered = piece.now;
        } }
    {
        self.room[0..piece.len()].copy_from_slice(piece);
        self.filled = piece.len();
        self.from = at;
        self.size = self.size.max(at + piece.len() as u64);
    }

    // Makes stable what was sent.
    fn settle(&self) -> io::Result<()> {
        let Some(folder) = &self.folder else {
            return self.settle_data();
        };
        self.file.sync_all()?;
        folder.sync_all()
    }

    // Makes stable what was sent to a file that is not new.
    fn settle_data(&self) -> io::Result<()> {
        settled(self.writable, self.file.sync_data())
    }
}

// Room for what is gathered.
fn room_for(alloc: Global) -> Result<Vec<u8>, AllocError>
    ensures { IfOk result (λ room. length room.items ≡ 2 ^ 20) }
{
    vec![in alloc; 0; ROOM]
}

// What the answer to a sync says: all is stable only if it was done, or there was nothing to be
// made stable.
fn settled(writable: bool, answer: io::Result<()>) -> io::Result<()>
    ensures stable { IsOk result ↔ IsStable writable answer }
    ensures failed { OnErr result (result ≡ answer) }
{
    match answer {
        Err(error) if needs_no_sync(writable, error.kind()) => Ok(()),
        answer => answer,
    }
}

// Whether a sync that fails so left nothing undone: the file is only read, and stands on a medium
// that takes no sync.
fn needs_no_sync(writable: bool, kind: ErrorKind) -> bool
    ensures { result ≡ needs_no_sync writable kind }
{
    match kind {
        ErrorKind::InvalidInput | ErrorKind::ReadOnlyFilesystem => !writable,
        _ => false,
    }
}

impl<F: FileExt + OpenFile + Drop> Disk for FileDisk<F> {
    ghost tells = { ⊥ };

    ghost seen = { unseen };

    ghost pending = { unknown };

    ghost len = { size_of };

    ghost moment = { moment_of };

    ghost left_since = { never };

    ghost faults = { faults_of };

    ghost sized = { λ _ tells. absurd tells };

    ghost seen_is_image = { λ _ tells. absurd tells };

    ghost counts_now = { λ _ _ _ tells _ _. absurd tells };

    ghost only_now = { λ _ _ tells _. absurd tells };

    fn size(&mut self) -> Result<u64, Failed>
        ensures size { IfOk result (λ size. size ≡ self.old.size) }
        ensures len { self.new.size ≡ self.old.size }
        ensures passes { Passes (members ⊥ moment_of never unknown faults_of)
            self.old self.new result }
        ensures steady { Steady self.old.faults self.new.faults result }
        ensures passed { OnOk result (self.new ≡ passed self.old) }
        ensures failed { OnErr result (self.new ≡ failed self.old) }
        ensures stuck { IsTrue self.old.broken → IsErr result }
        ensures answered { self.old.broken ≡ false → IsOk result }
    {
        if self.broken {
            return Err(self.fail());
        }
        self.pass();
        Ok(self.size)
    }

    fn read(&mut self, at: u64, buf: &mut [u8]) -> Result<usize, Failed>
        ensures count { IfOk result
            (λ count. count ≡ min (length buf.new) (self.old.size - at)) }
        ensures bound { IfOk result (λ count. count ≤ length buf.new) }
        ensures progress { IfOk result
            (λ count. count ≡ 0 → 0 < length buf.new → self.old.size ≤ at) }
        ensures len { self.new.size ≡ self.old.size }
        ensures passes { Passes (members ⊥ moment_of never unknown faults_of)
            self.old self.new result }
        ensures steady { Steady self.old.faults self.new.faults result }
        ensures passed { OnOk result (self.new ≡ passed (sent self.old)) }
        ensures failed { OnErr result ((self.new ≡ failed (sent self.old))
            ⊎ IsBroken self.old self.new) }
        ensures stuck { IsTrue self.old.broken → IsErr result }
    {
        let Ok(()) = self.send() else {
            return Err(self.break_down());
        };
        let left = self.size.saturating_sub(at);
        let count = left.min(buf.len() as u64) as usize;
        let Ok(()) = self.file.read_exact_at(&mut buf[..count], at) else {
            return Err(self.fail());
        };
        self.pass();
        Ok(count)
    }

    fn write_at(&mut self, at: u64, piece: &[u8]) -> Result<(), Failed>
        requires place { at ≤ self.old.size }
        requires room { at + length piece.now < 2 ^ 63 }
        ensures len { OnOk result
            (self.new.size ≡ max self.old.size (at + length piece.now)) }
        ensures len_err { OnErr result ((self.old.size ≤ self.new.size)
            × (self.new.size ≤ max self.old.size (at + length piece.now))) }
        ensures passes { Passes (members ⊥ moment_of never unknown faults_of)
            self.old self.new result }
        ensures steady { Steady self.old.faults self.new.faults result }
        ensures room { IsTrue self.old.roomy → IsTrue self.new.roomy }
        ensures passed { OnOk result (self.new
            ≡ passed (after_write at piece.now (record self.old { roomy = self.new.roomy }))) }
        ensures failed { OnErr result (IsBroken self.old self.new) }
        ensures stuck { IsTrue self.old.broken → IsErr result }
        ensures only_read { self.old.writable ≡ false → IsErr result }
    {
        if self.broken || !self.writable {
            return Err(self.break_down());
        }
        if self.follows(at, piece.len()) {
            self.gather(at, piece);
            self.pass();
            return Ok(());
        }
        let Ok(()) = self.send() else {
            return Err(self.break_down());
        };
        if piece.len() <= ROOM && self.make_room() {
            self.begin(at, piece);
            self.pass();
            return Ok(());
        }
        let Ok(()) = self.file.write_all_at(piece, at) else {
            return Err(self.break_down());
        };
        self.size = self.size.max(at + piece.len() as u64);
        self.pass();
        Ok(())
    }

    fn cut(&mut self, size: u64) -> Result<(), Failed>
        requires { size ≤ self.old.size }
        ensures len { OnOk result (self.new.size ≡ size) }
        ensures len_err { OnErr result
            ((size ≤ self.new.size) × (self.new.size ≤ self.old.size)) }
        ensures passes { Passes (members ⊥ moment_of never unknown faults_of)
            self.old self.new result }
        ensures steady { Steady self.old.faults self.new.faults result }
        ensures passed { OnOk result (self.new ≡ passed (record (sent self.old) { size = size })) }
        ensures failed { OnErr result (IsBroken self.old self.new) }
        ensures stuck { IsTrue self.old.broken → IsErr result }
        ensures only_read { self.old.writable ≡ false → IsErr result }
    {
        if !self.writable {
            return Err(self.break_down());
        }
        let Ok(()) = self.send() else {
            return Err(self.break_down());
        };
        let Ok(()) = self.file.set_len(size) else {
            return Err(self.break_down());
        };
        self.size = size;
        self.pass();
        Ok(())
    }

    fn sync(&mut self) -> Result<(), Failed>
        ensures len { self.new.size ≡ self.old.size }
        ensures passes { Passes (members ⊥ moment_of never unknown faults_of)
            self.old self.new result }
        ensures steady { Steady self.old.faults self.new.faults result }
        ensures passed { OnOk result (self.new ≡ passed (record (sent self.old) { fresh = false })) }
        ensures failed { OnErr result (IsBroken self.old self.new) }
        ensures stuck { IsTrue self.old.broken → IsErr result }
    {
        let Ok(()) = self.send() else {
            return Err(self.break_down());
        };
        let Ok(()) = self.settle() else {
            return Err(self.break_down());
        };
        self.folder = None;
        self.pass();
        Ok(())
    }
}
