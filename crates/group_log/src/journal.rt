// The log of a store: groups behind a header, each behind a gate byte. The closed gate at the end
// is stable before anything is written behind it, and it is opened by a write of its own, after all
// that it guards is stable. The format is this program's own.
ghost use Rattle.std.specs.Prelude.{◌≡◌, ◌⊎◌, IfSome, IfNone};
ghost use Rattle.store_model.specs.Image.{start_of};

use crate::LogStop;
use crate::filling::fill;
use crc32c_part::update;
use std::marker::Model;
use sx_base::Disk;

/// The place of a group on the disk: its number, counted from 1, and where its body begins and how
/// long it is, in bytes. The body of a new group ends with the checksum of what stands before it.
#[derive(Debug, Clone, Copy, PartialEq, Eq)]
pub struct GroupPlace {
    pub number: u64,
    pub at: u64,
    pub len: u64,
}

#[derive(Debug, Clone, Copy, PartialEq, Eq)]
enum Stage {
    Reading,
    AtRest,
    InProgress,
    Prepared,
}

/// The places and numbers of a log; the disk is handed to each call.
#[derive(Debug, Drop)]
pub struct Log {
    format: u32,
    limit: u64,
    gate: u64,
    groups: u64,
    size: u64,
    sum: u32,
    stage: Stage,
}

impl Model for Log {
    ghost use Rattle.group_log.specs.State.{LogState};

    ghost Value = { LogState };

    ghost use Rattle.group_log.specs.Shown.{shown, IsCounted};

    ghost view = { shown };

    ghost invariant = { IsCounted };
}

// The text of the header and the number of the format, for the two formats.
const FIRST: [u8; 12] = *b"sndstore\x01\0\0\0";

const SECOND: [u8; 12] = *b"sndstore\x02\0\0\0";

const HEADER: u64 = 20;

// A header of the second format with the limit 2 ^ 40, and a closed gate.
const NEW_STORE: [u8; 21] = *b"sndstore\x02\0\0\0\0\0\0\0\0\x01\0\0\0";

const GREATEST: u64 = (1 << 63) - 1;

const OPEN: u8 = 1;

// A gate and a length.
const GROUP_HEAD: u64 = 9;

const CHECKSUM: u64 = 4;

// What stays free behind a group in progress: room for its checksum and the next gate.
const RESERVE: u64 = CHECKSUM + 1;

impl Log {
    ghost use Rattle.std.specs.Prelude.{◌≡◌, ◌≢◌, ◌⊎◌, ℕ, ◌+◌, ◌^◌, ◌<◌, ◌≤◌, List, [], ◌∷◌, ◌++◌, length, take, drop, slice_index, Ok, Err, None, IfOk, OnOk, OnErr, IfErr, IsErrOf, IsErrAnd};
    ghost use Rattle.sx_base.specs.Causes.{Rose, Steady};
    ghost use Rattle.sx_base.specs.Disk.{Pending, IsAsBefore, IsImage, settled};
    ghost use Rattle.sx_base.specs.Crash.{LeavesOnly};
    ghost use Rattle.store_model.specs.Image.{Header, HasGroups, HasFault, IsCutShort, header_of, usual_header, sealed, reserve};
    ghost use Rattle.group_log.specs.declared.stops.LogStop.TheVariants.{NotStore, LogFull, StoreThere};
    ghost use Rattle.group_log.specs.declared.journal.Stage.TheVariants.{Reading, InProgress};
    ghost use Rattle.group_log.specs.Stopping.{IsFault, IsFaultOr};
    ghost use Rattle.group_log.specs.State.{begun, appended, prepared, published, abandoned};
    ghost use Rattle.group_log.specs.Journal.{IsReading, IsAtRest, IsInProgress, IsPrepared, Reads, Rests, Grows, IsReady, Finds, GoesOn, IsOpened};

    /// Makes a new store on an empty disk: a header of format 2 with the usual limit and a closed
    /// gate, both stable. `StoreThere` exactly where the size is not 0, and then the disk stays as
    /// it was at every moment; `DiskFault`.
    pub fn create<D: Disk>(disk: &mut D) -> Result<(), LogStop>
        ensures made { D.tells → OnOk result (D.seen disk.new ≡ header_of usual_header ++ 0 ∷ []) }
        ensures durable { D.tells → OnOk result (D.pending disk.new ≡ settled (D.seen disk.new)) }
        ensures len { OnOk result (D.len disk.new ≡ 21) }

        // On an empty disk it stops only where the disk failed, and leaves no more than a new
        // store.
        ensures empty { D.len disk.old ≡ 0 →
            IfErr result (IsFault (Rose (D.faults disk.old) (D.faults disk.new))) }
        ensures short { D.len disk.old ≡ 0 → D.len disk.new ≤ 21 }

        // Any other disk stays as it was.
        ensures there { 0 < D.len disk.old →
            IsErrAnd result (IsFaultOr (Rose (D.faults disk.old) (D.faults disk.new))
            (StoreThere (D.len disk.old))) }
        ensures len_kept { 0 < D.len disk.old → D.len disk.new ≡ D.len disk.old }
        ensures kept { D.tells → 0 < D.len disk.old →
            IsAsBefore D.seen D.pending disk.old disk.new }
        ensures any_moment { D.tells → 0 < D.len disk.old →
            LeavesOnly D.moment D.left_since disk.old disk.new (IsImage (D.pending disk.old)) }

        ensures later { D.faults disk.old ≤ D.faults disk.new }
        ensures steady { Steady (D.faults disk.old) (D.faults disk.new) result }
    {
        let size = disk.size()?;
        if size != 0 {
            return Err(LogStop::StoreThere { size });
        }
        disk.write_at(0, &NEW_STORE)?;
        disk.sync()?;
        Ok(())
    }

    /// Opens a log: a sync, so that a crash leaves what is read from here on, and then the header.
    /// `NotStore` for group 0 exactly where there is no whole and right header of format 1 or 2;
    /// `DiskFault`.
    pub fn open<D: Disk>(disk: &mut D) -> Result<Log, LogStop>
        ensures reading { IfOk result (IsReading (D.len disk.new)) }
        ensures first { IfOk result (λ log. (log.gate ≡ 20) × (log.groups ≡ 0)) }
        ensures format { IfOk result (λ log. (log.format ≡ 1) ⊎ (log.format ≡ 2)) }
        ensures opened { D.tells → IfOk result (IsOpened (D.seen disk.new) (D.pending disk.new)) }
        ensures durable { D.tells → OnOk result (D.pending disk.new ≡ settled (D.seen disk.new)) }
        ensures not_store { D.tells → IsErrOf result (NotStore 0) → HasFault (D.seen disk.old) 0 }
        ensures stops { IfErr result
            (IsFaultOr (Rose (D.faults disk.old) (D.faults disk.new)) (NotStore 0)) }

        ensures len { D.len disk.new ≡ D.len disk.old }
        ensures seen { D.tells → D.seen disk.new ≡ D.seen disk.old }
        ensures any_moment { D.tells →
            LeavesOnly D.moment D.left_since disk.old disk.new (IsImage (D.pending disk.old)) }
        ensures later { D.faults disk.old ≤ D.faults disk.new }
        ensures steady { Steady (D.faults disk.old) (D.faults disk.new) result }
    {
        Disk::sync(disk)?;
        let size = disk.size()?;
        if size < HEADER {
            return Err(LogStop::NotStore { group: 0 });
        }
        let mut start = [0; 12];
        fill(disk, 0, &mut start)?;
        let mut number = [0; 8];
        fill(disk, 12, &mut number)?;
        let Some(format) = format_of(start) else {
            return Err(LogStop::NotStore { group: 0 });
        };
        Ok(Log {
            format,
            limit: u64::from_le_bytes(number).min(GREATEST),
            gate: HEADER,
            groups: 0,
            size,
            sum: 0,
            stage: Stage::Reading,
        })
    }

    /// The number of the format in the header, 1 or 2. Takes no memory.
    pub fn format(&self) -> u32
        ensures { result ≡ self.now.format }
    {
        self.format
    }

    /// The size of the disk, as the log keeps it. Takes no memory.
    pub fn size(&self) -> u64
        ensures { result ≡ self.now.size }
    {
        self.size
    }

    /// The place of the next group, or `None` at the closed gate and after it. `NotStore` exactly
    /// where a group is cut short; `DiskFault`.
    pub fn next<D: Disk>(&mut self, disk: &mut D) -> Result<Option<GroupPlace>, LogStop>
        requires { D.len disk.old ≡ self.old.size }
        ensures ok { self.old.stage ≡ Reading →
            IfOk result (GoesOn (D.len disk.new) self.old self.new) }
        ensures found { D.tells → (header : Header) (bodies : List (List ℕ)) →
            Reads header bodies self.old (D.seen disk.old) (D.pending disk.old) →
            IfOk result (Finds header bodies self.new (D.seen disk.new) (D.pending disk.new)) }

        // What a read gives is the groups so far, and then a rest that is cut short.
        ensures not_store { D.tells → (header : Header) (bodies : List (List ℕ)) →
            (reads : Reads header bodies self.old (D.seen disk.old) (D.pending disk.old)) →
            IsErrOf result (NotStore (self.old.groups + 1)) → IsCutShort reads.rest }

        ensures stops { IfErr result (IsFaultOr (Rose (D.faults disk.old) (D.faults disk.new))
            (NotStore (self.old.groups + 1))) }
        ensures kept { OnErr result (self.new ≡ self.old) }
        ensures over { self.old.stage ≢ Reading →
            (result ≡ Ok None) × (self.new ≡ self.old) × (disk.new ≡ disk.old) }

        ensures len { D.len disk.new ≡ D.len disk.old }
        ensures same { D.tells → IsAsBefore D.seen D.pending disk.old disk.new }
        ensures any_moment { D.tells →
            LeavesOnly D.moment D.left_since disk.old disk.new (IsImage (D.pending disk.old)) }
        ensures later { D.faults disk.old ≤ D.faults disk.new }
        ensures steady { Steady (D.faults disk.old) (D.faults disk.new) result }
    {
        if self.stage != Stage::Reading {
            return Ok(None);
        }
        let group = self.groups + 1;
        let left = self.size.saturating_sub(self.gate);
        if left == 0 {
            return Err(LogStop::NotStore { group });
        }
        let mut gate = [0; 1];
        fill(disk, self.gate, &mut gate)?;
        if gate[0] != OPEN {
            self.stage = Stage::AtRest;
            return Ok(None);
        }
        if left < GROUP_HEAD {
            return Err(LogStop::NotStore { group });
        }
        let mut length = [0; 8];
        fill(disk, self.gate + 1, &mut length)?;
        let len = u64::from_le_bytes(length);
        if left - GROUP_HEAD < len {
            return Err(LogStop::NotStore { group });
        }
        let at = self.gate + GROUP_HEAD;
        self.gate = at + len;
        self.groups = group;
        Ok(Some(GroupPlace {
            number: group,
            at,
            len,
        }))
    }

    /// Fills the buffer with the bytes from place `at` on. `DiskFault` only.
    pub fn read<D: Disk>(&self, disk: &mut D, at: u64, buf: &mut [u8]) -> Result<(), LogStop>
        requires fits { D.len disk.old ≡ self.now.size }
        requires within { at + length buf.old ≤ self.now.size }
        ensures bytes { D.tells →
            OnOk result (buf.new ≡ take (length buf.new) (drop at (D.seen disk.old))) }
        ensures are_bytes { (i : ℕ) → slice_index buf.new i < 256 }
        ensures fault { IfErr result (IsFault (Rose (D.faults disk.old) (D.faults disk.new))) }

        ensures len { D.len disk.new ≡ D.len disk.old }
        ensures same { D.tells → IsAsBefore D.seen D.pending disk.old disk.new }
        ensures any_moment { D.tells →
            LeavesOnly D.moment D.left_since disk.old disk.new (IsImage (D.pending disk.old)) }
        ensures later { D.faults disk.old ≤ D.faults disk.new }
        ensures steady { Steady (D.faults disk.old) (D.faults disk.new) result }
    {
        let _size = self.size;
        fill(disk, at, buf)?;
        Ok(())
    }

    /// Starts a group behind the last one, and cuts off what an abandoned one left. `LogFull`
    /// exactly where the place of the closed gate, 9 and the reserve of 5 are above the limit;
    /// `DiskFault`.
    pub fn body<D: Disk>(&mut self, disk: &mut D) -> Result<(), LogStop>
        requires { IsAtRest (D.len disk.old) self.old }
        ensures begun { OnOk result (self.new ≡ begun self.old) }
        ensures in_progress { OnOk result (IsInProgress (D.len disk.new) self.new) }
        ensures grows { D.tells → (header : Header) (bodies : List (List ℕ)) →
            Rests header bodies self.old (D.seen disk.old) (D.pending disk.old) →
            OnOk result (Grows header bodies [] self.new (D.seen disk.new) (D.pending disk.new)) }

        // At every moment a crash leaves the groups that there were.
        ensures any_moment { D.tells → (header : Header) (bodies : List (List ℕ)) →
            Rests header bodies self.old (D.seen disk.old) (D.pending disk.old) →
            LeavesOnly D.moment D.left_since disk.old disk.new (HasGroups header bodies) }

        ensures full { self.old.limit < self.old.gate + 9 + reserve →
            (result ≡ Err (LogFull self.old.gate 9 self.old.limit)) × (disk.new ≡ disk.old) }
        ensures fault { self.old.gate + 9 + reserve ≤ self.old.limit →
            IfErr result (IsFault (Rose (D.faults disk.old) (D.faults disk.new))) }
        ensures kept { OnErr result (self.new ≡ self.old) }
        ensures later { D.faults disk.old ≤ D.faults disk.new }
        ensures steady { Steady (D.faults disk.old) (D.faults disk.new) result }
    {
        if self.limit.saturating_sub(self.gate) < GROUP_HEAD + RESERVE {
            return Err(LogStop::LogFull {
                end: self.gate,
                wanted: GROUP_HEAD,
                limit: self.limit,
            });
        }
        disk.cut(self.gate + 1)?;
        disk.write_at(self.gate + 1, &[0; 8])?;
        self.size = self.gate + GROUP_HEAD;
        self.sum = 0;
        self.stage = Stage::InProgress;
        Ok(())
    }

    /// The place where the next append writes.
    pub fn end(&self) -> u64
        requires { self.now.stage ≡ InProgress }
        ensures { result ≡ self.now.size }
    {
        self.size
    }

    /// Puts bytes into the group in progress, and says where the first of them stands. `LogFull`
    /// exactly where the end, their number and the reserve of 5 are above the limit; `DiskFault`.
    pub fn append<D: Disk>(&mut self, disk: &mut D, bytes: &[u8]) -> Result<u64, LogStop>
        requires { IsInProgress (D.len disk.old) self.old }
        ensures place { IfOk result (λ at. at ≡ self.old.size) }
        ensures appended { OnOk result (self.new ≡ appended self.old bytes.now) }
        ensures in_progress { OnOk result (IsInProgress (D.len disk.new) self.new) }
        ensures grows { D.tells → (header : Header) (bodies : List (List ℕ)) (body : List ℕ) →
            Grows header bodies body self.old (D.seen disk.old) (D.pending disk.old) →
            OnOk result (Grows header bodies (body ++ bytes.now) self.new
            (D.seen disk.new) (D.pending disk.new)) }

        // At every moment a crash leaves the groups that there were.
        ensures any_moment { D.tells → (header : Header) (bodies : List (List ℕ)) (body : List ℕ) →
            Grows header bodies body self.old (D.seen disk.old) (D.pending disk.old) →
            LeavesOnly D.moment D.left_since disk.old disk.new (HasGroups header bodies) }

        ensures full { self.old.limit < self.old.size + length bytes.now + reserve →
            (result ≡ Err (LogFull self.old.size (length bytes.now) self.old.limit))
            × (disk.new ≡ disk.old) }
        ensures fault { self.old.size + length bytes.now + reserve ≤ self.old.limit →
            IfErr result (IsFault (Rose (D.faults disk.old) (D.faults disk.new))) }
        ensures kept { OnErr result (self.new ≡ self.old) }
        ensures later { D.faults disk.old ≤ D.faults disk.new }
        ensures steady { Steady (D.faults disk.old) (D.faults disk.new) result }
    {
        let at = self.size;
        let wanted = bytes.len() as u64;
        if self.limit - at - RESERVE < wanted {
            return Err(LogStop::LogFull {
                end: at,
                wanted,
                limit: self.limit,
            });
        }
        disk.write_at(at, bytes)?;
        self.size = at + wanted;
        self.sum = update(self.sum, bytes);
        Ok(at)
    }

    /// Writes the length of the group in progress, behind it the checksum of all that was put into
    /// it and the next closed gate, and syncs. `DiskFault` only.
    pub fn prepare<D: Disk>(&mut self, disk: &mut D) -> Result<(), LogStop>
        requires { IsInProgress (D.len disk.old) self.old }
        ensures prepared { OnOk result (self.new ≡ prepared self.old) }
        ensures is_prepared { OnOk result (IsPrepared (D.len disk.new) self.new) }
        ensures ready { D.tells → (header : Header) (bodies : List (List ℕ)) (body : List ℕ) →
            Grows header bodies body self.old (D.seen disk.old) (D.pending disk.old) →
            OnOk result (IsReady header bodies (sealed body) self.new
            (D.seen disk.new) (D.pending disk.new)) }

        // At every moment a crash leaves the groups that there were.
        ensures any_moment { D.tells → (header : Header) (bodies : List (List ℕ)) (body : List ℕ) →
            Grows header bodies body self.old (D.seen disk.old) (D.pending disk.old) →
            LeavesOnly D.moment D.left_since disk.old disk.new (HasGroups header bodies) }

        ensures fault { IfErr result (IsFault (Rose (D.faults disk.old) (D.faults disk.new))) }
        ensures kept { OnErr result (self.new ≡ self.old) }
        ensures later { D.faults disk.old ≤ D.faults disk.new }
        ensures steady { Steady (D.faults disk.old) (D.faults disk.new) result }
    {
        let end = self.size;
        let len = end + CHECKSUM - self.gate - GROUP_HEAD;
        let sum = self.sum.to_le_bytes();
        disk.write_at(self.gate + 1, &len.to_le_bytes())?;
        disk.write_at(end, &[sum[0], sum[1], sum[2], sum[3], 0])?;
        disk.sync()?;
        self.size = end + RESERVE;
        self.stage = Stage::Prepared;
        Ok(())
    }

    /// Opens the gate of the prepared group and syncs. `DiskFault` only.
    pub fn publish<D: Disk>(&mut self, disk: &mut D) -> Result<(), LogStop>
        requires { IsPrepared (D.len disk.old) self.old }
        ensures published { OnOk result (self.new ≡ published self.old) }
        ensures at_rest { OnOk result (IsAtRest (D.len disk.new) self.new) }
        ensures rests { D.tells → (header : Header) (bodies : List (List ℕ)) (body : List ℕ) →
            IsReady header bodies body self.old (D.seen disk.old) (D.pending disk.old) →
            OnOk result (Rests header (bodies ++ body ∷ []) self.new
            (D.seen disk.new) (D.pending disk.new)) }
        ensures durable { D.tells → OnOk result (D.pending disk.new ≡ settled (D.seen disk.new)) }

        // At every moment a crash leaves the groups that there were, or these and the new one.
        ensures any_moment { D.tells → (header : Header) (bodies : List (List ℕ)) (body : List ℕ) →
            IsReady header bodies body self.old (D.seen disk.old) (D.pending disk.old) →
            LeavesOnly D.moment D.left_since disk.old disk.new (λ image.
            HasGroups header bodies image ⊎ HasGroups header (bodies ++ body ∷ []) image) }

        ensures fault { IfErr result (IsFault (Rose (D.faults disk.old) (D.faults disk.new))) }
        ensures kept { OnErr result (self.new ≡ self.old) }
        ensures later { D.faults disk.old ≤ D.faults disk.new }
        ensures steady { Steady (D.faults disk.old) (D.faults disk.new) result }
    {
        disk.write_at(self.gate, &[OPEN])?;
        disk.sync()?;
        self.gate = self.size - 1;
        self.groups += 1;
        self.stage = Stage::AtRest;
        Ok(())
    }

    /// Forgets the group in progress, if there is one, and calls no disk.
    pub fn abandon(&mut self)
        ensures abandoned { self.new ≡ abandoned self.old }
        ensures in_progress { (len : ℕ) → IsInProgress len self.old → IsAtRest len self.new }
        ensures prepared { (len : ℕ) → IsPrepared len self.old → IsAtRest len self.new }
        ensures grows { (header : Header) (bodies : List (List ℕ)) (body seen : List ℕ)
            (pending : Pending) → Grows header bodies body self.old seen pending →
            Rests header bodies self.new seen pending }
        ensures ready { (header : Header) (bodies : List (List ℕ)) (body seen : List ℕ)
            (pending : Pending) → IsReady header bodies body self.old seen pending →
            Rests header bodies self.new seen pending }
    {
        if self.stage == Stage::InProgress || self.stage == Stage::Prepared {
            self.stage = Stage::AtRest;
        }
    }
}

// The format that the start of a header says, or None where it is no right one.
fn format_of(start: [u8; 12]) -> Option<u32>
    ensures some { IfSome result
        (λ format. ((format ≡ 1) ⊎ (format ≡ 2)) × (start ≡ start_of format)) }
    ensures none { IfNone result ((start ≡ start_of 1 → ⊥) × (start ≡ start_of 2 → ⊥)) }
{
    if start == FIRST {
        Some(1)
    } else if start == SECOND {
        Some(2)
    } else {
        None
    }
}
