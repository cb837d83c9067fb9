// Groups that are read one after the other.
ghost use Rattle.std.specs.Prelude.{◌≡◌, ◌+◌, ◌-◌, ◌≤◌, length, take, drop, IfOk, OnOk, IfErr};
ghost use Rattle.std.specs.Int.{w32, from_le_bytes, to_le_bytes};
ghost use Rattle.send_model.specs.Checksum.{crc_of};
ghost use Rattle.sx_base.specs.Causes.{Rose, Steady};
ghost use Rattle.sx_base.specs.Disk.{IsAsBefore, IsImage, settled};
ghost use Rattle.sx_base.specs.Crash.{LeavesOnly};
ghost use Rattle.store_model.specs.Scrub.{IsScrubbed};
ghost use Rattle.group_log.specs.Stopping.{IsFault};
ghost use Rattle.group_log.specs.declared.stops.LogStop.TheVariants.{NotStore};
ghost use Rattle.store_scrub.specs.declared.stops.ScrubStop.TheVariants as stop;
ghost use Rattle.store_scrub.specs.Found.{IsPlainOrSealed, IsStop, IsStopAt, IsBodyStop, IsOther};

use crate::kinds::kind_of;
use crate::stops::{Scrub, ScrubStop};
use crc32c_part::update;
use group_log::{GroupPlace, Log, LogStop};
use sx_base::Disk;

// How many bytes are read at once.
const PIECE: usize = 16384;

// The checksum at the end of a group.
const CHECKSUM: u64 = 4;

/// Goes through all groups of a journal, and looks at their kinds and checksums, and not at what
/// they say. It stops at the first group at fault: `Damaged` where it has another checksum, and
/// `NotStore` where it is none, cut short or of no kind; the header counts as group 0. Besides, of
/// `Log` only `DiskFault`. It reads each byte once, in pieces of 16 KiB on the stack, takes no
/// memory and changes no byte.
pub fn scrub<D: Disk>(disk: &mut D) -> Result<Scrub, ScrubStop>
    ensures scrubbed { D.tells → IfOk result
        (λ found. IsScrubbed (D.seen disk.old) found.groups found.unsealed) }
    ensures stopped { D.tells → IfErr result (IsStopAt (D.seen disk.old)) }
    ensures durable { D.tells → OnOk result (D.pending disk.new ≡ settled (D.seen disk.new)) }

    // Whether or not the disk tells.
    ensures counts { IfOk result (λ found. found.unsealed ≤ found.groups) }
    ensures stops { IfErr result (IsStop (Rose (D.faults disk.old) (D.faults disk.new))) }

    ensures len { D.len disk.new ≡ D.len disk.old }
    ensures seen { D.tells → D.seen disk.new ≡ D.seen disk.old }
    ensures any_moment { D.tells →
        LeavesOnly D.moment D.left_since disk.old disk.new (IsImage (D.pending disk.old)) }
    ensures later { D.faults disk.old ≤ D.faults disk.new }
    ensures steady { Steady (D.faults disk.old) (D.faults disk.new) result }
{
    let mut log = Log::open(disk)?;
    let mut piece = [0; PIECE];
    let mut found = Scrub {
        groups: 0,
        unsealed: 0,
    };
    while let Some(group) = log.next(disk)? {
        let sealed = scrub_group(&log, disk, group, &mut piece)?;
        found.groups = group.number;
        found.unsealed += !sealed as u64;
    }
    Ok(found)
}

// Reads one group, and says whether it has a checksum.
fn scrub_group<D: Disk>(
    log: &Log,
    disk: &mut D,
    group: GroupPlace,
    piece: &mut [u8; PIECE],
) -> Result<bool, ScrubStop>
    requires fits { D.len disk.old ≡ log.now.size }
    requires within { group.at + group.len ≤ log.now.size }
    ensures whole { D.tells → IfOk result (IsPlainOrSealed log.now.format
        (take group.len (drop group.at (D.seen disk.old)))) }
    ensures stopped { D.tells → IfErr result (IsBodyStop log.now.format
        (take group.len (drop group.at (D.seen disk.old))) group.number) }

    ensures stops { IfErr result (IsStop (Rose (D.faults disk.old) (D.faults disk.new))) }
    ensures len { D.len disk.new ≡ D.len disk.old }
    ensures same { D.tells → IsAsBefore D.seen D.pending disk.old disk.new }
    ensures any_moment { D.tells →
        LeavesOnly D.moment D.left_since disk.old disk.new (IsImage (D.pending disk.old)) }
    ensures later { D.faults disk.old ≤ D.faults disk.new }
    ensures steady { Steady (D.faults disk.old) (D.faults disk.new) result }
{
    // The end of a group is a size that a disk can have.
    let _size = log.size();
    if group.len == 0 {
        return Err(none_at(group));
    }
    let first = first_piece(group.len);
    log.read(disk, group.at, &mut piece[..first])?;
    let Some((_, sealed)) = kind_of(log.format(), piece[0]) else {
        return Err(none_at(group));
    };
    let begun = group.at + first as u64;
    let end = group.at + group.len;
    if !sealed {
        // Its other bytes are read, too: the disk may fail there.
        sum_of(log, disk, piece, 0, begun, end)?;
        return Ok(false);
    }
    if group.len <= CHECKSUM {
        return Err(none_at(group));
    }
    let sum = update(0, &piece[..first]);
    let rest = Rest {
        sum,
        from: begun,
        to: end - CHECKSUM,
    };
    compare(log, disk, piece, group.number, rest)?;
    Ok(true)
}

// How many bytes of a group of some bytes are read at first: the first one, and none of its
// checksum.
fn first_piece(len: u64) -> usize
    ensures least { 1 ≤ result }
    ensures most { result ≤ 16384 }
    ensures short { result ≤ 1 + (len - 5) }
{
    len.saturating_sub(CHECKSUM).clamp(1, PIECE as u64) as usize
}

// Why a scrub stops at a group that is none.
fn none_at(group: GroupPlace) -> ScrubStop
    ensures { result ≡ stop.Log (NotStore group.number) }
{
    ScrubStop::Log(LogStop::NotStore {
        group: group.number,
    })
}

// What stands in front of the checksum of a group and was not read: the bytes between two places,
// and the checksum of those before.
#[derive(Debug, Clone, Copy)]
struct Rest {
    sum: u32,
    from: u64,
    to: u64,
}

// Goes on with a checksum, and compares it with the one that stands behind the bytes between two
// places.
fn compare<D: Disk>(
    log: &Log,
    disk: &mut D,
    piece: &mut [u8; PIECE],
    group: u64,
    rest: Rest,
) -> Result<(), ScrubStop>
    requires fits { D.len disk.old ≡ log.now.size }
    requires within { (rest.from ≤ rest.to) × (rest.to + 4 ≤ log.now.size) }
    ensures right { D.tells → OnOk result (take 4 (drop rest.to (D.seen disk.old))
        ≡ to_le_bytes w32
        (crc_of rest.sum (take (rest.to - rest.from) (drop rest.from (D.seen disk.old))))) }
    ensures damaged { D.tells → IfErr result (IsOther group
        (take 4 (drop rest.to (D.seen disk.old)))
        (crc_of rest.sum (take (rest.to - rest.from) (drop rest.from (D.seen disk.old))))) }
    ensures stops { IfErr result (IsStop (Rose (D.faults disk.old) (D.faults disk.new))) }
    ensures len { D.len disk.new ≡ D.len disk.old }
    ensures same { D.tells → IsAsBefore D.seen D.pending disk.old disk.new }
    ensures any_moment { D.tells →
        LeavesOnly D.moment D.left_since disk.old disk.new (IsImage (D.pending disk.old)) }
    ensures later { D.faults disk.old ≤ D.faults disk.new }
    ensures steady { Steady (D.faults disk.old) (D.faults disk.new) result }
{
    let computed = sum_of(log, disk, piece, rest.sum, rest.from, rest.to)?;
    let mut seal = [0; 4];
    log.read(disk, rest.to, &mut seal)?;
    let stored = u32::from_le_bytes(seal);
    if stored != computed {
        return Err(ScrubStop::Damaged {
            group,
            stored,
            computed,
        });
    }
    Ok(())
}

// A checksum, gone on with over the bytes between two places.
fn sum_of<D: Disk>(
    log: &Log,
    disk: &mut D,
    piece: &mut [u8; PIECE],
    start: u32,
    from: u64,
    to: u64,
) -> Result<u32, LogStop>
    requires fits { D.len disk.old ≡ log.now.size }
    requires within { (from ≤ to) × (to ≤ log.now.size) }
    ensures sum { D.tells → IfOk result
        (λ sum. sum ≡ crc_of start (take (to - from) (drop from (D.seen disk.old)))) }
    ensures fault { IfErr result (IsFault (Rose (D.faults disk.old) (D.faults disk.new))) }
    ensures len { D.len disk.new ≡ D.len disk.old }
    ensures same { D.tells → IsAsBefore D.seen D.pending disk.old disk.new }
    ensures any_moment { D.tells →
        LeavesOnly D.moment D.left_since disk.old disk.new (IsImage (D.pending disk.old)) }
    ensures later { D.faults disk.old ≤ D.faults disk.new }
    ensures steady { Steady (D.faults disk.old) (D.faults disk.new) result }
{
    let mut at = from;
    let mut sum = start;
    while at < to {
        let count = (to - at).min(PIECE as u64) as usize;
        log.read(disk, at, &mut piece[..count])?;
        sum = update(sum, &piece[..count]);
        at += count as u64;
    }
    Ok(sum)
}
