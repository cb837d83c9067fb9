// The last group of the journal that has edits of a subvolume.
ghost use Rattle.std.specs.Prelude.{◌≡◌, ◌+◌, ◌^◌, ◌<◌, ◌≤◌, ℕ, List, length, take, drop, IfOk, OnOk, IfErr, IfSome};
ghost use Rattle.sx_base.specs.Causes.{Rose, Steady};
ghost use Rattle.sx_base.specs.Crash.{LeavesOnly};
ghost use Rattle.sx_base.specs.Disk.{IsAsBefore, IsImage};
ghost use Rattle.group_log.specs.Journal.{IsReading, IsOpened};
ghost use Rattle.group_log.specs.Stopping.{IsFault};
ghost use Rattle.edits_copy.specs.Finding.{later_place, seal_by, IsWithin, FindsIn, FindsAll, FindStops, IsCausedStop};

use crate::place::EditsPlace;
use group_log::{GroupPlace, Log, LogStop};
use sx_base::Disk;
use uuid::Uuid;

// The number, the identifier and the version in front of the edits of a group.
const HEAD: usize = 18;

// The first byte of groups of edits, with a checksum at their end and without one.
const SEALED: u8 = 5;

const PLAIN: u8 = 2;

const CHECKSUM: u64 = 4;

/// Goes over all groups of a log that was just opened, and finds the edits that the last of them
/// has of the entry of a UUID. It looks at the first bytes of each group alone, takes no memory and
/// changes no byte. `DiskFault`, and `NotStore` of a group that is cut short.
pub fn find_edits<D: Disk>(
    log: &mut Log,
    disk: &mut D,
    uuid: Uuid,
) -> Result<Option<EditsPlace>, LogStop>
    requires reading { IsReading (D.len disk.old) log.old }
    requires opened { D.tells → IsOpened (D.seen disk.old) (D.pending disk.old) log.old }
    ensures found { D.tells → IfOk result (FindsAll (D.seen disk.old) uuid) }
    ensures not_store { D.tells → IfErr result (FindStops (D.seen disk.old)) }

    // Whether or not the disk tells.
    ensures size { OnOk result (D.len disk.new ≡ log.new.size) }
    ensures within { IfOk result (λ found. IfSome found (IsWithin log.new.size)) }
    ensures stops { IfErr result (IsCausedStop (Rose (D.faults disk.old) (D.faults disk.new))) }

    ensures len { D.len disk.new ≡ D.len disk.old }
    ensures same { D.tells → IsAsBefore D.seen D.pending disk.old disk.new }
    ensures any_moment { D.tells →
        LeavesOnly D.moment D.left_since disk.old disk.new (IsImage (D.pending disk.old)) }
    ensures later { D.faults disk.old ≤ D.faults disk.new }
    ensures steady { Steady (D.faults disk.old) (D.faults disk.new) result }
{
    let mut found = None;
    while let Some(group) = log.next(disk)? {
        let here = edits_at(log, disk, group, uuid)?;
        found = later(found, here);
    }
    Ok(found)
}

// The later of two places, if there are two.
fn later(found: Option<EditsPlace>, here: Option<EditsPlace>) -> Option<EditsPlace>
    ensures { result ≡ later_place found here }
{
    match here {
        Some(place) => Some(place),
        None => found,
    }
}

// The edits that one group has of the entry of a UUID.
fn edits_at<D: Disk>(
    log: &Log,
    disk: &mut D,
    group: GroupPlace,
    uuid: Uuid,
) -> Result<Option<EditsPlace>, LogStop>
    requires fits { D.len disk.old ≡ log.now.size }
    requires within { group.at + group.len ≤ log.now.size }
    ensures found { D.tells → IfOk result
        (FindsIn uuid group.at (take group.len (drop group.at (D.seen disk.old)))) }
    ensures within { IfOk result (λ found. IfSome found (IsWithin (group.at + group.len))) }
    ensures fault { IfErr result (IsFault (Rose (D.faults disk.old) (D.faults disk.new))) }
    ensures len { D.len disk.new ≡ D.len disk.old }
    ensures same { D.tells → IsAsBefore D.seen D.pending disk.old disk.new }
    ensures any_moment { D.tells →
        LeavesOnly D.moment D.left_since disk.old disk.new (IsImage (D.pending disk.old)) }
    ensures later { D.faults disk.old ≤ D.faults disk.new }
    ensures steady { Steady (D.faults disk.old) (D.faults disk.new) result }
{
    let _size = log.size();
    if group.len < HEAD as u64 {
        return Ok(None);
    }
    let mut head = [0; HEAD];
    log.read(disk, group.at, &mut head)?;
    Ok(place_by(group, uuid, &head))
}

// The same by the first bytes of the group.
fn place_by(group: GroupPlace, uuid: Uuid, head: &[u8; 18]) -> Option<EditsPlace>
    requires long { 18 ≤ group.len }
    requires bounded { group.at + group.len < 2 ^ 64 }
    ensures found { (body : List ℕ) → length body ≡ group.len → take 18 body ≡ head.now →
        FindsIn uuid group.at body result }
    ensures within { IfSome result (IsWithin (group.at + group.len)) }
{
    let seal = seal_of(head[0])?;
    if group.len < HEAD as u64 + seal {
        return None;
    }
    if uuid_in(head) != uuid {
        return None;
    }
    let version = head[17] as u32;
    if version != 1 && version != 2 {
        return None;
    }
    Some(EditsPlace {
        version,
        from: group.at + HEAD as u64,
        to: group.at + group.len - seal,
    })
}

// The UUID behind the first byte.
fn uuid_in(head: &[u8; 18]) -> Uuid
    ensures { result ≡ take 16 (drop 1 head.now) }
{
    let mut bytes = [0; 16];
    bytes.copy_from_slice(&head[1..17]);
    Uuid::from_bytes(bytes)
}

// How many bytes end a group that has edits, by its first byte. None of a group that has none.
fn seal_of(first: u8) -> Option<u64>
    ensures { result ≡ seal_by first }
{
    match first {
        SEALED => Some(CHECKSUM),
        PLAIN => Some(0),
        _ => None,
    }
}
