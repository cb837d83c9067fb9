// Reading the bytes of files.
ghost use Rattle.std.specs.Prelude.{◌≡◌, ℕ, ◌+◌, ◌<◌, ◌≤◌, [], map, length, slice_index, take, drop, OnOk, IfErr, IfSome};
ghost use Rattle.std.specs.List.{AllByRecursion};
ghost use Rattle.std.specs.Option.{option_copied, unwrap_or};
ghost use Rattle.extent_map.specs.Cells.{cells_between};
ghost use Rattle.extent_map.specs.Pieces.{piece_cells};
ghost use Rattle.sx_base.specs.Causes.{Rose, Steady};
ghost use Rattle.sx_base.specs.Disk.{IsAsBefore, IsImage};
ghost use Rattle.sx_base.specs.Crash.{LeavesOnly};
ghost use Rattle.subvol_catalog.specs.Entries.{key_of};
ghost use Rattle.group_log.specs.Stopping.{IsFault};
ghost use Rattle.group_replay.specs.Placing.{further};
ghost use Rattle.group_replay.specs.Kept.{StandsBefore};
ghost use Rattle.store_journal.specs.Standing.{place_byte, with_bytes};
ghost use Rattle.store_journal.specs.Reading.{file_cells, HasSize};

use crate::store::Store;
use clone_resolve::EditCore;
use extent_map::Extents;
use group_log::{Log, LogStop};
use group_replay::Place;
use subvol_catalog::Key;
use sx_base::Disk;

impl Store {
    /// How many bytes a file of a complete subvolume has, by its inode number; 0 where there is no
    /// such subvolume or inode. Takes no memory.
    pub fn file_len(&self, key: Key, ino: u64) -> u64
        ensures { result ≡ length (file_cells self.now.core (key_of key) ino) }
    {
        match contents_of(self.core(), key, ino) {
            Some(contents) => contents.size(),
            None => 0,
        }
    }

    /// Fills the buffer with the bytes of a file of a complete subvolume, by its inode number, from
    /// the place `at` of the file on, counted in bytes. Where the file has holes they are zero.
    /// Takes no memory. `DiskFault` only.
    pub fn read_range<D: Disk>(
        &self,
        disk: &mut D,
        key: Key,
        ino: u64,
        at: u64,
        buf: &mut [u8],
    ) -> Result<(), LogStop>
        requires size { HasSize (D.len disk.old) self.now }
        requires within { at + length buf.old ≤ length (file_cells self.now.core (key_of key) ino) }
        ensures bytes { D.tells → OnOk result (buf.new ≡ take (length buf.new) (drop at
            (file_cells (with_bytes (D.seen disk.old) self.now.core) (key_of key) ino))) }
        ensures are_bytes { (i : ℕ) → slice_index buf.new i < 256 }
        ensures fault { IfErr result (IsFault (Rose (D.faults disk.old) (D.faults disk.new))) }
        ensures len { D.len disk.new ≡ D.len disk.old }
        ensures same { D.tells → IsAsBefore D.seen D.pending disk.old disk.new }
        ensures any_moment { D.tells →
            LeavesOnly D.moment D.left_since disk.old disk.new (IsImage (D.pending disk.old)) }
        ensures later { D.faults disk.old ≤ D.faults disk.new }
        ensures steady { Steady (D.faults disk.old) (D.faults disk.new) result }
    {
        let Some(contents) = contents_of(self.core(), key, ino) else {
            return Ok(());
        };
        fill_cells(self.log(), disk, contents, at, buf)
    }
}

// The contents of a file of a complete subvolume, if it is there.
fn contents_of(core: &EditCore<Place>, key: Key, ino: u64) -> Option<&Extents<Place>>
    ensures { file_cells core.now (key_of key) ino ≡ unwrap_or (option_copied result) [] }
{
    let Some(sub) = core.catalog().by_key(key) else {
        return None;
    };
    let Some(inode) = sub.tree().inode(ino) else {
        return None;
    };
    Some(inode.contents())
}

// Fills the buffer with the bytes of as many cells of the contents from `from` on.
fn fill_cells<D: Disk>(
    log: &Log,
    disk: &mut D,
    contents: &Extents<Place>,
    from: u64,
    buf: &mut [u8],
) -> Result<(), LogStop>
    requires size { D.len disk.old ≡ log.now.size }
    requires within { from + length buf.old ≤ length contents.now }
    requires before { AllByRecursion (StandsBefore log.now.size) contents.now }
    ensures filled { D.tells → OnOk result (buf.new ≡ map (place_byte (D.seen disk.old))
        (cells_between from (length buf.old) contents.now)) }
    ensures are_bytes { (i : ℕ) → slice_index buf.new i < 256 }
    ensures fault { IfErr result (IsFault (Rose (D.faults disk.old) (D.faults disk.new))) }
    ensures len { D.len disk.new ≡ D.len disk.old }
    ensures same { D.tells → IsAsBefore D.seen D.pending disk.old disk.new }
    ensures any_moment { D.tells →
        LeavesOnly D.moment D.left_since disk.old disk.new (IsImage (D.pending disk.old)) }
    ensures later { D.faults disk.old ≤ D.faults disk.new }
    ensures steady { Steady (D.faults disk.old) (D.faults disk.new) result }
{
    let mut have = 0;
    for (origin, len) in contents.pieces(from, buf.len() as u64) {
        let end = have + len as usize;
        fill_piece(log, disk, origin, &mut buf[have..end])?;
        have = end;
    }
    Ok(())
}

// Fills the buffer with the bytes of as many cells from successive places.
fn fill_piece<D: Disk>(
    log: &Log,
    disk: &mut D,
    origin: Option<Place>,
    buf: &mut [u8],
) -> Result<(), LogStop>
    requires size { D.len disk.old ≡ log.now.size }
    requires before { IfSome origin (λ place. place.at + length buf.old ≤ log.now.size) }
    ensures filled { D.tells → OnOk result (buf.new ≡ map (place_byte (D.seen disk.old))
        (piece_cells further origin (length buf.old))) }
    ensures are_bytes { (i : ℕ) → slice_index buf.new i < 256 }
    ensures fault { IfErr result (IsFault (Rose (D.faults disk.old) (D.faults disk.new))) }
    ensures len { D.len disk.new ≡ D.len disk.old }
    ensures same { D.tells → IsAsBefore D.seen D.pending disk.old disk.new }
    ensures any_moment { D.tells →
        LeavesOnly D.moment D.left_since disk.old disk.new (IsImage (D.pending disk.old)) }
    ensures later { D.faults disk.old ≤ D.faults disk.new }
    ensures steady { Steady (D.faults disk.old) (D.faults disk.new) result }
{
    match origin {
        None => {
            buf.fill(0);
            Ok(())
        }
        Some(place) => log.read(disk, place.at, buf),
    }
}
