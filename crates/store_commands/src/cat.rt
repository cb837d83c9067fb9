// Printing a file of a store.
ghost use Rattle.std.specs.Prelude.{◌≡◌, ◌≤◌, ◌+◌, ℕ, List, [], length, drop, take, IfErr, OnOk};
ghost use Rattle.store_model.specs.NamedFiles.{unnamed};
ghost use Rattle.store_model.specs.Requests.{CatFile, word_at, at_entry};
ghost use Rattle.store_model.specs.Answers.{Answers};
ghost use Rattle.subvol_catalog.specs.Entries.{key_of};
ghost use Rattle.sx_base.specs.Calls.{Wrote};
ghost use Rattle.sx_base.specs.Crash.{LeavesOnly};
ghost use Rattle.sx_base.specs.Disk.{IsAsBefore, IsImage};
ghost use Rattle.sx_base.specs.Later.{DiskLater, OutputLater};
ghost use Rattle.store_journal.specs.Reading.{HasSize, file_cells};
ghost use Rattle.store_journal.specs.Standing.{with_bytes};
ghost use Rattle.store_commands.specs.Ending.{answer_of, cat_ways, PrintingCaused};
ghost use Rattle.store_commands.specs.Files.{found_file, PieceEnds, FileEnds};

use crate::ends::{StoreEnd, ended_by};
use extent_map::Origin;
use std::alloc::Global;
use store_journal::Store;
use subvol::Subvol;
use subvol_catalog::Key;
use sx_base::{Disk, Outcome, Sink, write_whole};

// How many bytes are read and written at once.
const PIECE: u64 = 262_144;

/// Writes the bytes of the file that a path leads to in the complete subvolume of a name, holes as
/// zero bytes. What the disk gives stays as it is.
pub fn cat_file<D: Disk, O: Sink>(
    alloc: Global,
    disk: &mut D,
    name: &[u8],
    path: &[u8],
    out: &mut O,
) -> StoreEnd
    ensures answered { D.tells → Wrote (O.taken out.old) (O.taken out.new)
        (λ written. (words : List (List ℕ)) (store at to : ℕ) → word_at words at ≡ name.now
        → word_at words to ≡ path.now
        → Answers (CatFile store at to) (at_entry words (D.seen disk.old) (unnamed []))
        (answer_of name.now path.now result) written (D.seen disk.new)) }
    ensures cause { PrintingCaused cat_ways
        (D.faults disk.old) (D.faults disk.new) (O.faults out.old) (O.faults out.new) result }
    ensures len { D.len disk.new ≡ D.len disk.old }
    ensures seen { D.tells → D.seen disk.new ≡ D.seen disk.old }
    ensures any_moment { D.tells →
        LeavesOnly D.moment D.left_since disk.old disk.new (IsImage (D.pending disk.old)) }
    ensures later { D.faults disk.old ≤ D.faults disk.new }
    ensures out_later { O.faults out.old ≤ O.faults out.new }
{
    let store = match Store::open(disk, alloc) {
        Ok(store) => store,
        Err(stop) => return ended_by(stop),
    };
    let Some(entry) = store.core().catalog().by_name(name) else {
        return StoreEnd::NoName;
    };
    let Some(sub) = &entry.value else {
        return StoreEnd::NoName;
    };
    let Some(ino) = file_at(sub, path) else {
        return StoreEnd::NoFile;
    };
    let file = StoredFile {
        store: &store,
        key: entry.key,
        ino,
    };
    write_file(alloc, &file, disk, out)
}

// The number of the file that a path leads to.
#[tactic(auto, unfolding(crate::specs::Files::found_file))]
fn file_at<R: Origin>(sub: &Subvol<R>, path: &[u8]) -> Option<u64>
    ensures { result ≡ found_file path.now sub.now }
{
    let Ok(ino) = sub.tree().find(path) else {
        return None;
    };
    if !sub.tree().is_file(ino) {
        return None;
    }
    Some(ino)
}

// A file of a complete subvolume of a store.
#[derive(Clone, Copy)]
struct StoredFile<'a> {
    store: &'a Store,
    key: Key,
    ino: u64,
}

// Writes the bytes of a file of a complete subvolume, piece by piece.
fn write_file<D: Disk, O: Sink>(
    alloc: Global,
    file: &StoredFile<'_>,
    disk: &mut D,
    out: &mut O,
) -> StoreEnd
    requires size { HasSize (D.len disk.old) file.now.store.now }
    ensures written { D.tells → Wrote (O.taken out.old) (O.taken out.new)
        (FileEnds (file_cells (with_bytes (D.seen disk.old) file.now.store.now.core)
        (key_of file.now.key) file.now.ino) result) }
    ensures cause { PrintingCaused cat_ways
        (D.faults disk.old) (D.faults disk.new) (O.faults out.old) (O.faults out.new) result }
    ensures len { D.len disk.new ≡ D.len disk.old }
    ensures same { D.tells → IsAsBefore D.seen D.pending disk.old disk.new }
    ensures any_moment { D.tells →
        LeavesOnly D.moment D.left_since disk.old disk.new (IsImage (D.pending disk.old)) }
    ensures later { D.faults disk.old ≤ D.faults disk.new }
    ensures out_later { O.faults out.old ≤ O.faults out.new }
{
    let size = file.store.file_len(file.key, file.ino);
    let mut piece = Vec::new(alloc);
    if piece.resize(size.min(PIECE) as usize, 0).is_err() {
        return StoreEnd::Ends(Outcome::NoMemory);
    }
    let mut at = 0;
    while at < size {
        let count = (size - at).min(PIECE);
        match write_some(file, disk, at, count as usize, &mut piece, out) {
            Ok(()) => at += count,
            Err(end) => return end,
        }
    }
    StoreEnd::Ends(Outcome::Done)
}

// Writes as many bytes of a file from a place on, by way of a buffer that has room for them.
fn write_some<D: Disk, O: Sink>(
    file: &StoredFile<'_>,
    disk: &mut D,
    at: u64,
    count: usize,
    piece: &mut Vec<u8>,
    out: &mut O,
) -> Result<(), StoreEnd>
    requires size { HasSize (D.len disk.old) file.now.store.now }
    requires within { at + count
        ≤ length (file_cells file.now.store.now.core (key_of file.now.key) file.now.ino) }
    requires room { count ≤ length piece.old.items }
    ensures room { length piece.new.items ≡ length piece.old.items }
    ensures written { D.tells → PieceEnds (take count (drop at
        (file_cells (with_bytes (D.seen disk.old) file.now.store.now.core)
        (key_of file.now.key) file.now.ino)))
        (O.taken out.old) (O.taken out.new) result }
    ensures cause { IfErr result (PrintingCaused cat_ways
        (D.faults disk.old) (D.faults disk.new) (O.faults out.old) (O.faults out.new)) }
    ensures disk { DiskLater D.Disk disk.old disk.new result }
    ensures out { OutputLater O.Sink out.old out.new result }
{
    let part = &mut piece.as_mut_slice()[..count];
    write_piece(file, disk, at, part, out)
}

// Writes as many bytes of a file as the buffer has room for, from a place on.
fn write_piece<D: Disk, O: Sink>(
    file: &StoredFile<'_>,
    disk: &mut D,
    at: u64,
    part: &mut [u8],
    out: &mut O,
) -> Result<(), StoreEnd>
    requires size { HasSize (D.len disk.old) file.now.store.now }
    requires within { at + length part.old
        ≤ length (file_cells file.now.store.now.core (key_of file.now.key) file.now.ino) }
    ensures room { length part.new ≡ length part.old }
    ensures written { D.tells → PieceEnds (take (length part.old) (drop at
        (file_cells (with_bytes (D.seen disk.old) file.now.store.now.core)
        (key_of file.now.key) file.now.ino)))
        (O.taken out.old) (O.taken out.new) result }
    ensures cause { IfErr result (PrintingCaused cat_ways
        (D.faults disk.old) (D.faults disk.new) (O.faults out.old) (O.faults out.new)) }
    ensures disk { DiskLater D.Disk disk.old disk.new result }
    ensures out { OutputLater O.Sink out.old out.new result }
{
    let Ok(()) = file.store.read_range(disk, file.key, file.ino, at, part) else {
        return Err(StoreEnd::StoreFault);
    };
    match write_whole(out, part) {
        Ok(()) => Ok(()),
        Err(_) => Err(StoreEnd::Ends(Outcome::OutputFault)),
    }
}
