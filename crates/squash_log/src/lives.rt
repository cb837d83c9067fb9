// Which places of the files of a part live.
ghost use Rattle.std.specs.Prelude.{◌≡◌, ℕ, ◌+◌, ◌^◌, ◌<◌, ◌≤◌, Bool, length, OnOk, IfOk};
ghost use Rattle.squash_model.specs.Liveness.{live_cut, live_copied};
ghost use Rattle.squash_log.specs.Cells.{lives_in, with_part, IsKept, IsTaken, IsOpened, IsPartIn, IsSameLiving};
ghost use Rattle.squash_log.specs.Changes.{before, before_range, before_clone, Fits};

use crate::change::{Change, FileRange};
use crate::file_lives::{add_part, all_below, keep_below, keep_beside, part_of};
use extent_map::{Extents, Nowhere};
use std::alloc::{AllocError, Global};
use std::collections::BTreeMap;

/// Which files of a part are there in the end.
pub trait Ended {
    /// Whether there is an inode of a number.
    ghost there: { Self → ℕ → Bool };

    /// Whether there is an inode of this number. Takes no memory.
    fn is_there(&self, ino: u64) -> bool
        ensures { result ≡ there self.now ino };
}

/// What lives of the files of which a change spoke, by their inode numbers.
pub(crate) type Files = BTreeMap<u64, Extents<Nowhere>>;

/// What lives before a change, by what lives after it. Fails for want of memory alone.
pub(crate) fn go_back<E: Ended>(
    alloc: Global,
    ended: &E,
    files: &mut Files,
    change: &Change,
) -> Result<(), AllocError>
    requires { Fits change.now }
    ensures { OnOk result (IsSameLiving (lives_in (E.there ended.now) files.new)
        (before change.now (lives_in (E.there ended.now) files.old))) }
{
    match change {
        Change::Wrote(range) => replace(alloc, ended, files, range),
        Change::Replaced(range) => replace(alloc, ended, files, range),
        Change::Cloned { to, source, from } => unclone(alloc, ended, files, to, (*source, *from)),
        Change::Resized { ino, size, new } => resize(alloc, ended, files, *ino, (*size, *new)),
    }
}

// Before a range was replaced.
fn replace<E: Ended>(
    alloc: Global,
    ended: &E,
    files: &mut Files,
    range: &FileRange,
) -> Result<(), AllocError>
    requires { range.now.size < 2 ^ 63 }
    ensures { OnOk result (IsSameLiving (lives_in (E.there ended.now) files.new)
        (before_range range.now (lives_in (E.there ended.now) files.old))) }
{
    let Some(cells) = take_out(alloc, ended, files, range.ino, range.size)? else {
        return Ok(());
    };
    let mut cells = cells;
    keep_beside(&mut cells, range.at, range.len, range.size)?;
    put_in(files, range.ino, cells)
}

// Before a file of a size became one of another.
fn resize<E: Ended>(
    alloc: Global,
    ended: &E,
    files: &mut Files,
    ino: u64,
    sizes: (u64, u64),
) -> Result<(), AllocError>
    requires { sizes.0 < 2 ^ 63 }
    ensures { OnOk result (IsSameLiving (lives_in (E.there ended.now) files.new)
        (live_cut ino sizes.0 sizes.1 (lives_in (E.there ended.now) files.old))) }
{
    let (size, new) = sizes;
    let Some(cells) = take_out(alloc, ended, files, ino, size)? else {
        return Ok(());
    };
    let mut cells = cells;
    keep_below(&mut cells, size.min(new))?;
    put_in(files, ino, cells)
}

// Before cells of a file, from a place on, were copied into a range.
fn unclone<E: Ended>(
    alloc: Global,
    ended: &E,
    files: &mut Files,
    to: &FileRange,
    source: (u64, u64),
) -> Result<(), AllocError>
    requires size { to.now.size < 2 ^ 63 }
    requires end { source.1 + to.now.len < 2 ^ 63 }
    ensures { OnOk result (IsSameLiving (lives_in (E.there ended.now) files.new)
        (before_clone to.now source.0 source.1 (lives_in (E.there ended.now) files.old))) }
{
    let (ino, from) = source;
    let part = part_in(alloc, ended, files, to)?;
    replace(alloc, ended, files, to)?;
    add_in(alloc, ended, files, ino, from, &part)?;
    Ok(())
}

// What lives of a range.
fn part_in<E: Ended>(
    alloc: Global,
    ended: &E,
    files: &Files,
    range: &FileRange,
) -> Result<Extents<Nowhere>, AllocError>
    requires { range.now.len < 2 ^ 63 }
    ensures part { IfOk result (IsPartIn (lives_in (E.there ended.now) files.now)
        range.now.ino range.now.at range.now.len) }
    ensures within { IfOk result (λ part. length part ≤ range.now.len) }
{
    match files.get(&range.ino) {
        Some(cells) => part_of(alloc, cells, range.at, range.len),
        None => {
            if ended.is_there(range.ino) {
                return all_below(alloc, range.len);
            }
            Ok(Extents::new(alloc))
        }
    }
}

// A part lives too, which is put at a place of a file.
fn add_in<E: Ended>(
    alloc: Global,
    ended: &E,
    files: &mut Files,
    ino: u64,
    from: u64,
    part: &Extents<Nowhere>,
) -> Result<(), AllocError>
    requires { from + length part.now < 2 ^ 63 }
    ensures { OnOk result (IsSameLiving (lives_in (E.there ended.now) files.new)
        (with_part ino from part.now (lives_in (E.there ended.now) files.old))) }
{
    let Some(cells) = opened(alloc, ended, files, ino) else {
        return Ok(());
    };
    let mut cells = cells;
    add_part(&mut cells, from, part)?;
    put_in(files, ino, cells)
}

// Takes out what lives of a file below a size, or nothing where nothing of it lives.
fn take_out<E: Ended>(
    alloc: Global,
    ended: &E,
    files: &mut Files,
    ino: u64,
    size: u64,
) -> Result<Option<Extents<Nowhere>>, AllocError>
    requires { size < 2 ^ 63 }
    ensures { IfOk result (IsTaken (E.there ended.now) ino size files.old files.new) }
{
    match files.remove(&ino) {
        Some(cells) => Ok(Some(cells)),
        None => {
            if !ended.is_there(ino) {
                return Ok(None);
            }
            Ok(Some(all_below(alloc, size)?))
        }
    }
}

// Takes out what lives of a file, or nothing where all of it lives.
fn opened<E: Ended>(
    alloc: Global,
    ended: &E,
    files: &mut Files,
    ino: u64,
) -> Option<Extents<Nowhere>>
    ensures { IsOpened (E.there ended.now) ino files.old files.new result }
{
    match files.remove(&ino) {
        Some(cells) => Some(cells),
        None => {
            if ended.is_there(ino) {
                return None;
            }
            Some(Extents::new(alloc))
        }
    }
}

// What lives of a file, in place of what was known of it.
fn put_in(files: &mut Files, ino: u64, cells: Extents<Nowhere>) -> Result<(), AllocError>
    ensures { OnOk result (IsKept ino cells files.old files.new) }
{
    let _old = files.insert(ino, cells)?;
    Ok(())
}
