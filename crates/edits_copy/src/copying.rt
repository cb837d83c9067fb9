// One copy of bytes that a disk has.
ghost use Rattle.std.specs.Prelude.{◌≡◌, ◌+◌, ◌≤◌, length, take, drop, IfErr};
ghost use Rattle.sx_base.specs.Causes.{Rose};
ghost use Rattle.sx_base.specs.Later.{DiskLater, OutputLater};
ghost use Rattle.edits_copy.specs.Finding.{bytes_at, IsWithin};
ghost use Rattle.edits_copy.specs.Copying.{CopyEnds, PieceEnds, CopyCaused};

use crate::place::EditsPlace;
use crate::stops::CopyStop;
use group_log::Log;
use std::alloc::Global;
use sx_base::{Disk, Sink, write_whole};

// How many bytes are read and written at once.
const PIECE: u64 = 262_144;

/// Copies the frames of edits from a disk to an output, piece by piece. What the disk gives stays as
/// it is.
pub fn copy_edits<D: Disk, O: Sink>(
    alloc: Global,
    log: &Log,
    disk: &mut D,
    place: &EditsPlace,
    out: &mut O,
) -> Result<(), CopyStop>
    requires size { D.len disk.old ≡ log.now.size }
    requires within { IsWithin log.now.size place.now }
    ensures copied { D.tells → CopyEnds (bytes_at place.now (D.seen disk.old))
        (O.taken out.old) (O.taken out.new) result }
    ensures cause { IfErr result (CopyCaused (Rose (D.faults disk.old) (D.faults disk.new))
        (Rose (O.faults out.old) (O.faults out.new))) }
    ensures disk { DiskLater D.Disk disk.old disk.new result }
    ensures out { OutputLater O.Sink out.old out.new result }
{
    let _size = log.size();
    let Ok(mut buffer) = Vec::from_elem(alloc, 0, (place.to - place.from).min(PIECE) as usize)
    else {
        return Err(CopyStop::NoMemory);
    };
    let mut at = place.from;
    while at < place.to {
        let count = (place.to - at).min(PIECE);
        copy_some(log, disk, at, count as usize, &mut buffer, out)?;
        at += count;
    }
    Ok(())
}

// Copies so many bytes from a place on, by way of a buffer that has room for them.
fn copy_some<D: Disk, O: Sink>(
    log: &Log,
    disk: &mut D,
    at: u64,
    count: usize,
    buffer: &mut Vec<u8>,
    out: &mut O,
) -> Result<(), CopyStop>
    requires size { D.len disk.old ≡ log.now.size }
    requires within { at + count ≤ log.now.size }
    requires room { count ≤ length buffer.old.items }
    ensures room { length buffer.new.items ≡ length buffer.old.items }
    ensures copied { D.tells → PieceEnds (take count (drop at (D.seen disk.old)))
        (O.taken out.old) (O.taken out.new) result }
    ensures cause { IfErr result (CopyCaused (Rose (D.faults disk.old) (D.faults disk.new))
        (Rose (O.faults out.old) (O.faults out.new))) }
    ensures disk { DiskLater D.Disk disk.old disk.new result }
    ensures out { OutputLater O.Sink out.old out.new result }
{
    let piece = &mut buffer.as_mut_slice()[..count];
    copy_piece(log, disk, at, piece, out)
}

// Copies as many bytes from a place on as the buffer has room for.
fn copy_piece<D: Disk, O: Sink>(
    log: &Log,
    disk: &mut D,
    at: u64,
    piece: &mut [u8],
    out: &mut O,
) -> Result<(), CopyStop>
    requires size { D.len disk.old ≡ log.now.size }
    requires within { at + length piece.old ≤ log.now.size }
    ensures room { length piece.new ≡ length piece.old }
    ensures copied { D.tells → PieceEnds (take (length piece.old) (drop at (D.seen disk.old)))
        (O.taken out.old) (O.taken out.new) result }
    ensures cause { IfErr result (CopyCaused (Rose (D.faults disk.old) (D.faults disk.new))
        (Rose (O.faults out.old) (O.faults out.new))) }
    ensures disk { DiskLater D.Disk disk.old disk.new result }
    ensures out { OutputLater O.Sink out.old out.new result }
{
    if log.read(disk, at, piece).is_err() {
        return Err(CopyStop::DiskFault);
    }
    match write_whole(out, piece) {
        Ok(()) => Ok(()),
        Err(_) => Err(CopyStop::OutputFault),
    }
}
