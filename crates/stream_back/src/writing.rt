// The parts of a stream, one after the other.
ghost use Rattle.std.specs.Prelude.{◌≡◌, IfErr, OnErr};
ghost use Rattle.sx_base.specs.Causes.{Rose};
ghost use Rattle.sx_base.specs.Calls.{Wrote};
ghost use Rattle.sx_base.specs.Later.{DiskLater, OutputLater};
ghost use Rattle.sx_base.specs.declared.outcome.Outcome.TheVariants.{OutputFault};
ghost use Rattle.edits_copy.specs.Finding.{bytes_at};
ghost use Rattle.store_commands.specs.declared.ends.StoreEnd.TheVariants.{Ends};
ghost use Rattle.stream_back.specs.Writing.{HasLength, IsAt};
ghost use Rattle.stream_back.specs.Writing.{PartEnds, StopCaused, StreamEnds, parts_of};

use crate::ends::ended_copied;
use crate::heads::{EntryHead, end_of, opening_of};
use crate::located::Located;
use edits_copy::copy_edits;
use std::alloc::Global;
use store_commands::StoreEnd;
use sx_base::{Disk, Outcome, Sink, write_whole};

// Writes the header and the head, the edits at a place, and END.
pub(crate) fn write_stream<D: Disk, O: Sink>(
    alloc: Global,
    disk: &mut D,
    head: &EntryHead<'_>,
    at: &Located,
    out: &mut O,
) -> Result<(), StoreEnd>
    requires short { HasLength head.now.name.now }
    requires within { IsAt (D.len disk.old) at.now }
    ensures written { D.tells → Wrote (O.taken out.old) (O.taken out.new)
        (StreamEnds (parts_of head.now at.now.place (D.seen disk.old)) result) }
    ensures cause { IfErr result (StopCaused (Rose (D.faults disk.old) (D.faults disk.new))
        (Rose (O.faults out.old) (O.faults out.new))) }
    ensures disk { DiskLater D.Disk disk.old disk.new result }
    ensures out { OutputLater O.Sink out.old out.new result }
{
    let Ok(first) = opening_of(alloc, head, at.place.version) else {
        return Err(StoreEnd::Ends(Outcome::NoMemory));
    };
    let Ok(last) = end_of(alloc, at.place.version) else {
        return Err(StoreEnd::Ends(Outcome::NoMemory));
    };
    put(first.as_slice(), out)?;
    copy(alloc, disk, at, out)?;
    put(last.as_slice(), out)
}

// Writes bytes.
fn put<O: Sink>(bytes: &[u8], out: &mut O) -> Result<(), StoreEnd>
    ensures written { PartEnds bytes.now (O.taken out.old) (O.taken out.new) result }
    ensures fault { IfErr result (λ end. end ≡ Ends OutputFault) }
    ensures cause { OnErr result (Rose (O.faults out.old) (O.faults out.new)) }
    ensures out { OutputLater O.Sink out.old out.new result }
{
    match write_whole(out, bytes) {
        Ok(()) => Ok(()),
        Err(_) => Err(StoreEnd::Ends(Outcome::OutputFault)),
    }
}

// Copies the edits.
fn copy<D: Disk, O: Sink>(
    alloc: Global,
    disk: &mut D,
    at: &Located,
    out: &mut O,
) -> Result<(), StoreEnd>
    requires within { IsAt (D.len disk.old) at.now }
    ensures written { D.tells → PartEnds (bytes_at at.now.place (D.seen disk.old))
        (O.taken out.old) (O.taken out.new) result }
    ensures cause { IfErr result (StopCaused (Rose (D.faults disk.old) (D.faults disk.new))
        (Rose (O.faults out.old) (O.faults out.new))) }
    ensures disk { DiskLater D.Disk disk.old disk.new result }
    ensures out { OutputLater O.Sink out.old out.new result }
{
    match copy_edits(alloc, &at.log, disk, &at.place, out) {
        Ok(()) => Ok(()),
        Err(why) => Err(ended_copied(why)),
    }
}
