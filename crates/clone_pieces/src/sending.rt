// Writing commands to an output, some bytes at a time.
ghost use Rattle.std.specs.Prelude.{◌≤◌};
ghost use Rattle.send_model.specs.Spelling.{canonical};
ghost use Rattle.send_commands.specs.Meaning.{meaning_of};
ghost use Rattle.send_commands.specs.Writing.{IsWritable, IsShortEnough};
ghost use Rattle.sx_base.specs.Causes.{Steady};
ghost use Rattle.clone_pieces.specs.Sending.{output, PutEnd, SendEnd};

use crate::stops::SendStop;
use send_commands::{Command, encode};
use sx_base::{Blob, Failed, Sink, write_whole};

// How many bytes are gathered before they are written.
const PIECE: usize = 65_536;

/// Adds a command's canonical spelling to what is pending, and writes what is pending where it is
/// 65,536 bytes or more.
pub fn put<O: Sink>(
    c: &Command<'_>,
    version: u32,
    pending: &mut Blob,
    out: &mut O,
) -> Result<(), SendStop>
    requires writable { IsWritable version (meaning_of c.now) }
    requires short { IsShortEnough version (meaning_of c.now) }
    ensures later { O.faults out.old ≤ O.faults out.new }
    ensures steady { Steady (O.faults out.old) (O.faults out.new) result }
    ensures put { PutEnd (output O.Sink out.old pending.old) (output O.Sink out.new pending.new)
        (canonical version (meaning_of c.now)) result }
{
    if encode(c, version, pending).is_err() {
        return Err(SendStop::NoMemory);
    }
    if pending.as_slice().len() < PIECE {
        return Ok(());
    }
    if send(pending, out).is_err() {
        return Err(SendStop::OutputFault);
    }
    Ok(())
}

/// Adds bytes to what is pending, and writes what is pending where it is 65,536 bytes or more.
pub fn put_bytes<O: Sink>(bytes: &[u8], pending: &mut Blob, out: &mut O) -> Result<(), SendStop>
    ensures later { O.faults out.old ≤ O.faults out.new }
    ensures steady { Steady (O.faults out.old) (O.faults out.new) result }
    ensures put { PutEnd (output O.Sink out.old pending.old) (output O.Sink out.new pending.new)
        bytes.now result }
{
    if pending.push_all(bytes).is_err() {
        return Err(SendStop::NoMemory);
    }
    if pending.as_slice().len() < PIECE {
        return Ok(());
    }
    if send(pending, out).is_err() {
        return Err(SendStop::OutputFault);
    }
    Ok(())
}

/// Writes what is pending.
pub fn send<O: Sink>(pending: &mut Blob, out: &mut O) -> Result<(), Failed>
    ensures later { O.faults out.old ≤ O.faults out.new }
    ensures steady { Steady (O.faults out.old) (O.faults out.new) result }
    ensures sent { SendEnd (output O.Sink out.old pending.old) (output O.Sink out.new pending.new)
        result }
{
    if write_whole(out, pending.as_slice()).is_err() {
        return Err(Failed);
    }
    pending.clear();
    Ok(())
}
