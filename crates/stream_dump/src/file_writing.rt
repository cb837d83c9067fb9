// Writing all commands of a file in some form.
ghost use Rattle.std.specs.Prelude.{◌≡◌, ◌≤◌, [], ◌∷◌, true, Ok, Err, IfErr};
ghost use Rattle.send_model.specs.Laws.{CanWrite};
ghost use Rattle.send_model.specs.Words.{first_file};
ghost use Rattle.sx_base.specs.Asks.{IsReadOnce};
ghost use Rattle.sx_base.specs.Calls.{Caused, IfAllTold, Wrote, IsStop, SteadyIfDone};
ghost use Rattle.sx_base.specs.Causes.{Steady};
ghost use Rattle.sx_base.specs.Later.{AskedOnly};
ghost use Rattle.send_commands.specs.Meaning.{meaning_of};
ghost use Rattle.send_commands.specs.Writing.{IsWritable};
ghost use Rattle.cmd_reader.specs.Next.{item_of};
ghost use Rattle.stream_dump.specs.Written.{WritesFile};
ghost use Rattle.stream_dump.specs.Steps.{output, with_item, Sends, ItemEnds, EndsWith};

use crate::gathering::Gathered;
use crate::item_form::ItemForm;
use cmd_reader::{CmdReader, Item, outcome_of};
use std::alloc::Global;
use sx_base::{Inputs, Outcome, Sink, write_whole};

/// How many bytes are gathered before they are written.
pub const PIECE: usize = 65_536;

/// Writes all commands of the file that can be read, in this form. The file is read once, in order.
/// `Done` says that it is whole, and `Refused` gives its first fault; with both `out` got the bytes
/// of all commands before, and with every other outcome a front part of them. `InputTooLong` comes
/// exactly where the file is too long.
pub fn write_file<F: ItemForm, I: Inputs, O: Sink>(
    alloc: Global,
    form: &mut F,
    inputs: &mut I,
    file: &str,
    out: &mut O,
) -> Outcome
    ensures same { I.told inputs.new ≡ I.told inputs.old }
    ensures later { I.faults inputs.old ≤ I.faults inputs.new }
    ensures out_later { O.faults out.old ≤ O.faults out.new }
    ensures steady { SteadyIfDone (I.faults inputs.old) (I.faults inputs.new) result }
    ensures ends_steady { SteadyIfDone (I.ends inputs.old) (I.ends inputs.new) result }
    ensures asked { AskedOnly I.Inputs inputs.old inputs.new (IsReadOnce file.now) }
    ensures out_steady { SteadyIfDone (O.faults out.old) (O.faults out.new) result }
    ensures cause { Caused (I.faults inputs.old) (I.faults inputs.new)
        (O.faults out.old) (O.faults out.new) result }
    ensures written { IfAllTold (I.told inputs.old) (file.now ∷ [])
        (λ files. Wrote (O.taken out.old) (O.taken out.new)
        (WritesFile F.piece (first_file files) result)) }
{
    let Ok(mut reader) = CmdReader::new(alloc, 1, file) else {
        return Outcome::NoMemory;
    };
    let mut gathered = Gathered::new(alloc);
    loop {
        let frame = match reader.advance(inputs) {
            Ok(Some(frame)) => frame,
            Ok(None) => return finish(&mut gathered, out, Outcome::Done),
            Err(stop) => return finish(&mut gathered, out, outcome_of(1, stop)),
        };
        let item = match reader.item(frame) {
            Ok(item) => item,
            Err(verdict) => return finish(&mut gathered, out, Outcome::Refused(verdict)),
        };
        let written = write_item(form, &mut gathered, &item, out);
        if let Err(outcome) = written {
            return outcome;
        }
    }
}

// Adds the bytes of an item, and writes what was gathered where it is much.
fn write_item<F: ItemForm, O: Sink>(
    form: &mut F,
    gathered: &mut Gathered,
    item: &Item<'_>,
    out: &mut O,
) -> Result<(), Outcome>
    requires writable { IsWritable item.now.version (meaning_of item.now.command) }
    requires sayable { CanWrite item.now.version (meaning_of item.now.command) }
    ensures later { O.faults out.old ≤ O.faults out.new }
    ensures steady { Steady (O.faults out.old) (O.faults out.new) result }
    ensures stops { IfErr result IsStop }
    ensures ends { ItemEnds (with_item F.piece gathered.old (item_of 1 item.now)) gathered.new
        (output O.Sink out.old) (output O.Sink out.new) result }
{
    let Ok(()) = gathered.add(form, item) else {
        return Err(Outcome::NoMemory);
    };
    if gathered.bytes.as_slice().len() >= PIECE {
        return send(gathered, out);
    }
    Ok(())
}

/// Writes what was gathered.
///
/// # Errors
/// `OutputFault` where the output failed.
pub fn send<O: Sink>(gathered: &mut Gathered, out: &mut O) -> Result<(), Outcome>
    ensures later { O.faults out.old ≤ O.faults out.new }
    ensures steady { Steady (O.faults out.old) (O.faults out.new) result }
    ensures stops { IfErr result IsStop }
    ensures begins { gathered.new.begins ≡ gathered.old.begins }
    ensures sent { Sends gathered.old gathered.new
        (output O.Sink out.old) (output O.Sink out.new) result }
{
    let Ok(()) = write_whole(out, gathered.bytes.as_slice()) else {
        return Err(Outcome::OutputFault);
    };
    gathered.bytes.clear();
    Ok(())
}

/// The outcome of a call that ends here. What was gathered is written first, but not where an
/// object of the outside failed or there is no memory.
pub fn finish<O: Sink>(gathered: &mut Gathered, out: &mut O, outcome: Outcome) -> Outcome
    ensures later { O.faults out.old ≤ O.faults out.new }
    ensures steady { SteadyIfDone (O.faults out.old) (O.faults out.new) result }
    ensures stops { IsStop outcome → IsStop result }
    ensures ends { EndsWith gathered.old.bytes outcome
        (output O.Sink out.old) (output O.Sink out.new) result }
{
    if let Outcome::InputFault | Outcome::OutputFault | Outcome::NoMemory = outcome {
        return outcome;
    }
    match send(gathered, out) {
        Ok(()) => outcome,
        Err(fault) => fault,
    }
}
