// Writing the bytes of cells that no block carries.
ghost use Rattle.std.specs.Prelude.{◌≡◌, ◌+◌, ◌<◌, ◌≤◌, ◌^◌, ◌⊎◌, map, length};
ghost use Rattle.std.specs.List.{AllByRecursion};
ghost use Rattle.std.specs.String.{string_bytes};
ghost use Rattle.send_model.specs.Command.{Write};
ghost use Rattle.send_model.specs.Spelling.{canonical, canonical_all};
ghost use Rattle.send_model.specs.Composed.{writes_from};
ghost use Rattle.sx_base.specs.Asks.{IsAgain};
ghost use Rattle.sx_base.specs.Calls.{IfAllTold};
ghost use Rattle.extent_map.specs.Cells.{cells_between};
ghost use Rattle.clone_pieces.specs.Origins.{IsInInput};
ghost use Rattle.clone_pieces.specs.Later.{BytesLater};
ghost use Rattle.sx_base.specs.Later.{InputsLater, OutputLater, AskedOnly};
ghost use Rattle.sx_base.specs.Causes.{counts};
ghost use Rattle.clone_pieces.specs.Filling.{byte_in, IsHadIn};
ghost use Rattle.clone_pieces.specs.Redirecting.{RedirectEnd, RedirectCaused, RedirectChanged};
ghost use Rattle.clone_pieces.specs.Sending.{output, PutEnd};

use crate::filling::fill_cells;
use crate::outside::OutsideBytes;
use crate::ranges::{CellRange, Sources, Target};
use crate::sending::put;
use crate::stops::SendStop;
use send_commands::Command;
use sx_base::{Blob, Inputs, Sink};

// How many bytes one WRITE carries at the most.
const MOST: u64 = 49_152;

/// Writes the bytes of the cells of a range.
pub(crate) fn write_cells<I: Inputs, E, B: OutsideBytes, O: Sink>(
    range: &CellRange<'_>,
    sources: &Sources<'_, E>,
    inputs: &mut I,
    bytes: &mut B,
    pending: &mut Blob,
    out: &mut O,
) -> Result<(), SendStop>
    requires version { (range.now.to.version ≡ 1) ⊎ (range.now.to.version ≡ 2) }
    requires path { length range.now.to.path.now < 2 ^ 16 }
    requires within { range.now.from + range.now.len ≤ length range.now.contents.now }
    requires end { range.now.to.offset + range.now.len < 2 ^ 63 }
    requires had { AllByRecursion (IsHadIn (length sources.now.files.now) (B.held bytes.old))
        (cells_between range.now.from range.now.len range.now.contents.now) }
    requires there { IfAllTold (I.told inputs.old) (map string_bytes sources.now.files.now)
        (λ files. AllByRecursion (IsInInput files)
        (cells_between range.now.from range.now.len range.now.contents.now)) }
    ensures inputs { InputsLater I.Inputs inputs.old inputs.new result }
    ensures asked { AskedOnly I.Inputs inputs.old inputs.new
        (AllByRecursion (IsAgain (I.told inputs.old) (map string_bytes sources.now.files.now))) }
    ensures bytes { BytesLater B.OutsideBytes bytes.old bytes.new result }
    ensures out { OutputLater O.Sink out.old out.new result }
    ensures cause { RedirectCaused
        (counts (I.ends inputs.old) (I.faults inputs.old + B.faults bytes.old) (O.faults out.old))
        (counts (I.ends inputs.new) (I.faults inputs.new + B.faults bytes.new) (O.faults out.new))
        result }
    ensures changed { RedirectChanged (map string_bytes sources.now.files.now)
        (I.last_end inputs.new) result }
    ensures written { B.tells
        → IfAllTold (I.told inputs.old) (map string_bytes sources.now.files.now)
        (λ files. RedirectEnd (O.taken out.old) (O.taken out.new) pending.old pending.new
        (canonical_all range.now.to.version
        (writes_from range.now.len range.now.to.path.now range.now.to.offset
        (map (byte_in (B.held bytes.old) files)
        (cells_between range.now.from range.now.len range.now.contents.now)))) result) }
{
    // Places in the contents are below this size, which is below 2^63.
    let _size = range.contents.size();
    let mut done = 0;
    while done < range.len {
        let count = (range.len - done).min(MOST);
        let part = CellRange {
            to: Target {
                path: range.to.path,
                offset: range.to.offset + done,
                version: range.to.version,
            },
            contents: range.contents,
            from: range.from + done,
            len: count,
        };
        match write_some(&part, sources, inputs, bytes, pending, out) {
            Ok(()) => done += count,
            Err(stop) => return Err(stop),
        }
    }
    Ok(())
}

// Writes the bytes of some cells with one command.
fn write_some<I: Inputs, E, B: OutsideBytes, O: Sink>(
    range: &CellRange<'_>,
    sources: &Sources<'_, E>,
    inputs: &mut I,
    bytes: &mut B,
    pending: &mut Blob,
    out: &mut O,
) -> Result<(), SendStop>
    requires version { (range.now.to.version ≡ 1) ⊎ (range.now.to.version ≡ 2) }
    requires path { length range.now.to.path.now < 2 ^ 16 }
    requires most { range.now.len ≤ 49_152 }
    requires within { range.now.from + range.now.len ≤ length range.now.contents.now }
    requires had { AllByRecursion (IsHadIn (length sources.now.files.now) (B.held bytes.old))
        (cells_between range.now.from range.now.len range.now.contents.now) }
    requires there { IfAllTold (I.told inputs.old) (map string_bytes sources.now.files.now)
        (λ files. AllByRecursion (IsInInput files)
        (cells_between range.now.from range.now.len range.now.contents.now)) }
    ensures inputs { InputsLater I.Inputs inputs.old inputs.new result }
    ensures asked { AskedOnly I.Inputs inputs.old inputs.new
        (AllByRecursion (IsAgain (I.told inputs.old) (map string_bytes sources.now.files.now))) }
    ensures bytes { BytesLater B.OutsideBytes bytes.old bytes.new result }
    ensures out { OutputLater O.Sink out.old out.new result }
    ensures cause { RedirectCaused
        (counts (I.ends inputs.old) (I.faults inputs.old + B.faults bytes.old) (O.faults out.old))
        (counts (I.ends inputs.new) (I.faults inputs.new + B.faults bytes.new) (O.faults out.new))
        result }
    ensures changed { RedirectChanged (map string_bytes sources.now.files.now)
        (I.last_end inputs.new) result }
    ensures written { B.tells
        → IfAllTold (I.told inputs.old) (map string_bytes sources.now.files.now)
        (λ files. RedirectEnd (O.taken out.old) (O.taken out.new) pending.old pending.new
        (canonical range.now.to.version
        (Write range.now.to.path.now range.now.to.offset
        (map (byte_in (B.held bytes.old) files)
        (cells_between range.now.from range.now.len range.now.contents.now)))) result) }
{
    let Ok(mut row) = Vec::from_elem(sources.alloc, 0, range.len as usize) else {
        return Err(SendStop::NoMemory);
    };
    let buf = row.as_mut_slice();
    match fill_cells(
        range.contents,
        range.from,
        sources.files,
        inputs,
        bytes,
        buf,
    ) {
        Ok(()) => put_write(&range.to, row.as_slice(), pending, out),
        Err(stop) => Err(stop),
    }
}

// Puts one WRITE command.
fn put_write<'a, O: Sink>(
    to: &Target<'a>,
    bytes: &'a [u8],
    pending: &mut Blob,
    out: &mut O,
) -> Result<(), SendStop>
    requires version { (to.now.version ≡ 1) ⊎ (to.now.version ≡ 2) }
    requires path { length to.now.path.now < 2 ^ 16 }
    requires most { length bytes.now ≤ 49_152 }
    ensures out { OutputLater O.Sink out.old out.new result }
    ensures put { PutEnd (output O.Sink out.old pending.old) (output O.Sink out.new pending.new)
        (canonical to.now.version (Write to.now.path.now to.now.offset bytes.now)) result }
{
    let command = Command::Write {
        path: to.path,
        offset: to.offset,
        bytes,
    };
    put(&command, to.version, pending, out)
}
