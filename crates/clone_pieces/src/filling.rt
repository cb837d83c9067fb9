// Reading the bytes of cells from where they come.
ghost use Rattle.std.specs.Prelude.{◌≡◌, ℕ, ◌+◌, ◌<◌, ◌≤◌, ◌^◌, List, [], map, length, get_or};
ghost use Rattle.std.specs.List.{AllByRecursion};
ghost use Rattle.std.specs.String.{string_bytes};
ghost use Rattle.sx_base.specs.Again.{LiesIn, FillsFrom};
ghost use Rattle.sx_base.specs.Asks.{AreData, IsAgain};
ghost use Rattle.sx_base.specs.Calls.{IfAllTold};
ghost use Rattle.extent_map.specs.Cells.{cells_between};
ghost use Rattle.extent_map.specs.Pieces.{piece_cells};
ghost use Rattle.provenance.specs.Traces.{advanced_by};
ghost use Rattle.clone_pieces.specs.Origins.{IsInInput};
ghost use Rattle.clone_pieces.specs.Later.{BytesLater};
ghost use Rattle.sx_base.specs.Later.{InputsLater, AskedOnly};
ghost use Rattle.sx_base.specs.Causes.{counts};
ghost use Rattle.clone_pieces.specs.Filling.{IsHadIn, PieceHad, PieceThere, FillEnd, AgainEnd};
ghost use Rattle.clone_pieces.specs.Redirecting.{RedirectCaused, RedirectChanged};

use crate::outside::OutsideBytes;
use crate::stops::SendStop;
use extent_map::Extents;
use provenance::Trace;
use sx_base::{Inputs, Lost};

/// Fills the buffer with the bytes of as many cells of the contents from `from` on.
pub(crate) fn fill_cells<I: Inputs, B: OutsideBytes>(
    contents: &Extents<Trace>,
    from: u64,
    files: &[String],
    inputs: &mut I,
    bytes: &mut B,
    buf: &mut [u8],
) -> Result<(), SendStop>
    requires within { from + length buf.old ≤ length contents.now }
    requires had { AllByRecursion (IsHadIn (length files.now) (B.held bytes.old))
        (cells_between from (length buf.old) contents.now) }
    requires there { IfAllTold (I.told inputs.old) (map string_bytes files.now)
        (λ files. AllByRecursion (IsInInput files)
        (cells_between from (length buf.old) contents.now)) }
    ensures inputs { InputsLater I.Inputs inputs.old inputs.new result }
    ensures asked { AskedOnly I.Inputs inputs.old inputs.new
        (AllByRecursion (IsAgain (I.told inputs.old) (map string_bytes files.now))) }
    ensures bytes { BytesLater B.OutsideBytes bytes.old bytes.new result }
    ensures cause { RedirectCaused
        (counts (I.ends inputs.old) (I.faults inputs.old + B.faults bytes.old) 0)
        (counts (I.ends inputs.new) (I.faults inputs.new + B.faults bytes.new) 0) result }
    ensures changed { RedirectChanged (map string_bytes files.now) (I.last_end inputs.new) result }
    ensures filled { B.tells → IfAllTold (I.told inputs.old) (map string_bytes files.now)
        (FillEnd (B.held bytes.old) (cells_between from (length buf.old) contents.now) buf.new
        result) }
{
    let mut have = 0;
    for (origin, len) in contents.pieces(from, buf.len() as u64) {
        let end = have + len as usize;
        match fill_piece(origin, files, inputs, bytes, &mut buf[have..end]) {
            Ok(()) => have = end,
            Err(stop) => return Err(stop),
        }
    }
    Ok(())
}

// Fills the buffer with the bytes of as many cells from successive places.
fn fill_piece<I: Inputs, B: OutsideBytes>(
    origin: Option<Trace>,
    files: &[String],
    inputs: &mut I,
    bytes: &mut B,
    buf: &mut [u8],
) -> Result<(), SendStop>
    requires had { PieceHad (length files.now) (B.held bytes.old) origin (length buf.old) }
    requires there { IfAllTold (I.told inputs.old) (map string_bytes files.now)
        (PieceThere origin (length buf.old)) }
    ensures inputs { InputsLater I.Inputs inputs.old inputs.new result }
    ensures asked { AskedOnly I.Inputs inputs.old inputs.new
        (AllByRecursion (IsAgain (I.told inputs.old) (map string_bytes files.now))) }
    ensures bytes { BytesLater B.OutsideBytes bytes.old bytes.new result }
    ensures cause { RedirectCaused
        (counts (I.ends inputs.old) (I.faults inputs.old + B.faults bytes.old) 0)
        (counts (I.ends inputs.new) (I.faults inputs.new + B.faults bytes.new) 0) result }
    ensures changed { RedirectChanged (map string_bytes files.now) (I.last_end inputs.new) result }
    ensures filled { B.tells → IfAllTold (I.told inputs.old) (map string_bytes files.now)
        (FillEnd (B.held bytes.old) (piece_cells advanced_by origin (length buf.old)) buf.new
        result) }
{
    match origin {
        None => {
            buf.fill(0);
            Ok(())
        }
        Some(Trace::Fresh { file, at }) => {
            read_part(inputs, file, files[file as usize].as_str(), at, buf)
        }
        Some(Trace::Outside { key, ino, at }) => {
            match bytes.fill(key, ino, at, buf) {
                Ok(()) => Ok(()),
                Err(_) => Err(SendStop::InputFault),
            }
        }
    }
}

// Fills the buffer with bytes of an input file that were read before.
fn read_part<I: Inputs>(
    inputs: &mut I,
    file: u64,
    name: &str,
    at: u64,
    buf: &mut [u8],
) -> Result<(), SendStop>
    requires range { LiesIn (I.told inputs.old) name.now at (length buf.old) }
    requires of_data { AreData (I.told inputs.old) (file + 1) name.now at (length buf.old) }
    requires number { file + 1 < 2 ^ 64 }
    ensures inputs { InputsLater I.Inputs inputs.old inputs.new result }
    ensures asked { (names : List (List ℕ)) → file < length names
        → name.now ≡ get_or names file [] → AskedOnly I.Inputs inputs.old inputs.new
        (AllByRecursion (IsAgain (I.told inputs.old) names)) }
    ensures cause { RedirectCaused (counts (I.ends inputs.old) (I.faults inputs.old) 0)
        (counts (I.ends inputs.new) (I.faults inputs.new) 0) result }
    ensures changed { (names : List (List ℕ)) → file < length names
        → name.now ≡ get_or names file [] → RedirectChanged names (I.last_end inputs.new) result }
    ensures filled { AgainEnd (I.told inputs.old) name.now at buf.new result }
{
    match inputs.read_again(name, at, buf) {
        Ok(()) => Ok(()),
        Err(Lost::Failed) => Err(SendStop::InputFault),
        Err(Lost::Ended { place }) => Err(SendStop::InputChanged {
            file: file + 1,
            place,
        }),
    }
}
