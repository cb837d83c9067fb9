// What stands for a clone from an earlier part.
ghost use Rattle.std.specs.Prelude.{◌≡◌, ◌+◌, ◌<◌, ◌≤◌, ◌^◌, ◌⊎◌, List, map, length, is_some, IsTrue};
ghost use Rattle.std.specs.List.{AllByRecursion, sum_by};
ghost use Rattle.std.specs.String.{string_bytes};
ghost use Rattle.send_model.specs.Command.{Clone};
ghost use Rattle.send_model.specs.Spelling.{canonical, canonical_all};
ghost use Rattle.send_model.specs.Provenance.{Traced, literal_len, pieces_of};
ghost use Rattle.send_model.specs.Composed.{path_of};
ghost use Rattle.sx_base.specs.Asks.{IsAgain};
ghost use Rattle.sx_base.specs.Calls.{IfAllTold};
ghost use Rattle.subvol_catalog.specs.Entries.{key_of};
ghost use Rattle.extent_map.specs.Cells.{cells_between};
ghost use Rattle.provenance.specs.Traces.{place_in};
ghost use Rattle.provenance.specs.Plans.{planned};
ghost use Rattle.clone_pieces.specs.Origins.{outside_cells, IsHad, IsInInput, AreAsLong, AreHeld};
ghost use Rattle.clone_pieces.specs.Later.{BytesLater};
ghost use Rattle.sx_base.specs.Later.{InputsLater, OutputLater, AskedOnly};
ghost use Rattle.sx_base.specs.Causes.{counts};
ghost use Rattle.clone_pieces.specs.Filling.{byte_in, IsHadIn};
ghost use Rattle.clone_pieces.specs.Cutting.{cut_len, rest_len, rest_cells, StandsIn, IsNamed, cut_commands};
ghost use Rattle.clone_pieces.specs.Redirecting.{seen_cells, pieces_spelled, RedirectEnd, RedirectCaused, RedirectChanged};
ghost use Rattle.clone_pieces.specs.Sending.{output, PutEnd};

use crate::literal::write_cells;
use crate::outside::{Known, OutsideBytes};
use crate::ranges::{CellRange, Sources, Target};
use crate::sending::put;
use crate::stops::SendStop;
use extent_map::Extents;
use provenance::{Plan, Trace, cut_blocks};
use send_commands::Command;
use subvol_catalog::Key;
use sx_base::{Blob, Inputs, Sink};

/// How many of the `len` cells from `from` on stand in no carried block. Takes no memory.
pub fn uncarried<'a, E: Known>(
    contents: &'a Extents<Trace>,
    from: u64,
    len: u64,
    known: &'a E,
) -> u64
    requires within { from + len ≤ length contents.now }
    ensures low { result ≤ len }
    ensures count { (range : List Traced)
        → map (λ c. c.place) range ≡ map place_in (cells_between from len contents.now)
        → result ≡ sum_by literal_len (pieces_of (E.base known.now) range) }
{
    let mut sum = 0;
    for plan in cut_blocks(contents, from, len, known) {
        sum += literal_len_of(plan);
    }
    sum
}

// A piece of a clone, and where it goes.
#[derive(Clone, Copy)]
struct Piece<'a> {
    to: Target<'a>,
    contents: &'a Extents<Trace>,
    plan: Plan,
}

// A run of carried blocks: so many cells of a file of a subvolume outside, from a place on.
#[derive(Clone, Copy)]
struct CarriedRun {
    key: Key,
    ino: u64,
    from: u64,
    len: u64,
}

// How many cells of a plan stand in no carried block.
fn literal_len_of(plan: Plan) -> u64
    ensures { result ≡ rest_len (planned plan) }
{
    match plan {
        Plan::Carry { .. } => 0,
        Plan::Literal { len, .. } => len,
    }
}

// How many cells a plan has.
fn len_of(plan: &Plan) -> u64
    ensures { result ≡ cut_len (planned plan.now) }
{
    match *plan {
        Plan::Carry { len, .. } | Plan::Literal { len, .. } => len,
    }
}

/// Writes what stands for a clone of the cells of a range. Which bytes these are is said where
/// `bytes` tells.
pub fn redirect<'a, I: Inputs, E: Known, B: OutsideBytes, O: Sink>(
    range: &CellRange<'a>,
    sources: &Sources<'a, E>,
    inputs: &mut I,
    bytes: &mut B,
    pending: &mut Blob,
    out: &mut O,
) -> Result<(), SendStop>
    requires version { (range.now.to.version ≡ 1) ⊎ (range.now.to.version ≡ 2) }
    requires path { length range.now.to.path.now < 2 ^ 16 }
    requires within { range.now.from + range.now.len ≤ length range.now.contents.now }
    requires end { range.now.to.offset + range.now.len < 2 ^ 63 }
    requires had { AllByRecursion
        (IsHad (length sources.now.files.now) (E.base sources.now.known.now))
        (cells_between range.now.from range.now.len range.now.contents.now) }
    requires sized { AreAsLong (B.held bytes.old) (outside_cells (E.base sources.now.known.now)) }
    requires held { B.tells → AreHeld (B.held bytes.old) (E.base sources.now.known.now) }
    requires there { IfAllTold (I.told inputs.old) (map string_bytes sources.now.files.now)
        (λ files. AllByRecursion (IsInInput files)
        (cells_between range.now.from range.now.len range.now.contents.now)) }
    ensures inputs { InputsLater I.Inputs inputs.old inputs.new result }
    ensures asked { AskedOnly I.Inputs inputs.old inputs.new
        (AllByRecursion (IsAgain (I.told inputs.old) (map string_bytes sources.now.files.now))) }
    ensures bytes { BytesLater B.OutsideBytes bytes.old bytes.new result }
    ensures out { OutputLater O.Sink out.old out.new result }
    ensures cause { RedirectCaused
        (counts (I.ends inputs.old) (I.faults inputs.old + B.faults bytes.old) (O.faults out.old))
        (counts (I.ends inputs.new) (I.faults inputs.new + B.faults bytes.new) (O.faults out.new))
        result }
    ensures changed { RedirectChanged (map string_bytes sources.now.files.now)
        (I.last_end inputs.new) result }
    ensures redirected { B.tells
        → IfAllTold (I.told inputs.old) (map string_bytes sources.now.files.now)
        (λ told. RedirectEnd (O.taken out.old) (O.taken out.new) pending.old pending.new
        (pieces_spelled range.now.to.version (E.base sources.now.known.now) range.now.to.path.now
        range.now.to.offset (seen_cells told (E.base sources.now.known.now)
        (cells_between range.now.from range.now.len range.now.contents.now))) result) }
{
    let mut done = 0;
    for plan in cut_blocks(range.contents, range.from, range.len, sources.known) {
        let count = len_of(&plan);
        let piece = Piece {
            to: Target {
                path: range.to.path,
                offset: range.to.offset + done,
                version: range.to.version,
            },
            contents: range.contents,
            plan,
        };
        match write_piece(&piece, sources, inputs, bytes, pending, out) {
            Ok(()) => done += count,
            Err(stop) => return Err(stop),
        }
    }
    Ok(())
}

// Writes what stands for a piece of a clone.
fn write_piece<I: Inputs, E: Known, B: OutsideBytes, O: Sink>(
    piece: &Piece<'_>,
    sources: &Sources<'_, E>,
    inputs: &mut I,
    bytes: &mut B,
    pending: &mut Blob,
    out: &mut O,
) -> Result<(), SendStop>
    requires version { (piece.now.to.version ≡ 1) ⊎ (piece.now.to.version ≡ 2) }
    requires path { length piece.now.to.path.now < 2 ^ 16 }
    requires end { piece.now.to.offset + cut_len (planned piece.now.plan) < 2 ^ 63 }
    requires named { IsNamed (E.Ends.ends sources.now.known.now) (planned piece.now.plan) }
    requires within { StandsIn (length piece.now.contents.now) (planned piece.now.plan) }
    requires had { AllByRecursion (IsHadIn (length sources.now.files.now) (B.held bytes.old))
        (rest_cells piece.now.contents.now (planned piece.now.plan)) }
    requires there { IfAllTold (I.told inputs.old) (map string_bytes sources.now.files.now)
        (λ files. AllByRecursion (IsInInput files)
        (rest_cells piece.now.contents.now (planned piece.now.plan))) }
    ensures inputs { InputsLater I.Inputs inputs.old inputs.new result }
    ensures asked { AskedOnly I.Inputs inputs.old inputs.new
        (AllByRecursion (IsAgain (I.told inputs.old) (map string_bytes sources.now.files.now))) }
    ensures bytes { BytesLater B.OutsideBytes bytes.old bytes.new result }
    ensures out { OutputLater O.Sink out.old out.new result }
    ensures cause { RedirectCaused
        (counts (I.ends inputs.old) (I.faults inputs.old + B.faults bytes.old) (O.faults out.old))
        (counts (I.ends inputs.new) (I.faults inputs.new + B.faults bytes.new) (O.faults out.new))
        result }
    ensures changed { RedirectChanged (map string_bytes sources.now.files.now)
        (I.last_end inputs.new) result }
    ensures written { B.tells
        → IfAllTold (I.told inputs.old) (map string_bytes sources.now.files.now)
        (λ told. RedirectEnd (O.taken out.old) (O.taken out.new) pending.old pending.new
        (canonical_all piece.now.to.version
        (cut_commands (E.base sources.now.known.now) (byte_in (B.held bytes.old) told)
        piece.now.contents.now piece.now.to.path.now piece.now.to.offset
        (planned piece.now.plan))) result) }
{
    match piece.plan {
        Plan::Carry {
            key,
            ino,
            from,
            len,
        } => {
            let run = CarriedRun {
                key,
                ino,
                from,
                len,
            };
            clone_run(&piece.to, &run, sources, pending, out)
        }
        Plan::Literal { from, len } => {
            let range = CellRange {
                to: piece.to,
                contents: piece.contents,
                from,
                len,
            };
            write_cells(&range, sources, inputs, bytes, pending, out)
        }
    }
}

// Puts the CLONE of a run of carried blocks.
fn clone_run<E: Known, O: Sink>(
    to: &Target<'_>,
    run: &CarriedRun,
    sources: &Sources<'_, E>,
    pending: &mut Blob,
    out: &mut O,
) -> Result<(), SendStop>
    requires version { (to.now.version ≡ 1) ⊎ (to.now.version ≡ 2) }
    requires path { length to.now.path.now < 2 ^ 16 }
    requires named { IsTrue
        (is_some (E.Ends.ends sources.now.known.now (key_of run.now.key) run.now.ino)) }
    ensures out { OutputLater O.Sink out.old out.new result }
    ensures put { PutEnd (output O.Sink out.old pending.old) (output O.Sink out.new pending.new)
        (canonical to.now.version
        (Clone to.now.path.now to.now.offset run.now.key.uuid run.now.key.ctransid
        (path_of (E.base sources.now.known.now)
        (record { key = key_of run.now.key; ino = run.now.ino; offset = run.now.from }))
        run.now.from run.now.len)) result }
{
    let Ok(found) = sources.known.first_path(sources.alloc, run.key, run.ino) else {
        return Err(SendStop::NoMemory);
    };
    let Some(clone_path) = found else {
        unreachable!()
    };
    put_clone(to.path, clone_path.as_slice(), to, run, pending, out)
}

// The same, where the paths of both files are known: of the one that is written, and of the run's.
fn put_clone<'a, O: Sink>(
    path: &'a [u8],
    clone_path: &'a [u8],
    to: &Target<'_>,
    run: &CarriedRun,
    pending: &mut Blob,
    out: &mut O,
) -> Result<(), SendStop>
    requires version { (to.now.version ≡ 1) ⊎ (to.now.version ≡ 2) }
    requires path { length path.now < 2 ^ 16 }
    requires clone_path { length clone_path.now < 2 ^ 16 }
    ensures out { OutputLater O.Sink out.old out.new result }
    ensures put { PutEnd (output O.Sink out.old pending.old) (output O.Sink out.new pending.new)
        (canonical to.now.version
        (Clone path.now to.now.offset run.now.key.uuid run.now.key.ctransid clone_path.now
        run.now.from run.now.len)) result }
{
    let clone_uuid = run.key.uuid;
    let _bytes: &[u8] = clone_uuid.as_bytes();
    let command = Command::Clone {
        path,
        offset: to.offset,
        clone_uuid,
        clone_ctransid: run.key.ctransid,
        clone_path,
        clone_offset: run.from,
        clone_len: run.len,
    };
    put(&command, to.version, pending, out)
}
