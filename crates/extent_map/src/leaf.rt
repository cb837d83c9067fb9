// The pieces of a leaf.
ghost use Rattle.std.specs.Prelude.{◌≡◌, ℕ, ◌+◌, ◌^◌, ◌<◌, ◌≤◌, OnOk, IfOk, ◌++◌, length, take, drop};
ghost use Rattle.std.specs.List.{sum_by};
ghost use Rattle.extent_map.specs.Leaves.{cells_in, all_cells, IsReached, ArePieces, IsAdded, pieces_at, HaveCells, overwritten};

use crate::origin::Origin;
use crate::parts::find;
use crate::piece::Piece;
use std::alloc::AllocError;

/// Puts a piece before the one at `at`, or joins it to the one before it. No cells are no piece.
pub(crate) fn add_at<O: Origin>(
    pieces: &mut Vec<Piece<O>>,
    at: usize,
    piece: Piece<O>,
) -> Result<usize, AllocError>
    requires pieces { ArePieces O.reach pieces.old.items }
    requires at { at ≤ length pieces.old.items }
    requires reaches { IsReached O.reach piece }
    requires fits { sum_by (λ p. p.len) pieces.old.items + piece.len < 2 ^ 63 }
    ensures { IfOk result (λ next. IsAdded O.advanced O.reach
        (pieces_at pieces.old.items at) piece (pieces_at pieces.new.items next)) }
{
    if piece.len == 0 {
        return Ok(at);
    }
    if at > 0 {
        if let Some(both) = pieces[at - 1].with(&piece) {
            pieces[at - 1] = both;
            return Ok(at);
        }
    }
    pieces.insert(at, piece)?;
    Ok(at + 1)
}

/// Makes one piece of the one at `at` and the one before it, if they are one.
pub(crate) fn close_at<O: Origin>(pieces: &mut Vec<Piece<O>>, at: usize)
    requires pieces { ArePieces O.reach pieces.old.items }
    requires fits { sum_by (λ p. p.len) pieces.old.items < 2 ^ 63 }
    ensures { HaveCells O.advanced O.reach
        (all_cells O.advanced pieces.old.items) pieces.new.items }
{
    if at == 0 || at >= pieces.len() {
        return;
    }
    if let Some(both) = pieces[at - 1].with(&pieces[at]) {
        pieces[at - 1] = both;
        let _ = pieces.remove(at);
    }
}

/// Takes out the pieces from `from` up to `to`.
fn take_out<O: Origin>(pieces: &mut Vec<Piece<O>>, from: usize, to: usize)
    requires order { from ≤ to }
    requires within { to ≤ length pieces.old.items }
    ensures { pieces.new.items ≡ take from pieces.old.items ++ drop to pieces.old.items }
{
    for _ in from..to {
        let _ = pieces.remove(from);
    }
}

/// Puts a piece in place of the cells from `at` on.
pub(crate) fn write_over<O: Origin>(
    pieces: &mut Vec<Piece<O>>,
    at: u64,
    new: Piece<O>,
) -> Result<(), AllocError>
    requires pieces { ArePieces O.reach pieces.old.items }
    requires some { 0 < new.len }
    requires reaches { IsReached O.reach new }
    requires within { at + new.len ≤ sum_by (λ p. p.len) pieces.old.items }
    requires fits { sum_by (λ p. p.len) pieces.old.items < 2 ^ 63 }
    ensures { OnOk result (HaveCells O.advanced O.reach
        (overwritten at (cells_in O.advanced new) (all_cells O.advanced pieces.old.items))
        pieces.new.items) }
{
    let end = at + new.len;
    let (first, start) = find(pieces, at);
    let (last, last_start) = find(pieces, end - 1);
    let lead = pieces[first].front(at - start);
    let tail = pieces[last].behind(end - last_start);
    take_out(pieces, first, last + 1);
    let place = add_at(pieces, first, lead)?;
    let place = add_at(pieces, place, new)?;
    let place = add_at(pieces, place, tail)?;
    close_at(pieces, place);
    Ok(())
}

/// Leaves the first `at` cells, and gives the others.
pub(crate) fn split_at<O: Origin>(
    pieces: &mut Vec<Piece<O>>,
    at: u64,
) -> Result<Vec<Piece<O>>, AllocError>
    requires pieces { ArePieces O.reach pieces.old.items }
    requires within { at < sum_by (λ p. p.len) pieces.old.items }
    requires fits { sum_by (λ p. p.len) pieces.old.items < 2 ^ 63 }
    ensures front { OnOk result (HaveCells O.advanced O.reach
        (take at (all_cells O.advanced pieces.old.items)) pieces.new.items) }
    ensures back { IfOk result (λ back. HaveCells O.advanced O.reach
        (drop at (all_cells O.advanced pieces.old.items)) back.items) }
{
    let (index, start) = find(pieces, at);
    let lead = pieces[index].front(at - start);
    let tail = pieces[index].behind(at - start);
    let mut back = pieces.split_off(index)?;
    back[0] = tail;
    add_at(pieces, index, lead)?;
    Ok(back)
}

/// Puts pieces behind others.
pub(crate) fn append<O: Origin>(
    pieces: &mut Vec<Piece<O>>,
    mut more: Vec<Piece<O>>,
) -> Result<(), AllocError>
    requires pieces { ArePieces O.reach pieces.old.items }
    requires more { ArePieces O.reach more.items }
    requires fits { sum_by (λ p. p.len) pieces.old.items + sum_by (λ p. p.len) more.items < 2 ^ 63 }
    ensures { OnOk result (HaveCells O.advanced O.reach
        (all_cells O.advanced pieces.old.items ++ all_cells O.advanced more.items)
        pieces.new.items) }
{
    let seam = pieces.len();
    pieces.append(&mut more)?;
    close_at(pieces, seam);
    Ok(())
}
