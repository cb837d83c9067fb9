// The cells of a range as pieces.
ghost use Rattle.std.specs.Prelude.{◌≡◌, ℕ, ◌+◌, ◌-◌, ◌^◌, ◌<◌, ◌≤◌, length};
ghost use Rattle.std.specs.Iterator.{at_most};
ghost use Rattle.extent_map.specs.Cells.{cells_between};
ghost use Rattle.extent_map.specs.Pieces.{TakesPiece, IsRange};
ghost use Rattle.extent_map.specs.Reading.{AreAhead, IsNext};
ghost use Rattle.extent_map.specs.Roots.{root_cells, IsRoot};

use crate::extents::Root;
use crate::origin::Origin;
use crate::parts::find;
use crate::piece::Piece;
use crate::tree::{Shape, Tree};
use std::marker::Model;

/// The cells that are left of a range, seen as their list. Each call of `next` gives a piece: an
/// origin and the length of the run of cells from it, or None and the length of so many zero cells.
#[derive(Debug, Drop)]
pub struct Pieces<'a, O: Origin> {
    root: &'a Root<O>,
    at: u64,
    end: u64,
    leaf: &'a [Piece<O>],
}

impl<'a, O: Origin> Model for Pieces<'a, O> {
    ghost use Rattle.std.specs.Prelude.{List, Option, ◌-◌};
    ghost use Rattle.extent_map.specs.Cells.{cells_between};
    ghost use Rattle.extent_map.specs.Reading.{IsReader};
    ghost use Rattle.extent_map.specs.Roots.{root_cells, IsRoot};

    ghost Value = { List (Option O) };

    ghost view = { λ p. cells_between p.at (p.end - p.at) (root_cells O.advanced p.root.now) };

    ghost invariant = { λ p. IsRoot O.advanced O.reach p.root.now
        × IsReader O.advanced O.reach (root_cells O.advanced p.root.now) p.at p.end p.leaf.now };
}

impl<'a, O: Origin> Pieces<'a, O> {
    /// The pieces of the cells from `at` up to `end`.
    pub(crate) fn new(root: &'a Root<O>, at: u64, end: u64) -> Pieces<'a, O>
        requires root { IsRoot O.advanced O.reach root.now }
        requires range { IsRange (root_cells O.advanced root.now) at end }
        ensures { result ≡ cells_between at (end - at) (root_cells O.advanced root.now) }
    {
        Pieces {
            root,
            at,
            end,
            leaf: &[],
        }
    }
}

impl<'a, O: Origin> Iterator for Pieces<'a, O> {
    type Item = (Option<O>, u64);

    ghost next_gives = { λ left given rest. TakesPiece O.advanced O.reach left given rest };

    ghost remaining = { λ left. at_most (length left) };

    fn next(&mut self) -> Option<(Option<O>, u64)> {
        if self.at >= self.end {
            return None;
        }
        let (piece, leaf) = piece_from(self.root, self.leaf, self.at);
        let piece = piece.front(piece.len.min(self.end - self.at));
        self.leaf = leaf;
        self.at += piece.len;
        Some((piece.origin, piece.len))
    }
}

/// The piece that has the cell at a place, from there on, and the pieces of its leaf behind it,
/// where `leaf` are those from the place on, or none.
fn piece_from<'a, O: Origin>(
    root: &'a Root<O>,
    leaf: &'a [Piece<O>],
    at: u64,
) -> (Piece<O>, &'a [Piece<O>])
    requires root { IsRoot O.advanced O.reach root.now }
    requires within { at < length (root_cells O.advanced root.now) }
    requires ahead { AreAhead O.advanced O.reach (root_cells O.advanced root.now) at leaf.now 0 }
    ensures { IsNext O.advanced O.reach
        (root_cells O.advanced root.now) at result.0 result.1.now }
{
    match root {
        Root::One(piece) => (piece.behind(at), &[]),
        Root::Many(tree) => {
            if leaf.is_empty() {
                let (found, skip) = seek(tree, at);
                return (found[0].behind(skip), &found[1..]);
            }
            (leaf[0], &leaf[1..])
        }
    }
}

/// The pieces of a leaf from a place on, and how many cells of the first lie before the place.
fn seek<O: Origin>(tree: &Tree<O>, at: u64) -> (&[Piece<O>], u64)
    requires within { at < length tree.now.cells }
    requires fits { length tree.now.cells < 2 ^ 63 }
    ensures some { 0 < length result.0.now }
    ensures ahead { AreAhead O.advanced O.reach tree.now.cells at result.0.now result.1 }
{
    match &tree.shape {
        Shape::Empty => unreachable!(),
        Shape::Leaf(_, _, pieces) => {
            let pieces = pieces.as_ref().as_slice();
            let (index, start) = find(pieces, at);
            (&pieces[index..], at - start)
        }
        Shape::Fork(_, _, _, trees) => {
            let trees = trees.as_ref().as_slice();
            let (index, start) = find(trees, at);
            seek(&trees[index], at - start)
        }
    }
}
