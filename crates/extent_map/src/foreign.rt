// The first foreign cell from a place on.
ghost use Rattle.std.specs.Prelude.{ℕ, ◌^◌, ◌<◌, ◌≤◌, None, length};
ghost use Rattle.extent_map.specs.Cells.{IsFirstFrom};
ghost use Rattle.extent_map.specs.Leaves.{all_cells, ArePieces};
ghost use Rattle.extent_map.specs.Pieces.{foreign_cell};

use crate::origin::Origin;
use crate::parts::Part;
use crate::piece::Piece;
use crate::tree::{Shape, Tree};

/// The first place from `at` on where a foreign cell stands in the cells of pieces, or their end.
fn first_in_pieces<O: Origin>(pieces: &[Piece<O>], at: u64) -> u64
    requires pieces { ArePieces O.reach pieces.now }
    requires within { at ≤ length (all_cells O.advanced pieces.now) }
    requires fits { length (all_cells O.advanced pieces.now) < 2 ^ 63 }
    ensures { IsFirstFrom (foreign_cell O.foreign) None at (all_cells O.advanced pieces.now)
        result }
{
    let mut start: u64 = 0;
    for piece in pieces {
        let from = start;
        let end = start + piece.len;
        start = end;
        if end <= at {
            continue;
        }
        let place = from + piece.first_foreign(at.saturating_sub(from));
        if place < end {
            return place;
        }
    }
    start
}

/// The first place from `at` on where a foreign cell stands in a tree, or the end of its cells. It
/// looks below no tree that has no foreign cell.
pub(crate) fn first_in_tree<O: Origin>(tree: &Tree<O>, at: u64) -> u64
    requires within { at ≤ length tree.now.cells }
    requires fits { length tree.now.cells < 2 ^ 63 }
    ensures { IsFirstFrom (foreign_cell O.foreign) None at tree.now.cells result }
{
    if !tree.has_foreign() {
        return tree.span();
    }
    match &tree.shape {
        Shape::Empty => 0,
        Shape::Leaf(_, _, pieces) => first_in_pieces(pieces.as_ref().as_slice(), at),
        Shape::Fork(_, _, _, kids) => {
            let kids = kids.as_ref().as_slice();
            let mut start: u64 = 0;
            for kid in kids {
                let from = start;
                let end = start + kid.span();
                start = end;
                if end <= at {
                    continue;
                }
                let place = from + first_in_tree(kid, at.saturating_sub(from));
                if place < end {
                    return place;
                }
            }
            start
        }
    }
}
