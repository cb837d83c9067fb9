// A tree of runs, whose parts other trees may share.
ghost use Rattle.std.specs.Prelude.{◌≡◌, ℕ, ◌+◌, ◌*◌, ◌^◌, ◌<◌, ◌≤◌, [], IfOk, IfSome, length};
ghost use Rattle.extent_map.specs.Leaves.{IsOnly};
ghost use Rattle.extent_map.specs.Pieces.{have_foreign};
ghost use Rattle.extent_map.specs.Seen.{cells_count, IsKid};
ghost use Rattle.extent_map.specs.Trees.{count_of, height_of, says_foreign};

use crate::origin::Origin;
use crate::parts::Part;
use crate::piece::Piece;
use std::alloc::AllocError;
use std::marker::Model;
use std::rc::Rc;

// How many pieces a leaf has at most, and how many trees one is over. Two less than what a list of
// pieces and one less than what a list of trees has room for where it grew by doubling, since so
// many more may come before a list is split.
pub(crate) const PIECES: usize = 30;

pub(crate) const KIDS: usize = 31;

/// Runs of cells in a tree whose leaves are all at one height, seen as the list of the cells and
/// the height. Copies share their parts.
#[cycle(tree)]
#[derive(Debug, Drop)]
pub(crate) struct Tree<O: Origin> {
    pub(crate) shape: Shape<O>,
}

/// No cells, pieces, or trees of one height: whether one of their cells is foreign, how many cells
/// they have, and they. The small fields stand together, since what stands in each file's contents
/// is as long as they are laid out.
#[cycle(tree)]
#[derive(Debug, Drop)]
pub(crate) enum Shape<O: Origin> {
    Empty,
    Leaf(bool, u64, Rc<Vec<Piece<O>>>),
    /// The height comes first: how many steps it is down to a leaf's pieces.
    Fork(u8, bool, u64, Rc<Vec<Tree<O>>>),
}

impl<O: Origin> Model for Tree<O> {
    ghost use Rattle.extent_map.specs.Seen.{Seen};

    ghost Value = { Seen O };

    ghost use Rattle.extent_map.specs.Trees.{seen, IsTree};

    ghost view = { λ t. seen O.advanced t.shape };

    ghost invariant = { λ t. IsTree O.advanced O.foreign O.reach t.shape };

    ghost size = { λ s. s.height };

    ghost use Rattle.extent_map.specs.Falls.{kids_lower};

    ghost size_decreases = { λ a h. kids_lower O O.Origin a.shape h.parts };
}

impl<O: Origin> Shape<O> {
    fn count(&self) -> u64
        ensures { result ≡ count_of self.now }
    {
        match self {
            Shape::Empty => 0,
            Shape::Leaf(_, len, _) => *len,
            Shape::Fork(_, _, len, _) => *len,
        }
    }

    fn height(&self) -> u8
        ensures { result ≡ height_of self.now }
    {
        match self {
            Shape::Empty => 0,
            Shape::Leaf(_, _, _) => 1,
            Shape::Fork(height, _, _, _) => *height,
        }
    }

    fn says_foreign(&self) -> bool
        ensures { result ≡ says_foreign self.now }
    {
        match self {
            Shape::Empty => false,
            Shape::Leaf(foreign, _, _) => *foreign,
            Shape::Fork(_, foreign, _, _) => *foreign,
        }
    }
}

impl<O: Origin> Part for Tree<O> {
    ghost span = { λ tree. cells_count tree };

    ghost foreign = { λ tree. have_foreign O.foreign tree.cells };

    fn span(&self) -> u64 {
        self.shape.count()
    }

    fn has_foreign(&self) -> bool {
        self.shape.says_foreign()
    }

    fn copy(&self) -> Result<Tree<O>, AllocError> {
        match &self.shape {
            Shape::Empty => Ok(Tree {
                shape: Shape::Empty,
            }),
            Shape::Leaf(foreign, len, pieces) => Ok(Tree {
                shape: Shape::Leaf(*foreign, *len, pieces.clone()?),
            }),
            Shape::Fork(height, foreign, len, kids) => Ok(Tree {
                shape: Shape::Fork(*height, *foreign, *len, kids.clone()?),
            }),
        }
    }
}

impl<O: Origin> Tree<O> {
    /// No cells.
    pub(crate) fn new() -> Tree<O>
        ensures cells { result.cells ≡ [] }
        ensures height { result.height ≡ 0 }
    {
        Tree {
            shape: Shape::Empty,
        }
    }

    /// How high the tree is: 0 where it has no cells.
    pub(crate) fn height(&self) -> u8
        ensures height { result ≡ self.now.height }
        ensures kid { 0 < self.now.height → IsKid self.now.height self.now }
        ensures none { self.now.height ≡ 0 → self.now.cells ≡ [] }
    {
        self.shape.height()
    }

    /// Whether another tree of its height is small enough to become one with it.
    pub(crate) fn takes(&self, other: &Tree<O>) -> bool {
        match (&self.shape, &other.shape) {
            (Shape::Leaf(_, _, pieces), Shape::Leaf(_, _, more)) => {
                pieces.as_ref().len().saturating_add(more.as_ref().len()) <= PIECES / 2
            }
            (Shape::Fork(_, _, _, kids), Shape::Fork(_, _, _, more)) => {
                kids.as_ref().len().saturating_add(more.as_ref().len()) <= KIDS
            }
            _ => false,
        }
    }

    /// The piece that the tree is, if it is a leaf of one.
    pub(crate) fn only(&self) -> Option<Piece<O>>
        ensures { IfSome result (IsOnly O.advanced O.reach self.now) }
    {
        match &self.shape {
            Shape::Leaf(_, _, pieces) => match pieces.as_ref().as_slice() {
                [piece] => Some(*piece),
                _ => None,
            },
            _ => None,
        }
    }
}
