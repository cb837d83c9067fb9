// Trees that are taken apart, and made.
ghost use Rattle.std.specs.Prelude.{◌≡◌, ℕ, ◌+◌, ◌^◌, ◌<◌, ◌≤◌, ◌++◌, IfOk, length};
ghost use Rattle.std.specs.List.{sum_by};
ghost use Rattle.extent_map.specs.Leaves.{all_cells, ArePieces};
ghost use Rattle.extent_map.specs.Seen.{cells_count, joined, AreBelow, IsFork, IsTwo};
ghost use Rattle.extent_map.specs.Trees.{IsLeaf};

use crate::origin::Origin;
use crate::parts::{Part, any_foreign, fresh, given, taken, total};
use crate::piece::Piece;
use crate::tree::{KIDS, PIECES, Shape, Tree};
use std::alloc::{AllocError, Global};
use std::rc::Rc;

/// The trees that one is over, the height of that one, and its node.
#[derive(Debug, Drop)]
pub(crate) struct Kids<O: Origin> {
    pub(crate) height: u8,
    pub(crate) node: Rc<Vec<Tree<O>>>,
    pub(crate) trees: Vec<Tree<O>>,
}

/// One tree, or two of one height.
#[derive(Debug, Drop)]
pub(crate) struct Two<O: Origin> {
    pub(crate) first: Tree<O>,
    pub(crate) second: Tree<O>,
}

impl<O: Origin> Tree<O> {
    ghost use Rattle.extent_map.specs.Opened.{ArePiecesOf, AreKidsOf};

    /// Takes a leaf apart: its node, and its pieces. Fails for want of memory alone.
    pub(crate) fn leafed(
        self,
        alloc: Global,
    ) -> Result<(Rc<Vec<Piece<O>>>, Vec<Piece<O>>), AllocError>
        requires { self.height ≡ 1 }
        ensures { IfOk result
            (λ opened. ArePiecesOf O.advanced O.reach self opened.1.items) }
    {
        match self.shape {
            Shape::Leaf(_, _, node) => taken(alloc, node),
            Shape::Empty => unreachable!(),
            Shape::Fork(_, _, _, _) => unreachable!(),
        }
    }

    /// Takes a tree over others apart. Fails for want of memory alone.
    pub(crate) fn forked(self, alloc: Global) -> Result<Kids<O>, AllocError>
        requires { 1 < self.height }
        ensures { IfOk result (λ kids. AreKidsOf self kids.height kids.trees.items) }
    {
        match self.shape {
            Shape::Fork(height, _, _, node) => {
                let (node, trees) = taken(alloc, node)?;
                Ok(Kids {
                    height,
                    node,
                    trees,
                })
            }
            Shape::Empty => unreachable!(),
            Shape::Leaf(_, _, _) => unreachable!(),
        }
    }
}

/// A leaf. Fails for want of memory alone.
pub(crate) fn leaf<O: Origin>(
    alloc: Global,
    node: Rc<Vec<Piece<O>>>,
    len: u64,
    pieces: Vec<Piece<O>>,
) -> Result<Tree<O>, AllocError>
    requires { IsLeaf O.reach len pieces.items }
    ensures cells { IfOk result (λ t. t.cells ≡ all_cells O.advanced pieces.items) }
    ensures height { IfOk result (λ t. t.height ≡ 1) }
{
    let foreign = any_foreign(&pieces);
    Ok(Tree {
        shape: Shape::Leaf(foreign, len, given(alloc, node, pieces)?),
    })
}

/// How many of too many pieces the first of two leaves keeps: as many as it can where they were
/// written to at the end.
fn kept(count: usize, at_end: bool) -> usize
    requires { 30 < count }
    ensures some { 0 < result }
    ensures less { result < count }
{
    if at_end { PIECES } else { count / 2 }
}

/// One leaf, or two where it has too many pieces. Fails for want of memory alone.
pub(crate) fn leaves<O: Origin>(
    alloc: Global,
    node: Rc<Vec<Piece<O>>>,
    len: u64,
    mut pieces: Vec<Piece<O>>,
    at_end: bool,
) -> Result<Two<O>, AllocError>
    requires leaf { IsLeaf O.reach len pieces.items }
    requires fits { len < 2 ^ 63 }
    ensures { IfOk result
        (λ two. IsTwo (all_cells O.advanced pieces.items) 1 two.first two.second) }
{
    if pieces.len() <= PIECES {
        return Ok(Two {
            first: leaf(alloc, node, len, pieces)?,
            second: Tree::new(),
        });
    }
    let keep = kept(pieces.len(), at_end);
    let back = pieces.split_off(keep)?;
    let high = total(&back);
    let first = leaf(alloc, node, len - high, pieces)?;
    let second = leaf(alloc, fresh(alloc)?, high, back)?;
    Ok(Two { first, second })
}

/// A tree over others. Fails for want of memory alone.
pub(crate) fn over<O: Origin>(
    alloc: Global,
    height: u8,
    node: Rc<Vec<Tree<O>>>,
    len: u64,
    trees: Vec<Tree<O>>,
) -> Result<Tree<O>, AllocError>
    requires { IsFork height len trees.items }
    ensures cells { IfOk result (λ t. t.cells ≡ joined trees.items) }
    ensures height { IfOk result (λ t. t.height ≡ height) }
{
    let foreign = any_foreign(&trees);
    Ok(Tree {
        shape: Shape::Fork(height, foreign, len, given(alloc, node, trees)?),
    })
}

/// One tree over others, or two where these are too many. Fails for want of memory alone.
pub(crate) fn forks<O: Origin>(
    alloc: Global,
    height: u8,
    node: Rc<Vec<Tree<O>>>,
    len: u64,
    mut trees: Vec<Tree<O>>,
) -> Result<Two<O>, AllocError>
    requires fork { IsFork height len trees.items }
    requires fits { len < 2 ^ 63 }
    ensures { IfOk result (λ two. IsTwo (joined trees.items) height two.first two.second) }
{
    if trees.len() <= KIDS {
        return Ok(Two {
            first: over(alloc, height, node, len, trees)?,
            second: Tree::new(),
        });
    }
    let keep = trees.len() / 2;
    let back = trees.split_off(keep)?;
    let high = total(&back);
    let first = over(alloc, height, node, len - high, trees)?;
    let second = over(alloc, height, fresh(alloc)?, high, back)?;
    Ok(Two { first, second })
}

/// One tree of any number of trees that can stand below one of a height. Fails for want of memory
/// alone.
pub(crate) fn any<O: Origin>(
    alloc: Global,
    height: u8,
    node: Rc<Vec<Tree<O>>>,
    mut trees: Vec<Tree<O>>,
) -> Result<Tree<O>, AllocError>
    requires below { AreBelow height trees.items }
    requires fits { sum_by cells_count trees.items < 2 ^ 63 }
    ensures { IfOk result (λ t. t.cells ≡ joined trees.items) }
{
    if trees.len() > 1 {
        let len = total(&trees);
        return over(alloc, height, node, len, trees);
    }
    match trees.pop() {
        Some(tree) => Ok(tree),
        None => Ok(Tree::new()),
    }
}

/// One tree of one or two. Fails for want of memory alone.
pub(crate) fn root<O: Origin>(alloc: Global, two: Two<O>) -> Result<Tree<O>, AllocError>
    requires two { IsTwo (two.first.cells ++ two.second.cells) two.first.height two.first
        two.second }
    requires fits { length (two.first.cells ++ two.second.cells) < 2 ^ 63 }
    ensures { IfOk result (λ t. t.cells ≡ two.first.cells ++ two.second.cells) }
{
    if two.second.height() == 0 {
        return Ok(two.first);
    }
    let len = two.first.span() + two.second.span();
    let height = two.first.height() + 1;
    let mut trees = Vec::with_capacity(alloc, 4)?;
    trees.push(two.first)?;
    trees.push(two.second)?;
    over(alloc, height, fresh(alloc)?, len, trees)
}
