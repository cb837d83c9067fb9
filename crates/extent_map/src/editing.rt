// Trees whose cells are changed.
ghost use Rattle.std.specs.Prelude.{◌≡◌, ℕ, ◌+◌, ◌-◌, ◌^◌, ◌<◌, ◌≤◌, ◌++◌, [], None, IfOk, length, take, drop};
ghost use Rattle.extent_map.specs.Cells.{resize_cells, put_cells};
ghost use Rattle.extent_map.specs.Leaves.{cells_in, IsPiece, overwritten};
ghost use Rattle.extent_map.specs.Seen.{around, joined, IsOpenAt, IsTwo};

use crate::joining::{append, over_two, take_kid};
use crate::leaf::{add_at, split_at, write_over};
use crate::making::{Kids, Two, any, leaf, leaves, root};
use crate::origin::Origin;
use crate::parts::{Part, find, fresh};
use crate::piece::Piece;
use crate::tree::Tree;
use std::alloc::{AllocError, Global};

impl<O: Origin> Tree<O> {
    /// The tree of one piece. Fails for want of memory alone.
    pub(crate) fn of_piece(alloc: Global, piece: Piece<O>) -> Result<Tree<O>, AllocError>
        requires { IsPiece O.reach piece }
        ensures cells { IfOk result (λ t. t.cells ≡ cells_in O.advanced piece) }
        ensures height { IfOk result (λ t. t.height ≡ 1) }
    {
        let mut pieces = Vec::with_capacity(alloc, 4)?;
        pieces.push(piece)?;
        leaf(alloc, fresh(alloc)?, piece.len, pieces)
    }

    /// The cells with those of a piece behind them. Fails for want of memory alone.
    pub(crate) fn push(self, alloc: Global, piece: Piece<O>) -> Result<Two<O>, AllocError>
        requires piece { IsPiece O.reach piece }
        requires fits { length self.cells + piece.len < 2 ^ 63 }
        ensures two { IfOk result (λ two. IsTwo (self.cells ++ cells_in O.advanced piece)
            two.first.height two.first two.second) }
        ensures height { IfOk result (λ two. 0 < self.height → two.first.height ≡ self.height) }
    {
        let len = self.span() + piece.len;
        let height = self.height();
        if height == 0 {
            return Ok(Two {
                first: Tree::of_piece(alloc, piece)?,
                second: Tree::new(),
            });
        }
        if height == 1 {
            let (node, mut pieces) = self.leafed(alloc)?;
            let end = pieces.len();
            add_at(&mut pieces, end, piece)?;
            return leaves(alloc, node, len, pieces, true);
        }
        let mut kids = self.forked(alloc)?;
        let last = kids.trees.len() - 1;
        let kid = take_kid(&mut kids.trees, last);
        let two = kid.push(alloc, piece)?;
        over_two(alloc, kids, last, two, len)
    }

    /// The cells with those of a piece in place of those from `at` on. Fails for want of memory
    /// alone.
    pub(crate) fn put(self, alloc: Global, at: u64, piece: Piece<O>) -> Result<Two<O>, AllocError>
        requires piece { IsPiece O.reach piece }
        requires within { at + piece.len ≤ length self.cells }
        requires fits { length self.cells < 2 ^ 63 }
        ensures { IfOk result (λ two. IsTwo
            (overwritten at (cells_in O.advanced piece) self.cells)
            two.first.height two.first two.second) }
    {
        let len = self.span();
        if self.height() == 1 {
            let (node, mut pieces) = self.leafed(alloc)?;
            write_over(&mut pieces, at, piece)?;
            return leaves(alloc, node, len, pieces, false);
        }
        let mut kids = self.forked(alloc)?;
        let (index, start) = find(&kids.trees, at);
        if at + piece.len > start + kids.trees[index].span() {
            let whole = any(alloc, kids.height, kids.node, kids.trees)?;
            return whole.across(alloc, at, piece);
        }
        let kid = take_kid(&mut kids.trees, index);
        let two = kid.put(alloc, at - start, piece)?;
        if two.first.height() == kids.height - 1 {
            return over_two(alloc, kids, index, two, len);
        }
        let lower = root(alloc, two)?;
        around_it(alloc, kids, index, lower)
    }

    /// The cells with those of a piece in place of those from `at` on, whatever parts of the tree
    /// these stand in. Fails for want of memory alone.
    fn across(self, alloc: Global, at: u64, piece: Piece<O>) -> Result<Two<O>, AllocError>
        requires piece { IsPiece O.reach piece }
        requires within { at + piece.len ≤ length self.cells }
        requires fits { length self.cells < 2 ^ 63 }
        ensures { IfOk result (λ two. IsTwo
            (overwritten at (cells_in O.advanced piece) self.cells)
            two.first.height two.first two.second) }
    {
        let (front, rest) = self.halves(alloc, at)?;
        let (_, back) = rest.halves(alloc, piece.len)?;
        let two = front.push(alloc, piece)?;
        let front = root(alloc, two)?;
        Ok(Two {
            first: append(alloc, front, back)?,
            second: Tree::new(),
        })
    }

    /// The first `at` cells, and the others. Fails for want of memory alone.
    pub(crate) fn halves(self, alloc: Global, at: u64) -> Result<(Tree<O>, Tree<O>), AllocError>
        requires within { at ≤ length self.cells }
        requires fits { length self.cells < 2 ^ 63 }
        ensures front { IfOk result (λ halves. halves.0.cells ≡ take at self.cells) }
        ensures back { IfOk result (λ halves. halves.1.cells ≡ drop at self.cells) }
    {
        let len = self.span();
        if at == 0 {
            return Ok((Tree::new(), self));
        }
        if at == len {
            return Ok((self, Tree::new()));
        }
        if self.height() == 1 {
            let (node, mut pieces) = self.leafed(alloc)?;
            let back = split_at(&mut pieces, at)?;
            let front = leaf(alloc, node, at, pieces)?;
            let back = leaf(alloc, fresh(alloc)?, len - at, back)?;
            return Ok((front, back));
        }
        let mut kids = self.forked(alloc)?;
        let (index, start) = find(&kids.trees, at);
        let kid = take_kid(&mut kids.trees, index);
        let (low, high) = kid.halves(alloc, at - start)?;
        let (left, right) = sides(alloc, kids, index)?;
        Ok((append(alloc, left, low)?, append(alloc, high, right)?))
    }

    /// The cells cut to `size`, or with zero cells behind them up to it. Fails for want of memory
    /// alone.
    pub(crate) fn resized(self, alloc: Global, size: u64) -> Result<Tree<O>, AllocError>
        requires size { size < 2 ^ 63 }
        requires fits { length self.cells < 2 ^ 63 }
        ensures { IfOk result (λ t. t.cells ≡ resize_cells None size self.cells) }
    {
        let len = self.span();
        if size <= len {
            let (front, _) = self.halves(alloc, size)?;
            return Ok(front);
        }
        let hole = Piece {
            origin: None,
            len: size - len,
        };
        let two = self.push(alloc, hole)?;
        root(alloc, two)
    }

    /// The cells with those of a piece in place of those from `at` on. Fails for want of memory
    /// alone.
    pub(crate) fn with(self, alloc: Global, at: u64, piece: Piece<O>) -> Result<Tree<O>, AllocError>
        requires piece { IsPiece O.reach piece }
        requires end { at + piece.len < 2 ^ 63 }
        requires fits { length self.cells < 2 ^ 63 }
        ensures { IfOk result (λ t. t.cells
            ≡ put_cells None at (cells_in O.advanced piece) self.cells) }
    {
        if at + piece.len <= self.span() {
            let within = self.put(alloc, at, piece)?;
            return root(alloc, within);
        }
        let front = self.resized(alloc, at)?;
        let two = front.push(alloc, piece)?;
        root(alloc, two)
    }

    /// The cells with those of another tree in place of those from `at` on. Fails for want of
    /// memory alone.
    pub(crate) fn with_tree(
        self,
        alloc: Global,
        at: u64,
        new: Tree<O>,
    ) -> Result<Tree<O>, AllocError>
        requires some { 0 < length new.cells }
        requires end { at + length new.cells < 2 ^ 63 }
        requires fits { length self.cells < 2 ^ 63 }
        ensures { IfOk result (λ t. t.cells ≡ put_cells None at new.cells self.cells) }
    {
        if at + new.span() >= self.span() {
            let front = self.resized(alloc, at)?;
            return append(alloc, front, new);
        }
        let (front, rest) = self.halves(alloc, at)?;
        let (_, back) = rest.halves(alloc, new.span())?;
        let low = append(alloc, front, new)?;
        append(alloc, low, back)
    }
}

/// The trees before one, and those after it, each as one tree. Fails for want of memory alone.
fn sides<O: Origin>(
    alloc: Global,
    kids: Kids<O>,
    index: usize,
) -> Result<(Tree<O>, Tree<O>), AllocError>
    requires open { IsOpenAt kids.height index kids.trees.items }
    requires fits { length (around index kids.trees.items []) < 2 ^ 63 }
    ensures left { IfOk result (λ sides. sides.0.cells ≡ joined (take index kids.trees.items)) }
    ensures right { IfOk result
        (λ sides. sides.1.cells ≡ joined (drop (index + 1) kids.trees.items)) }
{
    let Kids {
        height,
        node,
        mut trees,
    } = kids;
    let back = trees.split_off(index + 1)?;
    trees.truncate(index);
    let left = any(alloc, height, node, trees)?;
    let right = any(alloc, height, fresh(alloc)?, back)?;
    Ok((left, right))
}

/// Trees as one, with one in place of the one at `index`. Fails for want of memory alone.
fn around_it<O: Origin>(
    alloc: Global,
    kids: Kids<O>,
    index: usize,
    tree: Tree<O>,
) -> Result<Two<O>, AllocError>
    requires open { IsOpenAt kids.height index kids.trees.items }
    requires fits { length (around index kids.trees.items tree.cells) < 2 ^ 63 }
    ensures { IfOk result (λ two. IsTwo (around index kids.trees.items tree.cells)
        two.first.height two.first two.second) }
{
    let (left, right) = sides(alloc, kids, index)?;
    let low = append(alloc, left, tree)?;
    Ok(Two {
        first: append(alloc, low, right)?,
        second: Tree::new(),
    })
}
