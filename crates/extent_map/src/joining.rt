// Trees that are joined to one.
ghost use Rattle.std.specs.Prelude.{◌≡◌, ℕ, ◌+◌, ◌^◌, ◌<◌, ◌≤◌, ◌++◌, IfOk, OnOk, length, max, take, drop};
ghost use Rattle.extent_map.specs.Seen.{around, filled, IsOpenAt, IsTaken, IsTwo};

use crate::leaf;
use crate::making::{Kids, Two, forks, leaves, root};
use crate::origin::Origin;
use crate::parts::Part;
use crate::tree::Tree;
use std::alloc::{AllocError, Global};
use std::mem;

/// Puts a tree before the one at `at`, if it has cells.
fn put_at<O: Origin>(trees: &mut Vec<Tree<O>>, at: usize, tree: Tree<O>) -> Result<(), AllocError>
    requires { at ≤ length trees.old.items }
    ensures { OnOk result (trees.new.items
        ≡ take at trees.old.items ++ filled tree ++ drop at trees.old.items) }
{
    if tree.height() == 0 {
        return Ok(());
    }
    trees.insert(at, tree)?;
    Ok(())
}

/// One tree or two over trees, with one or two in place of the one at `index`. Fails for want of
/// memory alone.
pub(crate) fn over_two<O: Origin>(
    alloc: Global,
    kids: Kids<O>,
    index: usize,
    two: Two<O>,
    len: u64,
) -> Result<Two<O>, AllocError>
    requires open { IsOpenAt kids.height index kids.trees.items }
    requires two { IsTwo (two.first.cells ++ two.second.cells) two.first.height two.first
        two.second }
    requires high { two.first.height + 1 ≡ kids.height }
    requires some { 0 < two.first.height }
    requires count { len
        ≡ length (around index kids.trees.items (two.first.cells ++ two.second.cells)) }
    requires fits { len < 2 ^ 63 }
    ensures { IfOk result (λ new. IsTwo
        (around index kids.trees.items (two.first.cells ++ two.second.cells))
        kids.height new.first new.second) }
{
    let _low = two.first.height();
    let _more = two.second.height();
    let Kids {
        height,
        node,
        mut trees,
    } = kids;
    trees[index] = two.first;
    put_at(&mut trees, index + 1, two.second)?;
    forks(alloc, height, node, len, trees)
}

/// Takes out one of some trees, in whose place an empty one stays.
pub(crate) fn take_kid<O: Origin>(trees: &mut Vec<Tree<O>>, index: usize) -> Tree<O>
    requires { index < length trees.old.items }
    ensures { IsTaken trees.old.items index result trees.new.items }
{
    mem::replace(&mut trees[index], Tree::new())
}

/// One tree or two of two leaves. Fails for want of memory alone.
fn join_leaves<O: Origin>(
    alloc: Global,
    left: Tree<O>,
    right: Tree<O>,
) -> Result<Two<O>, AllocError>
    requires left { left.height ≡ 1 }
    requires right { right.height ≡ 1 }
    requires fits { length left.cells + length right.cells < 2 ^ 63 }
    ensures { IfOk result (λ two. IsTwo (left.cells ++ right.cells) 1 two.first two.second) }
{
    let len = left.span() + right.span();
    let (node, mut pieces) = left.leafed(alloc)?;
    let (_, more) = right.leafed(alloc)?;
    leaf::append(&mut pieces, more)?;
    leaves(alloc, node, len, pieces, false)
}

/// One tree or two of two trees over others. Fails for want of memory alone.
fn join_forks<O: Origin>(alloc: Global, left: Tree<O>, right: Tree<O>) -> Result<Two<O>, AllocError>
    requires high { 1 < left.height }
    requires level { left.height ≡ right.height }
    requires fits { length left.cells + length right.cells < 2 ^ 63 }
    ensures { IfOk result
        (λ two. IsTwo (left.cells ++ right.cells) left.height two.first two.second) }
{
    let len = left.span() + right.span();
    let mut kids = left.forked(alloc)?;
    let mut more = right.forked(alloc)?;
    kids.trees.append(&mut more.trees)?;
    forks(alloc, kids.height, kids.node, len, kids.trees)
}

/// One tree or two of two trees of one height. Fails for want of memory alone.
fn join_level<O: Origin>(alloc: Global, left: Tree<O>, right: Tree<O>) -> Result<Two<O>, AllocError>
    requires some { 0 < left.height }
    requires level { left.height ≡ right.height }
    requires fits { length left.cells + length right.cells < 2 ^ 63 }
    ensures { IfOk result
        (λ two. IsTwo (left.cells ++ right.cells) left.height two.first two.second) }
{
    if !left.takes(&right) {
        return Ok(Two {
            first: left,
            second: right,
        });
    }
    if left.height() == 1 {
        return join_leaves(alloc, left, right);
    }
    join_forks(alloc, left, right)
}

/// One tree or two, as high as the higher one of the two that are joined. Fails for want of memory
/// alone.
pub(crate) fn join<O: Origin>(
    alloc: Global,
    left: Tree<O>,
    right: Tree<O>,
) -> Result<Two<O>, AllocError>
    requires some_left { 0 < left.height }
    requires some_right { 0 < right.height }
    requires fits { length left.cells + length right.cells < 2 ^ 63 }
    ensures { IfOk result (λ two. IsTwo (left.cells ++ right.cells) (max left.height right.height)
        two.first two.second) }
{
    let (low, high) = (left.height(), right.height());
    let len = left.span() + right.span();
    if low > high {
        let mut kids = left.forked(alloc)?;
        let last = kids.trees.len() - 1;
        let near = take_kid(&mut kids.trees, last);
        let two = join(alloc, near, right)?;
        return over_two(alloc, kids, last, two, len);
    }
    if low < high {
        let mut kids = right.forked(alloc)?;
        let near = take_kid(&mut kids.trees, 0);
        let two = join(alloc, left, near)?;
        return over_two(alloc, kids, 0, two, len);
    }
    join_level(alloc, left, right)
}

/// One tree of two. Fails for want of memory alone.
pub(crate) fn append<O: Origin>(
    alloc: Global,
    left: Tree<O>,
    right: Tree<O>,
) -> Result<Tree<O>, AllocError>
    requires fits { length left.cells + length right.cells < 2 ^ 63 }
    ensures { IfOk result (λ t. t.cells ≡ left.cells ++ right.cells) }
{
    if left.height() == 0 {
        return Ok(right);
    }
    if right.height() == 0 {
        return Ok(left);
    }
    let two = join(alloc, left, right)?;
    root(alloc, two)
}
