// Lists of parts: pieces, which a leaf has, and trees, which a tree has.
ghost use Rattle.std.specs.Prelude.{◌≡◌, ℕ, ◌+◌, ◌^◌, ◌<◌, ◌≤◌, Bool, IfOk, length};
ghost use Rattle.std.specs.List.{list_any, sum_by};
ghost use Rattle.extent_map.specs.Parts.{IsFound};

use std::alloc::{AllocError, Global};
use std::rc::Rc;

/// A part of the contents of a file.
pub(crate) trait Part: Drop {
    /// How many cells it has.
    ghost span: { Self → ℕ };

    /// Whether one of its cells is foreign.
    ghost foreign: { Self → Bool };

    /// How many cells it has.
    fn span(&self) -> u64
        ensures { result ≡ span self.now };

    /// Whether one of its cells is foreign.
    fn has_foreign(&self) -> bool
        ensures { result ≡ foreign self.now };

    /// The same part. Fails for want of memory alone.
    fn copy(&self) -> Result<Self, AllocError>
        ensures { IfOk result (λ copy. copy ≡ self.now) };
}

/// The number of the part that has a cell, and the number of its first cell.
pub(crate) fn find<T: Part>(parts: &[T], at: u64) -> (usize, u64)
    requires within { at < sum_by T.span parts.now }
    requires fits { sum_by T.span parts.now < 2 ^ 63 }
    ensures { IsFound T.span parts.now at result.0 result.1 }
{
    let mut index: usize = 0;
    let mut start: u64 = 0;
    for part in parts {
        let end = start + part.span();
        if at < end {
            return (index, start);
        }
        start = end;
        index += 1;
    }
    unreachable!()
}

/// How many cells some parts have.
pub(crate) fn total<T: Part>(parts: &[T]) -> u64
    requires { sum_by T.span parts.now < 2 ^ 63 }
    ensures { result ≡ sum_by T.span parts.now }
{
    let mut sum: u64 = 0;
    for part in parts {
        sum += part.span();
    }
    sum
}

/// Whether one of some parts has a foreign cell.
pub(crate) fn any_foreign<T: Part>(parts: &[T]) -> bool
    ensures { result ≡ list_any T.foreign parts.now }
{
    for part in parts {
        if part.has_foreign() {
            return true;
        }
    }
    false
}

/// The parts, each copied, with room for two more.
fn copied<T: Part>(alloc: Global, parts: &[T]) -> Result<Vec<T>, AllocError>
    ensures { IfOk result (λ v. v.items ≡ parts.now) }
{
    let mut copies = Vec::with_capacity(alloc, parts.len().saturating_add(2))?;
    for part in parts {
        copies.push(part.copy()?)?;
    }
    Ok(copies)
}

/// The parts that a node has, and a node to put others in. Parts that others share are copied.
pub(crate) fn taken<T: Part>(
    alloc: Global,
    mut node: Rc<Vec<T>>,
) -> Result<(Rc<Vec<T>>, Vec<T>), AllocError>
    ensures { IfOk result (λ taken. taken.1.items ≡ node.value.items) }
{
    if let Some(parts) = Rc::get_mut(&mut node) {
        let parts = std::mem::replace(parts, Vec::new(alloc));
        return Ok((node, parts));
    }
    let parts = copied(alloc, node.as_ref().as_slice())?;
    Ok((Rc::new(alloc, Vec::new(alloc))?, parts))
}

/// A node with some parts: the one that is given, where nothing shares it.
pub(crate) fn given<T: Part>(
    alloc: Global,
    mut node: Rc<Vec<T>>,
    parts: Vec<T>,
) -> Result<Rc<Vec<T>>, AllocError>
    ensures { IfOk result (λ rc. rc.value.items ≡ parts.items) }
{
    match Rc::get_mut(&mut node) {
        Some(held) => {
            *held = parts;
            Ok(node)
        }
        None => Ok(Rc::new(alloc, parts)?),
    }
}

/// A node with no parts.
pub(crate) fn fresh<T: Part>(alloc: Global) -> Result<Rc<Vec<T>>, AllocError> {
    Ok(Rc::new(alloc, Vec::new(alloc))?)
}
