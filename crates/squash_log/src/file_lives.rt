// Which places of one file live.
ghost use Rattle.std.specs.Prelude.{◌≡◌, ℕ, ◌+◌, ◌^◌, ◌<◌, ◌≤◌, ◌&&◌, not, length, nat_lt, IfOk, OnOk};
ghost use Rattle.squash_log.specs.Cells.{cell_lives, IsBelow, IsOutside, IsBeside, IsWithRange, IsPartOf, IsWithPart};

use extent_map::{Extents, Nowhere};
use std::alloc::{AllocError, Global};

/// All places below a size. Fails for want of memory alone.
pub(crate) fn all_below(alloc: Global, size: u64) -> Result<Extents<Nowhere>, AllocError>
    requires { size < 2 ^ 63 }
    ensures lives { IfOk result (λ cells. (p : ℕ) → cell_lives cells p ≡ nat_lt p size) }
    ensures count { IfOk result (λ cells. length cells ≡ size) }
{
    let mut cells = Extents::new(alloc);
    cells.put_run(0, Nowhere, size)?;
    Ok(cells)
}

/// Those places alone that are outside a range, and below a size. Fails for want of memory alone.
pub(crate) fn keep_beside(
    cells: &mut Extents<Nowhere>,
    at: u64,
    len: u64,
    size: u64,
) -> Result<(), AllocError>
    ensures { OnOk result (IsBeside at len size cells.old cells.new) }
{
    keep_outside(cells, at, len)?;
    keep_below(cells, size)?;
    Ok(())
}

/// Those places alone that are below a size. Fails for want of memory alone.
pub(crate) fn keep_below(cells: &mut Extents<Nowhere>, size: u64) -> Result<(), AllocError>
    ensures { OnOk result (IsBelow size cells.old cells.new) }
{
    if size >= cells.size() {
        return Ok(());
    }
    cells.cut_to(size)?;
    Ok(())
}

// Those places alone that are outside a range.
fn keep_outside(cells: &mut Extents<Nowhere>, at: u64, len: u64) -> Result<(), AllocError>
    ensures { OnOk result (IsOutside at len cells.old cells.new) }
{
    let size = cells.size();
    if at >= size {
        return Ok(());
    }
    cells.zero_run(at, len.min(size - at))?;
    Ok(())
}

/// Those places of a range that live, counted from its start. Fails for want of memory alone.
pub(crate) fn part_of(
    alloc: Global,
    cells: &Extents<Nowhere>,
    at: u64,
    len: u64,
) -> Result<Extents<Nowhere>, AllocError>
    ensures part { IfOk result (IsPartOf at len cells.now) }
    ensures within { IfOk result (λ part. length part ≤ len) }
{
    let mut part = Extents::new(alloc);
    let size = cells.size();
    if at >= size {
        return Ok(part);
    }
    part.copy_range(0, cells, at, len.min(size - at))?;
    Ok(part)
}

/// The places of a part too, which is put at a place. Fails for want of memory alone.
pub(crate) fn add_part(
    cells: &mut Extents<Nowhere>,
    from: u64,
    part: &Extents<Nowhere>,
) -> Result<(), AllocError>
    requires { from + length part.now < 2 ^ 63 }
    ensures { OnOk result (IsWithPart from part.now cells.old cells.new) }
{
    let mut have = 0;
    for (origin, len) in part.pieces(0, part.size()) {
        if origin.is_some() {
            cells.put_run(from + have, Nowhere, len)?;
        }
        have += len;
    }
    Ok(())
}
