// What FALLOCATE does to the contents of a file.
ghost use Rattle.std.specs.Prelude.{◌≡◌, ◌+◌, ◌^◌, ◌<◌, None, OnOk};
ghost use Rattle.std.specs.Option.{option_map};
ghost use Rattle.send_model.specs.Edit as edit;
ghost use Rattle.subvol.specs.Allocations.{meant_by};

use extent_map::{Extents, Origin};
use std::alloc::AllocError;

// What FALLOCATE does, by its mode. Source: fallocate(2).
#[derive(Clone, Copy)]
pub(crate) enum Allocation {
    // Fills the file up to the end of the range.
    Lengthen,
    // Nothing: the file keeps its size.
    KeepSize,
    // Zero cells in the range, as far as the file goes.
    PunchHole,
    // Zero cells in the range, as a write of them.
    ZeroRange,
    // Zero cells in the range, as far as the file goes.
    ZeroWithin,
}

// What a mode says, if it is one of the five that are known.
pub(crate) fn allocation_of(mode: u32) -> Option<Allocation>
    ensures { option_map meant_by result ≡ edit.allocation_of mode }
{
    match mode {
        0 => Some(Allocation::Lengthen),
        1 => Some(Allocation::KeepSize),
        3 => Some(Allocation::PunchHole),
        16 => Some(Allocation::ZeroRange),
        17 => Some(Allocation::ZeroWithin),
        _ => None,
    }
}

// Does to contents what FALLOCATE does to a range of them. Fails for want of memory alone.
pub(crate) fn allocate<O: Origin>(
    contents: &mut Extents<O>,
    allocation: Allocation,
    at: u64,
    len: u64,
) -> Result<(), AllocError>
    requires { at + len < 2 ^ 63 }
    ensures { OnOk result
        (contents.new ≡ edit.fallocated None (meant_by allocation) at len contents.old) }
{
    if len == 0 {
        return Ok(());
    }
    match allocation {
        Allocation::Lengthen => lengthen(contents, at + len),
        Allocation::KeepSize => Ok(()),
        Allocation::PunchHole | Allocation::ZeroWithin => zero_within(contents, at, len),
        Allocation::ZeroRange => contents.zero_run(at, len),
    }
}

// Fills contents that are shorter up to a size.
fn lengthen<O: Origin>(contents: &mut Extents<O>, size: u64) -> Result<(), AllocError>
    requires { size < 2 ^ 63 }
    ensures { OnOk result (contents.new ≡ edit.filled None size contents.old) }
{
    if contents.size() < size {
        contents.cut_to(size)?;
    }
    Ok(())
}

// Puts zero cells in place of those of a range, as far as there are any.
fn zero_within<O: Origin>(contents: &mut Extents<O>, at: u64, len: u64) -> Result<(), AllocError>
    requires end { at + len < 2 ^ 63 }
    requires some { 0 < len }
    ensures { OnOk result (contents.new ≡ edit.zeroed None at len contents.old) }
{
    let size = contents.size();
    if at < size {
        contents.zero_run(at, len.min(size - at))?;
    }
    Ok(())
}
