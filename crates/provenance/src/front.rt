// The cells in front of a range that come from successive places.
ghost use Rattle.std.specs.Prelude.{◌≡◌, ◌+◌, ◌-◌, ◌<◌, ◌≤◌, IsTrue, IsFalse, length, map};
ghost use Rattle.extent_map.specs.Cells.{cells_between};
ghost use Rattle.provenance.specs.Traces.{place_in};
ghost use Rattle.provenance.specs.Cuts.{later, Follows, Stops};
ghost use Rattle.provenance.specs.Plans.{spot_in};

use crate::trace::Trace;
use extent_map::Extents;
use subvol_catalog::Key;

/// A place in a file of a complete subvolume.
#[derive(Clone, Copy)]
pub(crate) struct Spot {
    pub(crate) key: Key,
    pub(crate) ino: u64,
    pub(crate) at: u64,
}

/// So many cells that come from successive places, the first of them from `spot`, or so many that
/// come from no such place.
#[derive(Clone, Copy)]
pub(crate) struct Front {
    pub(crate) spot: Option<Spot>,
    pub(crate) len: u64,
}

/// The cells in front of those from `at` up to `end`, as many as there are of one kind. Those that
/// come from no place are passed at once, whatever runs they are.
pub(crate) fn front_at(contents: &Extents<Trace>, at: u64, end: u64) -> Front
    requires order { at < end }
    requires within { end ≤ length contents.now }
    ensures some { 0 < result.len }
    ensures within { at + result.len ≤ end }
    ensures follows { Follows (spot_in result.spot) result.len
        (map place_in (cells_between at (end - at) contents.now)) }
    ensures stops { Stops (spot_in result.spot) result.len
        (map place_in (cells_between at (end - at) contents.now)) }
{
    let mut rest = contents.pieces(at, end - at);
    let Some((origin, len)) = rest.next() else {
        unreachable!()
    };
    let first = spot_of(origin);
    if first.is_none() {
        return Front {
            spot: None,
            len: contents.next_foreign(at).min(end) - at,
        };
    }
    let mut have = len;
    for (more, more_len) in rest {
        let next = spot_of(more);
        if !goes_on(&first, have, &next) {
            return Front {
                spot: first,
                len: have,
            };
        }
        have += more_len;
    }
    Front {
        spot: first,
        len: have,
    }
}

// The place of a cell.
fn spot_of(origin: Option<Trace>) -> Option<Spot>
    ensures { spot_in result ≡ place_in origin }
{
    match origin {
        None | Some(Trace::Fresh { .. }) => None,
        Some(Trace::Outside { key, ino, at }) => Some(Spot { key, ino, at }),
    }
}

// Whether a cell that stands `len` cells after another comes from the place that is so many places
// further on.
fn goes_on(first: &Option<Spot>, len: u64, next: &Option<Spot>) -> bool
    ensures yes { IsTrue result → spot_in next.now ≡ later (spot_in first.now) len }
    ensures no { IsFalse result → spot_in next.now ≡ later (spot_in first.now) len → ⊥ }
{
    match (first, next) {
        (None, None) => true,
        (Some(first), Some(next)) => {
            first.key == next.key
                && first.ino == next.ino
                && first.at <= next.at
                && next.at - first.at == len
        }
        (None, Some(_)) | (Some(_), None) => false,
    }
}
