// One step over a range: a run of carried blocks, or cells that no block carries.
ghost use Rattle.std.specs.Prelude.{◌≡◌, ◌+◌, ◌*◌, ◌/◌, ◌<◌, ◌≤◌, min, length};
ghost use Rattle.provenance.specs.Cuts.{carried_len};
ghost use Rattle.provenance.specs.Plans.{spot_in, IsStep, PassesTo};

use crate::ends::Ends;
use crate::front::{Front, Spot, front_at};
use crate::trace::Trace;
use extent_map::Extents;

const BLOCK: u64 = 4_096;

/// What stands in front of a range.
#[derive(Drop)]
pub(crate) enum Step {
    /// All of a run of carried blocks.
    Carried { spot: Spot, len: u64 },
    /// Some of the cells that stand in no carried block.
    Passed { len: u64 },
}

/// What stands in front of the cells from `at` up to `end`.
pub(crate) fn step_at<E: Ends>(contents: &Extents<Trace>, at: u64, end: u64, ends: &E) -> Step
    requires order { at < end }
    requires within { end ≤ length contents.now }
    ensures { IsStep (E.ends ends.now) contents.now at end result }
{
    let Front { spot: first, len } = front_at(contents, at, end);
    let carried = carried_of(&first, len, end - at, ends);
    let passed = passed_of(len, end - at);
    let Some(spot) = first else {
        return Step::Passed { len: passed };
    };
    if carried == 0 {
        return Step::Passed { len: passed };
    }
    Step::Carried { spot, len: carried }
}

/// Where the cells in no carried block end, from `start` on.
pub(crate) fn literal_end<E: Ends>(contents: &Extents<Trace>, start: u64, end: u64, ends: &E) -> u64
    requires order { start ≤ end }
    requires within { end ≤ length contents.now }
    ensures from { start ≤ result }
    ensures to { result ≤ end }
    ensures cuts { PassesTo (E.ends ends.now) contents.now start result end }
{
    let mut at = start;
    while at < end {
        match step_at(contents, at, end, ends) {
            Step::Carried { .. } => return at,
            Step::Passed { len } => at += len,
        }
    }
    at
}

// How many of `len` cells from the successive places of `first` stand in carried blocks, where
// `left` cells are left of the range.
fn carried_of<E: Ends>(first: &Option<Spot>, len: u64, left: u64, ends: &E) -> u64
    ensures { result ≡ carried_len (E.ends ends.now) (spot_in first.now) len left }
{
    let Some(spot) = first else {
        return 0;
    };
    if spot.at % BLOCK != 0 || len < BLOCK && len < left {
        return 0;
    }
    let Some(end) = ends.end_of(spot.key, spot.ino) else {
        return 0;
    };
    if len == left && spot.at <= end && end - spot.at == len {
        return len;
    }
    len - len % BLOCK
}

// How many cells the blocks have that begin among the first `len` cells, where `left` cells are
// left of the range.
fn passed_of(len: u64, left: u64) -> u64
    requires { len ≤ left }
    ensures { result ≡ min ((len + 4_095) / 4_096 * 4_096) left }
{
    let past = len % BLOCK;
    if past == 0 {
        return len;
    }
    len + (BLOCK - past).min(left - len)
}
