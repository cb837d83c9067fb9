// The pieces of a range, one after the other.
ghost use Rattle.std.specs.Prelude.{◌≡◌, ◌+◌, ◌≤◌, length, map};
ghost use Rattle.std.specs.Iterator.{at_most};
ghost use Rattle.std.specs.List.{AllByRecursion};
ghost use Rattle.extent_map.specs.Cells.{cells_between};
ghost use Rattle.provenance.specs.Traces.{place_in};
ghost use Rattle.provenance.specs.Cuts.{cuts_of, LiesIn, IsCutAsMeant};
ghost use Rattle.provenance.specs.Plans.{TakesPlan};

use crate::ends::Ends;
use crate::plan::Plan;
use crate::step::{Step, literal_end, step_at};
use crate::trace::Trace;
use extent_map::Extents;
use std::marker::Model;

/// What is left of a range, seen as what it is cut into: the maximal runs of carried blocks, and
/// the maximal stretches of other bytes between them, in order. A call of `next` goes by the runs
/// and holes of the contents, and not by blocks. It takes no memory.
#[derive(Debug, Drop)]
pub struct PlanIter<'a, E: Ends> {
    contents: &'a Extents<Trace>,
    at: u64,
    end: u64,
    ends: &'a E,
}

impl<'a, E: Ends> Model for PlanIter<'a, E> {
    ghost use Rattle.std.specs.Prelude.{List, length, ◌≤◌};
    ghost use Rattle.provenance.specs.Cuts.{Cut, cuts_between};
    ghost use Rattle.provenance.specs.Plans.{IsRange};

    ghost Value = { List Cut };

    ghost view = { λ p. cuts_between (E.ends p.ends.now) p.contents.now p.at p.end };

    ghost invariant = { λ p. IsRange p.contents.now p.at p.end };
}

/// What a range of the contents is cut into: blocks of 4,096 cells from its start on, the last of
/// which may be short, are carried by a file or are not. `ends` has the sizes of the outside files.
pub fn cut_blocks<'a, E: Ends>(
    contents: &'a Extents<Trace>,
    from: u64,
    len: u64,
    ends: &'a E,
) -> PlanIter<'a, E>
    requires { from + len ≤ length contents.now }
    ensures cuts { result ≡ cuts_of (E.ends ends.now) from
        (map place_in (cells_between from len contents.now)) }
    ensures within { AllByRecursion (LiesIn from (from + len)) result }
    ensures pieces { IsCutAsMeant (E.ends ends.now) from (cells_between from len contents.now)
        result }
{
    let size = contents.size();
    PlanIter {
        contents,
        at: from,
        end: size.min(from + len),
        ends,
    }
}

impl<'a, E: Ends> Iterator for PlanIter<'a, E> {
    type Item = Plan;

    ghost next_gives = { λ left given rest. TakesPlan left given rest };

    ghost remaining = { λ left. at_most (length left) };

    fn next(&mut self) -> Option<Plan> {
        if self.at >= self.end {
            return None;
        }
        let from = self.at;
        match step_at(self.contents, from, self.end, self.ends) {
            Step::Carried { spot, len } => {
                self.at = from + len;
                Some(Plan::Carry {
                    key: spot.key,
                    ino: spot.ino,
                    from: spot.at,
                    len,
                })
            }
            Step::Passed { len } => {
                self.at = literal_end(self.contents, from + len, self.end, self.ends);
                Some(Plan::Literal {
                    from,
                    len: self.at - from,
                })
            }
        }
    }
}
