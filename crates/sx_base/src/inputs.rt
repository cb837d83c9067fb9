// The files that a run reads.
ghost use Rattle.std.specs.Prelude.{◌≡◌, ℕ, ◌≤◌, List, length, IfOk, OnOk, Option};
ghost use Rattle.sx_base.specs.Asks.{Ask, Adds, ask, ask_again, came};
ghost use Rattle.sx_base.specs.Again.{LiesIn, FillsFrom, EndsKept, LostFor, EarlyEnd, MeetsEnd};
ghost use Rattle.sx_base.specs.Causes.{HasCause, Steady, counts};
ghost use Rattle.sx_base.specs.Outside.{GivesAt};

use crate::failed::Failed;
use crate::lost::Lost;

/// Named files that a run reads. Where they tell their bytes, these are a finite map from names to
/// bytes that no call changes; a name that is not there is an empty file. They count their faults,
/// and how often a file ended before bytes that it had been said to have; and they keep the last
/// such end. What was asked of them so far is a list of calls.
pub trait Inputs {
    ghost told: { Self → Option (List (List ℕ × List ℕ)) };

    ghost faults: { Self → ℕ };

    ghost ends: { Self → ℕ };

    /// The end that `read_again` answered last. Of other calls nothing is said of it.
    ghost last_end: { Self → EarlyEnd };

    /// What may have been asked so far: which files, from which places on, in the order of the
    /// calls.
    ghost asked: { Self → List Ask → Type 0 };

    /// Gives at most as many bytes as the buffer has, of the named file from the place `at` on;
    /// none only where the buffer is empty or the file ends. `Failed` comes only where the count of
    /// faults rose.
    fn read_at(&mut self, name: &str, at: u64, buf: &mut [u8]) -> Result<usize, Failed>
        ensures same { told self.new ≡ told self.old }
        ensures bound { IfOk result (λ count. count ≤ length buf.new) }
        ensures bytes { IfOk result (λ count. GivesAt (told self.old) name.now at buf.new count) }
        ensures asked { Adds (asked self.old) (asked self.new) (ask name.now at (came result)) }
        ensures ends { EndsKept (told self.old) (ends self.old) (ends self.new) }
        ensures cause { HasCause (faults self.old) (faults self.new) result }
        ensures steady { Steady (faults self.old) (faults self.new) result }
        ensures ends_steady { Steady (ends self.old) (ends self.new) result };

    /// Fills the buffer with the bytes of the named file from the place `at` on, which were read
    /// before: where the files are told, the range lies in the file. `Failed` comes only where the
    /// count of faults rose, and `Ended` only where that of ends rose, with a place in the range;
    /// this name and place are then the last end.
    fn read_again(&mut self, name: &str, at: u64, buf: &mut [u8]) -> Result<(), Lost>
        requires range { LiesIn (told self.old) name.now at (length buf.old) }
        ensures same { told self.new ≡ told self.old }
        ensures bytes { OnOk result (FillsFrom (told self.old) name.now at buf.new) }
        ensures asked { Adds (asked self.old) (asked self.new)
            (ask_again name.now at (length buf.old)) }
        ensures later { faults self.old ≤ faults self.new }
        ensures ends { EndsKept (told self.old) (ends self.old) (ends self.new) }
        ensures cause { LostFor (told self.old) at (length buf.new)
            (counts (ends self.old) (faults self.old) 0)
            (counts (ends self.new) (faults self.new) 0)
            result }
        ensures met { MeetsEnd name.now (last_end self.new) result }
        ensures steady { Steady (faults self.old) (faults self.new) result }
        ensures ends_steady { Steady (ends self.old) (ends self.new) result };
}
