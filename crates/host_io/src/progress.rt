// Inputs that say on a terminal how far a run is.
ghost use Rattle.std.specs.Prelude.{◌≡◌, ◌≤◌, ◌==◌, ◌&&◌, ◌||◌, not, false, true, length, bytes_eq, string_bytes, IfOk, OnOk, OnErr};
ghost use Rattle.sx_base.specs.Again.{LiesIn, FillsFrom, EndsKept, LostFor, MeetsEnd};
ghost use Rattle.sx_base.specs.Asks.{Adds, ask, ask_again, came};
ghost use Rattle.sx_base.specs.Causes.{HasCause, Steady, counts};
ghost use Rattle.sx_base.specs.Outside.{GivesAt};
ghost use Rattle.host_io.specs.Showing.{next_pass, next_done, next_ended};

use crate::line::HowFar;
use crate::screen::Screen;
use std::alloc::Global;
use std::cell::RefCell;
use std::rt::Clock;
use sx_base::{Failed, Inputs, Lost, Sink};

/// How much was read: the number of the pass, the bytes read in it, and whether a file has ended in
/// it.
#[derive(Debug, Clone, Copy)]
pub struct Tally {
    pass: u64,
    done: u64,
    ended: bool,
}

impl Tally {
    /// Before the first read, in the first pass.
    pub fn new() -> Tally
        ensures pass { result.pass ≡ 1 }
        ensures done { result.done ≡ 0 }
        ensures ended { result.ended ≡ false }
    {
        Tally {
            pass: 1,
            done: 0,
            ended: false,
        }
    }

    /// Counts a read, which may have begun at place 0 of the first file, and may have met the end
    /// of its file. The first begins the next pass where a file has ended in this one. Numbers end
    /// at the greatest u64.
    pub fn count(&mut self, at_start: bool, at_end: bool, count: usize)
        ensures pass { self.new.pass ≡ next_pass at_start self.old.ended self.old.pass }
        ensures done { self.new.done ≡ next_done at_start self.old.ended count self.old.done }
        ensures ended { self.new.ended ≡ next_ended at_start at_end self.old.ended }
    {
        if at_start && self.ended {
            self.pass = self.pass.saturating_add(1);
            self.done = 0;
        }
        self.done = self.done.saturating_add(count as u64);
        self.ended = at_end || (self.ended && !at_start);
    }
}

/// Inputs that say on a terminal how far a run is, once it goes on for more than two seconds. What
/// is read is what the inner inputs give, and the counts of faults and of ends, the last end and
/// what was asked are theirs; faults of the clock and of the terminal, and want of memory for a
/// line, only leave lines out.
///
/// A pass is counted by what `read_at` gives. What `read_again` gives was counted before.
#[derive(Debug, Drop)]
pub struct Progress<'a, I, C, S> {
    inputs: I,
    clock: &'a C,
    screen: &'a RefCell<Screen<S>>,
    alloc: Global,
    // The name of the file that each pass reads first.
    first: String,
    // The bytes of all files, if they are known.
    all: Option<u64>,
    tally: Tally,
}

impl<'a, I: Inputs, C: Clock, S: Sink> Progress<'a, I, C, S> {
    /// The inputs that are shown.
    pub fn inputs(&self) -> &I {
        &self.inputs
    }

    /// Of the inputs nothing was read yet. `first` is the file that each pass reads first, and
    /// `all` the bytes of all files.
    pub fn new(
        inputs: I,
        clock: &'a C,
        screen: &'a RefCell<Screen<S>>,
        alloc: Global,
        first: String,
        all: Option<u64>,
    ) -> Progress<'a, I, C, S>
        ensures inputs { result.inputs ≡ inputs }
        ensures first { result.first ≡ first }
        ensures all { result.all ≡ all }
        ensures pass { result.tally.pass ≡ 1 }
        ensures done { result.tally.done ≡ 0 }
        ensures ended { result.tally.ended ≡ false }
    {
        Progress {
            inputs,
            clock,
            screen,
            alloc,
            first,
            all,
            tally: Tally::new(),
        }
    }

    // Says how far the run is, if it is time to.
    fn look(&mut self, name: &str)
        ensures inputs { self.new.inputs ≡ self.old.inputs }
        ensures first { self.new.first ≡ self.old.first }
        ensures all { self.new.all ≡ self.old.all }
        ensures tally { self.new.tally ≡ self.old.tally }
    {
        let Some(now) = millis_of(self.clock) else {
            return;
        };
        let Ok(mut screen) = self.screen.try_borrow_mut() else {
            return;
        };
        let how_far = HowFar {
            name,
            pass: self.tally.pass,
            done: self.tally.done,
            all: self.all,
        };
        let _ = screen.say(self.alloc, now, &how_far);
    }
}

/// The time of a clock in milliseconds, if it tells it.
pub fn millis_of<C: Clock>(clock: &C) -> Option<u64> {
    let time = clock.monotonic().ok()?;
    u64::try_from(time.as_millis()).ok()
}

impl<'a, I: Inputs, C: Clock, S: Sink> Inputs for Progress<'a, I, C, S> {
    ghost told = { λ s. I.told s.inputs };

    ghost faults = { λ s. I.faults s.inputs };

    ghost ends = { λ s. I.ends s.inputs };

    ghost last_end = { λ s. I.last_end s.inputs };

    ghost asked = { λ s. I.asked s.inputs };

    fn read_at(&mut self, name: &str, at: u64, buf: &mut [u8]) -> Result<usize, Failed>
        ensures same { I.told self.new.inputs ≡ I.told self.old.inputs }
        ensures bound { IfOk result (λ count. count ≤ length buf.new) }
        ensures bytes { IfOk result
            (λ count. GivesAt (I.told self.old.inputs) name.now at buf.new count) }
        ensures asked { Adds (I.asked self.old.inputs) (I.asked self.new.inputs)
            (ask name.now at (came result)) }
        ensures ends { EndsKept (I.told self.old.inputs)
            (I.ends self.old.inputs) (I.ends self.new.inputs) }
        ensures cause { HasCause (I.faults self.old.inputs) (I.faults self.new.inputs) result }
        ensures steady { Steady (I.faults self.old.inputs) (I.faults self.new.inputs) result }
        ensures ends_steady { Steady (I.ends self.old.inputs) (I.ends self.new.inputs) result }
        ensures pass { IfOk result
            (λ count. self.new.tally.pass ≡ next_pass
            (at == 0 && bytes_eq name.now (string_bytes self.old.first)) self.old.tally.ended
            self.old.tally.pass) }
        ensures done { IfOk result
            (λ count. self.new.tally.done ≡ next_done
            (at == 0 && bytes_eq name.now (string_bytes self.old.first)) self.old.tally.ended count
            self.old.tally.done) }
        ensures ended { IfOk result
            (λ count. self.new.tally.ended ≡ next_ended
            (at == 0 && bytes_eq name.now (string_bytes self.old.first))
            (count == 0 && not (length buf.new == 0)) self.old.tally.ended) }
        ensures kept { OnErr result (self.new.tally ≡ self.old.tally) }
        ensures first { self.new.first ≡ self.old.first }
        ensures all { self.new.all ≡ self.old.all }
    {
        let count = self.inputs.read_at(name, at, buf)?;
        let at_start = at == 0 && name == self.first.as_str();
        let at_end = count == 0 && !buf.is_empty();
        self.tally.count(at_start, at_end, count);
        self.look(name);
        Ok(count)
    }

    fn read_again(&mut self, name: &str, at: u64, buf: &mut [u8]) -> Result<(), Lost>
        requires range { LiesIn (I.told self.old.inputs) name.now at (length buf.old) }
        ensures same { I.told self.new.inputs ≡ I.told self.old.inputs }
        ensures bytes { OnOk result (FillsFrom (I.told self.old.inputs) name.now at buf.new) }
        ensures asked { Adds (I.asked self.old.inputs) (I.asked self.new.inputs)
            (ask_again name.now at (length buf.old)) }
        ensures later { I.faults self.old.inputs ≤ I.faults self.new.inputs }
        ensures ends { EndsKept (I.told self.old.inputs)
            (I.ends self.old.inputs) (I.ends self.new.inputs) }
        ensures cause { LostFor (I.told self.old.inputs) at (length buf.new)
            (counts (I.ends self.old.inputs) (I.faults self.old.inputs) 0)
            (counts (I.ends self.new.inputs) (I.faults self.new.inputs) 0) result }
        ensures met { MeetsEnd name.now (I.last_end self.new.inputs) result }
        ensures steady { Steady (I.faults self.old.inputs) (I.faults self.new.inputs) result }
        ensures ends_steady { Steady (I.ends self.old.inputs) (I.ends self.new.inputs) result }
        ensures tally { self.new.tally ≡ self.old.tally }
        ensures first { self.new.first ≡ self.old.first }
        ensures all { self.new.all ≡ self.old.all }
    {
        let answer = self.inputs.read_again(name, at, buf);
        self.look(name);
        answer
    }
}
