// One line on a terminal.
ghost use Rattle.std.specs.Prelude.{◌≡◌, ◌⊎◌, ◌<◌, ◌≤◌, ◌+◌, ◌-◌, ◌^◌, min, true, false, OnOk, OnErr};
ghost use Rattle.std.specs.Io.KnownBytes.{Appends};
ghost use Rattle.sx_base.specs.Causes.{HasCause, Rose};
ghost use Rattle.sx_base.specs.Outside.{AppendsPart};
ghost use Rattle.host_io.specs.Showing.{line_of, Shows, taken_back};

use crate::line::{HowFar, line_of};
use std::alloc::{AllocError, Global};
use std::cell::RefCell;
use sx_base::{Failed, Sink, write_whole};

// So many milliseconds a run goes on before it says anything.
const BEFORE: u64 = 2000;
// So many milliseconds stand between a line and the next one.
const BETWEEN: u64 = 200;

/// A line on a terminal that is written over again, and taken back at the end. Times are
/// milliseconds of one clock.
#[derive(Debug, Drop)]
pub struct Screen<S> {
    sink: S,
    // From this time on the next line may be written.
    next: u64,
    // Whether something of a line may stand there.
    shown: bool,
}

impl<S: Sink> Screen<S> {
    /// A terminal that shows nothing, and will show nothing for the first two seconds from `began`
    /// on.
    pub fn new(sink: S, began: u64) -> Screen<S>
        ensures sink { result.sink ≡ sink }
        ensures next { result.next ≡ min (began + 2000) (2 ^ 64 - 1) }
        ensures shown { result.shown ≡ false }
    {
        Screen {
            sink,
            next: began.saturating_add(BEFORE),
            shown: false,
        }
    }

    /// Says how far a run is: the terminal takes its line for this, or a part of it where the
    /// sink's count of faults rose; the next one may come a fifth of a second later. Nothing where
    /// it is too early, or with an error that there is no memory.
    pub fn say(&mut self, alloc: Global, now: u64, how_far: &HowFar<'_>) -> Result<(), AllocError>
        ensures early { now < self.old.next → self.new ≡ self.old }
        ensures says { Shows (S.taken self.old.sink) (S.taken self.new.sink)
            (line_of how_far.now.name.now how_far.now.pass how_far.now.done how_far.now.all) }
        ensures whole { self.old.next ≤ now
            → OnOk result
            (Appends (S.taken self.old.sink) (S.taken self.new.sink)
            (line_of how_far.now.name.now how_far.now.pass how_far.now.done how_far.now.all)
            ⊎ Rose (S.faults self.old.sink) (S.faults self.new.sink)) }
        ensures shown { self.old.next ≤ now → OnOk result (self.new.shown ≡ true) }
        ensures next { self.old.next ≤ now
            → OnOk result (self.new.next ≡ min (now + 200) (2 ^ 64 - 1)) }
        ensures kept { OnErr result (self.new ≡ self.old) }
        ensures later { S.faults self.old.sink ≤ S.faults self.new.sink }
    {
        if now < self.next {
            return Ok(());
        }
        let line = line_of(alloc, how_far)?;
        if let Err(Failed) = self.show(now, line.as_slice()) {
            return Ok(());
        }
        Ok(())
    }

    /// Writes the line, or nothing where it is too early; the next one may come a fifth of a second
    /// later. `Failed` comes only where the sink's count of faults rose; it then took a proper
    /// prefix of the line.
    pub fn show(&mut self, now: u64, line: &[u8]) -> Result<(), Failed>
        ensures early { now < self.old.next → self.new ≡ self.old }
        ensures next { self.old.next ≤ now → self.new.next ≡ min (now + 200) (2 ^ 64 - 1) }
        ensures shown { self.old.next ≤ now → self.new.shown ≡ true }
        ensures whole { self.old.next ≤ now
            → OnOk result (Appends (S.taken self.old.sink) (S.taken self.new.sink) line.now) }
        ensures part { OnErr result
            (AppendsPart (S.taken self.old.sink) (S.taken self.new.sink) line.now) }
        ensures cause { HasCause (S.faults self.old.sink) (S.faults self.new.sink) result }
    {
        if now < self.next {
            return Ok(());
        }
        self.next = now.saturating_add(BETWEEN);
        self.shown = true;
        write_whole(&mut self.sink, line)
    }

    /// Takes the line back, where one may stand there, and lets none come after it. `Failed` comes
    /// only where the sink's count of faults rose; it then took a proper prefix of what takes the
    /// line back.
    pub fn end(&mut self) -> Result<(), Failed>
        ensures gone { self.new.shown ≡ false }
        ensures over { self.new.next ≡ 2 ^ 64 - 1 }
        ensures nothing { self.old.shown ≡ false → self.new.sink ≡ self.old.sink }
        ensures whole { self.old.shown ≡ true
            → OnOk result (Appends (S.taken self.old.sink) (S.taken self.new.sink) taken_back) }
        ensures part { OnErr result
            (AppendsPart (S.taken self.old.sink) (S.taken self.new.sink) taken_back) }
        ensures cause { HasCause (S.faults self.old.sink) (S.faults self.new.sink) result }
    {
        self.next = u64::MAX;
        if !self.shown {
            return Ok(());
        }
        self.shown = false;
        write_whole(&mut self.sink, b"\r\x1b[K")
    }

    /// The sink.
    pub fn sink(&self) -> &S
        ensures { result.now ≡ self.now.sink }
    {
        &self.sink
    }
}

/// A sink that has the line of a terminal taken back before it takes bytes, after which none comes
/// any more. What it takes and its faults are those of the inner sink.
#[derive(Debug, Drop)]
pub struct AfterLine<'a, O, S> {
    inner: O,
    screen: &'a RefCell<Screen<S>>,
}

impl<'a, O: Sink, S: Sink> AfterLine<'a, O, S> {
    /// The inner sink, behind the line of this terminal.
    pub fn new(inner: O, screen: &'a RefCell<Screen<S>>) -> AfterLine<'a, O, S>
        ensures { result.inner ≡ inner }
    {
        AfterLine { inner, screen }
    }
}

impl<'a, O: Sink, S: Sink> Sink for AfterLine<'a, O, S> {
    ghost taken = { λ s. O.taken s.inner };

    ghost faults = { λ s. O.faults s.inner };

    fn write(&mut self, piece: &[u8]) -> Result<usize, Failed> {
        end_line(self.screen);
        self.inner.write(piece)
    }
}

/// Takes the line of a terminal back, and lets none come after it. Faults of the terminal are
/// passed over.
pub fn end_line<S: Sink>(screen: &RefCell<Screen<S>>) {
    if let Ok(mut screen) = screen.try_borrow_mut() {
        let _ = screen.end();
    }
}
