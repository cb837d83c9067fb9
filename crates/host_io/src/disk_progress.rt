// A disk that says on a terminal how far it is read.
ghost use Rattle.std.specs.Prelude.{◌≡◌};

use crate::line::HowFar;
use crate::progress::millis_of;
use crate::screen::Screen;
use std::alloc::Global;
use std::cell::RefCell;
use std::rt::Clock;
use sx_base::{Disk, Failed, Sink};

/// A disk that says on a terminal how far it is read, once a run goes on for more than two seconds:
/// up to which of its places, of how many. All that it does is what the inner disk does; faults of
/// the clock and of the terminal, and want of memory for a line, only leave lines out.
#[derive(Debug, Drop)]
pub struct DiskProgress<'a, D, C, S> {
    disk: D,
    clock: &'a C,
    screen: &'a RefCell<Screen<S>>,
    alloc: Global,
    // The name of the disk's file.
    name: String,
    // How many bytes it has, if this is known.
    all: Option<u64>,
}

impl<'a, D: Disk, C: Clock, S: Sink> DiskProgress<'a, D, C, S> {
    /// The disk in the file of a name, with all its bytes, if they are known.
    pub fn new(
        disk: D,
        clock: &'a C,
        screen: &'a RefCell<Screen<S>>,
        alloc: Global,
        name: String,
        all: Option<u64>,
    ) -> DiskProgress<'a, D, C, S>
        ensures disk { result.disk ≡ disk }
        ensures name { result.name ≡ name }
        ensures all { result.all ≡ all }
    {
        DiskProgress {
            disk,
            clock,
            screen,
            alloc,
            name,
            all,
        }
    }

    // Says up to where the disk is read, if it is time to.
    fn look(&self, done: u64) {
        let Some(now) = millis_of(self.clock) else {
            return;
        };
        let Ok(mut screen) = self.screen.try_borrow_mut() else {
            return;
        };
        let how_far = HowFar {
            name: self.name.as_str(),
            pass: 1,
            done,
            all: self.all,
        };
        let _ = screen.say(self.alloc, now, &how_far);
    }
}

impl<'a, D: Disk, C: Clock, S: Sink> Disk for DiskProgress<'a, D, C, S> {
    ghost tells = { D.tells };

    ghost seen = { λ s. D.seen s.disk };

    ghost pending = { λ s. D.pending s.disk };

    ghost len = { λ s. D.len s.disk };

    ghost moment = { λ s. D.moment s.disk };

    ghost left_since = { λ s. D.left_since s.disk };

    ghost faults = { λ s. D.faults s.disk };

    ghost sized = { λ s tells. D.sized s.disk tells };

    ghost seen_is_image = { λ s tells. D.seen_is_image s.disk tells };

    ghost counts_now = { λ s t image tells le now. D.counts_now s.disk t image tells le now };

    ghost only_now = { λ s image tells left. D.only_now s.disk image tells left };

    fn size(&mut self) -> Result<u64, Failed> {
        self.disk.size()
    }

    fn read(&mut self, at: u64, buf: &mut [u8]) -> Result<usize, Failed> {
        let count = self.disk.read(at, buf)?;
        self.look(at.saturating_add(count as u64));
        Ok(count)
    }

    fn write_at(&mut self, at: u64, piece: &[u8]) -> Result<(), Failed> {
        self.disk.write_at(at, piece)
    }

    fn cut(&mut self, size: u64) -> Result<(), Failed> {
        self.disk.cut(size)
    }

    fn sync(&mut self) -> Result<(), Failed> {
        self.disk.sync()
    }
}
