// What no clause says: that a long run shows on a terminal how far it is, and what its lines look
// like.
ghost use Rattle.std.specs.Prelude.{⊤, None};
ghost use Rattle.sx_base.specs.Again.{no_end};

use crate::same::same;
use disk_model::MemDisk;
use host_io::{AfterLine, DiskProgress, HowFar, Progress, Screen, end_line, line_of};
use std::cell::{Cell, RefCell};
use std::io;
use std::rt::Clock;
use std::test::Fail;
use std::time::Duration;
use sx_base::{Disk, Failed, Inputs, Lost, MemSink, Sink};

// The length of each file.
const FILE: u64 = 2048;

// A clock that stands where the test puts it.
#[derive(Drop)]
struct HandClock {
    millis: Cell<u64>,
}

impl Clock for HandClock {
    fn monotonic(&self) -> io::Result<Duration> {
        Ok(Duration::from_millis(self.millis.get()))
    }

    fn since_1970(&self) -> io::Result<Duration> {
        self.monotonic()
    }
}

// Files of which nothing is told.
#[derive(Drop)]
struct Silent;

impl Inputs for Silent {
    ghost told = { λ _. None };

    ghost faults = { λ _. 0 };

    ghost ends = { λ _. 0 };

    ghost last_end = { λ _. no_end };

    ghost asked = { λ _ _. ⊤ };

    fn read_at(&mut self, _name: &str, at: u64, buf: &mut [u8]) -> Result<usize, Failed> {
        let left = FILE.saturating_sub(at) as usize;
        Ok(buf.len().min(left))
    }

    fn read_again(&mut self, _name: &str, _at: u64, _buf: &mut [u8]) -> Result<(), Lost> {
        Ok(())
    }
}

const SHOWN: &[(&str, u64, u64, Option<u64>, &[u8])] = &[
    (
        "full",
        2,
        1_288_490_189,
        Some(5_046_586_573),
        b"\rbtrsend: reading full, pass 2, 1.2 of 4.7 GiB\x1b[K",
    ),
    (
        "a\n",
        1,
        1023,
        None,
        b"\rbtrsend: reading a\\x0a, pass 1, 0.9 KiB\x1b[K",
    ),
    (
        "a",
        1,
        1 << 20,
        None,
        b"\rbtrsend: reading a, pass 1, 1.0 MiB\x1b[K",
    ),
    (
        "a",
        1,
        0,
        Some(3 << 39),
        b"\rbtrsend: reading a, pass 1, 0.0 of 1.5 TiB\x1b[K",
    ),
    (
        "0123456789012345678901234567890123456789",
        1,
        0,
        Some(0),
        b"\rbtrsend: reading ...345678901234567890123456789, pass 1, 0.0 of 0.0 KiB\x1b[K",
    ),
    (
        "0123456789012345678901234567890123456789",
        u64::MAX,
        0,
        Some(u64::MAX),
        b"\rbtrsend: reading ...345678901234567890123456789, pass 18446744073709551615, 0.0\x1b[K",
    ),
];

#[test]
fn a_line_says_how_far_a_run_is(rt: HostRuntime) -> Result<(), Fail> {
    for &(name, pass, done, all, want) in SHOWN {
        let how_far = HowFar {
            name,
            pass,
            done,
            all,
        };
        let line = line_of(rt.alloc(), &how_far)?;
        same(&rt, line.as_slice(), want);
    }
    Ok(())
}

const LONG_RUN: &[(u64, &str, u64, &[u8])] = &[
    (2099, "one", 0, b""),
    (
        2100,
        "one",
        1024,
        b"\rbtrsend: reading one, pass 1, 2.0 of 4.0 KiB\x1b[K",
    ),
    (2299, "one", 2048, b""),
    (
        2300,
        "two",
        0,
        b"\rbtrsend: reading two, pass 1, 3.0 of 4.0 KiB\x1b[K",
    ),
    (2400, "two", 1024, b""),
    (2400, "two", 2048, b""),
    (2400, "one", 0, b""),
    (
        9000,
        "one",
        1024,
        b"\rbtrsend: reading one, pass 2, 2.0 of 4.0 KiB\x1b[K",
    ),
    (9000, "one", 2048, b""),
];

#[test]
fn a_long_run_shows_how_far_it_is(rt: HostRuntime) -> Result<(), Fail> {
    let clock = HandClock {
        millis: Cell::new(100),
    };
    let screen = RefCell::new(Screen::new(MemSink::new(rt.alloc()), 100));
    let first = String::from_str(rt.alloc(), "one")?;
    let mut inputs = Progress::new(Silent, &clock, &screen, rt.alloc(), first, Some(2 * FILE));
    let mut buf = [0; 1024];
    let mut seen = 0;
    // When, of which file and from where on is read, and what the terminal then takes.
    for &(time, name, at, want) in LONG_RUN {
        clock.millis.set(time);
        inputs.read_at(name, at, &mut buf)?;
        seen = has_taken(&rt, &screen, seen, want)?;
    }
    clock.millis.set(9200);
    same(&rt, inputs.read_again("two", 0, &mut buf), Ok(()));
    let line = b"\rbtrsend: reading two, pass 2, 2.0 of 4.0 KiB\x1b[K";
    seen = has_taken(&rt, &screen, seen, line)?;
    let mut notes = AfterLine::new(MemSink::new(rt.alloc()), &screen);
    same(&rt, notes.write(b"note\n"), Ok(5));
    seen = has_taken(&rt, &screen, seen, b"\r\x1b[K")?;
    clock.millis.set(99_000);
    inputs.read_at("one", 0, &mut buf)?;
    end_line(&screen);
    has_taken(&rt, &screen, seen, b"")?;
    Ok(())
}

// The bytes that a terminal took behind those that were seen are these. Gives how many there are
// now.
fn has_taken<R: std::process::Abort>(
    rt: &R,
    screen: &RefCell<Screen<MemSink>>,
    seen: usize,
    want: &[u8],
) -> Result<usize, Fail> {
    let Ok(screen) = screen.try_borrow() else {
        same(rt, false, true);
        return Ok(seen);
    };
    let bytes = screen.sink().bytes();
    same(rt, bytes.get(seen..), Some(want));
    Ok(bytes.len())
}

const LONG_OPENING: &[(u64, u64, &[u8])] = &[
    (2099, 0, b""),
    (
        2100,
        512,
        b"\rbtrsend: reading st, pass 1, 1.5 of 2.0 KiB\x1b[K",
    ),
    (2299, 1024, b""),
    (
        2300,
        2048,
        b"\rbtrsend: reading st, pass 1, 2.0 of 2.0 KiB\x1b[K",
    ),
];

#[test]
fn a_long_opening_shows_how_far_it_is(rt: HostRuntime) -> Result<(), Fail> {
    let clock = HandClock {
        millis: Cell::new(100),
    };
    let screen = RefCell::new(Screen::new(MemSink::new(rt.alloc()), 100));
    let name = String::from_str(rt.alloc(), "st")?;
    let bytes = [7; 2048];
    let disk = MemDisk::new(rt.alloc(), &bytes)?;
    let mut disk = DiskProgress::new(disk, &clock, &screen, rt.alloc(), name, Some(2048));
    let mut buf = [0; 1024];
    let mut seen = 0;
    // When and from where on is read, and what the terminal then takes.
    for &(time, at, want) in LONG_OPENING {
        clock.millis.set(time);
        disk.read(at, &mut buf)?;
        seen = has_taken(&rt, &screen, seen, want)?;
    }
    Ok(())
}
