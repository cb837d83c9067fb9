//! Worked examples.
ghost use Rattle.std.specs.Prelude.{◌≡◌, ◌+◌, ◌^◌, ◌<◌};

use crate::{Change, Ended, Fate, Fates, FileRange, Log, Span, fates_squash, find_fates};
use std::process::Abort;
use std::test::Fail;

// Files with a number below this one are there in the end.
#[derive(Drop)]
struct Below {
    end: u64,
}

impl Ended for Below {
    ghost use Rattle.std.specs.Prelude.{nat_lt};

    ghost there = { λ below ino. nat_lt ino below.end };

    fn is_there(&self, ino: u64) -> bool {
        ino < self.end
    }
}

// A range of the file 1.
fn range(at: u64, len: u64, size: u64) -> FileRange
    ensures { result ≡ record { ino = 1; at = at; len = len; size = size } }
{
    FileRange {
        ino: 1,
        at,
        len,
        size,
    }
}

// The next WRITE lives as a whole.
fn is_whole(rt: &impl Abort, fates: &mut Fates) {
    let whole = matches!(fates.first(), Some(Fate::Whole));
    assert!(rt; whole);
    fates.pass();
}

// Of the next WRITE these stretches live.
fn has_parts(rt: &impl Abort, fates: &mut Fates, wanted: &[Span], longer: bool) {
    match fates.first() {
        Some(Fate::Parts { spans, lengthens }) => {
            assert_eq!(rt; spans, wanted);
            assert_eq!(rt; lengthens, longer);
        }
        _ => assert!(rt; false),
    }
    fates.pass();
}

// No WRITE is left.
fn is_end(rt: &impl Abort, fates: &Fates) {
    let end = fates.first().is_none();
    assert!(rt; end);
}

#[test]
fn a_write_of_which_half_is_written_over(rt: HostRuntime) -> Result<(), Fail> {
    let mut log = Log::new(rt.alloc());
    log.push(Change::Wrote(range(0, 100, 0)))?;
    log.push(Change::Wrote(range(50, 100, 100)))?;
    let mut fates = find_fates(rt.alloc(), log, &Below { end: 9 })?;
    has_parts(&rt, &mut fates, &[Span { at: 0, len: 50 }], true);
    is_whole(&rt, &mut fates);
    is_end(&rt, &fates);
    Ok(())
}

#[test]
fn a_hole_in_the_middle(rt: HostRuntime) -> Result<(), Fail> {
    let mut log = Log::new(rt.alloc());
    log.push(Change::Wrote(range(10, 100, 0)))?;
    log.push(Change::Replaced(range(30, 20, 110)))?;
    let mut fates = find_fates(rt.alloc(), log, &Below { end: 9 })?;
    has_parts(
        &rt,
        &mut fates,
        &[Span { at: 0, len: 20 }, Span { at: 40, len: 60 }],
        false,
    );
    is_end(&rt, &fates);
    Ok(())
}

#[test]
fn a_file_that_is_gone_in_the_end(rt: HostRuntime) -> Result<(), Fail> {
    let mut log = Log::new(rt.alloc());
    log.push(Change::Wrote(range(0, 100, 0)))?;
    log.push(Change::Wrote(range(0, 0, 100)))?;
    let mut fates = find_fates(rt.alloc(), log, &Below { end: 1 })?;
    has_parts(&rt, &mut fates, &[], true);
    is_whole(&rt, &mut fates);
    is_end(&rt, &fates);
    Ok(())
}

#[test]
fn bytes_that_live_through_a_clone_alone(rt: HostRuntime) -> Result<(), Fail> {
    let mut log = Log::new(rt.alloc());
    let copy = FileRange {
        ino: 0,
        at: 4_096,
        len: 4_096,
        size: 0,
    };
    log.push(Change::Wrote(range(0, 10_000, 0)))?;
    log.push(Change::Cloned {
        to: copy,
        source: 1,
        from: 0,
    })?;
    log.push(Change::Resized {
        ino: 0,
        size: 8_192,
        new: 5_000,
    })?;
    let mut fates = find_fates(rt.alloc(), log, &Below { end: 1 })?;
    has_parts(&rt, &mut fates, &[Span { at: 0, len: 904 }], true);
    is_end(&rt, &fates);
    Ok(())
}

// 50 times twice as long is 2^62 bytes, of which the last 100 live.
#[test]
fn a_file_that_is_doubled_50_times(rt: HostRuntime) -> Result<(), Fail> {
    let mut log = Log::new(rt.alloc());
    log.push(Change::Wrote(range(0, 4_096, 0)))?;
    let mut size: u64 = 4_096;
    for _ in 0..50 {
        if size <= 1 << 61 {
            log.push(Change::Cloned {
                to: range(size, size, size),
                source: 1,
                from: 0,
            })?;
            size *= 2;
        }
    }
    assert_eq!(rt; size, 1 << 62);
    log.push(Change::Replaced(range(0, (1 << 62) - 100, 1 << 62)))?;
    let mut fates = find_fates(rt.alloc(), log, &Below { end: 9 })?;
    has_parts(
        &rt,
        &mut fates,
        &[Span {
            at: 3_996,
            len: 100,
        }],
        false,
    );
    is_end(&rt, &fates);
    Ok(())
}

// More changes than a block of the log has.
#[test]
fn a_log_of_several_blocks(rt: HostRuntime) -> Result<(), Fail> {
    let mut log = Log::new(rt.alloc());
    let mut size: u64 = 0;
    for _ in 0..3_000 {
        if size < 6_000 {
            log.push(Change::Wrote(range(size, 2, size)))?;
            size += 2;
        }
    }
    let mut fates = find_fates(rt.alloc(), log, &Below { end: 9 })?;
    for _ in 0..3_000 {
        is_whole(&rt, &mut fates);
    }
    is_end(&rt, &fates);
    fates_squash();
    Ok(())
}
