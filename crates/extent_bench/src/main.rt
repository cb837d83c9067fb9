//! Measures `Extents`: as many calls of each kind as the first word says, on a file of at least so
//! many runs. What is printed is the same on each machine; with a second word `time`, nanoseconds
//! for a call go to standard error.
#![tactic(auto)]

mod block;
mod load;

use block::Byte;
use extent_map::Extents;
use load::{Draw, change_copies, clone_parts, double, fill, overwrite, read};
use std::alloc::Global;
use std::rt::Runtime;
use std::time::Instant;
use std::{env, io};

/// The words that were given.
#[derive(Drop)]
struct Words {
    /// How many calls of each kind, above 0.
    count: u32,
    timed: bool,
}

/// The first word as a number of calls, and whether the second is `time`.
fn read_words(rt: &impl Runtime) -> io::Result<Words> {
    let mut given = env::args(rt)?.skip(1);
    let count = match given.next() {
        Some(word) => word.as_str().parse::<u32>().unwrap_or(0),
        None => 0,
    };
    let timed = match given.next() {
        Some(word) => word.as_str() == "time",
        None => false,
    };
    Ok(Words {
        count: count.max(1),
        timed,
    })
}

/// Tells the time for a call, where it was asked.
fn tell(rt: &impl Runtime, words: &Words, what: &str, start: Instant) -> io::Result<()> {
    let nanos = start.elapsed(rt)?.as_nanos();
    if words.timed && words.count > 0 {
        eprintln!(rt; "{what}: {} ns", nanos / words.count as u128)?;
    }
    Ok(())
}

/// Writes and clones, into holes and over runs.
fn change(rt: &impl Runtime, words: &Words, file: &mut Extents<Byte>) -> io::Result<()> {
    let mut draw = Draw::new();
    let start = Instant::now(rt)?;
    fill(file, words.count)?;
    tell(rt, words, "a write into a hole", start)?;
    let filled = read(file);
    println!(rt;
        "filled: {} runs, {} holes, sum {}",
        filled.runs, filled.holes, filled.sum
    )?;
    let start = Instant::now(rt)?;
    overwrite(file, &mut draw, words.count)?;
    tell(rt, words, "a write over runs", start)?;
    let start = Instant::now(rt)?;
    clone_parts(file, &mut draw, words.count)?;
    tell(rt, words, "a clone of 16 KiB", start)
}

/// Copies the file and reads the copy, for each write that was made.
fn copy_and_read(rt: &impl Runtime, words: &Words, file: &Extents<Byte>) -> io::Result<()> {
    let start = Instant::now(rt)?;
    let copy = file.copy()?;
    tell(rt, words, "a copy of the file, for each write", start)?;
    let start = Instant::now(rt)?;
    let last = read(&copy);
    tell(rt, words, "reading all pieces, for each write", start)?;
    println!(rt;
        "in the end: {} runs, {} holes, sum {}",
        last.runs, last.holes, last.sum
    )
}

/// Changes copies of the file, which stays as it was.
fn copy_and_change(
    rt: &impl Runtime,
    alloc: Global,
    words: &Words,
    file: &Extents<Byte>,
) -> io::Result<()> {
    let mut draw = Draw::new();
    let start = Instant::now(rt)?;
    let copies = change_copies(alloc, file, &mut draw, 100, 100)?;
    tell(
        rt,
        words,
        "100 copies with 100 writes each, for each write into a hole",
        start,
    )?;
    for copy in [copies.first(), copies.last()] {
        if let Some(copy) = copy {
            let found = read(copy);
            println!(rt;
                "a copy: {} runs, {} holes, sum {}",
                found.runs, found.holes, found.sum
            )?;
        }
    }
    Ok(())
}

/// Clones a file onto its own end again and again.
fn clone_onto_end(rt: &impl Runtime, alloc: Global, words: &Words) -> io::Result<()> {
    let start = Instant::now(rt)?;
    let doubled = double(alloc, 60)?;
    tell(
        rt,
        words,
        "60 clones onto the end of a file, for each write into a hole",
        start,
    )?;
    println!(rt; "cloned onto its own end: {} cells", doubled.size())
}

/// Puts one hole over all runs but the first cell.
fn hollow(rt: &impl Runtime, words: &Words, file: &mut Extents<Byte>) -> io::Result<()> {
    let start = Instant::now(rt)?;
    file.cut_to(1 << 62)?;
    file.zero_run(1, (1 << 62) - 2)?;
    tell(
        rt,
        words,
        "a hole of 2^62 cells over all runs, for each write",
        start,
    )?;
    let hollowed = read(file);
    println!(rt; "{} cells, {} runs", hollowed.cells, hollowed.runs)
}

fn main(rt: HostRuntime) -> io::Result<()> {
    let words = read_words(&rt)?;
    let mut file = Extents::new(rt.alloc());
    change(&rt, &words, &mut file)?;
    copy_and_read(&rt, &words, &file)?;
    copy_and_change(&rt, rt.alloc(), &words, &file)?;
    clone_onto_end(&rt, rt.alloc(), &words)?;
    hollow(&rt, &words, &mut file)
}
