// A fixed table of calls, applied to `Extents` and to the vector of cells.
ghost use Rattle.std.specs.Prelude.{◌≡◌, ◌+◌, ◌-◌, ◌^◌, ◌<◌, ◌≤◌, ◌⊎◌, IfSome, IsTrue, length};

use crate::marks::Sought;
use crate::plain::PlainCells;
use extent_map::{Extents, Origin};
use std::alloc::{AllocError, Global};
use std::mem;
use std::test::Fail;

/// A cell of a piece.
fn cell_of(origin: Option<Sought>, k: u64) -> Option<Sought>
    requires { IfSome origin (λ o. k ≤ 2 ^ 64 - 1 - o.place) }
{
    match origin {
        Some(origin) => Some(origin.advance(k)),
        None => None,
    }
}

/// Whether a foreign cell stands at a place.
fn is_foreign_at(cells: &[Option<Sought>], at: u64) -> bool {
    match cells.get(at as usize) {
        Some(Some(cell)) => cell.foreign,
        _ => false,
    }
}

/// A file, as both keep it.
#[derive(Drop)]
struct Both {
    extents: Extents<Sought>,
    plain: PlainCells<Sought>,
}

/// Numbers that look drawn, and are the same each time.
#[derive(Drop)]
struct Draw {
    state: u64,
}

impl Draw {
    fn below(&mut self, bound: u64) -> u64
        requires { 0 < bound }
        ensures { result < bound }
    {
        self.state = self
            .state
            .wrapping_mul(6_364_136_223_846_793_005)
            .wrapping_add(1_442_695_040_888_963_407);
        (self.state >> 33) % bound
    }
}

impl Both {
    fn new(alloc: Global) -> Both {
        Both {
            extents: Extents::new(alloc),
            plain: PlainCells::new(alloc),
        }
    }

    fn copy(&self) -> Result<Both, AllocError> {
        Ok(Both {
            extents: self.extents.copy()?,
            plain: self.plain.copy()?,
        })
    }

    /// Whether both have the same cells.
    fn agree(&self) -> bool {
        let cells = self.plain.cells();
        let size = self.extents.size();
        let mut place: usize = 0;
        for (origin, len) in self.extents.pieces(0, size) {
            for k in 0..len {
                let cell = cell_of(origin, k);
                if cells.get(place).copied() != Some(cell) {
                    return false;
                }
                place = place.wrapping_add(1);
            }
        }
        place == cells.len() && place as u64 == size
    }

    /// Whether both have the same next foreign cell, from each place on.
    fn agree_on_foreign(&self) -> bool {
        let cells = self.plain.cells();
        let size = self.extents.size();
        let mut next = size;
        for behind in 0..=cells.len() {
            let at = (cells.len() - behind) as u64;
            if is_foreign_at(cells, at) {
                next = at;
            }
            if at > size || self.extents.next_foreign(at) != next {
                return false;
            }
        }
        true
    }

    fn put_run(&mut self, at: u64, origin: Sought, len: u64) -> Result<(), AllocError>
        requires end { at + len < 2 ^ 63 }
        requires reaches { origin.place + len < 2 ^ 64 }
    {
        self.extents.put_run(at, origin, len)?;
        self.plain.put_run(at, origin, len)
    }

    fn zero_run(&mut self, at: u64, len: u64) -> Result<(), AllocError>
        requires { at + len < 2 ^ 63 }
    {
        self.extents.zero_run(at, len)?;
        self.plain.zero_run(at, len)
    }

    fn cut_to(&mut self, size: u64) -> Result<(), AllocError>
        requires { size < 2 ^ 63 }
    {
        self.extents.cut_to(size)?;
        self.plain.cut_to(size)
    }

    /// Whether the range lies in the contents, as both have them.
    fn has(&self, from: u64, len: u64) -> bool
        requires { from + len < 2 ^ 63 }
        ensures extents { IsTrue result → from + len ≤ length self.now.extents }
        ensures plain { IsTrue result → from + len ≤ length self.now.plain }
    {
        from + len <= self.extents.size() && from + len <= self.plain.cells().len() as u64
    }

    fn copy_range(&mut self, at: u64, source: &Both, from: u64, len: u64) -> Result<(), AllocError>
        requires end { at + len < 2 ^ 63 }
        requires extents { from + len ≤ length source.now.extents }
        requires plain { from + len ≤ length source.now.plain }
    {
        self.extents.copy_range(at, &source.extents, from, len)?;
        self.plain.copy_range(at, &source.plain, from, len)
    }

    fn copy_within(&mut self, at: u64, from: u64, len: u64) -> Result<(), AllocError>
        requires end { at + len < 2 ^ 63 }
        requires extents { from + len ≤ length self.old.extents }
        requires plain { from + len ≤ length self.old.plain }
        requires apart { (at + len ≤ from) ⊎ (from + len ≤ at) }
    {
        self.extents.copy_within(at, from, len)?;
        self.plain.copy_within(at, from, len)
    }
}

/// One call of the table, drawn. Places and lengths are small, so that runs meet, and lengths of 0
/// come too. No two calls put the same cell. False where a range did not lie in the contents, which
/// does not happen.
fn call(draw: &mut Draw, number: u64, file: &mut Both, other: &mut Both) -> Result<bool, AllocError>
    requires { number < 2 ^ 32 }
{
    let kind = draw.below(9);
    let at = draw.below(48);
    let len = draw.below(20);
    let size = file.extents.size().min(1000);
    let other_size = other.extents.size().min(1000);
    match kind {
        0..=2 => file.put_run(
            at,
            Sought {
                place: number * 4_096 + draw.below(1_000),
                foreign: draw.below(4) == 0,
            },
            len,
        )?,
        3 => file.zero_run(at, len)?,
        4 => file.cut_to(draw.below(64))?,
        5 => {
            // onto the file's own end, and past it
            let from = draw.below(size + 1);
            let to = size + draw.below(3);
            let len = size - from;
            if !file.has(from, len) {
                return Ok(false);
            }
            file.copy_within(to, from, len)?;
        }
        6 => {
            // to the front
            let from = draw.below(size + 1);
            let to = draw.below(from + 1);
            let len = (from - to).min(size - from);
            if !file.has(from, len) {
                return Ok(false);
            }
            file.copy_within(to, from, len)?;
        }
        7 => {
            let from = draw.below(other_size + 1);
            let len = draw.below(other_size - from + 1);
            if !other.has(from, len) {
                return Ok(false);
            }
            file.copy_range(at, other, from, len)?;
        }
        _ => {
            let copy = file.copy()?;
            mem::swap(file, other);
            *file = copy;
        }
    }
    Ok(true)
}

#[test]
fn a_table_of_calls_gives_the_same_cells(rt: HostRuntime) -> Result<(), Fail> {
    let mut draw = Draw { state: 2_026 };
    let mut file = Both::new(rt.alloc());
    let mut other = Both::new(rt.alloc());
    for number in 0..200 {
        let called = call(&mut draw, number, &mut file, &mut other)?;
        assert!(rt;
            called && file.agree() && other.agree() && file.agree_on_foreign(),
            "after call {number}"
        );
        if file.extents.size() > 128 {
            file.cut_to(40)?;
        }
    }
    Ok(())
}

/// A file of so many runs of two cells with a zero cell behind each, of which one in `step` is
/// foreign.
fn rows(alloc: Global, runs: u32, step: u32) -> Result<Both, AllocError>
    requires { 0 < step }
{
    let mut file = Both::new(alloc);
    for number in 0..runs {
        let at = number as u64 * 3;
        let foreign = number % step == step - 1;
        file.put_run(at, Sought { place: at, foreign }, 2)?;
        file.zero_run(at + 2, 1)?;
    }
    Ok(file)
}

#[test]
fn the_next_foreign_cell_is_that_of_the_plain_cells(rt: HostRuntime) -> Result<(), Fail> {
    // how many runs, and how many of them have one foreign among them; the last ones are of many
    // nodes
    let table = [
        (0, 1),
        (1, 1),
        (1, 2),
        (2, 1),
        (2, 2),
        (2, 3),
        (9, 4),
        (60, 1),
        (60, 60),
        (60, 61),
        (700, 7),
        (700, 333),
        (700, 700),
        (700, 701),
    ];
    for &(runs, step) in &table {
        let file = rows(rt.alloc(), runs, step.max(1))?;
        assert!(rt;
            file.agree() && file.agree_on_foreign(),
            "{runs} runs, one in {step} foreign"
        );
    }
    Ok(())
}

/// Puts a file onto its own end so many times, as far as that fits.
fn double(file: &mut Extents<Sought>, times: u32) -> Result<(), AllocError> {
    for _ in 0..times {
        let size = file.size();
        if size < 1 << 60 {
            file.copy_within(size, 0, size)?;
        }
    }
    Ok(())
}

/// The next foreign cell from a place on, where the file reaches so far.
fn next_from(file: &Extents<Sought>, at: u64) -> Option<u64> {
    if at > file.size() {
        return None;
    }
    Some(file.next_foreign(at))
}

#[test]
fn a_file_of_many_runs_is_passed_at_once(rt: HostRuntime) -> Result<(), Fail> {
    let own = Sought {
        place: 0,
        foreign: false,
    };
    let other = Sought {
        place: 0,
        foreign: true,
    };
    let mut file = Extents::new(rt.alloc());
    for at in 0..20u64 {
        file.put_run(at, own, 1)?;
    }
    double(&mut file, 50)?;
    assert_eq!(rt; file.size(), 20 << 50);
    assert_eq!(rt; next_from(&file, 0), Some(20 << 50));
    assert_eq!(rt; next_from(&file, 20 << 50), Some(20 << 50));
    file.put_run(13 << 50, other, 1)?;
    double(&mut file, 4)?;
    let table = [
        (0, 13 << 50),
        (13 << 50, 13 << 50),
        ((13 << 50) + 1, 33 << 50),
        (40 << 50, 53 << 50),
        ((313 << 50) + 1, 320 << 50),
    ];
    for &(at, next) in &table {
        assert_eq!(rt; next_from(&file, at), Some(next));
    }
    Ok(())
}
