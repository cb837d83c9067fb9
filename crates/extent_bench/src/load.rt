// The calls that are measured, each kind as many times as it is asked.
ghost use Rattle.std.specs.Prelude.{ℕ, ◌+◌, ◌*◌, ◌^◌, ◌<◌, ◌≤◌, ◌≡◌, length};

use crate::block::Byte;
use extent_map::Extents;
use std::alloc::{AllocError, Global};

const BLOCK: u64 = 4096;

/// Numbers that look drawn, and are the same each time.
#[derive(Debug, Drop)]
pub struct Draw {
    state: u64,
}

impl Draw {
    pub fn new() -> Draw {
        Draw { state: 2_026 }
    }

    fn below(&mut self, bound: u64) -> u64
        requires { 0 < bound }
        ensures { result < bound }
    {
        self.state = self
            .state
            .wrapping_mul(6_364_136_223_846_793_005)
            .wrapping_add(1_442_695_040_888_963_407);
        (self.state >> 24) % bound
    }
}

/// Writes `count` blocks of 4 KiB in scattered order, with a hole of 4 KiB after each: as many
/// runs.
pub fn fill(file: &mut Extents<Byte>, count: u32) -> Result<(), AllocError> {
    for n in 0..count {
        let place = (n as u64 * 2_654_435_761) % count as u64;
        file.put_run(
            place * 2 * BLOCK,
            Byte {
                number: n as u64 * BLOCK,
            },
            BLOCK,
        )?;
    }
    Ok(())
}

/// Writes 4 KiB at `count` places anywhere in the first 8 KiB times `count`, over the runs that lie
/// there.
pub fn overwrite(file: &mut Extents<Byte>, draw: &mut Draw, count: u32) -> Result<(), AllocError> {
    for n in 0..count {
        let at = draw.below(count as u64 * 2 * BLOCK);
        file.put_run(
            at,
            Byte {
                number: (1 << 60) + n as u64 * BLOCK,
            },
            BLOCK,
        )?;
    }
    Ok(())
}

/// Clones 16 KiB from `count` places of the file to places after them.
pub fn clone_parts(
    file: &mut Extents<Byte>,
    draw: &mut Draw,
    count: u32,
) -> Result<(), AllocError> {
    let len = 4 * BLOCK;
    for _ in 0..count {
        let from = draw.below(count as u64 * BLOCK);
        let at = from + len + draw.below(count as u64 * BLOCK);
        if from + len <= file.size() {
            file.copy_within(at, from, len)?;
        }
    }
    Ok(())
}

/// Copies the file `count` times, each time from the last copy, writes 4 KiB at `edits` places of
/// each copy, and keeps all.
pub fn change_copies(
    alloc: Global,
    file: &Extents<Byte>,
    draw: &mut Draw,
    count: u32,
    edits: u32,
) -> Result<Vec<Extents<Byte>>, AllocError> {
    let mut copies = Vec::new(alloc);
    let mut last = file.copy()?;
    for n in 0..count {
        let mut next = last.copy()?;
        let size = next.size().max(1).min(1 << 61);
        for k in 0..edits {
            let at = draw.below(size);
            next.put_run(
                at,
                Byte {
                    number: (1 << 61) + (n as u64 * (1 << 28)) + k as u64 % (1 << 28),
                },
                BLOCK,
            )?;
        }
        copies.push(last)?;
        last = next;
    }
    copies.push(last)?;
    Ok(copies)
}

/// A file of one cell that is cloned onto its own end `times` times.
pub fn double(alloc: Global, times: u32) -> Result<Extents<Byte>, AllocError> {
    let mut file = Extents::new(alloc);
    file.put_run(0, Byte { number: 0 }, 1)?;
    for _ in 0..times {
        let size = file.size();
        if size < 1 << 61 {
            file.copy_within(size, 0, size)?;
        }
    }
    Ok(file)
}

/// What reading all pieces of a file finds.
#[derive(Debug, Drop)]
pub struct Reading {
    pub runs: u64,
    pub holes: u64,
    pub cells: u64,
    pub sum: u64,
}

/// Reads the file by pieces, which have all its cells.
pub fn read(file: &Extents<Byte>) -> Reading
    ensures { result.cells ≡ length file.now }
{
    let size = file.size();
    let mut cells: u64 = 0;
    let mut runs: u64 = 0;
    let mut holes: u64 = 0;
    let mut sum: u64 = 0;
    for (origin, len) in file.pieces(0, size) {
        cells += len;
        let number = match origin {
            Some(byte) => {
                runs = runs.wrapping_add(1);
                byte.number
            }
            None => {
                holes = holes.wrapping_add(1);
                u64::MAX
            }
        };
        sum = sum
            .wrapping_mul(31)
            .wrapping_add(number)
            .wrapping_mul(31)
            .wrapping_add(len);
    }
    Reading {
        runs,
        holes,
        cells,
        sum,
    }
}
