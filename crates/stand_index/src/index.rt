// The index.
ghost use Rattle.std.specs.Prelude.{◌≡◌, ◌+◌, ◌-◌, ◌*◌, ◌^◌, ◌<◌, ◌≤◌, IfSome, OnOk};
ghost use Rattle.provenance.specs.Traces.{reach_of};
ghost use Rattle.stand_index.specs.Blocks.{IsNext};
ghost use Rattle.stand_index.specs.Puts.{nothing, IsPut, PutsBlocks, PutsRun};

use crate::blocks::{BLOCK, Blocks};
use crate::slots::Slots;
use crate::source::OutsideFile;
use extent_map::Origin;
use provenance::Trace;
use std::alloc::{AllocError, Global};
use std::marker::Model;

// How many entries there are at most. Each has blocks that were put by one command.
const MOST: usize = 1 << 25;

// How long the stretches are into which an input file is cut: a few blocks of each WRITE.
const INPUT_WIDTH: u64 = 1 << 16;

// The files of complete subvolumes are hardly cut: a command may take any number of their blocks.
const OUTSIDE_WIDTH: u64 = 1 << 63;

/// Places at which blocks were put, by the cell that each begins with.
#[derive(Debug, Drop)]
pub struct StandIndex {
    inputs: Slots<u64>,
    outside: Slots<OutsideFile>,
}

impl Model for StandIndex {
    ghost use Rattle.stand_index.specs.Puts.{Puts};

    ghost Value = { Puts };

    ghost view = { λ i. record { inputs = i.inputs; outside = i.outside } };
}

impl StandIndex {
    /// No blocks. Takes no memory.
    pub fn new(alloc: Global) -> StandIndex
        ensures { result ≡ nothing }
    {
        StandIndex {
            inputs: Slots::new(alloc, INPUT_WIDTH),
            outside: Slots::new(alloc, OUTSIDE_WIDTH),
        }
    }

    /// Notes `count` blocks that follow each other, which were put at the place `at` of the file
    /// `ino`. The first begins with the cell `first`. Fails for want of memory alone, and counts as
    /// that more than 2^25 entries; then nothing is said of what it has.
    pub fn add(&mut self, first: Trace, ino: u64, at: u64, count: u64) -> Result<(), AllocError>
        requires reaches { 4_096 * (count - 1) ≤ reach_of first }
        requires end { at + 4_096 * count ≤ 2 ^ 63 }
        ensures { OnOk result (PutsBlocks first ino at count self.old self.new) }
    {
        match first {
            Trace::Fresh { file, at: cell } => {
                let most = MOST.saturating_sub(self.outside.len());
                let blocks = Blocks {
                    source: file,
                    first: cell,
                    ino,
                    at,
                    count,
                };
                self.inputs.add(blocks, most)
            }
            Trace::Outside {
                key,
                ino: from,
                at: cell,
            } => {
                let most = MOST.saturating_sub(self.inputs.len());
                let source = OutsideFile {
                    uuid: key.uuid,
                    ctransid: key.ctransid,
                    ino: from,
                };
                let blocks = Blocks {
                    source,
                    first: cell,
                    ino,
                    at,
                    count,
                };
                self.outside.add(blocks, most)
            }
        }
    }

    /// Notes the blocks that begin in a run of `len` cells from `first`, which was put at the place
    /// `at` of the file `ino`. Fails as `add` does.
    pub fn add_run(&mut self, first: Trace, ino: u64, at: u64, len: u64) -> Result<(), AllocError>
        requires reaches { len ≤ reach_of first }
        requires end { at + len ≤ 2 ^ 63 }
        ensures { OnOk result (PutsRun first ino at len self.old self.new) }
    {
        let skip = (BLOCK - at % BLOCK) % BLOCK;
        if len <= skip {
            return Ok(());
        }
        let count = (len - skip - 1) / BLOCK + 1;
        self.add(first.advance(skip), ino, at + skip, count)
    }

    /// The least place behind `last`, by inode number and then by place, at which a block was put
    /// that begins with the cell `tag`: the inode number and the place. None where there is no
    /// more. Takes no memory.
    pub fn after(&self, tag: Trace, last: Option<(u64, u64)>) -> Option<(u64, u64)>
        requires { IfSome last (λ place. place.1 < 2 ^ 63) }
        ensures { IsNext (λ place. IsPut tag place.0 place.1 self.now) last result }
    {
        match tag {
            Trace::Fresh { file, at } => self.inputs.after(file, at, last),
            Trace::Outside { key, ino, at } => {
                let source = OutsideFile {
                    uuid: key.uuid,
                    ctransid: key.ctransid,
                    ino,
                };
                self.outside.after(source, at, last)
            }
        }
    }
}
