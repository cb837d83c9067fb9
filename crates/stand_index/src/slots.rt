// Blocks by what they begin with.
ghost use Rattle.std.specs.Prelude.{◌≡◌, ℕ, ◌+◌, ◌-◌, ◌*◌, ◌^◌, ◌<◌, ◌≤◌, [], IfSome, OnOk};
ghost use Rattle.stand_index.specs.Blocks.{Adds, IsAmong, IsNext};
ghost use Rattle.stand_index.specs.Slots.{start_of, all_blocks, AreSlots, IsWidth};

use crate::blocks::{BLOCK, Blocks};
use crate::slot::Slot;
use crate::source::Source;
use std::alloc::{AllocError, Global};
use std::collections::BTreeMap;
use std::marker::Model;
use std::ops::Bound;

// Blocks that follow each other, in the order of what they begin with, seen as their list.
#[derive(Debug, Drop)]
pub(crate) struct Slots<S: Source> {
    map: BTreeMap<Slot<S>, u64>,
    // How long the stretches are into which a source is cut.
    width: u64,
}

impl<S: Source> Model for Slots<S> {
    ghost use Rattle.std.specs.Prelude.{List};
    ghost use Rattle.stand_index.specs.declared.blocks.Blocks.{Blocks};
    ghost use Rattle.stand_index.specs.Slots.{all_blocks, AreSlots, IsWidth};

    ghost Value = { List (Blocks S) };

    ghost view = { λ s. all_blocks s.width s.map.entries };

    ghost invariant = { λ s. IsWidth s.width × AreSlots s.width s.map.entries };
}

impl<S: Source> Slots<S> {
    // No blocks, of sources that are cut into stretches of a width. Takes no memory.
    pub(crate) fn new(alloc: Global, width: u64) -> Slots<S>
        requires { IsWidth width }
        ensures { result ≡ [] }
    {
        Slots {
            map: BTreeMap::new(alloc),
            width,
        }
    }

    // How many entries there are.
    pub(crate) fn len(&self) -> usize {
        self.map.len()
    }

    // Puts in blocks that follow each other. Fails where there is no memory for them, or there
    // would be more than `most` entries.
    pub(crate) fn add(&mut self, blocks: Blocks<S>, most: usize) -> Result<(), AllocError>
        requires cells { blocks.first + 4_096 * (blocks.count - 1) < 2 ^ 64 }
        requires places { blocks.at + 4_096 * blocks.count ≤ 2 ^ 63 }
        ensures { OnOk result (Adds blocks self.old self.new) }
    {
        let mut done = 0;
        while done < blocks.count {
            let first = blocks.first + BLOCK * done;
            let count = fitting(self.width, first).min(blocks.count - done);
            let part = Blocks {
                source: blocks.source,
                first,
                ino: blocks.ino,
                at: blocks.at + BLOCK * done,
                count,
            };
            put(&mut self.map, self.width, part, most)?;
            done += count;
        }
        Ok(())
    }

    // The least place behind `last`, by inode number and then by place, at which a block was put
    // that begins with a cell from the place `cell` of a source. Takes no memory.
    pub(crate) fn after(&self, source: S, cell: u64, last: Option<(u64, u64)>) -> Option<(u64, u64)>
        requires { IfSome last (λ place. place.1 < 2 ^ 63) }
        ensures { IsNext (λ place. IsAmong source cell place.0 place.1 self.now) last result }
    {
        let start = cell - cell % self.width;
        let low = match last {
            None => Bound::Included(Slot {
                source,
                start,
                ino: 0,
                shift: 0,
                first: 0,
            }),
            Some((ino, place)) => Bound::Excluded(Slot {
                source,
                start,
                ino,
                shift: place + (self.width - (cell - start)),
                first: u64::MAX,
            }),
        };
        let high = Bound::Included(Slot {
            source,
            start,
            ino: u64::MAX,
            shift: u64::MAX,
            first: u64::MAX,
        });
        for (slot, count) in self.map.range((low, high)) {
            if slot.has(*count, cell) {
                return Some((slot.ino, slot.shift - (self.width - (cell - start))));
            }
        }
        None
    }
}

// How many blocks that follow each other in a source begin in one stretch, the first of them with
// the cell `first`.
fn fitting(width: u64, first: u64) -> u64
    requires { IsWidth width }
    ensures some { 0 < result }
    ensures within { first + 4_096 * (result - 1) < start_of width first + width }
    ensures fits { 4_096 * result < 2 ^ 64 }
{
    (width - 1 - first % width) / BLOCK + 1
}

// Puts in blocks of one stretch.
fn put<S: Source>(
    map: &mut BTreeMap<Slot<S>, u64>,
    width: u64,
    blocks: Blocks<S>,
    most: usize,
) -> Result<(), AllocError>
    requires width { IsWidth width }
    requires some { 0 < blocks.count }
    requires within { blocks.first + 4_096 * (blocks.count - 1)
        < start_of width blocks.first + width }
    requires place { blocks.at < 2 ^ 63 }
    requires kept { AreSlots width map.old.entries }
    ensures kept { AreSlots width map.new.entries }
    ensures added { OnOk result
        (Adds blocks (all_blocks width map.old.entries) (all_blocks width map.new.entries)) }
{
    let Blocks {
        source,
        first,
        ino,
        at,
        count,
    } = blocks;
    let into = first % width;
    let slot = Slot {
        source,
        start: first - into,
        ino,
        shift: at + (width - into),
        first,
    };
    let have = map.get(&slot).copied().unwrap_or(0);
    if count <= have {
        return Ok(());
    }
    if map.len() >= most {
        return Err(AllocError);
    }
    map.insert(slot, count)?;
    Ok(())
}
