// The log.
ghost use Rattle.std.specs.Prelude.{◌≡◌, List, [], ◌∷◌, ◌++◌, MatchOption, OnOk};
ghost use Rattle.squash_log.specs.Changes.{Fits};

use crate::change::Change;
use std::alloc::{AllocError, Global};
use std::marker::Model;
use std::mem;

// A block of the log has so many changes.
const BLOCK: usize = 1_024;

/// What the commands of contents of a part did, in their order. It is kept in blocks, and those
/// whose changes were all taken out are given back, so it takes no more memory than its changes and
/// a block.
#[derive(Debug, Drop)]
pub struct Log {
    full: Vec<Vec<Change>>,
    last: Vec<Change>,
    alloc: Global,
}

impl Model for Log {
    ghost use Rattle.std.specs.Prelude.{List};
    ghost use Rattle.squash_log.specs.declared.change.Change.{Change};
    ghost use Rattle.squash_log.specs.Stacks.{logged, AreLogged};

    ghost Value = { List Change };

    ghost view = { λ l. logged l.full.items l.last.items };

    ghost invariant = { λ l. AreLogged l.full.items l.last.items };
}

impl Log {
    /// No change yet. Takes no memory; later calls take theirs from `alloc`.
    pub fn new(alloc: Global) -> Log
        ensures { result ≡ [] }
    {
        Log {
            full: Vec::new(alloc),
            last: Vec::new(alloc),
            alloc,
        }
    }

    /// Adds a change behind the others. Fails for want of memory alone.
    pub fn push(&mut self, change: Change) -> Result<(), AllocError>
        requires fits { Fits change }
        ensures { OnOk result (self.new ≡ self.old ++ change ∷ []) }
    {
        if self.last.len() < BLOCK {
            self.last.push(change)?;
            return Ok(());
        }
        let next = Vec::with_capacity(self.alloc, BLOCK)?;
        let block = mem::replace(&mut self.last, next);
        self.full.push(block)?;
        self.last.push(change)?;
        Ok(())
    }

    /// Takes out the last change, if there is one. Takes no memory.
    pub fn pop(&mut self) -> Option<Change>
        ensures popped { MatchOption result ((self.old ≡ []) × (self.new ≡ []))
            (λ change. self.old ≡ self.new ++ change ∷ []) }
        ensures fits { MatchOption result (Unit {0}) Fits }
    {
        if let Some(change) = self.last.pop() {
            return Some(change);
        }
        let Some(block) = self.full.pop() else {
            return None;
        };
        let mut block = block;
        let Some(change) = block.pop() else {
            unreachable!()
        };
        self.last = block;
        Some(change)
    }
}
