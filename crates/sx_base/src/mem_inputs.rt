// Files in memory, of which chosen reads fail.
ghost use Rattle.std.specs.Prelude.{◌≡◌, ⊤, ℕ, ◌-◌, ◌≤◌, List, [], ◌∷◌, ◌++◌, length, min, true, is_err, if◌then◌else◌, Some, IfOk, OnOk, OnErr};
ghost use Rattle.sx_base.specs.Again.{LiesIn, FillsFrom, EndsKept, LostFor, MeetsEnd, no_end};
ghost use Rattle.sx_base.specs.Causes.{Rose, HasCause, Steady, counts};
ghost use Rattle.sx_base.specs.Memory.{next_count, is_listed};
ghost use Rattle.sx_base.specs.Outside.{GivesAt, file_at};

use crate::failed::Failed;
use crate::inputs::Inputs;
use crate::lost::Lost;
use crate::stored::{StoredFile, add_file, find_file, read_piece};
use std::alloc::{AllocError, Global};
use std::marker::Model;

/// Files in memory, of which exactly the chosen calls of `read_at` and `read_again` fail, counted
/// from 1. Of files of one name the first counts. Their count of ends is always 0.
#[derive(Debug, Drop)]
pub struct MemInputs {
    alloc: Global,
    files: Vec<StoredFile>,
    failing: Vec<u64>,
    calls: u64,
    faults: u64,
}

impl Model for MemInputs {
    ghost use Rattle.sx_base.specs.Memory.{Files};
    ghost use Rattle.sx_base.specs.Stored.{as_files};

    ghost Value = { Files };

    ghost view = { λ s. record {
      files = as_files s.files.items;
      failing = s.failing.items;
      calls = s.calls;
      faults = s.faults;
    } };
}

impl MemInputs {
    /// Inputs without a file, of which no call fails. Takes no memory.
    pub fn new(alloc: Global) -> MemInputs
        ensures empty { result ≡ record { files = []; failing = []; calls = 0; faults = 0 } }
    {
        MemInputs {
            alloc,
            files: Vec::new(alloc),
            failing: Vec::new(alloc),
            calls: 0,
            faults: 0,
        }
    }

    /// Adds a file, or changes nothing where there is no memory. A file of a name that is there
    /// already is never read.
    pub fn add(&mut self, name: &str, bytes: &[u8]) -> Result<(), AllocError>
        ensures added { OnOk result
            (self.new ≡ record self.old { files = self.old.files ++ (name.now, bytes.now) ∷ [] }) }
        ensures same { OnErr result (self.new ≡ self.old) }
    {
        add_file(self.alloc, &mut self.files, name, bytes)
    }

    /// Has the `n`th call fail, counted from 1, or changes nothing where there is no memory.
    pub fn fail_call(&mut self, n: u64) -> Result<(), AllocError>
        ensures listed { OnOk result
            (self.new ≡ record self.old { failing = self.old.failing ++ n ∷ [] }) }
        ensures same { OnErr result (self.new ≡ self.old) }
    {
        self.failing.push(n)?;
        Ok(())
    }

    // Counts a call, and with it a fault where this call was chosen to fail.
    fn fails_now(&mut self) -> bool
        ensures later { self.old.faults ≤ self.new.faults }
        ensures rose { result ≡ true → Rose self.old.faults self.new.faults }
        ensures fails { result ≡ is_listed self.old.failing (next_count self.old.calls) }
        ensures counts { self.new ≡ record self.old {
          calls = next_count self.old.calls;
          faults = if result then next_count self.old.faults else self.old.faults;
        } }
    {
        self.calls = self.calls.saturating_add(1);
        let fails = self.failing.contains(&self.calls);
        if fails {
            self.faults = self.faults.saturating_add(1);
        }
        fails
    }
}

impl Inputs for MemInputs {
    ghost told = { λ s. Some s.files };

    ghost faults = { λ s. s.faults };

    ghost ends = { λ _. 0 };

    ghost last_end = { λ _. no_end };

    ghost asked = { λ _ _. ⊤ };

    fn read_at(&mut self, name: &str, at: u64, buf: &mut [u8]) -> Result<usize, Failed>
        ensures same { Some self.new.files ≡ Some self.old.files }
        ensures bound { IfOk result (λ count. count ≤ length buf.new) }
        ensures bytes { IfOk result
            (λ count. GivesAt (Some self.old.files) name.now at buf.new count) }
        ensures ends { EndsKept (Some self.old.files) 0 0 }
        ensures cause { HasCause self.old.faults self.new.faults result }
        ensures steady { Steady self.old.faults self.new.faults result }
        ensures ends_steady { Steady 0 0 result }
        ensures fails { is_err result ≡ is_listed self.old.failing (next_count self.old.calls) }
        ensures fills { IfOk result
            (λ count. count ≡ min (length buf.new)
            (length (file_at self.old.files name.now) - at)) }
        ensures counts { self.new ≡ record self.old {
          calls = next_count self.old.calls;
          faults = if is_err result then next_count self.old.faults else self.old.faults;
        } }
    {
        if self.fails_now() {
            return Err(Failed);
        }
        Ok(read_piece(find_file(self.files.as_slice(), name), at, buf))
    }

    fn read_again(&mut self, name: &str, at: u64, buf: &mut [u8]) -> Result<(), Lost>
        requires range { LiesIn (Some self.old.files) name.now at (length buf.old) }
        ensures same { Some self.new.files ≡ Some self.old.files }
        ensures bytes { OnOk result (FillsFrom (Some self.old.files) name.now at buf.new) }
        ensures later { self.old.faults ≤ self.new.faults }
        ensures ends { EndsKept (Some self.old.files) 0 0 }
        ensures cause { LostFor (Some self.old.files) at (length buf.new)
            (counts 0 self.old.faults 0) (counts 0 self.new.faults 0) result }
        ensures met { MeetsEnd name.now no_end result }
        ensures steady { Steady self.old.faults self.new.faults result }
        ensures ends_steady { Steady 0 0 result }
        ensures fails { is_err result ≡ is_listed self.old.failing (next_count self.old.calls) }
        ensures counts { self.new ≡ record self.old {
          calls = next_count self.old.calls;
          faults = if is_err result then next_count self.old.faults else self.old.faults;
        } }
    {
        if self.fails_now() {
            return Err(Lost::Failed);
        }
        read_piece(find_file(self.files.as_slice(), name), at, buf);
        Ok(())
    }
}
