// Files in memory that never fail.
ghost use Rattle.std.specs.Prelude.{◌≡◌, ⊤, ℕ, ◌-◌, ◌≤◌, List, [], ◌∷◌, ◌++◌, length, min, Some, Ok, IsOkAnd, IfOk, OnOk, OnErr};
ghost use Rattle.sx_base.specs.Again.{LiesIn, FillsFrom, EndsKept, LostFor, MeetsEnd, no_end};
ghost use Rattle.sx_base.specs.Causes.{HasCause, Steady, counts};
ghost use Rattle.sx_base.specs.Outside.{GivesAt, file_at};

use crate::failed::Failed;
use crate::inputs::Inputs;
use crate::lost::Lost;
use crate::stored::{StoredFile, add_file, find_file, read_piece};
use std::alloc::{AllocError, Global};
use std::marker::Model;

/// Files in memory that never fail, seen as the list of their names and bytes. Of files of one name
/// the first counts. Their counts of faults and of ends are always 0.
#[derive(Debug, Drop)]
pub struct PlainInputs {
    alloc: Global,
    files: Vec<StoredFile>,
}

impl Model for PlainInputs {
    ghost use Rattle.std.specs.Prelude.{ℕ, List};
    ghost use Rattle.sx_base.specs.Stored.{as_files};

    ghost Value = { List (List ℕ × List ℕ) };

    ghost view = { λ s. as_files s.files.items };
}

impl PlainInputs {
    /// Inputs without a file. Takes no memory.
    pub fn new(alloc: Global) -> PlainInputs
        ensures empty { result ≡ [] }
    {
        PlainInputs {
            alloc,
            files: Vec::new(alloc),
        }
    }

    /// Adds a file, or changes nothing where there is no memory. A file of a name that is there
    /// already is never read.
    pub fn add(&mut self, name: &str, bytes: &[u8]) -> Result<(), AllocError>
        ensures added { OnOk result (self.new ≡ self.old ++ (name.now, bytes.now) ∷ []) }
        ensures same { OnErr result (self.new ≡ self.old) }
    {
        add_file(self.alloc, &mut self.files, name, bytes)
    }
}

impl Inputs for PlainInputs {
    ghost told = { λ s. Some s };

    ghost faults = { λ _. 0 };

    ghost ends = { λ _. 0 };

    ghost last_end = { λ _. no_end };

    ghost asked = { λ _ _. ⊤ };

    fn read_at(&mut self, name: &str, at: u64, buf: &mut [u8]) -> Result<usize, Failed>
        ensures same { self.new ≡ self.old }
        ensures bound { IfOk result (λ count. count ≤ length buf.new) }
        ensures bytes { IfOk result (λ count. GivesAt (Some self.old) name.now at buf.new count) }
        ensures ends { EndsKept (Some self.old) 0 0 }
        ensures cause { HasCause 0 0 result }
        ensures steady { Steady 0 0 result }
        ensures ends_steady { Steady 0 0 result }
        ensures fills { IsOkAnd result
            (λ count. count ≡ min (length buf.new) (length (file_at self.old name.now) - at)) }
    {
        Ok(read_piece(find_file(self.files.as_slice(), name), at, buf))
    }

    fn read_again(&mut self, name: &str, at: u64, buf: &mut [u8]) -> Result<(), Lost>
        requires range { LiesIn (Some self.old) name.now at (length buf.old) }
        ensures same { self.new ≡ self.old }
        ensures bytes { OnOk result (FillsFrom (Some self.old) name.now at buf.new) }
        ensures later { 0 ≤ 0 }
        ensures ends { EndsKept (Some self.old) 0 0 }
        ensures cause { LostFor (Some self.old) at (length buf.new) (counts 0 0 0) (counts 0 0 0)
            result }
        ensures met { MeetsEnd name.now no_end result }
        ensures steady { Steady 0 0 result }
        ensures ends_steady { Steady 0 0 result }
        ensures fills { result ≡ Ok tt }
    {
        read_piece(find_file(self.files.as_slice(), name), at, buf);
        Ok(())
    }
}
