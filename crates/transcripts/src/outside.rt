// Inputs and outputs that fail, or move few bytes, at chosen calls.
ghost use Rattle.std.specs.Prelude.{⊤, None, ◌<◌, ◌≤◌, length};
ghost use Rattle.std.specs.String.{string_bytes};

use crate::scene::{NamedBytes, bytes_in};
use std::alloc::Global;
use sx_base::{Failed, Inputs, Lost, MemSink, Sink};

/// When something happens at the outside of a run: calls are counted from 1, and 0 is none.
#[derive(Debug, Clone, Copy, PartialEq, Eq)]
pub(crate) struct Plan {
    /// The call that fails.
    pub(crate) fails: u64,
    /// The call for bytes that were read before that finds an early end, among calls of its kind.
    pub(crate) ends: u64,
    /// How many bytes a call moves at the most, as many as it can for 0.
    pub(crate) most: usize,
}

impl Plan {
    /// Nothing happens.
    pub(crate) fn new() -> Plan {
        Plan {
            fails: 0,
            ends: 0,
            most: 0,
        }
    }

    // How many of so many bytes a call moves.
    fn moved(&self, count: usize) -> usize
        ensures bound { result ≤ count }
        ensures progress { 0 < count → 0 < result }
    {
        if self.most == 0 {
            return count;
        }
        count.min(self.most)
    }
}

/// Files in memory, of which a call fails or finds an early end. They tell nothing of their bytes.
#[derive(Debug, Drop)]
pub(crate) struct PlannedInputs<'a> {
    alloc: Global,
    files: &'a [NamedBytes],
    plan: Plan,
    calls: u64,
    // How many of them were for bytes that were read before.
    again: u64,
    faults: u64,
    ends: u64,
    last_name: String,
    last_place: u64,
}

impl<'a> PlannedInputs<'a> {
    /// These files, of which no call was made.
    pub(crate) fn new(alloc: Global, files: &'a [NamedBytes], plan: Plan) -> PlannedInputs<'a> {
        PlannedInputs {
            alloc,
            files,
            plan,
            calls: 0,
            again: 0,
            faults: 0,
            ends: 0,
            last_name: String::new(alloc),
            last_place: 0,
        }
    }
}

impl<'a> Inputs for PlannedInputs<'a> {
    ghost told = { λ _. None };

    ghost faults = { λ s. s.faults };

    ghost ends = { λ s. s.ends };

    ghost last_end = { λ s. record { name = string_bytes s.last_name; place = s.last_place } };

    ghost asked = { λ _ _. ⊤ };

    fn read_at(&mut self, name: &str, at: u64, buf: &mut [u8]) -> Result<usize, Failed> {
        self.calls = self.calls.saturating_add(1);
        if self.calls == self.plan.fails {
            self.faults = self.faults.saturating_add(1);
            return Err(Failed);
        }
        let room = self.plan.moved(buf.len());
        Ok(copy_from(bytes_in(self.files, name), at, room, buf))
    }

    fn read_again(&mut self, name: &str, at: u64, buf: &mut [u8]) -> Result<(), Lost> {
        self.calls = self.calls.saturating_add(1);
        self.again = self.again.saturating_add(1);
        if self.calls == self.plan.fails {
            self.faults = self.faults.saturating_add(1);
            return Err(Lost::Failed);
        }
        if self.again == self.plan.ends && !buf.is_empty() {
            let Ok(copy) = String::from_str(self.alloc, name) else {
                self.faults = self.faults.saturating_add(1);
                return Err(Lost::Failed);
            };
            self.last_name = copy;
            self.last_place = at;
            self.ends = self.ends.saturating_add(1);
            return Err(Lost::Ended { place: at });
        }
        let room = buf.len();
        copy_from(bytes_in(self.files, name), at, room, buf);
        Ok(())
    }
}

// Puts bytes of a file from a place on into a buffer, at most so many, and says how many.
fn copy_from(file: &[u8], at: u64, most: usize, buf: &mut [u8]) -> usize
    ensures { result ≤ length buf.new }
{
    let from = (at.min(file.len() as u64)) as usize;
    let count = most.min(buf.len()).min(file.len() - from);
    buf[..count].copy_from_slice(&file[from..from + count]);
    count
}

/// A sink in memory, of which a call fails. It tells nothing of its bytes.
#[derive(Debug, Drop)]
pub(crate) struct PlannedOutput {
    sink: MemSink,
    plan: Plan,
    calls: u64,
    faults: u64,
}

impl PlannedOutput {
    /// A sink that took nothing.
    pub(crate) fn new(alloc: Global, plan: Plan) -> PlannedOutput {
        PlannedOutput {
            sink: MemSink::new(alloc),
            plan,
            calls: 0,
            faults: 0,
        }
    }

    /// What it took.
    pub(crate) fn bytes(&self) -> &[u8] {
        self.sink.bytes()
    }
}

impl Sink for PlannedOutput {
    ghost taken = { λ _. None };

    ghost faults = { λ s. s.faults };

    fn write(&mut self, piece: &[u8]) -> Result<usize, Failed> {
        self.calls = self.calls.saturating_add(1);
        let count = self.plan.moved(piece.len());
        if self.calls == self.plan.fails || self.sink.write(&piece[..count]).is_err() {
            self.faults = self.faults.saturating_add(1);
            return Err(Failed);
        }
        Ok(count)
    }
}
