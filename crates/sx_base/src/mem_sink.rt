// A sink in memory, of which chosen writes fail.
ghost use Rattle.std.specs.Prelude.{◌≡◌, ◌<◌, ◌≤◌, [], ◌∷◌, ◌++◌, length, not, ◌&&◌, is_err, if◌then◌else◌, Some, IfOk, OnOk, OnErr, IsErr, IsTrue};
ghost use Rattle.std.specs.Io.KnownBytes.{WriteAppends};
ghost use Rattle.sx_base.specs.Causes.{HasCause, Steady};
ghost use Rattle.sx_base.specs.Memory.{next_count, is_listed};

use crate::failed::Failed;
use crate::sink::Sink;
use std::alloc::{AllocError, Global};
use std::marker::Model;

/// A sink that keeps the bytes in memory. The chosen writes fail, counted from 1; another one fails
/// for want of memory alone, and exactly then the number of refused writes rises.
#[derive(Debug, Drop)]
pub struct MemSink {
    bytes: Vec<u8>,
    failing: Vec<u64>,
    calls: u64,
    refused: u64,
    faults: u64,
}

impl Model for MemSink {
    ghost use Rattle.sx_base.specs.Memory.{Taken};

    ghost Value = { Taken };

    ghost view = { λ s. record {
      bytes = s.bytes.items;
      failing = s.failing.items;
      calls = s.calls;
      refused = s.refused;
      faults = s.faults;
    } };
}

impl MemSink {
    /// A sink that took nothing and of which no call is to fail. Takes no memory.
    pub fn new(alloc: Global) -> MemSink
        ensures empty { result ≡ record {
          bytes = [];
          failing = [];
          calls = 0;
          refused = 0;
          faults = 0;
        } }
    {
        MemSink {
            bytes: Vec::new(alloc),
            failing: Vec::new(alloc),
            calls: 0,
            refused: 0,
            faults: 0,
        }
    }

    /// Has the `n`th write fail, counted from 1, or changes nothing where there is no memory.
    pub fn fail_call(&mut self, n: u64) -> Result<(), AllocError>
        ensures listed { OnOk result
            (self.new ≡ record self.old { failing = self.old.failing ++ n ∷ [] }) }
        ensures same { OnErr result (self.new ≡ self.old) }
    {
        self.failing.push(n)?;
        Ok(())
    }

    /// The bytes taken so far.
    pub fn bytes(&self) -> &[u8]
        ensures bytes { result.now ≡ self.now.bytes }
    {
        self.bytes.as_slice()
    }

    /// How many writes failed for want of memory.
    pub fn refused(&self) -> u64
        ensures refused { result ≡ self.now.refused }
    {
        self.refused
    }
}

impl Sink for MemSink {
    ghost taken = { λ s. Some s.bytes };

    ghost faults = { λ s. s.faults };

    fn write(&mut self, piece: &[u8]) -> Result<usize, Failed>
        ensures bound { IfOk result (λ count. count ≤ length piece.now) }
        ensures progress { IfOk result (λ count. 0 < length piece.now → 0 < count) }
        ensures bytes { WriteAppends (Some self.old.bytes) (Some self.new.bytes) result piece.now }
        ensures cause { HasCause self.old.faults self.new.faults result }
        ensures steady { Steady self.old.faults self.new.faults result }
        ensures whole { IfOk result (λ count. count ≡ length piece.now) }
        ensures listed { IsTrue (is_listed self.old.failing (next_count self.old.calls))
            → IsErr result }
        ensures refused { self.new.refused ≡ (if is_err result
            && not (is_listed self.old.failing (next_count self.old.calls))
            then next_count self.old.refused else self.old.refused) }
        ensures failing { self.new.failing ≡ self.old.failing }
        ensures calls { self.new.calls ≡ next_count self.old.calls }
        ensures faults { self.new.faults ≡ (if is_err result then next_count self.old.faults
            else self.old.faults) }
    {
        self.calls = self.calls.saturating_add(1);
        if self.failing.contains(&self.calls) {
            self.faults = self.faults.saturating_add(1);
            return Err(Failed);
        }
        if self.bytes.extend_from_slice(piece).is_err() {
            self.refused = self.refused.saturating_add(1);
            self.faults = self.faults.saturating_add(1);
            return Err(Failed);
        }
        Ok(piece.len())
    }
}
