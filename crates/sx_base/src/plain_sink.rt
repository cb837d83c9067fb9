// A sink that drops what it takes.
ghost use Rattle.std.specs.Prelude.{◌≡◌, ◌<◌, ◌≤◌, length, None, Ok, IfOk};
ghost use Rattle.std.specs.Io.KnownBytes.{WriteAppends};
ghost use Rattle.sx_base.specs.Causes.{HasCause, Steady};

use crate::failed::Failed;
use crate::sink::Sink;

/// A sink that takes every piece whole, drops it, and tells nothing. It never fails.
#[derive(Debug, Drop)]
pub struct PlainSink;

impl PlainSink {
    /// A sink. Takes no memory.
    pub fn new() -> PlainSink {
        PlainSink
    }
}

impl Sink for PlainSink {
    ghost taken = { λ _. None };

    ghost faults = { λ _. 0 };

    fn write(&mut self, piece: &[u8]) -> Result<usize, Failed>
        ensures whole { result ≡ Ok (length piece.now) }
        ensures bound { IfOk result (λ count. count ≤ length piece.now) }
        ensures progress { IfOk result (λ count. 0 < length piece.now → 0 < count) }
        ensures bytes { WriteAppends None None result piece.now }
        ensures cause { HasCause 0 0 result }
        ensures steady { Steady 0 0 result }
    {
        Ok(piece.len())
    }
}
