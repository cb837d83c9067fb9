// Standard output and standard error as places that take bytes.
ghost use Rattle.std.specs.Prelude.{◌≡◌, ◌<◌, ◌≤◌, length, None, IfOk};
ghost use Rattle.sx_base.specs.Causes.{HasCause, Steady};
ghost use Rattle.host_io.specs.Counting.{CountsFaults};

use std::io::{self, ErrorKind, Write};
use sx_base::{Failed, Sink};

// So often a call is made again that a signal interrupts.
const TRIES: u64 = 1000;

/// A stream of the system that takes bytes, as standard output. It tells nothing of them. Each
/// `Failed` raises its count of faults, which ends at the greatest u64. A write that a signal
/// interrupts is made again.
#[derive(Debug, Drop)]
pub struct OutSink<W> {
    stream: W,
    faults: u64,
}

impl<W: Write> OutSink<W> {
    /// The stream, with no fault counted yet. Takes no memory.
    pub fn new(stream: W) -> OutSink<W>
        ensures stream { result.stream ≡ stream }
        ensures faults { result.faults ≡ 0 }
    {
        OutSink { stream, faults: 0 }
    }
}

impl<W: Write> Sink for OutSink<W> {
    ghost taken = { λ _. None };

    ghost faults = { λ s. s.faults };

    fn write(&mut self, piece: &[u8]) -> Result<usize, Failed>
        ensures bound { IfOk result (λ count. count ≤ length piece.now) }
        ensures progress { IfOk result (λ count. 0 < length piece.now → 0 < count) }
        ensures cause { HasCause self.old.faults self.new.faults result }
        ensures steady { Steady self.old.faults self.new.faults result }
        ensures counted { CountsFaults self.old.faults self.new.faults result }
    {
        match write_on(&mut self.stream, piece) {
            Ok(count) if 0 < count || piece.is_empty() => Ok(count),
            _ => {
                self.faults = self.faults.saturating_add(1);
                Err(Failed)
            }
        }
    }
}

// Writes bytes, once more where a signal interrupts it.
fn write_on<W: Write>(stream: &mut W, piece: &[u8]) -> io::Result<usize>
    ensures { IfOk result (λ count. count ≤ length piece.now) }
{
    for _ in 0..TRIES {
        match stream.write(piece) {
            Err(error) if error.kind() == ErrorKind::Interrupted => {}
            answer => return answer,
        }
    }
    Err(ErrorKind::Interrupted.into())
}
