// Writing a whole piece to a sink.
ghost use Rattle.std.specs.Prelude.{◌≡◌, OnOk, OnErr};
ghost use Rattle.std.specs.Io.KnownBytes.{Appends};
ghost use Rattle.sx_base.specs.Causes.{HasCause, Steady};
ghost use Rattle.sx_base.specs.Outside.{AppendsPart};

use crate::failed::Failed;
use crate::sink::Sink;

/// Writes the whole piece. At `Failed`, which comes only where the sink's count of faults rose, the
/// sink took a proper prefix of it. Takes no memory of its own.
pub fn write_whole<S: Sink>(sink: &mut S, piece: &[u8]) -> Result<(), Failed>
    ensures whole { OnOk result (Appends (S.taken sink.old) (S.taken sink.new) piece.now) }
    ensures part { OnErr result (AppendsPart (S.taken sink.old) (S.taken sink.new) piece.now) }
    ensures cause { HasCause (S.faults sink.old) (S.faults sink.new) result }
    ensures steady { Steady (S.faults sink.old) (S.faults sink.new) result }
{
    let mut done = 0;
    while done < piece.len() {
        done += sink.write(&piece[done..])?;
    }
    Ok(())
}
