// How a run ends at a file that can not be read on.
ghost use Rattle.std.specs.Prelude.{◌≡◌};
ghost use Rattle.sx_base.specs.Calls.{IsStop};
ghost use Rattle.cmd_reader.specs.Stopping.{outcome_at};

use crate::item::ReadStop;
use sx_base::Outcome;

/// The outcome of a file, counted from 1, that could not be read on.
pub fn outcome_of(file: u64, stop: ReadStop) -> Outcome
    ensures outcome { result ≡ outcome_at file stop }
    ensures stops { IsStop result }
{
    match stop {
        ReadStop::Refused(verdict) => Outcome::Refused(verdict),
        ReadStop::InputFault => Outcome::InputFault,
        ReadStop::InputTooLong => Outcome::InputTooLong { file },
    }
}
