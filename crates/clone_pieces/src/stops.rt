// Why a command did not go out.
ghost use Rattle.std.specs.Prelude.{◌≡◌};
ghost use Rattle.clone_pieces.specs.Stopping.{outcome_with};

use sx_base::Outcome;

/// Why not all that stands for a command went out.
#[derive(Debug, Clone, Copy, PartialEq, Eq)]
pub enum SendStop {
    /// The inputs, or what has the bytes of a base, answered that they failed.
    InputFault,
    /// A file of the inputs ends before bytes that were read of it once.
    InputChanged {
        /// The file, counted from 1.
        file: u64,
        /// Where it ends now, in bytes.
        place: u64,
    },
    /// The output answered that it failed.
    OutputFault,
    /// There was no memory.
    NoMemory,
}

/// How a run ends in which a command did not go out.
impl From<SendStop> for Outcome {
    ghost from_gives = { λ stop outcome. outcome ≡ outcome_with stop };

    fn from(stop: SendStop) -> Outcome {
        match stop {
            SendStop::InputFault => Outcome::InputFault,
            SendStop::InputChanged { file, place } => Outcome::InputChanged { file, place },
            SendStop::OutputFault => Outcome::OutputFault,
            SendStop::NoMemory => Outcome::NoMemory,
        }
    }
}
