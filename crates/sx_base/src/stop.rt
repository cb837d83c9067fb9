// Why a call could not do what it was asked.
ghost use Rattle.std.specs.Prelude.{◌≡◌};
ghost use Rattle.sx_base.specs.declared.stop.Stop.TheVariants as stop;

use crate::refusal::Refusal;
use std::alloc::{AllocError, AllocFailed};
use thiserror::Error;

/// Why a call on a command or a subvolume stops: the command is refused, or there is no memory.
#[derive(Debug, Clone, Copy, PartialEq, Eq, Error)]
pub enum Stop {
    /// The command is refused.
    #[error("refused: {0:?}")]
    Refused(Refusal),
    /// There is no memory.
    #[error("no memory")]
    NoMemory,
}

impl From<AllocError> for Stop {
    ghost from_gives = { λ _ e. e ≡ stop.NoMemory };

    fn from(_: AllocError) -> Stop {
        Stop::NoMemory
    }
}

impl<T: Drop> From<AllocFailed<T>> for Stop {
    ghost from_gives = { λ _ e. e ≡ stop.NoMemory };

    fn from(_: AllocFailed<T>) -> Stop {
        Stop::NoMemory
    }
}

impl From<Refusal> for Stop {
    ghost from_gives = { λ r e. e ≡ stop.Refused r };

    fn from(refusal: Refusal) -> Stop {
        Stop::Refused(refusal)
    }
}
