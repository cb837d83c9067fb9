// Why a call of the store stops.
ghost use Rattle.std.specs.Prelude.{◌≡◌};
ghost use Rattle.group_replay.specs.declared.stops.StoreStop.TheVariants as stop;

use group_log::LogStop;
use std::alloc::AllocError;
use sx_base::Refusal;
use thiserror::Error;

/// Why a call of the store stops.
#[derive(Debug, Drop, Error)]
pub enum StoreStop {
    /// The command is refused.
    #[error("refused: {0:?}")]
    Refused(Refusal),
    /// There is no memory.
    #[error("no memory")]
    NoMemory,
    /// The journal stopped.
    #[error("{0}")]
    Log(LogStop),
}

impl From<AllocError> for StoreStop {
    ghost from_gives = { λ _ e. e ≡ stop.NoMemory };

    fn from(_: AllocError) -> StoreStop {
        StoreStop::NoMemory
    }
}

impl From<LogStop> for StoreStop {
    ghost from_gives = { λ l e. e ≡ stop.Log l };

    fn from(log: LogStop) -> StoreStop {
        StoreStop::Log(log)
    }
}
