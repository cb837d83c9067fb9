// Why a call of the log stops.
ghost use Rattle.std.specs.Prelude.{◌≡◌};
ghost use Rattle.group_log.specs.declared.stops.LogStop.TheVariants.{DiskFault};

use sx_base::Failed;
use thiserror::Error;

/// Why a call of the log stops. After `DiskFault` the log is to be opened again.
#[derive(Debug, Drop, Error)]
pub enum LogStop {
    /// The disk failed in the call.
    #[error("the disk failed")]
    DiskFault,
    /// The bytes are no image of a store; the fault is that of this group, counted from 1, or 0 for
    /// the header.
    #[error("not a store: group {group}")]
    NotStore { group: u64 },
    /// Bytes wanted at this end, with a checksum and the next gate behind them, would go past the
    /// limit.
    #[error("log full: {end} {wanted} {limit}")]
    LogFull { end: u64, wanted: u64, limit: u64 },
    /// There is something on the disk already, of this size.
    #[error("store there: {size}")]
    StoreThere { size: u64 },
}

impl From<Failed> for LogStop {
    ghost from_gives = { λ _ stop. stop ≡ DiskFault };

    fn from(_: Failed) -> Self {
        LogStop::DiskFault
    }
}
