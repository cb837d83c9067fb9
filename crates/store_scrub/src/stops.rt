// What a scrub finds, and why it stops.
ghost use Rattle.std.specs.Prelude.{◌≡◌};
ghost use Rattle.store_scrub.specs.declared.stops.ScrubStop.TheVariants as stop;

use group_log::LogStop;
use thiserror::Error;

/// How many groups there are, and how many of them have no checksum.
#[derive(Debug, Clone, Copy, PartialEq, Eq)]
pub struct Scrub {
    pub groups: u64,
    pub unsealed: u64,
}

/// Why a scrub stops. Groups are counted from 1.
#[derive(Debug, Drop, Error)]
pub enum ScrubStop {
    /// The disk failed, or the bytes are no image of a store.
    #[error("{0}")]
    Log(LogStop),
    /// The checksum that stands behind a group is not the one of its bytes.
    #[error("damaged: group {group} {stored:08x} {computed:08x}")]
    Damaged {
        group: u64,
        stored: u32,
        computed: u32,
    },
}

impl From<LogStop> for ScrubStop {
    ghost from_gives = { λ log e. e ≡ stop.Log log };

    fn from(log: LogStop) -> ScrubStop {
        ScrubStop::Log(log)
    }
}
