// What is meant where a file names a subvolume.
use uuid::Uuid;

/// The CTRANSID that is meant where a file names this UUID as a parent or as the source of a clone.
#[derive(Debug, Clone, Copy, PartialEq, Eq)]
pub struct Parent {
    /// The UUID that is named.
    pub uuid: Uuid,
    /// The CTRANSID that is meant.
    pub ctransid: u64,
}
