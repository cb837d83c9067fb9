// What names a subvolume.
use uuid::Uuid;

/// What names a complete subvolume: the sender's UUID and transaction number.
#[derive(Debug, Clone, Copy, PartialEq, Eq)]
pub struct Key {
    /// The subvolume's UUID.
    pub uuid: Uuid,
    /// The sender's transaction number.
    pub ctransid: u64,
}
