// When an inode was used or changed.

/// A moment: seconds, and nanoseconds below a second. Source: the times of UTIMES in send.h of
/// btrfs-progs.
#[derive(Debug, Clone, Copy, PartialEq, Eq)]
pub struct Timestamp {
    /// Seconds since the beginning of 1970.
    pub secs: u64,
    /// Nanoseconds.
    pub nanos: u32,
}
