// Where edits are.

/// Where the frames of edits are on a disk, in bytes.
#[derive(Debug, Clone, Copy, PartialEq, Eq)]
pub struct EditsPlace {
    /// The version that spells them, 1 or 2.
    pub version: u32,
    /// The place of their first byte.
    pub from: u64,
    /// The place behind their last byte.
    pub to: u64,
}
