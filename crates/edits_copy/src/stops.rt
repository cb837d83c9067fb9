// Why copying stops.

/// Why a copy of edits stops.
#[derive(Debug, Clone, Copy, PartialEq, Eq)]
pub enum CopyStop {
    /// The disk failed.
    DiskFault,
    /// The output failed.
    OutputFault,
    /// There is no memory.
    NoMemory,
}
