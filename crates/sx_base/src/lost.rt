/// Why bytes of a file that were read before were not given again.
#[derive(Debug, Clone, Copy, PartialEq, Eq)]
pub enum Lost {
    /// The file could not be read. It comes only where the count of faults rose in the call.
    Failed,
    /// The file ends at this place, which lies in the range that was asked for: so it is shorter
    /// than it was. It comes only where the count of ends rose in the call.
    Ended { place: u64 },
}
