// How receiving ends.
use sx_base::Outcome;

/// How receiving files into a store ended.
#[derive(Debug, Clone, Copy, PartialEq, Eq)]
pub enum Received {
    /// As a run over files ends that reads no byte twice.
    Files(Outcome),
    /// The store's disk failed. It comes only where its count of faults rose in the call.
    StoreFault,
    /// Bytes wanted at this end, with a checksum and the next gate behind them, would go past the
    /// limit.
    LogFull {
        /// Where they would stand, in bytes.
        end: u64,
        /// How many they are.
        wanted: u64,
        /// The greatest size of the store, in bytes.
        limit: u64,
    },
}
