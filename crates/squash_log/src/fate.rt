// What lives of a WRITE.

/// Some bytes of a WRITE in a row.
#[derive(Debug, Clone, Copy, PartialEq, Eq)]
pub struct Span {
    /// The place of the first, counted from the first byte of the WRITE.
    pub at: u64,
    /// How many there are.
    pub len: u64,
}

/// What lives of a WRITE.
#[derive(Debug, Clone, Copy)]
pub enum Fate<'a> {
    /// All of its bytes.
    Whole,
    /// Not all of its bytes.
    Parts {
        /// The longest stretches of bytes that live, in order.
        spans: &'a [Span],
        /// Whether its file was shorter than the WRITE's end, and its last byte does not live.
        lengthens: bool,
    },
}
