// What a command did.

/// What a command did that was taken.
#[derive(Debug, Clone, Copy, PartialEq, Eq)]
pub enum Done {
    /// A head began a part.
    Began,
    /// A command edited the part.
    Edited,
    /// END ended the part.
    Ended,
}
