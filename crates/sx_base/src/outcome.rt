use crate::refusal::Refusal;

/// Where a run over files met its first refusal. Files and commands are counted from 1, the offset
/// in bytes from the start of the file.
#[derive(Debug, Clone, Copy, PartialEq, Eq)]
pub struct Verdict {
    /// The file, counted from 1.
    pub file: u64,
    /// The command in that file, counted from 1.
    pub command: u64,
    /// The place in that file of the command's first byte.
    pub offset: u64,
    /// Why the command is refused.
    pub refusal: Refusal,
}

/// How a run over files ended.
#[derive(Debug, Clone, Copy, PartialEq, Eq)]
pub enum Outcome {
    /// All was done.
    Done,
    /// A command was refused.
    Refused(Verdict),
    /// The inputs answered that they failed.
    InputFault,
    /// The output answered that it failed.
    OutputFault,
    /// There was no memory.
    NoMemory,
    /// A file of the inputs has 2^62 bytes or more.
    InputTooLong {
        /// The file, counted from 1.
        file: u64,
    },
    /// The bytes of redirected clones that no outside subvolume carries are more than 2^40.
    TooMuch {
        /// How many they are up to the first clone with which they are too many, in bytes.
        sum: u64,
    },
    /// A file of the inputs ends before bytes that were read of it once.
    InputChanged {
        /// The file, counted from 1.
        file: u64,
        /// Where it ends now, in bytes.
        place: u64,
    },
}
