// Why no command was read.
use sx_base::Refusal;

// Why no command was read, before its place in the file is known.
#[derive(Debug, Clone, Copy, PartialEq, Eq)]
pub(crate) enum Fault {
    // The bytes are refused.
    Refused(Refusal),
    // The inputs failed.
    InputFault,
    // The file gave as many bytes as are read at the most, and no end.
    InputTooLong,
}
