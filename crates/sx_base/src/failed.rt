/// The answer of an object of the outside that could not do what it was asked: a file, a pipe, a
/// disk. It comes only where the object's count of faults rose in the call.
#[derive(Debug, Clone, Copy, PartialEq, Eq)]
pub struct Failed;
