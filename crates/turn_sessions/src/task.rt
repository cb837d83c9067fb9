// What takes turns, and what of it is being read.
use cmd_reader::Item;
use std::alloc::Global;
use sx_base::Verdict;

/// What is to be received in turns: files by their names, and the digits of the schedule. And where
/// memory comes from.
#[derive(Debug, Drop)]
pub struct Task<'a> {
    /// Where memory comes from.
    pub alloc: Global,
    /// The names of the input files.
    pub files: &'a [String],
    /// A digit for each of the first turns, the number of its session.
    pub schedule: &'a [u8],
}

// A command that was read of the file with this number. And where memory comes from.
#[derive(Debug, Drop)]
pub(crate) struct FileItem<'a, 'b> {
    pub(crate) alloc: Global,
    pub(crate) file: u64,
    pub(crate) item: &'a Item<'b>,
}

// The verdict of the session that was refused first, if one was until now. And where memory comes
// from.
#[derive(Debug, Drop)]
pub(crate) struct Turned {
    pub(crate) alloc: Global,
    pub(crate) refused: Option<Verdict>,
}

// The place of a session, and the verdict of the one that was refused first, if one was until now.
// And where memory comes from.
#[derive(Debug, Drop)]
pub(crate) struct Turn {
    pub(crate) alloc: Global,
    pub(crate) place: usize,
    pub(crate) refused: Option<Verdict>,
}
