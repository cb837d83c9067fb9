// What is composed, and what was read of it.
use cmd_reader::Item;
use file_survey::Survey;
use part_names::Overrides;
use std::alloc::Global;

/// What is to be composed: files by their names, what was found in them, and what is said in front
/// of them, over a base of which so much is known. And where memory comes from.
#[derive(Debug, Drop)]
pub struct Task<'a, E> {
    /// Where memory comes from.
    pub alloc: Global,
    /// The names of the input files.
    pub files: &'a [String],
    /// What was found in the files.
    pub survey: &'a Survey,
    /// What is said in front of them.
    pub overrides: &'a Overrides,
    /// What is known of the base.
    pub known: &'a E,
}

/// An item that was read of the input file with this number, counted from 1, and the bytes of its
/// frame as they came.
#[derive(Debug, Clone, Copy)]
pub(crate) struct ReadItem<'a, 'b> {
    /// The item.
    pub item: &'a Item<'b>,
    /// The bytes of its frame.
    pub frame: &'a [u8],
    /// The number of the file.
    pub file: u64,
}
