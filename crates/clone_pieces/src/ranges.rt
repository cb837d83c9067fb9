// What is written for a clone, and what its cells come from.
use extent_map::Extents;
use provenance::Trace;
use std::alloc::Global;

/// Where bytes go: into the file at a path, from an offset on, by commands of this version.
#[derive(Debug, Clone, Copy)]
pub struct Target<'a> {
    /// The path.
    pub path: &'a [u8],
    /// Where in the file.
    pub offset: u64,
    /// The version of the commands.
    pub version: u32,
}

/// The `len` cells of some contents from `from` on, and where they go.
#[derive(Debug, Clone, Copy)]
pub struct CellRange<'a> {
    /// Where they go.
    pub to: Target<'a>,
    /// The contents.
    pub contents: &'a Extents<Trace>,
    /// The first cell.
    pub from: u64,
    /// How many cells.
    pub len: u64,
}

/// What cells are traced to: input files, by their names, and subvolumes outside, by what is known
/// of them. And where memory comes from.
#[derive(Debug, Drop)]
pub struct Sources<'a, E> {
    /// Where memory comes from.
    pub alloc: Global,
    /// The names of the input files.
    pub files: &'a [String],
    /// What is known of the subvolumes outside.
    pub known: &'a E,
}
