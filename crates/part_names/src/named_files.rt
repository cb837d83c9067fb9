// Files that are read for the streams in them, with what is said in front of them.
use crate::overrides::{FileOverride, Overrides};
use std::alloc::Global;

/// Files by their names, what is said in front of them, and where memory comes from.
#[derive(Debug, Drop)]
pub struct NamedFiles<'a> {
    /// Where memory comes from.
    pub alloc: Global,
    /// The names of the files.
    pub files: &'a [String],
    /// What is said in front of them.
    pub overrides: &'a Overrides,
}

/// One of several files: its number, counted from 1, its name, and what is said in front of it. And
/// where memory comes from.
#[derive(Debug, Drop)]
pub struct NamedFile<'a> {
    /// Where memory comes from.
    pub alloc: Global,
    /// The file, counted from 1.
    pub number: u64,
    /// Its name.
    pub name: &'a str,
    /// What is said in front of it.
    pub said: &'a FileOverride,
}
