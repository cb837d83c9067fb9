//! A subvolume: a tree of inodes and names, and what commands make of the contents of its files.
#![tactic(auto)]

mod allocation;
mod cloning;
mod contents;
mod subvol;

pub use cloning::SourceRange;
pub use subvol::Subvol;
