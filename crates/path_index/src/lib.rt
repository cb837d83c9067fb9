//! The first paths of the inodes of a complete subvolume, by an index that is made once.
#![tactic(auto)]

mod building;
mod index;
mod links;
mod writing;

pub use index::PathIndex;
