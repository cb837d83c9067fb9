//! Printing what a store has: a line for each of its subvolumes, and all inodes and names of one.
#![tactic(auto)]

mod fields;
mod lines;
mod listing;
mod showing;
mod writing;

pub use listing::list;
pub use showing::show;
