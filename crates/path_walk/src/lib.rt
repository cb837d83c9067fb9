//! The paths of a subvolume in order of their bytes, one after the other, in memory that grows with
//! the names on the way and with the files that were passed.
#![tactic(auto)]

mod ahead;
mod key;
mod paths;

pub use paths::Paths;
