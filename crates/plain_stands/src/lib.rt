//! Where a block of a file stands in the other files of its subvolume, found by going over all of
//! them: what an index of blocks is to find.
#![tactic(auto)]

mod naming;
mod search;

pub use search::stand_of;
