//! The words of files: which files they name, and what they say in front of them.
#![tactic(auto)]

mod checking;
mod given;
mod parents;

pub use checking::are_given;
pub use given::GivenFiles;
