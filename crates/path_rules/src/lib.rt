//! The names of files and directories, and paths as lists of names. Nothing here takes memory.
#![tactic(auto)]

mod names;
mod paths;

pub use names::name_ok;
pub use paths::{BadPath, Parts, split};
