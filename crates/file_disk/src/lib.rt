//! A disk that is a file of the system.
#![tactic(auto)]

mod disk;
mod locked;
mod opening;
mod place;

pub use disk::{FileDisk, ROOM};
pub use opening::OpenStop;
