//! Which bytes of the WRITE commands of a part live, found from a log of what the commands did to
//! the contents of its files, from the log's end to its start. It goes by ranges of bytes, and
//! never byte by byte.
#![tactic(auto)]

mod change;
mod fate;
mod fates;
mod file_lives;
mod laws;
mod lives;
mod log;
#[cfg(test)]
mod tests;

pub use change::{Change, FileRange};
pub use fate::{Fate, Span};
pub use fates::{Fates, find_fates};
pub use laws::fates_squash;
pub use lives::Ended;
pub use log::Log;
