//! Receiving the streams of files into a store: each command is read, looked at by the guards,
//! done, and put into the store's journal; and the line of each part is written once the part is
//! complete and stable.
#![tactic(auto)]

mod closing;
mod doing;
mod files;
mod guarding;
mod items;
mod opened;
mod outcome;
mod receiving;
mod taking;
mod task;

pub use guarding::{GuardList, Guarding};
pub use outcome::Received;
pub use receiving::receive;
