//! Auditing streams: which command is the first that would be refused, where nothing is received.
#![tactic(auto)]

mod auditing;
mod counts;
mod files;
mod following;

pub use auditing::audit;
pub use following::Follower;
