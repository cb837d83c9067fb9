//! Receives that take turns: each session receives the commands of one file, and one turn is one
//! command of one session. A session keeps the frames of its open part in memory; the part's group
//! is written at once when the part is complete.
#![tactic(auto)]

mod frames;
mod interleaving;
mod items;
mod part;
mod parting;
mod session;
mod task;
mod turning;
mod word;

pub use interleaving::interleave;
pub use task::Task;
pub use word::interleave_store;
