//! Reading the commands of a file of streams, one at a time.
#![tactic(auto)]

mod command_reader;
mod fault;
mod front;
mod item;
mod source;
mod spelled;
mod stopping;

pub use command_reader::CmdReader;
pub use front::{FrameAt, canonical_command};
pub use item::{Glance, Item, ReadStop};
pub use stopping::outcome_of;
