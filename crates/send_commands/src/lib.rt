//! The commands of a stream as values, read from the attributes of a frame and written as frames.
#![tactic(auto)]

mod command;
mod decoding;
mod encoding;
mod form;
mod kind;
mod values;
mod wanted;

pub use command::{Command, Time};
pub use decoding::{decode, lawful_kind};
pub use encoding::{data_place, encode};
pub use kind::Kind;
