//! Writing the stream of a stored subvolume as it was received.
#![tactic(auto)]

mod ends;
mod heads;
mod located;
mod streaming;
mod writing;

pub use streaming::stream_entry;
