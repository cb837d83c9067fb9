//! The definitions of the stream of a stored subvolume as it was received, and the laws that tie
//! them together.
#![tactic(auto)]

mod laws;

pub use laws::{one_answer_is_due_to_streaming, own_streams_are_taken_again};
