//! What `compose-self` promises: composing with the subvolume that is being composed as a source.
//! The definitions over those of streams.
#![tactic(auto)]

mod laws;

pub use laws::{commands_put_theirs, selves_hold, stands_are_least};
