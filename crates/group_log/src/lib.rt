//! The journal of a store: groups behind gates, which a loss of power leaves whole or not there at
//! all.
#![tactic(auto)]

mod filling;
mod journal;
mod laws;
mod stops;

pub use journal::{GroupPlace, Log};
pub use laws::images_are_one_journal;
pub use stops::LogStop;
