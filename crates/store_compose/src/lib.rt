//! Composing consecutive streams into one, and squashing a stream, over the store that a disk holds.
#![tactic(auto)]

mod anchor;
mod composing;
mod ending;
mod fetch;
mod held;
mod squashing;
mod standing;

pub use composing::compose_store;
pub use squashing::squash_store;
