//! Composing consecutive parts into one stream.
#![tactic(auto)]

mod composing;
mod task;
mod whole;

pub use task::Task;
pub use whole::{compose, compose_over};
