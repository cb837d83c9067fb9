//! A trial of composing: a chain that a number gives is composed in memory, and what came of it is
//! counted.
#![tactic(auto)]

mod counting;
mod trying;

pub use trying::write_trial;
