//! Chains of consecutive streams that a number gives, for trying and measuring.
#![tactic(auto)]

mod chain;
mod commands;
mod draws;
mod generating;
mod parts;

pub use chain::Chain;
pub use generating::{generate, write_chain};
