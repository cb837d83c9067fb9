//! Where blocks were ever put into files, by the cells that they begin with: candidates for the
//! place at which a block stands. It only grows, and may name places at which a block stands no
//! more.
#![tactic(auto)]

mod blocks;
mod index;
mod slot;
mod slots;
mod source;

pub use index::StandIndex;
