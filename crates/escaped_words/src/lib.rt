//! Words for names and paths: the bytes that they mean.
#![tactic(auto)]

mod reading;

pub use reading::{meant_by, meant_len};
