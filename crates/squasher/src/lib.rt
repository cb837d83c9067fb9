//! Squashing: a stream of one part without the bytes that its subvolume does not have in the end.
//! The file is read twice. First it is judged, and what its commands did to contents is kept; then
//! it is written.
#![tactic(auto)]

mod changing;
mod judging;
mod squashing;
#[cfg(test)]
mod streams;
#[cfg(test)]
mod tests;
mod writing;

pub use changing::change_of;
pub use squashing::squash;
