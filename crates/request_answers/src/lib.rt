//! What each request of the program answers, over the objects outside that it is handed.
#![tactic(auto)]

mod answering;
mod endings;
mod entries;
mod merging;
mod putting;
mod streams;

pub use answering::answer;
pub use endings::Answer;
