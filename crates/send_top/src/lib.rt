//! btrsend as one call: its words, its notes and exit statuses, and what it does with the inputs
//! and sinks that it is handed.
#![tactic(auto)]

mod noting;
mod one_line;
mod top_call;

pub use noting::{status, write_note};
pub use request_answers::Answer;
pub use top_call::run;
