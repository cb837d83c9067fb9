//! The edge of btrsend: files and streams of the system as inputs and sinks, and the program's
//! start.
#![tactic(auto)]

mod advice;
mod barred_inputs;
mod barred_output;
mod disk_progress;
mod explaining;
mod found;
mod help;
mod kept_notes;
mod line;
mod missing;
mod named_files;
mod nearly;
mod no_disk;
mod opening;
mod out_sink;
mod path_inputs;
mod program;
mod progress;
mod screen;
mod standard_files;
mod statuses;
mod stored;

pub use disk_progress::DiskProgress;
pub use line::{HowFar, line_of};
pub use no_disk::NoDisk;
pub use out_sink::OutSink;
pub use path_inputs::PathInputs;
pub use program::start;
pub use progress::{Progress, Tally, millis_of};
pub use screen::{AfterLine, Screen, end_line};
