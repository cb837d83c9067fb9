//! Printing the commands of a file of streams: a line for each stream and one for each command. The
//! loop that does it writes the commands of a file in any form.
#![tactic(auto)]

mod commands;
mod dumping;
mod file_writing;
mod gathering;
mod item_form;
mod lines;
mod numbers;
mod values;

pub use commands::{command_name, push_command};
pub use dumping::dump;
pub use file_writing::{PIECE, finish, send, write_file};
pub use gathering::Gathered;
pub use item_form::ItemForm;
pub use lines::push_stream_line;
pub use numbers::{push_decimal, push_octal, push_time, push_uuid};
pub use values::{Contents, value_name};
