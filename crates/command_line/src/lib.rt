//! The command line: what the words after the program's name ask for. They are read once, and each
//! value is borrowed from them, so that nothing here takes memory but what says so.
#![tactic(auto)]

mod arguments;
mod count;
mod file_arguments;
mod file_names;
mod guard_arguments;
mod parsing;
mod profile;
mod request;
#[cfg(test)]
mod tests;
mod turn_arguments;
mod word;

pub use count::Count;
pub use file_arguments::{FileArgument, FileArguments};
pub use file_names::FileNames;
pub use guard_arguments::GuardArguments;
pub use parsing::parse;
pub use profile::{Access, How, StoreAccess};
pub use request::{Base, Request};
pub use turn_arguments::{Sessions, TurnArguments};
pub use word::Word;
