//! Guards: limits that whoever receives streams sets on them. Each looks at every command before
//! the command does anything, and the first that refuses one ends the run. Nothing here takes
//! memory.
#![tactic(auto)]

mod any_guard;
mod asking;
mod kinds;
mod limits;
mod sights;
mod words;

pub use any_guard::AnyGuard;
pub use asking::{Guard, look_all};
pub use kinds::GuardSpec;
pub use limits::{ByteGuard, CommandGuard, DeviceGuard, EndGuard};
pub use words::{number_of, parse_guard};
