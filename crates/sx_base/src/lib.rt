//! What every crate of btrsend stands on: the traits of the outside with their answers and their
//! objects in memory, bytes that grow, and the answers that a run ends with.
#![tactic(auto)]

mod blob;
mod disk;
mod escaping;
mod failed;
mod inputs;
mod lost;
mod mem_inputs;
mod mem_sink;
mod outcome;
mod plain_inputs;
mod plain_sink;
mod refusal;
mod sink;
mod stop;
mod stored;
mod whole;

pub use blob::Blob;
pub use disk::Disk;
pub use escaping::{escape_into, hex_into};
pub use failed::Failed;
pub use inputs::Inputs;
pub use lost::Lost;
pub use mem_inputs::MemInputs;
pub use mem_sink::MemSink;
pub use outcome::{Outcome, Verdict};
pub use plain_inputs::PlainInputs;
pub use plain_sink::PlainSink;
pub use refusal::Refusal;
pub use sink::Sink;
pub use stop::Stop;
pub use whole::write_whole;
