//! The words over a store that a disk holds: making one, listing it, showing one of its subvolumes
//! and one of their files, dropping an entry, receiving streams into it, checking or exporting them
//! over it, scrubbing it.
#![tactic(auto)]

mod auditing;
mod cat;
mod dropping;
mod ends;
mod exporting;
mod listing;
mod making;
mod receiving;
mod scrubbing;
mod showing;

pub use auditing::audit_store;
pub use cat::cat_file;
pub use dropping::drop_entry;
pub use ends::StoreEnd;
pub use exporting::export_store;
pub use listing::list_store;
pub use making::init_store;
pub use receiving::receive_store;
pub use scrubbing::scrub_store;
pub use showing::show_entry;
