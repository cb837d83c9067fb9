//! Subvolumes by name and by key, in the order in which they began: what a store keeps of them
//! beside their contents.
#![tactic(auto)]

mod catalog;
mod entries;
mod entry;
mod key;
mod slots;

pub use catalog::Catalog;
pub use entries::Entries;
pub use entry::Entry;
pub use key::Key;
