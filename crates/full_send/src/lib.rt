//! A whole subvolume of a store as a stream: as it is sent, and as the real receiver restores it.
#![tactic(auto)]

mod capable;
mod contents;
mod ends;
mod entries;
mod flags;
mod pending;
mod places;
mod restoring;
mod sending;

pub use entries::{restore_entry, send_entry};
