//! The store: subvolumes whose edits stand as groups of frames in a journal on a disk.
#![tactic(auto)]

mod groups;
mod laws;
mod reading;
mod store;

pub use group_replay::{Place, StoreStop};
pub use laws::groups_stand_for_subvolumes;
pub use store::Store;
