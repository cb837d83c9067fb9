//! The names, inodes and contents of a subvolume. A copy of a tree shares all that it does not
//! change.
#![tactic(auto)]

mod attributes;
mod change;
mod extras;
mod inode;
mod kind;
mod making;
mod name;
mod removing;
mod renaming;
mod retracing;
mod starts;
mod time;
mod tree;
mod walked;

pub use inode::Inode;
pub use kind::NodeKind;
pub use name::Bytes;
pub use starts::Starts;
pub use time::Timestamp;
pub use tree::Tree;
