//! Commands in the receivable spelling: the one that the real `btrfs receive` takes. Where an inode
//! is made it has a number, and in UTIMES the time of the last change, beside the wanted attributes
//! of `send_commands`.
#![tactic(auto)]

mod spelling;

pub use spelling::{push_receivable, push_times};
