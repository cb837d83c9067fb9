//! Streams as the real `btrfs receive` takes them and makes of them what they say: in the
//! receivable spelling, and with separators where it would write to a file that the path does not
//! name any more. `send_model`'s law `separators_change_nothing` says what an exported stream keeps
//! (`ExportedIsSame`).
#![tactic(auto)]

mod exporter;
mod exporting;
mod files;
mod separators;
mod spelling;
mod unchanged;

pub use exporting::export;
