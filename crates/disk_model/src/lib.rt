//! Disks in memory: one that a crash may tear, one that stops after a number of calls, and one that
//! fails some calls.
#![tactic(auto)]

mod flaky_disk;
mod fuse_disk;
mod mem_disk;
mod stretch;
mod tearing;

pub use flaky_disk::FlakyDisk;
pub use fuse_disk::FuseDisk;
pub use mem_disk::MemDisk;
