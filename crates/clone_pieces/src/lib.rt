//! What stands for a clone from an earlier part: clones of outside files, and writes of other
//! bytes, which are read again.
#![tactic(auto)]

mod filling;
mod literal;
mod no_base;
mod outside;
mod ranges;
mod redirecting;
mod sending;
mod stops;

pub use no_base::NoBase;
pub use outside::{Known, OutsideBytes};
pub use ranges::{CellRange, Sources, Target};
pub use redirecting::{redirect, uncarried};
pub use sending::{put, put_bytes, send};
pub use stops::SendStop;
