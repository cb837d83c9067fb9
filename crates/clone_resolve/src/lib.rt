//! The core that holds the parts: the subvolumes of a chain of streams over any origin of their
//! contents, and one command's step on them.
#![tactic(auto)]

mod done;
mod edit_core;
mod head;
mod part;
mod tree_edits;

pub use done::Done;
pub use edit_core::EditCore;
pub use head::{Head, head_of};
pub use part::Part;
pub use subvol_catalog::Key;
