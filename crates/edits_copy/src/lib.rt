//! The edits of a stored subvolume: where their frames are in the journal, and one copy of them.
#![tactic(auto)]

mod copying;
mod finding;
mod place;
mod stops;

pub use copying::copy_edits;
pub use finding::find_edits;
pub use place::EditsPlace;
pub use stops::CopyStop;
