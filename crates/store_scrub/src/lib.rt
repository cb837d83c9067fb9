//! What scrub finds in a journal: the kinds and the checksums of its groups, and nothing of what
//! they say.
#![tactic(auto)]

mod kinds;
mod scrubbing;
mod stops;

pub use kinds::{GroupKind, kind_of};
pub use scrubbing::scrub;
pub use stops::{Scrub, ScrubStop};
