//! What one group of a store's journal makes of the subvolumes: a head that begins an entry, edits
//! that complete it, a name that is dropped.
#![tactic(auto)]

mod body;
mod edits;
mod front;
mod kinds;
mod opening;
mod place;
mod rows;
mod short;
mod stops;
mod sums;
mod window;

pub use opening::take_group;
pub use place::Place;
pub use stops::StoreStop;
pub use window::Window;
