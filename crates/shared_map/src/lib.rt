//! An ordered map whose copies share their entries: a copy costs a hundredth of the entries and
//! takes no entry's memory, and a change of what is shared copies one small page.
#![tactic(auto)]

mod block;
mod entries;
mod keys;
mod map;
mod page;
mod place;
mod shared;

pub use entries::Entries;
pub use keys::{Copied, Edit, Key, Sought};
pub use map::SharedMap;
pub use shared::{InShared, Shared};
