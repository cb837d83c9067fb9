//! Reading files once over, for what has to be known of all of them before the first byte of the
//! stream that stands for their parts is written: the head of the last part, the parts' UUIDs,
//! those that are named beside them, and the version.
#![tactic(auto)]

mod part_head;
mod places;
mod summary;
mod surveying;
mod uuid_list;

pub use part_head::PartHead;
pub use places::Place;
pub use summary::Survey;
pub use surveying::survey;
