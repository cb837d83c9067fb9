//! Where the cells of files come from: traces to places of complete subvolumes, and the blocks of a
//! range that those carry.
#![tactic(auto)]

mod ends;
mod front;
mod plan;
mod plan_iter;
mod retagging;
mod step;
mod trace;

pub use ends::Ends;
pub use plan::Plan;
pub use plan_iter::{PlanIter, cut_blocks};
pub use retagging::retag;
pub use trace::Trace;
