//! Contents of files as runs of cells, for every kind of cell: what a tree keeps of a file in place
//! of its bytes.
#![tactic(auto)]

mod editing;
mod extents;
mod foreign;
mod joining;
mod leaf;
mod making;
mod nowhere;
mod origin;
mod parts;
mod piece;
mod pieces;
mod tree;

pub use extents::Extents;
pub use nowhere::Nowhere;
pub use origin::Origin;
pub use pieces::Pieces;
