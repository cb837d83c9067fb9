//! Streams as text: `text` prints a file of streams in full, and `pack` makes the file of a text.
#![tactic(auto)]

mod glyphs;
mod line_reader;
mod packing;
mod printing;
mod shapes;
mod text_line;
mod values;

pub use packing::pack;
pub use printing::text;
