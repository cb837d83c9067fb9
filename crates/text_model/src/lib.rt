//! Streams as text: which bytes are a text, what it stands for, and which line of another text is
//! named.
#![tactic(auto)]

mod laws;

pub use laws::{each_undoes_the_other, texts_are_judged, texts_have_one_reading};
