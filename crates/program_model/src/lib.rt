//! What all words of the program ask for, and how each is answered: the definitions over those of
//! streams, of stores, of subvolumes that are sent, and of receives that take turns.
#![tactic(auto)]

mod laws;
mod meanings;

pub use laws::{escaped_words_are_read_back, words_give_files};
pub use meanings::answers_mean_what_is_meant;
