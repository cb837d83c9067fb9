//! The definitions that every promise of btrsend is stated in, and the laws that tie them together.
#![tactic(auto)]

mod export_laws;
mod laws;
mod meanings;
#[cfg(test)]
mod tests;

pub use export_laws::exports_hold;
pub use laws::{
    answers_are_judged, composed_commands_are_counted, composed_streams_are_accepted,
    composing_looks_at_what_is_named, edits_keep_subvolumes_lawful, edits_look_at_their_part,
    files_may_have_overrides, first_long_file_is_named, first_paths_are_least,
    generated_chains_are_lawful, guards_only_refuse, receivable_spelling_is_read_back,
    separators_change_nothing, spelling_is_read_back, stores_stay_lawful, stream_is_read_back,
    words_speak_of_readings,
};
pub use meanings::output_means_what_was_done;
