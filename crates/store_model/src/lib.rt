//! The definitions of a store: what its image stands for, what a crash may leave of it, which
//! answers are due over it, and receives that take turns; and the laws that tie them together.
#![tactic(auto)]

mod laws;
mod meanings;
#[cfg(test)]
mod tests;
mod turn_laws;

pub use laws::{
    answers_say_what_stands, crashes_leave_turns, groups_make_one_store,
    images_stand_for_one_store, one_answer_is_due_over_a_store, receiving_passes_states,
    scrub_has_one_answer, turns_have_an_order, written_groups_make_what_is_received,
};
pub use meanings::{
    each_line_is_of_a_complete_entry, init_and_drop_leave_what_they_say,
    nothing_is_done_over_no_store, parts_in_turn_have_their_entries,
    printing_words_write_what_is_stored, streams_are_whole_where_they_are_done,
};
pub use turn_laws::turns_are_answered;
