//! The laws for any type of cell, at one.
use crate::{
    crashes_leave_turns, groups_make_one_store, parts_in_turn_have_their_entries,
    receiving_passes_states, turns_have_an_order,
};

#[test]
fn laws_hold_at_a_type() {
    groups_make_one_store::<u8, u64>();
    receiving_passes_states::<u8>();
    turns_have_an_order::<u8>();
    crashes_leave_turns::<u8>();
    parts_in_turn_have_their_entries::<u8>();
}
