//! The laws for any type of cell, at one.
use crate::{
    composing_looks_at_what_is_named, edits_keep_subvolumes_lawful, edits_look_at_their_part,
    files_may_have_overrides, first_paths_are_least,
};

#[test]
fn laws_hold_at_a_type() {
    edits_look_at_their_part::<u8, u64>();
    edits_keep_subvolumes_lawful::<u8>();
    first_paths_are_least::<u8>();
    composing_looks_at_what_is_named::<u8>();
    files_may_have_overrides::<u8>();
}
