//! The definitions of a whole subvolume as a stream: its listing, what is sent and what is restored
//! of it; and the laws that tie them together.
#![tactic(auto)]

mod laws;
mod meanings;

pub use laws::{
    one_answer_is_due_to_sending, received_subvolumes_can_be_sent,
    restored_subvolumes_are_received, sent_subvolumes_are_received, stored_subvolumes_can_be_sent,
};
pub use meanings::{
    received_anew_is_printed_the_same, restored_is_the_stream_of_the_subvolume,
    sent_is_the_stream_of_the_subvolume,
};
