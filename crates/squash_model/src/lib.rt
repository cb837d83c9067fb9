//! What `squash` makes of the commands of one stream: the same stream without the bytes that its
//! last subvolume does not have. The definitions over those of streams.
#![tactic(auto)]

mod laws;

pub use laws::{
    places_stand_for_births, squashed_commands_make_the_same, squashed_streams_are_taken,
};
