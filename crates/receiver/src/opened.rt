// The part that is being received.
ghost use Rattle.std.specs.Prelude.{◌≡◌, IfOk};
ghost use Rattle.send_model.specs.Store.{unfinished};
ghost use Rattle.store_model.specs.States.{complete_line};
ghost use Rattle.clone_resolve.specs.Heads.{head_meant};

use clone_resolve::{Head, Part};
use group_replay::Place;
use std::alloc::{AllocError, Global};
use stream_dump::{push_decimal, push_uuid};
use sx_base::{Blob, escape_into};

// A part, and the line that says that it is complete.
#[derive(Drop)]
pub(crate) struct Opened {
    pub(crate) part: Part<Place>,
    pub(crate) line: Blob,
}

#[tactic(auto, unfolding(store_model::specs::States::complete_line))]
// The line of a head's part: `complete NAME UUID CTRANSID`.
pub(crate) fn line_of(alloc: Global, head: &Head<'_>) -> Result<Blob, AllocError>
    ensures line { IfOk result (λ line. line ≡ complete_line (unfinished {S = Unit {0}} (head_meant head.now))) }
{
    let mut line = Blob::new(alloc);
    line.push_all(b"complete ")?;
    escape_into(head.name, &mut line)?;
    line.push_all(b" ")?;
    push_uuid(&head.key.uuid, &mut line)?;
    line.push_all(b" ")?;
    push_decimal(head.key.ctransid, &mut line)?;
    line.push_all(b"\n")?;
    Ok(line)
}
