// Requests that make or change a store.
ghost use Rattle.std.specs.Prelude.{◌≡◌, ℕ, List, map, IfOk};
ghost use Rattle.program_model.specs.Requests as requests;
ghost use Rattle.guard_rules.specs.AnyKind.{any_kept};
ghost use Rattle.request_answers.specs.Answered.{answer_of};
ghost use Rattle.request_answers.specs.Objects.{objects_of};
ghost use Rattle.request_answers.specs.Promises.{Answers};

use crate::endings::{Answer, end_answer, named_answer, no_memory};
use command_line::{FileArguments, GuardArguments, TurnArguments, Word};
use guard_rules::AnyGuard;
use part_names::NamedFiles;
use receiver::GuardList;
use std::alloc::{AllocError, Global};
use store_commands::{drop_entry, init_store, receive_store};
use sx_base::{Blob, Disk, Inputs, Sink};
use turn_sessions::{Task, interleave_store};

/// What making a store answers.
pub(crate) fn init_answer<I: Inputs, O: Sink, D: Disk>(
    alloc: Global,
    inputs: &mut I,
    out: &mut O,
    disk: &mut D,
) -> Answer
    ensures { (store : List ℕ) → Answers (objects_of I.Inputs inputs.old inputs.new
        O.Sink out.old out.new D.Disk disk.old disk.new)
        (requests.Init store) (answer_of result) }
{
    let _ = inputs;
    let _ = out;
    end_answer(alloc, init_store(disk))
}

/// What dropping a snapshot answers.
pub(crate) fn drop_answer<I: Inputs, O: Sink, D: Disk>(
    alloc: Global,
    name: &Word<'_>,
    inputs: &mut I,
    out: &mut O,
    disk: &mut D,
) -> Answer
    ensures { (store : List ℕ) → Answers (objects_of I.Inputs inputs.old inputs.new
        O.Sink out.old out.new D.Disk disk.old disk.new)
        (requests.Drop store name.now) (answer_of result) }
{
    let _ = inputs;
    let _ = out;
    let Ok(name) = name.bytes(alloc) else {
        return no_memory();
    };
    let end = drop_entry(alloc, disk, name.as_slice());
    named_answer(end, name, Blob::new(alloc))
}

/// Files that are put into a store under guards, and where memory comes from.
#[derive(Debug, Drop)]
pub(crate) struct Putting<'a> {
    /// Where memory comes from.
    pub(crate) alloc: Global,
    /// The guards.
    pub(crate) guards: GuardArguments<'a>,
    /// The files.
    pub(crate) files: FileArguments<'a>,
}

/// What receiving files answers.
pub(crate) fn receive_answer<I: Inputs, O: Sink, D: Disk>(
    putting: &Putting<'_>,
    inputs: &mut I,
    out: &mut O,
    disk: &mut D,
) -> Answer
    ensures { (store : List ℕ) → Answers (objects_of I.Inputs inputs.old inputs.new
        O.Sink out.old out.new D.Disk disk.old disk.new)
        (requests.Receive putting.now.guards store putting.now.files) (answer_of result) }
{
    let Ok(guards) = putting.guards.new_guards(putting.alloc) else {
        return no_memory();
    };
    let Ok(given) = putting.files.given(putting.alloc) else {
        return no_memory();
    };
    let mut guards = GuardList::new(guards);
    let named = NamedFiles {
        alloc: putting.alloc,
        files: given.files(),
        overrides: given.overrides(),
    };
    end_answer(
        putting.alloc,
        receive_store(&named, disk, inputs, &mut guards, out),
    )
}

/// What receiving files in turns answers.
pub(crate) fn interleave_answer<I: Inputs, O: Sink, D: Disk>(
    alloc: Global,
    turns: &TurnArguments<'_>,
    inputs: &mut I,
    out: &mut O,
    disk: &mut D,
) -> Answer
    ensures { (store : List ℕ) → Answers (objects_of I.Inputs inputs.old inputs.new
        O.Sink out.old out.new D.Disk disk.old disk.new)
        (requests.Interleave store turns.now.schedule turns.now.files) (answer_of result) }
{
    let Ok(sessions) = turns.sessions(alloc) else {
        return no_memory();
    };
    let Ok(guards) = lists_of(alloc, sessions.guards) else {
        return no_memory();
    };
    let task = Task {
        alloc,
        files: sessions.files.as_slice(),
        schedule: turns.schedule(),
    };
    end_answer(alloc, interleave_store(&task, disk, inputs, guards, out))
}

// Guards as lists of them.
fn lists_of(
    alloc: Global,
    guards: Vec<Vec<AnyGuard>>,
) -> Result<Vec<GuardList<AnyGuard>>, AllocError>
    ensures { IfOk result (λ lists. map (λ list. map any_kept list.guards.items) lists.items
        ≡ map (λ own. map any_kept own.items) guards.items) }
{
    let mut lists = Vec::new(alloc);
    for own in guards {
        lists.push(GuardList::new(own))?;
    }
    Ok(lists)
}
