// Each request, and what answers it.
ghost use Rattle.std.specs.Prelude.{◌≡◌, map};
ghost use Rattle.send_model.specs.Words.{new_guards};
ghost use Rattle.program_model.specs.Profiles.{profile};
ghost use Rattle.command_line.specs.Meaning.{request_meant};
ghost use Rattle.request_answers.specs.Answered.{answer_of};
ghost use Rattle.request_answers.specs.Objects.{objects_of};
ghost use Rattle.request_answers.specs.Promises.{Answers};

use crate::endings::Answer;
use crate::entries::{
    StoredPath, cat_answer, list_answer, restore_answer, scrub_answer, send_answer, show_answer,
    stream_answer, tar_answer,
};
use crate::merging::{
    Chain, OneStream, audit_answer, compose_answer, export_answer, squash_answer,
};
use crate::putting::{Putting, drop_answer, init_answer, interleave_answer, receive_answer};
use crate::streams::{dump_answer, gen_answer, pack_answer, text_answer, trial_answer};
use command_line::Request;
use guard_rules::Guard;
use std::alloc::Global;
use sx_base::{Disk, Inputs, Sink};

/// What a request answers over the inputs, the output and the store. The guards are those of the
/// request, and new.
#[tactic(auto, unfolding(program_model::specs::Profiles::profile))]
pub fn answer<I: Inputs, O: Sink, D: Disk>(
    alloc: Global,
    request: Request<'_>,
    guards: &mut [Box<dyn Guard>],
    inputs: &mut I,
    out: &mut O,
    disk: &mut D,
) -> Answer
    requires fits { map (λ g. kept g) guards.old
        ≡ new_guards (profile (request_meant request)).guards }
    ensures { Answers (objects_of I.Inputs inputs.old inputs.new O.Sink out.old out.new
        D.Disk disk.old disk.new) (request_meant request.entry) (answer_of result) }
{
    match request {
        Request::Compose { base, files } => {
            compose_answer(&Chain { alloc, base, files }, inputs, out, disk)
        }
        Request::Audit {
            guards: asked,
            base,
            files,
        } => {
            let chain = Chain { alloc, base, files };
            audit_answer(&chain, &asked, guards, inputs, out, disk)
        }
        Request::Dump { file } => dump_answer(alloc, file, inputs, out, disk),
        Request::Text { file } => text_answer(alloc, file, inputs, out, disk),
        Request::Pack { file } => pack_answer(alloc, file, inputs, out, disk),
        Request::Export { base, files } => {
            export_answer(&Chain { alloc, base, files }, inputs, out, disk)
        }
        Request::Squash { base, file } => {
            squash_answer(&OneStream { alloc, base, file }, inputs, out, disk)
        }
        Request::Gen { count, seed } => gen_answer(alloc, (count, seed), inputs, out, disk),
        Request::Trial { count, seed } => trial_answer(alloc, (count, seed), inputs, out, disk),
        Request::Init { .. } => init_answer(alloc, inputs, out, disk),
        Request::Drop { name, .. } => drop_answer(alloc, &name, inputs, out, disk),
        Request::Receive { guards, files, .. } => {
            let putting = Putting {
                alloc,
                guards,
                files,
            };
            receive_answer(&putting, inputs, out, disk)
        }
        Request::List { .. } => list_answer(alloc, inputs, out, disk),
        Request::Show { name, .. } => show_answer(alloc, &name, inputs, out, disk),
        Request::Cat { name, path, .. } => {
            cat_answer(alloc, &StoredPath { name, path }, inputs, out, disk)
        }
        Request::Scrub { .. } => scrub_answer(alloc, inputs, out, disk),
        Request::Send { name, .. } => send_answer(alloc, &name, inputs, out, disk),
        Request::Restore { name, .. } => restore_answer(alloc, &name, inputs, out, disk),
        Request::Stream { name, .. } => stream_answer(alloc, &name, inputs, out, disk),
        Request::Tar { name, .. } => tar_answer(alloc, &name, inputs, out, disk),
        Request::Interleave { turns, .. } => interleave_answer(alloc, &turns, inputs, out, disk),
    }
}
