// Requests on a chain of files over a base.
ghost use Rattle.std.specs.Prelude.{◌≡◌, map};
ghost use Rattle.send_model.specs.Words.{new_guards};
ghost use Rattle.program_model.specs.Requests as requests;
ghost use Rattle.command_line.specs.Meaning.{base_meant};
ghost use Rattle.request_answers.specs.Answered.{answer_of};
ghost use Rattle.request_answers.specs.Objects.{objects_of};
ghost use Rattle.request_answers.specs.Promises.{Answers};

use crate::endings::{Answer, end_answer, ended, no_memory};
use auditor::audit;
use clone_resolve::EditCore;
use command_line::{Base, FileArgument, FileArguments, GuardArguments};
use composer::compose;
use extent_map::Nowhere;
use guard_rules::Guard;
use part_names::{NamedFile, NamedFiles};
use squasher::squash;
use std::alloc::Global;
use store_commands::{audit_store, export_store};
use store_compose::{compose_store, squash_store};
use stream_export::export;
use sx_base::{Disk, Inputs, Sink};

/// A chain of files over a base, and where memory comes from.
#[derive(Debug, Drop)]
pub(crate) struct Chain<'a> {
    /// Where memory comes from.
    pub(crate) alloc: Global,
    /// What the first stream builds on.
    pub(crate) base: Base<'a>,
    /// The files.
    pub(crate) files: FileArguments<'a>,
}

/// What merging a chain answers.
pub(crate) fn compose_answer<I: Inputs, O: Sink, D: Disk>(
    chain: &Chain<'_>,
    inputs: &mut I,
    out: &mut O,
    disk: &mut D,
) -> Answer
    ensures { Answers (objects_of I.Inputs inputs.old inputs.new O.Sink out.old out.new
        D.Disk disk.old disk.new)
        (requests.Compose (base_meant chain.now.base) chain.now.files) (answer_of result) }
{
    let Ok(given) = chain.files.given(chain.alloc) else {
        return no_memory();
    };
    match chain.base {
        Base::Nothing => ended(compose(chain.alloc, inputs, given.files(), given.overrides(), out)),
        Base::InStore { .. } => {
            let named = NamedFiles {
                alloc: chain.alloc,
                files: given.files(),
                overrides: given.overrides(),
            };
            end_answer(chain.alloc, compose_store(&named, disk, inputs, out))
        }
    }
}

/// What checking a chain under guards answers. The guards are those that are asked for, and new.
pub(crate) fn audit_answer<I: Inputs, O: Sink, D: Disk>(
    chain: &Chain<'_>,
    asked: &GuardArguments<'_>,
    guards: &mut [Box<dyn Guard>],
    inputs: &mut I,
    out: &mut O,
    disk: &mut D,
) -> Answer
    requires fits { map (λ g. kept g) guards.old ≡ new_guards asked.now }
    ensures { Answers (objects_of I.Inputs inputs.old inputs.new O.Sink out.old out.new
        D.Disk disk.old disk.new)
        (requests.Audit asked.now (base_meant chain.now.base) chain.now.files) (answer_of result) }
{
    let Ok(given) = chain.files.given(chain.alloc) else {
        return no_memory();
    };
    let named = NamedFiles {
        alloc: chain.alloc,
        files: given.files(),
        overrides: given.overrides(),
    };
    match chain.base {
        Base::Nothing => {
            let core = EditCore::new(chain.alloc);
            ended(audit(&named, core, Nowhere, inputs, guards, out))
        }
        Base::InStore { .. } => {
            end_answer(chain.alloc, audit_store(&named, disk, inputs, guards, out))
        }
    }
}

/// What exporting a chain answers.
pub(crate) fn export_answer<I: Inputs, O: Sink, D: Disk>(
    chain: &Chain<'_>,
    inputs: &mut I,
    out: &mut O,
    disk: &mut D,
) -> Answer
    ensures { Answers (objects_of I.Inputs inputs.old inputs.new O.Sink out.old out.new
        D.Disk disk.old disk.new)
        (requests.Export (base_meant chain.now.base) chain.now.files) (answer_of result) }
{
    let Ok(given) = chain.files.given(chain.alloc) else {
        return no_memory();
    };
    let named = NamedFiles {
        alloc: chain.alloc,
        files: given.files(),
        overrides: given.overrides(),
    };
    match chain.base {
        Base::Nothing => {
            let core = EditCore::new(chain.alloc);
            named.overrides.are_given();
            ended(export(&named, core, Nowhere, inputs, out))
        }
        Base::InStore { .. } => end_answer(chain.alloc, export_store(&named, disk, inputs, out)),
    }
}

/// One file over a base, and where memory comes from.
#[derive(Debug, Drop)]
pub(crate) struct OneStream<'a> {
    /// Where memory comes from.
    pub(crate) alloc: Global,
    /// What the stream builds on.
    pub(crate) base: Base<'a>,
    /// The file.
    pub(crate) file: FileArgument<'a>,
}

/// What squashing a stream answers.
pub(crate) fn squash_answer<I: Inputs, O: Sink, D: Disk>(
    stream: &OneStream<'_>,
    inputs: &mut I,
    out: &mut O,
    disk: &mut D,
) -> Answer
    ensures { Answers (objects_of I.Inputs inputs.old inputs.new O.Sink out.old out.new
        D.Disk disk.old disk.new)
        (requests.Squash (base_meant stream.now.base) stream.now.file) (answer_of result) }
{
    let Ok(given) = stream.file.given(stream.alloc) else {
        return no_memory();
    };
    let [name] = given.files() else {
        unreachable!()
    };
    let file = NamedFile {
        alloc: stream.alloc,
        number: 1,
        name: name.as_str(),
        said: given.overrides().of_file(1),
    };
    match stream.base {
        Base::Nothing => {
            let core = EditCore::new(stream.alloc);
            ended(squash(&file, core, Nowhere, inputs, out))
        }
        Base::InStore { .. } => { end_answer(stream.alloc, squash_store(&file, disk, inputs, out)) }
    }
}
