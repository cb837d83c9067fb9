// Requests on streams that read no store.
ghost use Rattle.std.specs.Prelude.{◌≡◌};
ghost use Rattle.program_model.specs.Requests as requests;
ghost use Rattle.request_answers.specs.Answered.{answer_of};
ghost use Rattle.request_answers.specs.Objects.{objects_of};
ghost use Rattle.request_answers.specs.Promises.{Answers};

use crate::endings::{Answer, ended};
use chain_trial::write_trial;
use command_line::Count;
use std::alloc::Global;
use stream_dump::dump;
use stream_gen::write_chain;
use stream_text::{pack, text};
use sx_base::{Disk, Inputs, Sink};

/// What printing the commands of a file answers.
pub(crate) fn dump_answer<I: Inputs, O: Sink, D: Disk>(
    alloc: Global,
    file: &str,
    inputs: &mut I,
    out: &mut O,
    disk: &mut D,
) -> Answer
    ensures { Answers (objects_of I.Inputs inputs.old inputs.new O.Sink out.old out.new
        D.Disk disk.old disk.new) (requests.Dump file.now) (answer_of result) }
{
    let _ = disk;
    ended(dump(alloc, inputs, file, out))
}

/// What printing the streams of a file as a text answers.
pub(crate) fn text_answer<I: Inputs, O: Sink, D: Disk>(
    alloc: Global,
    file: &str,
    inputs: &mut I,
    out: &mut O,
    disk: &mut D,
) -> Answer
    ensures { Answers (objects_of I.Inputs inputs.old inputs.new O.Sink out.old out.new
        D.Disk disk.old disk.new) (requests.Text file.now) (answer_of result) }
{
    let _ = disk;
    ended(text(alloc, inputs, file, out))
}

/// What making the streams of a text answers.
pub(crate) fn pack_answer<I: Inputs, O: Sink, D: Disk>(
    alloc: Global,
    file: &str,
    inputs: &mut I,
    out: &mut O,
    disk: &mut D,
) -> Answer
    ensures { Answers (objects_of I.Inputs inputs.old inputs.new O.Sink out.old out.new
        D.Disk disk.old disk.new) (requests.Pack file.now) (answer_of result) }
{
    let _ = disk;
    ended(pack(alloc, inputs, file, out))
}

/// What making a chain answers.
pub(crate) fn gen_answer<I: Inputs, O: Sink, D: Disk>(
    alloc: Global,
    chain: (Count, u64),
    inputs: &mut I,
    out: &mut O,
    disk: &mut D,
) -> Answer
    ensures { Answers (objects_of I.Inputs inputs.old inputs.new O.Sink out.old out.new
        D.Disk disk.old disk.new) (requests.Gen chain.0 chain.1) (answer_of result) }
{
    let _ = inputs;
    let _ = disk;
    let (count, seed) = chain;
    ended(write_chain(alloc, count.number(), seed, out))
}

/// What counting such a chain answers.
pub(crate) fn trial_answer<I: Inputs, O: Sink, D: Disk>(
    alloc: Global,
    chain: (Count, u64),
    inputs: &mut I,
    out: &mut O,
    disk: &mut D,
) -> Answer
    ensures { Answers (objects_of I.Inputs inputs.old inputs.new O.Sink out.old out.new
        D.Disk disk.old disk.new) (requests.Trial chain.0 chain.1) (answer_of result) }
{
    let _ = inputs;
    let _ = disk;
    let (count, seed) = chain;
    ended(write_trial(alloc, count.number(), seed, out))
}
