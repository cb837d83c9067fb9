// Requests on the snapshots of a store that are only read.
ghost use Rattle.std.specs.Prelude.{◌≡◌, ℕ, List};
ghost use Rattle.program_model.specs.Requests as requests;
ghost use Rattle.request_answers.specs.Answered.{answer_of};
ghost use Rattle.request_answers.specs.Objects.{objects_of};
ghost use Rattle.request_answers.specs.Promises.{Answers};

use crate::endings::{Answer, end_answer, named_answer, no_memory};
use archive_writer::archive_entry;
use command_line::Word;
use full_send::{restore_entry, send_entry};
use std::alloc::Global;
use store_commands::{cat_file, list_store, scrub_store, show_entry};
use stream_back::stream_entry;
use sx_base::{Blob, Disk, Inputs, Sink};

/// What listing a store answers.
pub(crate) fn list_answer<I: Inputs, O: Sink, D: Disk>(
    alloc: Global,
    inputs: &mut I,
    out: &mut O,
    disk: &mut D,
) -> Answer
    ensures { (store : List ℕ) → Answers (objects_of I.Inputs inputs.old inputs.new
        O.Sink out.old out.new D.Disk disk.old disk.new)
        (requests.ListAll store) (answer_of result) }
{
    let _ = inputs;
    end_answer(alloc, list_store(alloc, disk, out))
}

/// What comparing the checksums of a store answers.
pub(crate) fn scrub_answer<I: Inputs, O: Sink, D: Disk>(
    alloc: Global,
    inputs: &mut I,
    out: &mut O,
    disk: &mut D,
) -> Answer
    ensures { (store : List ℕ) → Answers (objects_of I.Inputs inputs.old inputs.new
        O.Sink out.old out.new D.Disk disk.old disk.new)
        (requests.Scrub store) (answer_of result) }
{
    let _ = inputs;
    end_answer(alloc, scrub_store(alloc, disk, out))
}

/// What printing a snapshot answers.
pub(crate) fn show_answer<I: Inputs, O: Sink, D: Disk>(
    alloc: Global,
    name: &Word<'_>,
    inputs: &mut I,
    out: &mut O,
    disk: &mut D,
) -> Answer
    ensures { (store : List ℕ) → Answers (objects_of I.Inputs inputs.old inputs.new
        O.Sink out.old out.new D.Disk disk.old disk.new)
        (requests.Show store name.now) (answer_of result) }
{
    let _ = inputs;
    let Ok(name) = name.bytes(alloc) else {
        return no_memory();
    };
    let end = show_entry(alloc, disk, name.as_slice(), out);
    named_answer(end, name, Blob::new(alloc))
}

/// What writing the bytes of a file answers.
pub(crate) fn cat_answer<I: Inputs, O: Sink, D: Disk>(
    alloc: Global,
    file: &StoredPath<'_>,
    inputs: &mut I,
    out: &mut O,
    disk: &mut D,
) -> Answer
    ensures { (store : List ℕ) → Answers (objects_of I.Inputs inputs.old inputs.new
        O.Sink out.old out.new D.Disk disk.old disk.new)
        (requests.Cat store file.now.name file.now.path) (answer_of result) }
{
    let _ = inputs;
    let Ok(name) = file.name.bytes(alloc) else {
        return no_memory();
    };
    let Ok(path) = file.path.bytes(alloc) else {
        return no_memory();
    };
    let end = cat_file(alloc, disk, name.as_slice(), path.as_slice(), out);
    named_answer(end, name, path)
}

/// A file of a snapshot.
#[derive(Debug, Drop)]
pub(crate) struct StoredPath<'a> {
    /// The name of the snapshot.
    pub(crate) name: Word<'a>,
    /// The path in it.
    pub(crate) path: Word<'a>,
}

/// What writing a snapshot as one stream answers.
pub(crate) fn send_answer<I: Inputs, O: Sink, D: Disk>(
    alloc: Global,
    name: &Word<'_>,
    inputs: &mut I,
    out: &mut O,
    disk: &mut D,
) -> Answer
    ensures { (store : List ℕ) → Answers (objects_of I.Inputs inputs.old inputs.new
        O.Sink out.old out.new D.Disk disk.old disk.new)
        (requests.Send store name.now) (answer_of result) }
{
    let _ = inputs;
    let Ok(name) = name.bytes(alloc) else {
        return no_memory();
    };
    let end = send_entry(alloc, disk, name.as_slice(), out);
    named_answer(end, name, Blob::new(alloc))
}

/// What writing a snapshot for the real receiver answers.
pub(crate) fn restore_answer<I: Inputs, O: Sink, D: Disk>(
    alloc: Global,
    name: &Word<'_>,
    inputs: &mut I,
    out: &mut O,
    disk: &mut D,
) -> Answer
    ensures { (store : List ℕ) → Answers (objects_of I.Inputs inputs.old inputs.new
        O.Sink out.old out.new D.Disk disk.old disk.new)
        (requests.Restore store name.now) (answer_of result) }
{
    let _ = inputs;
    let Ok(name) = name.bytes(alloc) else {
        return no_memory();
    };
    let end = restore_entry(alloc, disk, name.as_slice(), out);
    named_answer(end, name, Blob::new(alloc))
}

/// What writing a snapshot as the stream that was received answers.
pub(crate) fn stream_answer<I: Inputs, O: Sink, D: Disk>(
    alloc: Global,
    name: &Word<'_>,
    inputs: &mut I,
    out: &mut O,
    disk: &mut D,
) -> Answer
    ensures { (store : List ℕ) → Answers (objects_of I.Inputs inputs.old inputs.new
        O.Sink out.old out.new D.Disk disk.old disk.new)
        (requests.Stream store name.now) (answer_of result) }
{
    let _ = inputs;
    let Ok(name) = name.bytes(alloc) else {
        return no_memory();
    };
    let end = stream_entry(alloc, disk, name.as_slice(), out);
    named_answer(end, name, Blob::new(alloc))
}

/// What writing a snapshot as a tar archive answers.
pub(crate) fn tar_answer<I: Inputs, O: Sink, D: Disk>(
    alloc: Global,
    name: &Word<'_>,
    inputs: &mut I,
    out: &mut O,
    disk: &mut D,
) -> Answer
    ensures { (store : List ℕ) → Answers (objects_of I.Inputs inputs.old inputs.new
        O.Sink out.old out.new D.Disk disk.old disk.new)
        (requests.Tar store name.now) (answer_of result) }
{
    let _ = inputs;
    let Ok(name) = name.bytes(alloc) else {
        return no_memory();
    };
    let end = archive_entry(alloc, disk, name.as_slice(), out);
    named_answer(end, name, Blob::new(alloc))
}
