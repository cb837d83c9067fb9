// Commands in the receivable spelling, as they came where they came in it.
ghost use Rattle.std.specs.Prelude.{◌≡◌, ◌++◌, ◌<◌, ◌^◌, OnOk, [], length, true, false};
ghost use Rattle.send_model.specs.Command.{Utimes};
ghost use Rattle.send_model.specs.Spelling.{canonical};
ghost use Rattle.send_model.specs.Receivable.{asked_for, receivable};
ghost use Rattle.send_model.specs.Laws.{CanWrite};
ghost use Rattle.send_commands.specs.Meaning.{meaning_of, time_of};
ghost use Rattle.send_commands.specs.Writing.{IsWritable};
ghost use Rattle.stream_export.specs.Framed.{IsFramed};
ghost use Rattle.sx_base.specs.Bytes.{IsFront};

use crate::unchanged::is_times;
use cmd_reader::Item;
use receivable_form::push_times;
use send_commands::{Command, Time};
use std::alloc::AllocError;
use sx_base::Blob;

// Appends the receivable spelling of an item's command, whose frame came so.
#[tactic(auto, unfolding(send_model::specs::Command::row, send_commands::specs::Writing::IsWritable), using(receivable_form::proofs::Frames::short_text))]
pub(crate) fn push_receivable(
    item: &Item<'_>,
    frame: &[u8],
    to: &mut Blob,
) -> Result<(), AllocError>
    requires frame { item.now.canonical ≡ true
        → frame.now ≡ canonical item.now.version (meaning_of item.now.command) }
    requires framed { IsFramed frame.now }
    requires writable { IsWritable item.now.version (meaning_of item.now.command) }
    requires sayable { CanWrite item.now.version (meaning_of item.now.command) }
    ensures added { OnOk result
        (to.new ≡ to.old ++ receivable item.now.version (meaning_of item.now.command)) }
    ensures kept { IsFront to.old to.new }
{
    match &item.command {
        Command::Utimes { mtime, atime, path } => {
            push_read_times(frame, *mtime, *atime, path, item.version, to)
        }
        _ => push_read(item, frame, to),
    }
}

// The same, but of UTIMES as if its frame had not come. The canonical spelling of a command of
// which nothing more is asked is the receivable one: a frame that came in it goes out as it came.
#[tactic(auto, using(receivable_form::proofs::Frames::plain_is))]
fn push_read(item: &Item<'_>, frame: &[u8], to: &mut Blob) -> Result<(), AllocError>
    requires frame { item.now.canonical ≡ true
        → frame.now ≡ canonical item.now.version (meaning_of item.now.command) }
    requires writable { IsWritable item.now.version (meaning_of item.now.command) }
    requires sayable { CanWrite item.now.version (meaning_of item.now.command) }
    ensures added { OnOk result
        (to.new ≡ to.old ++ receivable item.now.version (meaning_of item.now.command)) }
    ensures kept { IsFront to.old to.new }
{
    if item.canonical && !is_asked_for_more(&item.command) {
        return to.push_all(frame);
    }
    receivable_form::push_receivable(&item.command, item.version, to)
}

// Whether more is asked of a command than its wanted attributes.
fn is_asked_for_more(command: &Command<'_>) -> bool
    ensures plain { result ≡ false → asked_for (meaning_of command.now) ≡ [] }
{
    matches!(
        command,
        Command::MkFile { .. }
            | Command::MkDir { .. }
            | Command::MkNod { .. }
            | Command::MkFifo { .. }
            | Command::MkSock { .. }
            | Command::Symlink { .. }
            | Command::Utimes { .. }
    )
}

// Appends UTIMES, whose frame came so: as it came, if it came in the receivable spelling.
fn push_read_times(
    frame: &[u8],
    mtime: Time,
    atime: Time,
    path: &[u8],
    version: u32,
    to: &mut Blob,
) -> Result<(), AllocError>
    requires framed { IsFramed frame.now }
    requires short { length path.now < 2 ^ 16 }
    ensures added { OnOk result
        (to.new ≡ to.old ++ receivable version (Utimes (time_of mtime) (time_of atime) path.now)) }
    ensures kept { IsFront to.old to.new }
{
    if is_times(frame, mtime, atime, path) {
        return to.push_all(frame);
    }
    push_times(mtime, atime, path, version, to)
}
