// Callers of the store, which show that its contract is one to build on.
ghost use Rattle.std.specs.Prelude.{◌≡◌, ℕ, ◌≤◌, true, List, IfOk, OnOk};
ghost use Rattle.send_model.specs.Reading.{is_version};
ghost use Rattle.send_model.specs.Spelling.{IsSpellable};
ghost use Rattle.store_model.specs.Image.{Header};
ghost use Rattle.store_model.specs.Stored.{Group, is_edit};
ghost use Rattle.send_commands.specs.Meaning.{meaning_of};
ghost use Rattle.sx_base.specs.Causes.{Rose};
ghost use Rattle.group_log.specs.Stopping.{IsFault};
ghost use Rattle.group_replay.specs.Stopping.{IfLog};
ghost use Rattle.store_journal.specs.Shown.{IsIdle, IsOpen};
ghost use Rattle.store_journal.specs.Reading.{HasSize};
ghost use Rattle.store_journal.specs.Holding.{Holds};

use clone_resolve::{Part, head_of};
use cmd_reader::canonical_command;
use group_log::LogStop;
use send_commands::Command;
use std::alloc::Global;
use std::process::Abort;
use store_journal::{Place, Store, StoreStop};
use subvol_catalog::Key;
use sx_base::Disk;

/// A frame without its header: the number of its command, and its attributes.
#[derive(Clone, Copy)]
pub(crate) struct Frame<'a> {
    pub(crate) cmd: u16,
    pub(crate) body: &'a [u8],
}

/// The frames of a part: their version, the head, and its edits.
#[derive(Clone, Copy)]
pub(crate) struct PartFrames<'a> {
    pub(crate) version: u32,
    pub(crate) head: &'a Frame<'a>,
    pub(crate) edits: &'a [Frame<'a>],
}

/// The store that a disk has, opened again. It has the subvolumes that it had, and nothing is at
/// fault.
pub(crate) fn open_again<D: Disk>(
    disk: &mut D,
    alloc: Global,
    store: &Store,
) -> Result<Store, StoreStop>
    ensures idle { IfOk result (IsIdle (D.len disk.new)) }
    ensures same { D.tells → (header : Header) (groups : List Group) →
        Holds header groups store.now (D.seen disk.old) (D.pending disk.old) →
        IfOk result (λ again. again.core ≡ store.now.core) }
    ensures fault { D.tells → (header : Header) (groups : List Group) →
        Holds header groups store.now (D.seen disk.old) (D.pending disk.old) →
        IfLog result (IsFault (Rose (D.faults disk.old) (D.faults disk.new))) }
{
    let _live = store.live();
    Store::open(disk, alloc)
}

/// Fills the buffer with the bytes of a file from a place on, and says whether it has so many.
pub(crate) fn read_back<D: Disk>(
    store: &Store,
    disk: &mut D,
    key: Key,
    ino: u64,
    at: u64,
    buf: &mut [u8],
) -> Result<bool, LogStop>
    requires { HasSize (D.len disk.old) store.now }
    ensures { D.len disk.new ≡ D.len disk.old }
{
    let sought = key;
    let len = store.file_len(sought, ino);
    if len < at {
        return Ok(false);
    }
    if len - at < buf.len() as u64 {
        return Ok(false);
    }
    store.read_range(disk, key, ino, at, buf)?;
    Ok(true)
}

// The command whose canonical spelling the frame is.
fn command_of<'a>(rt: &impl Abort, version: u32, frame: &Frame<'a>) -> Command<'a>
    requires { is_version version ≡ true }
    ensures { IsSpellable version (meaning_of result) }
{
    assert!(rt; frame.body.len() <= 262_144);
    let Some(command) = canonical_command(version, frame.cmd, frame.body) else {
        panic!(rt; "no canonical spelling")
    };
    command
}

// Whether a command edits a part.
#[tactic(auto, unfolding(send_commands::specs::Meaning::meaning_of))]
fn edits(command: &Command<'_>) -> bool
    ensures { result ≡ is_edit (meaning_of command.now) }
{
    match command {
        Command::End => false,
        Command::Subvol { .. } => false,
        Command::Snapshot { .. } => false,
        _ => true,
    }
}

// Begins the part of a head.
fn begin_one<D: Disk>(
    rt: &impl Abort,
    store: &mut Store,
    disk: &mut D,
    version: u32,
    frame: &Frame<'_>,
) -> Result<Part<Place>, StoreStop>
    requires idle { IsIdle (D.len disk.old) store.old }
    requires version { is_version version ≡ true }
    ensures still_open { IfOk result (λ part. IsOpen (D.len disk.new) part store.new) }
{
    let command = command_of(rt, 1, frame);
    assert!(rt; head_of(&command).is_some());
    store.begin(disk, &command, version)
}

// One edit of the open part, whose frame is of this version.
fn edit_one<D: Disk>(
    rt: &impl Abort,
    store: &mut Store,
    disk: &mut D,
    part: &mut Part<Place>,
    command: &Command<'_>,
    version: u32,
) -> Result<(), StoreStop>
    requires is_open { IsOpen (D.len disk.old) part.old store.old }
    requires spellable { IsSpellable version (meaning_of command.now) }
    ensures still_open { OnOk result (IsOpen (D.len disk.new) part.new store.new) }
{
    assert!(rt; edits(command));
    store.edit(disk, part, command, version)
}

/// Receives one part: a head and its edits.
pub(crate) fn receive_one<D: Disk>(
    rt: &impl Abort,
    store: &mut Store,
    disk: &mut D,
    frames: &PartFrames<'_>,
) -> Result<(), StoreStop>
    requires idle { IsIdle (D.len disk.old) store.old }
    requires version { is_version frames.now.version ≡ true }
    ensures idle { OnOk result (IsIdle (D.len disk.new) store.new) }
{
    let version = frames.version;
    let mut part = begin_one(rt, store, disk, version, frames.head)?;
    for edit in frames.edits {
        let command = command_of(rt, version, edit);
        edit_one(rt, store, disk, &mut part, &command, version)?;
    }
    store.complete(disk, part)?;
    Ok(())
}
