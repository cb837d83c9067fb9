// Edits of a part that is taken up again.
ghost use Rattle.std.specs.Prelude.{◌≡◌, ℕ, ◌+◌, ◌^◌, ◌<◌, true, length, IfOk, IfSome, is_some};
ghost use Rattle.std.specs.Option.{option_map};
ghost use Rattle.send_model.specs.Spelling.{canonical, IsSpellable};
ghost use Rattle.send_model.specs.Reading.{is_version};
ghost use Rattle.store_model.specs.Stored.{is_edit, resumed, unfinished_at};
ghost use Rattle.send_commands.specs.Meaning.{meaning_of};
ghost use Rattle.group_replay.specs.Taking.{open_state};
ghost use Rattle.group_replay.specs.Kept.{IsKept, AreKept};
ghost use Rattle.group_replay.specs.Edits.{TakesEdit, TakesFront};

use crate::front::{Front, front_of};
use crate::place::Place;
use clone_resolve::{EditCore, Part};
use send_commands::{Command, data_place};
use std::alloc::AllocError;
use sx_base::Stop;
use uuid::Uuid;

// Takes the edit whose frame is in front of the bytes, which stand at a place, and says how long
// the frame is. None where it is at fault.
pub(crate) fn take_front(
    core: &EditCore<Place>,
    part: &mut Part<Place>,
    version: u32,
    at: u64,
    bytes: &[u8],
) -> Result<Option<usize>, AllocError>
    requires version { is_version version ≡ true }
    requires room { at + length bytes.now < 2 ^ 64 }
    ensures key { part.new.key ≡ part.old.key }
    ensures taken { IfOk result (TakesFront version at bytes.now (open_state core.now part.old)
        (open_state core.now part.new)) }
    ensures kept { AreKept at core.now → IsKept at part.old.subvolume →
        IfOk result (λ o. IfSome o (λ len. IsKept (at + len) part.new.subvolume)) }
{
    let Some(front) = front_of(version, bytes) else {
        return Ok(None);
    };
    if take_edit(core, part, version, at, &front)? {
        Ok(Some(front.len))
    } else {
        Ok(None)
    }
}

// Takes one edit whose frame stands at a place. False where it is no edit or is refused.
fn take_edit(
    core: &EditCore<Place>,
    part: &mut Part<Place>,
    version: u32,
    at: u64,
    front: &Front<'_>,
) -> Result<bool, AllocError>
    requires spellable { IsSpellable version (meaning_of front.now.command) }
    requires room { at + length (canonical version (meaning_of front.now.command)) < 2 ^ 64 }
    ensures key { part.new.key ≡ part.old.key }
    ensures taken { IfOk result (λ t. TakesEdit t version at (meaning_of front.now.command)
        (open_state core.now part.old) (open_state core.now part.new)) }
    ensures kept { AreKept at core.now → IsKept at part.old.subvolume →
        IfOk result (λ t. t ≡ true →
        IsKept (at + length (canonical version (meaning_of front.now.command)))
        part.new.subvolume) }
{
    if !is_edit(&front.command) {
        return Ok(false);
    }
    let place = Place {
        at: at + data_place(&front.command, version).unwrap_or(0),
    };
    match core.edit(part, &front.command, place) {
        Ok(()) => Ok(true),
        Err(Stop::NoMemory) => Err(AllocError),
        Err(Stop::Refused(_)) => Ok(false),
    }
}

// Whether a command edits a part.
fn is_edit(command: &Command<'_>) -> bool
    ensures { result ≡ is_edit (meaning_of command.now) }
{
    match command {
        Command::End => false,
        Command::Subvol { .. } => false,
        Command::Snapshot { .. } => false,
        _ => true,
    }
}

// The part of the unfinished entry of a UUID as it begins now. None where there is no such entry,
// or its parent is not found.
pub(crate) fn resumed(core: &EditCore<Place>, uuid: Uuid) -> Result<Option<Part<Place>>, AllocError>
    ensures resumed { IfOk result
        (λ part. option_map (open_state core.now) part ≡ resumed core.now uuid) }
    ensures kept { (end : ℕ) → AreKept end core.now →
        IfOk result (λ part. IfSome part (λ p. IsKept end p.subvolume)) }
{
    if !is_unfinished(core, uuid) {
        return Ok(None);
    }
    match core.resume(uuid) {
        Ok(part) => Ok(Some(part)),
        Err(Stop::NoMemory) => Err(AllocError),
        Err(Stop::Refused(_)) => Ok(None),
    }
}

// Whether there is an unfinished entry of a UUID.
fn is_unfinished(core: &EditCore<Place>, uuid: Uuid) -> bool
    ensures { result ≡ is_some (unfinished_at uuid core.now) }
{
    core.unfinished_at(uuid).is_some()
}
