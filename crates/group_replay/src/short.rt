// Groups that a window has whole: a head, or a name that is dropped.
ghost use Rattle.std.specs.Prelude.{◌≡◌, ◌≢◌, ◌↔◌, ℕ, ◌+◌, ◌≤◌, Some, None, true, length, IfOk, IsTrue, if◌then◌else◌};
ghost use Rattle.std.specs.Int.{w32, to_le_bytes};
ghost use Rattle.std.specs.Str.{bytes_eq};
ghost use Rattle.send_model.specs.Checksum.{crc_of};
ghost use Rattle.send_commands.specs.Meaning.{meaning_of};
ghost use Rattle.store_model.specs.Stored.{marked};
ghost use Rattle.group_replay.specs.Kept.{AreKept};
ghost use Rattle.group_replay.specs.Contents.{TakesBehind, TakesContent, seal_len};
ghost use Rattle.group_replay.specs.declared.kinds.Kind.TheVariants as kind_is;

use crate::front::front_of;
use crate::kinds::{Kind, Tag, seal_len};
use crate::place::Place;
use clone_resolve::{EditCore, head_of};
use crc32c_part::update;
use send_commands::Command;
use std::alloc::AllocError;
use sx_base::Stop;

// Takes a group that has no edits. False where it is at fault.
pub(crate) fn take_short(
    core: &mut EditCore<Place>,
    tag: Tag,
    body: &[u8],
) -> Result<bool, AllocError>
    requires kind { tag.kind ≢ kind_is.Body }
    requires long { 1 + seal_len tag.is_sealed ≤ length body.now }
    ensures taken { (at : ℕ) → IfOk result (TakesBehind tag at body.now core.old core.new) }
    ensures kept { (end : ℕ) → AreKept end core.old →
        IfOk result (λ t. t ≡ true → AreKept end core.new) }
{
    let (front, last) = body.split_at(body.len() - seal_len(tag.is_sealed) as usize);
    if !is_right(tag.is_sealed, front, last) {
        return Ok(false);
    }
    take_content(core, tag.kind, &front[1..])
}

// Whether the checksum behind bytes is theirs, if they have one.
fn is_right(is_sealed: bool, front: &[u8], last: &[u8]) -> bool
    ensures { IsTrue result
        ↔ (is_sealed ≡ true → last.now ≡ to_le_bytes w32 (crc_of 0 front.now)) }
{
    !is_sealed || is_sum(last, update(0, front))
}

// Takes what such a group says.
fn take_content(core: &mut EditCore<Place>, kind: Kind, content: &[u8]) -> Result<bool, AllocError>
    requires kind { kind ≢ kind_is.Body }
    ensures taken { (at : ℕ) →
        IfOk result (TakesContent kind at content.now core.old core.new) }
    ensures kept { (end : ℕ) → AreKept end core.old →
        IfOk result (λ t. t ≡ true → AreKept end core.new) }
{
    match kind {
        Kind::Mark => take_mark(core, content),
        Kind::Drop => Ok(core.drop_name(content)),
        Kind::Body => unreachable!(),
    }
}

// Takes a head, whose frame these bytes are. False where they are that of no head or it is refused.
fn take_mark(core: &mut EditCore<Place>, bytes: &[u8]) -> Result<bool, AllocError>
    ensures taken { (at : ℕ) →
        IfOk result (TakesContent kind_is.Mark at bytes.now core.old core.new) }
    ensures kept { (end : ℕ) → AreKept end core.old →
        IfOk result (λ t. t ≡ true → AreKept end core.new) }
{
    let Some(front) = front_of(1, bytes) else {
        return Ok(false);
    };
    if front.len != bytes.len() {
        return Ok(false);
    }
    begin_marked(core, &front.command)
}

// Begins the entry of a head. False where the command is none or is refused.
fn begin_marked(core: &mut EditCore<Place>, command: &Command<'_>) -> Result<bool, AllocError>
    ensures begun { IfOk result (λ t. marked core.old (meaning_of command.now)
        ≡ (if t then Some core.new else None)) }
    ensures kept { (end : ℕ) → AreKept end core.old →
        IfOk result (λ t. t ≡ true → AreKept end core.new) }
{
    if !head_of(command).is_some() {
        return Ok(false);
    }
    match core.begin(command) {
        Ok(_part) => Ok(true),
        Err(Stop::NoMemory) => Err(AllocError),
        Err(Stop::Refused(_)) => Ok(false),
    }
}

// Whether bytes are those of a checksum.
pub(crate) fn is_sum(bytes: &[u8], sum: u32) -> bool
    ensures { result ≡ bytes_eq bytes.now (to_le_bytes w32 sum) }
{
    bytes == sum.to_le_bytes().as_slice()
}
