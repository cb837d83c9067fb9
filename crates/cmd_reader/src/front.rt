// The command of a frame.
ghost use Rattle.std.specs.Prelude.{◌≡◌, ◌≤◌, true, length, drop, IfOk, IfSome};
ghost use Rattle.send_model.specs.Attribute.{IsBytes};
ghost use Rattle.send_model.specs.Spelling.{greatest_body};
ghost use Rattle.send_model.specs.Reading.{is_version};
ghost use Rattle.send_model.specs.Lengths.{limit};
ghost use Rattle.send_commands.specs.Meaning.{meaning_of, kind_meant};
ghost use Rattle.send_commands.specs.Writing.{IsWritable};
ghost use Rattle.cmd_reader.specs.Commands.{ReadsCommand, CommandFits, FindsCanonical};
ghost use Rattle.cmd_reader.specs.Mentions.{ReadsMention, is_mention};
ghost use Rattle.cmd_reader.specs.Items.{ItemSays, GlanceSaid, StopAt};

use crate::fault::Fault;
use crate::item::{Glance, Item, ReadStop};
use crate::spelled::is_canonical;
use send_commands::{Command, Kind, decode, lawful_kind};
use sx_base::{Refusal, Verdict};
use tlv_frame::attribute_numbers::DATA;
use tlv_frame::{AttrTable, FRAME_HEAD_LEN};

/// A frame that a reader has gone past, of which nothing but its header was read.
#[derive(Debug, Clone, Copy)]
pub struct FrameAt {
    // The file, and the command's number in it, both counted from 1.
    pub(crate) file: u64,
    pub(crate) number: u64,
    // The place in the file of the frame's first byte.
    pub(crate) offset: u64,
    // The version of its stream.
    pub(crate) version: u32,
    // The number that says which command it is.
    pub(crate) cmd: u16,
}

// A command with what its frame says of it.
#[derive(Clone, Copy)]
pub(crate) struct Front<'a> {
    command: Command<'a>,
    // The place in the file of the first byte of its data, 0 where it has no data.
    data_at: u64,
    // Whether the frame has the wanted attributes alone, in rising order.
    canonical: bool,
}

// The body of a frame.
pub(crate) fn body_in(frame: &[u8]) -> &[u8]
    requires long { 10 ≤ length frame.now }
    ensures body { result.now ≡ drop 10 frame.now }
    ensures bytes { IsBytes frame.now }
{
    &frame[FRAME_HEAD_LEN..]
}

// The item that a frame is, by its body.
#[inline(always)]
pub(crate) fn item_in<'a>(frame: FrameAt, body: &'a [u8]) -> Result<Item<'a>, Verdict>
    requires place { frame.offset ≤ limit }
    requires short { length body.now ≤ greatest_body }
    requires version { is_version frame.version ≡ true }
    ensures says { ItemSays frame body.now result }
{
    match command_in(frame.offset, frame.version, frame.cmd, body) {
        Ok(front) => Ok(Item {
            command: front.command,
            number: frame.number,
            offset: frame.offset,
            data_at: front.data_at,
            version: frame.version,
            canonical: front.canonical,
        }),
        Err(refusal) => Err(Verdict {
            file: frame.file,
            command: frame.number,
            offset: frame.offset,
            refusal,
        }),
    }
}

// What is seen of the command that a frame is, by its body.
pub(crate) fn glance_in<'a>(frame: FrameAt, body: &'a [u8]) -> Result<Glance<'a>, Verdict>
    requires short { length body.now ≤ greatest_body }
    ensures says { GlanceSaid frame body.now result }
{
    match mention_in(frame.version, frame.cmd, body) {
        Ok(mention) => Ok(Glance {
            mention,
            version: frame.version,
        }),
        Err(refusal) => Err(Verdict {
            file: frame.file,
            command: frame.number,
            offset: frame.offset,
            refusal,
        }),
    }
}

// The answer that no command was read, for a fault at this place.
pub(crate) fn stop_at(file: u64, number: u64, offset: u64, fault: Fault) -> ReadStop
    ensures stop { StopAt file number offset fault result }
{
    match fault {
        Fault::Refused(refusal) => ReadStop::Refused(Verdict {
            file,
            command: number,
            offset,
            refusal,
        }),
        Fault::InputFault => ReadStop::InputFault,
        Fault::InputTooLong => ReadStop::InputTooLong,
    }
}

// The command of a number whose attributes are these, in a frame at the place, and the place of
// its data.
#[inline(always)]
fn command_in<'a>(at: u64, version: u32, cmd: u16, body: &'a [u8]) -> Result<Front<'a>, Refusal>
    requires place { at ≤ limit }
    requires short { length body.now ≤ greatest_body }
    requires version { is_version version ≡ true }
    ensures fits { IfOk result (CommandFits version body.now) }
    ensures read { ReadsCommand at version cmd body.now result }
{
    let mut table = AttrTable::new(version);
    match table.read(body) {
        Ok(()) => {}
        Err(refusal) => return Err(refusal),
    }
    let data_at = match table.place(DATA) {
        Some(place) => at + FRAME_HEAD_LEN as u64 + place as u64,
        None => 0,
    };
    let canonical = is_canonical(version, cmd, &table, body.len());
    match decode(cmd, &table) {
        Ok(command) => Ok(Front {
            command,
            data_at,
            canonical,
        }),
        Err(refusal) => Err(refusal),
    }
}

/// The command whose canonical spelling a frame with this number and body is; `None` exactly where
/// there is none. The command is not spelled again. Takes no memory.
pub fn canonical_command<'a>(version: u32, cmd: u16, body: &'a [u8]) -> Option<Command<'a>>
    requires short { length body.now ≤ greatest_body }
    requires version { is_version version ≡ true }
    ensures found { FindsCanonical version cmd body.now result }
{
    match command_in(0, version, cmd, body) {
        Ok(front) => {
            if front.canonical {
                Some(front.command)
            } else {
                None
            }
        }
        Err(_) => None,
    }
}

// The command of a number whose attributes are these, where it begins a part or names a key.
fn mention_in<'a>(version: u32, cmd: u16, body: &'a [u8]) -> Result<Option<Command<'a>>, Refusal>
    requires short { length body.now ≤ greatest_body }
    ensures writable { IfOk result
        (λ mention. IfSome mention (λ command. IsWritable version (meaning_of command))) }
    ensures read { ReadsMention version cmd body.now result }
{
    let mut table = AttrTable::new(version);
    match table.read(body) {
        Ok(()) => {}
        Err(refusal) => return Err(refusal),
    }
    let kind = match lawful_kind(cmd, &table) {
        Ok(kind) => kind,
        Err(refusal) => return Err(refusal),
    };
    if !is_mention(kind) {
        return Ok(None);
    }
    match decode(cmd, &table) {
        Ok(command) => Ok(Some(command)),
        Err(refusal) => Err(refusal),
    }
}

// Whether a command of this kind begins a part or names a key.
fn is_mention(kind: Kind) -> bool
    ensures { result ≡ is_mention (kind_meant kind) }
{
    match kind {
        Kind::Subvol => true,
        Kind::Snapshot => true,
        Kind::Clone => true,
        _ => false,
    }
}
