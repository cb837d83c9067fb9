// The attributes of a frame, found by their numbers.
ghost use Rattle.std.specs.Prelude.{◌≡◌, length, replicate, IfOk, IfSome, option_map};
ghost use Rattle.send_model.specs.Attribute.{HasRoom, last_attribute, takes_rest};
ghost use Rattle.send_model.specs.Reading.{attributes_at, attribute_head};
ghost use Rattle.sx_base.specs.Answers.{Reads};
ghost use Rattle.tlv_frame.specs.Table.{Table, ReadsTable, TakesBody, FillsSlots, absent, no_attributes, value_at, place_at};
ghost use Rattle.tlv_frame.specs.Front.{front_at};

use crate::attribute_numbers::{CLONE_LEN, DATA, ENCRYPTION};
use std::marker::Model;
use sx_base::Refusal;

// How many slots a table has: one for each attribute number up to the last of version 2, 31.
const SLOTS: usize = 32;

// Where the bytes of an attribute stand in the body: the place of the first of them, and how many
// they are. A header stands before them, so 0 is the place of none.
#[derive(Debug, Clone, Copy)]
struct Slot {
    place: usize,
    len: usize,
}

// That of an attribute that the body does not have.
const ABSENT: Slot = Slot { place: 0, len: 0 };

/// The attributes of a frame's body, which it borrows. It is seen as its slots with the version of
/// the stream.
#[derive(Debug, Drop)]
pub struct AttrTable<'a> {
    version: u32,
    body: &'a [u8],
    slots: [Slot; SLOTS],
}

impl<'a> Model for AttrTable<'a> {
    ghost use Rattle.std.specs.Prelude.{map};
    ghost use Rattle.tlv_frame.specs.Table.{Table, slot_in, AreIn, IsWhole};

    ghost Value = { Table };

    ghost view = { λ t. record { version = t.version; slots = map (slot_in t.body.now) t.slots } };

    ghost invariant = { λ t. IsWhole t.version (map (slot_in t.body.now) t.slots)
        × AreIn t.body.now t.slots };
}

impl<'a> AttrTable<'a> {
    /// A table of no attributes, for bodies of a stream of this version.
    #[inline(always)]
    pub fn new(version: u32) -> AttrTable<'a>
        ensures none { result ≡ no_attributes version }
    {
        AttrTable {
            version,
            body: &[],
            slots: [ABSENT; SLOTS],
        }
    }

    /// Takes the attributes of a frame's body in place of those it has. The table stays where it
    /// is, so that nothing is copied.
    ///
    /// # Errors
    /// Those of `attrs`. The table then has no attributes.
    #[inline(always)]
    pub fn read(&mut self, body: &'a [u8]) -> Result<(), Refusal>
        ensures exact { TakesBody self.old.version self.new result
            (attributes_at self.old.version body.now) }
    {
        self.body = body;
        self.slots = [ABSENT; SLOTS];
        match fill(&mut self.slots, body, self.version) {
            Ok(()) => Ok(()),
            Err(refusal) => {
                self.slots = [ABSENT; SLOTS];
                Err(refusal)
            }
        }
    }

    /// The bytes of the attribute of this number, None where the body has none. They are fewer than
    /// 65,536, but for DATA in version 2.
    pub fn get(&self, kind: u16) -> Option<&'a [u8]>
        ensures value { option_map (λ bytes. bytes.now) result ≡ value_at self.now kind }
        ensures short { IfSome result (λ bytes. HasRoom self.now.version kind (length bytes.now)) }
    {
        match self.slots.get(kind as usize) {
            Some(slot) if slot.place > 0 => Some(&self.body[slot.place..slot.place + slot.len]),
            _ => None,
        }
    }

    /// The place in the body of the first byte of the attribute of this number, None where the body
    /// has none.
    pub fn place(&self, kind: u16) -> Option<usize>
        ensures place { result ≡ place_at self.now kind }
    {
        match self.slots.get(kind as usize) {
            Some(slot) if slot.place > 0 => Some(slot.place),
            _ => None,
        }
    }

    /// The version of the stream that the attributes stand in.
    pub fn version(&self) -> u32
        ensures version { result ≡ self.now.version }
    {
        self.version
    }
}

/// The attributes of a frame's body. BadAttribute with the attribute's number, 0 where it has none,
/// for the first that is not whole, has no number of this version, or stands for the second time.
/// Takes no memory. Source: struct btrfs_tlv_header in send.h of btrfs-progs, and read_cmd in
/// send-stream.c.
pub fn attrs(body: &[u8], version: u32) -> Result<AttrTable<'_>, Refusal>
    ensures exact { ReadsTable result (attributes_at version body.now) }
    ensures kept { IfOk result (λ table. table.version ≡ version) }
{
    let mut table = AttrTable::new(version);
    match table.read(body) {
        Ok(()) => Ok(table),
        Err(refusal) => Err(refusal),
    }
}

// Sets the slots, of which none has an attribute, to those of the attributes of a body.
#[inline(always)]
fn fill(slots: &mut [Slot; SLOTS], body: &[u8], version: u32) -> Result<(), Refusal>
    requires none { slots.old ≡ replicate 32 absent }
    ensures exact { FillsSlots version body.now slots.new result (attributes_at version body.now) }
{
    let mut at = 0;
    while at < body.len() {
        let (kind, bytes) = front(&body[at..], version)?;
        if slots[kind as usize].place > 0 {
            return Err(Refusal::BadAttribute(kind));
        }
        let place = at + attr_head_len(version, kind);
        let len = bytes.len();
        slots[kind as usize] = Slot { place, len };
        at = place + len;
    }
    Ok(())
}

// The number and the bytes of the attribute in front.
#[tactic(auto, unfolding(crate::specs::Front::front_at, send_model::specs::Reading::number16))]
fn front(rest: &[u8], version: u32) -> Result<(u16, &[u8]), Refusal>
    ensures exact { Reads (λ a. record { kind = a.0; bytes = a.1.now }) result
        (front_at version rest.now) }
    ensures short { IfOk result (λ a. HasRoom version a.0 (length a.1.now)) }
{
    if rest.len() < 2 {
        return Err(Refusal::BadAttribute(0));
    }
    let kind = u16::from_le_bytes([rest[0], rest[1]]);
    if kind == 0 || kind > last_number(version) {
        return Err(Refusal::BadAttribute(kind));
    }
    if has_no_length(version, kind) {
        return Ok((kind, &rest[2..]));
    }
    if rest.len() < 4 {
        return Err(Refusal::BadAttribute(kind));
    }
    let len = u16::from_le_bytes([rest[2], rest[3]]) as usize;
    if len > rest.len() - 4 {
        return Err(Refusal::BadAttribute(kind));
    }
    Ok((kind, &rest[4..4 + len]))
}

// The greatest attribute number of a version.
fn last_number(version: u32) -> u16
    ensures { result ≡ last_attribute version }
{
    if version == 1 { CLONE_LEN } else { ENCRYPTION }
}

// Whether the bytes of an attribute are the rest of the body, since it has no length.
pub(crate) fn has_no_length(version: u32, kind: u16) -> bool
    ensures { result ≡ takes_rest version kind }
{
    version == 2 && kind == DATA
}

/// How many bytes stand before those of an attribute in a body: its number, and its length where it
/// has one.
pub fn attr_head_len(version: u32, kind: u16) -> usize
    ensures { result ≡ attribute_head version kind }
{
    if has_no_length(version, kind) { 2 } else { 4 }
}
