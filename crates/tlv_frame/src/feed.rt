// The bytes of a file, given in pieces.
ghost use Rattle.std.specs.Prelude.{◌≡◌, ◌+◌, ◌-◌, ◌≤◌, length, take, drop, min, vec_capacity, true, None, IfOk};
ghost use Rattle.std.specs.Borrow.{sem};
ghost use Rattle.std.specs.Io.BufRead.{Rests};
ghost use Rattle.send_model.specs.Reading.{HeaderDue, CommandDue, is_version};
ghost use Rattle.tlv_frame.specs.Feeding.{Hands, Passes, IfPassed, PassedDue, room, unfed, next_of, fed_after, fed_with, is_whole, due_of, due_past as due_of_next, VersionIs};

use crate::frame_head::FrameHead;
use crate::in_front::{FRAME_HEAD_LEN, HEADER_LEN, frame_in, head_in};
use crate::stream_head::StreamHead;
use std::alloc::{AllocError, Global};
use std::marker::Model;
use sx_base::Refusal;

// How many bytes a feed keeps at the most.
const ROOM: usize = 524_288;

// The number of the command that ends a stream.
const END: u16 = 21;

/// What a feed hands out.
#[derive(Debug, Clone, Copy)]
pub enum Unit<'a> {
    /// The header of a stream.
    Head(StreamHead),
    /// A frame whose checksum is right: its header, and its body, which stands in the feed.
    Frame { head: FrameHead, body: &'a [u8] },
}

/// What a feed has gone past. Its bytes are then the last ones of the feed.
#[derive(Debug, Clone, Copy)]
pub enum Passed {
    /// The header of a stream.
    Head(StreamHead),
    /// A frame of a stream of the version, whose checksum is right: its header.
    Frame { head: FrameHead, version: u32 },
}

/// The bytes of a file that is given in pieces of any size, and handed out as headers and frames.
/// It is seen as the bytes that were not handed out yet, with what is due and how the last unit
/// ended.
#[derive(Debug, Drop)]
pub struct Feed {
    bytes: Vec<u8>,
    // Where the last unit begins, and where it ends: there the bytes begin that were not handed
    // out.
    last: usize,
    start: usize,
    due: Option<u32>,
    ended: bool,
    refused: Option<Refusal>,
}

impl Model for Feed {
    ghost use Rattle.std.specs.Prelude.{take, drop, vec_len, vec_capacity, option_map};
    ghost use Rattle.sx_base.specs.Refusals.{refusal_of};
    ghost use Rattle.tlv_frame.specs.Feeding.{Fed, due_of, IsFeed};

    ghost Value = { Fed };

    ghost view = { λ f. record {
      left = drop f.start f.bytes.items;
      last = drop f.last (take f.start f.bytes.items);
      due = due_of f.due;
      ended = f.ended;
      refused = option_map refusal_of f.refused;
    } };

    ghost invariant = { λ f. IsFeed (vec_capacity f.bytes) (vec_len f.bytes) f.last f.start f.due };
}

impl Feed {
    ghost use Rattle.tlv_frame.specs.contracts.feed.Feed.{the_row};

    /// A feed at the start of a file, with room for 524,288 bytes. No later call takes memory.
    pub fn new(alloc: Global) -> Result<Feed, AllocError>
        ensures empty { IfOk result (λ feed. feed ≡ unfed) }
    {
        Ok(Feed {
            bytes: Vec::with_capacity(alloc, ROOM)?,
            last: 0,
            start: 0,
            due: None,
            ended: false,
            refused: None,
        })
    }

    /// Takes as many of the bytes as there is room for, and gives their number. There is room for
    /// 524,288 bytes less those that stand in no unit that was handed out. Takes no memory.
    pub fn give(&mut self, piece: &[u8]) -> usize
        ensures count { result ≡ min (length piece.now) (room - length self.old.left) }
        ensures taken { self.new ≡ fed_with (take result piece.now) self.old }
    {
        let left = self.bytes.len() - self.start;
        let count = piece.len().min(ROOM - left);
        if self.bytes.capacity() - self.bytes.len() < count {
            remove_front(&mut self.bytes, self.start);
            self.start = 0;
        }
        self.last = self.start;
        let Ok(()) = self.bytes.extend_from_slice(&piece[..count]) else {
            unreachable!()
        };
        count
    }

    /// The next header, or the next frame with its checksum right, in place. None exactly where the
    /// bytes that are left are cut short: a header is due and there are fewer than 17, or a frame
    /// is due and there are fewer than ten, or fewer than its header says. Refused as the
    /// definitions of reading refuse a header or a checksum, and then always with this refusal.
    /// Takes no memory.
    pub fn next(&mut self) -> Result<Option<Unit<'_>>, Refusal>
        ensures* after { sem 𝓛 (Rests the_row self.entry (λ new. new ≡ fed_after self.old)) }
        ensures answer { Hands (next_of self.old) result }
    {
        match self.pass() {
            Ok(Some(Passed::Head(head))) => Ok(Some(Unit::Head(head))),
            Ok(Some(Passed::Frame { head, .. })) => {
                let body = &self.bytes.as_slice()[self.last + FRAME_HEAD_LEN..self.start];
                Ok(Some(Unit::Frame { head, body }))
            }
            Ok(None) => Ok(None),
            Err(refusal) => Err(refusal),
        }
    }

    /// The bytes of the unit that was handed out last, none where bytes were given since. Takes no
    /// memory.
    pub fn last(&self) -> &[u8]
        ensures bytes { result.now ≡ self.now.last }
    {
        &self.bytes.as_slice()[self.last..self.start]
    }

    // The bytes that were not handed out.
    fn left(&self) -> &[u8]
        ensures bytes { result.now ≡ self.now.left }
    {
        &self.bytes.as_slice()[self.start..]
    }

    /// Goes past what `next` would hand out, and gives None and the refusals that `next` would
    /// give. Takes no memory.
    pub fn pass(&mut self) -> Result<Option<Passed>, Refusal>
        ensures after { self.new ≡ fed_after self.old }
        ensures answer { Passes self.new (next_of self.old) result }
        ensures due { IfPassed result (PassedDue self.old.due) }
    {
        if let Some(refusal) = self.refused {
            return Err(refusal);
        }
        match self.due {
            None => self.pass_head(),
            Some(version) => self.pass_frame(version),
        }
    }

    // Goes past a header.
    fn pass_head(&mut self) -> Result<Option<Passed>, Refusal>
        requires due { self.old.due ≡ HeaderDue }
        requires good { self.old.refused ≡ None }
        ensures after { self.new ≡ fed_after self.old }
        ensures answer { Passes self.new (next_of self.old) result }
        ensures due { IfPassed result (PassedDue self.old.due) }
    {
        match head_in(self.left()) {
            Ok(None) => Ok(None),
            Ok(Some(head)) => {
                self.last = self.start;
                self.start += HEADER_LEN;
                self.due = Some(head.version);
                self.ended = false;
                Ok(Some(Passed::Head(head)))
            }
            Err(refusal) => {
                self.refused = Some(refusal);
                Err(refusal)
            }
        }
    }

    // Goes past a frame of a stream of the version.
    fn pass_frame(&mut self, version: u32) -> Result<Option<Passed>, Refusal>
        requires known { is_version version ≡ true }
        requires due { self.old.due ≡ CommandDue version }
        requires good { self.old.refused ≡ None }
        ensures after { self.new ≡ fed_after self.old }
        ensures answer { Passes self.new (next_of self.old) result }
        ensures due { IfPassed result (PassedDue self.old.due) }
    {
        match frame_in(self.left()) {
            Ok(None) => Ok(None),
            Ok(Some(head)) => {
                self.last = self.start;
                self.start += FRAME_HEAD_LEN + head.len as usize;
                self.due = due_past(version, head.cmd);
                self.ended = head.cmd == END;
                Ok(Some(Passed::Frame { head, version }))
            }
            Err(refusal) => {
                self.refused = Some(refusal);
                Err(refusal)
            }
        }
    }

    /// Whether an END was the last unit and no byte is left. Takes no memory.
    pub fn whole(&self) -> bool
        ensures whole { result ≡ is_whole self.now }
    {
        self.ended && self.bytes.len() == self.start
    }
}

// What is due after a frame of a command of a stream of the version.
#[tactic(auto, unfolding(send_model::specs::Command::row))]
fn due_past(version: u32, cmd: u16) -> Option<u32>
    requires known { is_version version ≡ true }
    ensures due { due_of result ≡ due_of_next version cmd }
    ensures known { VersionIs result }
{
    if cmd == END { None } else { Some(version) }
}

// Takes the first bytes away, and keeps the room for them.
fn remove_front(bytes: &mut Vec<u8>, count: usize)
    requires within { count ≤ length bytes.old.items }
    ensures items { bytes.new.items ≡ drop count bytes.old.items }
    ensures capacity { vec_capacity bytes.new ≡ vec_capacity bytes.old }
{
    let len = bytes.len();
    bytes.as_mut_slice().copy_within(count..len, 0);
    bytes.truncate(len - count);
}
