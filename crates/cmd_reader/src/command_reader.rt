// Reading commands one at a time.
ghost use Rattle.std.specs.Prelude.{◌≡◌, ◌≤◌, drop, IfOk};
ghost use Rattle.cmd_reader.specs.Places.{IfTold};
ghost use Rattle.sx_base.specs.Later.{ReadsOn};
ghost use Rattle.cmd_reader.specs.Left.{Reader, at_start, HasAhead, read_to};
ghost use Rattle.cmd_reader.specs.Next.{IfItem};
ghost use Rattle.cmd_reader.specs.Items.{ItemSays, GlanceSaid};
ghost use Rattle.cmd_reader.specs.Frames.{FrameFits, StepSays, FrameSays, Halts, StepHalts};
ghost use Rattle.send_model.specs.Attribute.{IsBytes};
ghost use Rattle.cmd_reader.specs.Steadiness.{UnlessFailed, UnlessStepFailed};

use crate::fault::Fault;
use crate::front::{FrameAt, body_in, glance_in, item_in, stop_at};
use crate::item::{Glance, Item, ReadStop};
use crate::source::Source;
use std::alloc::{AllocError, Global};
use std::marker::Model;
use sx_base::{Inputs, Refusal, Verdict};
use tlv_frame::Passed;

/// Reads the commands of one file in order, one for each call. It is seen as its place in the
/// file, with the bytes that it was given from there on. It asks the inputs for 65,536 bytes at a
/// time, each time from where the last ones ended, and only where it has no whole header or frame.
/// Once made, it takes no memory.
#[derive(Debug, Drop)]
pub struct CmdReader {
    file: u64,
    number: u64,
    source: Source,
}

impl Model for CmdReader {
    ghost use Rattle.std.specs.String.{string_bytes};
    ghost use Rattle.cmd_reader.specs.Left.{Reader, IsReader};

    ghost Value = { Reader };

    ghost view = { λ r. record { file = r.file; name = string_bytes r.source.name; number = r.number; offset = r.source.at; fed = r.source.feed } };

    ghost invariant = { λ r. IsReader r.source r.number };
}

impl CmdReader {
    /// A reader at the start of the named file, which is the given one of several, counted from 1.
    pub fn new(alloc: Global, file: u64, name: &str) -> Result<CmdReader, AllocError>
        ensures start { IfOk result (λ r. r ≡ at_start file name.now) }
    {
        let source = Source::new(alloc, name)?;
        Ok(CmdReader {
            file,
            number: 1,
            source,
        })
    }

    /// Goes past the next frame, whose command `item` and `glance` read, or answers `None` where
    /// the file ends after END. Where the inputs tell, they are those that gave the reader its
    /// bytes, and it has not stopped before. Whatever it answers, it has gone past headers, and
    /// past one frame only where it gives one.
    ///
    /// # Errors
    /// `Refused`, with the place, exactly where the bytes break a rule of reading before a frame's
    /// body; `InputFault` only where the inputs count another fault; `InputTooLong` exactly where
    /// the file has 2^62 bytes or more and what is left of the first 2^62 ends at once, whole or
    /// cut short.
    pub fn advance<I: Inputs>(&mut self, inputs: &mut I) -> Result<Option<FrameAt>, ReadStop>
        requires ahead { IfTold (I.told inputs.old) self.old.name (HasAhead self.old) }
        ensures same { I.told inputs.new ≡ I.told inputs.old }
        ensures later { I.faults inputs.old ≤ I.faults inputs.new }
        ensures steady { UnlessFailed result (I.faults inputs.new ≡ I.faults inputs.old) }
        ensures ends_later { I.ends inputs.old ≤ I.ends inputs.new }
        ensures ends_steady { UnlessFailed result (I.ends inputs.new ≡ I.ends inputs.old) }
        ensures asked { ReadsOn I.Inputs inputs.old inputs.new self.old.name
            (read_to self.old) (read_to self.new) }
        ensures file { self.new.file ≡ self.old.file }
        ensures name { self.new.name ≡ self.old.name }
        ensures fits { IfItem result (FrameFits self.new) }
        ensures says { FrameSays (I.told inputs.old) self.old self.new
            (I.faults inputs.old) (I.faults inputs.new) result }
        ensures halts { Halts self.old self.new result }
    {
        loop {
            match self.step(inputs) {
                Some(answer) => return answer,
                None => {}
            }
        }
    }

    /// The command of the frame that was gone past last. Takes no memory: the bytes of the command
    /// stand in the reader.
    ///
    /// # Errors
    /// The first rule of reading that the frame's body breaks, at the place of the frame.
    pub fn item(&self, frame: FrameAt) -> Result<Item<'_>, Verdict>
        requires fits { FrameFits self.now frame }
        ensures says { ItemSays frame (drop 10 self.now.fed.last) result }
        ensures bytes { IsBytes self.now.fed.last }
    {
        item_in(frame, body_in(self.last_frame()))
    }

    /// What is seen of that command: no command is made but one that begins a part or names a key.
    /// Takes no memory.
    ///
    /// # Errors
    /// Those of `item`.
    pub fn glance(&self, frame: FrameAt) -> Result<Glance<'_>, Verdict>
        requires fits { FrameFits self.now frame }
        ensures says { GlanceSaid frame (drop 10 self.now.fed.last) result }
    {
        glance_in(frame, body_in(self.last_frame()))
    }

    /// The bytes of the frame that was gone past last, as they stand in the file: from the item's
    /// place on up to where the reader stands. Takes no memory.
    pub fn last_frame(&self) -> &[u8]
        ensures bytes { result.now ≡ self.now.fed.last }
    {
        self.source.feed.last()
    }

    // Goes past the next header or frame. None where it was a header.
    fn step<I: Inputs>(&mut self, inputs: &mut I) -> Option<Result<Option<FrameAt>, ReadStop>>
        requires ahead { IfTold (I.told inputs.old) self.old.name (HasAhead self.old) }
        ensures same { I.told inputs.new ≡ I.told inputs.old }
        ensures later { I.faults inputs.old ≤ I.faults inputs.new }
        ensures steady { UnlessStepFailed result (I.faults inputs.new ≡ I.faults inputs.old) }
        ensures ends_later { I.ends inputs.old ≤ I.ends inputs.new }
        ensures ends_steady { UnlessStepFailed result (I.ends inputs.new ≡ I.ends inputs.old) }
        ensures asked { ReadsOn I.Inputs inputs.old inputs.new self.old.name
            (read_to self.old) (read_to self.new) }
        ensures file { self.new.file ≡ self.old.file }
        ensures name { self.new.name ≡ self.old.name }
        ensures says { StepSays (I.told inputs.old) self.old self.new
            (I.faults inputs.old) (I.faults inputs.new) result }
        ensures halts { StepHalts self.old self.new result }
    {
        let number = self.number;
        let offset = self.source.at;
        let unit = match self.source.pass(inputs) {
            Ok(Some(unit)) => unit,
            Ok(None) => {
                if self.source.feed.whole() {
                    return Some(Ok(None));
                }
                let cut = Fault::Refused(Refusal::Truncated);
                return Some(Err(stop_at(self.file, number, offset, cut)));
            }
            Err(fault) => return Some(Err(stop_at(self.file, number, offset, fault))),
        };
        match unit {
            Passed::Head(_) => None,
            Passed::Frame { head, version } => {
                self.number += 1;
                Some(Ok(Some(FrameAt {
                    file: self.file,
                    number,
                    offset,
                    version,
                    cmd: head.cmd,
                })))
            }
        }
    }
}
