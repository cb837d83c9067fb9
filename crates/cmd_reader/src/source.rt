// The bytes of a file as headers and frames, read piece by piece.
ghost use Rattle.std.specs.Prelude.{◌≡◌, ◌+◌, ◌<◌, ◌≤◌, length, None, Ok, IfOk};
ghost use Rattle.std.specs.String.{string_bytes};
ghost use Rattle.tlv_frame.specs.Feeding.{unfed, next_of};
ghost use Rattle.send_model.specs.Lengths.{limit};
ghost use Rattle.sx_base.specs.Asks.{came};
ghost use Rattle.sx_base.specs.Later.{ReadsOn};
ghost use Rattle.sx_base.specs.Outside.{GivesAt};
ghost use Rattle.cmd_reader.specs.Sources.{IsSource, SourceAhead, SourcePasses, MoreSays, unit_len, IsInputFault};
ghost use Rattle.cmd_reader.specs.Steadiness.{UnlessErr};

use crate::fault::Fault;
use std::alloc::{AllocError, Global};
use sx_base::Inputs;
use tlv_frame::{FRAME_HEAD_LEN, Feed, HEADER_LEN, Passed};

// How many bytes of a file are read at the most.
const LIMIT: u64 = 1 << 62;

// How many bytes of a file are asked for at once.
const PIECE: usize = 65_536;

// A file that is read from its front on, in pieces.
#[derive(Debug, Drop)]
pub(crate) struct Source {
    pub(crate) name: String,
    pub(crate) feed: Feed,
    // Room for a piece.
    piece: Vec<u8>,
    // Where the next header or frame begins, and up to where the feed was given the file's bytes.
    pub(crate) at: u64,
    fed: u64,
}

impl Source {
    // The named file, at its start.
    pub(crate) fn new(alloc: Global, name: &str) -> Result<Source, AllocError>
        ensures kept { IfOk result (λ source. IsSource source) }
        ensures name { IfOk result (λ source. string_bytes source.name ≡ name.now) }
        ensures place { IfOk result (λ source. source.at ≡ 0) }
        ensures feed { IfOk result (λ source. source.feed ≡ unfed) }
    {
        let mut piece = Vec::new(alloc);
        if piece.resize(PIECE, 0).is_err() {
            return Err(AllocError);
        }
        Ok(Source {
            name: String::from_str(alloc, name)?,
            feed: Feed::new(alloc)?,
            piece,
            at: 0,
            fed: 0,
        })
    }

    // Goes past the next header or frame. None where the file ends before it does.
    pub(crate) fn pass<I: Inputs>(&mut self, inputs: &mut I) -> Result<Option<Passed>, Fault>
        requires source { IsSource self.old }
        requires ahead { SourceAhead (I.told inputs.old) self.old }
        ensures same { I.told inputs.new ≡ I.told inputs.old }
        ensures later { I.faults inputs.old ≤ I.faults inputs.new }
        ensures steady { UnlessErr result (I.faults inputs.new ≡ I.faults inputs.old) }
        ensures ends_later { I.ends inputs.old ≤ I.ends inputs.new }
        ensures ends_steady { UnlessErr result (I.ends inputs.new ≡ I.ends inputs.old) }
        ensures asked { ReadsOn I.Inputs inputs.old inputs.new (string_bytes self.old.name)
            self.old.fed self.new.fed }
        ensures source { IsSource self.new }
        ensures name { self.new.name ≡ self.old.name }
        ensures says { SourcePasses (I.told inputs.old) self.old self.new
            (I.faults inputs.old) (I.faults inputs.new) result }
    {
        loop {
            match self.feed.pass() {
                Ok(Some(unit)) => {
                    self.at += len_of(unit);
                    return Ok(Some(unit));
                }
                Ok(None) => {}
                Err(refusal) => return Err(Fault::Refused(refusal)),
            }
            match self.more(inputs) {
                Ok(true) => {}
                Ok(false) => return Ok(None),
                Err(fault) => return Err(fault),
            }
        }
    }

    // Gives the feed, which waits for more, the next bytes of the file. False where there are none.
    fn more<I: Inputs>(&mut self, inputs: &mut I) -> Result<bool, Fault>
        requires source { IsSource self.old }
        requires waits { next_of self.old.feed ≡ Ok None }
        requires ahead { SourceAhead (I.told inputs.old) self.old }
        ensures same { I.told inputs.new ≡ I.told inputs.old }
        ensures later { I.faults inputs.old ≤ I.faults inputs.new }
        ensures steady { UnlessErr result (I.faults inputs.new ≡ I.faults inputs.old) }
        ensures ends_later { I.ends inputs.old ≤ I.ends inputs.new }
        ensures ends_steady { UnlessErr result (I.ends inputs.new ≡ I.ends inputs.old) }
        ensures asked { ReadsOn I.Inputs inputs.old inputs.new (string_bytes self.old.name)
            self.old.fed self.new.fed }
        ensures source { IsSource self.new }
        ensures name { self.new.name ≡ self.old.name }
        ensures place { self.new.at ≡ self.old.at }
        ensures says { MoreSays (I.told inputs.old) self.old self.new
            (I.faults inputs.old) (I.faults inputs.new) result }
    {
        if self.fed >= LIMIT {
            return Err(Fault::InputTooLong);
        }
        let piece = self.piece.as_mut_slice();
        let count = match read_piece(inputs, self.name.as_str(), self.fed, piece) {
            Ok(count) => count,
            Err(fault) => return Err(fault),
        };
        if count == 0 {
            return Ok(false);
        }
        let taken = self.feed.give(&self.piece.as_slice()[..count]);
        self.fed += taken as u64;
        Ok(true)
    }
}

// Fills the front of the piece with the bytes of the named file from the place on, and with none
// behind the limit.
fn read_piece<I: Inputs>(
    inputs: &mut I,
    name: &str,
    at: u64,
    piece: &mut [u8],
) -> Result<usize, Fault>
    requires place { at < limit }
    requires room { length piece.old ≡ 65_536 }
    ensures same { I.told inputs.new ≡ I.told inputs.old }
    ensures later { I.faults inputs.old ≤ I.faults inputs.new }
    ensures steady { UnlessErr result (I.faults inputs.new ≡ I.faults inputs.old) }
    ensures ends_later { I.ends inputs.old ≤ I.ends inputs.new }
    ensures ends_steady { UnlessErr result (I.ends inputs.new ≡ I.ends inputs.old) }
    ensures asked { ReadsOn I.Inputs inputs.old inputs.new name.now at (at + came result) }
    ensures bound { IfOk result (λ count. count ≤ 65_536) }
    ensures place { IfOk result (λ count. at + count ≤ limit) }
    ensures bytes { IfOk result (λ count. GivesAt (I.told inputs.old) name.now at piece.new count) }
    ensures fault { IsInputFault (I.faults inputs.old) (I.faults inputs.new) result }
{
    let most = (LIMIT - at).min(PIECE as u64) as usize;
    let room = &mut piece[..most];
    match inputs.read_at(name, at, room) {
        Ok(count) => Ok(count),
        Err(_) => Err(Fault::InputFault),
    }
}

// How many bytes a header or a frame has.
fn len_of(unit: Passed) -> u64
    ensures len { result ≡ unit_len unit }
{
    match unit {
        Passed::Head(_) => HEADER_LEN as u64,
        Passed::Frame { head, .. } => FRAME_HEAD_LEN as u64 + head.len as u64,
    }
}
