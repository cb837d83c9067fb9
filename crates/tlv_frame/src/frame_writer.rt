// Frames that are written.
ghost use Rattle.std.specs.Prelude.{◌≡◌, ◌+◌, ◌^◌, ◌<◌, ◌≤◌, ◌++◌, length, take, drop, IfOk, OnOk, OnErr};
ghost use Rattle.std.specs.Int.{w64, to_le_bytes};
ghost use Rattle.send_model.specs.Attribute.{DATA, HasRoom};
ghost use Rattle.send_model.specs.Spelling.{attribute_bytes, frame_of};
ghost use Rattle.sx_base.specs.Bytes.{IsFront};
ghost use Rattle.tlv_frame.specs.Frame.{Begun, head_room};

use crate::attribute_numbers::DATA as DATA_NUMBER;
use crate::attribute_table::has_no_length;
use crate::frame_head::{checksum, header};
use std::alloc::AllocError;
use std::marker::Model;
use sx_base::Blob;

/// A frame that is being written at the end of a blob, which is lent to each call. It keeps the
/// place where the frame begins.
#[derive(Debug, Drop)]
pub struct FrameWriter {
    start: usize,
    cmd: u16,
    version: u32,
}

impl Model for FrameWriter {
    ghost use Rattle.tlv_frame.specs.Frame.{Begun};

    ghost Value = { Begun };

    ghost view = { λ w. record { start = w.start; number = w.cmd; version = w.version } };
}

impl FrameWriter {
    /// Begins a frame of this command at the end of the blob: ten bytes of room for its header.
    /// Without memory the blob is as it was.
    pub fn begin(to: &mut Blob, cmd: u16, version: u32) -> Result<FrameWriter, AllocError>
        ensures room { OnOk result (to.new ≡ to.old ++ head_room) }
        ensures begun { IfOk result
            (λ writer. writer ≡ record { start = length to.old; number = cmd; version = version }) }
        ensures same { OnErr result (to.new ≡ to.old) }
    {
        let start = to.as_slice().len();
        to.push_all(&[0; 10])?;
        Ok(FrameWriter {
            start,
            cmd,
            version,
        })
    }

    /// Appends an attribute that is a number of eight bytes. Without memory the blob begins with
    /// the bytes that it had.
    pub fn attr_u64(&mut self, to: &mut Blob, kind: u16, n: u64) -> Result<(), AllocError>
        ensures appended { OnOk result
            (to.new ≡ to.old
            ++ attribute_bytes self.old.version
            (record { kind = kind; bytes = to_le_bytes w64 n })) }
        ensures front { IsFront to.old to.new }
        ensures writer { self.new ≡ self.old }
    {
        self.attr_bytes(to, kind, &n.to_le_bytes())
    }

    /// Appends an attribute with these bytes: its number, their length where an attribute of this
    /// number has one, and the bytes. Without memory the blob begins with the bytes that it had.
    #[tactic(auto, unfolding(send_model::specs::Spelling::attribute_bytes))]
    pub fn attr_bytes(&mut self, to: &mut Blob, kind: u16, bytes: &[u8]) -> Result<(), AllocError>
        requires short { HasRoom self.old.version kind (length bytes.now) }
        ensures appended { OnOk result
            (to.new ≡ to.old
            ++ attribute_bytes self.old.version (record { kind = kind; bytes = bytes.now })) }
        ensures front { IsFront to.old to.new }
        ensures writer { self.new ≡ self.old }
    {
        let number = kind.to_le_bytes();
        if has_no_length(self.version, kind) {
            to.push_all(&number)?;
            return to.push_all(bytes);
        }
        let len = (bytes.len() as u16).to_le_bytes();
        to.push_all(&[number[0], number[1], len[0], len[1]])?;
        to.push_all(bytes)
    }

    /// Appends the bytes of a write: with their length in version 1, and with none in version 2,
    /// where they are the rest of the body. Without memory the blob begins with the bytes that it
    /// had.
    pub fn attr_data(&mut self, to: &mut Blob, bytes: &[u8]) -> Result<(), AllocError>
        requires short { HasRoom self.old.version DATA (length bytes.now) }
        ensures appended { OnOk result
            (to.new ≡ to.old
            ++ attribute_bytes self.old.version (record { kind = DATA; bytes = bytes.now })) }
        ensures front { IsFront to.old to.new }
        ensures writer { self.new ≡ self.old }
    {
        self.attr_bytes(to, DATA_NUMBER, bytes)
    }

    /// Writes the header of the frame, whose body are the bytes after the room for it. Takes no
    /// memory.
    pub fn finish(self, to: &mut Blob)
        requires begun { self.start + 10 ≤ length to.old }
        requires short { length to.old < self.start + 10 + 2 ^ 32 }
        ensures framed { to.new ≡ take self.start to.old
            ++ frame_of self.number (drop (self.start + 10) to.old) }
    {
        let body = &to.as_slice()[self.start + 10..];
        let len = body.len() as u32;
        let head = header(len, self.cmd, checksum(len, self.cmd, body));
        to.put(self.start, &head);
    }
}
