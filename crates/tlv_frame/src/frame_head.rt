// The header of a frame, and its checksum.
ghost use Rattle.std.specs.Prelude.{◌≡◌, length};
ghost use Rattle.std.specs.Int.{w16, w32, to_le_bytes};
ghost use Rattle.send_model.specs.Spelling.{frame_checksum};
ghost use Rattle.sx_base.specs.Answers.{Reads};
ghost use Rattle.tlv_frame.specs.Frame.{head_at, head_bytes, checksum_holds};

use crc32c_part::update;
use sx_base::Refusal;

// The greatest length of a body.
const GREATEST_BODY: u32 = 262_144;

/// The header of a frame.
#[derive(Debug, Clone, Copy, PartialEq, Eq)]
pub struct FrameHead {
    /// The length of the body in bytes, at most 262,144.
    pub len: u32,
    /// The command's number.
    pub cmd: u16,
    /// The checksum that the frame has.
    pub crc: u32,
}

impl FrameHead {
    /// The header that these bytes are. LongCommand exactly where the body is longer than 262,144
    /// bytes. Source: struct btrfs_cmd_header in send.h of btrfs-progs.
    #[tactic(auto, unfolding(crate::specs::Frame::head_at, send_model::specs::Reading::number16, send_model::specs::Reading::number32))]
    pub fn read(bytes: &[u8; 10]) -> Result<FrameHead, Refusal>
        ensures exact { Reads
            (λ head. record { len = head.len; number = head.cmd; stored = head.crc }) result
            (head_at bytes.now) }
    {
        let len = u32::from_le_bytes([bytes[0], bytes[1], bytes[2], bytes[3]]);
        if len > GREATEST_BODY {
            return Err(Refusal::LongCommand(len));
        }
        let cmd = u16::from_le_bytes([bytes[4], bytes[5]]);
        let crc = u32::from_le_bytes([bytes[6], bytes[7], bytes[8], bytes[9]]);
        Ok(FrameHead { len, cmd, crc })
    }

    /// Whether the body has the frame's checksum. BadChecksum, with both checksums, exactly where
    /// it has another. Takes no memory.
    #[tactic(auto, unfolding(crate::specs::Frame::checksum_holds))]
    pub fn check_crc(&self, body: &[u8]) -> Result<(), Refusal>
        requires whole { length body.now ≡ self.now.len }
        ensures exact { Reads (λ _. tt) result
            (checksum_holds
            (record { len = self.now.len; number = self.now.cmd; stored = self.now.crc })
            body.now) }
    {
        let computed = checksum(self.len, self.cmd, body);
        if self.crc != computed {
            return Err(Refusal::BadChecksum {
                stored: self.crc,
                computed,
            });
        }
        Ok(())
    }
}

// The checksum of a frame: over its header, with the checksum itself as zero, and then over its
// body.
pub(crate) fn checksum(len: u32, cmd: u16, body: &[u8]) -> u32
    ensures { result ≡ frame_checksum len cmd body.now }
{
    update(update(0, &header(len, cmd, 0)), body)
}

// The ten bytes of a frame's header.
#[tactic(auto, unfolding(crate::specs::Frame::head_bytes))]
pub(crate) fn header(len: u32, cmd: u16, crc: u32) -> [u8; 10]
    ensures { result ≡ head_bytes (record { len = len; number = cmd; stored = crc }) }
{
    let len = len.to_le_bytes();
    let cmd = cmd.to_le_bytes();
    let crc = crc.to_le_bytes();
    [
        len[0], len[1], len[2], len[3], cmd[0], cmd[1], crc[0], crc[1], crc[2], crc[3],
    ]
}
