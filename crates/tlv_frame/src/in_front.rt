// What stands in front of bytes, of which more may come.
ghost use Rattle.tlv_frame.specs.InFront.{FindsHead, FindsFrame};

use crate::frame_head::FrameHead;
use crate::stream_head::StreamHead;
use sx_base::Refusal;

/// The length of a stream's header in bytes. Source: struct btrfs_stream_header in send.h of
/// btrfs-progs.
pub const HEADER_LEN: usize = 17;

/// The length of a frame's header in bytes. Source: struct btrfs_cmd_header in send.h of
/// btrfs-progs.
pub const FRAME_HEAD_LEN: usize = 10;

// The header of a stream in front, None where it is cut short.
pub(crate) fn head_in(left: &[u8]) -> Result<Option<StreamHead>, Refusal>
    ensures exact { FindsHead left.now result }
{
    if left.len() < HEADER_LEN {
        return Ok(None);
    }
    let mut bytes = [0; HEADER_LEN];
    bytes.copy_from_slice(&left[..HEADER_LEN]);
    match StreamHead::read(&bytes) {
        Ok(head) => Ok(Some(head)),
        Err(refusal) => Err(refusal),
    }
}

/// The header of the frame in front, whose checksum is right. `None` where the frame is cut short,
/// and its header shows no fault. Takes no memory.
pub fn frame_in(left: &[u8]) -> Result<Option<FrameHead>, Refusal>
    ensures exact { FindsFrame left.now result }
{
    if left.len() < FRAME_HEAD_LEN {
        return Ok(None);
    }
    let (front, after) = left.split_at(FRAME_HEAD_LEN);
    let mut bytes = [0; FRAME_HEAD_LEN];
    bytes.copy_from_slice(front);
    let head = match FrameHead::read(&bytes) {
        Ok(head) => head,
        Err(refusal) => return Err(refusal),
    };
    let len = head.len as usize;
    if after.len() < len {
        return Ok(None);
    }
    match head.check_crc(&after[..len]) {
        Ok(()) => Ok(Some(head)),
        Err(refusal) => Err(refusal),
    }
}
