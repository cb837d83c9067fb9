// Frames that came in the receivable spelling.
ghost use Rattle.std.specs.Prelude.{◌≡◌, ℕ, ◌++◌, IsTrue, IfSome};
ghost use Rattle.send_model.specs.Command.{Utimes};
ghost use Rattle.send_model.specs.Spelling.{attribute_bytes, body_of, frame_of};
ghost use Rattle.send_model.specs.Receivable.{receivable, receivable_attributes};
ghost use Rattle.send_commands.specs.Meaning.{time_of};
ghost use Rattle.stream_export.specs.Framed.{IsFramed};

use send_commands::{Kind, Time};
use tlv_frame::FRAME_HEAD_LEN;
use tlv_frame::attribute_numbers::{ATIME, CTIME, MTIME, PATH};

// Whether a frame is UTIMES with these values in the receivable spelling. The time of the last
// change is often that of the contents.
pub(crate) fn is_times(frame: &[u8], mtime: Time, atime: Time, path: &[u8]) -> bool
    requires framed { IsFramed frame.now }
    ensures same { (version : ℕ) → IsTrue result
        → frame.now ≡ receivable version (Utimes (time_of mtime) (time_of atime) path.now) }
{
    match behind_times(frame, mtime, atime, path) {
        Some(rest) => rest.is_empty(),
        None => false,
    }
}

// What stands behind these attributes in front of the body of a UTIMES.
fn behind_times<'a>(frame: &'a [u8], mtime: Time, atime: Time, path: &[u8]) -> Option<&'a [u8]>
    requires framed { IsFramed frame.now }
    ensures rest { IfSome result (λ rest. frame.now
        ≡ frame_of 20
        (body_of 1 (receivable_attributes (Utimes (time_of mtime) (time_of atime) path.now))
        ++ rest.now)) }
{
    let body = body_in(frame, Kind::Utimes.number())?;
    let body = behind(body, CTIME, &mtime.bytes())?;
    let body = behind(body, MTIME, &mtime.bytes())?;
    let body = behind(body, ATIME, &atime.bytes())?;
    behind(body, PATH, path)
}

// The body of a frame whose checksum is right, where the frame is of this number and ends with its
// body.
#[tactic(auto, unfolding(send_model::specs::Reading::number16, send_model::specs::Reading::number32))]
fn body_in(frame: &[u8], number: u16) -> Option<&[u8]>
    requires framed { IsFramed frame.now }
    ensures body { IfSome result (λ body. frame.now ≡ frame_of number body.now) }
{
    if frame.len() < FRAME_HEAD_LEN {
        return None;
    }
    let cmd = u16::from_le_bytes([frame[4], frame[5]]);
    let len = u32::from_le_bytes([frame[0], frame[1], frame[2], frame[3]]);
    let (_, body) = frame.split_at(FRAME_HEAD_LEN);
    if cmd != number || len as usize != body.len() {
        return None;
    }
    Some(body)
}

// What stands behind an attribute with a length in front of a body, where it is this one.
fn behind<'a>(body: &'a [u8], kind: u16, bytes: &[u8]) -> Option<&'a [u8]>
    ensures rest { IfSome result (λ rest. body.now
        ≡ attribute_bytes 1 (record { kind = kind; bytes = bytes.now }) ++ rest.now) }
{
    if body.len() < 4 {
        return None;
    }
    let (head, rest) = body.split_at(4);
    let number = u16::from_le_bytes([head[0], head[1]]);
    let len = u16::from_le_bytes([head[2], head[3]]);
    if number != kind || len as usize != bytes.len() {
        return None;
    }
    rest.strip_prefix(bytes)
}
