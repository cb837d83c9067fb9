// The command that stands in front of bytes.
ghost use Rattle.std.specs.Prelude.{◌≡◌, true};
ghost use Rattle.send_model.specs.Reading.{is_version};
ghost use Rattle.group_replay.specs.Fronts.{FindsFront};

use cmd_reader::canonical_command;
use send_commands::Command;
use tlv_frame::{FRAME_HEAD_LEN, frame_in};

// A command and the length of its frame.
#[derive(Clone, Copy)]
pub(crate) struct Front<'a> {
    pub(crate) command: Command<'a>,
    pub(crate) len: usize,
}

// The command whose canonical spelling stands in front of the bytes, none where there is none.
pub(crate) fn front_of<'a>(version: u32, bytes: &'a [u8]) -> Option<Front<'a>>
    requires version { is_version version ≡ true }
    ensures found { FindsFront version bytes.now result }
{
    let head = match frame_in(bytes) {
        Ok(Some(head)) => head,
        Ok(None) => return None,
        Err(_) => return None,
    };
    let len = FRAME_HEAD_LEN + head.len as usize;
    let Some(command) = canonical_command(version, head.cmd, &bytes[FRAME_HEAD_LEN..len]) else {
        return None;
    };
    Some(Front { command, len })
}
