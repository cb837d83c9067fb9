// The snapshot that a refused command names and that is not there.
use crate::kept_notes::word_of;
use crate::named_files::{bytes_of, file_named};
use crate::path_inputs::PathInputs;
use command_line::Request;
use guard_rules::number_of;
use std::alloc::Global;
use std::fs::Files;
use sx_base::Inputs;
use tlv_frame::attribute_numbers::{CLONE_CTRANSID, CLONE_UUID};
use tlv_frame::{FRAME_HEAD_LEN, attrs, frame_in};
use uuid::Uuid;

// So many bytes of a command are looked at. The head of a snapshot and a clone are shorter, but for
// very long paths.
const LOOKED_AT: usize = 8192;

/// The UUID and the CTRANSID of a parent or of a source.
#[derive(Debug, Clone, Copy, PartialEq, Eq)]
pub(crate) struct NamedKey {
    pub(crate) uuid: Uuid,
    pub(crate) ctransid: u64,
}

/// The parent or the source that the refused command of a note names. Its file is read again for
/// it, where it is a regular one.
pub(crate) fn key_refused<R: Files>(
    files: &R,
    alloc: Global,
    request: Option<&Request<'_>>,
    note: &[u8],
) -> Option<NamedKey> {
    let name = file_named(request, number_of(word_of(note, 1))?)?;
    let offset = number_of(word_of(note, 3))?;
    bytes_of(files, name)?;
    let mut inputs = PathInputs::new(files, alloc);
    let mut frame = [0; LOOKED_AT];
    let count = inputs.read_at(name, offset, &mut frame).ok()?;
    key_in(&frame[..count])
}

// What a command names, whose frame these bytes begin with.
fn key_in(bytes: &[u8]) -> Option<NamedKey> {
    let head = frame_in(bytes).ok()??;
    let rest = bytes.get(FRAME_HEAD_LEN..)?;
    let body = rest.get(..head.len as usize)?;
    let table = attrs(body, 1).ok()?;
    let uuid = Uuid::from_slice(table.get(CLONE_UUID)?).ok()?;
    let ctransid = table.get(CLONE_CTRANSID)?.first_chunk::<8>()?;
    Some(NamedKey {
        uuid,
        ctransid: u64::from_le_bytes(*ctransid),
    })
}
