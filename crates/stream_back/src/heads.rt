// The bytes in front of edits, and behind them.
ghost use Rattle.std.specs.Prelude.{◌≡◌, ◌++◌, None, Some, IfOk, OnOk};
ghost use Rattle.std.specs.Option.{option_map};
ghost use Rattle.send_model.specs.Command.{End};
ghost use Rattle.send_model.specs.Composed.{head_command};
ghost use Rattle.send_model.specs.Spelling.{stream_header, canonical};
ghost use Rattle.subvol_catalog.specs.Entries.{key_of};
ghost use Rattle.stream_back.specs.Writing.{HasLength};

use send_commands::{Command, encode};
use std::alloc::{AllocError, Global};
use subvol_catalog::Key;
use sx_base::Blob;
use tlv_frame::StreamHead;

// The name, the key and the parent of an entry.
#[derive(Clone, Copy)]
pub(crate) struct EntryHead<'a> {
    pub(crate) name: &'a [u8],
    pub(crate) key: Key,
    pub(crate) parent: Option<Key>,
}

// The header of a stream, and the head of an entry.
pub(crate) fn opening_of(
    alloc: Global,
    head: &EntryHead<'_>,
    version: u32,
) -> Result<Blob, AllocError>
    requires short { HasLength head.now.name.now }
    ensures made { IfOk result (λ bytes. bytes ≡ stream_header version
        ++ canonical version (head_command head.now.name.now (key_of head.now.key)
        (option_map key_of head.now.parent))) }
{
    let mut bytes = Blob::new(alloc);
    push_opening(head, version, &mut bytes)?;
    Ok(bytes)
}

// END.
pub(crate) fn end_of(alloc: Global, version: u32) -> Result<Blob, AllocError>
    ensures made { IfOk result (λ bytes. bytes ≡ canonical version End) }
{
    let mut bytes = Blob::new(alloc);
    push_end(version, &mut bytes)?;
    Ok(bytes)
}

// Appends the header of a stream, and the head of an entry.
fn push_opening(head: &EntryHead<'_>, version: u32, to: &mut Blob) -> Result<(), AllocError>
    requires short { HasLength head.now.name.now }
    ensures added { OnOk result (to.new ≡ to.old ++ (stream_header version
        ++ canonical version (head_command head.now.name.now (key_of head.now.key)
        (option_map key_of head.now.parent)))) }
{
    let header = StreamHead { version };
    to.push_all(&header.bytes())?;
    match head.parent {
        None => push_full(head, version, to),
        Some(parent) => push_snapshot(head, parent, version, to),
    }
}

// Appends the head of a full stream.
fn push_full(head: &EntryHead<'_>, version: u32, to: &mut Blob) -> Result<(), AllocError>
    requires short { HasLength head.now.name.now }
    ensures added { OnOk result (to.new ≡ to.old
        ++ canonical version (head_command head.now.name.now (key_of head.now.key) None)) }
{
    let _sixteen = head.key.uuid.into_bytes();
    let command = Command::Subvol {
        uuid: head.key.uuid,
        ctransid: head.key.ctransid,
        path: head.name,
    };
    encode(&command, version, to)
}

// Appends the head of a snapshot.
fn push_snapshot(
    head: &EntryHead<'_>,
    parent: Key,
    version: u32,
    to: &mut Blob,
) -> Result<(), AllocError>
    requires short { HasLength head.now.name.now }
    ensures added { OnOk result (to.new ≡ to.old ++ canonical version
        (head_command head.now.name.now (key_of head.now.key) (Some (key_of parent)))) }
{
    let _sixteen = head.key.uuid.into_bytes();
    let _also = parent.uuid.into_bytes();
    let command = Command::Snapshot {
        uuid: head.key.uuid,
        ctransid: head.key.ctransid,
        path: head.name,
        clone_uuid: parent.uuid,
        clone_ctransid: parent.ctransid,
    };
    encode(&command, version, to)
}

// Appends END.
fn push_end(version: u32, to: &mut Blob) -> Result<(), AllocError>
    ensures added { OnOk result (to.new ≡ to.old ++ canonical version End) }
{
    encode(&Command::End, version, to)
}
