// The head of a part, from which the head of the composed stream is made.
ghost use Rattle.std.specs.Prelude.{◌≡◌, ◌⊎◌, ◌&&◌, ◌++◌, IfOk, OnOk, OnErr};
ghost use Rattle.std.specs.Option.{option_map};
ghost use Rattle.std.specs.Str.{bytes_eq};
ghost use Rattle.send_model.specs.Spelling.{stream_header, canonical};
ghost use Rattle.send_model.specs.Store.{head_of, same_key};
ghost use Rattle.send_model.specs.Composed.{head_command};
ghost use Rattle.send_commands.specs.Meaning.{meaning_of};
ghost use Rattle.send_commands.specs.Writing.{IsWritable};
ghost use Rattle.subvol_catalog.specs.Entries.{key_of};

use clone_resolve::{Key, head_of};
use send_commands::{Command, encode};
use std::alloc::{AllocError, Global};
use std::marker::Model;
use sx_base::Blob;
use tlv_frame::StreamHead;

/// The name, the key and the parent's key of a part. The name is shorter than 65,536 bytes.
#[derive(Debug, Drop)]
pub struct PartHead {
    name: Blob,
    key: Key,
    parent: Option<Key>,
}

impl Model for PartHead {
    ghost use Rattle.send_model.specs.Store as meant;
    ghost use Rattle.subvol_catalog.specs.Entries.{head_with};
    ghost use Rattle.file_survey.specs.Names.{IsShort};

    ghost Value = { meant.Head };

    ghost view = { λ h. head_with h.name h.key h.parent };

    ghost invariant = { λ h. IsShort h.name };
}

impl PartHead {
    /// The head that a command of a stream of the version is, None where it is none.
    ///
    /// # Errors
    /// There is no memory.
    pub fn of(alloc: Global, c: &Command<'_>, version: u32) -> Result<Option<PartHead>, AllocError>
        requires writable { IsWritable version (meaning_of c.now) }
        ensures head { IfOk result (λ h. h ≡ head_of (meaning_of c.now)) }
    {
        let Some(head) = head_of(c) else {
            return Ok(None);
        };
        let name = Blob::from(Vec::from_slice(alloc, head.name)?);
        Ok(Some(PartHead {
            name,
            key: head.key,
            parent: head.parent,
        }))
    }

    /// Whether the part has this key. Takes no memory.
    pub fn has_key(&self, key: Key) -> bool
        ensures { result ≡ same_key self.now.key (key_of key) }
    {
        self.key.uuid == key.uuid && self.key.ctransid == key.ctransid
    }

    /// Whether the part has this name. Takes no memory.
    pub fn has_name(&self, name: &[u8]) -> bool
        ensures { result ≡ bytes_eq self.now.name name.now }
    {
        self.name.as_slice() == name
    }

    /// Whether another part has the same name and key. Takes no memory.
    pub fn is_like(&self, other: &PartHead) -> bool
        ensures { result ≡ same_key self.now.key other.now.key
            && bytes_eq self.now.name other.now.name }
    {
        self.has_key(other.key) && self.has_name(other.name.as_slice())
    }

    /// The key of the part. Takes no memory.
    pub fn key(&self) -> Key
        ensures { key_of result ≡ self.now.key }
    {
        self.key
    }

    // The command that begins a part of this name and key and of the given parent.
    #[tactic(auto, unfolding(send_commands::specs::Writing::IsWritable, send_model::specs::Command::row))]
    fn command(&self, parent: Option<Key>) -> Command<'_>
        ensures command { meaning_of result
            ≡ head_command self.now.name self.now.key (option_map key_of parent) }
        ensures writable { IsWritable 1 (meaning_of result) }
    {
        let path = self.name.as_slice();
        let uuid = self.key.uuid;
        let ctransid = self.key.ctransid;
        match parent {
            None => Command::Subvol {
                uuid,
                ctransid,
                path,
            },
            Some(parent) => Command::Snapshot {
                uuid,
                ctransid,
                path,
                clone_uuid: parent.uuid,
                clone_ctransid: parent.ctransid,
            },
        }
    }

    /// Appends the header of a stream of the version and the command that begins a part of this
    /// name and key and of the given parent, or changes nothing where there is no memory.
    pub fn begin_stream(
        &self,
        parent: Option<Key>,
        version: u32,
        to: &mut Blob,
    ) -> Result<(), AllocError>
        requires version { (version ≡ 1) ⊎ (version ≡ 2) }
        ensures begun { OnOk result
            (to.new ≡ to.old
            ++ (stream_header version
            ++ canonical version
            (head_command self.now.name self.now.key (option_map key_of parent)))) }
        ensures same { OnErr result (to.new ≡ to.old) }
    {
        let head = self.command(parent);
        let start = to.as_slice().len();
        to.push_all(&StreamHead { version }.bytes())?;
        // A head has no data, and both versions spell it in the same bytes.
        match encode(&head, 1, to) {
            Ok(()) => Ok(()),
            Err(error) => {
                to.cut(start);
                Err(error)
            }
        }
    }
}
