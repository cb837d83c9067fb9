// The heads of parts.
ghost use Rattle.std.specs.Prelude.{◌≡◌};
ghost use Rattle.std.specs.Option.{option_map};
ghost use Rattle.send_model.specs.Store.{head_of};
ghost use Rattle.send_commands.specs.Meaning.{meaning_of};
ghost use Rattle.clone_resolve.specs.Heads.{head_meant};

use send_commands::Command;
use subvol_catalog::Key;
use uuid::Uuid;

/// What a command says that begins a subvolume.
#[derive(Debug, Clone, Copy)]
pub struct Head<'a> {
    /// The subvolume's name, as the command has it.
    pub name: &'a [u8],
    /// The subvolume's key.
    pub key: Key,
    /// The key of the subvolume that it starts from, if it is a snapshot.
    pub parent: Option<Key>,
}

/// The head in a command; `None` where the command begins no subvolume. Takes no memory.
pub fn head_of<'a>(c: &Command<'a>) -> Option<Head<'a>>
    ensures { option_map head_meant result ≡ head_of (meaning_of c.now) }
{
    match c {
        Command::Subvol {
            uuid,
            ctransid,
            path,
        } => Some(Head {
            name: path,
            key: key_with(*uuid, *ctransid),
            parent: None,
        }),
        Command::Snapshot {
            uuid,
            ctransid,
            path,
            clone_uuid,
            clone_ctransid,
        } => Some(Head {
            name: path,
            key: key_with(*uuid, *ctransid),
            parent: Some(key_with(*clone_uuid, *clone_ctransid)),
        }),
        _ => None,
    }
}

/// The key of a UUID and a transaction number.
pub(crate) fn key_with(uuid: Uuid, ctransid: u64) -> Key
    ensures uuid { result.uuid ≡ uuid }
    ensures ctransid { result.ctransid ≡ ctransid }
{
    Key { uuid, ctransid }
}
