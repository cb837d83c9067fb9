// Commands as they are meant.
ghost use Rattle.std.specs.Prelude.{◌≡◌, ℕ, true};
ghost use Rattle.send_model.specs.Laws.{CanWrite};
ghost use Rattle.send_model.specs.Reading.{is_version};
ghost use Rattle.send_model.specs.Overridden.{command_as, IsLawfulOverride};
ghost use Rattle.send_commands.specs.Meaning.{meaning_of};
ghost use Rattle.send_commands.specs.Writing.{IsWritable};
ghost use Rattle.part_names.specs.Overriding.{IsOverridden, given_or};

use crate::overrides::FileOverride;
use cmd_reader::Item;
use send_commands::Command;

/// An item with what is said in front of its file: a head has the name in place of its own, and a
/// head and a clone the CTRANSID that is meant. `None` for any other command, and where nothing is
/// said of it: the item is as it was. Takes no memory: the name stays where it is.
pub fn override_item<'a>(said: &'a FileOverride, item: &Item<'a>) -> Option<Item<'a>>
    requires lawful { IsLawfulOverride said.now }
    ensures meant { IsOverridden said.now item.now (given_or item.now result) }
{
    let Some(command) = override_command(said, &item.command) else {
        return None;
    };
    Some(Item {
        command,
        number: item.number,
        offset: item.offset,
        data_at: item.data_at,
        version: item.version,
        canonical: false,
    })
}

/// The same of a command alone.
pub fn override_command<'a>(said: &'a FileOverride, command: &Command<'a>) -> Option<Command<'a>>
    requires lawful { IsLawfulOverride said.now }
    ensures meant { meaning_of (given_or command.now result)
        ≡ command_as said.now (meaning_of command.now) }
    ensures writable { (version : ℕ) → IsWritable version (meaning_of command.now)
        → IsWritable version (meaning_of (given_or command.now result)) }
    ensures can_write { (version : ℕ) → is_version version ≡ true →
        CanWrite version (meaning_of command.now)
        → CanWrite version (meaning_of (given_or command.now result)) }
{
    if said.says_nothing() {
        return None;
    }
    changed(said, command)
}

/// What is given, or else the other.
pub fn given_or<'r, T>(other: &'r T, given: &'r Option<T>) -> &'r T
    ensures { result.now ≡ given_or other.now given.now }
{
    if let Some(given) = given {
        return given;
    }
    other
}

// A head or a clone with what is said, and `None` for any other command.
fn changed<'a>(said: &'a FileOverride, command: &Command<'a>) -> Option<Command<'a>>
    ensures meant { meaning_of (given_or command.now result)
        ≡ command_as said.now (meaning_of command.now) }
{
    match command {
        Command::Subvol {
            uuid,
            ctransid,
            path,
        } => Some(Command::Subvol {
            uuid: *uuid,
            ctransid: *ctransid,
            path: said.name_or(path),
        }),
        Command::Snapshot {
            uuid,
            ctransid,
            path,
            clone_uuid,
            clone_ctransid,
        } => Some(Command::Snapshot {
            uuid: *uuid,
            ctransid: *ctransid,
            path: said.name_or(path),
            clone_uuid: *clone_uuid,
            clone_ctransid: said.meant_ctransid(*clone_uuid, *clone_ctransid),
        }),
        Command::Clone {
            path,
            offset,
            clone_uuid,
            clone_ctransid,
            clone_path,
            clone_offset,
            clone_len,
        } => Some(Command::Clone {
            path,
            offset: *offset,
            clone_uuid: *clone_uuid,
            clone_ctransid: said.meant_ctransid(*clone_uuid, *clone_ctransid),
            clone_path,
            clone_offset: *clone_offset,
            clone_len: *clone_len,
        }),
        _ => None,
    }
}
