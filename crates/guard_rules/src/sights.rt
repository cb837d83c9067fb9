// What a guard sees of a command.
ghost use Rattle.std.specs.Prelude.{◌≡◌};
ghost use Rattle.send_model.specs.Guards.{seen, written_len, end_of, is_device};
ghost use Rattle.send_commands.specs.Meaning.{meaning_of};

use send_commands::Command;

/// How many bytes a WRITE carries, and None of another command.
pub fn write_len(command: &Command<'_>) -> Option<u64>
    ensures { result ≡ written_len (seen (meaning_of command.now)) }
{
    match command {
        Command::Write { bytes, .. } => Some(bytes.len() as u64),
        _ => None,
    }
}

/// Where a WRITE of a byte or more, a CLONE or a TRUNCATE ends, and None of another command.
pub fn end_place(command: &Command<'_>) -> Option<u128>
    ensures { result ≡ end_of (seen (meaning_of command.now)) }
{
    match command {
        Command::Write { bytes, offset, .. } => {
            let len = bytes.len() as u128;
            if len == 0 {
                None
            } else {
                Some(*offset as u128 + len)
            }
        }
        Command::Clone {
            offset,
            clone_len,
            ..
        } => Some(*offset as u128 + *clone_len as u128),
        Command::Truncate { size, .. } => Some(*size as u128),
        _ => None,
    }
}

/// Whether it is MKNOD.
pub fn makes_device(command: &Command<'_>) -> bool
    ensures { result ≡ is_device (seen (meaning_of command.now)) }
{
    matches!(command, Command::MkNod { .. })
}
