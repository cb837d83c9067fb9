// Counting the commands of a file.
ghost use Rattle.std.specs.Prelude.{◌≡◌, ◌+◌, ◌<◌, ◌^◌, length, cond, IfOk};
ghost use Rattle.send_model.specs.Receive.{bytes_of};
ghost use Rattle.send_model.specs.Counts.{is_clone};
ghost use Rattle.send_commands.specs.Meaning.{meaning_of};
ghost use Rattle.sx_base.specs.Outside.{file_at};
ghost use Rattle.chain_trial.specs.Counting.{FileCounted, IsCountable};

use cmd_reader::CmdReader;
use send_commands::Command;
use std::alloc::{AllocError, Global};
use sx_base::PlainInputs;

/// How many commands a file has, how many of them are clones, and how many bytes its writes carry.
#[derive(Clone, Copy)]
pub(crate) struct Counted {
    pub(crate) commands: u64,
    pub(crate) clones: u64,
    pub(crate) literal: u64,
}

impl Counted {
    // Those of no command.
    fn none() -> Counted
        ensures commands { result.commands ≡ 0 }
        ensures clones { result.clones ≡ 0 }
        ensures literal { result.literal ≡ 0 }
    {
        Counted {
            commands: 0,
            clones: 0,
            literal: 0,
        }
    }

    // Those of one more command, where each number has room for it.
    fn with(self, command: &Command<'_>) -> Counted
        requires commands { self.commands + 1 < 2 ^ 64 }
        requires clones { self.clones + cond (is_clone (meaning_of command.now)) 1 0 < 2 ^ 64 }
        requires literal { self.literal + length (bytes_of (meaning_of command.now)) < 2 ^ 64 }
        ensures commands { result.commands ≡ self.commands + 1 }
        ensures clones { result.clones
            ≡ self.clones + cond (is_clone (meaning_of command.now)) 1 0 }
        ensures literal { result.literal
            ≡ self.literal + length (bytes_of (meaning_of command.now)) }
    {
        Counted {
            commands: self.commands + 1,
            clones: self.clones + clones_in(command),
            literal: self.literal + bytes_in(command),
        }
    }
}

// 1 for a clone.
fn clones_in(command: &Command<'_>) -> u64
    ensures { result ≡ cond (is_clone (meaning_of command.now)) 1 0 }
{
    match command {
        Command::Clone { .. } => 1,
        _ => 0,
    }
}

// The length of the data that a command carries.
fn bytes_in(command: &Command<'_>) -> u64
    ensures { result ≡ length (bytes_of (meaning_of command.now)) }
{
    match command {
        Command::Write { bytes, .. } => bytes.len() as u64,
        _ => 0,
    }
}

/// Counts the commands of a file in memory that can be read to a whole end. An error is for want of
/// memory: it is the reader's room that there is none for. Once the reader is made it takes no
/// memory, and no such file stops it.
pub(crate) fn count_file(
    alloc: Global,
    inputs: &mut PlainInputs,
    name: &str,
) -> Result<Counted, AllocError>
    requires countable { IsCountable (file_at inputs.old name.now) }
    ensures same { inputs.new ≡ inputs.old }
    ensures counted { IfOk result
        (λ counted. FileCounted counted (file_at inputs.old name.now)) }
{
    let mut reader = CmdReader::new(alloc, 1, name)?;
    let mut counted = Counted::none();
    loop {
        let frame = match reader.advance(inputs) {
            Ok(Some(frame)) => frame,
            Ok(None) => return Ok(counted),
            Err(_) => unreachable!(),
        };
        let item = match reader.item(frame) {
            Ok(item) => item,
            Err(_) => unreachable!(),
        };
        counted = counted.with(&item.command);
    }
}
