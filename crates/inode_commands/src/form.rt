// The forms in which commands are spelled.
ghost use Rattle.std.specs.Prelude.{◌≡◌, ◌++◌, ℕ, List, OnOk};
ghost use Rattle.send_model.specs.Command as meant;
ghost use Rattle.send_model.specs.Spelling.{canonical};
ghost use Rattle.send_model.specs.Receivable.{receivable};
ghost use Rattle.send_commands.specs.Meaning.{meaning_of};
ghost use Rattle.inode_commands.specs.Spelled.{CanPush};

use receivable_form::push_receivable;
use send_commands::{Command, encode};
use std::alloc::AllocError;
use sx_base::Blob;

/// A form in which the commands of a stream of a version are spelled.
pub trait Form {
    /// The bytes of a command.
    ghost spelled: { ℕ → meant.Command → List ℕ };

    /// Appends the bytes of a command. Fails for want of memory alone, and then nothing is said of
    /// what was appended.
    fn push(&self, command: &Command<'_>, version: u32, to: &mut Blob) -> Result<(), AllocError>
        requires can { CanPush (meaning_of command.now) }
        ensures added { OnOk result
            (to.new ≡ to.old ++ spelled version (meaning_of command.now)) };
}

/// The canonical spelling: the wanted attributes alone, in rising order.
#[derive(Debug, Clone, Copy)]
pub struct Canonical;

/// The spelling that the real `btrfs receive` takes.
#[derive(Debug, Clone, Copy)]
pub struct Receivable;

impl Form for Canonical {
    ghost spelled = { canonical };

    fn push(&self, command: &Command<'_>, version: u32, to: &mut Blob) -> Result<(), AllocError> {
        encode(command, version, to)
    }
}

impl Form for Receivable {
    ghost spelled = { receivable };

    fn push(&self, command: &Command<'_>, version: u32, to: &mut Blob) -> Result<(), AllocError> {
        push_receivable(command, version, to)
    }
}
