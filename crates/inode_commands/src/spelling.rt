// Spelling the commands of a stream.
ghost use Rattle.std.specs.Prelude.{◌≡◌, ◌++◌, OnOk};
ghost use Rattle.send_commands.specs.Meaning.{meaning_of};
ghost use Rattle.inode_commands.specs.Spelled.{CanPush};

use crate::form::Form;
use send_commands::Command;
use std::alloc::AllocError;
use sx_base::Blob;

/// How the commands of a stream are spelled: in a form and in a version.
#[derive(Debug, Drop)]
pub struct Spelling<F: Form> {
    pub form: F,
    /// The version of the stream, 1 or 2.
    pub version: u32,
}

impl<F: Form> Spelling<F> {
    // Appends a command.
    pub(crate) fn push(&self, command: &Command<'_>, to: &mut Blob) -> Result<(), AllocError>
        requires can { CanPush (meaning_of command.now) }
        ensures added { OnOk result
            (to.new ≡ to.old ++ F.spelled self.now.version (meaning_of command.now)) }
    {
        self.form.push(command, self.version, to)
    }
}
