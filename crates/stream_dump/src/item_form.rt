// How the commands of a file are written.
ghost use Rattle.std.specs.Prelude.{◌≡◌, ◌++◌, ℕ, Bool, List, OnOk};
ghost use Rattle.send_model.specs.Reading as reading;
ghost use Rattle.send_model.specs.Laws.{CanWrite};
ghost use Rattle.send_commands.specs.Meaning.{meaning_of};
ghost use Rattle.send_commands.specs.Writing.{IsWritable};
ghost use Rattle.cmd_reader.specs.Next.{item_of};
ghost use Rattle.sx_base.specs.Bytes.{IsFront};

use cmd_reader::Item;
use std::alloc::AllocError;
use sx_base::Blob;

/// A form in which the commands of a file are written. Its meaning is the bytes of each command,
/// given whether it begins a stream.
pub trait ItemForm {
    ghost piece: { Bool → reading.Item → List ℕ };

    /// Appends the bytes of a command that was read. Without memory the blob begins with the bytes
    /// that it had, and some of those of the command may stand behind them.
    fn add(&mut self, begins: bool, item: &Item<'_>, to: &mut Blob) -> Result<(), AllocError>
        requires writable { IsWritable item.now.version (meaning_of item.now.command) }
        requires sayable { CanWrite item.now.version (meaning_of item.now.command) }
        ensures added { OnOk result (to.new ≡ to.old ++ piece begins (item_of 1 item.now)) }
        ensures kept { IsFront to.old to.new };
}
