// Bytes that are gathered before they are written.
ghost use Rattle.std.specs.Prelude.{◌≡◌, OnOk, [], true};
ghost use Rattle.send_model.specs.Laws.{CanWrite};
ghost use Rattle.send_commands.specs.Meaning.{meaning_of};
ghost use Rattle.send_commands.specs.Writing.{IsWritable};
ghost use Rattle.cmd_reader.specs.Next.{item_of};
ghost use Rattle.stream_dump.specs.Steps.{with_item};

use crate::item_form::ItemForm;
use cmd_reader::Item;
use send_commands::Command;
use std::alloc::{AllocError, Global};
use sx_base::Blob;

/// Bytes that are not written yet, and whether the next command begins a stream.
#[derive(Debug, Drop)]
pub struct Gathered {
    /// The bytes.
    pub bytes: Blob,
    /// Whether the next command begins a stream.
    pub begins: bool,
}

impl Gathered {
    /// No bytes, before the first command.
    pub fn new(alloc: Global) -> Gathered
        ensures empty { result ≡ record { bytes = []; begins = true } }
    {
        Gathered {
            bytes: Blob::new(alloc),
            begins: true,
        }
    }

    /// Adds the bytes of a command.
    pub fn add<F: ItemForm>(&mut self, form: &mut F, item: &Item<'_>) -> Result<(), AllocError>
        requires writable { IsWritable item.now.version (meaning_of item.now.command) }
        requires sayable { CanWrite item.now.version (meaning_of item.now.command) }
        ensures added { OnOk result (self.new ≡ with_item F.piece self.old (item_of 1 item.now)) }
    {
        form.add(self.begins, item, &mut self.bytes)?;
        self.begins = matches!(item.command, Command::End);
        Ok(())
    }
}
