// The lines of commands.
ghost use Rattle.std.specs.Prelude.{◌≡◌, ◌++◌, OnOk};
ghost use Rattle.send_model.specs.Lines.{stream_line, command_line};
ghost use Rattle.cmd_reader.specs.Next.{item_of};
ghost use Rattle.stream_dump.specs.Written.{dump_lines};
ghost use Rattle.sx_base.specs.Bytes.{IsFront};

use crate::commands::push_command;
use crate::item_form::ItemForm;
use crate::numbers::push_decimal;
use crate::values::Contents;
use cmd_reader::Item;
use std::alloc::AllocError;
use sx_base::Blob;

/// A line for each command, and in front of it one for its stream where it begins one.
#[derive(Debug, Drop)]
pub struct DumpLines;

impl ItemForm for DumpLines {
    ghost piece = { dump_lines };

    fn add(&mut self, begins: bool, item: &Item<'_>, to: &mut Blob) -> Result<(), AllocError> {
        if begins {
            push_stream_line(item.version, to)?;
        }
        push_line(item, to)
    }
}

/// Appends the line of a stream of this version.
pub fn push_stream_line(version: u32, to: &mut Blob) -> Result<(), AllocError>
    ensures added { OnOk result (to.new ≡ to.old ++ stream_line version) }
    ensures kept { IsFront to.old to.new }
{
    to.push_all(b"stream ")?;
    push_decimal(version as u64, to)?;
    to.push_all(b"\n")
}

#[tactic(auto, unfolding(send_model::specs::Lines::command_line, crate::specs::Values::command_text))]
fn push_line(item: &Item<'_>, to: &mut Blob) -> Result<(), AllocError>
    ensures added { OnOk result (to.new ≡ to.old ++ command_line (item_of 1 item.now)) }
    ensures kept { IsFront to.old to.new }
{
    push_decimal(item.number, to)?;
    to.push_all(b" ")?;
    push_decimal(item.offset, to)?;
    to.push_all(b" ")?;
    push_command(&item.command, Contents::Count, to)?;
    to.push_all(b"\n")
}
