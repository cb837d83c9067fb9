// The text of a file.
ghost use Rattle.std.specs.Prelude.{◌≡◌, ◌≤◌, ◌++◌, [], ◌∷◌, OnOk};
ghost use Rattle.send_model.specs.Words.{first_file};
ghost use Rattle.send_commands.specs.Meaning.{meaning_of};
ghost use Rattle.sx_base.specs.Asks.{IsReadOnce};
ghost use Rattle.sx_base.specs.Bytes.{IsFront};
ghost use Rattle.sx_base.specs.Calls.{Caused, IfAllTold, Wrote, SteadyIfDone};
ghost use Rattle.sx_base.specs.Later.{AskedOnly};
ghost use Rattle.text_model.specs.Texts.{item_lines, text_line};
ghost use Rattle.stream_text.specs.TextAnswers.{TextEnds};

use cmd_reader::Item;
use send_commands::Command;
use std::alloc::{AllocError, Global};
use stream_dump::{Contents, ItemForm, push_command, push_stream_line, write_file};
use sx_base::{Blob, Inputs, Outcome, Sink};

/// Writes a line for each command of the file that can be read, with all its values, and before the
/// first of each stream one for the stream. The file is read once, in order. `Done` says that it is
/// whole, and `Refused` gives its first fault; with both `out` got all these lines, and with every
/// other outcome a front part of them. `InputTooLong` comes exactly where the file is too long.
#[tactic(auto, using(crate::proofs::FileTexts::printed))]
pub fn text<I: Inputs, O: Sink>(alloc: Global, inputs: &mut I, file: &str, out: &mut O) -> Outcome
    ensures same { I.told inputs.new ≡ I.told inputs.old }
    ensures later { I.faults inputs.old ≤ I.faults inputs.new }
    ensures out_later { O.faults out.old ≤ O.faults out.new }
    ensures steady { SteadyIfDone (I.faults inputs.old) (I.faults inputs.new) result }
    ensures ends_steady { SteadyIfDone (I.ends inputs.old) (I.ends inputs.new) result }
    ensures asked { AskedOnly I.Inputs inputs.old inputs.new (IsReadOnce file.now) }
    ensures out_steady { SteadyIfDone (O.faults out.old) (O.faults out.new) result }
    ensures cause { Caused (I.faults inputs.old) (I.faults inputs.new)
        (O.faults out.old) (O.faults out.new) result }
    ensures printed { IfAllTold (I.told inputs.old) (file.now ∷ [])
        (λ files. Wrote (O.taken out.old) (O.taken out.new)
        (TextEnds (first_file files) result)) }
{
    write_file(alloc, &mut TextLines, inputs, file, out)
}

// A line for each command, and in front of it one for its stream where it begins one.
#[derive(Debug, Drop)]
struct TextLines;

impl ItemForm for TextLines {
    ghost piece = { item_lines };

    fn add(&mut self, begins: bool, item: &Item<'_>, to: &mut Blob) -> Result<(), AllocError> {
        if begins {
            push_stream_line(item.version, to)?;
        }
        push_text_line(&item.command, to)
    }
}

// Appends the line of a command.
#[tactic(auto, unfolding(text_model::specs::Texts::text_line, stream_dump::specs::Values::command_text))]
fn push_text_line(command: &Command<'_>, to: &mut Blob) -> Result<(), AllocError>
    ensures added { OnOk result (to.new ≡ to.old ++ text_line (meaning_of command.now)) }
    ensures kept { IsFront to.old to.new }
{
    push_command(command, Contents::Digits, to)?;
    to.push_all(b"\n")
}
