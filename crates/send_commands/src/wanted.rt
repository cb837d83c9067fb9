// Whether the attributes that a command wants are there, and lawful.
ghost use Rattle.std.specs.Prelude.{◌≡◌, List, IfOk};
ghost use Rattle.send_model.specs.Spelling.{Attribute};
ghost use Rattle.send_model.specs.Reading.{wanted_there};
ghost use Rattle.tlv_frame.specs.Table.{StandsFor};
ghost use Rattle.sx_base.specs.Answers.{Reads};
ghost use Rattle.send_model.specs.Command.{row};
ghost use Rattle.send_commands.specs.Meaning.{kind_meant};
ghost use Rattle.send_commands.specs.Values.{HaveForms, are_timely};

use crate::form::Form;
use crate::kind::Kind;
use crate::values::moment;
use sx_base::Refusal;
use tlv_frame::AttrTable;
use tlv_frame::attribute_numbers::{ATIME, MTIME};

// Nanoseconds in a second.
const SECOND: u32 = 1_000_000_000;

// That the attributes of these numbers are there with the lengths of their forms, or the refusal of
// the first that is not.
pub(crate) fn find_wanted(table: &AttrTable<'_>, wanted: &[u16]) -> Result<(), Refusal>
    ensures exact { (attributes : List Attribute) → StandsFor table.now attributes
        → Reads (λ x. x) result (wanted_there wanted.now attributes) }
    ensures forms { IfOk result (λ x. HaveForms table.now wanted.now) }
{
    for i in 0..wanted.len() {
        let kind = wanted[i];
        match table.get(kind) {
            Some(bytes) => {
                if !Form::of(kind).fits(bytes) {
                    return Err(Refusal::BadAttribute(kind));
                }
            }
            None => return Err(Refusal::MissingAttribute(kind)),
        }
    }
    Ok(())
}

// Whether the moments among the attributes that a command wants, which have their forms, have less
// than a second of nanoseconds. One command alone wants moments.
#[tactic(auto, unfolding(send_model::specs::Command::row, send_model::specs::Attribute::form_of))]
pub(crate) fn times_lawful(table: &AttrTable<'_>, kind: Kind) -> bool
    requires forms { HaveForms table.now (row (kind_meant kind)).wanted }
    ensures { result ≡ are_timely table.now (row (kind_meant kind)).wanted }
{
    match kind {
        Kind::Utimes => {
            moment(table, MTIME).nanos < SECOND && moment(table, ATIME).nanos < SECOND
        }
        _ => true,
    }
}
