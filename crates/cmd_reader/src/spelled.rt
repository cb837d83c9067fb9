// Whether a body has a command's wanted attributes and nothing else.
ghost use Rattle.std.specs.Prelude.{◌≡◌, ◌≤◌, IfSome};
ghost use Rattle.send_model.specs.Command.{kind_of_number};
ghost use Rattle.send_model.specs.Spelling.{greatest_body};
ghost use Rattle.tlv_frame.specs.Table.{slot_at};
ghost use Rattle.cmd_reader.specs.Alone.{stand, stand_of, end_at};

use send_commands::Kind;
use tlv_frame::{AttrTable, attr_head_len};

// Whether a body of this length has the wanted attributes of a command and nothing else.
pub(crate) fn is_canonical(version: u32, cmd: u16, table: &AttrTable<'_>, len: usize) -> bool
    requires few { len ≤ greatest_body }
    ensures exact { result ≡ stand_of table.now len (kind_of_number version cmd) }
{
    match Kind::from_number(version, cmd) {
        Some(kind) => stand_alone(table, len, kind.wanted()),
        None => false,
    }
}

// Whether the attributes of a body of this length are those of these numbers alone, in this order.
fn stand_alone(table: &AttrTable<'_>, len: usize, wanted: &[u16]) -> bool
    requires few { len ≤ greatest_body }
    ensures exact { result ≡ stand table.now len wanted.now 0 }
{
    let mut at = 0;
    for i in 0..wanted.len() {
        match end_of(table, len, wanted[i], at) {
            Some(end) => at = end,
            None => return false,
        }
    }
    at == len
}

// Where the attribute of this number ends, None where it does not begin at this place.
fn end_of(table: &AttrTable<'_>, len: usize, kind: u16, at: usize) -> Option<usize>
    requires few { len ≤ greatest_body }
    requires within { at ≤ len }
    ensures exact { result ≡ end_at table.now.version kind len at (slot_at table.now.slots kind) }
    ensures within { IfSome result (λ end. end ≤ len) }
{
    let Some(place) = table.place(kind) else {
        return None;
    };
    let Some(bytes) = table.get(kind) else {
        return None;
    };
    if place != at + attr_head_len(table.version(), kind)
        || place > len
        || bytes.len() > len - place
    {
        return None;
    }
    Some(place + bytes.len())
}
