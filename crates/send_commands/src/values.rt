// The values of attributes that are there.
ghost use Rattle.std.specs.Prelude.{◌≡◌, ◌==◌, ◌≤◌, true, length, take};
ghost use Rattle.std.specs.Int.{w64, from_le_bytes};
ghost use Rattle.send_model.specs.Attribute.{HasRoom};
ghost use Rattle.send_model.specs.Command.{number_in, short_number_in, time_in};
ghost use Rattle.send_commands.specs.Meaning.{time_of};
ghost use Rattle.send_commands.specs.Values.{bytes_in};

use crate::command::Time;
use tlv_frame::AttrTable;
use uuid::Uuid;

// The bytes of an attribute, none where it is not there.
pub(crate) fn bytes<'a>(table: &AttrTable<'a>, kind: u16) -> &'a [u8]
    ensures bytes { result.now ≡ bytes_in table.now kind }
    ensures short { HasRoom table.now.version kind (length result.now) }
{
    match table.get(kind) {
        Some(bytes) => bytes,
        None => &[],
    }
}

// The identifier of sixteen bytes that an attribute is.
pub(crate) fn identifier(table: &AttrTable<'_>, kind: u16) -> Uuid
    requires fits { (length (bytes_in table.now kind) == 16) ≡ true }
    ensures uuid { result ≡ bytes_in table.now kind }
{
    match Uuid::from_slice(bytes(table, kind)) {
        Ok(uuid) => uuid,
        Err(_) => Uuid::nil(),
    }
}

// The number of eight bytes that an attribute is.
pub(crate) fn number(table: &AttrTable<'_>, kind: u16) -> u64
    requires fits { (length (bytes_in table.now kind) == 8) ≡ true }
    ensures number { result ≡ number_in (bytes_in table.now kind) }
{
    first_number(bytes(table, kind))
}

// The number of four bytes that an attribute is.
pub(crate) fn short_number(table: &AttrTable<'_>, kind: u16) -> u32
    requires fits { (length (bytes_in table.now kind) == 4) ≡ true }
    ensures number { result ≡ short_number_in (bytes_in table.now kind) }
{
    let bytes = bytes(table, kind);
    u32::from_le_bytes([bytes[0], bytes[1], bytes[2], bytes[3]])
}

// The moment of twelve bytes that an attribute is. Its nanoseconds may be a second or more.
pub(crate) fn moment(table: &AttrTable<'_>, kind: u16) -> Time
    requires fits { (length (bytes_in table.now kind) == 12) ≡ true }
    ensures moment { time_of result ≡ time_in (bytes_in table.now kind) }
{
    let bytes = bytes(table, kind);
    let secs = first_number(bytes);
    let nanos = u32::from_le_bytes([bytes[8], bytes[9], bytes[10], bytes[11]]);
    Time { secs, nanos }
}

// The number that the first eight bytes say.
fn first_number(bytes: &[u8]) -> u64
    requires whole { 8 ≤ length bytes.now }
    ensures number { result ≡ from_le_bytes w64 (take 8 bytes.now) }
{
    u64::from_le_bytes([
        bytes[0], bytes[1], bytes[2], bytes[3], bytes[4], bytes[5], bytes[6], bytes[7],
    ])
}
