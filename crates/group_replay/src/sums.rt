// Checksums that go on over frames.
ghost use Rattle.std.specs.Prelude.{◌≡◌, ◌*◌, ◌^◌, ◌<◌};
ghost use Rattle.send_model.specs.Checksum.{shifts, crc_of};
ghost use Rattle.group_replay.specs.Sums.{by_bits, IsSummed};

use crate::rows::ROWS;
use crc32c_part::update;
use tlv_frame::FRAME_HEAD_LEN;

// Frames that are shorter are summed byte by byte.
const LONG: usize = 512;

// The checksum gone on with over a frame that has its own. Checksums are linear, so that of a long
// body is not taken again.
pub(crate) fn sum_past(sum: u32, frame: &[u8]) -> u32
    requires { IsSummed frame.now }
    ensures { result ≡ crc_of sum frame.now }
{
    if frame.len() < LONG {
        return update(sum, frame);
    }
    let (head, body) = frame.split_at(FRAME_HEAD_LEN);
    let own = u32::from_le_bytes([head[6], head[7], head[8], head[9]]);
    let first = update(update(0, &head[..6]), &[0; 4]);
    own ^ moved(update(sum, head) ^ first, body.len())
}

// What a checksum becomes that goes on over as many zero bytes.
fn moved(sum: u32, count: usize) -> u32
    requires { count < 2 ^ 19 }
    ensures { result ≡ shifts (8 * count) sum }
{
    let mut out = sum;
    let mut left = count;
    for row in &ROWS {
        if left & 1 == 1 {
            out = by_bits(row, out);
        }
        left >>= 1;
    }
    out
}

// The numbers of a row whose bits are set, taken together.
fn by_bits(row: &[u32; 32], sum: u32) -> u32
    ensures { result ≡ by_bits row.now sum }
{
    let mut out = 0;
    let mut left = sum;
    for entry in row {
        // With an `if` in its place this is six times slower.
        out ^= *entry * (left & 1);
        left >>= 1;
    }
    out
}
