// What a crash leaves of a disk in memory.
ghost use Rattle.std.specs.Prelude.{◌≡◌, IfOk};
ghost use Rattle.sx_base.specs.Disk.{IsImage};
ghost use Rattle.disk_model.specs.Stretch.{pending_in};
ghost use Rattle.disk_model.specs.Torn.{stable_of, IsLeft};

use crate::stretch::Stretch;
use std::alloc::{AllocError, Global};

/// An image that a crash now may leave: with choice 1 what is stable, and otherwise one drawn from
/// the number.
pub(crate) fn torn(alloc: Global, stretch: &Stretch, choice: u64) -> Result<Vec<u8>, AllocError>
    ensures image { IfOk result (λ image. IsImage (pending_in stretch.now) image.items) }
    ensures stable { choice ≡ 1 →
        IfOk result (λ image. image.items ≡ stable_of (pending_in stretch.now)) }
{
    let touched = stretch.touched.as_slice();
    let bytes = stretch.bytes.as_slice();
    let least = touched.len();
    let most = (stretch.greatest as usize).max(bytes.len());
    let size = if choice == 1 {
        most
    } else {
        let drawn = mixed(choice, u64::MAX) as usize;
        least + drawn % (most - least).saturating_add(1)
    };
    let mut image = Vec::with_capacity(alloc, size)?;
    for place in 0..least {
        let byte = bytes[place];
        let is_touched = touched[place];
        image.push(left_byte(is_touched, choice, place as u64, byte))?;
    }
    for place in least..size {
        let byte = bytes.get(place).copied().unwrap_or(0);
        image.push(drawn_byte(choice, place as u64, byte))?;
    }
    Ok(image)
}

// What a crash leaves of a byte.
fn left_byte(is_touched: bool, choice: u64, place: u64, byte: u8) -> u8
    ensures { IsLeft is_touched choice byte result }
{
    if is_touched {
        drawn_byte(choice, place, byte)
    } else {
        byte
    }
}

// A byte of which nothing is known: for choice 1 zero, and otherwise the byte that was written, a
// zero, a one or any other.
fn drawn_byte(choice: u64, place: u64, byte: u8) -> u8
    ensures { choice ≡ 1 → result ≡ 0 }
{
    if choice == 1 {
        return 0;
    }
    let number = mixed(choice, place);
    match number % 4 {
        0 => byte,
        1 => 0,
        2 => 1,
        _ => (number >> 40 & 0xff) as u8,
    }
}

// A number that looks as if drawn by chance.
fn mixed(choice: u64, place: u64) -> u64 {
    let start = choice
        .wrapping_mul(0x9E37_79B9_7F4A_7C15)
        .wrapping_add(place);
    let once = (start ^ (start >> 30)).wrapping_mul(0xBF58_476D_1CE4_E5B9);
    let twice = (once ^ (once >> 27)).wrapping_mul(0x94D0_49BB_1331_11EB);
    twice ^ (twice >> 31)
}
