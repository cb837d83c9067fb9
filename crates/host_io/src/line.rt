// The line that says how far a run is.
ghost use Rattle.std.specs.Prelude.{◌≡◌, ◌+◌, ◌≤◌, ◌<◌, ◌^◌, ◌++◌, length, take, decimal, IfOk, OnOk};
ghost use Rattle.host_io.specs.Showing.{unit_of, unit_name, ending, amount, amounts, text_of, line_of};

use itoa::Buffer;
use std::alloc::{AllocError, Global};
use sx_base::{Blob, escape_into};

// Of an escaped name so many bytes are shown, of a longer one the last 27 behind three points.
const NAME: usize = 30;

const END: usize = 27;
// So many columns of a terminal the text takes at the most: one less than a terminal of 80 has.
const COLUMNS: usize = 79;

/// How far a run is.
#[derive(Debug, Clone, Copy)]
pub struct HowFar<'a> {
    /// The name of the file that is read.
    pub name: &'a str,
    /// The number of the pass.
    pub pass: u64,
    /// How many bytes of the pass are read.
    pub done: u64,
    /// Of how many, if this is known.
    pub all: Option<u64>,
}

/// The line that says how far a run is: it goes to the first column, says the file that is read,
/// the number of the pass, and how many bytes of the pass are read of how many, and clears what
/// stood behind. But for the four bytes that move and clear, it is at most 79 columns wide.
pub fn line_of(alloc: Global, how_far: &HowFar<'_>) -> Result<Blob, AllocError>
    ensures says { IfOk result (λ line. line ≡ line_of how_far.now.name.now how_far.now.pass
        how_far.now.done how_far.now.all) }
    ensures fits { IfOk result (λ line. length line ≤ 79 + 4) }
{
    let text = whole_text(alloc, how_far)?;
    let mut line = Blob::new(alloc);
    line.push_all(b"\r")?;
    line.push_all(front(text.as_slice(), COLUMNS))?;
    line.push_all(b"\x1b[K")?;
    Ok(line)
}

// The text before it is cut to the columns of a terminal.
fn whole_text(alloc: Global, how_far: &HowFar<'_>) -> Result<Blob, AllocError>
    ensures { IfOk result (λ text. take 79 text ≡ text_of how_far.now.name.now how_far.now.pass
        how_far.now.done how_far.now.all) }
{
    let mut shown = Blob::new(alloc);
    escape_into(how_far.name.as_bytes(), &mut shown)?;
    let mut text = Blob::new(alloc);
    text.push_all(b"btrsend: reading ")?;
    push_ending(shown.as_slice(), &mut text)?;
    text.push_all(b", pass ")?;
    push_number(how_far.pass, &mut text)?;
    text.push_all(b", ")?;
    push_amounts(how_far.done, how_far.all, &mut text)?;
    Ok(text)
}

// Appends a text, of a long one its end.
#[tactic(auto, unfolding(crate::specs::Showing::ending))]
fn push_ending(text: &[u8], to: &mut Blob) -> Result<(), AllocError>
    ensures { OnOk result (to.new ≡ to.old ++ ending text.now) }
{
    if text.len() > NAME {
        to.push_all(b"...")?;
        return to.push_all(&text[text.len() - END..]);
    }
    to.push_all(text)
}

fn push_amounts(done: u64, all: Option<u64>, to: &mut Blob) -> Result<(), AllocError>
    ensures { OnOk result (to.new ≡ to.old ++ amounts done all) }
{
    match all {
        None => {
            push_amount(unit_of(done), done, to)?;
            to.push_all(unit_name(done))
        }
        Some(all) => {
            push_amount(unit_of(all), done, to)?;
            to.push_all(b" of ")?;
            push_amount(unit_of(all), all, to)?;
            to.push_all(unit_name(all))
        }
    }
}

fn push_amount(unit: u64, n: u64, to: &mut Blob) -> Result<(), AllocError>
    requires some { 0 < unit }
    requires small { unit ≤ 2 ^ 40 }
    ensures { OnOk result (to.new ≡ to.old ++ amount unit n) }
{
    push_number(n / unit, to)?;
    to.push_all(b".")?;
    push_number(n % unit * 10 / unit, to)
}

fn push_number(n: u64, to: &mut Blob) -> Result<(), AllocError>
    ensures { OnOk result (to.new ≡ to.old ++ decimal n) }
{
    let mut buffer = Buffer::new();
    to.push_all(buffer.format(n).as_bytes())
}

#[tactic(auto, unfolding(crate::specs::Showing::unit_of))]
fn unit_of(n: u64) -> u64
    ensures unit { result ≡ unit_of n }
    ensures some { 0 < result }
    ensures small { result ≤ 2 ^ 40 }
{
    if n < 1 << 20 {
        1 << 10
    } else if n < 1 << 30 {
        1 << 20
    } else if n < 1 << 40 {
        1 << 30
    } else {
        1 << 40
    }
}

#[tactic(auto, unfolding(crate::specs::Showing::unit_name))]
fn unit_name(n: u64) -> &'static [u8]
    ensures { result.now ≡ unit_name n }
{
    if n < 1 << 20 {
        b" KiB"
    } else if n < 1 << 30 {
        b" MiB"
    } else if n < 1 << 40 {
        b" GiB"
    } else {
        b" TiB"
    }
}

// The first bytes, as many as are there of `most`.
fn front(bytes: &[u8], most: usize) -> &[u8]
    ensures bytes { result.now ≡ take most bytes.now }
    ensures short { length result.now ≤ most }
{
    if bytes.len() <= most {
        return bytes;
    }
    &bytes[..most]
}
