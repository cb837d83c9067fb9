// Reading words that are escaped.
ghost use Rattle.std.specs.Prelude.{◌≡◌, ◌≢◌, ◌<◌, ◌≤◌, [], ◌∷◌, drop, length, true, false, IfOk, IfSome, IfNone, None, Some};
ghost use Rattle.std.specs.Option.{option_map};
ghost use Rattle.send_model.specs.Attribute.{IsBytes};
ghost use Rattle.send_model.specs.Printed.{is_plain};
ghost use Rattle.program_model.specs.EscapedWords.{hex_value, escape_of, unescaped, is_escaped_word, meant_by};
ghost use Rattle.escaped_words.specs.Fronts.{StandsFirst};

use std::alloc::{AllocError, Global};
use sx_base::Blob;

/// The bytes that a word means where a name or a path stands; `None` where it begins `escaped:` and
/// no escaped form follows.
///
/// # Errors
/// There is no memory.
pub fn meant_by(alloc: Global, word: &[u8]) -> Result<Option<Blob>, AllocError>
    ensures meant { IfOk result (λ bytes. bytes ≡ meant_by word.now) }
    ensures bytes { IsBytes word.now }
{
    let mut bytes = Blob::new(alloc);
    let Some(form) = form_in(word) else {
        bytes.push_all(word)?;
        return Ok(Some(bytes));
    };
    let mut at = 0;
    while at < form.len() {
        let Some(first) = first_in(&form[at..]) else {
            return Ok(None);
        };
        bytes.push_all(&[first.byte])?;
        at += first.len;
    }
    Ok(Some(bytes))
}

/// How many bytes these are. Takes no memory.
pub fn meant_len(word: &[u8]) -> Option<usize>
    ensures len { result ≡ option_map length (meant_by word.now) }
{
    let Some(form) = form_in(word) else {
        return Some(word.len());
    };
    let mut count = 0;
    let mut at = 0;
    while at < form.len() {
        let first = first_in(&form[at..])?;
        count += 1;
        at += first.len;
    }
    Some(count)
}

// What stands behind `escaped:` in a word that begins so.
fn form_in(word: &[u8]) -> Option<&[u8]>
    ensures form { IfSome result (λ form. form.now ≡ drop 8 word.now) }
    ensures escaped { IfSome result (λ form. is_escaped_word word.now ≡ true) }
    ensures plain { IfNone result (is_escaped_word word.now ≡ false) }
{
    if !is_escaped_word(word) {
        return None;
    }
    Some(&word[8..])
}

fn is_escaped_word(word: &[u8]) -> bool
    ensures escaped { result ≡ is_escaped_word word.now }
    ensures long { result ≡ true → 8 ≤ length word.now }
{
    word.starts_with(b"escaped:")
}

// The byte that stands first in an escaped form, and how many bytes say it.
#[derive(Debug, Clone, Copy)]
struct First {
    byte: u8,
    len: usize,
}

fn first_in(form: &[u8]) -> Option<First>
    ensures first { IfSome result (λ first. StandsFirst form.now first.byte first.len) }
    ensures none { IfNone result (form.now ≢ [] → unescaped form.now ≡ None) }
{
    let byte = *form.first()?;
    if is_plain(byte) {
        return Some(First { byte, len: 1 });
    }
    if form.len() < 4 {
        return None;
    }
    let byte = escape_of(byte, form[1], form[2], form[3])?;
    Some(First { byte, len: 4 })
}

// The byte that a backslash, the letter x and two digits stand for.
fn escape_of(first: u8, second: u8, third: u8, fourth: u8) -> Option<u8>
    ensures { result ≡ escape_of first second third fourth }
{
    if first != b'\\' || second != b'x' {
        return None;
    }
    let high = hex_value(third)?;
    let low = hex_value(fourth)?;
    let byte = 16 * high + low;
    if is_plain(byte) {
        return None;
    }
    Some(byte)
}

#[tactic(auto, unfolding(program_model::specs::EscapedWords::hex_value))]
fn hex_value(glyph: u8) -> Option<u8>
    ensures value { result ≡ hex_value glyph }
    ensures digit { IfSome result (λ value. value < 16) }
{
    if (b'0'..=b'9').contains(&glyph) {
        return Some(glyph - b'0');
    }
    if (b'a'..=b'f').contains(&glyph) {
        return Some(glyph - b'a' + 10);
    }
    None
}

#[tactic(auto, unfolding(send_model::specs::Printed::is_plain))]
fn is_plain(byte: u8) -> bool
    ensures { result ≡ is_plain byte }
{
    0x21 <= byte && byte <= 0x7e && byte != b'\\'
}
