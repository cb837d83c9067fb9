// Words that say a parent.
ghost use Rattle.std.specs.Prelude.{◌≡◌, take, drop, Some};
ghost use Rattle.std.specs.Option.{option_map, option_copied};
ghost use Rattle.send_model.specs.Guards.{after_text};
ghost use Rattle.std.specs.Str.{bytes_eq};
ghost use Rattle.part_names.specs.Overriding.{key_of};
ghost use Rattle.program_model.specs.FileWords.{is_parent_word, parent_word, given_parent};

use guard_rules::number_of;
use itoa::Buffer;
use part_names::Parent;
use uuid::Uuid;

// A UUID with its hyphens has so many characters.
const UUID_TEXT: usize = 36;

// Whether a word is to say a parent.
pub(crate) fn is_parent_word(word: &str) -> bool
    ensures { result ≡ is_parent_word word.now }
{
    word.as_bytes().starts_with(b"parent:")
}

// The parent that a word says, if it says one. Takes no memory.
pub(crate) fn parent_given(word: &str) -> Option<Parent>
    ensures { option_map key_of result ≡ given_parent word.now }
{
    let word = word.as_bytes();
    let Ok(uuid) = Uuid::try_parse_ascii(first(behind(word, 7), UUID_TEXT)) else {
        return None;
    };
    let ctransid = number_of(behind(word, 44))?;
    let parent = Parent { uuid, ctransid };
    if !says(word, &parent) {
        return None;
    }
    Some(parent)
}

// Whether a word is the one that says this parent.
fn says(word: &[u8], parent: &Parent) -> bool
    ensures { result ≡ bytes_eq word.now (parent_word (key_of parent.now)) }
{
    let mut room = [0; UUID_TEXT];
    let uuid = parent.uuid.hyphenated().encode_lower(&mut room);
    let mut digits = Buffer::new();
    let number = digits.format(parent.ctransid);
    let Some(rest) = behind_text(word, b"parent:") else {
        return false;
    };
    let Some(rest) = behind_text(rest, uuid.as_bytes()) else {
        return false;
    };
    let Some(rest) = behind_text(rest, b":") else {
        return false;
    };
    rest == number.as_bytes()
}

// What stands behind a text in bytes that begin with it.
fn behind_text<'a>(bytes: &'a [u8], text: &[u8]) -> Option<&'a [u8]>
    ensures { option_copied result ≡ after_text text.now bytes.now }
{
    if first(bytes, text.len()) != text {
        return None;
    }
    Some(behind(bytes, text.len()))
}

// The bytes behind so many; none where there are fewer.
fn behind(bytes: &[u8], count: usize) -> &[u8]
    ensures { result.now ≡ drop count bytes.now }
{
    if bytes.len() < count {
        return &[];
    }
    &bytes[count..]
}

// So many bytes; all where there are fewer.
fn first(bytes: &[u8], count: usize) -> &[u8]
    ensures { result.now ≡ take count bytes.now }
{
    if bytes.len() < count {
        return bytes;
    }
    &bytes[..count]
}
