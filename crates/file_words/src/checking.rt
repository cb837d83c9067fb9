// Whether words are files with what is said in front of them.
ghost use Rattle.std.specs.Prelude.{◌≡◌, true, drop, map, is_some, IfOk, None, Some};
ghost use Rattle.std.specs.List.{list_any};
ghost use Rattle.std.specs.String.{string_bytes};
ghost use Rattle.send_model.specs.NamedWords.{is_name_word};
ghost use Rattle.send_model.specs.Overridden.{Override, IsNewName};
ghost use Rattle.program_model.specs.FileWords.{given_in, given_name, stands_in_front, said_too};
ghost use Rattle.file_words.specs.Fronts.{says_uuid, IsSaid};

use crate::parents::{is_parent_word, parent_given};
use escaped_words::{meant_by, meant_len};
use std::alloc::{AllocError, Global};
use sx_base::Blob;
use uuid::Uuid;

// A name is shorter than this: an attribute has room for it.
const TOO_LONG: usize = 65_536;

/// Whether words are files with what is said in front of each: one name at most, for which an
/// attribute has room, and parents, of which no UUID is said twice. Takes no memory.
pub fn are_given(words: &[String]) -> bool
    ensures { result ≡ is_some (given_in (map string_bytes words.now)) }
{
    let mut front = 0;
    for place in 0..words.len() {
        let word = words[place].as_str();
        if !stands_in_front(word) {
            front = place + 1;
        } else if !says_more(&words[front..place], word) {
            return false;
        }
    }
    front == words.len()
}

// Whether a word stands in front of a file, whether or not it says anything.
pub(crate) fn stands_in_front(word: &str) -> bool
    ensures { result ≡ stands_in_front word.now }
{
    is_name_word(word) || is_parent_word(word)
}

// Whether a word says something more than the words in front of it.
fn says_more(front: &[String], word: &str) -> bool
    ensures { (said : Override) → IsSaid (map string_bytes front.now) said
        → result ≡ is_some (said_too said word.now) }
{
    if is_name_word(word) {
        return gives_name(word) && !say_name(front);
    }
    match parent_given(word) {
        Some(parent) => !say_uuid(front, parent.uuid),
        None => false,
    }
}

// Whether one of the words is to give a name.
fn say_name(words: &[String]) -> bool
    ensures { result ≡ list_any is_name_word (map string_bytes words.now) }
{
    for place in 0..words.len() {
        if is_name_word(words[place].as_str()) {
            return true;
        }
    }
    false
}

// Whether one of the words says a parent with this UUID.
fn say_uuid(words: &[String], uuid: Uuid) -> bool
    ensures { result ≡ list_any (says_uuid uuid) (map string_bytes words.now) }
{
    for place in 0..words.len() {
        if says_uuid(words[place].as_str(), uuid) {
            return true;
        }
    }
    false
}

// Whether a word says a parent with this UUID.
fn says_uuid(word: &str, uuid: Uuid) -> bool
    ensures { result ≡ says_uuid uuid word.now }
{
    if is_name_word(word) {
        return false;
    }
    match parent_given(word) {
        Some(parent) => parent.uuid == uuid,
        None => false,
    }
}

// Whether a word is to give a name.
pub(crate) fn is_name_word(word: &str) -> bool
    ensures { result ≡ is_name_word word.now }
{
    word.as_bytes().starts_with(b"name:")
}

// Whether a word gives a name for which an attribute has room.
pub(crate) fn gives_name(word: &str) -> bool
    requires name { is_name_word word.now ≡ true }
    ensures { result ≡ is_some (given_name word.now) }
{
    match meant_len(behind_front(word)) {
        Some(len) => len < TOO_LONG,
        None => false,
    }
}

// The name that a word gives.
pub(crate) fn name_given(alloc: Global, word: &str) -> Result<Blob, AllocError>
    requires name { is_name_word word.now ≡ true }
    requires gives { is_some (given_name word.now) ≡ true }
    ensures given { IfOk result (λ name. given_name word.now ≡ Some name) }
    ensures fits { IfOk result IsNewName }
{
    match meant_by(alloc, behind_front(word))? {
        Some(name) => Ok(name),
        None => unreachable!(),
    }
}

// What stands behind `name:` in a word that begins so.
fn behind_front(word: &str) -> &[u8]
    requires name { is_name_word word.now ≡ true }
    ensures behind { result.now ≡ drop 5 word.now }
{
    &word.as_bytes()[5..]
}
