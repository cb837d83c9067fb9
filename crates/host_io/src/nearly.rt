// What is wrong with arguments that nearly fit.
use escaped_words::meant_len;
use file_words::are_given;
use guard_rules::parse_guard;
use std::alloc::{AllocError, Global};

// `parent:` and a UUID with its hyphens have so many characters.
const PARENT_UUID: usize = 43;

/// Whether one of the words begins as an escaped name and is none.
pub(crate) fn have_no_form(words: &[String]) -> bool {
    for word in words {
        let word = word.as_bytes();
        if meant_len(word.strip_prefix(b"name:").unwrap_or(word)).is_none() {
            return true;
        }
    }
    false
}

/// Whether one of the words begins as a guard and gives none.
pub(crate) fn have_no_guard(words: &[String]) -> bool {
    for word in words {
        if is_guard_word(word.as_str()) && parse_guard(word.as_str()).is_none() {
            return true;
        }
    }
    false
}

/// Whether one of the words begins as a parent and says none.
pub(crate) fn have_no_parent(alloc: Global, words: &[String]) -> Result<bool, AllocError> {
    for word in words {
        if is_parent_word(word.as_str()) && !says_parent(alloc, word.as_str())? {
            return Ok(true);
        }
    }
    Ok(false)
}

// Whether a word says a parent: whether it may stand in front of a file.
fn says_parent(alloc: Global, word: &str) -> Result<bool, AllocError> {
    let mut words = Vec::new(alloc);
    words.push(String::from_str(alloc, word)?)?;
    words.push(String::from_str(alloc, "file")?)?;
    Ok(are_given(words.as_slice()))
}

/// Whether two words in front of one file give it a name each, or say one UUID twice.
pub(crate) fn say_twice(words: &[String]) -> bool {
    let mut front = 0;
    for place in 0..words.len() {
        if !is_in_front(words[place].as_str()) {
            front = place + 1;
        } else if says_again(words.get(front..place), words[place].as_str()) {
            return true;
        }
    }
    false
}

// Whether a word says what one of the words in front of it says.
fn says_again(front: Option<&[String]>, word: &str) -> bool {
    let front = front.unwrap_or(&[]);
    front.iter().any(|other| say_same(other.as_str(), word))
}

// Whether two words give a name each, or a CTRANSID each for one UUID.
fn say_same(one: &str, other: &str) -> bool {
    if is_name_word(one) {
        return is_name_word(other);
    }
    match (
        one.as_bytes().get(..PARENT_UUID),
        other.as_bytes().get(..PARENT_UUID),
    ) {
        (Some(one), Some(other)) => one == other,
        _ => false,
    }
}

/// Whether a word is to say something of the file behind it.
pub(crate) fn is_in_front(word: &str) -> bool {
    is_name_word(word) || is_parent_word(word)
}

/// Whether a word is to be a guard's.
pub(crate) fn is_guard_word(word: &str) -> bool {
    word.as_bytes().starts_with(b"guard:")
}

fn is_name_word(word: &str) -> bool {
    word.as_bytes().starts_with(b"name:")
}

fn is_parent_word(word: &str) -> bool {
    word.as_bytes().starts_with(b"parent:")
}
