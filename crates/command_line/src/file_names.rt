// The names of files, one after the other.
ghost use Rattle.std.specs.Prelude.{◌≡◌, ◌<◌, ◌+◌, ◌∷◌, [], map, drop, length, option_map, IfSome, IfNone};
ghost use Rattle.std.specs.String.{string_bytes};
ghost use Rattle.std.specs.Iterator.{YieldsFirstRef, item_count};
ghost use Rattle.store_model.specs.Requests.{word_at};
ghost use Rattle.send_model.specs.NamedWords.{is_name_word};
ghost use Rattle.program_model.specs.FileWords.{is_parent_word};
ghost use Rattle.command_line.specs.Names.{names_file, names_in, numbered};

use crate::guard_arguments::is_guard_word;
use std::marker::Model;

/// The names of the files of a request in their order, each as it stands among the words. Contracts
/// see the list of those that are left.
#[derive(Debug, Drop)]
pub struct FileNames<'a> {
    lone: Option<&'a str>,
    words: &'a [String],
    among: Among,
}

// What may stand in front of files.
#[derive(Debug, Clone, Copy, PartialEq, Eq)]
pub(crate) enum Among {
    // What is said of a file.
    Sayings,
    // Guards.
    Guards,
}

impl<'a> Model for FileNames<'a> {
    ghost use Rattle.std.specs.Prelude.{ℕ, List, map, ◌++◌};
    ghost use Rattle.std.specs.String.{string_bytes};
    ghost use Rattle.command_line.specs.Names.{lone_name, names_in};

    ghost Value = { List (List ℕ) };

    ghost view = { λ n. lone_name n.lone ++ names_in n.among (map string_bytes n.words.now) };
}

impl<'a> FileNames<'a> {
    // No names.
    pub(crate) fn none() -> FileNames<'a>
        ensures { result ≡ [] }
    {
        FileNames {
            lone: None,
            words: &[],
            among: Among::Sayings,
        }
    }

    // One name.
    pub(crate) fn one(name: &'a str) -> FileNames<'a>
        ensures { result ≡ name.now ∷ [] }
    {
        FileNames {
            lone: Some(name),
            words: &[],
            among: Among::Sayings,
        }
    }

    // The words that name files.
    pub(crate) fn among(words: &'a [String], among: Among) -> FileNames<'a>
        ensures { result ≡ names_in among (map string_bytes words.now) }
    {
        FileNames {
            lone: None,
            words,
            among,
        }
    }

    /// The name of a number, which is counted from 1.
    pub fn numbered(self, number: u64) -> Option<&'a str>
        ensures { option_map (λ name. name.now) result ≡ numbered self.entry number }
    {
        let mut left = number;
        for name in self {
            if left == 1 {
                return Some(name);
            }
            left = left.saturating_sub(1);
        }
        None
    }
}

impl<'a> Iterator for FileNames<'a> {
    type Item = &'a str;

    ghost next_gives = { YieldsFirstRef (λ names. names) };

    ghost remaining = { item_count (λ names. names) };

    fn next(&mut self) -> Option<&'a str> {
        if let Some(name) = self.lone {
            self.lone = None;
            return Some(name);
        }
        let place = file_at(self.words, self.among)?;
        let name = self.words[place].as_str();
        self.words = &self.words[place + 1..];
        Some(name)
    }
}

// The place of the first word that names a file.
fn file_at(words: &[String], among: Among) -> Option<usize>
    ensures within { IfSome result (λ place. place < length words.now) }
    ensures first { IfSome result (λ place. names_in among (map string_bytes words.now)
        ≡ word_at (map string_bytes words.now) place
        ∷ names_in among (drop (place + 1) (map string_bytes words.now))) }
    ensures none { IfNone result (names_in among (map string_bytes words.now) ≡ []) }
{
    for place in 0..words.len() {
        if names_file(words[place].as_str(), among) {
            return Some(place);
        }
    }
    None
}

// Whether a word names a file.
fn names_file(word: &str, among: Among) -> bool
    ensures { result ≡ names_file among word.now }
{
    match among {
        Among::Sayings => !is_name_word(word) && !is_parent_word(word),
        Among::Guards => !is_guard_word(word),
    }
}

// Whether a word is to give a name.
fn is_name_word(word: &str) -> bool
    ensures { result ≡ is_name_word word.now }
{
    word.as_bytes().starts_with(b"name:")
}

// Whether a word is to say a parent.
fn is_parent_word(word: &str) -> bool
    ensures { result ≡ is_parent_word word.now }
{
    word.as_bytes().starts_with(b"parent:")
}
