// The files of words, and what is said in front of them.
ghost use Rattle.std.specs.Prelude.{◌≡◌, ◌≢◌, [], true, map, is_some, IfOk, OnOk, Some};
ghost use Rattle.std.specs.String.{string_bytes};
ghost use Rattle.send_model.specs.Overridden.{AreLawfulOverrides};
ghost use Rattle.program_model.specs.FileWords.{given_in, said_too};

use crate::checking::{is_name_word, name_given, stands_in_front};
use crate::parents::parent_given;
use part_names::{FileOverride, Overrides};
use std::alloc::{AllocError, Global};
use std::marker::Model;

/// The files of words in their order, and what is said in front of them.
#[derive(Debug, Drop)]
pub struct GivenFiles {
    files: Vec<String>,
    overrides: Overrides,
}

impl Model for GivenFiles {
    ghost use Rattle.std.specs.Prelude.{map};
    ghost use Rattle.std.specs.String.{string_bytes};
    ghost use Rattle.program_model.specs.FileWords as given;

    ghost Value = { given.GivenFiles };

    ghost view = { λ g. record { files = map string_bytes g.files.items; overrides = g.overrides } };
}

impl GivenFiles {
    /// The files of words that are files with what is said in front of them.
    ///
    /// # Errors
    /// There is no memory.
    pub fn of(alloc: Global, words: &[String]) -> Result<GivenFiles, AllocError>
        requires given { is_some (given_in (map string_bytes words.now)) ≡ true }
        ensures given { IfOk result (λ given.
            given_in (map string_bytes words.now) ≡ Some given) }
        ensures some { words.now ≢ [] → IfOk result (λ given. given.files ≢ []) }
        ensures lawful { IfOk result (λ given. AreLawfulOverrides given.overrides) }
    {
        let mut files = Vec::new(alloc);
        let mut overrides = Overrides::none(alloc);
        let mut said = FileOverride::none(alloc);
        for place in 0..words.len() {
            let word = words[place].as_str();
            if stands_in_front(word) {
                say_more(alloc, &mut said, word)?;
            } else {
                overrides.push(said)?;
                files.push(String::from_str(alloc, word)?)?;
                said = FileOverride::none(alloc);
            }
        }
        overrides.are_given();
        Ok(GivenFiles { files, overrides })
    }

    /// The names of the files.
    pub fn files(&self) -> &[String]
        ensures files { map string_bytes result.now ≡ self.now.files }
    {
        self.files.as_slice()
    }

    /// What is said in front of them.
    pub fn overrides(&self) -> &Overrides
        ensures overrides { result.now ≡ self.now.overrides }
    {
        &self.overrides
    }
}

// Says what a word says, beside what is said already.
fn say_more(alloc: Global, said: &mut FileOverride, word: &str) -> Result<(), AllocError>
    requires more { is_some (said_too said.old word.now) ≡ true }
    ensures said { OnOk result (said_too said.old word.now ≡ Some said.new) }
{
    if is_name_word(word) {
        let name = name_given(alloc, word)?;
        said.say_name(name);
        return Ok(());
    }
    match parent_given(word) {
        Some(parent) => said.say_parent(parent),
        None => unreachable!(),
    }
}
