// The arguments that several commands have.
ghost use Rattle.std.specs.Prelude.{◌≡◌, ◌≤◌, ℕ, List, map, take, drop, length, option_map, IfSome};
ghost use Rattle.std.specs.String.{string_bytes};
ghost use Rattle.program_model.specs.FileWords.{GivenFiles};
ghost use Rattle.program_model.specs.Requests as requests;
ghost use Rattle.program_model.specs.Requests.{a_store, a_snapshot, a_file, a_base_and_files, a_base_and_file, base_of_word, two_numbers};
ghost use Rattle.command_line.specs.Meaning.{base_meant};
ghost use Rattle.command_line.specs.Given.{guards_in};
ghost use Rattle.command_line.specs.Splits.{guards_split};

use crate::count::Count;
use crate::file_arguments::{FileArgument, FileArguments};
use crate::guard_arguments::is_guard_word;
use crate::request::Base;
use crate::word::Word;
use guard_rules::{number_of, parse_guard};

// The word that stands for no store.
const NO_STORE: &str = "none";

/// `STORE`, or `FILE`
pub(crate) fn only(words: &[String]) -> Option<&str>
    ensures store { (request : List ℕ → requests.Request)
        → option_map (λ word. request word.now) result
        ≡ a_store request (map string_bytes words.now) }
    ensures file { (request : List ℕ → requests.Request)
        → option_map (λ word. request word.now) result
        ≡ a_file request (map string_bytes words.now) }
{
    let [word] = words else {
        return None;
    };
    Some(word.as_str())
}

/// A store and the name of a snapshot.
#[derive(Debug, Drop)]
pub(crate) struct Snapshot<'a> {
    pub(crate) store: &'a str,
    pub(crate) name: Word<'a>,
}

/// `STORE NAME`
pub(crate) fn snapshot_in(words: &[String]) -> Option<Snapshot<'_>>
    ensures { (request : List ℕ → List ℕ → requests.Request)
        → option_map (λ snapshot. request snapshot.store.now snapshot.name) result
        ≡ a_snapshot request (map string_bytes words.now) }
{
    let [store, name] = words else {
        return None;
    };
    let name = Word::of(name.as_str())?;
    Some(Snapshot {
        store: store.as_str(),
        name,
    })
}

/// A base, and files over it.
#[derive(Debug, Drop)]
pub(crate) struct OverBase<'a> {
    pub(crate) base: Base<'a>,
    pub(crate) files: FileArguments<'a>,
}

/// `STORE FILE..`, where STORE may be `none`
pub(crate) fn over_base_in(words: &[String]) -> Option<OverBase<'_>>
    ensures { (request : requests.Base → GivenFiles → requests.Request)
        → option_map (λ over. request (base_meant over.base) over.files) result
        ≡ a_base_and_files request (map string_bytes words.now) }
{
    let [store, files @ ..] = words else {
        return None;
    };
    let files = FileArguments::of(files)?;
    Some(OverBase {
        base: base_of(store.as_str()),
        files,
    })
}

/// A base, and one file over it.
#[derive(Debug, Drop)]
pub(crate) struct OverBaseOnce<'a> {
    pub(crate) base: Base<'a>,
    pub(crate) file: FileArgument<'a>,
}

/// `STORE FILE`, where STORE may be `none`
pub(crate) fn over_base_once(words: &[String]) -> Option<OverBaseOnce<'_>>
    ensures { (request : requests.Base → GivenFiles → requests.Request)
        → option_map (λ over. request (base_meant over.base) over.file) result
        ≡ a_base_and_file request (map string_bytes words.now) }
{
    let [store, file @ ..] = words else {
        return None;
    };
    let file = FileArgument::of(file)?;
    Some(OverBaseOnce {
        base: base_of(store.as_str()),
        file,
    })
}

// The base that a word says.
fn base_of(store: &str) -> Base<'_>
    ensures { base_meant result ≡ base_of_word store.now }
{
    if store == NO_STORE {
        return Base::Nothing;
    }
    Base::InStore { store }
}

/// A chain's number of parts, and the number that it is made from.
#[derive(Debug, Clone, Copy)]
pub(crate) struct Chain {
    pub(crate) count: Count,
    pub(crate) seed: u64,
}

/// `COUNT SEED`
pub(crate) fn chain_in(words: &[String]) -> Option<Chain>
    ensures { (request : ℕ → ℕ → requests.Request)
        → option_map (λ chain. request chain.count chain.seed) result
        ≡ two_numbers request (map string_bytes words.now) }
{
    let [count, seed] = words else {
        return None;
    };
    let count = number_of(count.as_bytes())?;
    let seed = number_of(seed.as_bytes())?;
    let count = Count::of(count)?;
    Some(Chain { count, seed })
}

/// The place behind the guard words that others begin with; `None` exactly where one of them means
/// no guard.
pub(crate) fn guards_end(words: &[String]) -> Option<usize>
    ensures within { IfSome result (λ end. end ≤ length words.now) }
    ensures split { option_map (λ end. record {
      guards = guards_in (take end (map string_bytes words.now));
      words = drop end (map string_bytes words.now);
    }) result
        ≡ guards_split (map string_bytes words.now) }
{
    for place in 0..words.len() {
        let word = words[place].as_str();
        if !is_guard_word(word) {
            return Some(place);
        }
        if parse_guard(word).is_none() {
            return None;
        }
    }
    Some(words.len())
}
