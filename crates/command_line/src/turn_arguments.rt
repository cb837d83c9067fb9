// Arguments that are files which take turns.
ghost use Rattle.std.specs.Prelude.{◌≡◌, ◌≢◌, ◌≤◌, ◌<◌, ◌-◌, [], true, length, map, IfOk, Some, is_some};
ghost use Rattle.std.specs.List.{AllByRecursion};
ghost use Rattle.std.specs.Option.{option_map};
ghost use Rattle.std.specs.String.{string_bytes};
ghost use Rattle.send_model.specs.Words.{new_guards};
ghost use Rattle.store_model.specs.Turns.{is_turn, schedule_of};
ghost use Rattle.store_model.specs.TurnDues.{shared};
ghost use Rattle.program_model.specs.TurnWords.{turn_files};
ghost use Rattle.guard_rules.specs.AnyKind.{any_kept};
ghost use Rattle.command_line.specs.Given.{turns_in, turns_among};

use crate::file_names::{Among, FileNames};
use crate::guard_arguments::{GuardArguments, is_guard_word};
use guard_rules::{AnyGuard, parse_guard};
use std::alloc::{AllocError, Global};
use std::marker::Model;
use std::mem;

// The most files that take turns.
const MOST_FILES: usize = 10;

/// Arguments that are files which take turns, each with its guards in front, and their schedule.
/// They are seen as these.
#[derive(Debug, Drop)]
pub struct TurnArguments<'a> {
    schedule: &'a str,
    words: &'a [String],
}

impl<'a> Model for TurnArguments<'a> {
    ghost use Rattle.std.specs.Prelude.{◌≡◌, true, map, is_some};
    ghost use Rattle.std.specs.String.{string_bytes};
    ghost use Rattle.command_line.specs.Given.{Turns, turns_in, turns_given};

    ghost Value = { Turns };

    ghost view = { λ a. turns_given a.schedule.now (map string_bytes a.words.now) };

    ghost invariant = { λ a. is_some (turns_in a.schedule.now (map string_bytes a.words.now))
        ≡ true };
}

impl<'a> TurnArguments<'a> {
    /// The files that words are, and what a word says of their turns; `None` exactly where words
    /// are no files with their guards, there are none or more than ten, or the word is no schedule
    /// of theirs. Takes no memory.
    pub fn of(schedule: &'a str, words: &'a [String]) -> Option<TurnArguments<'a>>
        ensures { result ≡ turns_in schedule.now (map string_bytes words.now) }
    {
        let files = files_in(words)?;
        if files == 0 || files > MOST_FILES || !is_schedule(schedule.as_bytes(), files) {
            return None;
        }
        Some(TurnArguments { schedule, words })
    }

    /// The schedule: a letter for each turn, which is the number of the file, from 0 on.
    pub fn schedule(&self) -> &'a [u8]
        ensures places { map (λ letter. letter - 48) result.now ≡ self.now.schedule }
        ensures within { AllByRecursion (λ letter. (48 ≤ letter)
            × (letter - 48 < length self.now.files.files)) result.now }
    {
        self.schedule.as_bytes()
    }

    /// The guards of all files, in order.
    pub fn guards(&self) -> GuardArguments<'a>
        ensures { result ≡ self.now.files.guards }
    {
        GuardArguments::among(self.words)
    }

    /// The names of the files.
    pub fn names(&self) -> FileNames<'a>
        ensures { result ≡ self.now.files.files }
    {
        FileNames::among(self.words, Among::Guards)
    }

    /// How many of the guards each file has.
    ///
    /// # Errors
    /// There is no memory.
    pub fn shares(&self, alloc: Global) -> Result<Vec<usize>, AllocError>
        ensures { IfOk result (λ shares. shares.items ≡ self.now.files.shares) }
    {
        shares_in(alloc, self.words)
    }

    /// The names of the files, and the guards of each, with nothing counted. There are some files,
    /// and as many shares.
    ///
    /// # Errors
    /// There is no memory.
    pub fn sessions(&self, alloc: Global) -> Result<Sessions, AllocError>
        ensures files { IfOk result (λ sessions.
            map string_bytes sessions.files.items ≡ self.now.files.files) }
        ensures guards { IfOk result (λ sessions.
            map (λ own. map any_kept own.items) sessions.guards.items
            ≡ shared (new_guards self.now.files.guards) self.now.files.shares) }
        ensures some { self.now.files.files ≢ [] }
        ensures as_many { length self.now.files.shares ≡ length self.now.files.files }
    {
        sessions_in(alloc, self.words)
    }
}

/// Files that take turns.
#[derive(Debug, Drop)]
pub struct Sessions {
    /// Their names.
    pub files: Vec<String>,
    /// The guards of each.
    pub guards: Vec<Vec<AnyGuard>>,
}

// How many files there are among words: the others are guards of the file behind them. None where a
// guard word means no guard, or there is no file behind it.
fn files_in(words: &[String]) -> Option<usize>
    ensures { result ≡ option_map (λ turns. length turns.files)
        (turn_files (map string_bytes words.now)) }
{
    let mut files = 0;
    let mut place = words.len();
    while place > 0 {
        place -= 1;
        let word = words[place].as_str();
        if !is_guard_word(word) {
            files += 1;
        } else {
            parse_guard(word)?;
            if files == 0 {
                return None;
            }
        }
    }
    Some(files)
}

// Whether a word is a schedule for so many files.
fn is_schedule(word: &[u8], files: usize) -> bool
    ensures { result ≡ is_some (schedule_of files word.now) }
{
    for place in 0..word.len() {
        if !is_turn(word[place], files) {
            return false;
        }
    }
    !word.is_empty()
}

// Whether a byte is the digit of a file.
fn is_turn(letter: u8, files: usize) -> bool
    ensures { result ≡ is_turn files letter }
{
    letter >= b'0' && letter <= b'9' && usize::from(letter - b'0') < files
}

// How many guards stand in front of each file.
fn shares_in(alloc: Global, words: &[String]) -> Result<Vec<usize>, AllocError>
    requires given { is_some (turn_files (map string_bytes words.now)) ≡ true }
    ensures { IfOk result (λ shares. shares.items
        ≡ (turns_among (map string_bytes words.now)).shares) }
{
    let mut shares = Vec::new(alloc);
    let mut own = 0;
    for place in 0..words.len() {
        if is_guard_word(words[place].as_str()) {
            own += 1;
        } else {
            shares.push(own)?;
            own = 0;
        }
    }
    Ok(shares)
}

// The files among words, and the guards of each, with nothing counted.
fn sessions_in(alloc: Global, words: &[String]) -> Result<Sessions, AllocError>
    requires given { is_some (turn_files (map string_bytes words.now)) ≡ true }
    ensures files { IfOk result (λ sessions. map string_bytes sessions.files.items
        ≡ (turns_among (map string_bytes words.now)).files) }
    ensures guards { IfOk result (λ sessions.
        map (λ own. map any_kept own.items) sessions.guards.items
        ≡ shared (new_guards (turns_among (map string_bytes words.now)).guards)
        (turns_among (map string_bytes words.now)).shares) }
{
    let mut files = Vec::new(alloc);
    let mut guards = Vec::new(alloc);
    let mut own = Vec::new(alloc);
    for place in 0..words.len() {
        let word = words[place].as_str();
        match parse_guard(word) {
            Some(spec) => own.push(AnyGuard::new(spec))?,
            None => {
                files.push(String::from_str(alloc, word)?)?;
                guards.push(mem::replace(&mut own, Vec::new(alloc)))?;
            }
        }
    }
    Ok(Sessions { files, guards })
}
