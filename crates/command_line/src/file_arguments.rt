// Arguments that are files.
ghost use Rattle.std.specs.Prelude.{◌≡◌, ◌≢◌, ◌==◌, true, [], map, length, IfOk};
ghost use Rattle.std.specs.String.{string_bytes};
ghost use Rattle.send_model.specs.Overridden.{AreLawfulOverrides};
ghost use Rattle.command_line.specs.Given.{some_given, one_given};

use crate::file_names::{Among, FileNames};
use file_words::{GivenFiles, are_given};
use std::alloc::{AllocError, Global};
use std::marker::Model;

/// Arguments that are files, one at least, with what is said in front of each. They are seen as
/// these files.
#[derive(Debug, Drop)]
pub struct FileArguments<'a> {
    words: &'a [String],
}

impl<'a> Model for FileArguments<'a> {
    ghost use Rattle.std.specs.Prelude.{◌≡◌, true, map, is_some};
    ghost use Rattle.std.specs.String.{string_bytes};
    ghost use Rattle.program_model.specs.FileWords as given;
    ghost use Rattle.command_line.specs.Given.{some_given, files_given};

    ghost Value = { given.GivenFiles };

    ghost view = { λ a. files_given (map string_bytes a.words.now) };

    ghost invariant = { λ a. is_some (some_given (map string_bytes a.words.now)) ≡ true };
}

impl<'a> FileArguments<'a> {
    /// The files that words are; `None` exactly where there are none, or words are no files with
    /// what is said in front of them. Takes no memory.
    pub fn of(words: &'a [String]) -> Option<FileArguments<'a>>
        ensures { result ≡ some_given (map string_bytes words.now) }
    {
        if words.is_empty() || !are_given(words) {
            return None;
        }
        Some(FileArguments { words })
    }

    /// The files, with what is said in front of each.
    ///
    /// # Errors
    /// There is no memory.
    pub fn given(&self, alloc: Global) -> Result<GivenFiles, AllocError>
        ensures given { IfOk result (λ given. given ≡ self.now) }
        ensures some { IfOk result (λ given. given.files ≢ []) }
        ensures lawful { IfOk result (λ given. AreLawfulOverrides given.overrides) }
    {
        GivenFiles::of(alloc, self.words)
    }

    /// The names of the files.
    pub fn names(&self) -> FileNames<'a>
        ensures { result ≡ self.now.files }
    {
        FileNames::among(self.words, Among::Sayings)
    }
}

/// One file, with what is said in front of it. It is seen as a list of this file alone.
#[derive(Debug, Drop)]
pub struct FileArgument<'a> {
    files: FileArguments<'a>,
}

impl<'a> Model for FileArgument<'a> {
    ghost use Rattle.std.specs.Prelude.{◌≡◌, ◌==◌, true, length};
    ghost use Rattle.program_model.specs.FileWords as given;

    ghost Value = { given.GivenFiles };

    ghost view = { λ a. a.files };

    ghost invariant = { λ a. (length a.files.files == 1) ≡ true };
}

impl<'a> FileArgument<'a> {
    /// The file that words are; `None` exactly where they are no file, or several, with what is
    /// said in front of them. Takes no memory.
    pub fn of(words: &'a [String]) -> Option<FileArgument<'a>>
        ensures { result ≡ one_given (map string_bytes words.now) }
    {
        let files = FileArguments::of(words)?;
        if !is_one(files.names()) {
            return None;
        }
        Some(FileArgument { files })
    }

    /// The file, with what is said in front of it.
    ///
    /// # Errors
    /// There is no memory.
    pub fn given(&self, alloc: Global) -> Result<GivenFiles, AllocError>
        ensures given { IfOk result (λ given. given ≡ self.now) }
        ensures one { IfOk result (λ given. (length given.files == 1) ≡ true) }
        ensures lawful { IfOk result (λ given. AreLawfulOverrides given.overrides) }
    {
        self.files.given(alloc)
    }

    /// The name of the file, as a list of it alone.
    pub fn names(&self) -> FileNames<'a>
        ensures { result ≡ self.now.files }
    {
        self.files.names()
    }
}

// Whether names are one name.
fn is_one(names: FileNames<'_>) -> bool
    ensures { result ≡ (length names.entry == 1) }
{
    let mut names = names;
    names.next().is_some() && names.next().is_none()
}
