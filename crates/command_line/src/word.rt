// A word for a name or a path.
ghost use Rattle.std.specs.Prelude.{◌≡◌, IfOk};
ghost use Rattle.send_model.specs.Attribute.{IsBytes};
ghost use Rattle.program_model.specs.EscapedWords.{meant_by};

use escaped_words::{meant_by, meant_len};
use std::alloc::{AllocError, Global};
use std::marker::Model;
use sx_base::Blob;

/// A word for a name or a path, which means its own bytes, or those whose escaped form stands
/// behind `escaped:`. It is seen as what it means.
#[derive(Debug, Drop)]
pub struct Word<'a> {
    text: &'a str,
}

impl<'a> Model for Word<'a> {
    ghost use Rattle.std.specs.Prelude.{◌≡◌, ℕ, List, is_some, true};
    ghost use Rattle.program_model.specs.EscapedWords.{meant_by, name_meant};

    ghost Value = { List ℕ };

    ghost view = { λ w. name_meant w.text.now };

    ghost invariant = { λ w. is_some (meant_by w.text.now) ≡ true };
}

impl<'a> Word<'a> {
    /// A word that means bytes; `None` exactly where it begins `escaped:` and no escaped form
    /// follows. Takes no memory.
    pub fn of(text: &'a str) -> Option<Word<'a>>
        ensures { result ≡ meant_by text.now }
    {
        if meant_len(text.as_bytes()).is_none() {
            return None;
        }
        Some(Word { text })
    }

    /// The bytes that it means.
    ///
    /// # Errors
    /// There is no memory.
    pub fn bytes(&self, alloc: Global) -> Result<Blob, AllocError>
        ensures meant { IfOk result (λ bytes. bytes ≡ self.now) }
    {
        match meant_by(alloc, self.text.as_bytes())? {
            Some(bytes) => Ok(bytes),
            None => unreachable!(),
        }
    }
}
