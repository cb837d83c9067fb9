//! Paths, and the names that they consist of.

ghost use Rattle.std.specs.Prelude.{◌≡◌, ◌==◌, ℕ, List, Some, None, MatchResult, position};
ghost use Rattle.std.specs.Iterator.{YieldsFirstRef, item_count};
ghost use Rattle.send_model.specs.Path.{slash, path_names};
ghost use Rattle.path_rules.specs.Pieces.{pieces_left};

use crate::names::name_ok;
use std::marker::Model;

// The most bytes that a path has. Source: PATH_MAX of Linux, less the zero byte at its end.
const LONGEST_PATH: usize = 4_095;

/// The answer to bytes that are no path.
#[derive(Debug, Clone, Copy, PartialEq, Eq, Drop)]
pub struct BadPath;

/// The names of a path in order, from the root on. Contracts see the list of those that are left.
#[derive(Debug, Drop)]
pub struct Parts<'a> {
    left: Option<&'a [u8]>,
}

impl<'a> Model for Parts<'a> {
    ghost Value = { List (List ℕ) };

    ghost view = { λ parts. pieces_left parts.left };
}

impl<'a> Iterator for Parts<'a> {
    type Item = &'a [u8];

    ghost next_gives = { YieldsFirstRef (λ names. names) };

    ghost remaining = { item_count (λ names. names) };

    fn next(&mut self) -> Option<&'a [u8]> {
        let left = self.left?;
        match slash_in(left) {
            Some(at) => {
                self.left = Some(&left[at + 1..]);
                Some(&left[..at])
            }
            None => {
                self.left = None;
                Some(left)
            }
        }
    }
}

/// The names of a path: an iterator over those between the `/`, and over none for the empty path,
/// which is the root.
///
/// # Errors
/// `BadPath` exactly where the path is longer than 4,095 bytes, or is not empty and one of its
/// names is not `name_ok`.
pub fn split(path: &[u8]) -> Result<Parts<'_>, BadPath>
    ensures { MatchResult result (λ names. path_names path.now ≡ Some names)
        (λ _. path_names path.now ≡ None) }
{
    if path.is_empty() {
        return Ok(Parts { left: None });
    }
    if path.len() > LONGEST_PATH {
        return Err(BadPath);
    }
    for name in (Parts { left: Some(path) }) {
        if !name_ok(name) {
            return Err(BadPath);
        }
    }
    Ok(Parts { left: Some(path) })
}

// The place of the first `/`.
fn slash_in(bytes: &[u8]) -> Option<usize>
    ensures { result ≡ position (λ b. b == slash) bytes.now }
{
    bytes.iter().position(|b| *b == b'/')
}
