// The entries of a map, one after the other.
ghost use Rattle.std.specs.Prelude.{◌≡◌, []};
ghost use Rattle.std.specs.Iterator.{item_count, YieldsFirstRef};
ghost use Rattle.shared_map.specs.Pages.{joined, AreFilled};

use crate::keys::{Copied, Key};
use crate::page::Page;
use std::marker::Model;

/// The entries that are left, seen as their list.
#[derive(Debug, Drop)]
pub struct Entries<'a, K: Key, V: Copied> {
    rest: &'a [(K, V)],
    pages: &'a [Page<K, V>],
}

impl<'a, K: Key, V: Copied> Model for Entries<'a, K, V> {
    ghost use Rattle.std.specs.Prelude.{List, ◌++◌};
    ghost use Rattle.shared_map.specs.Pages.{joined, AreFilled};

    ghost Value = { List (K × V) };

    ghost view = { λ e. e.rest.now ++ joined e.pages.now };

    ghost invariant = { λ e. AreFilled e.pages.now };
}

impl<'a, K: Key, V: Copied> Entries<'a, K, V> {
    // The entries of pages.
    pub(crate) fn new(pages: &'a [Page<K, V>]) -> Entries<'a, K, V>
        requires { AreFilled pages.now }
        ensures { result ≡ joined pages.now }
    {
        Entries { rest: &[], pages }
    }

    /// No entries.
    pub fn none() -> Entries<'a, K, V>
        ensures { result ≡ [] }
    {
        Entries {
            rest: &[],
            pages: &[],
        }
    }
}

impl<'a, K: Key, V: Copied> Iterator for Entries<'a, K, V> {
    type Item = &'a (K, V);

    ghost next_gives = { YieldsFirstRef (λ s. s) };

    ghost remaining = { item_count (λ s. s) };

    fn next(&mut self) -> Option<&'a (K, V)> {
        if let [first, rest @ ..] = self.rest {
            self.rest = rest;
            return Some(first);
        }
        let [page, pages @ ..] = self.pages else {
            return None;
        };
        let [first, rest @ ..] = page.entries() else {
            return None;
        };
        self.pages = pages;
        self.rest = rest;
        Some(first)
    }
}
