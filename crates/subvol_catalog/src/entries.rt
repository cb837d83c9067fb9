// The entries of a catalogue, one after the other.
ghost use Rattle.std.specs.Prelude.{◌≡◌};
ghost use Rattle.std.specs.Iterator.{YieldsFirstBy, item_count};
ghost use Rattle.subvol_catalog.specs.Entries.{entry_of, occupants};

use crate::entry::Entry;
use std::marker::Model;

/// The entries that are left, seen as their list.
#[derive(Debug, Drop)]
pub struct Entries<'a, V> {
    slots: &'a [Option<Entry<V>>],
}

impl<'a, V> Model for Entries<'a, V> {
    ghost use Rattle.std.specs.Prelude.{List};
    ghost use Rattle.send_model.specs.Store as meant;
    ghost use Rattle.subvol_catalog.specs.Entries.{occupants};

    ghost Value = { List (meant.Entry V) };

    ghost view = { λ e. occupants e.slots.now };
}

impl<'a, V> Entries<'a, V> {
    // The entries of the slots that are not empty.
    pub(crate) fn new(slots: &'a [Option<Entry<V>>]) -> Entries<'a, V>
        ensures { result ≡ occupants slots.now }
    {
        Entries { slots }
    }
}

impl<'a, V> Iterator for Entries<'a, V> {
    type Item = &'a Entry<V>;

    ghost next_gives = { YieldsFirstBy (λ e. entry_of e.now) (λ s. s) };

    ghost remaining = { item_count (λ s. s) };

    fn next(&mut self) -> Option<&'a Entry<V>> {
        while let [slot, rest @ ..] = self.slots {
            self.slots = rest;
            if let Some(entry) = slot {
                return Some(entry);
            }
        }
        None
    }
}
