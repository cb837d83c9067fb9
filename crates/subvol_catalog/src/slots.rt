// The entries of a catalogue in the order in which they came, where taking one out moves no other.
ghost use Rattle.std.specs.Prelude.{◌≡◌, ℕ, ◌+◌, ◌==◌, [], ◌∷◌, ◌++◌, Some, filter, is_some, length, slice_get, IfNone, IfSome, OnOk, OnErr};
ghost use Rattle.indexmap.specs.IndexMap.{spare, IsUnique};
ghost use Rattle.std.specs.Map.{lookup, remove_entry, set_value};
ghost use Rattle.std.specs.Option.{option_map, option_copied};
ghost use Rattle.subvol_catalog.specs.Entries.{entry_of, listed};
ghost use Rattle.subvol_catalog.specs.Slots.{occupied, AreSlots, AreMostlyFull};

use crate::entries::Entries;
use crate::entry::Entry;
use indexmap::IndexMap;
use std::alloc::{AllocError, Global};
use std::marker::Model;

/// Entries, each in a slot under a number of its own, in the order in which they came. The slot of
/// an entry that was taken out stays, empty, as a tombstone. Tombstones are cleared once they are
/// half of the slots, so taking out an entry costs its share of one clearing, and moves no other by
/// itself.
#[derive(Debug, Drop)]
pub struct Slots<V> {
    slots: IndexMap<u64, Option<Entry<V>>>,
    // How many slots are no tombstones.
    count: usize,
    // The number of the entry that comes next. All others are below it.
    next: u64,
}

impl<V> Model for Slots<V> {
    ghost use Rattle.std.specs.Prelude.{length};
    ghost use Rattle.indexmap.specs.IndexMap.{spare};
    ghost use Rattle.subvol_catalog.specs.Slots.{Arrivals, occupied, AreSlots, AreMostlyFull};

    ghost Value = { Arrivals V };

    ghost view = { λ s. record { entries = occupied s.slots.entries; next = s.next } };

    ghost invariant = { λ s. AreSlots s.slots.entries s.count s.next
        × AreMostlyFull (length s.slots.entries) s.count (spare s.slots) };
}

impl<V> Slots<V> {
    // No slots. Takes no memory.
    pub(crate) fn new(alloc: Global) -> Slots<V>
        ensures { result.entries ≡ [] }
    {
        Slots {
            slots: IndexMap::new(alloc),
            count: 0,
            next: 0,
        }
    }

    // What takes memory for them.
    pub(crate) fn alloc(&self) -> Global {
        *self.slots.allocator()
    }

    // How many entries there are.
    pub(crate) fn len(&self) -> usize
        ensures { result ≡ length self.now.entries }
    {
        self.count
    }

    // The number of the entry that comes next.
    pub(crate) fn next_number(&self) -> u64
        ensures { result ≡ self.now.next }
    {
        self.next
    }

    // The entry of a number.
    pub(crate) fn get(&self, number: u64) -> Option<&Entry<V>>
        ensures { option_copied result ≡ lookup (λ k. number == k) self.now.entries }
    {
        let slot = self.slots.get(&number)?;
        slot.as_ref()
    }

    // The entry at a place: one look if there are no tombstones, else a step for each slot before
    // it.
    pub(crate) fn at(&self, place: usize) -> Option<&Entry<V>>
        ensures { option_map (λ e. entry_of e.now) result
            ≡ slice_get (listed self.now.entries) place }
    {
        if self.count < self.slots.len() {
            return self.iter().nth(place);
        }
        let (_, slot) = self.slots.get_index(place)?;
        slot.as_ref()
    }

    // The entries, one after the other.
    pub(crate) fn iter(&self) -> Entries<'_, V>
        ensures { result ≡ listed self.now.entries }
    {
        Entries::new(self.slots.values().as_slice())
    }
}

impl<V: Drop> Slots<V> {
    // An entry more, under the next number. Fails for want of memory, and if no number is left;
    // nothing is changed then.
    pub(crate) fn push(&mut self, entry: Entry<V>) -> Result<(), AllocError>
        ensures entries { OnOk result
            (self.new.entries ≡ self.old.entries ++ (self.old.next, entry) ∷ []) }
        ensures next { OnOk result (self.new.next ≡ self.old.next + 1) }
        ensures err { OnErr result (self.new ≡ self.old) }
    {
        let Some(next) = self.next.checked_add(1) else {
            return Err(AllocError);
        };
        // The length is what says that one more can be counted.
        let _slots = self.slots.len();
        self.slots.insert(self.next, Some(entry))?;
        self.count += 1;
        self.next = next;
        Ok(())
    }

    // The entry of a number, if there is one, takes a value.
    pub(crate) fn complete(&mut self, number: u64, value: V)
        ensures entries { IfSome (lookup (λ k. number == k) self.old.entries)
            (λ e. self.new.entries
            ≡ set_value (λ k. number == k) self.old.entries (record e { value = Some value })) }
        ensures none { IfNone (lookup (λ k. number == k) self.old.entries) (self.new ≡ self.old) }
        ensures next { self.new.next ≡ self.old.next }
    {
        let Some(slot) = self.slots.get_mut(&number) else {
            return;
        };
        let Some(entry) = slot else {
            return;
        };
        entry.value = Some(value);
    }

    // Takes out the entry of a number, if there is one.
    pub(crate) fn take(&mut self, number: u64) -> Option<Entry<V>>
        ensures entry { result ≡ lookup (λ k. number == k) self.old.entries }
        ensures entries { self.new.entries ≡ remove_entry (λ k. number == k) self.old.entries }
        ensures next { self.new.next ≡ self.old.next }
    {
        let slot = self.slots.get_mut(&number)?;
        let entry = slot.take()?;
        self.count -= 1;
        compact(&mut self.slots, self.count);
        Some(entry)
    }
}

// Clears the tombstones once they are half of the slots, and the slots are an eighth of the room. A
// clearing goes through all the room, so through sixteen times the tombstones at most.
fn compact<V: Drop>(slots: &mut IndexMap<u64, Option<Entry<V>>>, count: usize)
    requires counted { count ≡ length (occupied slots.old.entries) }
    ensures same { occupied slots.new.entries ≡ occupied slots.old.entries }
    ensures slots { (next : ℕ) → AreSlots slots.old.entries count next
        → AreSlots slots.new.entries count next }
    ensures full { AreMostlyFull (length slots.new.entries) count (spare slots.new) }
{
    let len = slots.len();
    if count <= len / 2 && slots.capacity() / 8 <= len {
        clear_tombstones(slots);
    }
}

// Clears the tombstones. What is left keeps its order.
fn clear_tombstones<V: Drop>(slots: &mut IndexMap<u64, Option<Entry<V>>>)
    ensures left { slots.new.entries ≡ filter (λ s. is_some s.1) slots.old.entries }
    ensures apart { IsUnique (λ a b. a == b) slots.new }
{
    slots.retain(
        |_number: &u64, slot: &mut Option<Entry<V>>| -> bool
            ensures { (result ≡ is_some slot.old) × (slot.new ≡ slot.old) }
        { slot.is_some() },
    );
}
