// The map.
ghost use Rattle.std.specs.Prelude.{◌≡◌, ◌+◌, ◌<◌, ◌^◌, [], length, vec_len, slice_index_or, IfOk, OnOk, OnErr};
ghost use Rattle.std.specs.Option.{option_copied};
ghost use Rattle.send_model.specs.Map.{IsMap, value_at, with_value, without};
ghost use Rattle.shared_map.specs.Sought.{entry_after};
ghost use Rattle.shared_map.specs.Edited.{IsEdited, PutsNew};
ghost use Rattle.shared_map.specs.Pages.{joined, AreFilled, AreKept, IsFree, in_two, in_one};

use crate::entries::Entries;
use crate::keys::{Copied, Edit, Key, Sought};
use crate::page::Page;
use crate::place::{Spot, home, past, seek};
use std::alloc::{AllocError, Global};
use std::marker::Model;

/// An ordered map, seen as the list of its entries in rising order of their keys. Copies share
/// their entries.
#[derive(Debug, Drop)]
pub struct SharedMap<K: Key, V: Copied> {
    pages: Vec<Page<K, V>>,
    len: u64,
    alloc: Global,
}

impl<K: Key, V: Copied> Model for SharedMap<K, V> {
    ghost use Rattle.send_model.specs.Map.{Map};
    ghost use Rattle.shared_map.specs.Pages.{joined, AreKept};

    ghost Value = { Map K V };

    ghost view = { λ m. joined m.pages.items };

    ghost invariant = { λ m. AreKept K.order m.pages.items m.len };
}

impl<K: Key, V: Copied> SharedMap<K, V> {
    /// A map without entries. Takes no memory; later calls take theirs from `alloc`.
    pub fn new(alloc: Global) -> SharedMap<K, V>
        ensures { result ≡ [] }
    {
        SharedMap {
            pages: Vec::new(alloc),
            len: 0,
            alloc,
        }
    }

    /// The number of entries.
    pub fn len(&self) -> u64
        ensures { result ≡ length self.now }
    {
        self.len
    }

    /// The entries in rising order of their keys.
    pub fn iter(&self) -> Entries<'_, K, V>
        ensures entries { result ≡ self.now }
        ensures ordered { IsMap K.order self.now }
        ensures fits { length self.now < 2 ^ 64 }
    {
        let _len = self.len;
        Entries::new(&self.pages)
    }

    /// A map of the same entries, which shares them. Fails for want of memory alone.
    pub fn copy(&self) -> Result<SharedMap<K, V>, AllocError>
        ensures { IfOk result (λ map. map ≡ self.now) }
    {
        let mut pages = Vec::with_capacity(self.alloc, self.pages.len())?;
        for page in &self.pages {
            pages.push(page.copy()?)?;
        }
        Ok(SharedMap {
            pages,
            len: self.len,
            alloc: self.alloc,
        })
    }

    /// The value at a key, if there is one. Takes no memory.
    pub fn get<Q: Sought<K>>(&self, query: &Q) -> Option<&V>
        ensures { option_copied result ≡ value_at K.order (Q.sought query.now) self.now }
    {
        match seek(&self.pages, query) {
            Ok(spot) => Some(&self.pages[spot.page].entries()[spot.place].1),
            Err(_) => None,
        }
    }

    /// The entry with the least key above a key, if there is one. Takes no memory.
    pub fn next_after<Q: Sought<K>>(&self, query: &Q) -> Option<&(K, V)>
        ensures { option_copied result ≡ entry_after K.order (Q.sought query.now) self.now }
    {
        let at = home(&self.pages, query);
        if at >= self.pages.len() {
            return None;
        }
        let entries = self.pages[at].entries();
        let place = past(entries, query);
        if place < entries.len() {
            return Some(&entries[place]);
        }
        if at + 1 < self.pages.len() {
            return self.pages[at + 1].entries().first();
        }
        None
    }

    /// Sets the value at a key. Fails for want of memory alone, and then nothing changes.
    pub fn insert<Q: Sought<K>>(&mut self, query: &Q, value: V) -> Result<(), AllocError>
        ensures ok { OnOk result
            (self.new ≡ with_value K.order (Q.sought query.now) value self.old) }
        ensures err { OnErr result (self.new ≡ self.old) }
    {
        let alloc = self.alloc;
        match seek(&self.pages, query) {
            Ok(spot) => {
                let page = &mut self.pages[spot.page];
                page.set_at(alloc, spot.place, value)?;
                Ok(())
            }
            Err(spot) => {
                self.len = put_new(&mut self.pages, self.len, alloc, spot, query, value)?;
                Ok(())
            }
        }
    }

    /// Sets the value at a key that has none, and says whether it had none; where the key has a
    /// value nothing changes. Fails for want of memory alone, and then nothing changes.
    pub fn insert_new<Q: Sought<K>>(&mut self, query: &Q, value: V) -> Result<bool, AllocError>
        ensures ok { IfOk result (λ fresh. PutsNew (value_at K.order (Q.sought query.now) self.old)
            (with_value K.order (Q.sought query.now) value self.old) self.old self.new fresh) }
        ensures err { OnErr result (self.new ≡ self.old) }
    {
        let alloc = self.alloc;
        match seek(&self.pages, query) {
            Ok(_) => Ok(false),
            Err(spot) => {
                self.len = put_new(&mut self.pages, self.len, alloc, spot, query, value)?;
                Ok(true)
            }
        }
    }

    /// Changes the value at a key where it stands, and says whether there is one; where there is
    /// none nothing changes. A page that is shared is copied first. Fails for want of memory alone,
    /// and then nothing is said of the values or of the edit.
    pub fn edit<Q: Sought<K>, E: Edit<V>>(
        &mut self,
        query: &Q,
        edit: &mut E,
    ) -> Result<bool, AllocError>
        ensures { IfOk result
            (IsEdited (λ value. (E.edited edit.old value, E.left edit.old value))
            (value_at K.order (Q.sought query.now) self.old)
            (λ value. with_value K.order (Q.sought query.now) value self.old)
            (self.old, edit.old) (self.new, edit.new)) }
    {
        let alloc = self.alloc;
        let Ok(spot) = seek(&self.pages, query) else {
            return Ok(false);
        };
        let page = &mut self.pages[spot.page];
        page.edit_at(alloc, spot.place, edit)?;
        Ok(true)
    }

    /// Takes out the entry of a key, if there is one, and hands over its value. Fails for want of
    /// memory alone, and then nothing changes.
    pub fn remove<Q: Sought<K>>(&mut self, query: &Q) -> Result<Option<V>, AllocError>
        ensures ok { OnOk result (self.new ≡ without K.order (Q.sought query.now) self.old) }
        ensures was { IfOk result (λ was. was ≡ value_at K.order (Q.sought query.now) self.old) }
        ensures err { OnErr result (self.new ≡ self.old) }
    {
        let alloc = self.alloc;
        let Ok(spot) = seek(&self.pages, query) else {
            return Ok(None);
        };
        let entries = self.pages[spot.page].entries();
        if entries.len() == 1 {
            let was = entries[spot.place].1.copy()?;
            let _page = self.pages.remove(spot.page);
            self.len -= 1;
            return Ok(Some(was));
        }
        let page = &mut self.pages[spot.page];
        let (_key, was) = page.take_at(alloc, spot.place)?;
        self.len -= 1;
        lengthen(&mut self.pages, alloc, spot.page);
        Ok(Some(was))
    }
}

// Puts a new entry where its key would stand, and says how many entries there are then.
fn put_new<K: Key, V: Copied, Q: Sought<K>>(
    pages: &mut Vec<Page<K, V>>,
    len: u64,
    alloc: Global,
    spot: Spot,
    query: &Q,
    value: V,
) -> Result<u64, AllocError>
    requires kept { AreKept K.order pages.old.items len }
    requires free { IsFree K.order (Q.sought query.now) pages.old.items spot.page spot.place }
    ensures kept { IfOk result (AreKept K.order pages.new.items) }
    ensures ok { OnOk result
        (joined pages.new.items ≡ with_value K.order (Q.sought query.now) value
        (joined pages.old.items)) }
    ensures err { OnErr result (pages.new.items ≡ pages.old.items) }
{
    let Some(more) = len.checked_add(1) else {
        return Err(AllocError);
    };
    let key = query.own(alloc)?;
    if spot.page >= pages.len() {
        let mut entries = Vec::new(alloc);
        entries.push((key, value))?;
        pages.push(Page::new(alloc, entries)?)?;
        return Ok(more);
    }
    let page = &mut pages[spot.page];
    page.put_at(alloc, spot.place, (key, value))?;
    shorten(pages, alloc, spot.page, spot.place);
    Ok(more)
}

// Splits a page that has too many entries, if there is memory for that.
fn shorten<K: Key, V: Copied>(pages: &mut Vec<Page<K, V>>, alloc: Global, at: usize, place: usize)
    requires { at < vec_len pages.old }
    ensures same { joined pages.new.items ≡ joined pages.old.items }
    ensures filled { AreFilled pages.old.items → AreFilled pages.new.items }
{
    let count = pages[at].entries().len();
    if count > 1 && count > K::most_entries() {
        let cut = if place == count - 1 { place } else { count / 2 };
        let _ = split(pages, alloc, at, cut);
    }
}

// Makes two pages of one. All memory that this needs is taken before an entry moves.
fn split<K: Key, V: Copied>(
    pages: &mut Vec<Page<K, V>>,
    alloc: Global,
    at: usize,
    cut: usize,
) -> Result<(), AllocError>
    requires within { at < vec_len pages.old }
    requires low { 0 < cut }
    requires high { cut < length (slice_index_or pages.old.items at []) }
    ensures ok { OnOk result (pages.new.items ≡ in_two pages.old.items at cut) }
    ensures err { OnErr result (pages.new.items ≡ pages.old.items) }
    ensures same { joined pages.new.items ≡ joined pages.old.items }
    ensures filled { AreFilled pages.old.items → AreFilled pages.new.items }
{
    pages.reserve(1)?;
    let page = &mut pages[at];
    let high = page.split_off(alloc, cut)?;
    pages.insert(at + 1, high)?;
    Ok(())
}

// Makes one page of two that have few entries, if there is memory for that.
fn lengthen<K: Key, V: Copied>(pages: &mut Vec<Page<K, V>>, alloc: Global, at: usize)
    requires { at < vec_len pages.old }
    ensures same { joined pages.new.items ≡ joined pages.old.items }
    ensures filled { AreFilled pages.old.items → AreFilled pages.new.items }
{
    if pages.len() - at > 1 {
        let most = K::most_entries() / 4;
        let few = pages[at].entries().len() < most;
        let next_few = pages[at + 1].entries().len() < most;
        if few && next_few {
            let _ = join(pages, alloc, at);
        }
    }
}

// Makes one page of two.
fn join<K: Key, V: Copied>(
    pages: &mut Vec<Page<K, V>>,
    alloc: Global,
    at: usize,
) -> Result<(), AllocError>
    requires { at + 1 < vec_len pages.old }
    ensures ok { OnOk result (pages.new.items ≡ in_one pages.old.items at) }
    ensures err { OnErr result (pages.new.items ≡ pages.old.items) }
    ensures same { joined pages.new.items ≡ joined pages.old.items }
    ensures filled { AreFilled pages.old.items → AreFilled pages.new.items }
{
    let both = pages[at].with(alloc, &pages[at + 1])?;
    pages[at] = both;
    let _next = pages.remove(at + 1);
    Ok(())
}
