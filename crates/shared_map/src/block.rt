// A run of entries that several maps may share.
ghost use Rattle.std.specs.Prelude.{◌≡◌, ◌++◌, ◌<◌, ◌≤◌, List, length, take, drop, IfOk, OnOk, OnErr};
ghost use Rattle.std.specs.List.{insert};
ghost use Rattle.shared_map.specs.Pages.{IsSetAt, IsEditedAt, KeepsKeyAt, IsTakenAt};

use crate::keys::{Copied, Edit, Key};
use std::alloc::{AllocError, Global};
use std::marker::Model;
use std::rc::Rc;

// A run of entries. Its copies share them, and a change of what is shared copies them first.
#[derive(Debug, Drop)]
pub(crate) struct Block<K, V> {
    rc: Rc<Vec<(K, V)>>,
}

impl<K, V> Model for Block<K, V> {
    ghost Value = { List (K × V) };

    ghost view = { λ b. b.rc.value.items };
}

// The entries, each copied, with room for one more.
fn copied<K: Key, V: Copied>(alloc: Global, entries: &[(K, V)]) -> Result<Vec<(K, V)>, AllocError>
    ensures { IfOk result (λ v. v.items ≡ entries.now) }
{
    let mut copies = Vec::with_capacity(alloc, entries.len().saturating_add(1))?;
    for entry in entries {
        copies.push((entry.0.copy_key()?, entry.1.copy()?))?;
    }
    Ok(copies)
}

// Moves the entries from `at` on into a block of their own, which has room for more. All memory
// that this needs is taken before they move.
fn moved<K: Key, V: Copied>(
    alloc: Global,
    entries: &mut Vec<(K, V)>,
    at: usize,
) -> Result<Block<K, V>, AllocError>
    requires { at ≤ length entries.old.items }
    ensures low { OnOk result (entries.new.items ≡ take at entries.old.items) }
    ensures high { IfOk result (λ block. block ≡ drop at entries.old.items) }
    ensures err { OnErr result (entries.new.items ≡ entries.old.items) }
{
    let mut rc = Rc::new(alloc, Vec::new(alloc))?;
    let Some(high) = Rc::get_mut(&mut rc) else {
        return Err(AllocError);
    };
    *high = entries.split_off(at)?;
    let room = K::most_entries().saturating_add(1);
    let _ = high.reserve(room.saturating_sub(high.len()));
    Ok(Block { rc })
}

impl<K: Key, V: Copied> Block<K, V> {
    // A block of these entries.
    pub(crate) fn new(alloc: Global, entries: Vec<(K, V)>) -> Result<Block<K, V>, AllocError>
        ensures { IfOk result (λ block. block ≡ entries.items) }
    {
        Ok(Block {
            rc: Rc::new(alloc, entries)?,
        })
    }

    // A block of copies of the entries of this block and of another.
    pub(crate) fn with(&self, alloc: Global, other: &Block<K, V>) -> Result<Block<K, V>, AllocError>
        ensures { IfOk result (λ block. block ≡ self.now ++ other.now) }
    {
        let mut both = copied(alloc, self.entries())?;
        for entry in other.entries() {
            both.push((entry.0.copy_key()?, entry.1.copy()?))?;
        }
        Block::new(alloc, both)
    }

    // Another owner of the same entries.
    pub(crate) fn copy(&self) -> Result<Block<K, V>, AllocError>
        ensures { IfOk result (λ block. block ≡ self.now) }
    {
        Ok(Block {
            rc: self.rc.clone()?,
        })
    }

    // The entries, in their order.
    pub(crate) fn entries(&self) -> &[(K, V)]
        ensures { result.now ≡ self.now }
    {
        self.rc.as_ref().as_slice()
    }

    // Puts an entry before the one at `at`.
    pub(crate) fn put_at(
        &mut self,
        alloc: Global,
        at: usize,
        entry: (K, V),
    ) -> Result<(), AllocError>
        requires { at ≤ length self.old }
        ensures ok { OnOk result (self.new ≡ insert self.old at entry) }
        ensures err { OnErr result (self.new ≡ self.old) }
    {
        match Rc::get_mut(&mut self.rc) {
            Some(entries) => Ok(entries.insert(at, entry)?),
            None => {
                let mut entries = copied(alloc, self.rc.as_ref().as_slice())?;
                entries.insert(at, entry)?;
                self.rc = Rc::new(alloc, entries)?;
                Ok(())
            }
        }
    }

    // Takes the entries from `at` on out, as a block of their own. They are moved, where nothing
    // shares them.
    pub(crate) fn split_off(&mut self, alloc: Global, at: usize) -> Result<Block<K, V>, AllocError>
        requires { at ≤ length self.old }
        ensures low { OnOk result (self.new ≡ take at self.old) }
        ensures high { IfOk result (λ block. block ≡ drop at self.old) }
        ensures err { OnErr result (self.new ≡ self.old) }
    {
        match Rc::get_mut(&mut self.rc) {
            Some(entries) => Ok(moved(alloc, entries, at)?),
            None => {
                let mut entries = copied(alloc, self.rc.as_ref().as_slice())?;
                let high = moved(alloc, &mut entries, at)?;
                self.rc = Rc::new(alloc, entries)?;
                Ok(high)
            }
        }
    }

    // Writes another value at `at`.
    pub(crate) fn set_at(&mut self, alloc: Global, at: usize, value: V) -> Result<(), AllocError>
        requires { at < length self.old }
        ensures ok { OnOk result (IsSetAt self.old self.new at value) }
        ensures err { OnErr result (self.new ≡ self.old) }
    {
        match Rc::get_mut(&mut self.rc) {
            Some(entries) => {
                let entry = &mut entries[at];
                entry.1 = value;
                Ok(())
            }
            None => {
                let mut entries = copied(alloc, self.rc.as_ref().as_slice())?;
                let entry = &mut entries[at];
                entry.1 = value;
                self.rc = Rc::new(alloc, entries)?;
                Ok(())
            }
        }
    }

    // Changes the value at `at` where it stands.
    pub(crate) fn edit_at<E: Edit<V>>(
        &mut self,
        alloc: Global,
        at: usize,
        edit: &mut E,
    ) -> Result<(), AllocError>
        requires { at < length self.old }
        ensures ok { OnOk result
            (IsEditedAt (E.edited edit.old) (E.left edit.old) self.old self.new edit.new at) }
        ensures err { OnErr result (KeepsKeyAt self.old self.new at) }
    {
        match Rc::get_mut(&mut self.rc) {
            Some(entries) => {
                let entry = &mut entries[at];
                edit.edit(&mut entry.1)?;
                Ok(())
            }
            None => {
                let mut entries = copied(alloc, self.rc.as_ref().as_slice())?;
                let entry = &mut entries[at];
                edit.edit(&mut entry.1)?;
                self.rc = Rc::new(alloc, entries)?;
                Ok(())
            }
        }
    }

    // Takes out the entry at `at`.
    pub(crate) fn take_at(&mut self, alloc: Global, at: usize) -> Result<(K, V), AllocError>
        requires { at < length self.old }
        ensures ok { IfOk result (λ entry. IsTakenAt self.old self.new at entry) }
        ensures err { OnErr result (self.new ≡ self.old) }
    {
        match Rc::get_mut(&mut self.rc) {
            Some(entries) => Ok(entries.remove(at)),
            None => {
                let mut entries = copied(alloc, self.rc.as_ref().as_slice())?;
                let entry = entries.remove(at);
                self.rc = Rc::new(alloc, entries)?;
                Ok(entry)
            }
        }
    }
}
