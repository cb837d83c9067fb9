// A run of entries that several maps may share, with its first key.
ghost use Rattle.std.specs.Prelude.{◌≡◌, ◌++◌, ◌<◌, ◌≤◌, length, take, drop, IfOk, OnOk, OnErr};
ghost use Rattle.std.specs.List.{insert};
ghost use Rattle.shared_map.specs.Pages.{BeginsWith, IsSetAt, IsEditedAt, KeepsKeyAt, IsTakenAt};

use crate::block::Block;
use crate::keys::{Copied, Edit, Key};
use std::alloc::{AllocError, Global};
use std::marker::Model;

// A run of one entry or more, which copies share. The first key stands beside it once more, so that
// the search for a page follows no pointer.
#[derive(Debug, Drop)]
pub(crate) struct Page<K, V> {
    first: K,
    block: Block<K, V>,
}

impl<K, V> Model for Page<K, V> {
    ghost use Rattle.std.specs.Prelude.{List};
    ghost use Rattle.shared_map.specs.Pages.{BeginsWith};

    ghost Value = { List (K × V) };

    ghost view = { λ p. p.block };

    ghost invariant = { λ p. BeginsWith p.first p.block };
}

impl<K: Key, V: Copied> Page<K, V> {
    // A page of these entries.
    pub(crate) fn new(alloc: Global, entries: Vec<(K, V)>) -> Result<Page<K, V>, AllocError>
        requires { 0 < length entries.items }
        ensures { IfOk result (λ page. page ≡ entries.items) }
    {
        let first = entries[0].0.copy_key()?;
        Ok(Page {
            first,
            block: Block::new(alloc, entries)?,
        })
    }

    // A page of copies of the entries of this page and of another.
    pub(crate) fn with(&self, alloc: Global, other: &Page<K, V>) -> Result<Page<K, V>, AllocError>
        ensures { IfOk result (λ page. page ≡ self.now ++ other.now) }
    {
        Ok(Page {
            first: self.first.copy_key()?,
            block: self.block.with(alloc, &other.block)?,
        })
    }

    // Another owner of the same entries.
    pub(crate) fn copy(&self) -> Result<Page<K, V>, AllocError>
        ensures { IfOk result (λ page. page ≡ self.now) }
    {
        Ok(Page {
            first: self.first.copy_key()?,
            block: self.block.copy()?,
        })
    }

    // The key of the first entry.
    pub(crate) fn first(&self) -> &K
        ensures { BeginsWith result.now self.now }
    {
        &self.first
    }

    // The entries, in their order.
    pub(crate) fn entries(&self) -> &[(K, V)]
        ensures { result.now ≡ self.now }
    {
        self.block.entries()
    }

    // Puts an entry before the one at `at`.
    pub(crate) fn put_at(
        &mut self,
        alloc: Global,
        at: usize,
        entry: (K, V),
    ) -> Result<(), AllocError>
        requires { at ≤ length self.old }
        ensures ok { OnOk result (self.new ≡ insert self.old at entry) }
        ensures err { OnErr result (self.new ≡ self.old) }
    {
        if at > 0 {
            self.block.put_at(alloc, at, entry)?;
            return Ok(());
        }
        let first = entry.0.copy_key()?;
        self.block.put_at(alloc, at, entry)?;
        self.first = first;
        Ok(())
    }

    // Takes the entries from `at` on out, as a page of their own.
    pub(crate) fn split_off(&mut self, alloc: Global, at: usize) -> Result<Page<K, V>, AllocError>
        requires some { 0 < at }
        requires more { at < length self.old }
        ensures low { OnOk result (self.new ≡ take at self.old) }
        ensures high { IfOk result (λ page. page ≡ drop at self.old) }
        ensures err { OnErr result (self.new ≡ self.old) }
    {
        let first = self.block.entries()[at].0.copy_key()?;
        let block = self.block.split_off(alloc, at)?;
        Ok(Page { first, block })
    }

    // Writes another value at `at`.
    pub(crate) fn set_at(&mut self, alloc: Global, at: usize, value: V) -> Result<(), AllocError>
        requires { at < length self.old }
        ensures ok { OnOk result (IsSetAt self.old self.new at value) }
        ensures err { OnErr result (self.new ≡ self.old) }
    {
        self.block.set_at(alloc, at, value)?;
        Ok(())
    }

    // Changes the value at `at` where it stands.
    pub(crate) fn edit_at<E: Edit<V>>(
        &mut self,
        alloc: Global,
        at: usize,
        edit: &mut E,
    ) -> Result<(), AllocError>
        requires { at < length self.old }
        ensures ok { OnOk result
            (IsEditedAt (E.edited edit.old) (E.left edit.old) self.old self.new edit.new at) }
        ensures err { OnErr result (KeepsKeyAt self.old self.new at) }
    {
        self.block.edit_at(alloc, at, edit)?;
        Ok(())
    }

    // Takes out the entry at `at`, where there are others.
    pub(crate) fn take_at(&mut self, alloc: Global, at: usize) -> Result<(K, V), AllocError>
        requires there { at < length self.old }
        requires others { 1 < length self.old }
        ensures ok { IfOk result (λ entry. IsTakenAt self.old self.new at entry) }
        ensures err { OnErr result (self.new ≡ self.old) }
    {
        if at > 0 {
            let entry = self.block.take_at(alloc, at)?;
            return Ok(entry);
        }
        let first = self.block.entries()[1].0.copy_key()?;
        let entry = self.block.take_at(alloc, at)?;
        self.first = first;
        Ok(entry)
    }
}
