// The core.
ghost use Rattle.std.specs.Prelude.{◌≡◌, ◌≤◌, [], None, IsTrue, IfOk, IfSome, is_some};
ghost use Rattle.std.specs.Option.{option_map};
ghost use Rattle.std.specs.Str.{bytes_eq};
ghost use Rattle.send_model.specs.Refusal.{NoParent};
ghost use Rattle.send_model.specs.Chain.{found};
ghost use Rattle.send_model.specs.Clone.{clone, clone_values};
ghost use Rattle.send_model.specs.Store.{IsStore, has_name, with_contents, start_from, head_of, clone_source, edit_part, completed, step_head, step_edit, step};
ghost use Rattle.send_commands.specs.Meaning.{meaning_of};
ghost use Rattle.sx_base.specs.Answers.{MayChange};
ghost use Rattle.subvol_catalog.specs.Entries.{key_of, entry_of, AreNamed};
ghost use Rattle.subvol_catalog.specs.Admission.{is_new, Adds, without_name, without_uuid};
ghost use Rattle.clone_resolve.specs.declared.done.Done.TheVariants as did;
ghost use Rattle.clone_resolve.specs.Heads.{head_meant, Begins, unfinished_at, Resumes};
ghost use Rattle.clone_resolve.specs.Steps.{data_len, cells_put, done_by, Fits, Answers};

use crate::done::Done;
use crate::head::{Head, head_of, key_with};
use crate::part::Part;
use crate::tree_edits::edit_tree;
use extent_map::Origin;
use path_rules::split;
use send_commands::Command;
use std::alloc::{AllocError, Global};
use std::marker::Model;
use subvol::{SourceRange, Subvol};
use subvol_catalog::{Catalog, Entry, Key};
use sx_base::{Blob, Refusal, Stop};
use uuid::Uuid;

// What a CLONE takes: a range of a file of the subvolume of a key.
#[derive(Clone, Copy)]
struct Source<'a> {
    key: Key,
    range: SourceRange<'a>,
}

/// The subvolumes that were received, in the order in which they began, seen as the store of the
/// definitions over cells that are an origin or zero.
#[derive(Debug, Drop)]
pub struct EditCore<O: Origin> {
    catalog: Catalog<Subvol<O>>,
    alloc: Global,
}

impl<O: Origin> Model for EditCore<O> {
    ghost use Rattle.std.specs.Prelude.{Option};
    ghost use Rattle.send_model.specs.Store as meant;

    ghost Value = { meant.Store (Option O) };

    ghost view = { λ c. c.catalog };
}

impl<O: Origin> EditCore<O> {
    /// A core without subvolumes. Takes no memory.
    pub fn new(alloc: Global) -> EditCore<O>
        ensures { result ≡ [] }
    {
        EditCore {
            catalog: Catalog::new(alloc),
            alloc,
        }
    }

    /// The subvolumes by name and by key. No name and no UUID stands twice among them, and their
    /// names are lawful. Takes no memory.
    pub fn catalog(&self) -> &Catalog<Subvol<O>>
        ensures core { result.now ≡ self.now }
        ensures apart { IsStore self.now }
        ensures named { AreNamed self.now }
    {
        let _count = self.catalog.len();
        &self.catalog
    }

    /// Takes out the entry of a UUID, if there is one. The others keep their order. Takes no
    /// memory.
    pub fn hide(&mut self, uuid: Uuid)
        ensures { self.new ≡ without_uuid uuid self.old }
    {
        let _there = self.catalog.drop_uuid(uuid);
    }

    /// Takes out the entry of a name, and answers whether there was one. The others keep their
    /// order. Takes no memory.
    pub fn drop_name(&mut self, name: &[u8]) -> bool
        ensures there { result ≡ has_name name.now self.old }
        ensures dropped { self.new ≡ without_name name.now self.old }
    {
        self.catalog.drop_name(name)
    }

    /// Adds an entry behind the others, unfinished where it has no subvolume. The parent is not
    /// looked at.
    ///
    /// # Errors
    /// `BadName`, `NameThere` and `UuidThere`: the first of these that holds. After an error
    /// nothing is changed.
    pub fn add(
        &mut self,
        name: &[u8],
        key: Key,
        parent: Option<Key>,
        sub: Option<Subvol<O>>,
    ) -> Result<(), Stop>
        ensures added { Adds result (is_new self.old name.now key.uuid)
            (record {
              name = name.now;
              key = key_of key;
              parent = option_map key_of parent;
              contents = sub;
            }) self.old self.new }
    {
        let name = Blob::from(Vec::from_slice(self.alloc, name)?);
        self.catalog.add(Entry {
            name,
            key,
            parent,
            value: sub,
        })
    }

    /// Begins the entry of a head, unfinished, and its part, which starts as a root alone or as the
    /// parent's subvolume.
    ///
    /// # Errors
    /// `BadName`, `NameThere`, `UuidThere` and `NoParent`: the first of these that holds. After an
    /// error nothing is changed.
    pub fn begin(&mut self, head: &Command<'_>) -> Result<Part<O>, Stop>
        requires head { IsTrue (is_some (head_of (meaning_of head.now))) }
        ensures begun { IfSome (head_of (meaning_of head.now))
            (λ h. Begins result h self.old self.new) }
    {
        let Some(head) = head_of(head) else {
            unreachable!()
        };
        self.begin_head(&head)
    }

    // The same for the head itself. The catalogue refuses a head whose parent is not found, as it
    // does all others.
    fn begin_head(&mut self, head: &Head<'_>) -> Result<Part<O>, Stop>
        ensures { Begins result (head_meant head.now) self.old self.new }
    {
        let start = self.start(head.parent)?;
        let name = Blob::from(Vec::from_slice(self.alloc, head.name)?);
        self.catalog.begin(name, head.key, head.parent)?;
        let Some(sub) = start else {
            return Err(Stop::Refused(Refusal::NoParent));
        };
        Ok(Part { key: head.key, sub })
    }

    // The subvolume that a part starts from, none where its parent is not found. Fails for want of
    // memory alone.
    fn start(&self, parent: Option<Key>) -> Result<Option<Subvol<O>>, AllocError>
        ensures { IfOk result
            (λ start. start_from self.now (option_map key_of parent) ≡ found start NoParent) }
    {
        let Some(key) = parent else {
            return Ok(Some(Subvol::new_root(self.alloc)?));
        };
        let Some(sub) = self.catalog.by_key(key) else {
            return Ok(None);
        };
        Ok(Some(sub.copy()?))
    }

    /// One command on the part, neither a head nor END; a WRITE puts a run from the origin. After
    /// `NoMemory` nothing is said of the part.
    ///
    /// # Errors
    /// The refusals of the command, after which the part is unchanged.
    pub fn edit(&self, part: &mut Part<O>, c: &Command<'_>, origin: O) -> Result<(), Stop>
        requires edits { done_by (meaning_of c.now) ≡ did.Edited }
        requires reach { data_len (meaning_of c.now) ≤ O.reach origin }
        ensures key { part.new.key ≡ part.old.key }
        ensures edited { MayChange result part.old.subvolume part.new.subvolume
            (edit_part None (cells_put O.advanced origin (meaning_of c.now)) self.now part.old
            (meaning_of c.now)) }
    {
        match c {
            Command::Write {
                path,
                offset,
                bytes,
            } => {
                let len = bytes.len() as u64;
                part.sub.write(path, *offset, origin, len)
            }
            Command::Truncate { size, path } => part.sub.truncate(path, *size),
            Command::Fallocate {
                size,
                path,
                offset,
                mode,
            } => part.sub.fallocate(path, *mode, *offset, *size),
            Command::Clone {
                path,
                offset,
                clone_uuid,
                clone_ctransid,
                clone_path,
                clone_offset,
                clone_len,
            } => {
                let source = Source {
                    key: key_with(*clone_uuid, *clone_ctransid),
                    range: SourceRange {
                        path: clone_path,
                        from: *clone_offset,
                        len: *clone_len,
                    },
                };
                self.clone_range(part, path, *offset, &source)
            }
            _ => edit_tree(part.sub.tree_mut(), c),
        }
    }

    // Puts a range of a file of the part itself, or of a complete subvolume, at the place `at` of a
    // file of the part.
    fn clone_range(
        &self,
        part: &mut Part<O>,
        path: &[u8],
        at: u64,
        source: &Source<'_>,
    ) -> Result<(), Stop>
        ensures key { part.new.key ≡ part.old.key }
        ensures cloned { MayChange result part.old.subvolume part.new.subvolume
            (clone None part.old.subvolume (clone_source self.now part.old (key_of source.now.key))
            (bytes_eq source.now.key.uuid part.old.key.uuid)
            (clone_values path.now at source.now.range.path.now source.now.range.from
            source.now.range.len)) }
    {
        if source.key.uuid == part.key.uuid {
            return part.sub.clone_here(path, at, &source.range);
        }
        let Ok(_names) = split(path) else {
            return Err(Stop::Refused(Refusal::BadPath));
        };
        let Ok(_names) = split(source.range.path) else {
            return Err(Stop::Refused(Refusal::BadPath));
        };
        let Some(other) = self.catalog.by_key(source.key) else {
            return Err(Stop::Refused(Refusal::NoSource));
        };
        part.sub.clone_from(path, at, other, &source.range)
    }

    /// The entry of the part's UUID takes its subvolume, and is complete; where there is none,
    /// nothing changes. Takes no memory.
    pub fn complete(&mut self, part: Part<O>)
        ensures { self.new ≡ with_contents part.key.uuid part.subvolume self.old }
    {
        self.catalog.complete(part.key.uuid, part.sub);
    }

    /// The part of the unfinished entry of a UUID, as it began: a root alone or the parent's
    /// subvolume.
    ///
    /// # Errors
    /// `NoParent` where the entry has a parent that no complete entry has as its key now.
    pub fn resume(&self, uuid: Uuid) -> Result<Part<O>, Stop>
        requires there { IsTrue (is_some (unfinished_at uuid self.now)) }
        ensures resumed { IfSome (unfinished_at uuid self.now)
            (λ entry. Resumes result entry self.now) }
    {
        let Some(entry) = self.unfinished_at(uuid) else {
            unreachable!()
        };
        let Some(sub) = self.start(entry.parent)? else {
            return Err(Stop::Refused(Refusal::NoParent));
        };
        Ok(Part {
            key: entry.key,
            sub,
        })
    }

    /// The unfinished entry of a UUID; `None` exactly where there is none. Takes no memory.
    pub fn unfinished_at(&self, uuid: Uuid) -> Option<&Entry<Subvol<O>>>
        ensures { option_map (λ e. entry_of e.now) result ≡ unfinished_at uuid self.now }
    {
        let entry = self.catalog().by_uuid(uuid)?;
        if entry.value.is_some() {
            return None;
        }
        Some(entry)
    }

    /// One command on the core and the part, if there is one; a WRITE puts a run from the origin. A
    /// head completes the part before it and begins a new one; after a refused head the part before
    /// is complete and there is no part. After `NoMemory` nothing is said of either.
    ///
    /// # Errors
    /// `NoSubvolume` for an edit without a part, else the refusals of the command. After that of an
    /// edit nothing is changed.
    pub fn step(
        &mut self,
        part: &mut Option<Part<O>>,
        c: &Command<'_>,
        origin: O,
    ) -> Result<Done, Stop>
        requires fits { Fits self.old part.old }
        requires reach { data_len (meaning_of c.now) ≤ O.reach origin }
        ensures fits { Fits self.new part.new }
        ensures done { IfOk result (λ d. d ≡ done_by (meaning_of c.now)) }
        ensures stepped { Answers result (record { store = self.new; part = part.new })
            (step None (cells_put O.advanced origin (meaning_of c.now))
            (record { store = self.old; part = part.old }) (meaning_of c.now)) }
    {
        if let Command::End = c {
            self.complete_open(part);
            return Ok(Done::Ended);
        }
        match head_of(c) {
            Some(head) => self.enter(part, &head),
            None => self.edit_open(part, c, origin),
        }
    }

    // The part, if there is one, is complete. Takes no memory.
    #[tactic(auto, unfolding(send_model::specs::Store::completed))]
    fn complete_open(&mut self, part: &mut Option<Part<O>>)
        ensures complete { self.new ≡ completed (record { store = self.old; part = part.old }) }
        ensures none { part.new ≡ None }
    {
        if let Some(open) = part.take() {
            self.complete(open);
        }
    }

    // A head: the part before it is complete, and then the new part begins, or there is none.
    fn enter(&mut self, open: &mut Option<Part<O>>, head: &Head<'_>) -> Result<Done, Stop>
        ensures fits { Fits self.new open.new }
        ensures done { IfOk result (λ d. d ≡ did.Began) }
        ensures entered { Answers result (record { store = self.new; part = open.new })
            (step_head (record { store = self.old; part = open.old }) (head_meant head.now)) }
    {
        self.complete_open(open);
        let begun = self.begin_head(head)?;
        *open = Some(begun);
        Ok(Done::Began)
    }

    // An edit of the part, if there is one.
    fn edit_open(
        &self,
        part: &mut Option<Part<O>>,
        c: &Command<'_>,
        origin: O,
    ) -> Result<Done, Stop>
        requires edits { done_by (meaning_of c.now) ≡ did.Edited }
        requires reach { data_len (meaning_of c.now) ≤ O.reach origin }
        ensures key { option_map (λ p. p.key) part.new ≡ option_map (λ p. p.key) part.old }
        ensures done { IfOk result (λ d. d ≡ did.Edited) }
        ensures edited { Answers result (record { store = self.now; part = part.new })
            (step_edit None (cells_put O.advanced origin (meaning_of c.now))
            (record { store = self.now; part = part.old }) (meaning_of c.now)) }
    {
        let Some(open) = part else {
            return Err(Stop::Refused(Refusal::NoSubvolume));
        };
        self.edit(open, c, origin)?;
        Ok(Done::Edited)
    }
}
