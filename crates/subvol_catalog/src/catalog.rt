// The catalogue.
ghost use Rattle.std.specs.Prelude.{◌≡◌, [], length, IsTrue, IfSome, slice_get, None, Ok};
ghost use Rattle.std.specs.Option.{option_map, option_copied};
ghost use Rattle.send_model.specs.Path.{is_name};
ghost use Rattle.send_model.specs.Store.{IsStore, has_name, has_uuid, find, with_contents, unfinished};
ghost use Rattle.subvol_catalog.specs.Entries.{key_of, entry_of, head_with, of_uuid, named, AreNamed};
ghost use Rattle.subvol_catalog.specs.Indexes.{numbered};
ghost use Rattle.subvol_catalog.specs.Admission.{is_new, has_parent, admitted, IsRefusedBy, Adds, without_name, without_uuid};

use crate::entries::Entries;
use crate::entry::Entry;
use crate::key::Key;
use crate::slots::Slots;
use path_rules::name_ok;
use std::alloc::Global;
use std::collections::BTreeMap;
use std::marker::Model;
use sx_base::{Blob, Refusal, Stop};
use uuid::Uuid;

/// Subvolumes in the order in which they began, found by name and by key. No name and no UUID
/// stands twice.
#[derive(Debug, Drop)]
pub struct Catalog<V> {
    // Each entry under a number of its own. A stream chooses UUIDs but no numbers, so only numbers
    // are hashed.
    slots: Slots<V>,
    // The number of each entry by its UUID, and the UUID of each by its name. A call for which
    // memory ran out may leave a UUID or a name here: a UUID counts only where the entry of its
    // number has it, a name where the entry of its UUID has it.
    uuids: BTreeMap<Uuid, u64>,
    names: BTreeMap<Vec<u8>, Uuid>,
}

impl<V> Model for Catalog<V> {
    ghost use Rattle.std.specs.Prelude.{List};
    ghost use Rattle.send_model.specs.Store as meant;

    ghost Value = { List (meant.Entry V) };

    ghost use Rattle.subvol_catalog.specs.Entries.{listed};

    ghost view = { λ c. listed c.slots.entries };

    ghost use Rattle.subvol_catalog.specs.Indexes.{AreFound};

    ghost invariant = { λ c. AreFound c.names.entries c.uuids.entries c.slots.next
        c.slots.entries };
}

impl<V> Catalog<V> {
    /// A catalogue without entries. Takes no memory.
    pub fn new(alloc: Global) -> Catalog<V>
        ensures empty { result ≡ [] }
    {
        Catalog {
            slots: Slots::new(alloc),
            uuids: BTreeMap::new(alloc),
            names: BTreeMap::new(alloc),
        }
    }

    /// How many entries there are. No name and no UUID stands twice among them, and their names are
    /// lawful. Takes no memory.
    pub fn len(&self) -> usize
        ensures count { result ≡ length self.now }
        ensures apart { IsStore self.now }
        ensures named { AreNamed self.now }
    {
        self.slots.len()
    }

    /// The entry at a place, counted from 0 in the order in which they began; `None` exactly where
    /// there are no more. Its name is lawful. Takes no memory. After a drop it may step over all
    /// entries before the place: to go over all entries, take `iter`.
    pub fn at(&self, i: usize) -> Option<&Entry<V>>
        ensures entry { option_map (λ e. entry_of e.now) result ≡ slice_get self.now i }
        ensures named { IfSome result (λ e. IsTrue (is_name e.now.name)) }
    {
        self.slots.at(i)
    }

    /// The entries in the order in which they began. No name and no UUID stands twice among them,
    /// and their names are lawful. Takes no memory.
    pub fn iter(&self) -> Entries<'_, V>
        ensures entries { result ≡ self.now }
        ensures apart { IsStore self.now }
        ensures named { AreNamed self.now }
    {
        self.slots.iter()
    }

    /// The entry of a UUID; `None` exactly where there is none. Takes no memory.
    pub fn by_uuid(&self, uuid: Uuid) -> Option<&Entry<V>>
        ensures entry { option_map (λ e. entry_of e.now) result ≡ of_uuid uuid self.now }
    {
        let number = number_of(&self.uuids, &self.slots, uuid)?;
        self.slots.get(number)
    }

    /// The entry of a name, finished or not; `None` exactly where there is none. Takes no memory.
    pub fn by_name(&self, name: &[u8]) -> Option<&Entry<V>>
        ensures entry { option_map (λ e. entry_of e.now) result ≡ named name.now self.now }
    {
        let uuid = *self.names.get(name)?;
        let entry = self.by_uuid(uuid)?;
        if entry.name.as_slice() == name {
            Some(entry)
        } else {
            None
        }
    }

    /// What the complete entry of a key holds; `None` exactly where there is none. Takes no memory.
    pub fn by_key(&self, key: Key) -> Option<&V>
        ensures found { option_copied result ≡ find self.now (key_of key) }
    {
        let number = number_of(&self.uuids, &self.slots, key.uuid)?;
        let entry = self.slots.get(number)?;
        if entry.key.ctransid != key.ctransid {
            return None;
        }
        entry.value.as_ref()
    }

    // Whether an entry has the UUID.
    fn has_uuid(&self, uuid: Uuid) -> bool
        ensures { result ≡ has_uuid uuid self.now }
    {
        self.by_uuid(uuid).is_some()
    }
}

impl<V: Drop> Catalog<V> {
    /// Begins an entry, unfinished and behind the others.
    ///
    /// # Errors
    /// `BadName`, `NameThere`, `UuidThere`, and `NoParent` where a parent is named that no complete
    /// entry has as its key: the first of these that holds. After an error nothing is changed.
    pub fn begin(&mut self, name: Blob, key: Key, parent: Option<Key>) -> Result<(), Stop>
        ensures added { Adds result (admitted self.old (head_with name key parent))
            (unfinished (head_with name key parent)) self.old self.new }
    {
        let sought = parent;
        let entry = Entry {
            name,
            key,
            parent,
            value: None,
        };
        self.admit(entry, sought)
    }

    // Adds an entry whose parent has to be found.
    fn admit(&mut self, entry: Entry<V>, parent: Option<Key>) -> Result<(), Stop>
        ensures added { Adds result (admitted self.old (head_with entry.name entry.key parent))
            (entry_of entry) self.old self.new }
    {
        self.check_new(entry.name.as_slice(), entry.uuid())?;
        self.check_parent(parent)?;
        self.push(entry)
    }

    /// Adds an entry behind the others, unfinished where it has no value. The parent is not looked
    /// at.
    ///
    /// # Errors
    /// `BadName`, `NameThere` and `UuidThere`: the first of these that holds. After an error
    /// nothing is changed.
    pub fn add(&mut self, entry: Entry<V>) -> Result<(), Stop>
        ensures added { Adds result (is_new self.old entry.name entry.key.uuid) (entry_of entry)
            self.old self.new }
    {
        self.check_new(entry.name.as_slice(), entry.uuid())?;
        self.push(entry)
    }

    // An entry of this name and UUID would be new.
    fn check_new(&self, name: &[u8], uuid: Uuid) -> Result<(), Stop>
        ensures { IsRefusedBy result (is_new self.now name.now uuid) }
    {
        if !name_ok(name) {
            return Err(Stop::Refused(Refusal::BadName));
        }
        if self.by_name(name).is_some() {
            return Err(Stop::Refused(Refusal::NameThere));
        }
        if self.has_uuid(uuid) {
            return Err(Stop::Refused(Refusal::UuidThere));
        }
        Ok(())
    }

    // A parent that is named is found.
    fn check_parent(&self, parent: Option<Key>) -> Result<(), Stop>
        ensures { IsRefusedBy result (has_parent self.now (option_map key_of parent)) }
    {
        match parent {
            None => Ok(()),
            Some(key) => match self.by_key(key) {
                Some(_) => Ok(()),
                None => Err(Stop::Refused(Refusal::NoParent)),
            },
        }
    }

    // Puts a new entry behind the others. If no number is left, the answer is want of memory.
    fn push(&mut self, entry: Entry<V>) -> Result<(), Stop>
        requires new { is_new self.old entry.name entry.key.uuid ≡ Ok tt }
        ensures added { Adds result (Ok tt) (entry_of entry) self.old self.new }
    {
        let uuid = entry.uuid();
        let number = self.slots.next_number();
        let name = Vec::from_slice(self.slots.alloc(), entry.name.as_slice())?;
        self.names.insert(name, uuid)?;
        self.uuids.insert(uuid, number)?;
        self.slots.push(entry)?;
        Ok(())
    }

    /// The entry of a UUID takes its value, and is complete; where there is none, nothing changes.
    /// The caller gives the UUID of an unfinished entry. Takes no memory.
    pub fn complete(&mut self, uuid: Uuid, value: V)
        ensures complete { self.new ≡ with_contents uuid value self.old }
    {
        let Some(number) = number_of(&self.uuids, &self.slots, uuid) else {
            return;
        };
        self.slots.complete(number, value);
    }

    /// Takes out the entry of a name, and answers whether there was one. The others keep their
    /// order. Takes no memory.
    pub fn drop_name(&mut self, name: &[u8]) -> bool
        ensures there { result ≡ has_name name.now self.old }
        ensures dropped { self.new ≡ without_name name.now self.old }
    {
        let Some(entry) = self.by_name(name) else {
            return false;
        };
        let uuid = entry.uuid();
        // What holds of the indexes says that no other entry has this UUID.
        let _ = &self.names;
        self.drop_uuid(uuid)
    }

    /// Takes out the entry of a UUID, and answers whether there was one. The others keep their
    /// order. Takes no memory.
    pub fn drop_uuid(&mut self, uuid: Uuid) -> bool
        ensures there { result ≡ has_uuid uuid self.old }
        ensures dropped { self.new ≡ without_uuid uuid self.old }
    {
        let Some(number) = number_of(&self.uuids, &self.slots, uuid) else {
            return false;
        };
        let Some(entry) = self.slots.take(number) else {
            return false;
        };
        self.uuids.remove(&uuid);
        self.names.remove(entry.name.as_slice());
        true
    }
}

// The number of the entry that has a UUID.
fn number_of<V>(uuids: &BTreeMap<Uuid, u64>, slots: &Slots<V>, uuid: Uuid) -> Option<u64>
    ensures { result ≡ numbered uuids.now.entries slots.now.entries uuid }
{
    let number = *uuids.get(&uuid)?;
    let entry = slots.get(number)?;
    if entry.key.uuid == uuid {
        Some(number)
    } else {
        None
    }
}
