// What of a store stands beside some files: its entries without the parts of the files, each with
// the index of its names.
ghost use Rattle.std.specs.Prelude.{◌≡◌, ℕ, List, [], ◌∷◌, ◌++◌, map, Some, Ok, IfOk, OnOk, IfSome};
ghost use Rattle.send_model.specs.Subvolume.{IsLawful, is_file_kind};
ghost use Rattle.inode_tree.specs.Kinds.{kind_of};
ghost use Rattle.send_model.specs.Cells.{recelled};
ghost use Rattle.send_model.specs.Thinned.{thinned_entry};
ghost use Rattle.subvol_catalog.specs.Entries.{entry_of};
ghost use Rattle.subvol_catalog.specs.Admission.{is_new};
ghost use Rattle.provenance.specs.Cuts.{file_end};
ghost use Rattle.store_journal.specs.Standing.{place_byte};
ghost use Rattle.store_compose.specs.Standing.{standing, keeps, AreLawful, traced_to_itself};

use crate::anchor::Anchor;
use clone_pieces::Known;
use clone_resolve::EditCore;
use file_survey::Survey;
use group_replay::Place;
use inode_tree::NodeKind;
use path_index::PathIndex;
use provenance::{Ends, Trace, retag};
use std::alloc::{AllocError, Global};
use std::marker::PhantomData;
use subvol::Subvol;
use subvol_catalog::{Catalog, Entry, Key};
use sx_base::{Blob, Stop};

// Those of a catalogue that are no part of surveyed files, with the contents of those alone that
// they name. Fails for want of memory alone.
pub(crate) fn index_all(
    alloc: Global,
    catalog: &Catalog<Subvol<Place>>,
    survey: &Survey,
) -> Result<Catalog<PathIndex<Place>>, AllocError>
    requires lawful { AreLawful catalog.now }
    ensures { IfOk result (λ indexes. indexes ≡ standing survey.now catalog.now) }
{
    let mut indexes = Catalog::new(alloc);
    for entry in catalog.iter() {
        keep_entry(alloc, &mut indexes, entry, survey)?;
    }
    Ok(indexes)
}

// Adds an entry, which is new, if it is no part of surveyed files. Fails for want of memory alone.
fn keep_entry(
    alloc: Global,
    indexes: &mut Catalog<PathIndex<Place>>,
    entry: &Entry<Subvol<Place>>,
    survey: &Survey,
) -> Result<(), AllocError>
    requires lawful { IfSome (entry_of entry.now).contents IsLawful }
    requires new { is_new indexes.old entry.now.name entry.now.key.uuid ≡ Ok tt }
    ensures { OnOk result
        (indexes.new ≡ indexes.old ++ standing survey.now (entry_of entry.now ∷ [])) }
{
    if survey.has_part(entry.key.uuid) {
        return Ok(());
    }
    let indexed = indexed(alloc, entry, survey)?;
    add_entry(indexes, indexed)
}

// An entry with the index of its names where surveyed files name it, else without contents. Fails
// for want of memory alone.
fn indexed(
    alloc: Global,
    entry: &Entry<Subvol<Place>>,
    survey: &Survey,
) -> Result<Entry<PathIndex<Place>>, AllocError>
    requires lawful { IfSome (entry_of entry.now).contents IsLawful }
    ensures { IfOk result
        (λ kept. entry_of kept ≡ thinned_entry (keeps survey.now) (entry_of entry.now)) }
{
    let value = index_of(alloc, entry, survey)?;
    Ok(Entry {
        name: entry.name.copy()?,
        key: entry.key,
        parent: entry.parent,
        value,
    })
}

// The index of the subvolume of an entry that surveyed files name. Fails for want of memory alone.
fn index_of(
    alloc: Global,
    entry: &Entry<Subvol<Place>>,
    survey: &Survey,
) -> Result<Option<PathIndex<Place>>, AllocError>
    requires lawful { IfSome (entry_of entry.now).contents IsLawful }
    ensures { IfOk result
        (λ index. index ≡ (thinned_entry (keeps survey.now) (entry_of entry.now)).contents) }
{
    if !survey.names(entry.key.uuid) {
        return Ok(None);
    }
    match &entry.value {
        Some(sub) => Ok(Some(PathIndex::new(alloc, sub.copy()?)?)),
        None => Ok(None),
    }
}

// One entry more, which is new. Fails for want of memory alone.
fn add_entry(
    indexes: &mut Catalog<PathIndex<Place>>,
    entry: Entry<PathIndex<Place>>,
) -> Result<(), AllocError>
    requires new { is_new indexes.old entry.name entry.key.uuid ≡ Ok tt }
    ensures { OnOk result (indexes.new ≡ indexes.old ++ entry_of entry ∷ []) }
{
    match indexes.add(entry) {
        Ok(()) => Ok(()),
        Err(Stop::Refused(_)) => unreachable!(),
        Err(Stop::NoMemory) => Err(AllocError),
    }
}

// A core with such entries, each cell traced to its own place. Fails for want of memory alone.
pub(crate) fn trace_all(
    alloc: Global,
    indexes: &Catalog<PathIndex<Place>>,
) -> Result<EditCore<Trace>, AllocError>
    ensures { IfOk result (λ core. core ≡ map traced_to_itself indexes.now) }
{
    let mut core = EditCore::new(alloc);
    for entry in indexes.iter() {
        add_traced(&mut core, entry)?;
    }
    Ok(core)
}

// Adds an entry, which is new, with its cells traced to their own places. Fails for want of memory
// alone.
fn add_traced(core: &mut EditCore<Trace>, entry: &Entry<PathIndex<Place>>) -> Result<(), AllocError>
    requires new { is_new core.old entry.now.name entry.now.key.uuid ≡ Ok tt }
    ensures { OnOk result (core.new ≡ core.old ++ traced_to_itself (entry_of entry.now) ∷ []) }
{
    let sub = traced(entry)?;
    match core.add(entry.name.as_slice(), entry.key, entry.parent, sub) {
        Ok(()) => Ok(()),
        Err(Stop::Refused(_)) => unreachable!(),
        Err(Stop::NoMemory) => Err(AllocError),
    }
}

// The subvolume of an entry, each cell traced to its own place. Fails for want of memory alone.
fn traced(entry: &Entry<PathIndex<Place>>) -> Result<Option<Subvol<Trace>>, AllocError>
    ensures { IfOk result (λ sub. sub ≡ (traced_to_itself (entry_of entry.now)).contents) }
{
    match &entry.value {
        Some(index) => Ok(Some(retag(index.sub(), entry.key)?)),
        None => Ok(None),
    }
}

// Such entries, with the bytes that an image has at their places.
#[derive(Drop)]
pub(crate) struct Standing<H, K: Anchor<H>> {
    pub(crate) indexes: Catalog<PathIndex<Place>>,
    pub(crate) reader: PhantomData<H>,
    pub(crate) of: PhantomData<K>,
}

impl<H, K: Anchor<H>> Ends for Standing<H, K> {
    ghost use Rattle.send_model.specs.Store.{find};
    ghost use Rattle.provenance.specs.Cuts.{file_end};
    ghost use Rattle.store_compose.specs.Standing.{bytes_in};

    ghost ends = { λ s key ino. file_end (find (bytes_in K.image s.indexes) key) ino };

    fn end_of(&self, key: Key, ino: u64) -> Option<u64> {
        let Some(index) = self.indexes.by_key(key) else {
            return None;
        };
        file_size(index, ino)
    }
}

// The size of a file that a path names.
fn file_size(index: &PathIndex<Place>, ino: u64) -> Option<u64>
    ensures { (image : List ℕ)
        → result ≡ file_end (Some (recelled (place_byte image) index.now)) ino }
{
    let Some(inode) = index.sub().tree().inode(ino) else {
        return None;
    };
    if !is_file(inode.kind()) {
        return None;
    }
    if !index.is_nameable(ino) {
        return None;
    }
    Some(inode.contents().size())
}

// Whether a kind is that of a file.
fn is_file(kind: NodeKind) -> bool
    ensures { result ≡ is_file_kind (kind_of kind) }
{
    matches!(kind, NodeKind::File)
}

impl<H, K: Anchor<H>> Known for Standing<H, K> {
    ghost use Rattle.std.proofs.Common.{refl};
    ghost use Rattle.store_compose.specs.Standing.{bytes_in};

    ghost base = { λ s. bytes_in K.image s.indexes };

    ghost ends_are = { λ s key ino. refl };

    fn first_path(&self, alloc: Global, key: Key, ino: u64) -> Result<Option<Blob>, AllocError> {
        let Some(index) = self.indexes.by_key(key) else {
            return Ok(None);
        };
        if file_size(index, ino).is_none() {
            return Ok(None);
        }
        index.first_path(alloc, ino)
    }
}
