// Composing over a store.
ghost use Rattle.std.specs.Prelude.{◌≡◌, ◌≢◌, ◌≤◌, ℕ, List, [], Some, Ok, true, map};
ghost use Rattle.std.specs.String.{string_bytes};
ghost use Rattle.send_model.specs.Store as meant;
ghost use Rattle.send_model.specs.Reading.{input};
ghost use Rattle.send_model.specs.Outside.{store_without, AllSayable};
ghost use Rattle.send_model.specs.Lawful.{IsLawfulStore};
ghost use Rattle.send_model.specs.Provenance.{traced_store};
ghost use Rattle.send_model.specs.Receive.{start_of};
ghost use Rattle.send_model.specs.Cells.{recelled_store, AllCells};
ghost use Rattle.send_model.specs.Headline.{IsComposedOf, whole_output_of};
ghost use Rattle.send_model.specs.Overridden.{overridden};
ghost use Rattle.send_model.specs.Words.{Compose};
ghost use Rattle.store_model.specs.Stored.{StandsFor};
ghost use Rattle.store_model.specs.Requests.{OfStreams, reads_store, at_entry};
ghost use Rattle.store_model.specs.Answers.{Answers};
ghost use Rattle.sx_base.specs.Asks.{AreReadWithRanges, AreReadTwice};
ghost use Rattle.sx_base.specs.Calls.{IfAllTold, Wrote};
ghost use Rattle.sx_base.specs.Causes.{Rose};
ghost use Rattle.sx_base.specs.Crash.{LeavesOnly};
ghost use Rattle.sx_base.specs.Disk.{IsImage};
ghost use Rattle.sx_base.specs.Later.{AskedOnly};
ghost use Rattle.sx_base.specs.declared.outcome.Outcome.TheVariants.{Done, Refused};
ghost use Rattle.sx_base.specs.declared.outcome.Verdict.{Verdict};
ghost use Rattle.provenance.specs.Traces.{place_of};
ghost use Rattle.clone_pieces.specs.Origins.{IsHad, byte_of_trace};
ghost use Rattle.clone_pieces.specs.Seen.{seen};
ghost use Rattle.file_survey.specs.Findings.{SurveyEnd};
ghost use Rattle.store_journal.specs.Reading.{HasSize, file_cells};
ghost use Rattle.store_journal.specs.Standing.{with_bytes};
ghost use Rattle.store_commands.specs.Ending.{answer_of};
ghost use Rattle.store_commands.specs.declared.ends.StoreEnd.TheVariants.{Ends};
ghost use Rattle.store_compose.specs.Standing.{bytes_in, IsPartOf};
ghost use Rattle.store_compose.specs.Reading.{IsRead};
ghost use Rattle.store_compose.specs.Ending.{beside, EndsOver, ComposeCaused, ChangeFound};

use crate::anchor::Anchor;
use crate::ending::{ended_by, ended_over};
use crate::fetch::{Fetch, StoreReader};
use crate::held::BaseBytes;
use crate::standing::{Standing, index_all, trace_all};
use clone_resolve::EditCore;
use composer::{Task, compose_over};
use file_survey::{Survey, survey};
use group_replay::Place;
use part_names::NamedFiles;
use path_index::PathIndex;
use provenance::Trace;
use std::marker::{Brand, PhantomData};
use store_commands::StoreEnd;
use store_journal::Store;
use subvol_catalog::Catalog;
use sx_base::{Disk, Inputs, Outcome, Sink};

/// Composes the consecutive parts in the files into one stream over the store that a disk holds,
/// and writes it to `out`. Of the store the parts of the files are left out. The files are read
/// twice, as `compose` reads them, and outcomes mean the same. The disk is only read: what it gives
/// stays as it is.
///
/// `StoreFault` comes where the disk failed, whether the store was opened or bytes of its files
/// were read, and `NotStore` where the bytes stand for no store.
pub fn compose_store<D: Disk, I: Inputs, O: Sink>(
    given: &NamedFiles<'_>,
    disk: &mut D,
    inputs: &mut I,
    out: &mut O,
) -> StoreEnd
    requires some { given.now.files.now ≢ [] }
    ensures same { I.told inputs.new ≡ I.told inputs.old }
    ensures asked { AskedOnly I.Inputs inputs.old inputs.new
        (AreReadTwice (I.told inputs.old) (map string_bytes given.now.files.now)) }
    ensures answered { D.tells
        → IfAllTold (I.told inputs.old) (map string_bytes given.now.files.now)
        (λ files. Wrote (O.taken out.old) (O.taken out.new)
        (λ written. (words : List (List ℕ)) (store at : ℕ)
        → reads_store words (Some store) ≡ true
        → Answers (OfStreams (Compose store at)) (at_entry words (D.seen disk.old)
        (record { bytes = files; overrides = given.now.overrides.now })) (answer_of [] [] result)
        written (D.seen disk.new))) }
    ensures composed { D.tells
        → IfAllTold (I.told inputs.old) (map string_bytes given.now.files.now)
        (λ files. Wrote (O.taken out.old) (O.taken out.new)
        (λ written. result ≡ Ends Done → (store : meant.Store ℕ) → StandsFor (D.seen disk.old) store
        → IsComposedOf (beside store given.now.overrides.now files)
        (overridden given.now.overrides.now (input files)) written)) }
    ensures refused { D.tells
        → IfAllTold (I.told inputs.old) (map string_bytes given.now.files.now)
        (λ files. Wrote (O.taken out.old) (O.taken out.new)
        (λ written. (verdict : Verdict) → result ≡ Ends (Refused verdict)
        → (store : meant.Store ℕ) → StandsFor (D.seen disk.old) store
        → written ≡ whole_output_of (beside store given.now.overrides.now files)
        (overridden given.now.overrides.now (input files)))) }
    ensures cause { ComposeCaused
        ((D.faults disk.new ≡ D.faults disk.old) × (I.faults inputs.new ≡ I.faults inputs.old)
        × (I.ends inputs.new ≡ I.ends inputs.old) × (O.faults out.new ≡ O.faults out.old))
        (Rose (D.faults disk.old) (D.faults disk.new))
        (Rose (I.faults inputs.old) (I.faults inputs.new))
        (Rose (I.ends inputs.old) (I.ends inputs.new))
        (Rose (O.faults out.old) (O.faults out.new)) result }
    ensures changed { ChangeFound (map string_bytes given.now.files.now) (I.last_end inputs.new)
        result }
    ensures len { D.len disk.new ≡ D.len disk.old }
    ensures seen { D.tells → D.seen disk.new ≡ D.seen disk.old }
    ensures any_moment { D.tells →
        LeavesOnly D.moment D.left_since disk.old disk.new (IsImage (D.pending disk.old)) }
    ensures later { D.faults disk.old ≤ D.faults disk.new }
{
    let store = match Store::open(disk, given.alloc) {
        Ok(store) => store,
        Err(stop) => return ended_by(stop),
    };
    compose_opened(given, &store, disk, inputs, out)
}

// The same over a store that is open.
fn compose_opened<D: Disk, I: Inputs, O: Sink>(
    given: &NamedFiles<'_>,
    store: &Store,
    disk: &mut D,
    inputs: &mut I,
    out: &mut O,
) -> StoreEnd
    requires some { given.now.files.now ≢ [] }
    requires size { HasSize (D.len disk.old) store.now }
    requires lawful { D.tells → IsLawfulStore (with_bytes (D.seen disk.old) store.now.core) }
    ensures same { I.told inputs.new ≡ I.told inputs.old }
    ensures asked { AskedOnly I.Inputs inputs.old inputs.new
        (AreReadTwice (I.told inputs.old) (map string_bytes given.now.files.now)) }
    ensures ends { D.tells → IfAllTold (I.told inputs.old) (map string_bytes given.now.files.now)
        (λ told. Wrote (O.taken out.old) (O.taken out.new)
        (EndsOver
        (beside (with_bytes (D.seen disk.old) store.now.core) given.now.overrides.now told)
        given.now.overrides.now told result)) }
    ensures cause { ComposeCaused
        ((D.faults disk.new ≡ D.faults disk.old) × (I.faults inputs.new ≡ I.faults inputs.old)
        × (I.ends inputs.new ≡ I.ends inputs.old) × (O.faults out.new ≡ O.faults out.old))
        (Rose (D.faults disk.old) (D.faults disk.new))
        (Rose (I.faults inputs.old) (I.faults inputs.new))
        (Rose (I.ends inputs.old) (I.ends inputs.new))
        (Rose (O.faults out.old) (O.faults out.new)) result }
    ensures changed { ChangeFound (map string_bytes given.now.files.now) (I.last_end inputs.new)
        result }
    ensures read { IsRead D.Disk disk.old disk.new }
{
    let known = match survey(given.alloc, inputs, given.files, given.overrides) {
        Ok(known) => known,
        Err(outcome) => return StoreEnd::Ends(outcome),
    };
    let Ok(indexes) = index_all(given.alloc, store.core().catalog(), &known) else {
        return StoreEnd::Ends(Outcome::NoMemory);
    };
    let Ok(core) = trace_all(given.alloc, &indexes) else {
        return StoreEnd::Ends(Outcome::NoMemory);
    };
    let beside = Beside {
        survey: known,
        indexes,
        core,
    };
    let over = compose_read(given, store, disk, beside, inputs, out);
    over.end
}

// What was found in the files, and what of the store stands beside them: its names and places, and
// its cells, each traced to its own place.
#[derive(Drop)]
struct Beside {
    survey: Survey,
    indexes: Catalog<PathIndex<Place>>,
    core: EditCore<Trace>,
}

// A disk that was only read, and how composing over it ended.
#[derive(Drop)]
struct OverDisk<'a, D> {
    disk: &'a mut D,
    end: StoreEnd,
}

// The same over what of the store stands beside the files.
fn compose_read<'a, D: Disk, I: Inputs, O: Sink>(
    given: &NamedFiles<'_>,
    store: &'a Store,
    disk: &'a mut D,
    beside: Beside,
    inputs: &mut I,
    out: &mut O,
) -> OverDisk<'a, D>
    requires some { given.now.files.now ≢ [] }
    requires size { HasSize (D.len disk.old) store.now }
    requires part { IsPartOf (bytes_in (D.seen disk.old) beside.indexes)
        (file_cells (with_bytes (D.seen disk.old) store.now.core)) }
    requires surveyed { IfAllTold (I.told inputs.old) (map string_bytes given.now.files.now)
        (SurveyEnd given.now.overrides.now (Ok beside.survey)) }
    requires traced { D.tells
        → IfAllTold (I.told inputs.old) (map string_bytes given.now.files.now)
        (λ told. recelled_store
        (seen (byte_of_trace told (bytes_in (D.seen disk.old) beside.indexes)) place_of) beside.core
        ≡ traced_store (bytes_in (D.seen disk.old) beside.indexes)) }
    requires had { AllCells (IsHad 0 (bytes_in (D.seen disk.old) beside.indexes))
        (start_of beside.core) }
    requires apart { store_without beside.survey.parts (bytes_in (D.seen disk.old) beside.indexes)
        ≡ bytes_in (D.seen disk.old) beside.indexes }
    requires sayable { D.tells → AllSayable (bytes_in (D.seen disk.old) beside.indexes) }
    ensures same { I.told inputs.new ≡ I.told inputs.old }
    ensures asked { AskedOnly I.Inputs inputs.old inputs.new
        (AreReadWithRanges (I.told inputs.old) (map string_bytes given.now.files.now)) }
    ensures ends { D.tells → IfAllTold (I.told inputs.old) (map string_bytes given.now.files.now)
        (λ told. Wrote (O.taken out.old) (O.taken out.new)
        (EndsOver (bytes_in (D.seen disk.old) beside.indexes) given.now.overrides.now told
        result.end)) }
    ensures cause { ComposeCaused
        ((D.faults result.disk.now ≡ D.faults disk.old)
        × (I.faults inputs.new ≡ I.faults inputs.old) × (I.ends inputs.new ≡ I.ends inputs.old)
        × (O.faults out.new ≡ O.faults out.old))
        (Rose (D.faults disk.old) (D.faults result.disk.now))
        (Rose (I.faults inputs.old) (I.faults inputs.new))
        (Rose (I.ends inputs.old) (I.ends inputs.new))
        (Rose (O.faults out.old) (O.faults out.new)) result.end }
    ensures changed { ChangeFound (map string_bytes given.now.files.now) (I.last_end inputs.new)
        result.end }
    ensures same_reference { result.disk.ghost_name ≡ disk.entry.ghost_name }
    ensures read { IsRead D.Disk disk.old result.disk.now }
{
    let reader = StoreReader { store, disk };
    let (end, reader) = compose_beside::<Brand, StoreReader<'a, D>, I, O>(
        given, reader, beside, inputs, out,
    );
    let StoreReader { store: _, disk } = reader;
    OverDisk { disk, end }
}

// The same over what reads the bytes of a base.
fn compose_beside<K: Anchor<H>, H: Fetch, I: Inputs, O: Sink>(
    given: &NamedFiles<'_>,
    reader: H,
    beside: Beside,
    inputs: &mut I,
    out: &mut O,
) -> (StoreEnd, H)
    requires some { given.now.files.now ≢ [] }
    requires begun { K.begun ≡ Some reader }
    requires base { K.base ≡ bytes_in K.image beside.indexes }
    requires ready { H.ready reader }
    requires part { IsPartOf (bytes_in K.image beside.indexes) (H.held reader) }
    requires surveyed { IfAllTold (I.told inputs.old) (map string_bytes given.now.files.now)
        (SurveyEnd given.now.overrides.now (Ok beside.survey)) }
    requires traced { H.tells
        → IfAllTold (I.told inputs.old) (map string_bytes given.now.files.now)
        (λ told. recelled_store
        (seen (byte_of_trace told (bytes_in K.image beside.indexes)) place_of) beside.core
        ≡ traced_store (bytes_in K.image beside.indexes)) }
    requires had { AllCells (IsHad 0 (bytes_in K.image beside.indexes)) (start_of beside.core) }
    requires apart { store_without beside.survey.parts (bytes_in K.image beside.indexes)
        ≡ bytes_in K.image beside.indexes }
    requires sayable { H.tells → AllSayable (bytes_in K.image beside.indexes) }
    ensures same { I.told inputs.new ≡ I.told inputs.old }
    ensures asked { AskedOnly I.Inputs inputs.old inputs.new
        (AreReadWithRanges (I.told inputs.old) (map string_bytes given.now.files.now)) }
    ensures ends { H.tells → IfAllTold (I.told inputs.old) (map string_bytes given.now.files.now)
        (λ told. Wrote (O.taken out.old) (O.taken out.new)
        (EndsOver (bytes_in K.image beside.indexes) given.now.overrides.now told result.0)) }
    ensures cause { ComposeCaused
        ((H.faults result.1 ≡ H.faults reader) × (I.faults inputs.new ≡ I.faults inputs.old)
        × (I.ends inputs.new ≡ I.ends inputs.old) × (O.faults out.new ≡ O.faults out.old))
        (Rose (H.faults reader) (H.faults result.1))
        (Rose (I.faults inputs.old) (I.faults inputs.new))
        (Rose (I.ends inputs.old) (I.ends inputs.new))
        (Rose (O.faults out.old) (O.faults out.new)) result.0 }
    ensures changed { ChangeFound (map string_bytes given.now.files.now) (I.last_end inputs.new)
        result.0 }
    ensures read { H.later reader result.1 }
{
    let Beside {
        survey,
        indexes,
        core,
    } = beside;
    let standing: Standing<H, K> = Standing {
        indexes,
        reader: PhantomData,
        of: PhantomData,
    };
    let mut bytes: BaseBytes<H, K> = BaseBytes {
        reader,
        failures: 0,
        of: PhantomData,
    };
    let task = Task {
        alloc: given.alloc,
        files: given.files,
        survey: &survey,
        overrides: given.overrides,
        known: &standing,
    };
    let outcome = compose_over(&task, core, &mut bytes, inputs, out);
    let BaseBytes {
        reader,
        failures,
        of: _,
    } = bytes;
    (ended_over(outcome, failures), reader)
}
