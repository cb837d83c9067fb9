// Composing, item by item.
ghost use Rattle.std.specs.Prelude.{◌≡◌, ◌⊎◌, ℕ, ◌+◌, ◌≤◌, ◌<◌, ◌^◌, List, [], ◌++◌, length, map, not, true, Option, None, Some, is_some, Ok, OnOk, OnErr, IfErr};
ghost use Rattle.std.specs.Option.{option_map, option_copied};
ghost use Rattle.std.specs.List.{AllByRecursion};
ghost use Rattle.std.specs.String.{string_bytes};
ghost use Rattle.send_model.specs.Command.{Clone, End};
ghost use Rattle.send_model.specs.Subvolume.{Subvolume, walk, is_file};
ghost use Rattle.send_model.specs.Clone.{cells_of};
ghost use Rattle.send_model.specs.Store.{State, Head, Key, find, head_of};
ghost use Rattle.send_model.specs.Receive.{bytes_of, first_of};
ghost use Rattle.send_model.specs.Provenance.{is_own};
ghost use Rattle.send_model.specs.Spelling.{canonical};
ghost use Rattle.send_model.specs.Laws.{CanWrite};
ghost use Rattle.send_model.specs.Lengths.{limit};
ghost use Rattle.sx_base.specs.Asks.{IsAgain};
ghost use Rattle.sx_base.specs.Calls.{IfAllTold, ErrFoundChanged, IsStop};
ghost use Rattle.sx_base.specs.Causes.{Steady, counts};
ghost use Rattle.sx_base.specs.Refusals.{refusal_of, verdict_meant};
ghost use Rattle.sx_base.specs.declared.outcome.Outcome.TheVariants as ended;
ghost use Rattle.send_commands.specs.Meaning.{meaning_of};
ghost use Rattle.send_commands.specs.Writing.{IsWritable, IsShortEnough};
ghost use Rattle.extent_map.specs.Cells.{cells_between};
ghost use Rattle.subvol_catalog.specs.Entries.{key_of, head_with};
ghost use Rattle.cmd_reader.specs.Next.{item_of};
ghost use Rattle.provenance.specs.declared.trace.Trace.{Trace};
ghost use Rattle.clone_resolve.specs.Taken.{TakenFrom, taken_range};
ghost use Rattle.send_model.specs.Cells.{AllCells};
ghost use Rattle.clone_pieces.specs.Origins.{outside_cells, IsHad, IsInInput, AreAsLong, AreHeld};
ghost use Rattle.clone_pieces.specs.Later.{BytesLater};
ghost use Rattle.sx_base.specs.Later.{InputsLater, OutputLater, AskedOnly};
ghost use Rattle.clone_pieces.specs.Sending.{output, PutEnd};
ghost use Rattle.clone_pieces.specs.Redirecting.{seen_cells};
ghost use Rattle.composer.specs.Kept.{kept_at_start};
ghost use Rattle.composer.specs.Reached.{over, reached};
ghost use Rattle.composer.specs.Files.{plan_with};
ghost use Rattle.composer.specs.Taking.{DataStand, ItemEnd, ErrCausedAgain, StopEnd, EndEnd, EndStands, is_at_last};
ghost use Rattle.composer.specs.Adding.{Led, stands_out, begun_with, AddEnd, IsSourceOf, Adds, range_addition};

use crate::task::{ReadItem, Task};
use clone_pieces::{
    CellRange, Known, OutsideBytes, SendStop, Sources, Target, put, put_bytes, redirect, send,
    uncarried,
};
use clone_resolve::{EditCore, Key, Part, head_of};
use cmd_reader::Item;
use extent_map::Extents;
use file_survey::{PartHead, Place, Survey};
use provenance::Trace;
use send_commands::{Command, encode};
use std::alloc::{AllocError, Global};
use std::marker::Model;
use sx_base::{Blob, Inputs, Outcome, Refusal, Sink, Stop, Verdict};
use uuid::Uuid;

// The most bytes of redirected clones that are written.
const MOST_LITERAL: u64 = 1 << 40;

// An edit or END whose step was taken, the bytes of its frame as they came, and the key of the last
// part.
#[derive(Clone, Copy)]
struct Edit<'a, 'b> {
    item: &'a Item<'b>,
    frame: &'a [u8],
    last: Key,
}

// What a CLONE says: cells of a file of a subvolume go to a place of a file of the part.
#[derive(Clone, Copy)]
struct Range<'a> {
    path: &'a [u8],
    offset: u64,
    source: Key,
    source_path: &'a [u8],
    from: u64,
    len: u64,
}

/// Composes consecutive parts into one stream that stands for them: the first part's head with the
/// name and the key of the last, then what stands for the edits of all, then END. It keeps no byte
/// of a file. Only the calls of this crate have one, and they ask nothing more of it once it has
/// answered an error.
#[derive(Debug, Drop)]
pub(crate) struct Composer {
    alloc: Global,
    core: EditCore<Trace>,
    part: Option<Part<Trace>>,
    latest: Option<PartHead>,
    sum: u64,
    pending: Blob,
}

impl Model for Composer {
    ghost use Rattle.std.specs.Prelude.{◌≤◌, ◌^◌};
    ghost use Rattle.clone_resolve.specs.Steps.{Fits};
    ghost use Rattle.composer.specs.Kept.{Kept};

    ghost Value = { Kept };

    ghost view = { λ c. record {
      state = record { store = c.core; part = c.part };
      latest = c.latest;
      sum = c.sum;
      pending = c.pending;
    } };

    ghost invariant = { λ c. Fits c.core c.part × (c.sum ≤ 2 ^ 40) };
}

impl Composer {
    /// Composing before the first command, over the subvolumes of a base. Takes no memory.
    pub fn new(alloc: Global, core: EditCore<Trace>) -> Composer
        ensures start { result ≡ kept_at_start core }
    {
        Composer {
            alloc,
            core,
            part: None,
            latest: None,
            sum: 0,
            pending: Blob::new(alloc),
        }
    }

    /// One item that was read of a file. Where the bytes of its frame are the canonical spelling
    /// that is due, they go out as they are. What it adds is written where much is pending; of a
    /// clone from an earlier part what stands for it is written piece by piece, and the bytes of
    /// other pieces are read again. What is kept and written then is said where `bytes` tells;
    /// which head came last is said in any case.
    ///
    /// # Errors
    /// The refusal of the item's command, or `NotConsecutive` at a head that does not name the part
    /// before it as its parent or where the survey has no last head. `TooMuch` where more than 2^40
    /// bytes of clones from earlier parts come from no outside subvolume, before any of the clone
    /// with which they are too many is written.
    pub fn take<I: Inputs, E: Known, B: OutsideBytes, O: Sink>(
        &mut self,
        read: &ReadItem<'_, '_>,
        task: &Task<'_, E>,
        inputs: &mut I,
        bytes: &mut B,
        out: &mut O,
    ) -> Result<(), Outcome>
        requires numbered { (1 ≤ read.now.file) × (read.now.file ≤ length task.now.files.now) }
        requires frame { read.now.item.now.canonical ≡ true
            → read.now.frame.now ≡ canonical read.now.item.now.version
            (meaning_of read.now.item.now.command) }
        requires version { (read.now.item.now.version ≡ 1) ⊎ (read.now.item.now.version ≡ 2) }
        requires fits { read.now.item.now.version ≤ task.now.survey.now.version }
        requires can_write { CanWrite read.now.item.now.version
            (meaning_of read.now.item.now.command) }
        requires payload { read.now.item.now.data_at
            + length (bytes_of (meaning_of read.now.item.now.command)) ≤ limit }
        requires had { AllCells (IsHad (length task.now.files.now) (E.base task.now.known.now))
            self.old.state }
        requires sized { AreAsLong (B.held bytes.old) (outside_cells (E.base task.now.known.now)) }
        requires held { B.tells → AreHeld (B.held bytes.old) (E.base task.now.known.now) }
        requires there { IfAllTold (I.told inputs.old) (map string_bytes task.now.files.now)
            (λ told. AllCells (IsInInput told) self.old.state
            × DataStand told (item_of read.now.file read.now.item.now)) }
        ensures had { OnOk result
            (AllCells (IsHad (length task.now.files.now) (E.base task.now.known.now))
            self.new.state) }
        ensures there { OnOk result
            (IfAllTold (I.told inputs.old) (map string_bytes task.now.files.now)
            (λ told. AllCells (IsInInput told) self.new.state)) }
        ensures inputs { InputsLater I.Inputs inputs.old inputs.new result }
        ensures asked { AskedOnly I.Inputs inputs.old inputs.new
            (AllByRecursion (IsAgain (I.told inputs.old) (map string_bytes task.now.files.now))) }
        ensures bytes { BytesLater B.OutsideBytes bytes.old bytes.new result }
        ensures out { OutputLater O.Sink out.old out.new result }
        ensures cause { ErrCausedAgain
            (counts (I.ends inputs.old) (I.faults inputs.old + B.faults bytes.old)
            (O.faults out.old))
            (counts (I.ends inputs.new) (I.faults inputs.new + B.faults bytes.new)
            (O.faults out.new)) result }
        ensures stops { IfErr result IsStop }
        ensures changed { ErrFoundChanged (map string_bytes task.now.files.now)
            (I.last_end inputs.new) result }
        ensures latest { OnOk result (self.new.latest
            ≡ first_of (head_of (meaning_of read.now.item.now.command)) self.old.latest) }
        ensures taken { B.tells
            → IfAllTold (I.told inputs.old) (map string_bytes task.now.files.now)
            (λ told. ItemEnd
            (over told (plan_with (E.base task.now.known.now) task.now.survey.now))
            (item_of read.now.file read.now.item.now) (reached self.old (O.taken out.old))
            (reached self.new (O.taken out.new)) result) }
    {
        let item = read.item;
        let place = Place {
            file: read.file,
            command: item.number,
            offset: item.offset,
        };
        let origin = Trace::Fresh {
            file: read.file - 1,
            at: item.data_at,
        };
        match self.core.step(&mut self.part, &item.command, origin) {
            Ok(_) => {}
            Err(Stop::NoMemory) => return Err(Outcome::NoMemory),
            Err(Stop::Refused(refusal)) => return Err(self.refused(place, refusal, out)),
        }
        if let Some(head) = head_of(&item.command) {
            if !self.in_order(&head.parent, task.survey) {
                return Err(self.refused(place, Refusal::NotConsecutive, out));
            }
            return match self.begin_part(&item.command, item.version, head.parent, task.survey) {
                Ok(()) => Ok(()),
                Err(_) => Err(Outcome::NoMemory),
            };
        }
        let Some(last) = task.survey.last() else {
            return Ok(());
        };
        let edit = Edit {
            item,
            frame: read.frame,
            last: last.key(),
        };
        self.add(&edit, task, inputs, bytes, out)
    }

    // Whether a head with this parent follows the part before it, and was seen by the survey.
    fn in_order(&self, parent: &Option<Key>, survey: &Survey) -> bool
        ensures { (name : List ℕ) → (key : Key)
            → result ≡ not
            (stands_out (option_map (λ h. h.key) self.now.latest) survey.now.last
            (head_with name key parent.now)) }
    {
        if survey.last().is_none() {
            return false;
        }
        match (&self.latest, parent) {
            (None, _) => true,
            (Some(_), None) => false,
            (Some(latest), Some(parent)) => latest.has_key(*parent),
        }
    }

    // A head whose part has begun: the first begins the stream. Where there is no memory nothing
    // changes.
    fn begin_part(
        &mut self,
        c: &Command<'_>,
        version: u32,
        parent: Option<Key>,
        survey: &Survey,
    ) -> Result<(), AllocError>
        requires writable { IsWritable version (meaning_of c.now) }
        ensures begun { OnOk result
            ((head : Head) → head_of (meaning_of c.now) ≡ Some head
            → option_map key_of parent ≡ head.parent
            → self.new ≡ record self.old {
              latest = Some head;
              pending = self.old.pending
                  ++ begun_with survey.now.version (is_some self.old.latest) head survey.now.last;
            }) }
        ensures same { OnErr result (self.new ≡ self.old) }
    {
        let head = PartHead::of(self.alloc, c, version)?;
        if self.latest.is_none() {
            if let Some(last) = survey.last() {
                last.begin_stream(parent, survey.version(), &mut self.pending)?;
            }
        }
        self.latest = head;
        Ok(())
    }

    // Adds what stands for an edit or for END, of which the step was taken.
    fn add<I: Inputs, E: Known, B: OutsideBytes, O: Sink>(
        &mut self,
        edit: &Edit<'_, '_>,
        task: &Task<'_, E>,
        inputs: &mut I,
        bytes: &mut B,
        out: &mut O,
    ) -> Result<(), Outcome>
        requires frame { edit.now.item.now.canonical ≡ true
            → edit.now.frame.now ≡ canonical edit.now.item.now.version
            (meaning_of edit.now.item.now.command) }
        requires edit { head_of (meaning_of edit.now.item.now.command) ≡ None }
        requires led { (before : State (Option Trace)) × (put : List (Option Trace))
            × Led before self.old.state put (meaning_of edit.now.item.now.command) }
        requires version { (edit.now.item.now.version ≡ 1) ⊎ (edit.now.item.now.version ≡ 2) }
        requires fits { edit.now.item.now.version ≤ task.now.survey.now.version }
        requires can_write { CanWrite edit.now.item.now.version
            (meaning_of edit.now.item.now.command) }
        requires had { AllCells (IsHad (length task.now.files.now) (E.base task.now.known.now))
            self.old.state }
        requires sized { AreAsLong (B.held bytes.old) (outside_cells (E.base task.now.known.now)) }
        requires held { B.tells → AreHeld (B.held bytes.old) (E.base task.now.known.now) }
        requires there { IfAllTold (I.told inputs.old) (map string_bytes task.now.files.now)
            (λ told. AllCells (IsInInput told) self.old.state) }
        ensures state { self.new.state ≡ self.old.state }
        ensures latest { self.new.latest ≡ self.old.latest }
        ensures inputs { InputsLater I.Inputs inputs.old inputs.new result }
        ensures asked { AskedOnly I.Inputs inputs.old inputs.new
            (AllByRecursion (IsAgain (I.told inputs.old) (map string_bytes task.now.files.now))) }
        ensures bytes { BytesLater B.OutsideBytes bytes.old bytes.new result }
        ensures out { OutputLater O.Sink out.old out.new result }
        ensures cause { ErrCausedAgain
            (counts (I.ends inputs.old) (I.faults inputs.old + B.faults bytes.old)
            (O.faults out.old))
            (counts (I.ends inputs.new) (I.faults inputs.new + B.faults bytes.new)
            (O.faults out.new)) result }
        ensures stops { IfErr result IsStop }
        ensures changed { ErrFoundChanged (map string_bytes task.now.files.now)
            (I.last_end inputs.new) result }
        ensures added { B.tells
            → IfAllTold (I.told inputs.old) (map string_bytes task.now.files.now)
            (λ told. AddEnd
            (over told (plan_with (E.base task.now.known.now) task.now.survey.now))
            (key_of edit.now.last) (meaning_of edit.now.item.now.command)
            (reached self.old (O.taken out.old)) (reached self.new (O.taken out.new)) result) }
    {
        match &edit.item.command {
            Command::End => {
                let low = self.sum <= MOST_LITERAL;
                prove!(low);
                Ok(())
            }
            Command::Clone {
                path,
                offset,
                clone_uuid,
                clone_ctransid,
                clone_path,
                clone_offset,
                clone_len,
            } => {
                let source = Key {
                    uuid: *clone_uuid,
                    ctransid: *clone_ctransid,
                };
                let range = Range {
                    path,
                    offset: *offset,
                    source: Key {
                        uuid: *clone_uuid,
                        ctransid: *clone_ctransid,
                    },
                    source_path: clone_path,
                    from: *clone_offset,
                    len: *clone_len,
                };
                if self.is_own(*clone_uuid) {
                    return self
                        .add_own(&range, edit.last, task.survey, out)
                        .map_err(Outcome::from);
                }
                if !task.survey.has_part(*clone_uuid) {
                    return put_item(edit, task.survey.version(), &mut self.pending, out).map_err(
                        Outcome::from,
                    );
                }
                self.add_redirected(&range, task, inputs, bytes, out)
            }
            _ => put_item(edit, task.survey.version(), &mut self.pending, out).map_err(
                Outcome::from,
            ),
        }
    }

    // Whether a UUID is that of the part so far.
    fn is_own(&self, uuid: Uuid) -> bool
        ensures { result ≡ is_own (option_map (λ p. p.key.uuid) self.now.state.part) uuid }
    {
        match &self.part {
            None => false,
            Some(part) => part.key().uuid == uuid,
        }
    }

    // Adds a clone from the part itself, which names the new part.
    fn add_own<O: Sink>(
        &mut self,
        range: &Range<'_>,
        last: Key,
        survey: &Survey,
        out: &mut O,
    ) -> Result<(), SendStop>
        requires short { (length range.now.path.now < 2 ^ 16)
            × (length range.now.source_path.now < 2 ^ 16) }
        ensures state { self.new.state ≡ self.old.state }
        ensures latest { self.new.latest ≡ self.old.latest }
        ensures sum { self.new.sum ≡ self.old.sum }
        ensures later { O.faults out.old ≤ O.faults out.new }
        ensures steady { Steady (O.faults out.old) (O.faults out.new) result }
        ensures put { PutEnd (output O.Sink out.old self.old.pending)
            (output O.Sink out.new self.new.pending)
            (canonical survey.now.version
            (Clone range.now.path.now range.now.offset (key_of last).uuid (key_of last).ctransid
            range.now.source_path.now range.now.from range.now.len)) result }
    {
        let clone_uuid = last.uuid;
        let _bytes: &[u8] = clone_uuid.as_bytes();
        let own = Command::Clone {
            path: range.path,
            offset: range.offset,
            clone_uuid,
            clone_ctransid: last.ctransid,
            clone_path: range.source_path,
            clone_offset: range.from,
            clone_len: range.len,
        };
        put(&own, survey.version(), &mut self.pending, out)
    }

    // Adds what stands for a clone from an earlier part of the files.
    fn add_redirected<I: Inputs, E: Known, B: OutsideBytes, O: Sink>(
        &mut self,
        range: &Range<'_>,
        task: &Task<'_, E>,
        inputs: &mut I,
        bytes: &mut B,
        out: &mut O,
    ) -> Result<(), Outcome>
        requires taken { (before : State (Option Trace))
            × TakenFrom before self.old.state range.now.offset
            (taken_range (key_of range.now.source) range.now.source_path.now range.now.from
            range.now.len) }
        requires short { length range.now.path.now < 2 ^ 16 }
        requires had { AllCells (IsHad (length task.now.files.now) (E.base task.now.known.now))
            self.old.state }
        requires sized { AreAsLong (B.held bytes.old) (outside_cells (E.base task.now.known.now)) }
        requires held { B.tells → AreHeld (B.held bytes.old) (E.base task.now.known.now) }
        requires there { IfAllTold (I.told inputs.old) (map string_bytes task.now.files.now)
            (λ told. AllCells (IsInInput told) self.old.state) }
        ensures state { self.new.state ≡ self.old.state }
        ensures latest { self.new.latest ≡ self.old.latest }
        ensures inputs { InputsLater I.Inputs inputs.old inputs.new result }
        ensures asked { AskedOnly I.Inputs inputs.old inputs.new
            (AllByRecursion (IsAgain (I.told inputs.old) (map string_bytes task.now.files.now))) }
        ensures bytes { BytesLater B.OutsideBytes bytes.old bytes.new result }
        ensures out { OutputLater O.Sink out.old out.new result }
        ensures cause { ErrCausedAgain
            (counts (I.ends inputs.old) (I.faults inputs.old + B.faults bytes.old)
            (O.faults out.old))
            (counts (I.ends inputs.new) (I.faults inputs.new + B.faults bytes.new)
            (O.faults out.new)) result }
        ensures stops { IfErr result IsStop }
        ensures changed { ErrFoundChanged (map string_bytes task.now.files.now)
            (I.last_end inputs.new) result }
        ensures added { B.tells
            → IfAllTold (I.told inputs.old) (map string_bytes task.now.files.now)
            (λ told. (cells : List (Option Trace))
            → IsSourceOf cells self.old.state (key_of range.now.source) range.now.source_path.now
            → Adds (range_addition (E.base task.now.known.now) task.now.survey.now.version
            range.now.path.now range.now.offset (seen_cells told (E.base task.now.known.now)
            (cells_between range.now.from range.now.len cells)))
            (reached self.old (O.taken out.old)) (reached self.new (O.taken out.new)) result) }
    {
        let Some(contents) = contents_of(&self.core, range.source, range.source_path) else {
            unreachable!()
        };
        let sum = self.sum + uncarried(contents, range.from, range.len, task.known);
        if sum > MOST_LITERAL {
            return Err(ended(Outcome::TooMuch { sum }, &mut self.pending, out));
        }
        self.sum = sum;
        let cells = CellRange {
            to: Target {
                path: range.path,
                offset: range.offset,
                version: task.survey.version(),
            },
            contents,
            from: range.from,
            len: range.len,
        };
        let sources = Sources {
            alloc: self.alloc,
            files: task.files,
            known: task.known,
        };
        redirect(&cells, &sources, inputs, bytes, &mut self.pending, out).map_err(Outcome::from)
    }

    /// Whether the head that came last is that of the last part. Where no part has begun, it is
    /// not.
    pub fn is_at_last(&self, survey: &Survey) -> bool
        ensures last { result ≡ is_at_last self.now.latest survey.now.last }
    {
        match (&self.latest, survey.last()) {
            (Some(latest), Some(last)) => last.is_like(latest),
            (None, _) | (Some(_), None) => false,
        }
    }

    // The outcome where an item is refused at its place.
    fn refused<O: Sink>(&mut self, place: Place, refusal: Refusal, out: &mut O) -> Outcome
        ensures later { O.faults out.old ≤ O.faults out.new }
        ensures stops { IsStop result }
        ensures refused { (verdict : Verdict)
            × (verdict_meant verdict ≡ record {
              file = place.file;
              command = place.command;
              offset = place.offset;
              refusal = refusal_of refusal;
            })
            × StopEnd (output O.Sink out.old self.old.pending)
            (output O.Sink out.new self.new.pending) (ended.Refused verdict) result }
    {
        self.stopped(Outcome::Refused(place.refused(refusal)), out)
    }

    /// The outcome of a run that ends here. What is pending is written first, so a fault of the
    /// output is answered in place of a refusal; but where the inputs have failed, or there is no
    /// memory, nothing more is asked of the output. Where all went out, nothing is pending any
    /// more; all else stays.
    pub fn stopped<O: Sink>(&mut self, outcome: Outcome, out: &mut O) -> Outcome
        ensures later { O.faults out.old ≤ O.faults out.new }
        ensures stops { IsStop outcome → IsStop result }
        ensures stopped { StopEnd (output O.Sink out.old self.old.pending)
            (output O.Sink out.new self.new.pending) outcome result }
        ensures still { self.new ≡ record self.old { pending = self.new.pending } }
    {
        ended(outcome, &mut self.pending, out)
    }

    /// Adds END and writes all that is pending; then nothing is, and all else stays.
    ///
    /// # Errors
    /// The output failed, and END is pending with what was; or there is no memory, and nothing was
    /// written or changed.
    #[tactic(auto, using(crate::proofs::EditSpelling::end_short), unfolding(send_commands::specs::Writing::IsWritable, send_model::specs::Command::row))]
    pub fn end<O: Sink>(&mut self, version: u32, out: &mut O) -> Result<(), SendStop>
        requires version { (version ≡ 1) ⊎ (version ≡ 2) }
        ensures later { O.faults out.old ≤ O.faults out.new }
        ensures steady { Steady (O.faults out.old) (O.faults out.new) result }
        ensures ended { EndEnd (self.old.pending ++ canonical version End)
            (O.taken out.old) (O.taken out.new) (O.faults out.old) (O.faults out.new) result }
        ensures all_out { OnOk result (self.new ≡ record self.old { pending = [] }) }
        ensures still { EndStands version self.old self.new result }
    {
        if encode(&Command::End, version, &mut self.pending).is_err() {
            return Err(SendStop::NoMemory);
        }
        if send(&mut self.pending, out).is_err() {
            return Err(SendStop::OutputFault);
        }
        Ok(())
    }
}

// Adds an item's command as it is: its frame as it came, where that is the canonical spelling of
// the version, or spelled anew.
fn put_item<O: Sink>(
    edit: &Edit<'_, '_>,
    version: u32,
    pending: &mut Blob,
    out: &mut O,
) -> Result<(), SendStop>
    requires frame { edit.now.item.now.canonical ≡ true
        → edit.now.frame.now ≡ canonical edit.now.item.now.version
        (meaning_of edit.now.item.now.command) }
    requires writable { IsWritable version (meaning_of edit.now.item.now.command) }
    requires short { IsShortEnough version (meaning_of edit.now.item.now.command) }
    ensures later { O.faults out.old ≤ O.faults out.new }
    ensures steady { Steady (O.faults out.old) (O.faults out.new) result }
    ensures put { PutEnd (output O.Sink out.old pending.old) (output O.Sink out.new pending.new)
        (canonical version (meaning_of edit.now.item.now.command)) result }
{
    let item = edit.item;
    if item.canonical && item.version == version {
        return put_bytes(edit.frame, pending, out);
    }
    put(&item.command, version, pending, out)
}

// The contents of the file that a path leads to in a complete subvolume.
fn contents_of<'a>(core: &'a EditCore<Trace>, key: Key, path: &[u8]) -> Option<&'a Extents<Trace>>
    ensures { (source : Subvolume (Option Trace)) → (ino : ℕ)
        → find core.now (key_of key) ≡ Some source → walk source path.now ≡ Ok ino
        → is_file source ino ≡ true → option_copied result ≡ Some (cells_of source ino) }
{
    let sub = core.catalog().by_key(key)?;
    let Ok(ino) = sub.tree().find(path) else {
        return None;
    };
    match sub.tree().inode(ino) {
        Some(inode) => Some(inode.contents()),
        None => None,
    }
}

// The outcome of a run that ends here, after what is pending was written.
fn ended<O: Sink>(outcome: Outcome, pending: &mut Blob, out: &mut O) -> Outcome
    ensures later { O.faults out.old ≤ O.faults out.new }
    ensures stops { IsStop outcome → IsStop result }
    ensures stopped { StopEnd (output O.Sink out.old pending.old)
        (output O.Sink out.new pending.new) outcome result }
{
    if let Outcome::InputFault | Outcome::NoMemory = outcome {
        return outcome;
    }
    match send(pending, out) {
        Ok(()) => outcome,
        Err(_) => Outcome::OutputFault,
    }
}
