// The store.
ghost use Rattle.std.specs.Prelude.{◌≡◌, ℕ, ◌+◌, ◌<◌, ◌≤◌, true, false, Option, List, [], ◌∷◌, ◌++◌, length, None, Some, Ok, IfOk, OnOk, IfErr, OnErr, IsErr, IsErrAnd, IfSome, IsTrue, is_some, if◌then◌else◌};
ghost use Rattle.send_model.specs.Command as model_command;
ghost use Rattle.send_model.specs.Spelling.{attributes_of, canonical, IsSpellable};
ghost use Rattle.send_model.specs.Reading.{is_version, data_place};
ghost use Rattle.send_model.specs.Receive.{bytes_of};
ghost use Rattle.send_model.specs.Store as model_store;
ghost use Rattle.send_model.specs.Store.{has_name, head_of, begun, with_contents, edit_part};
ghost use Rattle.send_commands.specs.Meaning.{meaning_of};
ghost use Rattle.subvol_catalog.specs.Admission.{without_name};
ghost use Rattle.subvol_catalog.specs.Entries.{key_of};
ghost use Rattle.sx_base.specs.Causes.{Rose, Steady};
ghost use Rattle.sx_base.specs.Disk.{Pending, IsImage, IsAsBefore, settled};
ghost use Rattle.sx_base.specs.Crash.{LeavesOnly};
ghost use Rattle.store_model.specs.Image.{Header, header_of, usual_header};
ghost use Rattle.store_model.specs.Stored.{Group, Mark, Body, Drop, IsEdit, resumed};
ghost use Rattle.group_log.specs.Stopping.{IsFault, IsFaultOr};
ghost use Rattle.group_log.specs.declared.stops.LogStop.TheVariants.{StoreThere};
ghost use Rattle.group_replay.specs.declared.place.Place as here;
ghost use Rattle.store_journal.specs.Filling.{first_full, group_asks, head_asks, piece_asks, gate_behind, IsStopOf};
ghost use Rattle.group_replay.specs.Stopping.{IfRefused, IfLog, IfEnded, IsNoRefusal};
ghost use Rattle.group_replay.specs.Kept.{IsKept, AreKept};
ghost use Rattle.store_journal.specs.Shown.{IsIdle, IsOpen};
ghost use Rattle.group_replay.specs.Taking.{as_runs, open_state};
ghost use Rattle.store_journal.specs.Holding.{new_group, HasThese, HasOneMore, Holds, Builds, in_progress};
ghost use Rattle.store_journal.specs.Answers.{BeginsIn, EditsIn, IfNoFault, IfShort, IfHeadShort, groups_without};
ghost use Rattle.store_journal.specs.Opening.{OpenSays, IsOpenStop, HoldsSome};

use crate::groups::{edits_head, publish, start_group, write_drop, write_edit, write_mark};
use clone_resolve::{EditCore, Part};
use group_log::{Log, LogStop};
use group_replay::{Place, StoreStop, Window, take_group};
use send_commands::{Command, data_place};
use std::alloc::Global;
use std::marker::Model;
use subvol_catalog::Key;
use sx_base::{Blob, Disk, Stop};
use uuid::Uuid;

/// Subvolumes over a journal on a disk; the disk is handed to each call.
#[derive(Drop)]
pub struct Store {
    core: EditCore<Place>,
    log: Log,
    spelled: Blob,
    open_part: Option<Key>,
    is_live: bool,
}

impl Model for Store {
    ghost use Rattle.store_journal.specs.Shown.{StoreState};

    ghost Value = { StoreState };

    ghost use Rattle.store_journal.specs.Shown.{shown, IsInGroups};

    ghost view = { shown };

    ghost invariant = { IsInGroups };
}

impl Store {
    /// Makes a new store on an empty disk: a header of format 2 with the usual limit, and no
    /// groups. `StoreThere` exactly where the size is not 0, and then the disk stays as it was at
    /// every moment; `DiskFault`. Takes no memory.
    pub fn create<D: Disk>(disk: &mut D) -> Result<(), LogStop>
        ensures made { D.tells → OnOk result (D.seen disk.new ≡ header_of usual_header ++ 0 ∷ []) }
        ensures durable { D.tells →
            OnOk result (D.pending disk.new ≡ settled (D.seen disk.new)) }
        ensures len { OnOk result (D.len disk.new ≡ 21) }
        ensures empty { D.len disk.old ≡ 0 →
            IfErr result (IsFault (Rose (D.faults disk.old) (D.faults disk.new))) }
        ensures short { D.len disk.old ≡ 0 → D.len disk.new ≤ 21 }
        ensures there { 0 < D.len disk.old →
            IsErrAnd result (IsFaultOr (Rose (D.faults disk.old) (D.faults disk.new))
            (StoreThere (D.len disk.old))) }
        ensures len_kept { 0 < D.len disk.old → D.len disk.new ≡ D.len disk.old }
        ensures kept { D.tells → 0 < D.len disk.old →
            IsAsBefore D.seen D.pending disk.old disk.new }
        ensures any_moment { D.tells → 0 < D.len disk.old →
            LeavesOnly D.moment D.left_since disk.old disk.new (IsImage (D.pending disk.old)) }
        ensures later { D.faults disk.old ≤ D.faults disk.new }
        ensures steady { Steady (D.faults disk.old) (D.faults disk.new) result }
    {
        Log::create(disk)
    }

    /// Opens the store that stands on a disk: a sync, so that a crash leaves what is read from here
    /// on, and then group after group. The store is live, and no part is open.
    ///
    /// # Errors
    /// `NotStore` exactly where the bytes stand for no store: of group 0 where there is no whole
    /// and right header, else of the first group that is cut short or makes nothing of the
    /// subvolumes before it. `DiskFault`. It refuses nothing.
    pub fn open<D: Disk>(disk: &mut D, alloc: Global) -> Result<Store, StoreStop>
        ensures idle { IfOk result (IsIdle (D.len disk.new)) }
        ensures says { D.tells → OpenSays (D.seen disk.old) result }
        ensures holds { D.tells →
            IfOk result (HoldsSome (D.seen disk.new) (D.pending disk.new)) }
        ensures durable { D.tells →
            OnOk result (D.pending disk.new ≡ settled (D.seen disk.new)) }
        ensures not_refused { IfErr result IsNoRefusal }
        ensures stops { IfLog result (IsOpenStop (Rose (D.faults disk.old) (D.faults disk.new))) }
        ensures len { D.len disk.new ≡ D.len disk.old }
        ensures seen { D.tells → D.seen disk.new ≡ D.seen disk.old }

        // At every moment a crash leaves what it could have left before.
        ensures any_moment { D.tells →
            LeavesOnly D.moment D.left_since disk.old disk.new (IsImage (D.pending disk.old)) }

        ensures later { D.faults disk.old ≤ D.faults disk.new }
        ensures steady { Steady (D.faults disk.old) (D.faults disk.new) result }
    {
        let mut log = Log::open(disk)?;
        let mut core = EditCore::new(alloc);
        let mut window = Window::new(alloc);
        loop {
            match log.next(disk)? {
                None => return Ok(opened(alloc, core, log)),
                Some(group) => {
                    if !take_group(&log, disk, &mut core, group, &mut window)? {
                        return Err(StoreStop::Log(LogStop::NotStore {
                            group: group.number,
                        }));
                    }
                }
            }
        }
    }

    /// Whether the store may be written to: until a call that takes `&mut self` answers a stop of
    /// the journal or that there is no memory.
    pub fn live(&self) -> bool
        ensures { result ≡ self.now.is_live }
    {
        self.is_live
    }

    /// The subvolumes. The bytes of complete ones stand in the groups. Takes no memory.
    pub fn core(&self) -> &EditCore<Place>
        ensures core { result.now ≡ self.now.core }
        ensures kept { AreKept self.now.log.gate result.now }
    {
        &self.core
    }

    /// The subvolumes. The bytes of complete ones stand in the groups. Takes no memory.
    pub fn into_core(self) -> EditCore<Place>
        ensures core { result ≡ self.core }
        ensures kept { AreKept self.log.gate result }
    {
        self.core
    }

    // The journal.
    pub(crate) fn log(&self) -> &Log
        ensures { result.now ≡ self.now.log }
    {
        &self.log
    }

    /// Begins the entry of a head, and publishes a group of the head. The part is no open part:
    /// `reopen` starts the group of its edits.
    ///
    /// # Errors
    /// `BadName`, `NameThere`, `UuidThere` and `NoParent`: the first of these that holds, and then
    /// nothing is written and nothing is changed. `LogFull`, where the group does not fit;
    /// `DiskFault`.
    pub fn mark<D: Disk>(
        &mut self,
        disk: &mut D,
        head: &Command<'_>,
    ) -> Result<Part<Place>, StoreStop>
        requires idle { IsIdle (D.len disk.old) self.old }
        requires head { IsTrue (is_some (head_of (meaning_of head.now))) }
        requires spellable { IsSpellable 1 (meaning_of head.now) }
        ensures begun { IfSome (head_of (meaning_of head.now))
            (λ h. BeginsIn result h self.old.core self.new.core) }
        ensures idle { OnOk result (IsIdle (D.len disk.new) self.new) }

        // Taken up again, the entry is this part.
        ensures again { IfOk result (λ part.
            resumed self.new.core part.key.uuid ≡ Some (open_state self.new.core part)) }
        ensures kept { IfOk result (λ part. IsKept self.new.log.gate part.subvolume) }
        ensures gate { OnOk result (self.new.log.gate
            ≡ gate_behind self.old.log.gate (1 + length (canonical 1 (meaning_of head.now)))) }
        ensures limit { self.new.log.limit ≡ self.old.log.limit }

        // Where the disk tells, it has the group of the head then.
        ensures holds { D.tells → (header : Header) (groups : List Group) →
            Holds header groups self.old (D.seen disk.old) (D.pending disk.old) →
            OnOk result (Holds header (groups ++ new_group (Mark (meaning_of head.now)) ∷ [])
            self.new (D.seen disk.new) (D.pending disk.new)) }

        // What was written is stable then.
        ensures durable { D.tells →
            OnOk result (D.pending disk.new ≡ settled (D.seen disk.new)) }

        // Where it stops though the disk did not fail, that has the groups that there were.
        ensures held { D.tells → (header : Header) (groups : List Group) →
            Holds header groups self.old (D.seen disk.old) (D.pending disk.old) →
            IfShort result (Holds header groups self.old (D.seen disk.new) (D.pending disk.new)) }

        // At every moment a crash leaves the groups that there were, or these and that of the head.
        ensures any_moment { D.tells → (header : Header) (groups : List Group) →
            Holds header groups self.old (D.seen disk.old) (D.pending disk.old) →
            LeavesOnly D.moment D.left_since disk.old disk.new
            (HasOneMore header groups (new_group (Mark (meaning_of head.now)))) }

        // Of a head that is refused a crash never leaves a group.
        ensures unmarked { D.tells → (header : Header) (groups : List Group) →
            Holds header groups self.old (D.seen disk.old) (D.pending disk.old) →
            IfSome (head_of (meaning_of head.now)) (λ h. IsErr (begun self.old.core h) →
            LeavesOnly D.moment D.left_since disk.old disk.new (HasThese header groups)) }

        // Of a head whose group has no room a crash never leaves it.
        ensures no_room { D.tells → (header : Header) (groups : List Group) →
            Holds header groups self.old (D.seen disk.old) (D.pending disk.old) →
            IfSome (first_full self.old.log.limit
            (group_asks self.old.log.gate (1 + length (canonical 1 (meaning_of head.now)))))
            (λ _. LeavesOnly D.moment D.left_since disk.old disk.new (HasThese header groups)) }

        ensures refused { IfRefused result
            (λ _. (self.new ≡ self.old) × (disk.new ≡ disk.old)) }
        ensures ended { IfEnded result (self.new.is_live ≡ false) }
        ensures stops { IfLog result (IsStopOf (Rose (D.faults disk.old) (D.faults disk.new))
            self.old.log.limit (first_full self.old.log.limit
            (group_asks self.old.log.gate (1 + length (canonical 1 (meaning_of head.now)))))) }
        ensures fits { OnOk result (first_full self.old.log.limit
            (group_asks self.old.log.gate (1 + length (canonical 1 (meaning_of head.now))))
            ≡ None) }
        ensures later { D.faults disk.old ≤ D.faults disk.new }
        ensures steady { Steady (D.faults disk.old) (D.faults disk.new) result }
    {
        let part = match self.core.begin(head) {
            Ok(part) => part,
            Err(Stop::Refused(refusal)) => return Err(StoreStop::Refused(refusal)),
            Err(Stop::NoMemory) => {
                self.is_live = false;
                return Err(StoreStop::NoMemory);
            }
        };
        match write_mark(&mut self.log, disk, &mut self.spelled, head) {
            Ok(()) => Ok(part),
            Err(stop) => {
                self.is_live = false;
                Err(stop)
            }
        }
    }

    // Starts the group of the edits of an unfinished entry, whose part is open then.
    fn start<D: Disk>(&mut self, disk: &mut D, key: Key, version: u32) -> Result<(), LogStop>
        requires idle { IsIdle (D.len disk.old) self.old }
        requires version { is_version version ≡ true }
        ensures core { self.new.core ≡ self.old.core }
        ensures gate { self.new.log.gate ≡ self.old.log.gate }
        ensures size { OnOk result (self.new.log.size ≡ self.new.log.gate + 27) }
        ensures limit { self.new.log.limit ≡ self.old.log.limit }
        ensures still_open { (part : model_store.Part (Option here.Place)) → part.key ≡ key_of key →
            IsKept self.old.log.gate part.subvolume →
            OnOk result (IsOpen (D.len disk.new) part self.new) }
        ensures builds { D.tells → (header : Header) (groups : List Group)
            (part : model_store.Part (Option here.Place)) →
            Holds header groups self.old (D.seen disk.old) (D.pending disk.old) →
            part.key ≡ key_of key →
            resumed self.old.core part.key.uuid ≡ Some (open_state self.old.core part) →
            OnOk result (Builds header groups (in_progress version [] part) self.new
            (D.seen disk.new) (D.pending disk.new)) }
        ensures held { D.tells → (header : Header) (groups : List Group) →
            Holds header groups self.old (D.seen disk.old) (D.pending disk.old) →
            IfErr result (λ why. IfNoFault why (Holds header groups self.new
            (D.seen disk.new) (D.pending disk.new))) }
        ensures any_moment { D.tells → (header : Header) (groups : List Group) →
            Holds header groups self.old (D.seen disk.old) (D.pending disk.old) →
            LeavesOnly D.moment D.left_since disk.old disk.new (HasThese header groups) }
        ensures ended { OnErr result (self.new.is_live ≡ false) }
        ensures stops { IfErr result (IsStopOf (Rose (D.faults disk.old) (D.faults disk.new))
            self.old.log.limit
            (first_full self.old.log.limit (group_asks self.old.log.gate 18))) }
        ensures fits { OnOk result
            (first_full self.old.log.limit (group_asks self.old.log.gate 18) ≡ None) }
        ensures later { D.faults disk.old ≤ D.faults disk.new }
        ensures steady { Steady (D.faults disk.old) (D.faults disk.new) result }
    {
        match start_group(&mut self.log, disk, &edits_head(key.uuid, version as u8)) {
            Ok(()) => {
                self.open_part = Some(key);
                Ok(())
            }
            Err(stop) => {
                self.is_live = false;
                Err(stop)
            }
        }
    }

    /// Begins the entry of a head and its part: publishes a group of the head, and starts the group
    /// of the part's edits, whose frames are of this version.
    ///
    /// # Errors
    /// `BadName`, `NameThere`, `UuidThere` and `NoParent`: the first of these that holds, and then
    /// nothing is written and nothing is changed. `LogFull`, where the groups do not fit;
    /// `DiskFault`.
    pub fn begin<D: Disk>(
        &mut self,
        disk: &mut D,
        head: &Command<'_>,
        version: u32,
    ) -> Result<Part<Place>, StoreStop>
        requires idle { IsIdle (D.len disk.old) self.old }
        requires head { IsTrue (is_some (head_of (meaning_of head.now))) }
        requires spellable { IsSpellable 1 (meaning_of head.now) }
        requires version { is_version version ≡ true }
        ensures begun { IfSome (head_of (meaning_of head.now))
            (λ h. BeginsIn result h self.old.core self.new.core) }
        ensures still_open { IfOk result (λ part. IsOpen (D.len disk.new) part self.new) }
        ensures gate { OnOk result (self.new.log.gate
            ≡ gate_behind self.old.log.gate (1 + length (canonical 1 (meaning_of head.now)))) }
        ensures size { OnOk result (self.new.log.size ≡ self.new.log.gate + 27) }
        ensures limit { self.new.log.limit ≡ self.old.log.limit }

        // Where the disk tells, it has the group of the head then, and the part is the one that the
        // group of its edits makes.
        ensures builds { D.tells → (header : Header) (groups : List Group) →
            Holds header groups self.old (D.seen disk.old) (D.pending disk.old) →
            IfOk result (λ part. Builds header
            (groups ++ new_group (Mark (meaning_of head.now)) ∷ [])
            (in_progress version [] part) self.new
            (D.seen disk.new) (D.pending disk.new)) }

        // Where it stops though the disk did not fail, that has the groups that there were; and
        // that of the head too where this one has room, and only the group of the edits has none.
        ensures held { D.tells → (header : Header) (groups : List Group) →
            Holds header groups self.old (D.seen disk.old) (D.pending disk.old) →
            IfHeadShort result (first_full self.old.log.limit
            (group_asks self.old.log.gate (1 + length (canonical 1 (meaning_of head.now)))))
            (Holds header groups self.old (D.seen disk.new) (D.pending disk.new))
            (Holds header (groups ++ new_group (Mark (meaning_of head.now)) ∷ []) self.new
            (D.seen disk.new) (D.pending disk.new)) }

        // At every moment a crash leaves the groups that there were, or these and that of the head.
        ensures any_moment { D.tells → (header : Header) (groups : List Group) →
            Holds header groups self.old (D.seen disk.old) (D.pending disk.old) →
            LeavesOnly D.moment D.left_since disk.old disk.new
            (HasOneMore header groups (new_group (Mark (meaning_of head.now)))) }

        // Of a head that is refused a crash never leaves a group.
        ensures unmarked { D.tells → (header : Header) (groups : List Group) →
            Holds header groups self.old (D.seen disk.old) (D.pending disk.old) →
            IfSome (head_of (meaning_of head.now)) (λ h. IsErr (begun self.old.core h) →
            LeavesOnly D.moment D.left_since disk.old disk.new (HasThese header groups)) }

        // Of a head whose group has no room a crash never leaves it.
        ensures no_room { D.tells → (header : Header) (groups : List Group) →
            Holds header groups self.old (D.seen disk.old) (D.pending disk.old) →
            IfSome (first_full self.old.log.limit
            (group_asks self.old.log.gate (1 + length (canonical 1 (meaning_of head.now)))))
            (λ _. LeavesOnly D.moment D.left_since disk.old disk.new (HasThese header groups)) }

        ensures refused { IfRefused result
            (λ _. (self.new ≡ self.old) × (disk.new ≡ disk.old)) }
        ensures ended { IfEnded result (self.new.is_live ≡ false) }
        ensures stops { IfLog result (IsStopOf (Rose (D.faults disk.old) (D.faults disk.new))
            self.old.log.limit (first_full self.old.log.limit
            (head_asks self.old.log.gate (1 + length (canonical 1 (meaning_of head.now)))))) }
        ensures fits { OnOk result (first_full self.old.log.limit
            (head_asks self.old.log.gate (1 + length (canonical 1 (meaning_of head.now)))) ≡ None) }
        ensures later { D.faults disk.old ≤ D.faults disk.new }
        ensures steady { Steady (D.faults disk.old) (D.faults disk.new) result }
    {
        let part = self.mark(disk, head)?;
        self.start(disk, part.key(), version)?;
        Ok(part)
    }

    /// The part of the unfinished entry of a UUID as it began, and starts the group of its edits,
    /// whose frames are of this version.
    ///
    /// # Errors
    /// `LogFull`, where the group does not fit; `DiskFault`. It refuses nothing.
    pub fn reopen<D: Disk>(
        &mut self,
        disk: &mut D,
        uuid: Uuid,
        version: u32,
    ) -> Result<Part<Place>, StoreStop>
        requires idle { IsIdle (D.len disk.old) self.old }
        requires there { IsTrue (is_some (resumed self.old.core uuid)) }
        requires version { is_version version ≡ true }
        ensures resumed { IfOk result (λ part.
            resumed self.old.core uuid ≡ Some (open_state self.old.core part)) }
        ensures core { self.new.core ≡ self.old.core }
        ensures still_open { IfOk result (λ part. IsOpen (D.len disk.new) part self.new) }
        ensures gate { self.new.log.gate ≡ self.old.log.gate }
        ensures size { OnOk result (self.new.log.size ≡ self.new.log.gate + 27) }
        ensures limit { self.new.log.limit ≡ self.old.log.limit }
        ensures builds { D.tells → (header : Header) (groups : List Group) →
            Holds header groups self.old (D.seen disk.old) (D.pending disk.old) →
            IfOk result (λ part. Builds header groups (in_progress version [] part) self.new
            (D.seen disk.new) (D.pending disk.new)) }

        // Where it stops though the disk did not fail, that has the groups that there were.
        ensures held { D.tells → (header : Header) (groups : List Group) →
            Holds header groups self.old (D.seen disk.old) (D.pending disk.old) →
            IfShort result (Holds header groups self.new (D.seen disk.new) (D.pending disk.new)) }

        // At every moment a crash leaves the groups that there were.
        ensures any_moment { D.tells → (header : Header) (groups : List Group) →
            Holds header groups self.old (D.seen disk.old) (D.pending disk.old) →
            LeavesOnly D.moment D.left_since disk.old disk.new (HasThese header groups) }

        ensures not_refused { IfErr result IsNoRefusal }
        ensures ended { IfEnded result (self.new.is_live ≡ false) }
        ensures stops { IfLog result (IsStopOf (Rose (D.faults disk.old) (D.faults disk.new))
            self.old.log.limit
            (first_full self.old.log.limit (group_asks self.old.log.gate 18))) }
        ensures fits { OnOk result
            (first_full self.old.log.limit (group_asks self.old.log.gate 18) ≡ None) }
        ensures later { D.faults disk.old ≤ D.faults disk.new }
        ensures steady { Steady (D.faults disk.old) (D.faults disk.new) result }
    {
        let part = match self.core.resume(uuid) {
            Ok(part) => part,
            Err(Stop::Refused(_)) => unreachable!(),
            Err(Stop::NoMemory) => {
                self.is_live = false;
                return Err(StoreStop::NoMemory);
            }
        };
        self.start(disk, part.key(), version)?;
        Ok(part)
    }

    /// One command on the open part, whose frame is put into the group of the edits; it is neither
    /// a head nor END.
    ///
    /// # Errors
    /// The refusals of the command, after which nothing is written and nothing is changed.
    /// `LogFull`, where the frame does not fit; `DiskFault`.
    pub fn edit<D: Disk>(
        &mut self,
        disk: &mut D,
        part: &mut Part<Place>,
        c: &Command<'_>,
        version: u32,
    ) -> Result<(), StoreStop>
        requires is_open { IsOpen (D.len disk.old) part.old self.old }
        requires edit { IsEdit version (meaning_of c.now) }
        ensures key { part.new.key ≡ part.old.key }
        ensures edited { EditsIn result part.old part.new
            (edit_part None (as_runs
            (data_place version self.old.log.size (attributes_of (meaning_of c.now)))
            (bytes_of (meaning_of c.now))) self.old.core part.old (meaning_of c.now)) }
        ensures core { self.new.core ≡ self.old.core }
        ensures still_open { OnOk result (IsOpen (D.len disk.new) part.new self.new) }
        ensures gate { self.new.log.gate ≡ self.old.log.gate }
        ensures size { OnOk result (self.new.log.size
            ≡ self.old.log.size + length (canonical version (meaning_of c.now))) }
        ensures limit { self.new.log.limit ≡ self.old.log.limit }
        ensures builds { D.tells →
            (header : Header) (groups : List Group) (commands : List model_command.Command) →
            Builds header groups (in_progress version commands part.old) self.old
            (D.seen disk.old) (D.pending disk.old) →
            OnOk result (Builds header groups
            (in_progress version (commands ++ meaning_of c.now ∷ []) part.new) self.new
            (D.seen disk.new) (D.pending disk.new)) }

        // At every moment a crash leaves the groups that there were.
        ensures any_moment { D.tells →
            (header : Header) (groups : List Group) (commands : List model_command.Command) →
            Builds header groups (in_progress version commands part.old) self.old
            (D.seen disk.old) (D.pending disk.old) →
            LeavesOnly D.moment D.left_since disk.old disk.new (HasThese header groups) }

        // Where it stops though the disk did not fail, that was not called.
        ensures short { IfShort result (disk.new ≡ disk.old) }

        ensures refused { IfRefused result
            (λ _. (self.new ≡ self.old) × (disk.new ≡ disk.old)) }
        ensures ended { IfEnded result (self.new.is_live ≡ false) }
        ensures stops { IfLog result (IsStopOf (Rose (D.faults disk.old) (D.faults disk.new))
            self.old.log.limit (first_full self.old.log.limit
            (piece_asks self.old.log.size (length (canonical version (meaning_of c.now)))))) }
        ensures fits { OnOk result (first_full self.old.log.limit
            (piece_asks self.old.log.size (length (canonical version (meaning_of c.now)))) ≡ None) }
        ensures later { D.faults disk.old ≤ D.faults disk.new }
        ensures steady { Steady (D.faults disk.old) (D.faults disk.new) result }
    {
        let place = Place {
            at: self.log.end() + data_place(c, version).unwrap_or(0),
        };
        match self.core.edit(part, c, place) {
            Ok(()) => {}
            Err(Stop::Refused(refusal)) => return Err(StoreStop::Refused(refusal)),
            Err(Stop::NoMemory) => {
                self.is_live = false;
                return Err(StoreStop::NoMemory);
            }
        }
        match write_edit(&mut self.log, disk, &mut self.spelled, c, version) {
            Ok(()) => Ok(()),
            Err(stop) => {
                self.is_live = false;
                Err(stop)
            }
        }
    }

    /// Completes the open part: its entry takes its subvolume, and the group of its edits is
    /// published. Takes no memory. `DiskFault` only.
    pub fn complete<D: Disk>(&mut self, disk: &mut D, part: Part<Place>) -> Result<(), LogStop>
        requires { IsOpen (D.len disk.old) part self.old }
        ensures core { OnOk result
            (self.new.core ≡ with_contents part.key.uuid part.subvolume self.old.core) }
        ensures idle { OnOk result (IsIdle (D.len disk.new) self.new) }
        ensures gate { OnOk result (self.new.log.gate ≡ self.old.log.size + 4) }
        ensures limit { self.new.log.limit ≡ self.old.log.limit }
        ensures holds { D.tells → (header : Header) (groups : List Group) (version : ℕ)
            (commands : List model_command.Command) →
            Builds header groups (in_progress version commands part) self.old
            (D.seen disk.old) (D.pending disk.old) →
            OnOk result (Holds header
            (groups ++ new_group (Body part.key.uuid version commands) ∷ []) self.new
            (D.seen disk.new) (D.pending disk.new)) }

        // What was written is stable then.
        ensures durable { D.tells →
            OnOk result (D.pending disk.new ≡ settled (D.seen disk.new)) }

        // At every moment a crash leaves the groups that there were, or these and that of the
        // edits.
        ensures any_moment { D.tells → (header : Header) (groups : List Group) (version : ℕ)
            (commands : List model_command.Command) →
            Builds header groups (in_progress version commands part) self.old
            (D.seen disk.old) (D.pending disk.old) →
            LeavesOnly D.moment D.left_since disk.old disk.new
            (HasOneMore header groups (new_group (Body part.key.uuid version commands))) }

        ensures fault { IfErr result (IsFault (Rose (D.faults disk.old) (D.faults disk.new))) }
        ensures ended { OnErr result (self.new.is_live ≡ false) }
        ensures later { D.faults disk.old ≤ D.faults disk.new }
        ensures steady { Steady (D.faults disk.old) (D.faults disk.new) result }
    {
        match publish(&mut self.log, disk) {
            Ok(()) => {
                self.core.complete(part);
                self.open_part = None;
                Ok(())
            }
            Err(stop) => {
                self.is_live = false;
                Err(stop)
            }
        }
    }

    /// Leaves the entry of the open part unfinished, and forgets the group of its edits. Calls no
    /// disk, and takes no memory.
    pub fn abandon(&mut self, part: Part<Place>)
        ensures core { self.new.core ≡ self.old.core }
        ensures gate { self.new.log.gate ≡ self.old.log.gate }
        ensures limit { self.new.log.limit ≡ self.old.log.limit }
        ensures live { self.new.is_live ≡ self.old.is_live }
        ensures idle { (len : ℕ) → IsOpen len part self.old → IsIdle len self.new }
        ensures holds { (header : Header) (groups : List Group) (version : ℕ)
            (commands : List model_command.Command) (seen : List ℕ) (pending : Pending) →
            Builds header groups (in_progress version commands part) self.old seen pending →
            Holds header groups self.new seen pending }
    {
        let _part = part;
        self.log.abandon();
        self.open_part = None;
    }

    /// Drops the entry of a name, finished or not, and publishes a group of the name; answers
    /// whether there was one. Where there is none, nothing is written.
    ///
    /// # Errors
    /// `LogFull`, where the group does not fit; `DiskFault`. It refuses nothing.
    pub fn drop_name<D: Disk>(&mut self, disk: &mut D, name: &[u8]) -> Result<bool, StoreStop>
        requires { IsIdle (D.len disk.old) self.old }
        ensures there { IfOk result (λ there. there ≡ has_name name.now self.old.core) }
        ensures core { OnOk result (self.new.core ≡ without_name name.now self.old.core) }
        ensures idle { OnOk result (IsIdle (D.len disk.new) self.new) }
        ensures gate { IfOk result (λ there. self.new.log.gate ≡ (if there
            then gate_behind self.old.log.gate (1 + length name.now) else self.old.log.gate)) }
        ensures limit { self.new.log.limit ≡ self.old.log.limit }
        ensures missing { result ≡ Ok false →
            (self.new ≡ self.old) × (disk.new ≡ disk.old) }
        ensures holds { D.tells → (header : Header) (groups : List Group) →
            Holds header groups self.old (D.seen disk.old) (D.pending disk.old) →
            IfOk result (λ there. Holds header (groups_without there name.now groups) self.new
            (D.seen disk.new) (D.pending disk.new)) }

        // What was written is stable then.
        ensures durable { D.tells → result ≡ Ok true →
            D.pending disk.new ≡ settled (D.seen disk.new) }

        // It stops only where there is such an entry; where the disk did not fail, that has the
        // groups that there were.
        ensures found { OnErr result (has_name name.now self.old.core ≡ true) }
        ensures held { D.tells → (header : Header) (groups : List Group) →
            Holds header groups self.old (D.seen disk.old) (D.pending disk.old) →
            IfShort result (Holds header groups self.old (D.seen disk.new) (D.pending disk.new)) }

        // At every moment a crash leaves the groups that there were, or these and that of the name.
        ensures any_moment { D.tells → (header : Header) (groups : List Group) →
            Holds header groups self.old (D.seen disk.old) (D.pending disk.old) →
            LeavesOnly D.moment D.left_since disk.old disk.new
            (HasOneMore header groups (new_group (Drop name.now))) }

        // Where the group of the name has no room a crash never leaves it.
        ensures no_room { D.tells → (header : Header) (groups : List Group) →
            Holds header groups self.old (D.seen disk.old) (D.pending disk.old) →
            IfSome (first_full self.old.log.limit
            (group_asks self.old.log.gate (1 + length name.now)))
            (λ _. LeavesOnly D.moment D.left_since disk.old disk.new (HasThese header groups)) }

        ensures not_refused { IfErr result IsNoRefusal }
        ensures ended { IfEnded result (self.new.is_live ≡ false) }
        ensures stops { IfLog result (IsStopOf (Rose (D.faults disk.old) (D.faults disk.new))
            self.old.log.limit
            (first_full self.old.log.limit (group_asks self.old.log.gate (1 + length name.now)))) }
        ensures fits { result ≡ Ok true → first_full self.old.log.limit
            (group_asks self.old.log.gate (1 + length name.now)) ≡ None }
        ensures later { D.faults disk.old ≤ D.faults disk.new }
        ensures steady { Steady (D.faults disk.old) (D.faults disk.new) result }
    {
        if !self.core.drop_name(name) {
            return Ok(false);
        }
        match write_drop(&mut self.log, disk, &mut self.spelled, name) {
            Ok(()) => Ok(true),
            Err(stop) => {
                self.is_live = false;
                Err(stop)
            }
        }
    }
}

// A store that opened: it is live, and no part is open.
fn opened(alloc: Global, core: EditCore<Place>, log: Log) -> Store
    requires { AreKept log.gate core }
    ensures { result
        ≡ record { core = core; log = log; open_part = None; is_live = true } }
{
    Store {
        core,
        log,
        spelled: Blob::new(alloc),
        open_part: None,
        is_live: true,
    }
}
