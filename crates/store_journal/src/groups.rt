// Groups that are written.
ghost use Rattle.std.specs.Prelude.{◌≡◌, ◌⊎◌, ℕ, ◌+◌, ◌<◌, ◌≤◌, List, [], ◌∷◌, ◌++◌, length, None, Err, IfOk, OnOk, IfErr, OnErr, IfSome};
ghost use Rattle.sx_base.specs.Causes.{Rose, Steady};
ghost use Rattle.sx_base.specs.Disk.{settled};
ghost use Rattle.sx_base.specs.Crash.{LeavesOnly};
ghost use Rattle.send_model.specs.Spelling.{canonical, IsSpellable};
ghost use Rattle.store_model.specs.Image.{Header, HasGroups, sealed};
ghost use Rattle.send_commands.specs.Meaning.{meaning_of};
ghost use Rattle.group_log.specs.Stopping.{IsFault};
ghost use Rattle.group_log.specs.Journal.{IsAtRest, IsInProgress, Rests, Grows};
ghost use Rattle.store_journal.specs.Filling.{first_full, group_asks, piece_asks, gate_behind, IsStopOf};
ghost use Rattle.group_replay.specs.Stopping.{IfLog, IsNoRefusal};
ghost use Rattle.store_journal.specs.Holding.{edits_head};
ghost use Rattle.store_journal.specs.Answers.{IfNoFault, IfShort};
ghost use Rattle.group_replay.specs.declared.stops.StoreStop.TheVariants as stop;

use group_log::{Log, LogStop};
use group_replay::StoreStop;
use send_commands::{Command, encode};
use sx_base::{Blob, Disk};
use uuid::Uuid;

// The first bytes of groups.
const MARK: u8 = 4;

const EDITS: u8 = 5;

const DROP: u8 = 6;

/// Publishes a group with these bytes and their checksum.
pub(crate) fn write_group<D: Disk>(log: &mut Log, disk: &mut D, bytes: &[u8]) -> Result<(), LogStop>
    requires { IsAtRest (D.len disk.old) log.old }
    ensures at_rest { OnOk result (IsAtRest (D.len disk.new) log.new) }
    ensures gate { OnOk result (log.new.gate ≡ gate_behind log.old.gate (length bytes.now)) }
    ensures gate_kept { OnErr result (log.new.gate ≡ log.old.gate) }
    ensures limit { log.new.limit ≡ log.old.limit }
    ensures rests { D.tells → (header : Header) (bodies : List (List ℕ)) →
        Rests header bodies log.old (D.seen disk.old) (D.pending disk.old) →
        OnOk result (Rests header (bodies ++ sealed bytes.now ∷ []) log.new
        (D.seen disk.new) (D.pending disk.new)) }
    ensures any_moment { D.tells → (header : Header) (bodies : List (List ℕ)) →
        Rests header bodies log.old (D.seen disk.old) (D.pending disk.old) →
        LeavesOnly D.moment D.left_since disk.old disk.new (λ image. HasGroups header bodies image
        ⊎ HasGroups header (bodies ++ sealed bytes.now ∷ []) image) }
    ensures durable { D.tells → OnOk result (D.pending disk.new ≡ settled (D.seen disk.new)) }
    ensures held { D.tells → (header : Header) (bodies : List (List ℕ)) →
        Rests header bodies log.old (D.seen disk.old) (D.pending disk.old) →
        IfErr result (λ why. IfNoFault why (Rests header bodies log.old
        (D.seen disk.new) (D.pending disk.new))) }
    ensures no_room { D.tells → (header : Header) (bodies : List (List ℕ)) →
        Rests header bodies log.old (D.seen disk.old) (D.pending disk.old) →
        IfSome (first_full log.old.limit (group_asks log.old.gate (length bytes.now)))
        (λ _. LeavesOnly D.moment D.left_since disk.old disk.new (HasGroups header bodies)) }
    ensures stops { IfErr result (IsStopOf (Rose (D.faults disk.old) (D.faults disk.new))
        log.old.limit (first_full log.old.limit (group_asks log.old.gate (length bytes.now)))) }
    ensures fits { OnOk result
        (first_full log.old.limit (group_asks log.old.gate (length bytes.now)) ≡ None) }
    ensures later { D.faults disk.old ≤ D.faults disk.new }
    ensures steady { Steady (D.faults disk.old) (D.faults disk.new) result }
{
    log.body(disk)?;
    log.append(disk, bytes)?;
    log.prepare(disk)?;
    log.publish(disk)
}

/// Starts a group with these bytes in front.
pub(crate) fn start_group<D: Disk>(log: &mut Log, disk: &mut D, bytes: &[u8]) -> Result<(), LogStop>
    requires { IsAtRest (D.len disk.old) log.old }
    ensures in_progress { OnOk result (IsInProgress (D.len disk.new) log.new) }
    ensures gate { log.new.gate ≡ log.old.gate }
    ensures size { OnOk result (log.new.size ≡ log.old.gate + 9 + length bytes.now) }
    ensures limit { log.new.limit ≡ log.old.limit }
    ensures grows { D.tells → (header : Header) (bodies : List (List ℕ)) →
        Rests header bodies log.old (D.seen disk.old) (D.pending disk.old) →
        OnOk result (Grows header bodies bytes.now log.new (D.seen disk.new) (D.pending disk.new)) }
    ensures any_moment { D.tells → (header : Header) (bodies : List (List ℕ)) →
        Rests header bodies log.old (D.seen disk.old) (D.pending disk.old) →
        LeavesOnly D.moment D.left_since disk.old disk.new (HasGroups header bodies) }
    ensures held { D.tells → (header : Header) (bodies : List (List ℕ)) →
        Rests header bodies log.old (D.seen disk.old) (D.pending disk.old) →
        IfErr result (λ why. IfNoFault why (Rests header bodies log.new
        (D.seen disk.new) (D.pending disk.new))) }
    ensures stops { IfErr result (IsStopOf (Rose (D.faults disk.old) (D.faults disk.new))
        log.old.limit (first_full log.old.limit (group_asks log.old.gate (length bytes.now)))) }
    ensures fits { OnOk result
        (first_full log.old.limit (group_asks log.old.gate (length bytes.now)) ≡ None) }
    ensures later { D.faults disk.old ≤ D.faults disk.new }
    ensures steady { Steady (D.faults disk.old) (D.faults disk.new) result }
{
    log.body(disk)?;
    log.append(disk, bytes)?;
    Ok(())
}

/// The bytes of a group of a head.
pub(crate) fn spell_mark(head: &Command<'_>, to: &mut Blob) -> Result<(), StoreStop>
    requires { IsSpellable 1 (meaning_of head.now) }
    ensures spelled { OnOk result (to.new ≡ 4 ∷ canonical 1 (meaning_of head.now)) }
    ensures stops { IfErr result (λ why. why ≡ stop.NoMemory) }
{
    to.clear();
    to.push_all(&[MARK])?;
    encode(head, 1, to)?;
    Ok(())
}

/// The bytes in front of a group of edits.
pub(crate) fn edits_head(uuid: Uuid, version: u8) -> [u8; 18]
    ensures spelled { result ≡ edits_head uuid version }
    ensures sixteen { length uuid ≡ 16 }
{
    let mut head = [EDITS; 18];
    head[1..17].copy_from_slice(uuid.as_bytes());
    head[17] = version;
    head
}

/// The bytes of a group that drops a name.
pub(crate) fn spell_drop(name: &[u8], to: &mut Blob) -> Result<(), StoreStop>
    ensures spelled { OnOk result (to.new ≡ 6 ∷ name.now) }
    ensures stops { IfErr result (λ why. why ≡ stop.NoMemory) }
{
    to.clear();
    to.push_all(&[DROP])?;
    to.push_all(name)?;
    Ok(())
}

/// Publishes a group of a head.
pub(crate) fn write_mark<D: Disk>(
    log: &mut Log,
    disk: &mut D,
    spelled: &mut Blob,
    head: &Command<'_>,
) -> Result<(), StoreStop>
    requires rest { IsAtRest (D.len disk.old) log.old }
    requires spellable { IsSpellable 1 (meaning_of head.now) }
    ensures at_rest { OnOk result (IsAtRest (D.len disk.new) log.new) }
    ensures gate { OnOk result (log.new.gate
        ≡ gate_behind log.old.gate (1 + length (canonical 1 (meaning_of head.now)))) }
    ensures rests { D.tells → (header : Header) (bodies : List (List ℕ)) →
        Rests header bodies log.old (D.seen disk.old) (D.pending disk.old) →
        OnOk result (Rests header (bodies ++ sealed (4 ∷ canonical 1 (meaning_of head.now)) ∷ [])
        log.new (D.seen disk.new) (D.pending disk.new)) }
    ensures any_moment { D.tells → (header : Header) (bodies : List (List ℕ)) →
        Rests header bodies log.old (D.seen disk.old) (D.pending disk.old) →
        LeavesOnly D.moment D.left_since disk.old disk.new (λ image. HasGroups header bodies image
        ⊎ HasGroups header (bodies ++ sealed (4 ∷ canonical 1 (meaning_of head.now)) ∷ []) image) }
    ensures durable { D.tells → OnOk result (D.pending disk.new ≡ settled (D.seen disk.new)) }
    ensures held { D.tells → (header : Header) (bodies : List (List ℕ)) →
        Rests header bodies log.old (D.seen disk.old) (D.pending disk.old) →
        IfShort result (Rests header bodies log.old (D.seen disk.new) (D.pending disk.new)) }
    ensures no_room { D.tells → (header : Header) (bodies : List (List ℕ)) →
        Rests header bodies log.old (D.seen disk.old) (D.pending disk.old) →
        IfSome (first_full log.old.limit
        (group_asks log.old.gate (1 + length (canonical 1 (meaning_of head.now)))))
        (λ _. LeavesOnly D.moment D.left_since disk.old disk.new (HasGroups header bodies)) }
    ensures not_refused { IfErr result IsNoRefusal }
    ensures stops { IfLog result (IsStopOf (Rose (D.faults disk.old) (D.faults disk.new))
        log.old.limit (first_full log.old.limit
        (group_asks log.old.gate (1 + length (canonical 1 (meaning_of head.now)))))) }
    ensures fits { OnOk result (first_full log.old.limit
        (group_asks log.old.gate (1 + length (canonical 1 (meaning_of head.now)))) ≡ None) }
    ensures gate_kept { OnErr result (log.new.gate ≡ log.old.gate) }
    ensures limit { log.new.limit ≡ log.old.limit }
    ensures later { D.faults disk.old ≤ D.faults disk.new }
    ensures steady { Steady (D.faults disk.old) (D.faults disk.new) result }
{
    spell_mark(head, spelled)?;
    write_group(log, disk, spelled.as_slice())?;
    Ok(())
}

/// Puts the frame of an edit into the group in progress.
pub(crate) fn write_edit<D: Disk>(
    log: &mut Log,
    disk: &mut D,
    spelled: &mut Blob,
    c: &Command<'_>,
    version: u32,
) -> Result<(), StoreStop>
    requires open { IsInProgress (D.len disk.old) log.old }
    requires spellable { IsSpellable version (meaning_of c.now) }
    ensures in_progress { OnOk result (IsInProgress (D.len disk.new) log.new) }
    ensures gate { log.new.gate ≡ log.old.gate }
    ensures size { OnOk result (log.new.size
        ≡ log.old.size + length (canonical version (meaning_of c.now))) }
    ensures grows { D.tells → (header : Header) (bodies : List (List ℕ)) (body : List ℕ) →
        Grows header bodies body log.old (D.seen disk.old) (D.pending disk.old) →
        OnOk result (Grows header bodies (body ++ canonical version (meaning_of c.now)) log.new
        (D.seen disk.new) (D.pending disk.new)) }
    ensures any_moment { D.tells → (header : Header) (bodies : List (List ℕ)) (body : List ℕ) →
        Grows header bodies body log.old (D.seen disk.old) (D.pending disk.old) →
        LeavesOnly D.moment D.left_since disk.old disk.new (HasGroups header bodies) }
    ensures short { IfShort result (disk.new ≡ disk.old) }
    ensures not_refused { IfErr result IsNoRefusal }
    ensures stops { IfLog result (IsStopOf (Rose (D.faults disk.old) (D.faults disk.new))
        log.old.limit (first_full log.old.limit
        (piece_asks log.old.size (length (canonical version (meaning_of c.now)))))) }
    ensures fits { OnOk result (first_full log.old.limit
        (piece_asks log.old.size (length (canonical version (meaning_of c.now)))) ≡ None) }
    ensures limit { log.new.limit ≡ log.old.limit }
    ensures later { D.faults disk.old ≤ D.faults disk.new }
    ensures steady { Steady (D.faults disk.old) (D.faults disk.new) result }
{
    spelled.clear();
    encode(c, version, spelled)?;
    log.append(disk, spelled.as_slice())?;
    Ok(())
}

/// Publishes the group in progress.
pub(crate) fn publish<D: Disk>(log: &mut Log, disk: &mut D) -> Result<(), LogStop>
    requires { IsInProgress (D.len disk.old) log.old }
    ensures at_rest { OnOk result (IsAtRest (D.len disk.new) log.new) }
    ensures gate { OnOk result (log.new.gate ≡ log.old.size + 4) }
    ensures rests { D.tells → (header : Header) (bodies : List (List ℕ)) (body : List ℕ) →
        Grows header bodies body log.old (D.seen disk.old) (D.pending disk.old) →
        OnOk result (Rests header (bodies ++ sealed body ∷ []) log.new
        (D.seen disk.new) (D.pending disk.new)) }
    ensures any_moment { D.tells → (header : Header) (bodies : List (List ℕ)) (body : List ℕ) →
        Grows header bodies body log.old (D.seen disk.old) (D.pending disk.old) →
        LeavesOnly D.moment D.left_since disk.old disk.new (λ image. HasGroups header bodies image
        ⊎ HasGroups header (bodies ++ sealed body ∷ []) image) }
    ensures durable { D.tells → OnOk result (D.pending disk.new ≡ settled (D.seen disk.new)) }
    ensures fault { IfErr result (IsFault (Rose (D.faults disk.old) (D.faults disk.new))) }
    ensures gate_kept { OnErr result (log.new.gate ≡ log.old.gate) }
    ensures limit { log.new.limit ≡ log.old.limit }
    ensures later { D.faults disk.old ≤ D.faults disk.new }
    ensures steady { Steady (D.faults disk.old) (D.faults disk.new) result }
{
    log.prepare(disk)?;
    log.publish(disk)
}

/// Publishes a group that drops a name.
pub(crate) fn write_drop<D: Disk>(
    log: &mut Log,
    disk: &mut D,
    spelled: &mut Blob,
    name: &[u8],
) -> Result<(), StoreStop>
    requires { IsAtRest (D.len disk.old) log.old }
    ensures at_rest { OnOk result (IsAtRest (D.len disk.new) log.new) }
    ensures gate { OnOk result (log.new.gate ≡ gate_behind log.old.gate (1 + length name.now)) }
    ensures rests { D.tells → (header : Header) (bodies : List (List ℕ)) →
        Rests header bodies log.old (D.seen disk.old) (D.pending disk.old) →
        OnOk result (Rests header (bodies ++ sealed (6 ∷ name.now) ∷ []) log.new
        (D.seen disk.new) (D.pending disk.new)) }
    ensures any_moment { D.tells → (header : Header) (bodies : List (List ℕ)) →
        Rests header bodies log.old (D.seen disk.old) (D.pending disk.old) →
        LeavesOnly D.moment D.left_since disk.old disk.new (λ image. HasGroups header bodies image
        ⊎ HasGroups header (bodies ++ sealed (6 ∷ name.now) ∷ []) image) }
    ensures durable { D.tells → OnOk result (D.pending disk.new ≡ settled (D.seen disk.new)) }
    ensures held { D.tells → (header : Header) (bodies : List (List ℕ)) →
        Rests header bodies log.old (D.seen disk.old) (D.pending disk.old) →
        IfShort result (Rests header bodies log.old (D.seen disk.new) (D.pending disk.new)) }
    ensures no_room { D.tells → (header : Header) (bodies : List (List ℕ)) →
        Rests header bodies log.old (D.seen disk.old) (D.pending disk.old) →
        IfSome (first_full log.old.limit (group_asks log.old.gate (1 + length name.now)))
        (λ _. LeavesOnly D.moment D.left_since disk.old disk.new (HasGroups header bodies)) }
    ensures not_refused { IfErr result IsNoRefusal }
    ensures stops { IfLog result (IsStopOf (Rose (D.faults disk.old) (D.faults disk.new))
        log.old.limit
        (first_full log.old.limit (group_asks log.old.gate (1 + length name.now)))) }
    ensures fits { OnOk result
        (first_full log.old.limit (group_asks log.old.gate (1 + length name.now)) ≡ None) }
    ensures gate_kept { OnErr result (log.new.gate ≡ log.old.gate) }
    ensures limit { log.new.limit ≡ log.old.limit }
    ensures later { D.faults disk.old ≤ D.faults disk.new }
    ensures steady { Steady (D.faults disk.old) (D.faults disk.new) result }
{
    spell_drop(name, spelled)?;
    write_group(log, disk, spelled.as_slice())?;
    Ok(())
}
