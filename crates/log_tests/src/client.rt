// A caller of the log, which shows that its contract is one to build on: groups of several pieces
// are published one after the other, and what is said of all of them follows from what the log says
// of each call.
ghost use Rattle.std.specs.Prelude.{◌≡◌, ◌⊎◌, ℕ, ◌+◌, ◌≤◌, List, [], ◌∷◌, ◌++◌, length, take, IfOk, OnOk};
ghost use Rattle.sx_base.specs.Disk.{IsImage};
ghost use Rattle.sx_base.specs.Crash.{LeavesOnly};
ghost use Rattle.store_model.specs.Image.{Header, HasGroups, sealed, reserve};
ghost use Rattle.group_log.specs.Journal.{IsAtRest, IsInProgress, Rests, Grows};
ghost use Rattle.log_tests.specs.Published.{joined, bodies_of, HasFirst};

use group_log::{Log, LogStop};
use sx_base::Disk;

// Puts the pieces into the group in progress, one after the other.
fn append_all<D: Disk>(log: &mut Log, disk: &mut D, pieces: &[Vec<u8>]) -> Result<(), LogStop>
    requires { IsInProgress (D.len disk.old) log.old }
    ensures in_progress { OnOk result (IsInProgress (D.len disk.new) log.new) }
    ensures gate { OnOk result (log.new.gate ≡ log.old.gate) }
    ensures size { OnOk result (log.new.size ≡ log.old.size + length (joined pieces.now)) }
    ensures grows { D.tells → (header : Header) (bodies : List (List ℕ)) (body : List ℕ) →
        Grows header bodies body log.old (D.seen disk.old) (D.pending disk.old) →
        OnOk result (Grows header bodies (body ++ joined pieces.now) log.new
        (D.seen disk.new) (D.pending disk.new)) }
    ensures any_moment { D.tells → (header : Header) (bodies : List (List ℕ)) (body : List ℕ) →
        Grows header bodies body log.old (D.seen disk.old) (D.pending disk.old) →
        LeavesOnly D.moment D.left_since disk.old disk.new (HasGroups header bodies) }
{
    for piece in pieces {
        log.append(disk, piece.as_slice())?;
    }
    Ok(())
}

/// Publishes a group of these pieces, and says where the first of their bytes stands.
pub(crate) fn publish_group<D: Disk>(
    log: &mut Log,
    disk: &mut D,
    pieces: &[Vec<u8>],
) -> Result<u64, LogStop>
    requires { IsAtRest (D.len disk.old) log.old }
    ensures place { IfOk result (λ at. at ≡ log.old.gate + 9) }
    ensures size { OnOk result
        (log.new.size ≡ log.old.gate + 9 + length (joined pieces.now) + reserve) }
    ensures at_rest { OnOk result (IsAtRest (D.len disk.new) log.new) }
    ensures rests { D.tells → (header : Header) (bodies : List (List ℕ)) →
        Rests header bodies log.old (D.seen disk.old) (D.pending disk.old) →
        OnOk result (Rests header (bodies ++ sealed (joined pieces.now) ∷ []) log.new
        (D.seen disk.new) (D.pending disk.new)) }
    ensures any_moment { D.tells → (header : Header) (bodies : List (List ℕ)) →
        Rests header bodies log.old (D.seen disk.old) (D.pending disk.old) →
        LeavesOnly D.moment D.left_since disk.old disk.new (λ image. HasGroups header bodies image
        ⊎ HasGroups header (bodies ++ sealed (joined pieces.now) ∷ []) image) }
{
    log.body(disk)?;
    let at = log.end();
    append_all(log, disk, pieces)?;
    log.prepare(disk)?;
    log.publish(disk)?;
    Ok(at)
}

/// Publishes a group of these pieces, and reads its first bytes back from where they were put.
pub(crate) fn publish_and_read<D: Disk>(
    log: &mut Log,
    disk: &mut D,
    pieces: &[Vec<u8>],
    back: &mut [u8],
) -> Result<(), LogStop>
    requires at_rest { IsAtRest (D.len disk.old) log.old }
    requires within { length back.old ≤ length (joined pieces.now) }
    ensures same { D.tells → (header : Header) (bodies : List (List ℕ)) →
        Rests header bodies log.old (D.seen disk.old) (D.pending disk.old) →
        OnOk result (back.new ≡ take (length back.new) (joined pieces.now)) }
{
    let at = publish_group(log, disk, pieces)?;
    log.read(disk, at, back)?;
    Ok(())
}

/// Publishes these groups one after the other.
pub(crate) fn publish_all<D: Disk>(
    log: &mut Log,
    disk: &mut D,
    groups: &[Vec<Vec<u8>>],
) -> Result<(), LogStop>
    requires { IsAtRest (D.len disk.old) log.old }
    ensures at_rest { OnOk result (IsAtRest (D.len disk.new) log.new) }

    // The journal is the one before and these groups.
    ensures rests { D.tells → (header : Header) (bodies : List (List ℕ)) →
        Rests header bodies log.old (D.seen disk.old) (D.pending disk.old) →
        OnOk result (Rests header (bodies ++ bodies_of groups.now) log.new
        (D.seen disk.new) (D.pending disk.new)) }

    // No byte of the earlier groups has moved.
    ensures places { D.tells → (header : Header) (bodies : List (List ℕ)) →
        Rests header bodies log.old (D.seen disk.old) (D.pending disk.old) →
        OnOk result (take log.old.gate (D.seen disk.new) ≡ take log.old.gate (D.seen disk.old)) }

    // Since the call began each image has the earlier groups and the first of the new ones, however
    // many.
    ensures any_moment { D.tells → (header : Header) (bodies : List (List ℕ)) →
        Rests header bodies log.old (D.seen disk.old) (D.pending disk.old) →
        LeavesOnly D.moment D.left_since disk.old disk.new
        (HasFirst header bodies (bodies_of groups.now)) }

    // So it is with each that a crash now may leave.
    ensures now { D.tells → (header : Header) (bodies : List (List ℕ)) →
        Rests header bodies log.old (D.seen disk.old) (D.pending disk.old) →
        (image : List ℕ) → IsImage (D.pending disk.new) image →
        HasFirst header bodies (bodies_of groups.now) image }
{
    for pieces in groups {
        publish_group(log, disk, pieces.as_slice())?;
    }
    Ok(())
}
