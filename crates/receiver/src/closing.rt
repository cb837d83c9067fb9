// Completing the part that is open.
ghost use Rattle.std.specs.Prelude.{◌≡◌, ◌≤◌, ◌++◌, ℕ, List, Option, None, false, OnOk};
ghost use Rattle.sx_base.specs.Causes.{Steady};
ghost use Rattle.sx_base.specs.Crash.{LeavesOnly};
ghost use Rattle.store_model.specs.Image.{Header};
ghost use Rattle.store_model.specs.Stored.{Group};
ghost use Rattle.store_model.specs.Written.{Begun, closed};
ghost use Rattle.store_journal.specs.Holding.{Holds};
ghost use Rattle.receiver.specs.Standing.{line_due, IsReady, IsClosedAs};
ghost use Rattle.receiver.specs.Disks.{shown, Keeps, HasFront};
ghost use Rattle.receiver.specs.Answers.{IfClosed, IfStoreFault, WritesLine, fault_counts, ErrCaused};

use crate::opened::Opened;
use crate::outcome::Received;
use store_journal::Store;
use sx_base::{Disk, Outcome, Sink, write_whole};

// Completes the open part, if there is one, and then writes its line.
pub(crate) fn close<D: Disk, O: Sink>(
    store: &mut Store,
    disk: &mut D,
    current: &mut Option<Opened>,
    out: &mut O,
) -> Result<(), Received>
    requires ready { IsReady (D.len disk.old) current.old store.old }
    ensures none { current.new ≡ None }
    ensures limit { store.new.log.limit ≡ store.old.log.limit }
    ensures is_closed { IfClosed result
        (IsClosedAs (D.len disk.new) current.old store.old store.new) }
    ensures ended { IfStoreFault result (store.new.is_live ≡ false) }
    ensures written { WritesLine (line_due current.old) (O.taken out.old) (O.taken out.new)
        (O.faults out.old) (O.faults out.new) result }

    // Where the disk tells, it has the part's group then.
    ensures holds { D.tells → (header : Header) (groups : List Group) (begun : Option Begun) →
        Keeps header groups begun current.old (shown D.Disk disk.old store.old) →
        IfClosed result (Holds header (groups ++ closed begun) store.new
        (D.seen disk.new) (D.pending disk.new)) }
    ensures any_moment { D.tells → (header : Header) (groups : List Group) (begun : Option Begun) →
        Keeps header groups begun current.old (shown D.Disk disk.old store.old) →
        LeavesOnly D.moment D.left_since disk.old disk.new
        (HasFront header groups (closed begun)) }

    ensures cause { ErrCaused (fault_counts 0 (O.faults out.old) (D.faults disk.old))
        (fault_counts 0 (O.faults out.new) (D.faults disk.new)) result }
    ensures later { D.faults disk.old ≤ D.faults disk.new }
    ensures out_later { O.faults out.old ≤ O.faults out.new }
    ensures steady { Steady (D.faults disk.old) (D.faults disk.new) result }
    ensures out_steady { Steady (O.faults out.old) (O.faults out.new) result }
{
    let Some(opened) = current.take() else {
        return Ok(());
    };
    let Opened { part, line } = opened;
    let Ok(()) = store.complete(disk, part) else {
        return Err(Received::StoreFault);
    };
    let Ok(()) = write_whole(out, line.as_slice()) else {
        return Err(Received::Files(Outcome::OutputFault));
    };
    Ok(())
}
