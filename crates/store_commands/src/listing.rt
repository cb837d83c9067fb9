// Listing what a store has.
ghost use Rattle.std.specs.Prelude.{◌≡◌, ◌≤◌, ℕ, List, []};
ghost use Rattle.store_model.specs.NamedFiles.{unnamed};
ghost use Rattle.store_model.specs.Requests.{ListStore, at_entry};
ghost use Rattle.store_model.specs.Answers.{Answers};
ghost use Rattle.sx_base.specs.Calls.{Wrote};
ghost use Rattle.sx_base.specs.Crash.{LeavesOnly};
ghost use Rattle.sx_base.specs.Disk.{IsImage};
ghost use Rattle.store_commands.specs.Ending.{answer_of, list_ways, PrintingCaused};

use crate::ends::{StoreEnd, ended_by};
use std::alloc::Global;
use store_journal::Store;
use sx_base::{Disk, Sink};
use tree_view::list;

/// Writes a line for each entry of a store in the order in which they began. What the disk gives
/// stays as it is.
pub fn list_store<D: Disk, O: Sink>(alloc: Global, disk: &mut D, out: &mut O) -> StoreEnd
    ensures answered { D.tells → Wrote (O.taken out.old) (O.taken out.new)
        (λ written. (words : List (List ℕ)) (store : ℕ)
        → Answers (ListStore store) (at_entry words (D.seen disk.old) (unnamed []))
        (answer_of [] [] result) written (D.seen disk.new)) }
    ensures cause { PrintingCaused list_ways
        (D.faults disk.old) (D.faults disk.new) (O.faults out.old) (O.faults out.new) result }
    ensures len { D.len disk.new ≡ D.len disk.old }
    ensures seen { D.tells → D.seen disk.new ≡ D.seen disk.old }
    ensures any_moment { D.tells →
        LeavesOnly D.moment D.left_since disk.old disk.new (IsImage (D.pending disk.old)) }
    ensures later { D.faults disk.old ≤ D.faults disk.new }
    ensures out_later { O.faults out.old ≤ O.faults out.new }
{
    let store = match Store::open(disk, alloc) {
        Ok(store) => store,
        Err(stop) => return ended_by(stop),
    };
    StoreEnd::Ends(list(alloc, store.core().catalog(), out))
}
