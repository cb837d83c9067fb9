// Dropping an entry of a store.
ghost use Rattle.std.specs.Prelude.{◌≡◌, ◌≤◌, ℕ, List, []};
ghost use Rattle.store_model.specs.NamedFiles.{unnamed};
ghost use Rattle.store_model.specs.Requests.{DropEntry, word_at, at_entry};
ghost use Rattle.store_model.specs.Answers.{Answers};
ghost use Rattle.sx_base.specs.Causes.{Rose};
ghost use Rattle.sx_base.specs.Crash.{LeavesOnly};
ghost use Rattle.sx_base.specs.Disk.{settled};
ghost use Rattle.sx_base.specs.declared.outcome.Outcome.TheVariants as ended;
ghost use Rattle.store_commands.specs.Ending.{answer_of, drop_ways, EndCaused};
ghost use Rattle.store_commands.specs.Dropping.{LeftByDrop};
ghost use Rattle.store_commands.specs.declared.ends.StoreEnd.TheVariants as made;

use crate::ends::{StoreEnd, ended_by};
use std::alloc::Global;
use store_journal::Store;
use sx_base::{Disk, Outcome};

/// Drops the entry of a name from a store, complete or not, also one that others name as their
/// parent. `NoName` where there is no such entry, and `LogFull` where there is no room: nothing of
/// the store has changed then.
pub fn drop_entry<D: Disk>(alloc: Global, disk: &mut D, name: &[u8]) -> StoreEnd
    ensures answered { D.tells → (words : List (List ℕ)) (store at : ℕ)
        → word_at words at ≡ name.now
        → Answers (DropEntry store at) (at_entry words (D.seen disk.old) (unnamed []))
        (answer_of name.now [] result) [] (D.seen disk.new) }
    ensures durable { D.tells → result ≡ made.Ends ended.Done
        → D.pending disk.new ≡ settled (D.seen disk.new) }
    ensures cause { EndCaused drop_ways (D.faults disk.new ≡ D.faults disk.old)
        (Rose (D.faults disk.old) (D.faults disk.new)) ⊥ ⊥ result }
    ensures any_moment { D.tells → LeavesOnly D.moment D.left_since disk.old disk.new
        (LeftByDrop (D.pending disk.old) (D.seen disk.old) name.now) }
    ensures later { D.faults disk.old ≤ D.faults disk.new }
{
    let mut store = match Store::open(disk, alloc) {
        Ok(store) => store,
        Err(stop) => return ended_by(stop),
    };
    let there = match store.drop_name(disk, name) {
        Ok(there) => there,
        Err(stop) => return ended_by(stop),
    };
    if !there {
        return StoreEnd::NoName;
    }
    StoreEnd::Ends(Outcome::Done)
}
