// Making a store.
ghost use Rattle.std.specs.Prelude.{◌≡◌, ◌≤◌, ◌<◌, ℕ, List, []};
ghost use Rattle.store_model.specs.NamedFiles.{unnamed};
ghost use Rattle.store_model.specs.Requests.{InitStore, at_entry};
ghost use Rattle.store_model.specs.Answers.{Answers};
ghost use Rattle.sx_base.specs.Causes.{Rose};
ghost use Rattle.sx_base.specs.Crash.{LeavesOnly};
ghost use Rattle.sx_base.specs.Disk.{IsImage, settled};
ghost use Rattle.sx_base.specs.declared.outcome.Outcome.TheVariants as ended;
ghost use Rattle.store_commands.specs.Ending.{answer_of, init_ways, EndCaused};
ghost use Rattle.store_commands.specs.declared.ends.StoreEnd.TheVariants as made;

use crate::ends::{StoreEnd, ended_at};
use store_journal::Store;
use sx_base::{Disk, Outcome};

/// Makes a store on an empty disk. On any other the image at entry stays, at every moment. Takes no
/// memory.
pub fn init_store<D: Disk>(disk: &mut D) -> StoreEnd
    ensures answered { D.tells → (words : List (List ℕ)) (store : ℕ)
        → Answers (InitStore store) (at_entry words (D.seen disk.old) (unnamed []))
        (answer_of [] [] result) [] (D.seen disk.new) }
    ensures durable { D.tells → result ≡ made.Ends ended.Done
        → D.pending disk.new ≡ settled (D.seen disk.new) }
    ensures cause { EndCaused init_ways (D.faults disk.new ≡ D.faults disk.old)
        (Rose (D.faults disk.old) (D.faults disk.new)) ⊥ ⊥ result }
    ensures any_moment { D.tells → 0 < D.len disk.old →
        LeavesOnly D.moment D.left_since disk.old disk.new (IsImage (D.pending disk.old)) }
    ensures later { D.faults disk.old ≤ D.faults disk.new }
{
    match Store::create(disk) {
        Ok(()) => StoreEnd::Ends(Outcome::Done),
        Err(stop) => ended_at(stop),
    }
}
