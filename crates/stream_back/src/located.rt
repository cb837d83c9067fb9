// Where the edits of an entry are on a disk that has them.
ghost use Rattle.std.specs.Prelude.{◌≡◌, ◌≤◌, Some, IfOk, OnOk, IfErr};
ghost use Rattle.sx_base.specs.Causes.{Rose, Steady};
ghost use Rattle.sx_base.specs.Crash.{LeavesOnly};
ghost use Rattle.sx_base.specs.Disk.{IsImage, settled};
ghost use Rattle.edits_copy.specs.Finding.{FindsAll};
ghost use Rattle.stream_back.specs.Writing.{Has, PlaceCaused, IsAt};
ghost use Rattle.store_commands.specs.declared.ends.StoreEnd.TheVariants.{StoreFault};

use crate::ends::ended_at;
use edits_copy::{EditsPlace, find_edits};
use group_log::Log;
use store_commands::StoreEnd;
use sx_base::Disk;
use uuid::Uuid;

// A journal that was read to its end, and where the edits are in it.
#[derive(Drop)]
pub(crate) struct Located {
    pub(crate) log: Log,
    pub(crate) place: EditsPlace,
}

// Goes over the groups once more, and finds the last edits of the entry of a UUID.
pub(crate) fn locate<D: Disk>(disk: &mut D, uuid: Uuid) -> Result<Located, StoreEnd>
    ensures found { D.tells → IfOk result
        (λ at. FindsAll (D.seen disk.old) uuid (Some at.place)) }
    ensures stops { D.tells → Has (D.seen disk.old) uuid → IfErr result (λ end. end ≡ StoreFault) }
    ensures cause { IfErr result (PlaceCaused (Rose (D.faults disk.old) (D.faults disk.new))) }
    ensures within { IfOk result (IsAt (D.len disk.new)) }
    ensures durable { D.tells → OnOk result (D.pending disk.new ≡ settled (D.seen disk.new)) }
    ensures len { D.len disk.new ≡ D.len disk.old }
    ensures seen { D.tells → D.seen disk.new ≡ D.seen disk.old }
    ensures any_moment { D.tells →
        LeavesOnly D.moment D.left_since disk.old disk.new (IsImage (D.pending disk.old)) }
    ensures later { D.faults disk.old ≤ D.faults disk.new }
    ensures steady { Steady (D.faults disk.old) (D.faults disk.new) result }
{
    let mut log = match Log::open(disk) {
        Ok(log) => log,
        Err(why) => return Err(ended_at(why)),
    };
    match find_edits(&mut log, disk, uuid) {
        Ok(Some(place)) => Ok(Located { log, place }),
        Ok(None) => Err(StoreEnd::NoName),
        Err(why) => Err(ended_at(why)),
    }
}
