// Laws that tie what a store keeps of a disk to what an image stands for. Each is the contract of a
// function that does nothing.
ghost use Rattle.store_journal.specs.Standing.{GroupsStand, NewStands, HoldsStands, BuildsStands, HoldsOne, StoresHaveSize};

/// An image that has the groups which make some subvolumes stands for these. So where a crash
/// leaves the groups that there were, or these and one more, it leaves what stands for the
/// subvolumes before or after; and between two calls it leaves what stands for the subvolumes as
/// they are. A new store stands for no entries. What a disk gives is held for one store's
/// subvolumes, so that a store which is opened again has those that it had; and a store has its
/// size on the disk, whether or not a part is open.
pub fn groups_stand_for_subvolumes()
    ensures stand { GroupsStand }
    ensures holds { HoldsStands }
    ensures builds { BuildsStands }
    ensures new { NewStands }
    ensures one { HoldsOne }
    ensures size { StoresHaveSize }
{}
