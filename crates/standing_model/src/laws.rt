// Laws that tie the definitions to what they mean. Each is the contract of a function that does
// nothing.
ghost use Rattle.standing_model.specs.Standing.{StandIsLeast, StandIsBlock};
ghost use Rattle.standing_model.specs.Candidates.{EnoughFindStand, EditsPutTheirs, ClonesPutTheirs};
ghost use Rattle.standing_model.specs.Promises.{SelfItemsHold, SelfReadingsHold, SelfFilesHold};
ghost use Rattle.standing_model.specs.Promises.{SelfFrontsAreWritable, FilesAreThere, OverriddenAreThere, SelfJudges};

/// A stand that was found is the least place of the part at which the block stands, and none is
/// found where there is none. A block stands where the file's own block at that place has just its
/// tags. And it is the first of any places that are enough at which the block stands.
pub fn stands_are_least()
    ensures least { StandIsLeast }
    ensures blocks { StandIsBlock }
    ensures enough { EnoughFindStand }
{}

/// What commands put, for an index of places at which blocks were put: an edit but a WRITE puts no
/// cell with a tag where it did not stand, and a WRITE and a CLONE put those of their range alone.
pub fn commands_put_theirs()
    ensures edits { EditsPutTheirs }
    ensures clones { ClonesPutTheirs }
{}

/// What is composed from items with the part as a source is accepted by every store that finds the
/// same outside, and makes exactly the last part's subvolume; its bytes and clones are those that
/// the definitions count. It is asked that the data of the items stand in their files, and those of
/// whatever is read of files do, with whatever is said in front of them. So it is of the stream
/// that is written for what was read, and for files. The answer that is due is the verdict, unless
/// a file is too long or too much would be written, and then it comes with the first command with
/// which it would.
pub fn selves_hold()
    ensures items { SelfItemsHold }
    ensures readings { SelfReadingsHold }
    ensures files { SelfFilesHold }
    ensures fronts { SelfFrontsAreWritable }
    ensures there { FilesAreThere }
    ensures overridden { OverriddenAreThere }
    ensures judged { SelfJudges }
{}
