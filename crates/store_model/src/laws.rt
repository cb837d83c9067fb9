// Laws that tie the definitions to what they mean. Each is the contract of a function that does
// nothing.
ghost use Rattle.store_model.specs.StateLaws.{MoreItemsPassMore, BeginsWithTheStore, PassesWhatItLeaves, PassesWhatIsCompleted, FilesAreItems, BetweenHasThem, LimitedIsFront, LinesAreParts, FirstLinesStandWhole, ReceivedHasNumbers, PrintedAreParts};
ghost use Rattle.store_model.specs.Stops.{NothingIsOnTheWay, AllIsOnTheWay, FirstIsOnTheWay};
ghost use Rattle.store_model.specs.Written.{WrittenIsReceived, FirstGroupsAreStates, WrittenIsLawful};
ghost use Rattle.store_model.specs.Requests.{OneDue, ReceiveIsAudit, LeftIsPassed, LeftIsState, LeftIsReceived};
ghost use Rattle.store_model.specs.Answers.{DueIsAnswered, OneIsAnswered, DoneAlone, NothingStandsBefore, NothingStandsAtFault, ReadersKeepTheImage, PrintsInFront, ReceiveIsOnTheWay, ReceiveIsCut, DropKeeps};
ghost use Rattle.store_model.specs.StoreLaws.{BodyIsOneGroup, ImageIsOneStore, ImageIsNotBoth, OneGroupIsAtFault, EachImageIsDecided, StoredIsLawful, GroupsKeepCells, PlacesAreBytes, BytesHavePlaces, OneMoreIsMade, StoredHasNumbers, OneScrub, EachImageIsScrubbed, StoredIsWhole};
ghost use Rattle.store_model.specs.TurnLaws.{TurnsAreOneByOne, PartsAreRead, FilesAreOneByOne, FilesAreInTurn, OneIsReceiving, AllAreOver, NoneIsLeftOpen, FilesLeaveNoneOpen, GroupsAreLawful, GroupsStand, LinesAreComplete, FrontsAreStates, FrontStatesAreStates, FrontGroupsAreStates, StatesAreOneByOne};

/// An image of bytes stands for one store, which is lawful, or for none, where one group is at
/// fault. Bytes are the body of one group at most. The places of bytes in the image are the cells
/// of one store, and the bytes there are the cells of the other.
pub fn images_stand_for_one_store()
    ensures body { BodyIsOneGroup }
    ensures not_both { ImageIsNotBoth }
    ensures fault { OneGroupIsAtFault }
    ensures decided { EachImageIsDecided }
    ensures lawful { StoredIsLawful }
    ensures places { PlacesAreBytes }
    ensures bytes { BytesHavePlaces }
{}

/// An image stands for one store at most over any cells. Groups make the same store over all cells,
/// and one group more makes of it what that group makes. Each transaction number in it is one of
/// eight bytes.
pub fn groups_make_one_store<C, D>()
    ensures one { ImageIsOneStore C }
    ensures cells { GroupsKeepCells C D }
    ensures more { OneMoreIsMade C }
    ensures numbers { StoredHasNumbers C }
{}

/// What receiving items passes through, receiving more items does: the store itself, what each item
/// leaves, and each part once it is complete. So it is of files, and of what is read of them up to
/// the limit of their lengths. Such a store has the entries at the start, and of those behind them
/// so many complete ones, the first of those at the end. As many lines of complete parts stand
/// whole as there are line ends, and what files print has one for each part that is complete.
pub fn receiving_passes_states<C>()
    ensures more { MoreItemsPassMore C }
    ensures first { BeginsWithTheStore C }
    ensures own { PassesWhatItLeaves C }
    ensures completed { PassesWhatIsCompleted C }
    ensures between { BetweenHasThem C }
    ensures files { FilesAreItems }
    ensures limited { LimitedIsFront }
    ensures lines { LinesAreParts C }
    ensures whole { FirstLinesStandWhole C }
    ensures numbers { ReceivedHasNumbers }
    ensures printed { PrintedAreParts }
{}

/// Scrub has one answer for each image of bytes; and where an image stands for a store, it finds
/// all groups whole.
pub fn scrub_has_one_answer()
    ensures one { OneScrub }
    ensures each { EachImageIsScrubbed }
    ensures stored { StoredIsWhole }
{}

/// One answer is due to each word, on streams or over a store. What is due to receiving is what is
/// due to an audit over the same store, unless there is no room for a group. The store that it
/// leaves is one that receiving passes through and, where there was room, the one that it leaves.
pub fn one_answer_is_due_over_a_store()
    ensures one { OneDue }
    ensures receive { ReceiveIsAudit }
    ensures passed { LeftIsPassed }
    ensures state { LeftIsState }
    ensures left { LeftIsReceived }
{}

/// What is due to a word is answered as it says, and one such answer is given, so one status and
/// one note; status 0 is that of one answer alone. Where nothing was done yet, each word may lack
/// memory but `init`, and the device of each word over a store may fail. No answer of a word that
/// reads changes the image, and before its end a front part stands of what it prints; receiving is
/// on the way after each answer that is not due, with some of its lines missing where standard
/// output failed; and a drop that was not due, or that lacks memory, leaves the store as it was.
pub fn answers_say_what_stands()
    ensures answered { DueIsAnswered }
    ensures one_answered { OneIsAnswered }
    ensures done { DoneAlone }
    ensures before { NothingStandsBefore }
    ensures fault { NothingStandsAtFault }
    ensures readers { ReadersKeepTheImage }
    ensures printed { PrintsInFront }
    ensures on_the_way { ReceiveIsOnTheWay }
    ensures cut { ReceiveIsCut }
    ensures drop { DropKeeps }
{}

/// The groups that receiving writes behind those of a store, one Mark for each part that begins and
/// one Body for each that is complete, make of it what receiving leaves; and whatever the first of
/// them make is a state on the way, with all parts complete that are complete in it. Those of files
/// of bytes, with names that an attribute has room for, can stand in an image of either format. The
/// image at entry is on the way, so is the one that has them all, and so is each that has the first
/// of them, with no more lines written than parts are complete in it.
pub fn written_groups_make_what_is_received()
    ensures received { WrittenIsReceived }
    ensures states { FirstGroupsAreStates }
    ensures lawful { WrittenIsLawful }
    ensures nothing { NothingIsOnTheWay }
    ensures all { AllIsOnTheWay }
    ensures first { FirstIsOnTheWay }
{}

/// After any turns of sessions the store has what receiving the completed parts one after the
/// other, in the order of their completion, leaves, and the parts that began and did not complete;
/// the completed parts are parts of what the sessions read; and the groups that are written are
/// lawful and make it. So it is of files of bytes, by any schedule and under any guards. After the
/// last turn each session is over, and where none was refused each part that began is complete; and
/// one session alone is receiving under its guards.
pub fn turns_have_an_order<C>()
    ensures order { TurnsAreOneByOne C }
    ensures parts { PartsAreRead C }
    ensures one { OneIsReceiving C }
    ensures over { AllAreOver C }
    ensures complete { NoneIsLeftOpen C }
    ensures left { FilesLeaveNoneOpen }
    ensures streams { FilesAreOneByOne }
    ensures files { FilesAreInTurn }
    ensures groups { GroupsAreLawful }
    ensures stand { GroupsStand }
{}

/// What a crash may leave during turns is a store that the first of the events made, so each part
/// that completed until then is there as in the order of completion. The store after each number of
/// turns is among these, and more turns only add to them. So is whatever the first of the groups
/// that were written make of the store at entry, with as many parts complete as lines were due
/// until then.
pub fn crashes_leave_turns<C>()
    ensures states { StatesAreOneByOne C }
    ensures fronts { FrontsAreStates C }
    ensures further { FrontStatesAreStates C }
    ensures groups { FrontGroupsAreStates C }
    ensures lines { LinesAreComplete C }
{}
