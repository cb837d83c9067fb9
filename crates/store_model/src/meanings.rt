// What an answer means to whoever reads it: laws that begin with an answer and end in plain words.
// Each is the contract of a function that does nothing.
ghost use Rattle.store_model.specs.Meanings.{ListIsDone, ShowIsDone, CatIsDone, ShowMisses, CatMisses, ScrubIsDone, ScrubIsCut, ScrubIsSilent};
ghost use Rattle.store_model.specs.Meanings.{InitIsDone, InitIsThere, InitIsAtFault, InitIsAnswered, DropIsDone, DropIsNotDone, DropIsAtFault, DropMisses};
ghost use Rattle.store_model.specs.Meanings.{OnTheWayIsTold, OnTheWayIsInFront, OnTheWayHasGroups, ReceiveIsTold, ReceiveHasGroups, ReceiveIsDone, ReceiveIsRefused};
ghost use Rattle.store_model.specs.Meanings.{ComposeIsDone, ComposeIsUnfinished, ComposeIsInFront, AuditIsDone, AuditIsCut, AuditIsSilent, ExportIsDone, ExportIsRefused, ExportIsInFront};
ghost use Rattle.store_model.specs.Meanings.{DumpIsDone, DumpIsRefused, DumpIsInFront, GenIsDone, TrialIsDone, GenIsInFront, TrialIsInFront, NothingIsRefused};
ghost use Rattle.store_model.specs.Meanings.{NoInputFailsOverNone, DropIsFull, ReceiveIsDue, ReceiveIsFull, ComposeIsDue, AuditIsDue, ExportIsDue, DumpIsDue, NoStoreIsNone, ScrubFinds};
ghost use Rattle.store_model.specs.Meanings.{EntriesHaveTheirHeads, LinesAreOfEntries, NothingIsDoneOverNone, InputsAreOfFiles, ChangesAreOfStreams};

/// With status 0 `list` wrote the listing, `show` the lines of the complete subvolume of the name,
/// and `cat` the bytes of the file; what is missing is not in the store, and then nothing was
/// written. With status 0 `scrub` found all groups whole and wrote their numbers; where standard
/// output failed some of that line is missing, and with any other status it wrote nothing; the
/// group that it names has the fault that it names. The image is as it was.
pub fn printing_words_write_what_is_stored()
    ensures list { ListIsDone }
    ensures show { ShowIsDone }
    ensures cat { CatIsDone }
    ensures no_name { ShowMisses }
    ensures no_path { CatMisses }
    ensures scrub { ScrubIsDone }
    ensures cut { ScrubIsCut }
    ensures silent { ScrubIsSilent }
    ensures finds { ScrubFinds }
{}

/// With status 0 there was nothing, and `init` made a new store; with status 12 a file is there and
/// is as it was; with status 5 it is as it was, if there was anything; and no other answer comes.
/// With status 0 the image stands for the store without the entry that was dropped; where the
/// device failed, for one of the two; with any other status for the store as it was; what is
/// missing is not in it; and what has no room goes past the limit.
pub fn init_and_drop_leave_what_they_say()
    ensures made { InitIsDone }
    ensures there { InitIsThere }
    ensures init_fault { InitIsAtFault }
    ensures init { InitIsAnswered }
    ensures dropped { DropIsDone }
    ensures kept { DropIsNotDone }
    ensures drop_fault { DropIsAtFault }
    ensures missing { DropMisses }
    ensures full { DropIsFull }
{}

/// Whatever the status of `receive`, and wherever a crash ends it, the image stands for a store
/// that has a complete entry for each whole line that was written, in this order and behind the
/// entries that were there; what was written is in front of all lines; and behind the groups that
/// were there it has the first of those that receiving writes. With status 0, and where a command
/// is refused, all lines were written, and it stands for the store that receiving leaves. What
/// files decide is what an audit says; and what has no room goes past the limit, behind the groups
/// that are there.
pub fn each_line_is_of_a_complete_entry()
    ensures told { OnTheWayIsTold }
    ensures front { OnTheWayIsInFront }
    ensures groups { OnTheWayHasGroups }
    ensures every { ReceiveIsTold }
    ensures every_group { ReceiveHasGroups }
    ensures done { ReceiveIsDone }
    ensures refused { ReceiveIsRefused }
    ensures due { ReceiveIsDue }
    ensures full { ReceiveIsFull }
{}

/// Where parts take turns, the entries of those that completed are complete, and have the names,
/// the keys and the parents of their heads, in order. So their lines are those of the entries.
pub fn parts_in_turn_have_their_entries<S>()
    ensures heads { EntriesHaveTheirHeads S }
    ensures lines { LinesAreOfEntries S }
{}

/// Of words on streams, over the store that the image stands for or over none: what files decide is
/// what is due to them; with status 0 `compose` wrote all of its stream, and with any other no
/// whole stream, whatever the image is; `audit` wrote its line where it accepted all, and nothing
/// with another status, unless standard output failed; `export` and `dump` wrote all of theirs,
/// also where a command is refused, and else a front part; so did `gen` and `trial`, to which
/// nothing is refused.
pub fn streams_are_whole_where_they_are_done()
    ensures compose_due { ComposeIsDue }
    ensures audit_due { AuditIsDue }
    ensures export_due { ExportIsDue }
    ensures dump_due { DumpIsDue }
    ensures composed { ComposeIsDone }
    ensures unfinished { ComposeIsUnfinished }
    ensures compose_front { ComposeIsInFront }
    ensures audited { AuditIsDone }
    ensures audit_cut { AuditIsCut }
    ensures audit_silent { AuditIsSilent }
    ensures exported { ExportIsDone }
    ensures export_refused { ExportIsRefused }
    ensures export_front { ExportIsInFront }
    ensures dumped { DumpIsDone }
    ensures dump_refused { DumpIsRefused }
    ensures dump_front { DumpIsInFront }
    ensures chain { GenIsDone }
    ensures trial { TrialIsDone }
    ensures chain_front { GenIsInFront }
    ensures trial_front { TrialIsInFront }
    ensures nothing_refused { NothingIsRefused }
{}

/// What is answered as no store is none, with this group at fault. Where the image stands for no
/// store, words that open one write nothing and change nothing, so standard output does not fail,
/// and no input does. Only words that are given files can answer that an input failed, and only
/// words on streams that a file was changed.
pub fn nothing_is_done_over_no_store()
    ensures is_none { NoStoreIsNone }
    ensures none { NothingIsDoneOverNone }
    ensures no_input { NoInputFailsOverNone }
    ensures inputs { InputsAreOfFiles }
    ensures changes { ChangesAreOfStreams }
{}
