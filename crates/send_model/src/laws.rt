// Laws that tie the definitions to what they mean. Each is the contract of a function that does
// nothing.
ghost use Rattle.std.specs.Prelude.{◌≡◌, ℕ, Bool, true, List, [], Option};
ghost use Rattle.send_model.specs.Command.{Command};
ghost use Rattle.send_model.specs.Reading.{Item, Reading, is_version};
ghost use Rattle.send_model.specs.Subvolume.{Subvolume, IsLawful, root_alone};
ghost use Rattle.send_model.specs.Edit.{edit};
ghost use Rattle.send_model.specs.Clone.{CloneValues, clone};
ghost use Rattle.send_model.specs.Store.{Key, Entry, Store, State};
ghost use Rattle.send_model.specs.Provenance.{Traced};
ghost use Rattle.send_model.specs.GuardLaws.{NoGuardsChangeNothing, AllowedIsAccepted};
ghost use Rattle.send_model.specs.GuardLaws.{AcceptedIsWithin, AuditIsReceiving, AuditStopsAtLimit};
ghost use Rattle.send_model.specs.GuardLaws.{NoGuardsOnReadings, AllowedReadingIsAccepted};
ghost use Rattle.send_model.specs.GuardLaws.{AcceptedReadingIsWithin};
ghost use Rattle.send_model.specs.Due.{IsJudgedOf, IsJudged};
ghost use Rattle.send_model.specs.LengthLaws.{FilesAreMeasured, NamedIsFirstLong, FirstLongIsNamed};
ghost use Rattle.send_model.specs.LengthLaws.{UnnamedIsWithin, WithinIsUnnamed, NamedStopsReading};
ghost use Rattle.send_model.specs.LengthLaws.{StoppedIsNamed, ReadToTheLimit};
ghost use Rattle.send_model.specs.Lawful.{KeepsLawfulness, EditsKeepSayable, ReceivedIsLawful};
ghost use Rattle.send_model.specs.Lawful.{FilesLeaveLawful, LawfulFindsSayable, LawfulAllSayable};
ghost use Rattle.send_model.specs.Lawful.{LawfulStoresHold};
ghost use Rattle.send_model.specs.Receivable.{ReceivableSpells, ReceivableRises};
ghost use Rattle.send_model.specs.Exported.{CanExportOver, ExportedIsSame, ReceivedCanExport};
ghost use Rattle.send_model.specs.Separated.{NeutralChangesNothing, TouchIsNeutral};
ghost use Rattle.send_model.specs.Separated.{DetourIsNeutral, FreeNameIsFree, SteadyIsPlain};
ghost use Rattle.send_model.specs.Separated.{SeparatedIsReceived, SeparatedCountsSame};
ghost use Rattle.send_model.specs.Thinned.{LeavesOutContents, LooksAtNamed, AlikeIsSame};
ghost use Rattle.send_model.specs.Thinned.{LooksOutside, LeastIsEnough, AlikeOutside};
ghost use Rattle.send_model.specs.Overridden.{Overrides, KeepsAllElse, NamesAloneKeepKeys};
ghost use Rattle.send_model.specs.Overridden.{NamesAloneRename, ChangesNamesAndParents};
ghost use Rattle.send_model.specs.Overridden.{OverriddenOneByOne, FileHasOneOverride};
ghost use Rattle.send_model.specs.Overridden.{HasNewHead, HasNewName, BadNameStands};
ghost use Rattle.send_model.specs.Overridden.{OverriddenIsWritable, OverriddenIsWhole};
ghost use Rattle.send_model.specs.Overridden.{OverriddenFilesHold};
ghost use Rattle.send_model.specs.Overridden.{OverriddenLeaveLawful};
ghost use Rattle.send_model.specs.Words.{Request};
ghost use Rattle.send_model.specs.Sources.{SaysOfFiles, NoOverridesChangeNothing};
ghost use Rattle.send_model.specs.Sources.{OverriddenAuditIsReceiving, OverriddenAuditStopsAtLimit};
ghost use Rattle.send_model.specs.Sources.{ThinnedEnds};
ghost use Rattle.send_model.specs.NamedWords.{PlainFilesAreGiven, GivenNamesFit};
ghost use Rattle.send_model.specs.NamedWords.{ShortNamesAreGiven};
ghost use Rattle.send_model.specs.Laws.{SpelledIsRead, SpelledIsFront, FrameHasOneReading};
ghost use Rattle.send_model.specs.Laws.{ReadWasSpelled, RulesWereSpelled, DataIsThere};
ghost use Rattle.send_model.specs.Laws.{CanonicalSpells, SpelledIsSpellable, SecondSaysMore};
ghost use Rattle.send_model.specs.Laws.{AreInner, StreamIsRead, CutIsUnfinished};
ghost use Rattle.send_model.specs.Laws.{EditLooksAtItsPart, StepKeepsCells, FirstPathsAreLeast};
ghost use Rattle.send_model.specs.Laws.{AreCounted, ItemsHold, ItemsSpelled, FrontsAreWritable};
ghost use Rattle.send_model.specs.Laws.{ReadingsHold, PlainReadingsHold, FilesAreWhole, FilesHold};
ghost use Rattle.send_model.specs.Laws.{PlainFilesHold, BaseCanReceive, BaseReceives};
ghost use Rattle.send_model.specs.Laws.{ChainIsLawful};

/// Whatever spells a command is read as that command, whatever follows it, and spells no other;
/// what is read was spelled. So it is of every command of either version, and of the item in front;
/// the data of a WRITE stand where its item says. The canonical spelling spells its command, there
/// is one for each command that is spelled in any way, and version 2 has one for whatever version 1
/// has one for.
pub fn spelling_is_read_back()
    ensures spelled { SpelledIsRead }
    ensures front { SpelledIsFront }
    ensures once { FrameHasOneReading }
    ensures read { ReadWasSpelled }
    ensures rules { RulesWereSpelled }
    ensures places { DataIsThere }
    ensures canonical { CanonicalSpells }
    ensures spellable { SpelledIsSpellable }
    ensures second { SecondSaysMore }
{}

/// The receivable spelling of a command, which the real `btrfs receive` takes, spells it, with its
/// attributes in rising order.
pub fn receivable_spelling_is_read_back()
    ensures spelled { ReceivableSpells }
    ensures rises { ReceivableRises }
{}

/// Commands with separators lead where the commands lead, and the real receiver makes of them what
/// the plain run makes, though it keeps a file open by the spelling of its path. Separators have no
/// bytes and no clones, and name no subvolume. So what is exported of files over a store is read as
/// their commands with separators, and every store that finds the same subvolumes outside, and
/// takes the files, takes it and comes to the same state; and what the headline promises of a
/// stream that was composed, it promises of it exported. Files can be exported over no store, and
/// over whatever was received into one over which they can.
pub fn separators_change_nothing()
    ensures neutral { NeutralChangesNothing }
    ensures touch { TouchIsNeutral }
    ensures detour { DetourIsNeutral }
    ensures free { FreeNameIsFree }
    ensures steady { SteadyIsPlain }
    ensures separated { SeparatedIsReceived }
    ensures counts { SeparatedCountsSame }
    ensures exported { ExportedIsSame }
    ensures over_none { CanExportOver [] }
    ensures over_received { ReceivedCanExport }
{}

/// A stream of a version that is read is read whole, with its commands; and one that is cut short
/// is never read as whole.
pub fn stream_is_read_back()
    ensures whole { (file version : ℕ) (cs : List Command) → is_version version ≡ true
        → AreInner version cs → StreamIsRead file version cs }
    ensures cut { CutIsUnfinished }
{}

/// An edit that is no CLONE looks at nothing but its part's own subvolume, and no step looks at
/// cells: whatever these are, it is the same step over any others.
pub fn edits_look_at_their_part<C, D>()
    ensures part { EditLooksAtItsPart }
    ensures cells { StepKeepsCells C D }
{}

/// A root alone is lawful, and what an edit or a clone makes of a lawful subvolume is lawful,
/// whatever its cells are. Heads, CLONE and END stand among the edits as those that change nothing.
pub fn edits_keep_subvolumes_lawful<C>()
    ensures start { IsLawful {C = C} root_alone }
    ensures edits { (zero_cell : C) (put : List C) (c : Command)
        → KeepsLawfulness (edit zero_cell put c) }
    ensures clones { (zero_cell : C) (source : Option (Subvolume C)) (is_own : Bool)
        (values : CloneValues)
        → KeepsLawfulness (λ part. clone zero_cell part source is_own values) }
{}

/// Whatever is received into a lawful store leaves a lawful one, wherever it ends; and over such a
/// store the headline holds of all files that it accepts.
pub fn stores_stay_lawful()
    ensures edits { EditsKeepSayable }
    ensures items { ReceivedIsLawful }
    ensures files { FilesLeaveLawful }
    ensures finds { LawfulFindsSayable }
    ensures sayable { LawfulAllSayable }
    ensures composed { LawfulStoresHold }
{}

/// In a lawful subvolume, the first path of an inode is the least of all that lead to it, and there
/// is none exactly where none does.
pub fn first_paths_are_least<C>()
    ensures least { (s : Subvolume C) → IsLawful s → FirstPathsAreLeast s }
{}

/// Guards add refusals to a run and nothing else: without guards it is the plain run, and what is
/// accepted under guards is accepted without them and leads to the same state. It is within the
/// limits of each guard. The answer that is due to an audit is that of receiving under its guards,
/// where no file is too long; and where one is, the first refusal of what stands before its limit,
/// and else that the file is too long. The first three are so of whatever was read too.
pub fn guards_only_refuse()
    ensures none { NoGuardsChangeNothing }
    ensures allowed { AllowedIsAccepted }
    ensures within { AcceptedIsWithin }
    ensures audited { AuditIsReceiving }
    ensures limited { AuditStopsAtLimit }
    ensures none_read { NoGuardsOnReadings }
    ensures allowed_read { AllowedReadingIsAccepted }
    ensures within_read { AcceptedReadingIsWithin }
{}

/// A file is too long where all bytes that are read at the most are there, and are read whole or
/// are cut short; one that is shorter never is, nor is one whose bytes before the limit break a
/// rule. The file that is named is the first of these, the files before it are read whole, and none
/// is named exactly where there is none, up to the first fault. What reads on to the limit stops at
/// that file and at no other, and has what stands before.
pub fn first_long_file_is_named()
    ensures measured { FilesAreMeasured }
    ensures first { NamedIsFirstLong }
    ensures named { FirstLongIsNamed }
    ensures none { UnnamedIsWithin }
    ensures unnamed { WithinIsUnnamed }
    ensures stops { NamedStopsReading }
    ensures stopped { StoppedIsNamed }
    ensures read { ReadToTheLimit }
{}

/// The composed commands, from every state, carry the bytes of the commands themselves and the
/// cells of redirected clones that no outside subvolume carries; their clones are those that are
/// not redirected, and one for each run of carried blocks.
pub fn composed_commands_are_counted()
    ensures counted { (store : Store ℕ) (parts : List (List ℕ)) (last : Key) (state : State Traced)
        (current : Option (List ℕ)) (items : List Item)
        → AreCounted store parts last state current items }
{}

/// The headline, for all commands: the composed ones name only outside subvolumes, and every store
/// that holds these, and neither the last name nor uuid, accepts them and gets exactly the last
/// part's subvolume. So it is for items, whatever of them can be read, where the subvolumes outside
/// are lawful; and for what was read to a whole end, in terms of the stream that is written, where
/// the format can say the subvolumes outside. Without clones these may be of any kind. Files of
/// bytes are read so. What stands for first items alone, where composing stops among them, can be
/// written too. A base that takes the items can itself receive what is composed from them.
pub fn composed_streams_are_accepted()
    ensures items { ItemsHold }
    ensures spelled { ItemsSpelled }
    ensures fronts { FrontsAreWritable }
    ensures readings { ReadingsHold }
    ensures plain_readings { PlainReadingsHold }
    ensures whole { FilesAreWhole }
    ensures files { FilesHold }
    ensures plain { PlainFilesHold }
    ensures base { BaseCanReceive }
    ensures received { BaseReceives }
{}

/// The answer that is due to compose is the verdict on what was read over the base, unless one of
/// them is too long or the redirected clones would have to carry too many bytes; where all was
/// done, they do not.
pub fn answers_are_judged()
    ensures judged { (long : Option ℕ) (base : Store ℕ) (reading : Reading)
        → IsJudgedOf long base reading }
    ensures files { (base : Store ℕ) (files : List (List ℕ)) → IsJudged base files }
{}

/// The chain of streams that a number gives, with up to 4,096 parts, is lawful: over no store, its
/// commands are taken, and its parts follow each other.
pub fn generated_chains_are_lawful()
    ensures lawful { ChainIsLawful }
{}

/// Composing looks at no contents of a base but those of the keys that the commands name: over two
/// bases with the same entries, and the same contents at these keys, the verdict, the answer that
/// is due, the composed commands and all counts are the same. Over a base without the parts the
/// keys outside are enough, and all that is promised of a composed stream, and all that compose
/// answers, is the same.
pub fn composing_looks_at_what_is_named<S>()
    ensures contents { (keep : Key → Bool) (store : List (Entry S))
        → LeavesOutContents keep store }
    ensures named { LooksAtNamed }
    ensures alike { AlikeIsSame }
    ensures outside { LooksOutside }
    ensures least { LeastIsEnough }
    ensures alike_outside { AlikeOutside }
    ensures ends { ThinnedEnds }
{}

/// What words say of files is what they say of what was read of them.
pub fn words_speak_of_readings()
    ensures files { (request : Request) (base : Store ℕ) (files : List (List ℕ))
        → SaysOfFiles request base files }
{}

/// What is said in front of files: names stand in place of those of their heads, and where a file
/// names a UUID as a parent or as the source of a clone, the CTRANSID that is said is meant.
/// Nothing else changes: no UUID, no part's own key, no version and no count; with names alone no
/// key and no order of parts, and all is as it was but for the names of heads. A name that is no
/// lawful one is refused at the head. The headline holds of the reading with these overrides, and
/// an audit is receiving it under guards. What is received leaves a lawful store. Without overrides
/// nothing changes, and words without names are files. Each name that words give is one that an
/// attribute has room for, and each such name can be given.
pub fn files_may_have_overrides<C>()
    ensures none { NoOverridesChangeNothing }
    ensures rest { (overrides : Overrides) (items : List Item) → KeepsAllElse overrides items }
    ensures names { NamesAloneKeepKeys }
    ensures renamed { NamesAloneRename }
    ensures heads { (overrides : Overrides) (item : Item)
        → ChangesNamesAndParents overrides item }
    ensures one_by_one { OverriddenOneByOne }
    ensures file { FileHasOneOverride }
    ensures head { HasNewHead }
    ensures named { HasNewName }
    ensures bad { BadNameStands C }
    ensures writable { OverriddenIsWritable }
    ensures whole { OverriddenIsWhole }
    ensures files { OverriddenFilesHold }
    ensures audits { OverriddenAuditIsReceiving }
    ensures limited { OverriddenAuditStopsAtLimit }
    ensures lawful { OverriddenLeaveLawful }
    ensures words { PlainFilesAreGiven }
    ensures fit { GivenNamesFit }
    ensures short { ShortNamesAreGiven }
{}
