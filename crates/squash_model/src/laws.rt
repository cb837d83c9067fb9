// Laws of squashed commands and streams. The contracts of functions that do nothing.
ghost use Rattle.squash_model.specs.SquashLaws.{SquashedLeadsTheSame, SquashedIsTheSame, SquashedCarriesWhatStands, SquashedPutsWhatStands, SquashedKeepsAllElse, WhatStandsStays, SquashedTwiceIsOnce, StandsInLast};
ghost use Rattle.squash_model.specs.SquashedStreams.{SquashedReadingsHold, SquashedFilesHold};
ghost use Rattle.squash_model.specs.SquashJudge.{JudgedIsOneStream, JudgedIsSquashed, LawfulStoresSquash};
ghost use Rattle.squash_model.specs.SquashDues.{DoneHasNoVerdict, DoneIsOverTheSameBase};
ghost use Rattle.squash_model.specs.PlacedSquash.{PlacesSquashTheSame, FilesArePlaced};
ghost use Rattle.squash_model.specs.Liveness.{LivenessSquashesTheSame, LivenessLooksAtNoCells};

/// Squashed commands are taken by every store that takes the commands and finds the same subvolumes
/// outside them, and leave exactly the same there; they are the same for each such store; they
/// carry the bytes that stand in the end, in their order, and no others; their heads, ends, clones
/// and keys are those of the commands; where all bytes stand they are the commands; squashing twice
/// is squashing once; and where the commands hold one part, a byte stands where a cell of its
/// subvolume has it in the end.
pub fn squashed_commands_make_the_same()
    ensures leads { SquashedLeadsTheSame }
    ensures same { SquashedIsTheSame }
    ensures carries { SquashedCarriesWhatStands }
    ensures puts { SquashedPutsWhatStands }
    ensures keeps { SquashedKeepsAllElse }
    ensures stays { WhatStandsStays }
    ensures once { SquashedTwiceIsOnce }
    ensures last { StandsInLast }
{}

/// What is written for one stream is read as its squashed commands, and every store that takes the
/// stream takes it and comes to the same. What has no verdict is one stream with one part. Where all
/// is done there is none, and the base is the one over which the file is composed.
pub fn squashed_streams_are_taken()
    ensures readings { SquashedReadingsHold }
    ensures files { SquashedFilesHold }
    ensures one { JudgedIsOneStream }
    ensures judged { JudgedIsSquashed }
    ensures stores { LawfulStoresSquash }
    ensures done { DoneHasNoVerdict }
    ensures same_base { DoneIsOverTheSameBase }
{}

/// By the places where bytes stand in their file, in place of their numbers, commands are squashed
/// to the same; and the bytes of a file stand one behind the other.
pub fn places_stand_for_births()
    ensures same { PlacesSquashTheSame }
    ensures placed { FilesArePlaced }
{}

/// Of one part, what stands is what lives, found command by command from the end by names, sizes
/// and ranges alone.
pub fn what_lives_stands()
    ensures same { LivenessSquashesTheSame }
    ensures blank { LivenessLooksAtNoCells }
{}
