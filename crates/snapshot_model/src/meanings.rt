// What an answer of `send` and `restore` means to whoever reads it, and what a store has that
// received what they wrote. Each is the contract of a function that does nothing.
ghost use Rattle.snapshot_model.specs.Sent.{sent_stream};
ghost use Rattle.snapshot_model.specs.Restored.{restored_stream};
ghost use Rattle.snapshot_model.specs.SendMeanings.{SendIsDone, SendMisses, SendIsInFront, SendIsCut, NothingIsSentOverNone, UnfinishedLacksSome};
ghost use Rattle.snapshot_model.specs.SendMeanings.{ReceivedAnewIsThere, FilesAreThereAnew};

/// With status 0 the stream of the complete subvolume of the name was written; what is missing is
/// not in the store, and then nothing was written; whatever the status, it was a front part of that
/// stream, and where standard output failed some of it is missing. Over no store nothing was
/// written. Where the stream is unfinished, what is missing is something.
pub fn sent_is_the_stream_of_the_subvolume()
    ensures done { SendIsDone sent_stream }
    ensures missing { SendMisses sent_stream }
    ensures front { SendIsInFront sent_stream }
    ensures cut { SendIsCut sent_stream }
    ensures none { NothingIsSentOverNone sent_stream }
    ensures unfinished { UnfinishedLacksSome sent_stream }
{}

/// So it is of what is restored.
pub fn restored_is_the_stream_of_the_subvolume()
    ensures done { SendIsDone restored_stream }
    ensures missing { SendMisses restored_stream }
    ensures front { SendIsInFront restored_stream }
    ensures cut { SendIsCut restored_stream }
    ensures none { NothingIsSentOverNone restored_stream }
    ensures unfinished { UnfinishedLacksSome restored_stream }
{}

/// Of a store that received what was sent or restored `list` prints what it printed before and one
/// line more, `show` prints the lines of the new subvolume, whose listing is that of the old one,
/// and `cat` answers for each path as it does over the store that it is from.
pub fn received_anew_is_printed_the_same()
    ensures there { ReceivedAnewIsThere }
    ensures files { FilesAreThereAnew }
{}
