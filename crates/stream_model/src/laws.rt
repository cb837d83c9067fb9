// Laws that tie the definitions to what they mean. Each is the contract of a function that does
// nothing.
ghost use Rattle.stream_model.specs.StreamLaws.{OwnStreamIsTaken, DueIsTaken, CutIsNotWhole, OneStreamDue, EachStreamIsDue, StreamIsAnswered};

/// The own stream of a complete subvolume of a store reads whole, as its head, its edits and END.
/// Every store that finds what was there when the edits were made takes it, and gets an entry equal
/// to this one. Less than the stream does not read whole.
pub fn own_streams_are_taken_again()
    ensures taken { OwnStreamIsTaken }
    ensures due { DueIsTaken }
    ensures cut { CutIsNotWhole }
{}

/// One answer is due to streaming a name of a store, with one stream; there is one for each image
/// of bytes, and it is answered as it says.
pub fn one_answer_is_due_to_streaming()
    ensures one { OneStreamDue }
    ensures each { EachStreamIsDue }
    ensures answered { StreamIsAnswered }
{}
