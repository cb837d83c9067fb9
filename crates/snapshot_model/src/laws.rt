// Laws that tie the definitions to what they mean. Each is the contract of a function that does
// nothing.
ghost use Rattle.snapshot_model.specs.SentLaws.{SentEditsAreTaken, SentIsReceived, SentIsSpellable, SentStreamIsReceived, MadeIsSendable, EditsKeepIt, KeptIsSendable, RestoredEditsAreTaken, RestoredIsReceived, RestoredIsSpellable, RestoredStreamIsReceived};
ghost use Rattle.snapshot_model.specs.StoredLaws.{HeldAreBytes, BytesAreHeld, PlacesAreHeld, ImageIsOneHeld, StoredIsKept, SentOfStores, RestoredOfStores, OneSendDue, EachSendIsDue, SendIsAnswered};

/// What is sent of a whole subvolume is accepted by every store that has neither its name nor its
/// uuid, and makes a subvolume with the same listing, holes among the cells. So it is of the bytes
/// of its stream, which its version can say.
pub fn sent_subvolumes_are_received()
    ensures edits { SentEditsAreTaken }
    ensures items { SentIsReceived }
    ensures spelled { SentIsSpellable }
    ensures stream { SentStreamIsReceived }
{}

/// So is what is restored of it in the kernel's order, in the receivable spelling.
pub fn restored_subvolumes_are_received()
    ensures edits { RestoredEditsAreTaken }
    ensures items { RestoredIsReceived }
    ensures spelled { RestoredIsSpellable }
    ensures stream { RestoredStreamIsReceived }
{}

/// What both ask of a subvolume, a root alone has, and edits and clones keep.
pub fn received_subvolumes_can_be_sent()
    ensures numbers { MadeIsSendable }
    ensures kept { EditsKeepIt }
    ensures sendable { KeptIsSendable }
{}

/// What an image stands for has holes among its cells in one way, whether cells are bytes or their
/// places. Each of its subvolumes has what sending asks, so the stream that is sent of it, and the
/// one that is restored, make an equal listing in every store that has neither its name nor its
/// uuid.
pub fn stored_subvolumes_can_be_sent()
    ensures bytes { HeldAreBytes }
    ensures held { BytesAreHeld }
    ensures places { PlacesAreHeld }
    ensures one { ImageIsOneHeld }
    ensures kept { StoredIsKept }
    ensures sent { SentOfStores }
    ensures restored { RestoredOfStores }
{}

/// One answer is due to sending a name of a store, with one stream; there is one for each image of
/// bytes, and it is answered as it says.
pub fn one_answer_is_due_to_sending()
    ensures one { OneSendDue }
    ensures each { EachSendIsDue }
    ensures answered { SendIsAnswered }
{}
