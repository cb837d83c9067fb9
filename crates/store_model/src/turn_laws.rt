// Laws that tie what is due to turns to the turns themselves. Each is the contract of a function
// that does nothing.
ghost use Rattle.store_model.specs.TurnDueLaws.{EndIsFront, EndIsTaken, ShortAreRead, FirstEventsStand, EndsAreTaken};

/// What is done until the answer that is due are the first events of all turns. That answer is what
/// the turns leave, unless there is no room or a file is too long; where no file is too long, all
/// of them are read. An image that has the groups of some first events behind those of a store
/// stands for a store after some first turns. After an answer that is not on the length of a file
/// or on room all turns were taken: the image stands for what they leave, and the files were
/// received in turn.
pub fn turns_are_answered()
    ensures front { EndIsFront }
    ensures taken { EndIsTaken }
    ensures short { ShortAreRead }
    ensures stand { FirstEventsStand }
    ensures turned { EndsAreTaken }
{}
