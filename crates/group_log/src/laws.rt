// Laws that tie the definitions of a journal to what they mean. Each is the contract of a function
// that does nothing.
ghost use Rattle.group_log.specs.Laws.{ImageIsOneJournal, ImageHasNoFault, FaultIsOfOneGroup};

/// Bytes are the image of one journal: they have one header and one list of groups. So what a log
/// says of the groups that a loss of power leaves can be said of no others. Such bytes have no
/// fault, and others have a fault in one group at most. So a log says of no journal that it is no
/// store, and of other bytes it names the one group that has the fault.
pub fn images_are_one_journal()
    ensures one { ImageIsOneJournal }
    ensures no_fault { ImageHasNoFault }
    ensures one_fault { FaultIsOfOneGroup }
{}
