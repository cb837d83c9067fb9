// Laws on texts. Each is the contract of a function that does nothing.
ghost use Rattle.text_model.specs.TextLaws.{TextHasOneReading, FrontHasOneReading};
ghost use Rattle.text_model.specs.TextLaws.{LawfulIsNotBad, OneLineIsBad, SomeLineIsBad};
ghost use Rattle.text_model.specs.TextLaws.{OneIsDue, LinesAreShort};
ghost use Rattle.text_model.specs.TextLaws.{PackedIsRead, WholeHasText};

/// A text is that of one list of streams, and lines with which a lawful text begins say one thing.
/// No such line has more than 2^21 bytes.
pub fn texts_have_one_reading()
    ensures text { TextHasOneReading }
    ensures front { FrontHasOneReading }
    ensures short { LinesAreShort }
{}

/// A text is lawful or one line is named, and never both; so one answer is due to a text.
pub fn texts_are_judged()
    ensures lawful { LawfulIsNotBad }
    ensures one { OneLineIsBad }
    ensures some { SomeLineIsBad }
    ensures due { OneIsDue }
{}

/// `text` of what was packed of a text is that text, and packing the text of a whole file makes its
/// canonical bytes.
pub fn each_undoes_the_other()
    ensures packed { PackedIsRead }
    ensures whole { WholeHasText }
{}
