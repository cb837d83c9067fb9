// Laws of the words that ask for something. The contract of a function that does nothing.
ghost use Rattle.program_model.specs.EscapedWords.{EscapedIsReadBack, ReadIsEscaped, BytesAreMeant};
ghost use Rattle.program_model.specs.FileWords.{PlainWordsAreFiles, WordsGiveFiles, GivenAreAsMany};
ghost use Rattle.program_model.specs.FileWords.{GivenAreLawful, ParentsAreRead, ReadIsSpelled};

/// Words of which none stands in front of a file are files, in their order; and words that stand
/// give a file, if there are any. As much is said as there are files, or nothing for one; and what
/// is said can be said in commands. Each parent can be said, in one way.
pub fn words_give_files()
    ensures plain { PlainWordsAreFiles }
    ensures some { WordsGiveFiles }
    ensures many { GivenAreAsMany }
    ensures lawful { GivenAreLawful }
    ensures parents { ParentsAreRead }
    ensures spelled { ReadIsSpelled }
{}

/// The escaped form of bytes is read back as them, and no other form is: so each list of bytes can
/// be asked for, in one way. What words of bytes mean is bytes.
pub fn escaped_words_are_read_back()
    ensures back { EscapedIsReadBack }
    ensures only { ReadIsEscaped }
    ensures bytes { BytesAreMeant }
{}
