// What an answer to a request means to whoever reads it. The contract of a function that does nothing.
ghost use Rattle.program_model.specs.AnswerMeanings.{ReadersKeepTheImage, ShowIsOfNamed, CatIsOfNamed, DropIsOfNamed, MissingIsNamed};
ghost use Rattle.program_model.specs.AnswerMeanings.{SendIsOfNamed, RestoreIsOfNamed, SentIsReceivedAnew, RestoredIsReceivedAnew, NoFilesAreSent, TurnsAreDone};
ghost use Rattle.program_model.specs.AnswerMeanings.{StreamIsOfNamed, NoStreamIsNamed, TarIsOfNamed, NoTarIsNamed};
ghost use Rattle.program_model.specs.AnswerMeanings.{PackedIsText, TextIsPacked, TextIsTaken};

/// No answer to a request that changes no store changes the image. With status 0 `show`, `cat`,
/// `drop`, `send` and `restore` did their part with the snapshot of that name, and with that path;
/// what is missing are these; what is sent of a snapshot, and what is restored of it, is one stream
/// that every store without its name and its UUID receives, with an equal listing. What `stream`
/// wrote is the snapshot's own stream, which can be received again. What `tar` wrote is the
/// snapshot's archive. `text` of what
/// `pack` made of a text is that text, and `pack` of what `text` printed of a file is its canonical
/// bytes. Files that take turns had the guards of their words, each with its share.
pub fn answers_mean_what_is_meant()
    ensures readers { ReadersKeepTheImage }
    ensures show { ShowIsOfNamed }
    ensures cat { CatIsOfNamed }
    ensures dropped { DropIsOfNamed }
    ensures missing { MissingIsNamed }
    ensures sent { SendIsOfNamed }
    ensures restored { RestoreIsOfNamed }
    ensures sent_anew { SentIsReceivedAnew }
    ensures restored_anew { RestoredIsReceivedAnew }
    ensures streamed { StreamIsOfNamed }
    ensures no_stream { NoStreamIsNamed }
    ensures archived { TarIsOfNamed }
    ensures no_archive { NoTarIsNamed }
    ensures no_files { NoFilesAreSent }
    ensures packed { PackedIsText }
    ensures text { TextIsPacked }
    ensures taken { TextIsTaken }
    ensures turns { TurnsAreDone }
{}
