// What it means that bytes stand on standard output: laws that begin with such a promise and end in
// plain words. Each is the contract of a function that does nothing.
ghost use Rattle.std.specs.Prelude.{ℕ, List};
ghost use Rattle.send_model.specs.Reading.{Verdict};
ghost use Rattle.send_model.specs.Store.{Store};
ghost use Rattle.send_model.specs.Sources.{Sources};
ghost use Rattle.send_model.specs.Meanings.{FrontHasARest, ProperFrontLacksSome, StoppedIsNoStream, StoppedIsNotComposed, DoneIsWhole, RefusedIsTold, EndIsMissing};

/// Behind a front part stands what is missing, and behind a proper one that is something. Where
/// compose stopped, what was written does not read to a whole end, and is never what the headline
/// promises. Where all was done, all was written; where a command is refused, dump and export wrote
/// all that stands before it, compose no whole stream, and audit nothing; and before that end
/// compose wrote no whole stream, audit nothing, and where standard output failed not all of its
/// line.
pub fn output_means_what_was_done()
    ensures front { FrontHasARest }
    ensures proper { ProperFrontLacksSome }
    ensures stopped { StoppedIsNoStream }
    ensures not_composed { StoppedIsNotComposed }
    ensures done { (base : Store ℕ) (read : Sources) (written : List ℕ) → DoneIsWhole base read written }
    ensures refused { (base : Store ℕ) (read : Sources) (verdict : Verdict) (written : List ℕ) → RefusedIsTold base read verdict written }
    ensures missing { (base : Store ℕ) (read : Sources) (written : List ℕ) → EndIsMissing base read written }
{}
