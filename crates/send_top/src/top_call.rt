// What a run does with its words.
ghost use Rattle.std.specs.Prelude.{map};
ghost use Rattle.std.specs.String.{string_bytes};
ghost use Rattle.request_answers.specs.Answered.{answer_of};
ghost use Rattle.request_answers.specs.Objects.{objects_of};
ghost use Rattle.send_top.specs.Asked.{IsAnswered};
ghost use Rattle.send_top.specs.Clauses.{Answers, IsAcknowledged, IsCaused, IsCrashSafe, IsExported, IsMerged, IsSent, MeansNothing, Touches, run_of};

use crate::noting::{status, write_note};
use command_line::parse;
use guard_rules::Guard;
use request_answers::{Answer, answer};
use std::alloc::Global;
use sx_base::{Disk, Inputs, Sink};

/// Does what the words after the program's name ask for, and gives the exit status. Where it is not
/// 0, `notes` get the line that says why; a line that fails leaves the status. Words that mean
/// nothing, and guards that are not those of the words, are answered without memory, and then
/// nothing is asked of `inputs`, `out` and `disk`. The disk is the store that the words name; words
/// that name none, or `none`, ask nothing of it.
///
/// With status 0 `out` took all that is asked for; of `compose` this is one stream that the
/// headline holds of, and of `export` streams that every receiver of the files takes, the real
/// `btrfs receive` among them, and of which the headline holds as it does of the files. Where there
/// was memory, no count of faults or of ends rose, no file is too long and there is not too much to
/// write anew, the answer is the one that is due by the words, the files and the image that the
/// disk had: the status is 0 if all commands of the files are lawful, and 1 if not; then the note
/// names the first that is unlawful. Status 13, of a file that was changed, comes only where the
/// count of ends rose, and its note names the file and the place of the end that the inputs
/// answered last. It and 9, of too much to write anew, come of `compose` alone. Statuses 5, 6, 8,
/// 10, 12 and 14 come only of words that are answered by the store, whether or not anything tells
/// its bytes: 6 of all but `init`, 8 of `show`, `cat` and `drop`, 10 of `receive` and `drop`, 12 of
/// `init`, 14 of `scrub`. 7, of too little memory, never comes of `init`, which asks nothing of
/// `inputs` and `out`. The other words over a store that name no file ask nothing of `inputs`, and
/// `drop` asks nothing of `out`.
///
/// Files are read once, from their fronts on and in their order, so a pipe serves; `interleave`
/// reads each of its files once, in turns. `compose` reads its files twice, and ranges of their
/// data again.
pub fn run<I: Inputs, O: Sink, N: Sink, D: Disk>(
    alloc: Global,
    words: &[String],
    guards: Vec<Box<dyn Guard>>,
    inputs: &mut I,
    out: &mut O,
    notes: &mut N,
    disk: &mut D,
) -> u8
    ensures usage { MeansNothing (run_of (map string_bytes words.now)
        (map (λ g. kept g) guards.items) result I.Inputs inputs.old inputs.new O.Sink out.old out.new
        N.Sink notes.old notes.new D.Disk disk.old disk.new) }
    ensures touches { Touches (run_of (map string_bytes words.now)
        (map (λ g. kept g) guards.items) result I.Inputs inputs.old inputs.new O.Sink out.old out.new
        N.Sink notes.old notes.new D.Disk disk.old disk.new) }
    ensures caused { IsCaused (run_of (map string_bytes words.now)
        (map (λ g. kept g) guards.items) result I.Inputs inputs.old inputs.new O.Sink out.old out.new
        N.Sink notes.old notes.new D.Disk disk.old disk.new) }
    ensures answered { Answers (run_of (map string_bytes words.now)
        (map (λ g. kept g) guards.items) result I.Inputs inputs.old inputs.new O.Sink out.old out.new
        N.Sink notes.old notes.new D.Disk disk.old disk.new) }
    ensures composed { IsMerged (run_of (map string_bytes words.now)
        (map (λ g. kept g) guards.items) result I.Inputs inputs.old inputs.new O.Sink out.old out.new
        N.Sink notes.old notes.new D.Disk disk.old disk.new) }
    ensures exported { IsExported (run_of (map string_bytes words.now)
        (map (λ g. kept g) guards.items) result I.Inputs inputs.old inputs.new O.Sink out.old out.new
        N.Sink notes.old notes.new D.Disk disk.old disk.new) }
    ensures sent { IsSent (run_of (map string_bytes words.now)
        (map (λ g. kept g) guards.items) result I.Inputs inputs.old inputs.new O.Sink out.old out.new
        N.Sink notes.old notes.new D.Disk disk.old disk.new) }
    ensures crash_safe { IsCrashSafe (run_of (map string_bytes words.now)
        (map (λ g. kept g) guards.items) result I.Inputs inputs.old inputs.new O.Sink out.old out.new
        N.Sink notes.old notes.new D.Disk disk.old disk.new) }
    ensures acknowledged { IsAcknowledged (run_of (map string_bytes words.now)
        (map (λ g. kept g) guards.items) result I.Inputs inputs.old inputs.new O.Sink out.old out.new
        N.Sink notes.old notes.new D.Disk disk.old disk.new) }
{
    let mut guards = guards;
    let answer = answer_to(alloc, words, &mut guards, inputs, out, disk);
    let _ = write_note(&answer, notes);
    status(&answer)
}

// Parses the words, asks whether the guards are theirs, and answers the request.
fn answer_to<I: Inputs, O: Sink, D: Disk>(
    alloc: Global,
    words: &[String],
    guards: &mut [Box<dyn Guard>],
    inputs: &mut I,
    out: &mut O,
    disk: &mut D,
) -> Answer
    ensures { IsAnswered (objects_of I.Inputs inputs.old inputs.new O.Sink out.old out.new
        D.Disk disk.old disk.new)
        (map string_bytes words.now) (map (λ g. kept g) guards.old) (answer_of result) }
{
    let Some(request) = parse(words) else {
        return Answer::Usage;
    };
    if !request.guards().are_those(guards) {
        return Answer::Usage;
    }
    answer(alloc, request, guards, inputs, out, disk)
}
