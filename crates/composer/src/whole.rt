// Composing files: once over all of them for their heads, and once more to write.
ghost use Rattle.std.specs.Prelude.{◌≡◌, ◌≢◌, ℕ, ◌+◌, ◌<◌, ◌≤◌, List, [], map, length, true, get_or, is_some, OnOk, IfErr};
ghost use Rattle.std.specs.String.{string_bytes};
ghost use Rattle.send_model.specs.Outside.{store_without, AllSayable};
ghost use Rattle.send_model.specs.Provenance.{traced_store};
ghost use Rattle.send_model.specs.Receive.{start_of};
ghost use Rattle.send_model.specs.Cells.{recelled_store, AllCells};
ghost use Rattle.send_model.specs.Overridden.{override_for};
ghost use Rattle.provenance.specs.Traces.{place_of};
ghost use Rattle.clone_pieces.specs.Origins.{outside_cells, IsHad, IsInInput, AreAsLong, AreHeld, byte_of_trace};
ghost use Rattle.clone_pieces.specs.Seen.{seen};
ghost use Rattle.clone_pieces.specs.Later.{BytesLater};
ghost use Rattle.sx_base.specs.Later.{InputsLater, OutputLater, AskedOnly};
ghost use Rattle.file_survey.specs.Findings.{SurveyEnd};
ghost use Rattle.sx_base.specs.Asks.{IsReadWithRanges, AreReadWithRanges, AreReadTwice};
ghost use Rattle.sx_base.specs.Calls.{IfAllTold, CausedAgain, FoundChanged, ErrFoundChanged, Wrote, SteadyIfDone, IsStop};
ghost use Rattle.sx_base.specs.Causes.{Steady, counts};
ghost use Rattle.sx_base.specs.declared.outcome.Outcome.TheVariants as ended;
ghost use Rattle.composer.specs.OverBase.{at_start};
ghost use Rattle.composer.specs.Kept.{composing_of};
ghost use Rattle.composer.specs.Reached.{over, reached, one_file};
ghost use Rattle.composer.specs.Taking.{ErrCausedAgain, is_at_last};
ghost use Rattle.composer.specs.Files.{plan_with, FileEnd, ComposeEnds, outcome_in};

use crate::composing::Composer;
use crate::task::{ReadItem, Task};
use clone_pieces::{Known, NoBase, OutsideBytes};
use clone_resolve::EditCore;
use cmd_reader::{CmdReader, outcome_of};
use file_survey::{Place, survey};
use part_names::{Overrides, given_or, override_item};
use provenance::Trace;
use std::alloc::Global;
use sx_base::{Inputs, Outcome, Refusal, Sink};

/// Composes the consecutive parts in the files into one stream and writes it to `out`, over no
/// base. The files are read twice, in order and one command at a time: first for their heads, then
/// to write. Each head has the name that is given for its file, if one is, in place of its own.
/// `Done` says that `out` took the composed stream, and `Refused` gives the verdict on the files;
/// then `out` took all that stands for the commands before. With every outcome but `Done` what
/// `out` took is no whole stream. `InputTooLong` gives the first file that is too long, and with
/// `Done` and `Refused` there is none. `InputChanged` gives the file and the place of the end that
/// the inputs answered last.
pub fn compose<I: Inputs, O: Sink>(
    alloc: Global,
    inputs: &mut I,
    files: &[String],
    overrides: &Overrides,
    out: &mut O,
) -> Outcome
    requires some { files.now ≢ [] }
    ensures same { I.told inputs.new ≡ I.told inputs.old }
    ensures asked { AskedOnly I.Inputs inputs.old inputs.new
        (AreReadTwice (I.told inputs.old) (map string_bytes files.now)) }
    ensures steady { SteadyIfDone (I.faults inputs.old) (I.faults inputs.new) result }
    ensures ends_steady { SteadyIfDone (I.ends inputs.old) (I.ends inputs.new) result }
    ensures out_steady { SteadyIfDone (O.faults out.old) (O.faults out.new) result }
    ensures cause { CausedAgain
        (counts (I.ends inputs.old) (I.faults inputs.old) (O.faults out.old))
        (counts (I.ends inputs.new) (I.faults inputs.new) (O.faults out.new)) result }
    ensures changed { FoundChanged (map string_bytes files.now) (I.last_end inputs.new) result }
    ensures ends { IfAllTold (I.told inputs.old) (map string_bytes files.now)
        (λ told. Wrote (O.taken out.old) (O.taken out.new) (ComposeEnds [] overrides.now told result)) }
{
    let found = match survey(alloc, inputs, files, overrides) {
        Ok(found) => found,
        Err(outcome) => return outcome,
    };
    let core = EditCore::new(alloc);
    let mut nothing = NoBase;
    let task = Task {
        alloc,
        files,
        survey: &found,
        overrides,
        known: &NoBase,
    };
    compose_over(&task, core, &mut nothing, inputs, out)
}

/// The same over a base, after the survey of the files. `core` has the base's subvolumes, each cell
/// traced to its own place there; `known` of the task has their files' ends and paths, and `bytes`
/// their bytes. The base has no part of the files. What is written, and which outcome comes, is
/// said where `bytes` tells. Where it does not, each failure has its cause all the same, and `Done`
/// comes only where the survey has a last head.
pub fn compose_over<I: Inputs, E: Known, B: OutsideBytes, O: Sink>(
    task: &Task<'_, E>,
    core: EditCore<Trace>,
    bytes: &mut B,
    inputs: &mut I,
    out: &mut O,
) -> Outcome
    requires some { task.now.files.now ≢ [] }
    requires surveyed { IfAllTold (I.told inputs.old) (map string_bytes task.now.files.now)
        (SurveyEnd task.now.overrides.now (Ok task.now.survey.now)) }
    requires traced { B.tells → IfAllTold (I.told inputs.old) (map string_bytes task.now.files.now)
        (λ told. recelled_store
        (seen (byte_of_trace told (E.base task.now.known.now)) place_of) core
        ≡ traced_store (E.base task.now.known.now)) }
    requires had { AllCells (IsHad 0 (E.base task.now.known.now)) (start_of core) }
    requires sized { AreAsLong (B.held bytes.old) (outside_cells (E.base task.now.known.now)) }
    requires held { B.tells → AreHeld (B.held bytes.old) (E.base task.now.known.now) }
    requires apart { store_without task.now.survey.now.parts (E.base task.now.known.now)
        ≡ E.base task.now.known.now }
    requires sayable { B.tells → AllSayable (E.base task.now.known.now) }
    ensures same { I.told inputs.new ≡ I.told inputs.old }
    ensures asked { AskedOnly I.Inputs inputs.old inputs.new
        (AreReadWithRanges (I.told inputs.old) (map string_bytes task.now.files.now)) }
    ensures steady { SteadyIfDone (I.faults inputs.old) (I.faults inputs.new) result }
    ensures ends_steady { SteadyIfDone (I.ends inputs.old) (I.ends inputs.new) result }
    ensures bytes_steady { SteadyIfDone (B.faults bytes.old) (B.faults bytes.new) result }
    ensures out_steady { SteadyIfDone (O.faults out.old) (O.faults out.new) result }
    ensures cause { CausedAgain
        (counts (I.ends inputs.old) (I.faults inputs.old + B.faults bytes.old) (O.faults out.old))
        (counts (I.ends inputs.new) (I.faults inputs.new + B.faults bytes.new) (O.faults out.new))
        result }
    ensures changed { FoundChanged (map string_bytes task.now.files.now) (I.last_end inputs.new)
        result }
    ensures ends { B.tells → IfAllTold (I.told inputs.old) (map string_bytes task.now.files.now)
        (λ told. Wrote (O.taken out.old) (O.taken out.new)
        (ComposeEnds (E.base task.now.known.now) task.now.overrides.now told result)) }
    ensures begun { result ≡ ended.Done → is_some task.now.survey.now.last ≡ true }
{
    let mut composer = Composer::new(task.alloc, core);
    match write_files(task, bytes, inputs, out, &mut composer) {
        Ok(()) => Outcome::Done,
        Err(outcome) => outcome,
    }
}

// Composes all files, and writes END, which goes out only where the head that came last is that of
// the survey: files that are read again may have changed since.
fn write_files<I: Inputs, E: Known, B: OutsideBytes, O: Sink>(
    task: &Task<'_, E>,
    bytes: &mut B,
    inputs: &mut I,
    out: &mut O,
    composer: &mut Composer,
) -> Result<(), Outcome>
    requires some { task.now.files.now ≢ [] }
    requires surveyed { IfAllTold (I.told inputs.old) (map string_bytes task.now.files.now)
        (SurveyEnd task.now.overrides.now (Ok task.now.survey.now)) }
    requires start { B.tells → IfAllTold (I.told inputs.old) (map string_bytes task.now.files.now)
        (λ told. composing_of told (E.base task.now.known.now) composer.old
        ≡ at_start (plan_with (E.base task.now.known.now) task.now.survey.now)) }
    requires had { AllCells (IsHad (length task.now.files.now) (E.base task.now.known.now))
        composer.old.state }
    requires sized { AreAsLong (B.held bytes.old) (outside_cells (E.base task.now.known.now)) }
    requires held { B.tells → AreHeld (B.held bytes.old) (E.base task.now.known.now) }
    requires there { IfAllTold (I.told inputs.old) (map string_bytes task.now.files.now)
        (λ told. AllCells (IsInInput told) composer.old.state) }
    requires apart { store_without task.now.survey.now.parts (E.base task.now.known.now)
        ≡ E.base task.now.known.now }
    requires sayable { B.tells → AllSayable (E.base task.now.known.now) }
    ensures same { I.told inputs.new ≡ I.told inputs.old }
    ensures asked { AskedOnly I.Inputs inputs.old inputs.new
        (AreReadWithRanges (I.told inputs.old) (map string_bytes task.now.files.now)) }
    ensures steady { Steady (I.faults inputs.old) (I.faults inputs.new) result }
    ensures ends_steady { Steady (I.ends inputs.old) (I.ends inputs.new) result }
    ensures bytes_steady { Steady (B.faults bytes.old) (B.faults bytes.new) result }
    ensures out_steady { Steady (O.faults out.old) (O.faults out.new) result }
    ensures cause { ErrCausedAgain
        (counts (I.ends inputs.old) (I.faults inputs.old + B.faults bytes.old) (O.faults out.old))
        (counts (I.ends inputs.new) (I.faults inputs.new + B.faults bytes.new) (O.faults out.new))
        result }
    ensures stops { IfErr result IsStop }
    ensures changed { ErrFoundChanged (map string_bytes task.now.files.now) (I.last_end inputs.new)
        result }
    ensures ends { B.tells → IfAllTold (I.told inputs.old) (map string_bytes task.now.files.now)
        (λ told. Wrote (O.taken out.old) (O.taken out.new)
        (ComposeEnds (E.base task.now.known.now) task.now.overrides.now told (outcome_in result))) }
    ensures last { OnOk result (is_at_last composer.new.latest task.now.survey.now.last ≡ true) }
{
    let mut place = Place::start();
    let mut file = 0;
    while file < task.files.len() {
        let turn = NextFile {
            number: file,
            before: place,
        };
        place = match write_file(task, turn, bytes, inputs, out, composer) {
            Ok(place) => place,
            Err(outcome) => return Err(outcome),
        };
        file += 1;
    }
    let at_last = composer.is_at_last(task.survey);
    if !at_last {
        return Err(Outcome::Refused(place.refused(Refusal::NotConsecutive)));
    }
    composer
        .end(task.survey.version(), out)
        .map_err(Outcome::from)
}

// The number of a file, counted from 0, and the place of the last item before it.
#[derive(Clone, Copy)]
struct NextFile {
    number: usize,
    before: Place,
}

// Composes a file's commands, and gives the place of the last.
fn write_file<I: Inputs, E: Known, B: OutsideBytes, O: Sink>(
    task: &Task<'_, E>,
    turn: NextFile,
    bytes: &mut B,
    inputs: &mut I,
    out: &mut O,
    composer: &mut Composer,
) -> Result<Place, Outcome>
    requires numbered { turn.number < length task.now.files.now }
    requires had { AllCells (IsHad (length task.now.files.now) (E.base task.now.known.now))
        composer.old.state }
    requires sized { AreAsLong (B.held bytes.old) (outside_cells (E.base task.now.known.now)) }
    requires held { B.tells → AreHeld (B.held bytes.old) (E.base task.now.known.now) }
    requires there { IfAllTold (I.told inputs.old) (map string_bytes task.now.files.now)
        (λ told. AllCells (IsInInput told) composer.old.state) }
    ensures had { OnOk result
        (AllCells (IsHad (length task.now.files.now) (E.base task.now.known.now))
        composer.new.state) }
    ensures there { OnOk result (IfAllTold (I.told inputs.old) (map string_bytes task.now.files.now)
        (λ told. AllCells (IsInInput told) composer.new.state)) }
    ensures inputs { InputsLater I.Inputs inputs.old inputs.new result }
    ensures asked { AskedOnly I.Inputs inputs.old inputs.new
        (IsReadWithRanges (I.told inputs.old) (map string_bytes task.now.files.now)
        (get_or (map string_bytes task.now.files.now) turn.number [])) }
    ensures bytes { BytesLater B.OutsideBytes bytes.old bytes.new result }
    ensures out { OutputLater O.Sink out.old out.new result }
    ensures cause { ErrCausedAgain
        (counts (I.ends inputs.old) (I.faults inputs.old + B.faults bytes.old) (O.faults out.old))
        (counts (I.ends inputs.new) (I.faults inputs.new + B.faults bytes.new) (O.faults out.new))
        result }
    ensures stops { IfErr result IsStop }
    ensures changed { ErrFoundChanged (map string_bytes task.now.files.now) (I.last_end inputs.new)
        result }
    ensures wrote { B.tells → IfAllTold (I.told inputs.old) (map string_bytes task.now.files.now)
        (λ told. FileEnd (over told (plan_with (E.base task.now.known.now) task.now.survey.now))
        (one_file (turn.number + 1) (override_for task.now.overrides.now (turn.number + 1))
        (get_or told turn.number []))
        turn.before (reached composer.old (O.taken out.old))
        (reached composer.new (O.taken out.new)) result) }
{
    let file = turn.number as u64 + 1;
    let Ok(mut reader) = CmdReader::new(task.alloc, file, task.files[turn.number].as_str()) else {
        return Err(Outcome::NoMemory);
    };
    let said = task.overrides.of_file(file);
    let mut place = turn.before;
    loop {
        let frame = match reader.advance(inputs) {
            Ok(Some(frame)) => frame,
            Ok(None) => return Ok(place),
            Err(stop) => return Err(composer.stopped(outcome_of(file, stop), out)),
        };
        let item = match reader.item(frame) {
            Ok(item) => item,
            Err(verdict) => return Err(composer.stopped(Outcome::Refused(verdict), out)),
        };
        place = Place {
            file,
            command: item.number,
            offset: item.offset,
        };
        if item.version > task.survey.version() {
            let refused = place.refused(Refusal::NotConsecutive);
            return Err(composer.stopped(Outcome::Refused(refused), out));
        }
        let changed = override_item(said, &item);
        let meant = given_or(&item, &changed);
        let came = reader.last_frame();
        let read = ReadItem {
            item: meant,
            frame: came,
            file,
        };
        let taken = composer.take(&read, task, inputs, bytes, out);
        if let Err(outcome) = taken {
            return Err(outcome);
        }
    }
}
