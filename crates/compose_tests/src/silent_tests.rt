// Composing over a base that does not tell its bytes, as files on a real disk do not.
ghost use Rattle.std.specs.Prelude.{◌≡◌, ◌≢◌, ◌+◌, ◌≤◌, [], false, length, map, None, IfOk, OnOk};
ghost use Rattle.std.specs.String.{string_bytes};
ghost use Rattle.send_model.specs.Cells.{AllCells};
ghost use Rattle.send_model.specs.Outside.{is_among};
ghost use Rattle.send_model.specs.Receive.{start_of};
ghost use Rattle.send_commands.specs.Meaning.{meaning_of};
ghost use Rattle.subvol_catalog.specs.Entries.{key_of};
ghost use Rattle.clone_resolve.specs.Steps.{data_len, Fits};
ghost use Rattle.clone_pieces.specs.Origins.{IsHad};
ghost use Rattle.file_survey.specs.Findings.{SurveyEnd};
ghost use Rattle.sx_base.specs.Calls.{IfAllTold, CausedAgain, SteadyIfDone};
ghost use Rattle.sx_base.specs.Causes.{counts};
ghost use Rattle.compose_tests.specs.Silent.{held_store};

use crate::same::same;
use crate::streams::{CLONE_FROM_B, END, HEADER, MKFILE_Y, SNAPSHOT_B, WRITE_Y_HI, joined};
use crate::values::{key, two_names};
use clone_pieces::{Known, OutsideBytes};
use clone_resolve::{EditCore, Part};
use composer::{Task, compose_over};
use file_survey::{Survey, survey};
use part_names::Overrides;
use provenance::{Ends, Trace};
use send_commands::Command;
use std::alloc::{AllocError, Global};
use std::process::Abort;
use std::test::Fail;
use subvol_catalog::Key;
use sx_base::{Blob, Failed, MemInputs, MemSink, Outcome, Stop};

// A snapshot r of the part b, and the head that stands for it and for the part b, a snapshot of a.
const SNAPSHOT_R: &[u8] =
    b"E\x00\x00\x00\x02\x00\x06\x83\xee\x87\x01\x00\x10\x003333333333333333\x02\x00\x08\x00\x03\x00\x00\x00\x00\x00\x00\x00\x0f\x00\x01\x00r\x14\x00\x10\x00\"\"\"\"\"\"\"\"\"\"\"\"\"\"\"\"\x15\x00\x08\x00\x02\x00\x00\x00\x00\x00\x00\x00";

const SNAPSHOT_OF_A: &[u8] =
    b"E\x00\x00\x00\x02\x00/\x1d%\x89\x01\x00\x10\x003333333333333333\x02\x00\x08\x00\x03\x00\x00\x00\x00\x00\x00\x00\x0f\x00\x01\x00r\x14\x00\x10\x00\x11\x11\x11\x11\x11\x11\x11\x11\x11\x11\x11\x11\x11\x11\x11\x11\x15\x00\x08\x00\x01\x00\x00\x00\x00\x00\x00\x00";

// The two files, and what is written.
const FIRST: &[&[u8]] = &[HEADER, SNAPSHOT_B, END];

const SECOND: &[&[u8]] = &[HEADER, SNAPSHOT_R, MKFILE_Y, CLONE_FROM_B, END];

const WHOLE: &[&[u8]] = &[HEADER, SNAPSHOT_OF_A, MKFILE_Y, WRITE_Y_HI, END];

// What is known of the base: a subvolume with this key, of which two bytes are held.
#[derive(Drop)]
struct Silent {
    key: Key,
}

impl Ends for Silent {
    ghost ends = { λ silent key ino. None };

    fn end_of(&self, key: Key, ino: u64) -> Option<u64> {
        let _ = (key, ino);
        None
    }
}

impl Known for Silent {
    ghost use Rattle.compose_tests.specs.Silent.{held_store, no_ends};
    ghost use Rattle.subvol_catalog.specs.Entries.{key_of};

    ghost base = { λ silent. held_store (key_of silent.key) };

    ghost ends_are = { λ silent. no_ends (key_of silent.key) };

    fn first_path(&self, alloc: Global, key: Key, ino: u64) -> Result<Option<Blob>, AllocError> {
        let _ = (alloc, key, ino);
        Ok(None)
    }
}

// Its bytes: those that are held are 0, and reads give others. One of them fails, counted from 1,
// or none at 0.
#[derive(Drop)]
struct SilentBytes {
    key: Key,
    failing: u64,
    calls: u64,
    faults: u64,
}

impl OutsideBytes for SilentBytes {
    ghost use Rattle.clone_pieces.specs.Origins.{outside_cells};
    ghost use Rattle.compose_tests.specs.Silent.{held_store};
    ghost use Rattle.subvol_catalog.specs.Entries.{key_of};

    ghost tells = { ⊥ };

    ghost held = { λ s. outside_cells (held_store (key_of s.key)) };

    ghost faults = { λ s. s.faults };

    fn fill(&mut self, key: Key, ino: u64, at: u64, buf: &mut [u8]) -> Result<(), Failed> {
        let _ = (key, ino, at);
        self.calls = self.calls.saturating_add(1);
        if self.calls == self.failing {
            self.faults = self.faults.saturating_add(1);
            return Err(Failed);
        }
        buf.fill(b'i');
        if !buf.is_empty() {
            buf[0] = b'h';
        }
        Ok(())
    }
}

// The subvolume, its file, and as many bytes as the base has of it.
const NAME: &[u8] = b"a";

const PATH: &[u8] = b"x";

const BYTES: &[u8] = &[0, 0];

// One command more, whose data are those of the base.
fn led(
    core: &mut EditCore<Trace>,
    part: &mut Option<Part<Trace>>,
    c: &Command<'_>,
    key: &Key,
) -> Result<(), Stop>
    requires fits { Fits core.old part.old }
    requires short { data_len (meaning_of c.now) ≤ 2 }
    requires had { AllCells (IsHad 0 (held_store (key_of key.now)))
        (record { store = core.old; part = part.old }) }
    ensures fits { Fits core.new part.new }
    ensures had { OnOk result (AllCells (IsHad 0 (held_store (key_of key.now)))
        (record { store = core.new; part = part.new })) }
{
    let origin = Trace::Outside {
        key: *key,
        ino: 257,
        at: 0,
    };
    match core.step(part, c, origin) {
        Ok(_) => Ok(()),
        Err(stop) => Err(stop),
    }
}

// The head of a subvolume of this name.
fn begun(
    core: &mut EditCore<Trace>,
    part: &mut Option<Part<Trace>>,
    name: &[u8],
    key: &Key,
) -> Result<(), Stop>
    requires fits { Fits core.old part.old }
    requires had { AllCells (IsHad 0 (held_store (key_of key.now)))
        (record { store = core.old; part = part.old }) }
    ensures fits { Fits core.new part.new }
    ensures had { OnOk result (AllCells (IsHad 0 (held_store (key_of key.now)))
        (record { store = core.new; part = part.new })) }
{
    let head = Command::Subvol {
        uuid: key.uuid,
        ctransid: key.ctransid,
        path: name,
    };
    led(core, part, &head, key)
}

// A new file.
fn made(
    core: &mut EditCore<Trace>,
    part: &mut Option<Part<Trace>>,
    path: &[u8],
    key: &Key,
) -> Result<(), Stop>
    requires fits { Fits core.old part.old }
    requires had { AllCells (IsHad 0 (held_store (key_of key.now)))
        (record { store = core.old; part = part.old }) }
    ensures fits { Fits core.new part.new }
    ensures had { OnOk result (AllCells (IsHad 0 (held_store (key_of key.now)))
        (record { store = core.new; part = part.new })) }
{
    led(core, part, &Command::MkFile { path }, key)
}

// The bytes that a file's write gave once.
fn written<'a>(
    core: &mut EditCore<Trace>,
    part: &mut Option<Part<Trace>>,
    path: &'a [u8],
    bytes: &'a [u8],
    key: &Key,
) -> Result<(), Stop>
    requires fits { Fits core.old part.old }
    requires short { length bytes.now ≤ 2 }
    requires had { AllCells (IsHad 0 (held_store (key_of key.now)))
        (record { store = core.old; part = part.old }) }
    ensures fits { Fits core.new part.new }
    ensures had { OnOk result (AllCells (IsHad 0 (held_store (key_of key.now)))
        (record { store = core.new; part = part.new })) }
{
    let write = Command::Write {
        path,
        offset: 0,
        bytes,
    };
    led(core, part, &write, key)
}

// A core with the subvolume a, whose file x has the two bytes of the base.
fn standing(alloc: Global, key: Key) -> Result<EditCore<Trace>, Stop>
    ensures had { IfOk result
        (λ core. AllCells (IsHad 0 (held_store (key_of key))) (start_of core)) }
{
    let mut core = EditCore::new(alloc);
    let mut part = None;
    begun(&mut core, &mut part, NAME, &key)?;
    made(&mut core, &mut part, PATH, &key)?;
    written(&mut core, &mut part, PATH, BYTES, &key)?;
    led(&mut core, &mut part, &Command::End, &key)?;
    Ok(core)
}

// The names of the files, and what was found in them.
#[derive(Clone, Copy)]
struct Found<'a> {
    alloc: Global,
    files: &'a [String],
    survey: &'a Survey,
}

// Composes over the base. Where all is done no read of it failed, and each failure has its cause.
fn over(
    found: &Found<'_>,
    core: EditCore<Trace>,
    bytes: &mut SilentBytes,
    inputs: &mut MemInputs,
    out: &mut MemSink,
) -> Outcome
    requires some { found.now.files.now ≢ [] }
    requires surveyed { IfAllTold (Some inputs.old.files) (map string_bytes found.now.files.now)
        (SurveyEnd [] (Ok found.now.survey.now)) }
    requires had { AllCells (IsHad 0 (held_store (key_of bytes.old.key))) (start_of core) }
    requires apart { is_among found.now.survey.now.parts bytes.old.key.uuid ≡ false }
    ensures steady { SteadyIfDone bytes.old.faults bytes.new.faults result }
    ensures cause { CausedAgain (counts 0 (inputs.old.faults + bytes.old.faults) out.old.faults)
        (counts 0 (inputs.new.faults + bytes.new.faults) out.new.faults) result }
{
    let known = Silent { key: bytes.key };
    let own = Overrides::none(found.alloc);
    let task = Task {
        alloc: found.alloc,
        files: found.files,
        survey: found.survey,
        overrides: &own,
        known: &known,
    };
    compose_over(&task, core, bytes, inputs, out)
}

// The two files.
fn two_files(alloc: Global) -> Result<MemInputs, AllocError> {
    let first = joined(alloc, FIRST)?;
    let second = joined(alloc, SECOND)?;
    let mut inputs = MemInputs::new(alloc);
    inputs.add("first", first.as_slice())?;
    inputs.add("second", second.as_slice())?;
    Ok(inputs)
}

// Surveys the two files, and composes them over the base.
fn surveyed(
    rt: &impl Abort,
    alloc: Global,
    bytes: &mut SilentBytes,
    inputs: &mut MemInputs,
    out: &mut MemSink,
) -> Result<Outcome, Fail> {
    let names = two_names(alloc)?;
    let core = standing(alloc, bytes.key)?;
    let Ok(seen) = survey(alloc, inputs, &names, &Overrides::none(alloc)) else {
        panic!(rt; "the files are not surveyed")
    };
    assert!(rt; !seen.has_part(bytes.key.uuid));
    let found = Found {
        alloc,
        files: &names,
        survey: &seen,
    };
    Ok(over(&found, core, bytes, inputs, out))
}

// Composes the two files over the base, of whose reads one fails; gives the outcome, what is
// written, and how often the base was read and failed.
fn composed(
    rt: &impl Abort,
    alloc: Global,
    failing: u64,
) -> Result<(Outcome, Vec<u8>, u64, u64), Fail> {
    let mut inputs = two_files(alloc)?;
    let mut out = MemSink::new(alloc);
    let mut bytes = SilentBytes {
        key: key(17, 1),
        failing,
        calls: 0,
        faults: 0,
    };
    let outcome = surveyed(rt, alloc, &mut bytes, &mut inputs, &mut out)?;
    let written = Vec::from_slice(alloc, out.bytes())?;
    Ok((outcome, written, bytes.calls, bytes.faults))
}

// The bytes that are read are written, whatever is held; and a read that fails ends the run.
#[test]
fn bytes_are_taken_as_they_are_read(rt: HostRuntime) -> Result<(), Fail> {
    let whole = joined(rt.alloc(), WHOLE)?;
    let (outcome, bytes, calls, faults) = composed(&rt, rt.alloc(), 0)?;
    same(&rt, (outcome, calls, faults), (Outcome::Done, 1, 0));
    same(&rt, bytes.as_slice(), whole.as_slice());
    let (outcome, bytes, calls, faults) = composed(&rt, rt.alloc(), 1)?;
    same(&rt, (outcome, calls, faults), (Outcome::InputFault, 1, 1));
    same(&rt, bytes.len() < whole.len(), true);
    Ok(())
}
