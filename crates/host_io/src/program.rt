// From the system's arguments, files and streams to the call that does the work.
use crate::barred_inputs::BarredInputs;
use crate::barred_output::{BarredOutput, BarredSink, barred_output};
use crate::disk_progress::DiskProgress;
use crate::explaining::{EndedRun, explain, is_wanted};
use crate::found::Asked;
use crate::help::{HELP, VERSION};
use crate::kept_notes::KeptNotes;
use crate::named_files::{all_bytes, bytes_of, file_named, store_named};
use crate::no_disk::NoDisk;
use crate::opening::{Opened, changes_store, open_store};
use crate::out_sink::OutSink;
use crate::path_inputs::PathInputs;
use crate::progress::{Progress, millis_of};
use crate::screen::{AfterLine, Screen, end_line};
use crate::standard_files::StandardFiles;
use crate::statuses::{DONE, INPUT_FAULT, OUTPUT_FAULT};
use command_line::{Request, parse};
use file_disk::OpenStop;
use guard_rules::Guard;
use send_top::{Answer, run, status, write_note};
use std::alloc::{AllocError, Global};
use std::cell::RefCell;
use std::io::{ErrorKind, IsTerminal};
use std::process::ExitCode;
use std::{env, io};
use sx_base::{Disk, Inputs, MemSink, Outcome, Sink, write_whole};

/// Does what the words after the program's name ask for, over the files and standard streams of the
/// system, and gives the status to end with. A lone `--help` or `--version` is answered here. A
/// standard stream that is closed fails as one that cannot be written, and no file takes its place.
pub fn start(rt: &HostRuntime) -> ExitCode {
    let held = StandardFiles::hold(rt);
    let mut out = OutSink::new(rt.stdout());
    let mut notes = KeptNotes::new(OutSink::new(rt.stderr()));
    if held.is_err() {
        return answered(&Answer::Ended(Outcome::OutputFault), &mut notes);
    }
    let words = match words_of(rt) {
        Ok(words) => words,
        Err(error) if error.kind() == ErrorKind::OutOfMemory => {
            return answered(&Answer::Ended(Outcome::NoMemory), &mut notes);
        }
        // Some word is no text, so the words mean nothing.
        Err(_) => Vec::new(rt.alloc()),
    };
    if let Some(text) = text_for(&words) {
        return match write_whole(&mut out, text.as_bytes()) {
            Ok(()) => ExitCode::SUCCESS,
            Err(_) => answered(&Answer::Ended(Outcome::OutputFault), &mut notes),
        };
    }
    let request = parse(&words);
    let asked = Asked {
        alloc: rt.alloc(),
        words: &words,
        request: request.as_ref(),
    };
    let ran = match barred_output(rt, asked.request) {
        None => run_over(rt, asked, &mut out, &mut notes),
        Some(why) => run_barred(rt, asked, why, &mut notes),
    };
    match ran {
        Ok(status) => ExitCode::from(status),
        Err(AllocError) => answered(&Answer::Ended(Outcome::NoMemory), &mut notes),
    }
}

// Runs the words over the store that they name.
fn run_over<O: Sink, N: Sink>(
    rt: &HostRuntime,
    asked: Asked<'_>,
    out: &mut O,
    notes: &mut KeptNotes<N>,
) -> Result<u8, AllocError> {
    match open_store(rt, asked.request) {
        Opened::Disk(disk) => run_on(rt, asked, out, notes, disk, None),
        Opened::NoStore => run_on(rt, asked, out, notes, NoDisk::new(), None),
        Opened::Stopped(why) => run_on(rt, asked, out, notes, NoDisk::new(), Some(why)),
    }
}

// Answers words whose output is barred: what is wrong with the words, the store or the snapshot
// comes first. Nothing is read of the files, and nothing is changed.
fn run_barred<N: Sink>(
    rt: &HostRuntime,
    asked: Asked<'_>,
    why: BarredOutput,
    notes: &mut KeptNotes<N>,
) -> Result<u8, AllocError> {
    match open_store(rt, asked.request) {
        Opened::Disk(_) if changes_store(asked.request) => Ok(bar(why, notes)),
        Opened::Disk(disk) => run_unread(rt, asked, why, notes, disk, None),
        Opened::NoStore => run_unread(rt, asked, why, notes, NoDisk::new(), None),
        Opened::Stopped(stop) => run_unread(rt, asked, why, notes, NoDisk::new(), Some(stop)),
    }
}

// Runs words that change no store without files and without an output. If they end because of that,
// the answer is that the output is barred; else it is what the run says.
fn run_unread<N: Sink, D: Disk + Drop>(
    rt: &HostRuntime,
    asked: Asked<'_>,
    why: BarredOutput,
    notes: &mut KeptNotes<N>,
    disk: D,
    stop: Option<OpenStop>,
) -> Result<u8, AllocError> {
    let mut inputs = BarredInputs::new();
    let mut out = BarredSink::new();
    let mut said = MemSink::new(asked.alloc);
    let status = run_and_close(asked, &mut inputs, &mut out, &mut said, disk)?;
    if let DONE | INPUT_FAULT | OUTPUT_FAULT = status {
        return Ok(bar(why, notes));
    }
    let _ = write_whole(notes, said.bytes());
    if is_wanted(rt) {
        let ended = EndedRun {
            asked,
            status,
            why: stop.as_ref(),
        };
        explain(ended, &PathInputs::new(rt, asked.alloc), notes);
    }
    Ok(status)
}

// Answers that standard output may not be written, and says why.
fn bar<N: Sink>(why: BarredOutput, notes: &mut KeptNotes<N>) -> u8 {
    let answer = Answer::Ended(Outcome::OutputFault);
    let _ = write_note(&answer, notes);
    let _ = write_whole(notes, b"btrsend: ");
    let _ = write_whole(notes, why.advice().as_bytes());
    let _ = write_whole(notes, b"\n");
    status(&answer)
}

// Runs the words over the files of the system and a disk. If the store could not be opened, `why`
// says why.
fn run_on<O: Sink, N: Sink, D: Disk + Drop>(
    rt: &HostRuntime,
    asked: Asked<'_>,
    out: &mut O,
    notes: &mut KeptNotes<N>,
    disk: D,
    why: Option<OpenStop>,
) -> Result<u8, AllocError> {
    if let Some(shown) = what_to_show(rt, asked) {
        return run_shown(rt, asked, shown, disk, why);
    }
    let mut inputs = PathInputs::new(rt, asked.alloc);
    let status = run_and_close(asked, &mut inputs, out, notes, disk)?;
    if is_wanted(rt) {
        let ended = EndedRun {
            asked,
            status,
            why: why.as_ref(),
        };
        explain(ended, &inputs, notes);
    }
    Ok(status)
}

// Runs the words over a disk, which is closed then, under the guards that they give.
fn run_and_close<I: Inputs, O: Sink, N: Sink, D: Disk + Drop>(
    asked: Asked<'_>,
    inputs: &mut I,
    out: &mut O,
    notes: &mut N,
    disk: D,
) -> Result<u8, AllocError> {
    let mut disk = disk;
    let mut guards: Vec<Box<dyn Guard>> = Vec::new(asked.alloc);
    if let Some(request) = asked.request {
        for guard in request.guards().new_guards(asked.alloc)? {
            guards.push(Box::new(asked.alloc, guard)?)?;
        }
    }
    Ok(run(
        asked.alloc,
        asked.words,
        guards,
        inputs,
        out,
        notes,
        &mut disk,
    ))
}

// What a run that says how far it is begins with.
#[derive(Drop)]
struct Shown {
    // The time at its start.
    began: u64,
    // The name of the file that each pass reads first, empty where none is read.
    first: String,
    // The name of the store, empty where none is opened.
    store: String,
}

// Runs the words, and shows meanwhile on standard error, a terminal, how far the run is.
fn run_shown<D: Disk + Drop>(
    rt: &HostRuntime,
    asked: Asked<'_>,
    shown: Shown,
    disk: D,
    why: Option<OpenStop>,
) -> Result<u8, AllocError> {
    let Shown {
        began,
        first,
        store,
    } = shown;
    let alloc = asked.alloc;
    let screen = RefCell::new(Screen::new(OutSink::new(rt.stderr()), began));
    let all = bytes_asked(rt, asked);
    let files = PathInputs::new(rt, alloc);
    let mut inputs = Progress::new(files, rt, &screen, alloc, first, all);
    let size = bytes_of(rt, store.as_str());
    let disk = DiskProgress::new(disk, rt, &screen, alloc, store, size);
    let mut notes = KeptNotes::new(AfterLine::new(OutSink::new(rt.stderr()), &screen));
    let status = if rt.stdout().is_terminal() {
        let mut out = AfterLine::new(OutSink::new(rt.stdout()), &screen);
        run_and_close(asked, &mut inputs, &mut out, &mut notes, disk)?
    } else {
        let mut out = OutSink::new(rt.stdout());
        run_and_close(asked, &mut inputs, &mut out, &mut notes, disk)?
    };
    end_line(&screen);
    let ended = EndedRun {
        asked,
        status,
        why: why.as_ref(),
    };
    explain(ended, inputs.inputs(), &mut notes);
    Ok(status)
}

// What to begin with if standard error is a terminal; nothing if there is no clock or no memory,
// and for words that name neither a file nor a store.
fn what_to_show(rt: &HostRuntime, asked: Asked<'_>) -> Option<Shown> {
    if !rt.stderr().is_terminal() {
        return None;
    }
    let began = millis_of(rt)?;
    let first = file_named(asked.request, 1).unwrap_or("");
    let store = store_named(asked.request).unwrap_or("");
    if first.is_empty() && store.is_empty() {
        return None;
    }
    Some(Shown {
        began,
        first: String::from_str(asked.alloc, first).ok()?,
        store: String::from_str(asked.alloc, store).ok()?,
    })
}

// The bytes of all files that are read, if they are known.
fn bytes_asked(rt: &HostRuntime, asked: Asked<'_>) -> Option<u64> {
    all_bytes(rt, asked.request?)
}

// The words after the program's name. An error where there is no memory, or a word is not UTF-8.
fn words_of(rt: &HostRuntime) -> io::Result<Vec<String>> {
    Ok(env::args(rt)?.skip(1).collect(rt.alloc())?)
}

// The text that a lone word asks for.
fn text_for(words: &[String]) -> Option<&'static str> {
    let [word] = words else {
        return None;
    };
    match word.as_str() {
        "--help" => Some(HELP),
        "--version" => Some(VERSION),
        _ => None,
    }
}

fn answered<N: Sink>(answer: &Answer, notes: &mut N) -> ExitCode {
    let _ = write_note(answer, notes);
    ExitCode::from(status(answer))
}
