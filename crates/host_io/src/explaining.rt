// The explanation of a message, for people: which file it is about, the system's reason, and what
// to do.
use crate::advice::{
    about_found, about_input, about_note, about_refusal, about_restored, about_store, about_words,
};
use crate::found::{
    Asked, Found, find_key, find_name, find_no_store, find_no_stream, find_no_text,
};
use crate::kept_notes::{KeptNotes, word_of};
use crate::named_files::{file_named, store_named};
use crate::path_inputs::PathInputs;
use crate::statuses::{INPUT_FAULT, MISSING, NOT_STORE, REFUSED, STORE_FAULT, USAGE};
use command_line::{How, Request};
use file_disk::OpenStop;
use guard_rules::number_of;
use std::alloc::{AllocError, Global};
use std::env;
use std::fs::{File, Files};
use std::io::IsTerminal;
use stream_dump::push_uuid;
use sx_base::{Blob, Sink, escape_into, write_whole};

/// A run that is over: its words, its status, and why the store could not be opened, if it could
/// not.
#[derive(Debug, Clone, Copy)]
pub(crate) struct EndedRun<'a> {
    pub(crate) asked: Asked<'a>,
    pub(crate) status: u8,
    pub(crate) why: Option<&'a OpenStop>,
}

/// Whether explanations are wanted: standard error is a terminal, or the variable BTRSEND_EXPLAIN
/// is set.
pub(crate) fn is_wanted(rt: &HostRuntime) -> bool {
    rt.stderr().is_terminal() || env::var(rt, "BTRSEND_EXPLAIN").is_ok()
}

/// Writes the explanation behind the message, if there is a message. The files and the store, which
/// must not be open any more to be written to, may be read again for it. Faults of these and of the
/// notes, and want of memory, are passed over.
pub(crate) fn explain<R: Files<File = File>, N: Sink>(
    ended: EndedRun<'_>,
    inputs: &PathInputs<'_, R>,
    notes: &mut KeptNotes<N>,
) {
    if notes.note().is_empty() {
        return;
    }
    if let Ok(line) = line_about(ended, inputs, notes.note()) {
        let _ = write_whole(notes.inner(), line.as_slice());
    }
}

// The line about a note.
fn line_about<R: Files<File = File>>(
    ended: EndedRun<'_>,
    inputs: &PathInputs<'_, R>,
    note: &[u8],
) -> Result<Blob, AllocError> {
    let asked = ended.asked;
    let files = inputs.files();
    let mut line = Blob::new(asked.alloc);
    line.push_all(b"btrsend: ")?;
    match ended.status {
        REFUSED => {
            let found = found_refused(files, asked, note);
            push_refused(asked, note, &found, &mut line)?;
        }
        USAGE => push_usage(asked, &mut line)?,
        INPUT_FAULT => push_input_fault(asked, inputs, &mut line)?,
        STORE_FAULT => push_store_fault(ended, &mut line)?,
        NOT_STORE => {
            let found = find_no_store(files, asked);
            push_store_name(asked, &mut line)?;
            push_found(asked.words, note, &found, &mut line)?;
        }
        MISSING => {
            let found = find_name(files, asked, note);
            push_found(asked.words, note, &found, &mut line)?;
        }
        _ => push_other(asked, note, &mut line)?,
    }
    line.push_all(b"\n")?;
    Ok(line)
}

// What is found out about a refusal.
fn found_refused<R: Files<File = File>>(files: &R, asked: Asked<'_>, note: &[u8]) -> Found {
    match word_of(note, 5) {
        b"NoParent" | b"NoSource" => find_key(files, asked, note),
        b"BadMagic" => find_no_stream(files, asked, note),
        b"BadText" => find_no_text(files, asked, note),
        _ => Found::Nothing,
    }
}

// Which command of which file is refused, and what to do about it.
fn push_refused(
    asked: Asked<'_>,
    note: &[u8],
    found: &Found,
    line: &mut Blob,
) -> Result<(), AllocError> {
    push_file(word_of(note, 1), asked, line)?;
    line.push_all(part_of(word_of(note, 5)))?;
    line.push_all(word_of(note, 2))?;
    line.push_all(b": ")?;
    match found {
        Found::Restored(key, stored) => {
            let said = about_restored(asked.alloc, *key, *stored)?;
            line.push_all(said.as_bytes())
        }
        Found::Missing(key) => {
            push_found(asked.words, note, found, line)?;
            line.push_all(b"; its UUID is ")?;
            push_uuid(&key.uuid, line)
        }
        found => push_found(asked.words, note, found, line),
    }
}

// What arguments that are not understood may have meant.
fn push_usage(asked: Asked<'_>, line: &mut Blob) -> Result<(), AllocError> {
    let said = about_words(asked.alloc, asked.words)?;
    line.push_all(said.as_bytes())
}

// What a refusal counts in a file: the lines of a text, and the commands of streams.
fn part_of(refusal: &[u8]) -> &'static [u8] {
    match refusal {
        b"BadText" => b", line ",
        _ => b", command ",
    }
}

// Whether each file is read twice.
fn reads_twice(request: Option<&Request<'_>>) -> bool {
    match request {
        Some(request) => request.reading() == How::Twice,
        None => false,
    }
}

// Which file could not be read, the system's reason, and what to do about it.
fn push_input_fault<R: Files>(
    asked: Asked<'_>,
    inputs: &PathInputs<'_, R>,
    line: &mut Blob,
) -> Result<(), AllocError> {
    let again = reads_twice(asked.request);
    let Some(reason) = inputs.failed_reason() else {
        return line.push_all(about_input("", None, again).as_bytes());
    };
    let name = inputs.failed_name().unwrap_or("");
    let said = format!(in asked.alloc; "{reason}")?;
    push_reason(name, said.as_str(), line)?;
    line.push_all(about_input(name, Some(reason.kind()), again).as_bytes())
}

// Why the store could not be opened, or that its device failed, and what to do about it.
fn push_store_fault(ended: EndedRun<'_>, line: &mut Blob) -> Result<(), AllocError> {
    let asked = ended.asked;
    let said = store_reason(asked.alloc, ended.why)?;
    push_reason(
        store_named(asked.request).unwrap_or(""),
        said.as_str(),
        line,
    )?;
    line.push_all(about_store(asked.words, ended.why).as_bytes())
}

fn store_reason(alloc: Global, why: Option<&OpenStop>) -> Result<String, AllocError> {
    match why {
        Some(OpenStop::System(reason)) => format!(in alloc; "{reason}"),
        Some(why) => format!(in alloc; "{why}"),
        None => String::from_str(alloc, "its device failed"),
    }
}

// A name, and what the system said of it.
fn push_reason(name: &str, reason: &str, line: &mut Blob) -> Result<(), AllocError> {
    escape_into(name.as_bytes(), line)?;
    line.push_all(b": ")?;
    line.push_all(reason.as_bytes())?;
    line.push_all(b"; ")
}

// What to do about a note: by what was found out about it, or else by its name or its beginning.
fn push_found(
    words: &[String],
    note: &[u8],
    found: &Found,
    line: &mut Blob,
) -> Result<(), AllocError> {
    let advice = match about_found(words, *found) {
        Some(advice) => advice,
        None => about_any(note),
    };
    line.push_all(advice.as_bytes())
}

// What there is to say of a note.
fn about_any(note: &[u8]) -> &'static str {
    match word_of(note, 0) {
        b"refused" => about_refusal(word_of(note, 5)).unwrap_or(""),
        _ => about_note(note).unwrap_or(""),
    }
}

// What another note speaks of, and what to do about it.
fn push_other(asked: Asked<'_>, note: &[u8], line: &mut Blob) -> Result<(), AllocError> {
    if note.starts_with(b"input too long ") {
        push_file(word_of(note, 3), asked, line)?;
        line.push_all(b": ")?;
    } else if note.starts_with(b"input changed ") {
        push_file(word_of(note, 2), asked, line)?;
        line.push_all(b": ")?;
    } else if is_about_store(note) {
        push_store_name(asked, line)?;
    }
    push_found(asked.words, note, &Found::Nothing, line)
}

// Whether a note speaks of the store.
fn is_about_store(note: &[u8]) -> bool {
    note.starts_with(b"log full ")
        || note.starts_with(b"store there ")
        || note.starts_with(b"damaged ")
}

// The name of the store, if there is one.
fn push_store_name(asked: Asked<'_>, line: &mut Blob) -> Result<(), AllocError> {
    let Some(name) = store_named(asked.request) else {
        return Ok(());
    };
    escape_into(name.as_bytes(), line)?;
    line.push_all(b": ")
}

// The name of the file of a number, which is counted from 1.
fn push_file(number: &[u8], asked: Asked<'_>, line: &mut Blob) -> Result<(), AllocError> {
    let Some(number) = number_of(number) else {
        return Ok(());
    };
    match file_named(asked.request, number) {
        Some(name) => escape_into(name.as_bytes(), line),
        None => Ok(()),
    }
}
