// What is found in the files and in the store of a run that failed, for its explanation.
use crate::kept_notes::word_of;
use crate::missing::{NamedKey, key_refused};
use crate::named_files::{bytes_of, file_named, store_named};
use crate::path_inputs::PathInputs;
use crate::stored::StoredList;
use command_line::{How, Request};
use escaped_words::meant_by;
use guard_rules::number_of;
use std::alloc::Global;
use std::fs::{File, Files};
use sx_base::{Blob, Inputs, escape_into};

// So many bytes at the front of a file are looked at.
const FRONT: usize = 16;

// What a stream begins with.
const STREAM: &[u8] = b"btrfs-stream\0";

// What files begin with that are no streams, and what they are.
const FRONTS: [(&[u8], NoStream); 8] = [
    (b"sndstore", NoStream::Store),
    (b"\x28\xB5\x2F\xFD", NoStream::Compressed),
    (b"\x1F\x8B", NoStream::Compressed),
    (b"\xFD7zXZ\0", NoStream::Compressed),
    (b"BZh", NoStream::Compressed),
    (b"\x04\x22\x4D\x18", NoStream::Compressed),
    (b"LZIP", NoStream::Compressed),
    (b"\x89LZO", NoStream::Compressed),
];

/// What is found out about a message.
#[derive(Debug, Clone, Copy, PartialEq, Eq)]
pub(crate) enum Found {
    /// Nothing.
    Nothing,
    /// What a file is that is no stream.
    NoStream(NoStream),
    /// The store is a stream.
    StreamAsStore,
    /// The text is a stream.
    StreamAsText,
    /// A text does not begin as one.
    NoHeader,
    /// The parent or the source that is missing.
    Missing(NamedKey),
    /// The store has it with this CTRANSID.
    Restored(NamedKey, u64),
    /// The store has it, and it is unfinished there.
    Begun,
    /// The snapshot that is asked for is unfinished.
    Unfinished,
}

/// What a file is that is no stream.
#[derive(Debug, Clone, Copy, PartialEq, Eq)]
pub(crate) enum NoStream {
    /// It is a store.
    Store,
    /// It is compressed.
    Compressed,
    /// Its name is that of a side file.
    SideFile,
    /// It has whole streams, and something else behind them.
    Behind,
}

/// The words of a run, what they ask for, and where memory comes from.
#[derive(Debug, Clone, Copy)]
pub(crate) struct Asked<'a> {
    pub(crate) alloc: Global,
    pub(crate) words: &'a [String],
    pub(crate) request: Option<&'a Request<'a>>,
}

/// What is found out about a parent or a source that is missing: what the command names, and what
/// the store has.
pub(crate) fn find_key<R: Files<File = File>>(files: &R, asked: Asked<'_>, note: &[u8]) -> Found {
    let Some(key) = key_refused(files, asked.alloc, asked.request, note) else {
        return Found::Nothing;
    };
    if takes_turns(asked.request) {
        return Found::Missing(key);
    }
    let Some(list) = StoredList::of(files, asked.alloc, store_named(asked.request)) else {
        return Found::Missing(key);
    };
    if list.begun(key.uuid) {
        return Found::Begun;
    }
    match list.ctransid_of(key.uuid) {
        Some(stored) if stored != key.ctransid => Found::Restored(key, stored),
        _ => Found::Missing(key),
    }
}

// Whether files take turns, of which nothing can be said in front.
fn takes_turns(request: Option<&Request<'_>>) -> bool {
    match request {
        Some(request) => request.reading() == How::InTurns,
        None => false,
    }
}

/// What is found out about a file that is no stream where one should begin.
pub(crate) fn find_no_stream<R: Files>(files: &R, asked: Asked<'_>, note: &[u8]) -> Found {
    if word_of(note, 3) != b"0".as_slice() {
        return Found::NoStream(NoStream::Behind);
    }
    match no_stream_in(files, asked, note) {
        Some(what) => Found::NoStream(what),
        None => Found::Nothing,
    }
}

// What the file is that a note names, if that can be told.
fn no_stream_in<R: Files>(files: &R, asked: Asked<'_>, note: &[u8]) -> Option<NoStream> {
    let name = file_named(asked.request, number_of(word_of(note, 1))?)?;
    if name.as_bytes().ends_with(b".info") {
        return Some(NoStream::SideFile);
    }
    let front = Front::of(files, asked.alloc, name)?;
    for (begins, what) in FRONTS {
        if front.as_slice().starts_with(begins) {
            return Some(what);
        }
    }
    None
}

/// What is found out about a text of which a line is wrong.
pub(crate) fn find_no_text<R: Files>(files: &R, asked: Asked<'_>, note: &[u8]) -> Found {
    if word_of(note, 2) != b"1".as_slice() {
        return Found::Nothing;
    }
    match is_stream(files, asked, file_named(asked.request, 1)) {
        Some(true) => Found::StreamAsText,
        _ => Found::NoHeader,
    }
}

/// What is found out about a store that is none.
pub(crate) fn find_no_store<R: Files>(files: &R, asked: Asked<'_>) -> Found {
    match is_stream(files, asked, store_named(asked.request)) {
        Some(true) => Found::StreamAsStore,
        _ => Found::Nothing,
    }
}

// Whether the file of a name begins as a stream.
fn is_stream<R: Files>(files: &R, asked: Asked<'_>, name: Option<&str>) -> Option<bool> {
    let front = Front::of(files, asked.alloc, name?)?;
    Some(front.as_slice().starts_with(STREAM))
}

// The first bytes of a file.
#[derive(Debug, Clone, Copy)]
struct Front {
    bytes: [u8; FRONT],
    count: usize,
}

impl Front {
    // Those of a file of this name, where it is a regular one.
    fn of<R: Files>(files: &R, alloc: Global, name: &str) -> Option<Front> {
        bytes_of(files, name)?;
        let mut inputs = PathInputs::new(files, alloc);
        let mut bytes = [0; FRONT];
        let count = inputs.read_at(name, 0, &mut bytes).ok()?;
        Some(Front { bytes, count })
    }

    fn as_slice(&self) -> &[u8] {
        &self.bytes[..self.count.min(FRONT)]
    }
}

/// What is found out about a name that the store has not, or not complete.
pub(crate) fn find_name<R: Files<File = File>>(files: &R, asked: Asked<'_>, note: &[u8]) -> Found {
    let name = word_of(note, 1);
    if !is_whole(note) || !is_asked_for(asked, name) {
        return Found::Nothing;
    }
    match StoredList::of(files, asked.alloc, store_named(asked.request)) {
        Some(list) if list.begun_as(name) => Found::Unfinished,
        _ => Found::Nothing,
    }
}

// Whether a note was remembered to its end.
fn is_whole(note: &[u8]) -> bool {
    note.ends_with(b"\n")
}

// Whether the name that words ask for is printed so.
fn is_asked_for(asked: Asked<'_>, name: &[u8]) -> bool {
    let [_, _, word, ..] = asked.words else {
        return false;
    };
    match printed(asked.alloc, word.as_bytes()) {
        Some(printed) => printed.as_slice() == name,
        None => false,
    }
}

// The name that a word means, as it is printed.
fn printed(alloc: Global, word: &[u8]) -> Option<Blob> {
    let name = meant_by(alloc, word).ok()??;
    let mut printed = Blob::new(alloc);
    escape_into(name.as_slice(), &mut printed).ok()?;
    Some(printed)
}
