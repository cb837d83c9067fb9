// Explanations: what a person is told about a message, in one sentence each. They are put into the
// man page by `trials/manual.sh --write`, which knows the tables and the arms of `about_words` by
// their form. In a sentence that takes two lines, a backslash ends the first.

use crate::found::{Found, NoStream};
use crate::missing::NamedKey;
use crate::nearly::{
    have_no_form, have_no_guard, have_no_parent, is_guard_word, is_in_front, say_twice,
};
use file_disk::OpenStop;
use std::alloc::{AllocError, Global};
use std::io::ErrorKind;

const LIKE_THIS: &str =
    "the sender wrote an invalid command (this is no transmission damage): send the snapshot again \
    with --proto 1";

const COPY_AGAIN: &str = "the file is damaged: copy it again, or send the snapshot again";

const NO_FIT: &str =
    "the stream does not fit the parent snapshot that it names: send it again from the right \
    parent";

// About a refusal, by its name.
const REFUSALS: [(&str, &str); 36] = [
    (
        "BadMagic",
        "this is no send stream, or it is still compressed or encrypted, or it is a store, or a \
        side file such as btrbk's .info",
    ),
    (
        "BadVersion",
        "only protocol versions 1 and 2 are read: send the snapshot again with --proto 2, without \
        --compressed-data",
    ),
    (
        "Truncated",
        "the file is empty or ends inside a stream: copy it again, or send the snapshot again; if \
        it is a part of a stream that was split, join the parts with cat first",
    ),
    ("LongCommand", COPY_AGAIN),
    ("BadChecksum", COPY_AGAIN),
    ("UnknownCommand", LIKE_THIS),
    ("BadAttribute", LIKE_THIS),
    ("MissingAttribute", LIKE_THIS),
    ("NoSubvolume", LIKE_THIS),
    (
        "BadName",
        "the name of the snapshot is not valid: write name:NEW in front of the file, with a valid \
        name",
    ),
    (
        "NameThere",
        "a snapshot of this name is there already: leave out what is given twice, or write \
        name:NEW in front of the file",
    ),
    (
        "UuidThere",
        "the same snapshot was sent twice: leave one of the two streams out",
    ),
    (
        "NoParent",
        "the parent snapshot is missing: give the streams in the order in which they were sent",
    ),
    ("BadPath", LIKE_THIS),
    ("NoEntry", NO_FIT),
    ("NotDirectory", NO_FIT),
    ("EntryThere", NO_FIT),
    ("IsDirectory", NO_FIT),
    ("NotEmpty", NO_FIT),
    ("IntoItself", NO_FIT),
    ("NotFile", NO_FIT),
    ("BadXattr", LIKE_THIS),
    ("NoXattr", NO_FIT),
    ("BadDevice", LIKE_THIS),
    ("BadTime", LIKE_THIS),
    ("IsRoot", LIKE_THIS),
    ("FileTooBig", LIKE_THIS),
    (
        "NoSource",
        "a clone takes its data from a snapshot that is missing: give the streams of that one \
        first",
    ),
    ("BadRange", NO_FIT),
    ("Unaligned", LIKE_THIS),
    ("Overlap", LIKE_THIS),
    (
        "Encoded",
        "send the snapshot again without --compressed-data",
    ),
    (
        "Guarded",
        "a guard refuses it: raise the limit, or do not receive the stream",
    ),
    ("BadFallocate", LIKE_THIS),
    (
        "NotConsecutive",
        "this snapshot is not based on the one before it: if these are two chains, merge each \
        alone; else leave out the streams that the last snapshot does not need",
    ),
    (
        "BadText",
        "each line has to be as `text` prints it: all fields of the command in their order, each \
        value in its one form, and END last",
    ),
];

// About the other messages, by how they begin.
const NOTES: [(&[u8], &str); 10] = [
    (
        b"output fault",
        "standard output could not be written: its contents are incomplete",
    ),
    (
        b"not a store 0",
        "this is no store: `init` makes a new one; if it is a stream, write `none` in front of it",
    ),
    (
        b"not a store",
        "something else changed the store: copy it, and receive into a new store",
    ),
    (
        b"no memory",
        "there was not enough memory: nothing more was done",
    ),
    (
        b"missing",
        "`list` and `show` print the names that there are",
    ),
    (
        b"too much",
        "merge the chain only up to an earlier snapshot, or receive the streams one after the \
        other",
    ),
    (b"log full", "the store has no room: begin a new one"),
    (b"input too long", "it has 2^62 bytes or more"),
    (
        b"store there",
        "something is there already, and was left as it is",
    ),
    (
        b"input changed",
        "it was changed meanwhile: merge again when nothing writes to it",
    ),
];

const DAMAGED: &str = "bytes have changed on the disk: copy the store, and receive into a new one";

/// What to do about a refusal of this name, none where there is nothing to say.
pub(crate) fn about_refusal(name: &[u8]) -> Option<&'static str> {
    for (refusal, advice) in REFUSALS {
        if refusal.as_bytes() == name {
            return Some(advice);
        }
    }
    None
}

/// What arguments that are not understood may have meant.
///
/// # Errors
/// There is no memory.
pub(crate) fn about_words(alloc: Global, words: &[String]) -> Result<&'static str, AllocError> {
    Ok(match words {
        [] => "no command, or an argument that is not valid UTF-8: --help lists the commands",
        [word] if matches!(word.as_str(), "-h" | "help" | "-help" | "-?") => {
            "the option for help is --help"
        }
        [word] if matches!(word.as_str(), "-V" | "-v" | "version") => {
            "the option for the version is --version"
        }
        [word, _] if takes_none(word.as_str()) => {
            "a STORE comes before the files, or none if the first stream is a full one"
        }
        [word, _] if word.as_str() == "receive" => "a STORE comes before the files",
        words => about_forms(words, have_no_parent(alloc, words)?),
    })
}

// What is wrong with the form of some of them. `no_parent` says whether one begins as a parent and
// is none.
fn about_forms(words: &[String], no_parent: bool) -> &'static str {
    match words {
        words if have_no_guard(words) => {
            "a guard is guard:bytes=N, guard:commands=N, guard:end=N or guard:nodev"
        }
        words if have_no_form(words) => {
            "after escaped: write a name as `list` and `show` print it: a backslash, x and two of \
            0-9 a-f for each byte that is not visible"
        }
        _ if no_parent => {
            "after parent: write a UUID and a CTRANSID as `list` prints a PARENT: small letters, \
            hyphens, a colon and a number"
        }
        words if say_twice(words) => {
            "in front of one file there can be one name:NEW, and one parent: for each UUID"
        }
        [.., word] if is_in_front(word.as_str()) => {
            "name:NEW and parent:UUID:CTRANSID come before the file that they are for"
        }
        _ => "these arguments are not understood: --help lists the commands",
    }
}

/// What to do about a file that could not be read, by the kind of the system's reason. `again` says
/// whether the command reads each file twice.
pub(crate) fn about_input(name: &str, reason: Option<ErrorKind>, again: bool) -> &'static str {
    match reason {
        Some(ErrorKind::NotFound) if is_guard_word(name) => "guards come before the store",
        Some(ErrorKind::NotFound) if is_in_front(name) => {
            "only the files of audit, compose, export and receive have name: and parent: in front"
        }
        Some(ErrorKind::NotFound) if name == "-" => "write /dev/stdin for standard input",
        Some(ErrorKind::NotFound) => "check the path",
        Some(ErrorKind::PermissionDenied) => "run btrsend as a user who may read it",
        Some(ErrorKind::IsADirectory) => {
            "it is a folder: give the files in it, in the order in which they were sent"
        }
        Some(ErrorKind::NotSeekable) if again => {
            "`compose` and `squash` read each file twice: unpack it into a file first"
        }
        Some(ErrorKind::NotSeekable) => "give a pipe only once",
        _ => "give it again when it can be read",
    }
}

/// What to do about a store that could not be opened, by why, or whose device failed.
pub(crate) fn about_store(words: &[String], why: Option<&OpenStop>) -> &'static str {
    match why {
        Some(OpenStop::InUse) => "wait until that program has ended",
        Some(OpenStop::NotFile) => "a store is a regular file, which `init` makes",
        Some(OpenStop::TooLarge) => "this is no store",
        Some(OpenStop::System(reason)) => about_unopened(words, reason.kind()),
        None => "see to the disk; then look at `list`",
    }
}

// The same, by the kind of the system's reason.
fn about_unopened(words: &[String], reason: ErrorKind) -> &'static str {
    match (words, reason) {
        ([word, ..], ErrorKind::NotFound) if word.as_str() == "init" => "make its folder first",
        ([_, store, ..], ErrorKind::NotFound) if is_guard_word(store.as_str()) => {
            "only audit, receive and interleave take guards"
        }
        ([word, ..], ErrorKind::NotFound) if takes_none(word.as_str()) => {
            "`init` makes a store; without one write `none` in front of the files"
        }
        (_, ErrorKind::NotFound) => "`init` makes a store",
        (_, ErrorKind::PermissionDenied) => "run btrsend as a user who may use it",
        _ => "see to the disk; then look at `list`",
    }
}

// Whether a command takes `none` for a store.
fn takes_none(word: &str) -> bool {
    matches!(word, "audit" | "compose" | "export")
}

/// What to do about what was found out, if that says it.
pub(crate) fn about_found(words: &[String], found: Found) -> Option<&'static str> {
    match found {
        Found::NoStream(what) => Some(about_no_stream(what)),
        Found::StreamAsStore => Some(about_no_store(words)),
        Found::StreamAsText => Some(STREAM_AS_TEXT),
        Found::NoHeader => Some(NO_HEADER),
        Found::Begun => Some(BEGUN),
        Found::Unfinished => Some(UNFINISHED),
        Found::Nothing | Found::Missing(_) | Found::Restored(..) => None,
    }
}

// About a file that is no stream.
fn about_no_stream(what: NoStream) -> &'static str {
    match what {
        NoStream::Store => {
            "this is a store and no stream: `send` writes a snapshot of it as a stream"
        }
        NoStream::Compressed => "this is compressed: unpack it first",
        NoStream::SideFile => "this is a side file, such as btrbk's .info: leave it out",
        NoStream::Behind => {
            "something else follows the streams in this file: cut it off with `head -c` at the \
            message's third number"
        }
    }
}

// About a stream that is given as a store.
fn about_no_store(words: &[String]) -> &'static str {
    match words {
        [word, ..] if takes_none(word.as_str()) => {
            "this is a stream and no store: write `none` in front of it"
        }
        _ => "this is a stream and no store: `init` makes a store, and `receive` fills it",
    }
}

const STREAM_AS_TEXT: &str = "this is a stream and no text: `text` prints it as one";

const NO_HEADER: &str = "a text begins with the line `stream 1` or `stream 2`";

const BEGUN: &str =
    "the snapshot that it names is unfinished in the store: `drop` it, and receive its stream \
    again";

const UNFINISHED: &str = "this snapshot is unfinished: `drop` it, and receive its stream again";

/// What to do about a snapshot that is missing, if the store has one with its UUID and another
/// CTRANSID.
///
/// # Errors
/// There is no memory.
pub(crate) fn about_restored(
    alloc: Global,
    named: NamedKey,
    stored: u64,
) -> Result<String, AllocError> {
    let NamedKey { uuid, ctransid } = named;
    format!(in alloc;
        "it names {uuid} with CTRANSID {ctransid}; a snapshot with this UUID and \
        CTRANSID {stored} is in the store; if it is the same one, restored, put \
        parent:{uuid}:{stored} before the file"
    )
}

/// What is said where standard output, a terminal, would get a stream.
pub(crate) const TO_A_TERMINAL: &str =
    "standard output is a terminal, and a stream is binary data: write it to a file or into a pipe";

/// What is said where standard output is one of the files that a stream is made of.
pub(crate) const TO_ITSELF: &str =
    "standard output is one of the files that are read: write the stream to another file";

/// What is said where standard output is the file of the store.
pub(crate) const TO_THE_STORE: &str =
    "standard output is the store itself: write to another file or into a pipe";

/// What to do about another message.
pub(crate) fn about_note(note: &[u8]) -> Option<&'static str> {
    for (begins, advice) in NOTES {
        if note.starts_with(begins) {
            return Some(advice);
        }
    }
    if note.starts_with(b"damaged") {
        return Some(DAMAGED);
    }
    None
}
