// What the words of a call ask for.
use crate::count::Count;
use crate::file_arguments::{FileArgument, FileArguments};
use crate::guard_arguments::GuardArguments;
use crate::turn_arguments::TurnArguments;
use crate::word::Word;

/// What the first stream of a chain may build on.
#[derive(Debug, Clone, Copy, PartialEq, Eq)]
pub enum Base<'a> {
    /// Nothing.
    Nothing,
    /// The snapshots of a store, in the file of this name.
    InStore { store: &'a str },
}

/// What the words of a call ask for: a command, with its arguments.
#[derive(Debug, Drop)]
pub enum Request<'a> {
    /// The streams of some files are to be merged into one.
    Compose {
        base: Base<'a>,
        files: FileArguments<'a>,
    },
    /// The streams of some files are to be checked under guards.
    Audit {
        guards: GuardArguments<'a>,
        base: Base<'a>,
        files: FileArguments<'a>,
    },
    /// The commands of a file are to be printed.
    Dump {
        file: &'a str,
    },
    /// The streams of a file are to be printed as a text, in full.
    Text {
        file: &'a str,
    },
    /// The streams of such a text are to be made.
    Pack {
        file: &'a str,
    },
    /// The streams of some files are to be written as the real receiver makes them right.
    Export {
        base: Base<'a>,
        files: FileArguments<'a>,
    },
    /// A stream is to be written without the bytes that its snapshot does not have at its end.
    Squash {
        base: Base<'a>,
        file: FileArgument<'a>,
    },
    /// A lawful chain of so many parts is to be made from a number.
    Gen {
        count: Count,
        seed: u64,
    },
    /// Such a chain is to be composed, and what came of it is to be counted.
    Trial {
        count: Count,
        seed: u64,
    },
    /// A store is to be made.
    Init {
        store: &'a str,
    },
    /// A snapshot is to be taken out of a store.
    Drop {
        store: &'a str,
        name: Word<'a>,
    },
    /// The streams of some files are to be received into a store, under guards.
    Receive {
        guards: GuardArguments<'a>,
        store: &'a str,
        files: FileArguments<'a>,
    },
    /// The snapshots of a store are to be listed.
    List {
        store: &'a str,
    },
    /// What a snapshot consists of is to be printed.
    Show {
        store: &'a str,
        name: Word<'a>,
    },
    /// The bytes of a file of a snapshot are to be written.
    Cat {
        store: &'a str,
        name: Word<'a>,
        path: Word<'a>,
    },
    /// The checksums of a store are to be compared.
    Scrub {
        store: &'a str,
    },
    /// A snapshot is to be written as one stream.
    Send {
        store: &'a str,
        name: Word<'a>,
    },
    /// The same, as a stream that the real receiver makes right.
    Restore {
        store: &'a str,
        name: Word<'a>,
    },
    /// A snapshot is to be written as the stream that was received.
    Stream {
        store: &'a str,
        name: Word<'a>,
    },
    /// A snapshot is to be written as a tar archive.
    Tar {
        store: &'a str,
        name: Word<'a>,
    },
    /// The streams of some files are to be received into a store in turns.
    Interleave {
        store: &'a str,
        turns: TurnArguments<'a>,
    },
}
