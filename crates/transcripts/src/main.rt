// Plays scripts of runs over files and stores in memory, and prints what happens, as at a terminal.
// Each word after the program's name is the name of a script, which is played in a scene of its
// own, without a file in it. Its lines are printed, each with what it does behind it:
//
//     # WORDS             nothing
//     new                 there are no files any more
//     stream NAME         the lines up to `.` are the text of streams, which becomes a file of
//                         bytes. A text may stop short
//     text NAME           the lines up to `.` become a file as they are
//     file NAME FORM..    the bytes of escaped forms become a file
//     add NAME FORM..     they are put at the end of a file
//     frame NAME KIND FORM..  a frame is put at the end of a file: its kind is a number, its body
//                         the bytes of the forms, and its checksum is right
//     patch NAME AT FORM  bytes of a file, from a place on, get other values
//     cut NAME LENGTH     a file keeps so many bytes
//     join NAME FILE..    files one behind the other become a file
//     sum NAME            the length and the checksum of a file are printed
//     $ WORDS             a run over the files. A store is a file. `> NAME` behind the words makes
//                         a file of what is written
//     inputs N            the Nth call of the next run's inputs fails
//     output N            the Nth call of its output fails
//     notes N             the Nth call of its messages fails
//     disk N              the Nth call of its store's disk fails
//     ends N              a file ends early when bytes are read again for the Nth time
//     short N             its inputs and its output move N bytes at a time
//     power N CHOICE      its disk stops after N calls, and then holds what a loss of power may
//                         leave, of which a number chooses
//     every WHAT $ WORDS  the run again and again from the same files: with the first call failing,
//                         with the second, and so on, until it ends as with none. Nothing is kept.
//                         What they wrote is shown too, and what `list` then says of a store that
//                         they make or change. WHAT is one of
//         every inputs
//         every ends
//         every output
//         every disk
//         every power CHOICE
//         every cut NAME      of a file there are only the first bytes: none, one, and so on
//         every flip NAME     of a file each byte in turn has all its bits the other way round
//         every schedule N    for `#` there are all schedules of N turns of two files, numbered by
//                             their binary digits
//
// A form is bytes in their escaped form; `N=FORM` is the attribute of a number with these bytes,
// and `N:FORM` the same without its length, as the data of version 2 stands in its frame. In a form
// `u64:N` and `u32:N` are numbers of eight and four bytes. Anywhere in a line `{TEXT*N}` is the
// text so often. In the text of streams `repeat N LINE` is the line N times, with the number of
// each, from 0 on, for each `#`.
//
// How many cases there are of each kind (a run of `every` counts once for each answer):
//
// BEGIN CASES
// Statuses: 0: 481, 1: 468, 2: 86, 3: 26, 4: 51, 5: 210, 6: 56, 7: 0, 8: 36, 9: 3, 10: 11, 11: 0,
//     12: 6, 13: 2, 14: 2.
// Refusals: 1 BadMagic: 9, 2 BadVersion: 14, 3 Truncated: 69, 4 LongCommand: 6, 5 BadChecksum: 13,
//     6 UnknownCommand: 18, 7 BadAttribute: 35, 8 MissingAttribute: 17, 9 NoSubvolume: 2, 10
//     BadName: 10, 11 NameThere: 15, 12 UuidThere: 5, 13 NoParent: 19, 14 BadPath: 9, 15 NoEntry:
//     15, 16 NotDirectory: 4, 17 EntryThere: 11, 18 IsDirectory: 4, 19 NotEmpty: 5, 20 IntoItself:
//     5, 21 NotFile: 4, 22 BadXattr: 2, 23 NoXattr: 1, 24 BadDevice: 4, 25 BadTime: 5, 26 IsRoot:
//     5, 27 FileTooBig: 9, 28 NoSource: 2, 29 BadRange: 7, 30 Unaligned: 4, 31 Overlap: 6, 32
//     Encoded: 5, 33 Guarded: 16, 34 BadFallocate: 5, 35 NotConsecutive: 8, 36 NotBuilt: 0, 37
//     BadText: 98, 38 NoNumber: 0.
// Commands: compose: 111, audit: 248, dump: 41, text: 15, pack: 116, export: 44, squash: 4, gen:
//     19, trial: 17, init: 59, drop: 49, receive: 105, list: 72, show: 27, cat: 27, scrub: 19,
//     send: 23, restore: 12, stream: 30, tar: 3, interleave: 37.
// Lines: new: 44, stream: 336, text: 81, file: 80, add: 60, frame: 89, patch: 13, cut: 10, join:
//     46, sum: 57, inputs: 2, output: 3, notes: 2, disk: 1, ends: 1, short: 4, power: 1, every
//     inputs: 15, every ends: 1, every output: 34, every disk: 19, every power: 52, every cut: 11,
//     every flip: 1, every schedule: 3.
// END CASES
#![tactic(auto)]

mod every;
mod forms;
mod lines;
mod making;
mod outside;
mod playing;
mod runs;
mod scene;
mod shown;
mod stream_lines;

use std::process::ExitCode;

fn main(rt: HostRuntime) -> ExitCode {
    match playing::play_all(&rt) {
        Ok(()) => ExitCode::SUCCESS,
        Err(_) => ExitCode::FAILURE,
    }
}
