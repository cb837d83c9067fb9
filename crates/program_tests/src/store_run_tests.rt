// Runs over a store that a disk in memory holds. The expected bytes, images and notes are not this
// program's own.
use crate::same::same;
use crate::streams::{
    END, FIRST, HEADER, Pieces, SECOND, SNAPSHOT_B, SNAPSHOT_C_OF_A, SUBVOL_A, SUBVOL_C, UNLINK_X,
    joined, words_of,
};
use disk_model::{FuseDisk, MemDisk};
use guard_rules::{AnyGuard, Guard, parse_guard};
use host_io::NoDisk;
use send_top::run;
use std::alloc::{AllocError, Global};
use std::process::Abort;
use std::test::Fail;
use sx_base::{Disk, MemInputs, MemSink};

// The files that words may name.
const FILES: &[(&str, Pieces)] = &[
    ("first", FIRST),
    ("other", &[HEADER, SUBVOL_C, END]),
    ("second", SECOND),
    ("third", &[HEADER, SNAPSHOT_C_OF_A, END]),
    ("no_part", &[HEADER, END]),
    ("removing", &[HEADER, SUBVOL_A, UNLINK_X, END]),
    ("cut", &[HEADER, SNAPSHOT_B]),
];

// A new store.
const NEW: &[u8] = b"sndstore\x02\x00\x00\x00\x00\x00\x00\x00\x00\x01\x00\x00\x00";

// The store that has received the first file.
const STORE: &[u8] =
    b"sndstore\x02\x00\x00\x00\x00\x00\x00\x00\x00\x01\x00\x00\x014\x00\x00\x00\x00\x00\x00\x00\x04%\x00\x00\x00\x01\x0033C\xee\x01\x00\x10\x00\x11\x11\x11\x11\x11\x11\x11\x11\x11\x11\x11\x11\x11\x11\x11\x11\x02\x00\x08\x00\x01\x00\x00\x00\x00\x00\x00\x00\x0f\x00\x01\x00a\xe4\xc7\x04\xa7\x01F\x00\x00\x00\x00\x00\x00\x00\x05\x11\x11\x11\x11\x11\x11\x11\x11\x11\x11\x11\x11\x11\x11\x11\x11\x01\x05\x00\x00\x00\x03\x00/\x8a6s\x0f\x00\x01\x00x\x17\x00\x00\x00\x0f\x00C~\xee_\x0f\x00\x01\x00x\x12\x00\x08\x00\x00\x00\x00\x00\x00\x00\x00\x00\x13\x00\x02\x00hi\xa5T\xa8\x02\x00";

// The same with another name in its first group.
const DAMAGED: &[u8] =
    b"sndstore\x02\x00\x00\x00\x00\x00\x00\x00\x00\x01\x00\x00\x014\x00\x00\x00\x00\x00\x00\x00\x04%\x00\x00\x00\x01\x0033C\xee\x01\x00\x10\x00\x11\x11\x11\x11\x11\x11\x11\x11\x11\x11\x11\x11\x11\x11\x11\x11\x02\x00\x08\x00\x01\x00\x00\x00\x00\x00\x00\x00\x0f\x00\x01\x00b\xe4\xc7\x04\xa7\x01F\x00\x00\x00\x00\x00\x00\x00\x05\x11\x11\x11\x11\x11\x11\x11\x11\x11\x11\x11\x11\x11\x11\x11\x11\x01\x05\x00\x00\x00\x03\x00/\x8a6s\x0f\x00\x01\x00x\x17\x00\x00\x00\x0f\x00C~\xee_\x0f\x00\x01\x00x\x12\x00\x08\x00\x00\x00\x00\x00\x00\x00\x00\x00\x13\x00\x02\x00hi\xa5T\xa8\x02\x00";

// A store of the first format, whose groups have no checksums, that has received the first file.
const OF_FORMAT_1: &[u8] =
    b"sndstore\x01\x00\x00\x00\x00\x00\x00\x00\x00\x01\x00\x00\x010\x00\x00\x00\x00\x00\x00\x00\x01%\x00\x00\x00\x01\x0033C\xee\x01\x00\x10\x00\x11\x11\x11\x11\x11\x11\x11\x11\x11\x11\x11\x11\x11\x11\x11\x11\x02\x00\x08\x00\x01\x00\x00\x00\x00\x00\x00\x00\x0f\x00\x01\x00a\x01B\x00\x00\x00\x00\x00\x00\x00\x02\x11\x11\x11\x11\x11\x11\x11\x11\x11\x11\x11\x11\x11\x11\x11\x11\x01\x05\x00\x00\x00\x03\x00/\x8a6s\x0f\x00\x01\x00x\x17\x00\x00\x00\x0f\x00C~\xee_\x0f\x00\x01\x00x\x12\x00\x08\x00\x00\x00\x00\x00\x00\x00\x00\x00\x13\x00\x02\x00hi\x00";

// A new store of at most 160 bytes.
const SMALL: &[u8] = b"sndstore\x02\x00\x00\x00\xa0\x00\x00\x00\x00\x00\x00\x00\x00";

// A new store without room for anything.
const FULL: &[u8] = b"sndstore\x02\x00\x00\x00\x00\x00\x00\x00\x00\x00\x00\x00\x00";

// The second file, and the third, whose parent is the part of the first. Over a store that has the
// parent, each stands for itself.
const ONLY_B: &[u8] =
    b"btrfs-stream\x00\x01\x00\x00\x00E\x00\x00\x00\x02\x00\xca\x93\xbf\xed\x01\x00\x10\x00\"\"\"\"\"\"\"\"\"\"\"\"\"\"\"\"\x02\x00\x08\x00\x02\x00\x00\x00\x00\x00\x00\x00\x0f\x00\x01\x00b\x14\x00\x10\x00\x11\x11\x11\x11\x11\x11\x11\x11\x11\x11\x11\x11\x11\x11\x11\x11\x15\x00\x08\x00\x01\x00\x00\x00\x00\x00\x00\x00\x16\x00\x00\x00\x0f\x00\x95\xb7Kw\x0f\x00\x01\x00x\x12\x00\x08\x00\x02\x00\x00\x00\x00\x00\x00\x00\x13\x00\x01\x00!\x00\x00\x00\x00\x15\x00Pl\xc9\x9d";

const ONLY_C: &[u8] =
    b"btrfs-stream\x00\x01\x00\x00\x00E\x00\x00\x00\x02\x00\xc5)\xd3b\x01\x00\x10\x003333333333333333\x02\x00\x08\x00\x03\x00\x00\x00\x00\x00\x00\x00\x0f\x00\x01\x00c\x14\x00\x10\x00\x11\x11\x11\x11\x11\x11\x11\x11\x11\x11\x11\x11\x11\x11\x11\x11\x15\x00\x08\x00\x01\x00\x00\x00\x00\x00\x00\x00\x00\x00\x00\x00\x15\x00Pl\xc9\x9d";

// The subvolume of the first file as a full stream of its own.
const SENT_A: &[u8] =
    b"btrfs-stream\x00\x01\x00\x00\x00%\x00\x00\x00\x01\x0033C\xee\x01\x00\x10\x00\x11\x11\x11\x11\x11\x11\x11\x11\x11\x11\x11\x11\x11\x11\x11\x11\x02\x00\x08\x00\x01\x00\x00\x00\x00\x00\x00\x00\x0f\x00\x01\x00a\x1c\x00\x00\x00\x13\x00'\x05g}\x06\x00\x08\x00\x00\x00\x00\x00\x00\x00\x00\x00\x07\x00\x08\x00\x00\x00\x00\x00\x00\x00\x00\x00\x0f\x00\x00\x00\x10\x00\x00\x00\x12\x00\xf1\\.\xf0\x05\x00\x08\x00\xc0\x01\x00\x00\x00\x00\x00\x00\x0f\x00\x00\x00$\x00\x00\x00\x14\x00L5\x17V\x0a\x00\x0c\x00\x00\x00\x00\x00\x00\x00\x00\x00\x00\x00\x00\x00\x0b\x00\x0c\x00\x00\x00\x00\x00\x00\x00\x00\x00\x00\x00\x00\x00\x0f\x00\x00\x00\x05\x00\x00\x00\x03\x00/\x8a6s\x0f\x00\x01\x00x\x17\x00\x00\x00\x0f\x00C~\xee_\x0f\x00\x01\x00x\x12\x00\x08\x00\x00\x00\x00\x00\x00\x00\x00\x00\x13\x00\x02\x00hi\x1d\x00\x00\x00\x13\x00\xf2\x12\xf4\x8a\x06\x00\x08\x00\x00\x00\x00\x00\x00\x00\x00\x00\x07\x00\x08\x00\x00\x00\x00\x00\x00\x00\x00\x00\x0f\x00\x01\x00x\x11\x00\x00\x00\x12\x00:\xbb\x97\x0d\x05\x00\x08\x00\x80\x01\x00\x00\x00\x00\x00\x00\x0f\x00\x01\x00x%\x00\x00\x00\x14\x00\xb9\\f\x1d\x0a\x00\x0c\x00\x00\x00\x00\x00\x00\x00\x00\x00\x00\x00\x00\x00\x0b\x00\x0c\x00\x00\x00\x00\x00\x00\x00\x00\x00\x00\x00\x00\x00\x0f\x00\x01\x00x\x00\x00\x00\x00\x15\x00Pl\xc9\x9d";

const LINE_A: &[u8] = b"complete a 11111111-1111-1111-1111-111111111111 1\n";

const LINE_B: &[u8] = b"complete b 22222222-2222-2222-2222-222222222222 2\n";

const LINES: &[u8] = b"complete a 11111111-1111-1111-1111-111111111111 1
complete b 22222222-2222-2222-2222-222222222222 2
";

const LIST_A: &[u8] = b"a 11111111-1111-1111-1111-111111111111 1 complete -\n";

const LIST_BEGUN: &[u8] = b"a 11111111-1111-1111-1111-111111111111 1 unfinished -\n";

const LIST_B: &[u8] =
    b"b 22222222-2222-2222-2222-222222222222 2 complete 11111111-1111-1111-1111-111111111111:1\n";

const LIST_BOTH: &[u8] = b"a 11111111-1111-1111-1111-111111111111 1 complete -
b 22222222-2222-2222-2222-222222222222 2 complete 11111111-1111-1111-1111-111111111111:1
";

const LIST_CUT: &[u8] = b"a 11111111-1111-1111-1111-111111111111 1 complete -
b 22222222-2222-2222-2222-222222222222 2 unfinished 11111111-1111-1111-1111-111111111111:1
";

const LINE_C: &[u8] = b"complete c 33333333-3333-3333-3333-333333333333 3\n";

const LINES_C_A: &[u8] = b"complete c 33333333-3333-3333-3333-333333333333 3
complete a 11111111-1111-1111-1111-111111111111 1
";

const LINES_A_C: &[u8] = b"complete a 11111111-1111-1111-1111-111111111111 1
complete c 33333333-3333-3333-3333-333333333333 3
";

const LIST_A_C: &[u8] = b"a 11111111-1111-1111-1111-111111111111 1 complete -
c 33333333-3333-3333-3333-333333333333 3 complete -
";

const LIST_A_BEGUN_C: &[u8] = b"a 11111111-1111-1111-1111-111111111111 1 unfinished -
c 33333333-3333-3333-3333-333333333333 3 complete -
";

const SHOW_A: &[u8] = b"subvol a 11111111-1111-1111-1111-111111111111 1 258
inode 256 dir 700 0 0 0.000000000 0.000000000 0 -
inode 257 file 600 0 0 0.000000000 0.000000000 0 2
name 256 x 257
";

// The same of a subvolume whose name is a byte that is no text and a blank.
const LINE_ESCAPED: &[u8] = b"complete \\xff\\x20 11111111-1111-1111-1111-111111111111 1\n";

const LIST_ESCAPED: &[u8] = b"\\xff\\x20 11111111-1111-1111-1111-111111111111 1 complete -\n";

const SHOW_ESCAPED: &[u8] = b"subvol \\xff\\x20 11111111-1111-1111-1111-111111111111 1 258
inode 256 dir 700 0 0 0.000000000 0.000000000 0 -
inode 257 file 600 0 0 0.000000000 0.000000000 0 2
name 256 x 257
";

// Words, the status that they give, what they write, and their note.
type Row = (&'static [&'static str], u8, &'static [u8], &'static [u8]);

// The inputs that have all files.
fn input_files(alloc: Global) -> Result<MemInputs, AllocError> {
    let mut inputs = MemInputs::new(alloc);
    for &(name, pieces) in FILES {
        inputs.add(name, joined(alloc, pieces)?.as_slice())?;
    }
    Ok(inputs)
}

// A guard for each guard word.
fn guards_of(alloc: Global, words: &[&str]) -> Result<Vec<Box<dyn Guard>>, AllocError> {
    let mut guards: Vec<Box<dyn Guard>> = Vec::new(alloc);
    for word in words {
        if let Some(spec) = parse_guard(word) {
            guards.push(Box::new(alloc, AnyGuard::new(spec))?)?;
        }
    }
    Ok(guards)
}

// The status of words over a disk.
fn status_of<D: Disk>(
    alloc: Global,
    disk: &mut D,
    words: &[&str],
    out: &mut MemSink,
    notes: &mut MemSink,
) -> Result<u8, AllocError> {
    let mut inputs = input_files(alloc)?;
    let guards = guards_of(alloc, words)?;
    let words = words_of(alloc, words)?;
    Ok(run(alloc, &words, guards, &mut inputs, out, notes, disk))
}

// Words over a disk answer as a row has it.
fn check<D: Disk>(rt: &impl Abort, alloc: Global, disk: &mut D, row: Row) -> Result<(), Fail> {
    let (words, status, written, note) = row;
    let mut out = MemSink::new(alloc);
    let mut notes = MemSink::new(alloc);
    let answered = status_of(alloc, disk, words, &mut out, &mut notes)?;
    same(rt, notes.bytes(), note);
    same(rt, out.bytes(), written);
    same(rt, answered, status);
    Ok(())
}

// Whether these are the bytes of a disk.
fn has_image(disk: &mut MemDisk, image: &[u8]) -> Result<bool, Fail> {
    let mut room = [0; 200];
    let count = disk.read(0, &mut room)?;
    Ok(&room[..count] == image)
}

const FILLED: &[Row] = &[
    (&["init", "st"], 0, b"", b""),
    (&["init", "st"], 12, b"", b"store there 21\n"),
    (&["list", "st"], 0, b"", b""),
    (&["receive", "st", "no_part"], 0, b"", b""),
    (&["receive", "st", "first", "second"], 0, LINES, b""),
    (&["list", "st"], 0, LIST_BOTH, b""),
    (&["show", "st", "a"], 0, SHOW_A, b""),
    (&["show", "st", "zz"], 8, b"", b"missing zz\n"),
    (&["cat", "st", "a", "x"], 0, b"hi", b""),
    (&["cat", "st", "b", "x"], 0, b"hi!", b""),
    (&["cat", "st", "b", "nope"], 8, b"", b"missing nope\n"),
    (&["cat", "st", "z z", "x"], 8, b"", b"missing z\\x20z\n"),
    (&["scrub", "st"], 0, b"scrub 4 0\n", b""),
    (&["audit", "st", "third"], 0, b"accepted 1 2\n", b""),
    (&["compose", "st", "second"], 0, ONLY_B, b""),
    (&["compose", "st", "third"], 0, ONLY_C, b""),
    (&["export", "st", "third"], 0, ONLY_C, b""),
    (
        &["export", "st", "second"],
        1,
        b"",
        b"refused 1 1 17 11 NameThere\n",
    ),
    (
        &["audit", "st", "first"],
        1,
        b"",
        b"refused 1 1 17 11 NameThere\n",
    ),
    (
        &["receive", "st", "second"],
        1,
        b"",
        b"refused 1 1 17 11 NameThere\n",
    ),
    (&["drop", "st", "zz"], 8, b"", b"missing zz\n"),
    (&["drop", "st", "a"], 0, b"", b""),
    (&["list", "st"], 0, LIST_B, b""),
    (
        &["compose", "st", "third"],
        1,
        b"",
        b"refused 1 1 17 13 NoParent\n",
    ),
    (
        &["receive", "st", "third"],
        1,
        b"",
        b"refused 1 1 17 13 NoParent\n",
    ),
    (&["receive", "st", "first"], 0, LINE_A, b""),
    (&["scrub", "st"], 0, b"scrub 7 0\n", b""),
];

#[test]
fn a_store_is_made_filled_and_read(rt: HostRuntime) -> Result<(), Fail> {
    let mut disk = MemDisk::new(rt.alloc(), b"")?;
    for &row in FILLED {
        check(&rt, rt.alloc(), &mut disk, row)?;
    }
    Ok(())
}

const UNFINISHED: &[Row] = &[
    (
        &["receive", "st", "removing"],
        1,
        b"",
        b"refused 1 2 64 15 NoEntry\n",
    ),
    (&["list", "st"], 0, LIST_BEGUN, b""),
    (
        &["receive", "st", "first"],
        1,
        b"",
        b"refused 1 1 17 11 NameThere\n",
    ),
    (&["show", "st", "a"], 8, b"", b"missing a\n"),
    (&["drop", "st", "a"], 0, b"", b""),
    (
        &["receive", "guard:bytes=1", "guard:nodev", "st", "first"],
        1,
        b"",
        b"refused 1 3 79 33 Guarded 0 0\n",
    ),
    (&["drop", "st", "a"], 0, b"", b""),
    (
        &[
            "receive",
            "guard:nodev",
            "guard:commands=5",
            "st",
            "first",
            "cut",
        ],
        1,
        LINE_A,
        b"refused 2 2 96 3 Truncated\n",
    ),
    (&["list", "st"], 0, LIST_CUT, b""),
    (
        &["audit", "guard:commands=1", "st", "no_part", "no_part"],
        1,
        b"",
        b"refused 2 1 17 33 Guarded 0 1\n",
    ),
];

#[test]
fn a_refused_part_stays_unfinished(rt: HostRuntime) -> Result<(), Fail> {
    let mut disk = MemDisk::new(rt.alloc(), NEW)?;
    for &row in UNFINISHED {
        check(&rt, rt.alloc(), &mut disk, row)?;
    }
    Ok(())
}

const WITHOUT_ROOM: &[Row] = &[
    (
        &["receive", "st", "first"],
        10,
        b"",
        b"log full 123 33 160\n",
    ),
    (&["list", "st"], 0, LIST_BEGUN, b""),
    (&["drop", "st", "a"], 0, b"", b""),
    (&["list", "st"], 0, b"", b""),
];

#[test]
fn a_part_without_room_stays_unfinished(rt: HostRuntime) -> Result<(), Fail> {
    let mut disk = MemDisk::new(rt.alloc(), SMALL)?;
    for &row in WITHOUT_ROOM {
        check(&rt, rt.alloc(), &mut disk, row)?;
    }
    Ok(())
}

const GOES_ON: &[Row] = &[
    (&["scrub", "st"], 0, b"scrub 2 2\n", b""),
    (&["receive", "st", "second"], 0, LINE_B, b""),
    (&["scrub", "st"], 0, b"scrub 4 2\n", b""),
    (&["list", "st"], 0, LIST_BOTH, b""),
];

#[test]
fn a_store_of_the_first_format_goes_on(rt: HostRuntime) -> Result<(), Fail> {
    let mut disk = MemDisk::new(rt.alloc(), OF_FORMAT_1)?;
    for &row in GOES_ON {
        check(&rt, rt.alloc(), &mut disk, row)?;
    }
    Ok(())
}

// Images, and what a word answers over each.
const IMAGES: &[(&[u8], Row)] = &[
    (b"", (&["list", "st"], 6, b"", b"not a store 0\n")),
    (b"", (&["show", "st", "a"], 6, b"", b"not a store 0\n")),
    (b"", (&["cat", "st", "a", "x"], 6, b"", b"not a store 0\n")),
    (b"", (&["drop", "st", "a"], 6, b"", b"not a store 0\n")),
    (
        b"",
        (&["receive", "st", "first"], 6, b"", b"not a store 0\n"),
    ),
    (b"", (&["audit", "st", "first"], 6, b"", b"not a store 0\n")),
    (
        b"",
        (&["compose", "st", "first"], 6, b"", b"not a store 0\n"),
    ),
    (
        b"",
        (&["export", "st", "first"], 6, b"", b"not a store 0\n"),
    ),
    (b"", (&["scrub", "st"], 6, b"", b"not a store 0\n")),
    (DAMAGED, (&["list", "st"], 6, b"", b"not a store 1\n")),
    (
        DAMAGED,
        (&["receive", "st", "second"], 6, b"", b"not a store 1\n"),
    ),
    (
        DAMAGED,
        (&["compose", "st", "second"], 6, b"", b"not a store 1\n"),
    ),
    (
        DAMAGED,
        (&["export", "st", "second"], 6, b"", b"not a store 1\n"),
    ),
    (
        DAMAGED,
        (&["scrub", "st"], 14, b"", b"damaged 1 a704c7e4 b4543410\n"),
    ),
    (DAMAGED, (&["init", "st"], 12, b"", b"store there 161\n")),
    (
        FULL,
        (&["receive", "st", "first"], 10, b"", b"log full 20 9 0\n"),
    ),
    (FULL, (&["receive", "st", "no_part"], 0, b"", b"")),
    (FULL, (&["drop", "st", "a"], 8, b"", b"missing a\n")),
    (FULL, (&["list", "st"], 0, b"", b"")),
    (
        STORE,
        (&["audit", "none", "first"], 0, b"accepted 1 4\n", b""),
    ),
    (
        STORE,
        (&["audit", "st", "second"], 0, b"accepted 1 3\n", b""),
    ),
    (STORE, (&["compose", "st", "second"], 0, ONLY_B, b"")),
    (STORE, (&["export", "st", "second"], 0, ONLY_B, b"")),
    (
        STORE,
        (
            &["compose", "st", "no_part"],
            1,
            b"",
            b"refused 1 1 17 35 NotConsecutive\n",
        ),
    ),
    (OF_FORMAT_1, (&["list", "st"], 0, LIST_A, b"")),
    (OF_FORMAT_1, (&["compose", "st", "second"], 0, ONLY_B, b"")),
];

#[test]
fn what_a_word_does_not_write_to_stays(rt: HostRuntime) -> Result<(), Fail> {
    for &(image, row) in IMAGES {
        let mut disk = MemDisk::new(rt.alloc(), image)?;
        check(&rt, rt.alloc(), &mut disk, row)?;
        same(&rt, has_image(&mut disk, image)?, true);
    }
    Ok(())
}

const LENGTHS: &[(usize, &[u8])] = &[
    (19, b"not a store 0\n"),
    (20, b"not a store 1\n"),
    (123, b"not a store 2\n"),
    (160, b"not a store 3\n"),
];

#[test]
fn a_store_that_is_cut_is_none(rt: HostRuntime) -> Result<(), Fail> {
    for &(len, note) in LENGTHS {
        let mut disk = MemDisk::new(rt.alloc(), &STORE[..len])?;
        let mut out = MemSink::new(rt.alloc());
        let mut notes = MemSink::new(rt.alloc());
        let status = status_of(rt.alloc(), &mut disk, &["list", "st"], &mut out, &mut notes)?;
        same(&rt, status, 6);
        same(&rt, out.bytes(), b"".as_slice());
        same(&rt, notes.bytes(), note);
    }
    Ok(())
}

const RECEIVED: &[(Row, &[u8])] = &[
    ((&["init", "st"], 0, b"", b""), NEW),
    ((&["receive", "st", "first"], 0, LINE_A, b""), STORE),
];

#[test]
fn received_and_made_stores_are_these_bytes(rt: HostRuntime) -> Result<(), Fail> {
    let mut disk = MemDisk::new(rt.alloc(), b"")?;
    for &(row, image) in RECEIVED {
        check(&rt, rt.alloc(), &mut disk, row)?;
        same(&rt, has_image(&mut disk, image)?, true);
    }
    Ok(())
}

// Words, and what they write over the store that has the first file where no call of the disk
// fails.
const WORDS: &[(&[&str], &[u8])] = &[
    (&["list", "st"], LIST_A),
    (&["show", "st", "a"], SHOW_A),
    (&["cat", "st", "a", "x"], b"hi"),
    (&["scrub", "st"], b"scrub 2 0\n"),
    (&["audit", "st", "second"], b"accepted 1 3\n"),
    (&["drop", "st", "a"], b""),
    (&["receive", "st", "second"], LINE_B),
    (&["receive", "st", "second", "cut"], LINE_B),
];

// More calls of a disk than a word makes.
const CALLS: u64 = 60;

// How many calls a disk may pass before all is done; each time that it passes fewer, the fault is
// told, and what is written is the first of what is written else.
fn calls_needed(
    rt: &impl Abort,
    alloc: Global,
    image: &[u8],
    words: &[&str],
    written: &[u8],
) -> Result<u64, Fail> {
    for calls in 0..CALLS {
        let mut disk = FuseDisk::new(MemDisk::new(alloc, image)?, calls);
        let mut out = MemSink::new(alloc);
        let mut notes = MemSink::new(alloc);
        let status = status_of(alloc, &mut disk, words, &mut out, &mut notes)?;
        if status != 5 {
            same(rt, out.bytes(), written);
            return Ok(calls);
        }
        same(rt, notes.bytes(), b"store fault\n".as_slice());
        same(rt, written.starts_with(out.bytes()), true);
    }
    Ok(CALLS)
}

#[test]
fn a_store_that_fails_is_told(rt: HostRuntime) -> Result<(), Fail> {
    for &(words, written) in WORDS {
        let needed = calls_needed(&rt, rt.alloc(), STORE, words, written)?;
        same(&rt, 1 < needed && needed < CALLS, true);
    }
    let needed = calls_needed(&rt, rt.alloc(), b"", &["init", "st"], b"")?;
    same(&rt, 1 < needed && needed < CALLS, true);
    Ok(())
}

#[test]
fn without_a_file_the_store_fails(rt: HostRuntime) -> Result<(), Fail> {
    for &(words, _) in WORDS {
        let row: Row = (words, 5, b"", b"store fault\n");
        check(&rt, rt.alloc(), &mut NoDisk::new(), row)?;
    }
    check(
        &rt,
        rt.alloc(),
        &mut NoDisk::new(),
        (&["init", "st"], 5, b"", b"store fault\n"),
    )
}

#[test]
fn an_output_that_fails_is_told(rt: HostRuntime) -> Result<(), Fail> {
    for &(words, written) in WORDS {
        if written.is_empty() {
            continue;
        }
        let mut disk = MemDisk::new(rt.alloc(), STORE)?;
        let mut out = MemSink::new(rt.alloc());
        out.fail_call(1)?;
        let mut notes = MemSink::new(rt.alloc());
        let status = status_of(rt.alloc(), &mut disk, words, &mut out, &mut notes)?;
        same(&rt, status, 4);
        same(&rt, out.bytes(), b"".as_slice());
        same(&rt, notes.bytes(), b"output fault\n".as_slice());
    }
    Ok(())
}

const SENT: &[Row] = &[
    (&["send", "st", "a"], 0, SENT_A, b""),
    (&["send", "st", "zz"], 8, b"", b"missing zz\n"),
    (&["restore", "st", "zz"], 8, b"", b"missing zz\n"),
    (&["send", "st"], 2, b"", b"usage\n"),
    (&["restore", "st", "a", "more"], 2, b"", b"usage\n"),
    (&["send", "st", "b"], 8, b"", b"missing b\n"),
];

#[test]
fn a_subvolume_is_sent(rt: HostRuntime) -> Result<(), Fail> {
    let mut disk = MemDisk::new(rt.alloc(), STORE)?;
    for &row in SENT {
        check(&rt, rt.alloc(), &mut disk, row)?;
    }
    same(&rt, has_image(&mut disk, STORE)?, true);
    Ok(())
}

// What a word writes of the subvolume of the first file makes an equal one in a new store.
#[test]
fn what_is_sent_and_restored_is_received(rt: HostRuntime) -> Result<(), Fail> {
    for word in ["send", "restore"] {
        let mut store = MemDisk::new(rt.alloc(), STORE)?;
        let mut written = MemSink::new(rt.alloc());
        let mut notes = MemSink::new(rt.alloc());
        let words = [word, "st", "a"];
        same(
            &rt,
            status_of(rt.alloc(), &mut store, &words, &mut written, &mut notes)?,
            0,
        );
        let mut inputs = MemInputs::new(rt.alloc());
        inputs.add("stream", written.bytes())?;
        let mut disk = MemDisk::new(rt.alloc(), NEW)?;
        let mut out = MemSink::new(rt.alloc());
        let words = words_of(rt.alloc(), &["receive", "other", "stream"])?;
        let none: Vec<Box<dyn Guard>> = Vec::new(rt.alloc());
        let status = run(
            rt.alloc(),
            &words,
            none,
            &mut inputs,
            &mut out,
            &mut notes,
            &mut disk,
        );
        same(&rt, status, 0);
        same(&rt, out.bytes(), LINE_A);
        check(
            &rt,
            rt.alloc(),
            &mut disk,
            (&["show", "other", "a"], 0, SHOW_A, b""),
        )?;
    }
    Ok(())
}

const TURNS: &[(Row, &[u8])] = &[
    (
        (
            &["interleave", "st", "01", "first", "second"],
            1,
            LINE_A,
            b"refused 2 1 17 13 NoParent\n",
        ),
        LIST_A,
    ),
    (
        (
            &["interleave", "st", "00001", "first", "second"],
            0,
            LINES,
            b"",
        ),
        LIST_BOTH,
    ),
    (
        (
            &["interleave", "st", "01111", "first", "other"],
            0,
            LINES_C_A,
            b"",
        ),
        LIST_A_C,
    ),
    (
        (
            &["interleave", "st", "2", "first", "other"],
            2,
            b"",
            b"usage\n",
        ),
        b"",
    ),
    (
        (&["interleave", "st", "", "first"], 2, b"", b"usage\n"),
        b"",
    ),
    (
        (
            &["interleave", "st", "0", "first", "guard:nodev"],
            2,
            b"",
            b"usage\n",
        ),
        b"",
    ),
    (
        (
            &["interleave", "st", "01", "guard:bytes=1", "first", "other"],
            1,
            LINE_C,
            b"refused 1 3 79 33 Guarded 0 0\n",
        ),
        LIST_A_BEGUN_C,
    ),
    (
        (
            &["interleave", "st", "01", "first", "guard:bytes=1", "other"],
            0,
            LINES_A_C,
            b"",
        ),
        LIST_A_C,
    ),
    (
        (
            &["interleave", "st", "0", "first", "nowhere"],
            1,
            LINE_A,
            b"refused 2 1 0 3 Truncated\n",
        ),
        LIST_A,
    ),
];

// Each schedule over a new store, with what is listed then.
#[test]
fn files_take_turns(rt: HostRuntime) -> Result<(), Fail> {
    for &(row, listed) in TURNS {
        let mut disk = MemDisk::new(rt.alloc(), NEW)?;
        check(&rt, rt.alloc(), &mut disk, row)?;
        check(
            &rt,
            rt.alloc(),
            &mut disk,
            (&["list", "st"], 0, listed, b""),
        )?;
    }
    Ok(())
}

const ESCAPED: &[Row] = &[
    (
        &["receive", "st", "name:escaped:\\xff\\x20", "first"],
        0,
        LINE_ESCAPED,
        b"",
    ),
    (&["list", "st"], 0, LIST_ESCAPED, b""),
    (&["show", "st", "escaped:\\xff\\x20"], 0, SHOW_ESCAPED, b""),
    (&["cat", "st", "escaped:\\xff\\x20", "x"], 0, b"hi", b""),
    (
        &["cat", "st", "escaped:\\xff\\x20", "escaped:x"],
        0,
        b"hi",
        b"",
    ),
    (
        &["cat", "st", "escaped:\\xff\\x20", "escaped:\\x0a"],
        8,
        b"",
        b"missing \\x0a\n",
    ),
    (
        &["cat", "st", "escaped:\\xff", "x"],
        8,
        b"",
        b"missing \\xff\n",
    ),
    (
        &["show", "st", "escaped:escaped:a"],
        8,
        b"",
        b"missing escaped:a\n",
    ),
    (&["drop", "st", "escaped:"], 8, b"", b"missing \n"),
    (&["show", "st", "escaped:\\xFF\\x20"], 2, b"", b"usage\n"),
    (&["show", "st", "escaped:\\x41"], 2, b"", b"usage\n"),
    (&["send", "st", "escaped:a b"], 2, b"", b"usage\n"),
    (&["restore", "st", "escaped:\\"], 2, b"", b"usage\n"),
    (&["cat", "st", "a", "escaped:\\xg0"], 2, b"", b"usage\n"),
    (
        &["receive", "st", "name:escaped:\\xFF", "second"],
        2,
        b"",
        b"usage\n",
    ),
    (&["drop", "st", "escaped:\\xff\\x20"], 0, b"", b""),
    (&["list", "st"], 0, b"", b""),
];

#[test]
fn names_that_are_no_text_are_asked_for_as_they_are_printed(rt: HostRuntime) -> Result<(), Fail> {
    let mut disk = MemDisk::new(rt.alloc(), NEW)?;
    for &row in ESCAPED {
        check(&rt, rt.alloc(), &mut disk, row)?;
    }
    Ok(())
}
