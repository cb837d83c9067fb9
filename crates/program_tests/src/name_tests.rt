// Runs with names for the parts of files. The expected bytes and notes are not this program's own.
use crate::same::same;
use crate::streams::{
    DUMPED, END, FIRST, HEADER, MKFILE_X, MKFILE_X_WITH_INO, Pieces, SNAPSHOT_A, SNAPSHOT_B,
    SUBVOL_A, SUBVOL_A_LATER, SUBVOL_B, WRITE_HI, joined, words_of,
};
use disk_model::MemDisk;
use guard_rules::{AnyGuard, Guard, parse_guard};
use send_top::run;
use std::alloc::{AllocError, Global};
use std::test::Fail;
use sx_base::{MemInputs, MemSink};

// The second file's part has the name of the first one's.
const FILES: &[(&str, Pieces)] = &[
    ("first", FIRST),
    ("again", &[HEADER, SNAPSHOT_A, END]),
    ("name:x", FIRST),
    ("./name:x", FIRST),
];

const LINES: &[u8] = b"complete a 11111111-1111-1111-1111-111111111111 1
complete b 22222222-2222-2222-2222-222222222222 2
";

const LISTED: &[u8] = b"a 11111111-1111-1111-1111-111111111111 1 complete -
b 22222222-2222-2222-2222-222222222222 2 complete 11111111-1111-1111-1111-111111111111:1
";

const ONE: Pieces = &[HEADER, SUBVOL_B, MKFILE_X, WRITE_HI, END];

const CUT: Pieces = &[HEADER, SUBVOL_A_LATER, MKFILE_X, WRITE_HI];

// The first part as it is received, and the second one under the name that is given for it.
const EXPORTED: Pieces = &[
    HEADER,
    SUBVOL_A,
    MKFILE_X_WITH_INO,
    WRITE_HI,
    END,
    HEADER,
    SNAPSHOT_B,
    END,
];

const ONE_EXPORTED: Pieces = &[HEADER, SUBVOL_A, MKFILE_X_WITH_INO, WRITE_HI, END];

const NAME_THERE: &[u8] = b"refused 2 1 17 11 NameThere\n";

const BAD_NAME: &[u8] = b"refused 1 1 17 10 BadName\n";

// Runs words over a disk, and gives the status, what is written and the note.
fn ran(
    alloc: Global,
    disk: &mut MemDisk,
    words: &[&str],
) -> Result<(u8, MemSink, MemSink), AllocError> {
    let mut inputs = MemInputs::new(alloc);
    for &(name, pieces) in FILES {
        inputs.add(name, joined(alloc, pieces)?.as_slice())?;
    }
    let mut guards: Vec<Box<dyn Guard>> = Vec::new(alloc);
    for word in words {
        if let Some(spec) = parse_guard(word) {
            guards.push(Box::new(alloc, AnyGuard::new(spec))?)?;
        }
    }
    let words = words_of(alloc, words)?;
    let mut out = MemSink::new(alloc);
    let mut notes = MemSink::new(alloc);
    let status = run(
        alloc,
        &words,
        guards,
        &mut inputs,
        &mut out,
        &mut notes,
        disk,
    );
    Ok((status, out, notes))
}

const OTHER_NUMBER: &str = "parent:11111111-1111-1111-1111-111111111111:9";

const OWN_NUMBER: &str = "parent:11111111-1111-1111-1111-111111111111:1";

const PARENT: &str = "parent:abababab-abab-abab-abab-abababababab:7";

const NAMED: &[(&[&str], u8, Pieces, &[u8])] = &[
    (&["compose", "none", "first", "again"], 1, CUT, NAME_THERE),
    (
        &["compose", "none", "first", "name:b", "again"],
        0,
        ONE,
        b"",
    ),
    (
        &["compose", "none", "name:c", "first", "name:b", "again"],
        0,
        ONE,
        b"",
    ),
    (
        &["export", "none", "first", "again"],
        1,
        ONE_EXPORTED,
        NAME_THERE,
    ),
    (
        &["export", "none", "first", "name:b", "again"],
        0,
        EXPORTED,
        b"",
    ),
    (&["export", "none", "name:.", "first"], 1, &[], BAD_NAME),
    (&["export", "none", "first", "name:b"], 2, &[], b"usage\n"),
    (&["audit", "none", "first", "again"], 1, &[], NAME_THERE),
    (
        &["audit", "none", "first", "name:b", "again"],
        0,
        &[b"accepted 2 6\n"],
        b"",
    ),
    (
        &["audit", "guard:nodev", "none", "name:b", "first", "again"],
        0,
        &[b"accepted 2 6\n"],
        b"",
    ),
    (&["audit", "none", "name:.", "first"], 1, &[], BAD_NAME),
    (&["audit", "none", "name:", "first"], 1, &[], BAD_NAME),
    (&["compose", "none", "name:a/b", "first"], 1, &[], BAD_NAME),
    // no file, two names for one, and none behind the last
    (&["audit", "none", "name:b"], 2, &[], b"usage\n"),
    (
        &["compose", "none", "name:b", "name:c", "first"],
        2,
        &[],
        b"usage\n",
    ),
    (&["receive", "st", "first", "name:b"], 2, &[], b"usage\n"),
    // a parent that nothing names, beside a name; the same one twice, one behind the last file, and
    // one that is none
    (
        &["audit", "none", PARENT, "name:b", "first"],
        0,
        &[b"accepted 1 4\n"],
        b"",
    ),
    (
        &["audit", "none", PARENT, "name:b", PARENT, "first"],
        2,
        &[],
        b"usage\n",
    ),
    // the part before it is no parent with another number, and with its own it is
    (
        &["audit", "none", "first", "name:b", OTHER_NUMBER, "again"],
        1,
        &[],
        b"refused 2 1 17 13 NoParent\n",
    ),
    (
        &["audit", "none", "first", OWN_NUMBER, "name:b", "again"],
        0,
        &[b"accepted 2 6\n"],
        b"",
    ),
    (&["audit", "none", "first", PARENT], 2, &[], b"usage\n"),
    (&["audit", "none", "parent:1", "first"], 2, &[], b"usage\n"),
    // words that take no names, and a store and a file that are called so
    (&["dump", "name:x"], 0, &[DUMPED], b""),
    (&["audit", "none", "./name:x"], 0, &[b"accepted 1 4\n"], b""),
    (&["init", "name:x"], 0, &[], b""),
    (
        &["receive", "name:x", "first", "name:b", "again"],
        0,
        &[LINES],
        b"",
    ),
    (&["list", "name:x"], 0, &[LISTED], b""),
];

#[test]
fn parts_have_the_names_that_are_given(rt: HostRuntime) -> Result<(), Fail> {
    let alloc = rt.alloc();
    let mut disk = MemDisk::new(alloc, b"")?;
    for &(words, status, written, note) in NAMED {
        let (ended, out, notes) = ran(alloc, &mut disk, words)?;
        same(&rt, notes.bytes(), note);
        same(&rt, out.bytes(), joined(alloc, written)?.as_slice());
        same(&rt, ended, status);
    }
    Ok(())
}
