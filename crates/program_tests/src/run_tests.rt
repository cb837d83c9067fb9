// Runs over objects in memory. The expected bytes and notes are not this program's own.
use crate::same::same;
use crate::streams::{
    CLONE_X, DUMPED, END, END_CUT, END_WITHOUT_SUM, FIRST, FRAME_26, FRAME_TOO_LONG, HEADER,
    HEADER_OF_VERSION_3, MKFILE_BELOW_X, MKFILE_NO_PATH, MKFILE_ROOT, MKFILE_UP, MKFILE_X,
    MKFILE_X_TWO_PATHS, MKFILE_X_WITH_INO, Pieces, SECOND, SNAPSHOT_A, SNAPSHOT_B,
    SNAPSHOT_B_OF_LATER, SNAPSHOT_B_SAME_UUID, SNAPSHOT_C_OF_A, SUBVOL_A, SUBVOL_A_LATER, SUBVOL_B,
    SUBVOL_B_SAME_UUID, SUBVOL_C, SUBVOL_DOT, TRUNCATE_1, TRUNCATE_GREATEST, TRUNCATE_PAST,
    UPDATE_EXTENT_X, WRITE_HI, WRITE_LAST, WRITE_MARK, WRITE_NOTHING, WRITE_PAST_LAST, WRITE_ROOT,
    WRITE_Y, joined, words_of,
};
use guard_rules::{CommandGuard, Guard};
use host_io::NoDisk;
use send_top::run;
use std::alloc::{AllocError, Global};
use std::process::Abort;
use std::test::Fail;
use sx_base::{MemInputs, MemSink};

const EMPTY: Pieces = &[];

// What the two are composed into.
const BOTH: Pieces = &[HEADER, SUBVOL_B, MKFILE_X, WRITE_HI, WRITE_MARK, END];

// Files, what is written for them before the refusal, and the note.
const REFUSED: &[(&[Pieces], Pieces, &[u8])] = &[
    (
        &[&[HEADER, END]],
        &[],
        b"refused 1 1 17 35 NotConsecutive\n",
    ),
    (
        &[&[HEADER, END_WITHOUT_SUM]],
        &[],
        b"refused 1 1 17 5 BadChecksum 00000000 9dc96c50\n",
    ),
    (&[EMPTY], &[], b"refused 1 1 0 3 Truncated\n"),
    (&[&[HEADER, END_CUT]], &[], b"refused 1 1 17 3 Truncated\n"),
    (
        &[&[HEADER_OF_VERSION_3, END]],
        &[],
        b"refused 1 1 0 2 BadVersion 3\n",
    ),
    (&[&[END, END]], &[], b"refused 1 1 0 1 BadMagic\n"),
    (
        &[&[HEADER, FRAME_TOO_LONG]],
        &[],
        b"refused 1 1 17 4 LongCommand 262145\n",
    ),
    (
        &[&[HEADER, SUBVOL_A, FRAME_26, END]],
        &[HEADER, SUBVOL_A],
        b"refused 1 2 64 6 UnknownCommand 26\n",
    ),
    (
        &[&[HEADER, SUBVOL_A, MKFILE_X_TWO_PATHS, END]],
        &[HEADER, SUBVOL_A],
        b"refused 1 2 64 7 BadAttribute 15\n",
    ),
    (
        &[&[HEADER, SUBVOL_A, MKFILE_NO_PATH, END]],
        &[HEADER, SUBVOL_A],
        b"refused 1 2 64 8 MissingAttribute 15\n",
    ),
    (
        &[&[HEADER, SUBVOL_A, CLONE_X, END]],
        &[HEADER, SUBVOL_A],
        b"refused 1 2 64 15 NoEntry\n",
    ),
    (
        &[&[HEADER, MKFILE_X, END]],
        &[],
        b"refused 1 1 17 9 NoSubvolume\n",
    ),
    (
        &[&[HEADER, SUBVOL_DOT, END]],
        &[],
        b"refused 1 1 17 10 BadName\n",
    ),
    (
        &[FIRST, &[HEADER, SNAPSHOT_A, END]],
        &[HEADER, SUBVOL_A_LATER, MKFILE_X, WRITE_HI],
        b"refused 2 1 17 11 NameThere\n",
    ),
    (
        &[FIRST, &[HEADER, SNAPSHOT_B_SAME_UUID, END]],
        &[HEADER, SUBVOL_B_SAME_UUID, MKFILE_X, WRITE_HI],
        b"refused 2 1 17 12 UuidThere\n",
    ),
    (&[SECOND], &[], b"refused 1 1 17 13 NoParent\n"),
    (
        &[FIRST, &[HEADER, SNAPSHOT_B_OF_LATER, END]],
        &[HEADER, SUBVOL_B, MKFILE_X, WRITE_HI],
        b"refused 2 1 17 13 NoParent\n",
    ),
    (
        &[FIRST, &[HEADER, SUBVOL_B, END]],
        &[HEADER, SUBVOL_B, MKFILE_X, WRITE_HI],
        b"refused 2 1 17 35 NotConsecutive\n",
    ),
    (
        &[FIRST, SECOND, &[HEADER, SNAPSHOT_C_OF_A, END]],
        &[HEADER, SUBVOL_C, MKFILE_X, WRITE_HI, WRITE_MARK],
        b"refused 3 1 17 35 NotConsecutive\n",
    ),
    (
        &[FIRST, EMPTY],
        &[HEADER, SUBVOL_A, MKFILE_X, WRITE_HI],
        b"refused 2 1 0 3 Truncated\n",
    ),
    (
        &[&[HEADER, SUBVOL_A, MKFILE_X, MKFILE_UP, END]],
        &[HEADER, SUBVOL_A, MKFILE_X],
        b"refused 1 3 79 14 BadPath\n",
    ),
    (
        &[&[HEADER, SUBVOL_A, MKFILE_X, WRITE_Y, END]],
        &[HEADER, SUBVOL_A, MKFILE_X],
        b"refused 1 3 79 15 NoEntry\n",
    ),
    (
        &[&[HEADER, SUBVOL_A, MKFILE_X, MKFILE_BELOW_X, END]],
        &[HEADER, SUBVOL_A, MKFILE_X],
        b"refused 1 3 79 16 NotDirectory\n",
    ),
    (
        &[&[HEADER, SUBVOL_A, MKFILE_X, MKFILE_X, END]],
        &[HEADER, SUBVOL_A, MKFILE_X],
        b"refused 1 3 79 17 EntryThere\n",
    ),
    (
        &[&[HEADER, SUBVOL_A, MKFILE_X, WRITE_ROOT, END]],
        &[HEADER, SUBVOL_A, MKFILE_X],
        b"refused 1 3 79 21 NotFile\n",
    ),
    (
        &[&[HEADER, SUBVOL_A, MKFILE_X, MKFILE_ROOT, END]],
        &[HEADER, SUBVOL_A, MKFILE_X],
        b"refused 1 3 79 26 IsRoot\n",
    ),
    (
        &[&[
            HEADER,
            SUBVOL_A,
            MKFILE_X,
            WRITE_NOTHING,
            WRITE_LAST,
            WRITE_PAST_LAST,
            END,
        ]],
        &[HEADER, SUBVOL_A, MKFILE_X, WRITE_NOTHING, WRITE_LAST],
        b"refused 1 5 142 27 FileTooBig\n",
    ),
    (
        &[&[
            HEADER,
            SUBVOL_A,
            MKFILE_X,
            TRUNCATE_GREATEST,
            TRUNCATE_PAST,
            END,
        ]],
        &[HEADER, SUBVOL_A, MKFILE_X, TRUNCATE_GREATEST],
        b"refused 1 4 106 27 FileTooBig\n",
    ),
];

// Composes at most three files, and gives the exit status.
fn compose_files(
    alloc: Global,
    files: &[Pieces],
    inputs: &mut MemInputs,
    out: &mut MemSink,
    notes: &mut MemSink,
) -> Result<u8, AllocError> {
    let mut words = words_of(alloc, &["compose", "none"])?;
    for (name, pieces) in ["first", "second", "third"].into_iter().zip(files) {
        inputs.add(name, joined(alloc, pieces)?.as_slice())?;
        words.push(String::from_str(alloc, name)?)?;
    }
    Ok(run(
        alloc,
        &words,
        Vec::new(alloc),
        inputs,
        out,
        notes,
        &mut NoDisk::new(),
    ))
}

const COMPOSED: &[(&[Pieces], Pieces)] = &[
    (&[FIRST], FIRST),
    (&[FIRST, SECOND], BOTH),
    (
        &[&[
            HEADER, SUBVOL_A, MKFILE_X, WRITE_HI, SNAPSHOT_B, WRITE_MARK, END,
        ]],
        BOTH,
    ),
    (
        &[&[
            HEADER, SUBVOL_A, MKFILE_X, WRITE_HI, END, HEADER, SNAPSHOT_B, WRITE_MARK, END,
        ]],
        BOTH,
    ),
    (
        &[&[HEADER, SUBVOL_A, MKFILE_X, WRITE_NOTHING, WRITE_LAST, END]],
        &[HEADER, SUBVOL_A, MKFILE_X, WRITE_NOTHING, WRITE_LAST, END],
    ),
    (
        &[
            &[HEADER, SUBVOL_A, MKFILE_X, TRUNCATE_1, END],
            &[HEADER, SNAPSHOT_B, UPDATE_EXTENT_X, TRUNCATE_GREATEST, END],
        ],
        &[
            HEADER,
            SUBVOL_B,
            MKFILE_X,
            TRUNCATE_1,
            UPDATE_EXTENT_X,
            TRUNCATE_GREATEST,
            END,
        ],
    ),
];

#[test]
fn chains_are_composed(rt: HostRuntime) -> Result<(), Fail> {
    for &(files, want) in COMPOSED {
        let mut inputs = MemInputs::new(rt.alloc());
        let mut out = MemSink::new(rt.alloc());
        let mut notes = MemSink::new(rt.alloc());
        let status = compose_files(rt.alloc(), files, &mut inputs, &mut out, &mut notes)?;
        same(&rt, status, 0);
        same(&rt, out.bytes(), joined(rt.alloc(), want)?.as_slice());
        same(&rt, notes.bytes(), b"".as_slice());
    }
    Ok(())
}

#[test]
fn the_first_unlawful_command_is_named(rt: HostRuntime) -> Result<(), Fail> {
    for &(files, written, note) in REFUSED {
        let mut inputs = MemInputs::new(rt.alloc());
        let mut out = MemSink::new(rt.alloc());
        let mut notes = MemSink::new(rt.alloc());
        let status = compose_files(rt.alloc(), files, &mut inputs, &mut out, &mut notes)?;
        same(&rt, notes.bytes(), note);
        same(&rt, status, 1);
        same(&rt, out.bytes(), joined(rt.alloc(), written)?.as_slice());
    }
    Ok(())
}

#[test]
fn a_failed_read_is_no_end_of_a_file(rt: HostRuntime) -> Result<(), Fail> {
    let whole = joined(rt.alloc(), BOTH)?;
    for call in 1..=40 {
        let mut inputs = MemInputs::new(rt.alloc());
        inputs.fail_call(call)?;
        let mut out = MemSink::new(rt.alloc());
        let mut notes = MemSink::new(rt.alloc());
        let status = compose_files(
            rt.alloc(),
            &[FIRST, SECOND],
            &mut inputs,
            &mut out,
            &mut notes,
        )?;
        if status == 0 && 2 < call {
            same(&rt, out.bytes(), whole.as_slice());
            continue;
        }
        same(&rt, status, 3);
        same(&rt, notes.bytes(), b"input fault\n".as_slice());
        same(&rt, out.bytes().len() < whole.as_slice().len(), true);
        same(&rt, whole.as_slice().starts_with(out.bytes()), true);
    }
    Ok(())
}

#[test]
fn a_failed_write_ends_a_run(rt: HostRuntime) -> Result<(), Fail> {
    let mut inputs = MemInputs::new(rt.alloc());
    let mut out = MemSink::new(rt.alloc());
    out.fail_call(1)?;
    let mut notes = MemSink::new(rt.alloc());
    let status = compose_files(
        rt.alloc(),
        &[FIRST, SECOND],
        &mut inputs,
        &mut out,
        &mut notes,
    )?;
    same(&rt, status, 4);
    same(&rt, out.bytes(), b"".as_slice());
    same(&rt, notes.bytes(), b"output fault\n".as_slice());
    Ok(())
}

#[test]
fn a_failed_note_leaves_the_status(rt: HostRuntime) -> Result<(), Fail> {
    for (file, want) in [(EMPTY, 1), (FIRST, 0)] {
        let mut inputs = MemInputs::new(rt.alloc());
        let mut out = MemSink::new(rt.alloc());
        let mut notes = MemSink::new(rt.alloc());
        notes.fail_call(1)?;
        let status = compose_files(rt.alloc(), &[file], &mut inputs, &mut out, &mut notes)?;
        same(&rt, status, want);
        same(&rt, notes.bytes(), b"".as_slice());
    }
    Ok(())
}

const OTHER_WORDS: &[&[&str]] = &[
    &[],
    &["compose"],
    &["compose", "none"],
    &["Compose", "none", "first"],
    &["audit", "none"],
    &["audit", "store"],
    &["audit", "guard:bits=1", "none", "first"],
    &["audit", "guard:nodev", "none", "first"],
    &["dump"],
    &["dump", "first", "first"],
    &["export"],
    &["export", "none"],
    &["export", "first"],
    &["gen", "0", "1"],
    &["gen", "4097", "1"],
    &["gen", "1"],
    &["gen", "1", "18446744073709551616"],
    &["trial", "0", "1"],
    &["trial", "4097", "1"],
    &["trial", "1"],
    &["init"],
    &["init", "store", "more"],
    &["drop", "store"],
    &["drop", "store", "A", "more"],
    &["receive", "store"],
    &["receive", "guard:bits=1", "store", "first"],
    &["receive", "guard:nodev", "store", "first"],
    &["list"],
    &["list", "store", "more"],
    &["show", "store"],
    &["cat", "store", "A"],
    &["cat", "store", "A", "x", "more"],
    &["scrub", "store", "more"],
];

#[test]
fn other_words_mean_nothing(rt: HostRuntime) -> Result<(), Fail> {
    for &words in OTHER_WORDS {
        let words = words_of(rt.alloc(), words)?;
        let mut inputs = MemInputs::new(rt.alloc());
        inputs.add("first", joined(rt.alloc(), FIRST)?.as_slice())?;
        let mut out = MemSink::new(rt.alloc());
        let mut notes = MemSink::new(rt.alloc());
        same(
            &rt,
            run(
                rt.alloc(),
                &words,
                Vec::new(rt.alloc()),
                &mut inputs,
                &mut out,
                &mut notes,
                &mut NoDisk::new(),
            ),
            2,
        );
        same(&rt, out.bytes(), b"".as_slice());
        same(&rt, notes.bytes(), b"usage\n".as_slice());
    }
    Ok(())
}

// A chain of two parts, which begins with a header and is as long as `trial` says.
#[test]
fn a_chain_is_written(rt: HostRuntime) -> Result<(), Fail> {
    let words = words_of(rt.alloc(), &["gen", "2", "7"])?;
    let mut out = MemSink::new(rt.alloc());
    let mut notes = MemSink::new(rt.alloc());
    same(
        &rt,
        run(
            rt.alloc(),
            &words,
            Vec::new(rt.alloc()),
            &mut MemInputs::new(rt.alloc()),
            &mut out,
            &mut notes,
            &mut NoDisk::new(),
        ),
        0,
    );
    same(&rt, out.bytes().starts_with(HEADER), true);
    same(&rt, out.bytes().len(), 103_130);
    same(&rt, notes.bytes(), b"".as_slice());
    Ok(())
}

const CHECKED: &[(&[&str], u8, Pieces, &[u8])] = &[
    (&["audit", "none", "first"], 0, &[b"accepted 1 4\n"], b""),
    (
        &["audit", "none", "first", "second"],
        0,
        &[b"accepted 2 7\n"],
        b"",
    ),
    (
        &["audit", "none", "second"],
        1,
        &[],
        b"refused 1 1 17 13 NoParent\n",
    ),
    (&["dump", "first"], 0, &[DUMPED], b""),
    (
        &["export", "none", "first"],
        0,
        &[HEADER, SUBVOL_A, MKFILE_X_WITH_INO, WRITE_HI, END],
        b"",
    ),
    (
        &["export", "none", "second"],
        1,
        &[],
        b"refused 1 1 17 13 NoParent\n",
    ),
    (
        &["trial", "2", "7"],
        0,
        &[b"trial 2 24 103130 107061 0 4096\n"],
        b"",
    ),
];

#[test]
fn files_are_checked_and_printed(rt: HostRuntime) -> Result<(), Fail> {
    for &(words, status, written, note) in CHECKED {
        let words = words_of(rt.alloc(), words)?;
        let mut inputs = MemInputs::new(rt.alloc());
        inputs.add("first", joined(rt.alloc(), FIRST)?.as_slice())?;
        inputs.add("second", joined(rt.alloc(), SECOND)?.as_slice())?;
        let mut out = MemSink::new(rt.alloc());
        let mut notes = MemSink::new(rt.alloc());
        let guards: Vec<Box<dyn Guard>> = Vec::new(rt.alloc());
        let answered = run(
            rt.alloc(),
            &words,
            guards,
            &mut inputs,
            &mut out,
            &mut notes,
            &mut NoDisk::new(),
        );
        same(&rt, out.bytes(), joined(rt.alloc(), written)?.as_slice());
        same(&rt, notes.bytes(), note);
        same(&rt, answered, status);
    }
    Ok(())
}

#[test]
fn guards_are_asked(rt: HostRuntime) -> Result<(), Fail> {
    let words = words_of(rt.alloc(), &["audit", "guard:commands=3", "none", "first"])?;
    let mut guards: Vec<Box<dyn Guard>> = Vec::new(rt.alloc());
    guards.push(Box::new(rt.alloc(), CommandGuard::new(3))?)?;
    let mut inputs = MemInputs::new(rt.alloc());
    inputs.add("first", joined(rt.alloc(), FIRST)?.as_slice())?;
    let mut out = MemSink::new(rt.alloc());
    let mut notes = MemSink::new(rt.alloc());
    let status = run(
        rt.alloc(),
        &words,
        guards,
        &mut inputs,
        &mut out,
        &mut notes,
        &mut NoDisk::new(),
    );
    same(
        &rt,
        notes.bytes(),
        b"refused 1 4 112 33 Guarded 0 3\n".as_slice(),
    );
    same(&rt, status, 1);
    Ok(())
}
