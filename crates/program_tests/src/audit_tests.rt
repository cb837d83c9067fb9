// Files that are audited over objects in memory. The frames and the answers are from other
// programs.

use crate::same::same;
use crate::streams::{
    CLONE_Y, END, END_CUT, END_WITHOUT_SUM, FIRST, FLAGS, HEADER, HEADER_OF_VERSION_2, MKDIR_D,
    MKFILE_X, MKFILE_Y, PUNCH, Pieces, SECOND, SNAPSHOT_B, SUBVOL_A, WRITE_MARK_OF_VERSION_2,
    joined,
};
use auditor::audit;
use clone_resolve::EditCore;
use extent_map::Nowhere;
use guard_rules::{ByteGuard, CommandGuard, DeviceGuard, Guard};
use part_names::{NamedFiles, Overrides};
use std::alloc::{AllocError, Global};
use std::process::Abort;
use std::test::Fail;
use sx_base::{MemInputs, MemSink, Outcome, Refusal, Verdict};

// SNAPSHOT c, 33.. 3, of 22.. 2
const SNAPSHOT_C: &[u8] =
    b"E\x00\x00\x00\x02\x00\xec\xb7\x18l\x01\x00\x10\x003333333333333333\x02\x00\x08\x00\x03\x00\x00\x00\x00\x00\x00\x00\x0f\x00\x01\x00c\x14\x00\x10\x00\"\"\"\"\"\"\"\"\"\"\"\"\"\"\"\"\x15\x00\x08\x00\x02\x00\x00\x00\x00\x00\x00\x00";

// LINK y to x
const LINK: &[u8] = b"\x0a\x00\x00\x00\x0a\x00d\xe1\x01\xe0\x0f\x00\x01\x00y\x11\x00\x01\x00x";

// RENAME x to y
const RENAME: &[u8] = b"\x0a\x00\x00\x00\x09\x00!\x06\xb3\xd6\x0f\x00\x01\x00x\x10\x00\x01\x00y";

// MKDIR e
const MKDIR_E: &[u8] = b"\x05\x00\x00\x00\x04\x00\xc7]!6\x0f\x00\x01\x00e";

// MKFILE e/f
const MKFILE_F: &[u8] = b"\x07\x00\x00\x00\x03\x001\x06\xf4\x12\x0f\x00\x03\x00e/f";

// RENAME d to e
const RENAME_OVER: &[u8] =
    b"\x0a\x00\x00\x00\x09\x00\xc8\x11Q\x99\x0f\x00\x01\x00d\x10\x00\x01\x00e";

// RENAME d to d/g
const RENAME_INTO: &[u8] = b"\x0c\x00\x00\x00\x09\x00a`\xf8N\x0f\x00\x01\x00d\x10\x00\x03\x00d/g";

// WRITE x from 0 "12345678"
const WRITE_EIGHT: &[u8] =
    b"\x1d\x00\x00\x00\x0f\x00/\xc8\x0be\x0f\x00\x01\x00x\x12\x00\x08\x00\x00\x00\x00\x00\x00\x00\x00\x00\x13\x00\x08\x0012345678";

// WRITE x from 8 "9"
const WRITE_NINTH: &[u8] =
    b"\x16\x00\x00\x00\x0f\x00&\xed\x15\x0f\x0f\x00\x01\x00x\x12\x00\x08\x00\x08\x00\x00\x00\x00\x00\x00\x00\x13\x00\x01\x009";

// FALLOCATE without attributes
const FALLOCATE_OF_NOTHING: &[u8] = b"\x00\x00\x00\x00\x17\x00\x93\xccEF";

// A stream that goes on from the second.
const THIRD: Pieces = &[HEADER, SNAPSHOT_C, END];

const TWO_WRITES: Pieces = &[HEADER, SUBVOL_A, MKFILE_X, WRITE_EIGHT, WRITE_NINTH, END];

const NAMES: [&str; 3] = ["first", "second", "third"];

// A refusal at a command of a file, and the offset of that command. A constant calls no function.
macro_rules! refused {
    ($file:expr, $command:expr, $offset:expr, $refusal:expr $(,)?) => {
        Outcome::Refused(Verdict {
            file: $file,
            command: $command,
            offset: $offset,
            refusal: $refusal,
        })
    };
}

// An audit of up to three files, given by their pieces, where one call of the inputs and one of the
// output may fail; its outcome, and what is written. A file of no pieces is missing.
#[derive(Clone, Copy)]
struct Case<'a> {
    files: &'a [&'a [&'a [u8]]],
    failing: [u64; 2],
    outcome: Outcome,
    written: &'a [u8],
}

// Audits the files of a case under guards, and expects what it says.
fn expect(
    rt: &impl Abort,
    alloc: Global,
    case: &Case<'_>,
    guards: &mut [Box<dyn Guard>],
) -> Result<(), AllocError> {
    let mut inputs = MemInputs::new(alloc);
    inputs.fail_call(case.failing[0])?;
    let mut names = Vec::new(alloc);
    for (name, pieces) in NAMES.iter().zip(case.files) {
        let bytes = joined(alloc, pieces)?;
        if !bytes.as_slice().is_empty() {
            inputs.add(name, bytes.as_slice())?;
        }
        names.push(String::from_str(alloc, name)?)?;
    }
    let mut out = MemSink::new(alloc);
    out.fail_call(case.failing[1])?;
    let core = EditCore::new(alloc);
    let own = Overrides::none(alloc);
    let given = NamedFiles {
        alloc,
        files: &names,
        overrides: &own,
    };
    let answer = audit(&given, core, Nowhere, &mut inputs, guards, &mut out);
    same(rt, answer, case.outcome);
    same(rt, out.bytes(), case.written);
    Ok(())
}

const UNGUARDED: &[(&[&[&[u8]]], [u64; 2], Outcome, &[u8])] = &[
    (&[&[HEADER, END]], [0, 0], Outcome::Done, b"accepted 0 1\n"),
    (&[FIRST, SECOND], [0, 0], Outcome::Done, b"accepted 2 7\n"),
    (
        &[&[HEADER, END_WITHOUT_SUM]],
        [0, 0],
        refused!(
            1,
            1,
            17,
            Refusal::BadChecksum {
                stored: 0,
                computed: 0x9dc9_6c50,
            },
        ),
        b"",
    ),
    (
        &[&[HEADER, END_CUT]],
        [0, 0],
        refused!(1, 1, 17, Refusal::Truncated),
        b"",
    ),
    (&[&[]], [0, 0], refused!(1, 1, 0, Refusal::Truncated), b""),
    (
        &[FIRST, FIRST],
        [0, 0],
        refused!(2, 1, 17, Refusal::NameThere),
        b"",
    ),
    (
        &[FIRST, THIRD],
        [0, 0],
        refused!(2, 1, 17, Refusal::NoParent),
        b"",
    ),
    (
        &[FIRST, SECOND, THIRD],
        [0, 0],
        Outcome::Done,
        b"accepted 3 9\n",
    ),
    (
        &[&[
            HEADER,
            SUBVOL_A,
            MKFILE_X,
            LINK,
            RENAME,
            MKDIR_D,
            MKDIR_E,
            MKFILE_F,
            RENAME_OVER,
            END,
        ]],
        [0, 0],
        refused!(1, 8, 166, Refusal::NotEmpty),
        b"",
    ),
    (
        &[&[
            HEADER,
            SUBVOL_A,
            MKFILE_X,
            LINK,
            RENAME,
            MKDIR_D,
            MKDIR_E,
            MKFILE_F,
            RENAME_INTO,
            END,
        ]],
        [0, 0],
        refused!(1, 8, 166, Refusal::IntoItself),
        b"",
    ),
    (
        &[&[HEADER, SUBVOL_A, MKFILE_X, LINK, RENAME, MKFILE_X, END]],
        [0, 0],
        refused!(1, 5, 119, Refusal::EntryThere),
        b"",
    ),
    (
        &[&[HEADER, SUBVOL_A, MKFILE_X, LINK, RENAME, MKFILE_Y, END]],
        [0, 0],
        refused!(1, 5, 119, Refusal::EntryThere),
        b"",
    ),
    (&[FIRST, SECOND], [2, 0], Outcome::InputFault, b""),
    (&[FIRST, SECOND], [0, 1], Outcome::OutputFault, b""),
];

#[test]
fn files_without_guards(rt: HostRuntime) -> Result<(), Fail> {
    for &(files, failing, outcome, written) in UNGUARDED {
        let guards: &mut [Box<dyn Guard>] = &mut [];
        let case = Case {
            files,
            failing,
            outcome,
            written,
        };
        expect(&rt, rt.alloc(), &case, guards)?;
    }
    Ok(())
}

const CLONES: &[(&[&[&[u8]]], Outcome, &[u8])] = &[
    (
        &[FIRST, &[HEADER, SNAPSHOT_B, MKFILE_Y, CLONE_Y, END]],
        Outcome::Done,
        b"accepted 2 8\n",
    ),
    (
        &[
            FIRST,
            &[
                HEADER_OF_VERSION_2,
                SNAPSHOT_B,
                MKFILE_Y,
                CLONE_Y,
                WRITE_MARK_OF_VERSION_2,
                PUNCH,
                FLAGS,
                END,
            ],
        ],
        Outcome::Done,
        b"accepted 2 11\n",
    ),
    (
        &[&[HEADER, SUBVOL_A, FALLOCATE_OF_NOTHING, END]],
        refused!(1, 2, 64, Refusal::UnknownCommand(23)),
        b"",
    ),
    (
        &[&[HEADER_OF_VERSION_2, SUBVOL_A, FALLOCATE_OF_NOTHING, END]],
        refused!(1, 2, 64, Refusal::MissingAttribute(4)),
        b"",
    ),
];

#[test]
fn clones_and_version_two(rt: HostRuntime) -> Result<(), Fail> {
    for &(files, outcome, written) in CLONES {
        let guards: &mut [Box<dyn Guard>] = &mut [];
        let case = Case {
            files,
            failing: [0, 0],
            outcome,
            written,
        };
        expect(&rt, rt.alloc(), &case, guards)?;
    }
    Ok(())
}

const GUARDED: &[(u64, u64, &[&[u8]], Outcome, &[u8])] = &[
    (
        8,
        9,
        TWO_WRITES,
        refused!(1, 4, 118, Refusal::Guarded { guard: 0, used: 8 }),
        b"",
    ),
    (
        8,
        3,
        FIRST,
        refused!(1, 4, 112, Refusal::Guarded { guard: 2, used: 3 }),
        b"",
    ),
    (9, 5, TWO_WRITES, Outcome::Done, b"accepted 1 5\n"),
];

#[test]
fn files_under_guards(rt: HostRuntime) -> Result<(), Fail> {
    for &(bytes, commands, file, outcome, written) in GUARDED {
        let mut guards: Vec<Box<dyn Guard>> = Vec::new(rt.alloc());
        guards.push(Box::new(rt.alloc(), ByteGuard::new(bytes))?)?;
        guards.push(Box::new(rt.alloc(), DeviceGuard::new())?)?;
        guards.push(Box::new(rt.alloc(), CommandGuard::new(commands))?)?;
        let case = Case {
            files: &[file],
            failing: [0, 0],
            outcome,
            written,
        };
        expect(&rt, rt.alloc(), &case, &mut guards)?;
    }
    Ok(())
}
