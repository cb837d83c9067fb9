//! Worked examples. What is expected was found by hand and spelled by another program.
ghost use Rattle.std.specs.Prelude.{⊤, [], None};

use crate::squash;
use crate::streams::{
    CLONE, END, HEADER, HEADER_V2, MKFILE, MKFILE_Y, PUNCH, SUBVOL_A, SUBVOL_B, SUBVOL_NAMED,
    TRUNCATE_2, TRUNCATE_3, TRUNCATE_6, UNLINK, WRITE_AB, WRITE_AB_V2, WRITE_ABC, WRITE_DEF,
    WRITE_EF, WRITE_EF_V2, WRITE_GHIJ, WRITE_MIDDLE, WRITE_MORE, WRITE_NONE, WRITE_Q, WRITE_SIX,
    WRITE_SIX_OTHERWISE, WRITE_SIX_V2, WRITE_Y, joined,
};
use clone_resolve::{EditCore, Key};
use extent_map::Nowhere;
use part_names::{FileOverride, NamedFile};
use std::alloc::{AllocError, Global};
use std::fmt::Debug;
use std::process::Abort;
use std::test::Fail;
use sx_base::{
    Blob, Failed, Inputs, Lost, MemInputs, MemSink, Outcome, PlainInputs, Refusal, Stop, Verdict,
};
use uuid::Uuid;

// Both values are the same. An assertion has many locals, and each step of a function is proved
// beside all of them: so it stands here, once.
fn same<T: PartialEq + Debug + Drop>(rt: &impl Abort, got: T, want: T) {
    assert_eq!(rt; got, want);
}

// Squashes the file over no store.
fn squash_file<I: Inputs>(
    alloc: Global,
    inputs: &mut I,
    said: &FileOverride,
    out: &mut MemSink,
) -> Outcome {
    squash_over(alloc, EditCore::new(alloc), inputs, said, out)
}

// Squashes the file over these subvolumes.
fn squash_over<I: Inputs>(
    alloc: Global,
    core: EditCore<Nowhere>,
    inputs: &mut I,
    said: &FileOverride,
    out: &mut MemSink,
) -> Outcome {
    said.is_given();
    let file = NamedFile {
        alloc,
        number: 1,
        name: "f",
        said,
    };
    squash(&file, core, Nowhere, inputs, out)
}

// How squashing a file ends, of which these calls fail, and what was written.
fn squashed(
    alloc: Global,
    file: &[u8],
    said: &FileOverride,
    failing: (u64, u64),
) -> Result<(Outcome, MemSink), AllocError> {
    let mut inputs = MemInputs::new(alloc);
    inputs.add("f", file)?;
    inputs.fail_call(failing.0)?;
    let mut out = MemSink::new(alloc);
    out.fail_call(failing.1)?;
    let outcome = squash_file(alloc, &mut inputs, said, &mut out);
    Ok((outcome, out))
}

// How squashing a file ends, of which these calls fail; and what is written then.
fn ends(
    rt: &impl Abort,
    alloc: Global,
    file: &[u8],
    failing: (u64, u64),
    outcome: Outcome,
    written: &[u8],
) -> Result<(), AllocError> {
    let said = FileOverride::none(alloc);
    let (got, out) = squashed(alloc, file, &said, failing)?;
    same(rt, got, outcome);
    same(rt, out.bytes(), written);
    Ok(())
}

// Files, and what they are squashed to.
const SQUASHED: &[(&[&[u8]], &[&[u8]])] = &[
    // written anew twice: of the first bytes nothing is left but how long the file was
    (
        &[
            HEADER, SUBVOL_A, MKFILE, WRITE_ABC, WRITE_DEF, WRITE_GHIJ, END,
        ],
        &[HEADER, SUBVOL_A, MKFILE, TRUNCATE_3, WRITE_GHIJ, END],
    ),
    // the middle is written over
    (
        &[HEADER, SUBVOL_A, MKFILE, WRITE_SIX, WRITE_MIDDLE, END],
        &[
            HEADER,
            SUBVOL_A,
            MKFILE,
            WRITE_AB,
            WRITE_EF,
            WRITE_MIDDLE,
            END,
        ],
    ),
    // the end is cut off: the file was longer in between
    (
        &[HEADER, SUBVOL_A, MKFILE, WRITE_SIX, TRUNCATE_2, END],
        &[
            HEADER, SUBVOL_A, MKFILE, WRITE_AB, TRUNCATE_6, TRUNCATE_2, END,
        ],
    ),
    // a file that is unlinked
    (
        &[HEADER, SUBVOL_A, MKFILE, WRITE_SIX, UNLINK, END],
        &[HEADER, SUBVOL_A, MKFILE, TRUNCATE_6, UNLINK, END],
    ),
    // bytes that stand through a clone alone
    (
        &[
            HEADER, SUBVOL_A, MKFILE, MKFILE_Y, WRITE_SIX, CLONE, WRITE_Q, UNLINK, END,
        ],
        &[
            HEADER, SUBVOL_A, MKFILE, MKFILE_Y, WRITE_SIX, CLONE, UNLINK, END,
        ],
    ),
    // all bytes stand, as does a WRITE of none
    (
        &[
            HEADER, SUBVOL_A, MKFILE, WRITE_SIX, WRITE_MORE, WRITE_NONE, END,
        ],
        &[
            HEADER, SUBVOL_A, MKFILE, WRITE_SIX, WRITE_MORE, WRITE_NONE, END,
        ],
    ),
    // a frame that is not as canonical
    (
        &[HEADER, SUBVOL_A, MKFILE, WRITE_SIX_OTHERWISE, END],
        &[HEADER, SUBVOL_A, MKFILE, WRITE_SIX, END],
    ),
    // version 2, with a hole in the middle
    (
        &[HEADER_V2, SUBVOL_A, MKFILE, WRITE_SIX_V2, PUNCH, END],
        &[
            HEADER_V2,
            SUBVOL_A,
            MKFILE,
            WRITE_AB_V2,
            WRITE_EF_V2,
            PUNCH,
            END,
        ],
    ),
    // no file
    (&[HEADER, SUBVOL_A, END], &[HEADER, SUBVOL_A, END]),
];

#[test]
fn files_are_squashed(rt: HostRuntime) -> Result<(), Fail> {
    for &(file, written) in SQUASHED {
        let file = joined(rt.alloc(), file)?;
        let written = joined(rt.alloc(), written)?;
        ends(
            &rt,
            rt.alloc(),
            file.as_slice(),
            (0, 0),
            Outcome::Done,
            written.as_slice(),
        )?;
    }
    Ok(())
}

// Files that cannot be squashed: the number of the command with which they are refused, the place
// of its frame, and why.
const REFUSED: &[(&[&[u8]], u64, u64, Refusal)] = &[
    // the head of a second part, in a stream of its own and in the same one
    (
        &[
            HEADER, SUBVOL_A, MKFILE, WRITE_SIX, END, HEADER, SUBVOL_B, END,
        ],
        5,
        143,
        Refusal::NotConsecutive,
    ),
    (
        &[HEADER, SUBVOL_A, MKFILE, SUBVOL_B, WRITE_SIX, END],
        3,
        79,
        Refusal::NotConsecutive,
    ),
    // what comes behind END
    (
        &[HEADER, SUBVOL_A, MKFILE, END, HEADER, END],
        4,
        106,
        Refusal::NotConsecutive,
    ),
    // no part
    (&[HEADER, END], 1, 17, Refusal::NotConsecutive),
    // a command that is refused, behind some that are not
    (
        &[HEADER, SUBVOL_A, MKFILE, WRITE_SIX, WRITE_Y, END],
        4,
        116,
        Refusal::NoEntry,
    ),
    // a stream without END
    (
        &[HEADER, SUBVOL_A, MKFILE, WRITE_SIX],
        4,
        116,
        Refusal::Truncated,
    ),
    // one that is cut off in its last frame
    (
        &[HEADER, SUBVOL_A, MKFILE, WRITE_SIX, b"\0\0\0\0\x15\0Pl\xc9"],
        4,
        116,
        Refusal::Truncated,
    ),
];

#[test]
fn files_are_refused(rt: HostRuntime) -> Result<(), Fail> {
    for &(file, command, offset, refusal) in REFUSED {
        let file = joined(rt.alloc(), file)?;
        let verdict = Verdict {
            file: 1,
            command,
            offset,
            refusal,
        };
        let outcome = Outcome::Refused(verdict);
        ends(&rt, rt.alloc(), file.as_slice(), (0, 0), outcome, b"")?;
    }
    Ok(())
}

#[test]
fn a_part_has_the_name_that_is_given(rt: HostRuntime) -> Result<(), Fail> {
    let mut name = Blob::new(rt.alloc());
    name.push_all(b"named")?;
    let mut said = FileOverride::none(rt.alloc());
    said.say_name(name);
    let file = joined(rt.alloc(), &[HEADER, SUBVOL_A, MKFILE, WRITE_SIX, END])?;
    let written = joined(rt.alloc(), &[HEADER, SUBVOL_NAMED, MKFILE, WRITE_SIX, END])?;
    let (outcome, out) = squashed(rt.alloc(), file.as_slice(), &said, (0, 0))?;
    same(&rt, outcome, Outcome::Done);
    same(&rt, out.bytes(), written.as_slice());
    Ok(())
}

// Subvolumes of which one has this name and UUID.
fn one_there(alloc: Global, name: &[u8], uuid: &[u8; 16]) -> Result<EditCore<Nowhere>, Stop> {
    let mut core = EditCore::new(alloc);
    let key = Key {
        uuid: Uuid::from_bytes(*uuid),
        ctransid: 1,
    };
    core.add(name, key, None, None)?;
    Ok(core)
}

// How a file with the snapshot `a` is squashed over one subvolume.
fn over_one(
    rt: &impl Abort,
    alloc: Global,
    core: Result<EditCore<Nowhere>, Stop>,
    outcome: Outcome,
    written: &[u8],
) -> Result<(), AllocError> {
    let file = joined(alloc, &[HEADER, SUBVOL_A, MKFILE, WRITE_SIX, END])?;
    let mut inputs = MemInputs::new(alloc);
    inputs.add("f", file.as_slice())?;
    let mut out = MemSink::new(alloc);
    let Ok(core) = core else {
        return Err(AllocError);
    };
    let got = squash_over(
        alloc,
        core,
        &mut inputs,
        &FileOverride::none(alloc),
        &mut out,
    );
    same(rt, got, outcome);
    same(rt, out.bytes(), written);
    Ok(())
}

#[test]
fn a_snapshot_that_is_there_counts_as_not_there(rt: HostRuntime) -> Result<(), Fail> {
    let written = joined(rt.alloc(), &[HEADER, SUBVOL_A, MKFILE, WRITE_SIX, END])?;
    let there = one_there(rt.alloc(), b"a", b"AAAAAAAAAAAAAAAA");
    over_one(&rt, rt.alloc(), there, Outcome::Done, written.as_slice())?;
    let other = one_there(rt.alloc(), b"a", b"BBBBBBBBBBBBBBBB");
    let verdict = Verdict {
        file: 1,
        command: 1,
        offset: 17,
        refusal: Refusal::NameThere,
    };
    over_one(&rt, rt.alloc(), other, Outcome::Refused(verdict), b"")?;
    Ok(())
}

// A small file is read in two calls each time, of which the second finds the end, and written in
// one.
#[test]
fn each_call_of_a_small_file_fails(rt: HostRuntime) -> Result<(), Fail> {
    let file = joined(rt.alloc(), &[HEADER, SUBVOL_A, MKFILE, WRITE_SIX, END])?;
    let bytes = file.as_slice();
    for call in 1..5 {
        let outcome = Outcome::InputFault;
        ends(&rt, rt.alloc(), bytes, (call, 0), outcome, b"")?;
    }
    let outcome = Outcome::OutputFault;
    ends(&rt, rt.alloc(), bytes, (0, 1), outcome, b"")?;
    ends(&rt, rt.alloc(), bytes, (5, 2), Outcome::Done, bytes)?;
    Ok(())
}

// A file that is read in three calls each time, and written in two: 2,200 WRITE commands of no
// bytes, which stand.
fn long_file(alloc: Global) -> Result<Vec<u8>, AllocError> {
    let mut bytes = joined(alloc, &[HEADER, SUBVOL_A, MKFILE])?;
    for _ in 0..2_200 {
        bytes.extend_from_slice(WRITE_NONE)?;
    }
    bytes.extend_from_slice(END)?;
    Ok(bytes)
}

// The first bytes, as far as they are there.
fn first(bytes: &[u8], len: usize) -> &[u8] {
    &bytes[..len.min(bytes.len())]
}

// What goes out at first are the frames with which it is 65,536 bytes or more. END and the frames
// before it go out once the file was read to its end.
#[test]
fn each_call_of_a_long_file_fails(rt: HostRuntime) -> Result<(), Fail> {
    let file = long_file(rt.alloc())?;
    let bytes = file.as_slice();
    let front = first(bytes, 65_551);
    for call in 1..6 {
        let outcome = Outcome::InputFault;
        ends(&rt, rt.alloc(), bytes, (call, 0), outcome, b"")?;
    }
    let unread = Outcome::InputFault;
    let unwritten = Outcome::OutputFault;
    ends(&rt, rt.alloc(), bytes, (6, 0), unread, front)?;
    ends(&rt, rt.alloc(), bytes, (0, 1), unwritten, b"")?;
    ends(&rt, rt.alloc(), bytes, (0, 2), unwritten, front)?;
    ends(&rt, rt.alloc(), bytes, (7, 3), Outcome::Done, bytes)?;
    Ok(())
}

// Files in memory that are others after some calls. They tell nothing and never fail.
#[derive(Drop)]
struct ChangedInputs {
    before: PlainInputs,
    after: PlainInputs,
    calls: u64,
}

impl Inputs for ChangedInputs {
    ghost told = { λ _. None };

    ghost faults = { λ _. 0 };

    ghost ends = { λ _. 0 };

    ghost last_end = { λ _. record { name = []; place = 0 } };

    ghost asked = { λ _ _. ⊤ };

    fn read_at(&mut self, name: &str, at: u64, buf: &mut [u8]) -> Result<usize, Failed> {
        if self.calls == 0 {
            return self.after.read_at(name, at, buf);
        }
        self.calls -= 1;
        self.before.read_at(name, at, buf)
    }

    fn read_again(&mut self, _name: &str, _at: u64, buf: &mut [u8]) -> Result<(), Lost> {
        for byte in buf {
            *byte = 0;
        }
        Ok(())
    }
}

// What a file is when it is read again, and the command and the place where that is found.
const CHANGED: &[(&[&[u8]], u64, u64)] = &[
    (&[HEADER, SUBVOL_A, MKFILE, END], 3, 79),
    (
        &[HEADER, SUBVOL_A, MKFILE, WRITE_SIX, WRITE_NONE, END],
        5,
        147,
    ),
    (&[HEADER_V2, SUBVOL_A, MKFILE, WRITE_SIX_V2, END], 1, 17),
];

#[test]
fn a_file_that_was_changed_is_refused(rt: HostRuntime) -> Result<(), Fail> {
    let file = joined(rt.alloc(), &[HEADER, SUBVOL_A, MKFILE, WRITE_SIX, END])?;
    let said = FileOverride::none(rt.alloc());
    for &(changed, command, offset) in CHANGED {
        let mut inputs = ChangedInputs {
            before: PlainInputs::new(rt.alloc()),
            after: PlainInputs::new(rt.alloc()),
            calls: 2,
        };
        inputs.before.add("f", file.as_slice())?;
        inputs
            .after
            .add("f", joined(rt.alloc(), changed)?.as_slice())?;
        let mut out = MemSink::new(rt.alloc());
        let verdict = Verdict {
            file: 1,
            command,
            offset,
            refusal: Refusal::NotConsecutive,
        };
        let outcome = squash_file(rt.alloc(), &mut inputs, &said, &mut out);
        same(&rt, outcome, Outcome::Refused(verdict));
        same(&rt, out.bytes().len(), 0);
    }
    Ok(())
}
