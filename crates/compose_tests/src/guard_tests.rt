//! Guard words, and what guards allow at their limits.

use crate::same::same;
use crate::values::uuid;
use guard_rules::{
    ByteGuard, CommandGuard, DeviceGuard, EndGuard, Guard, GuardSpec, look_all, parse_guard,
};
use send_commands::Command;
use std::process::Abort;
use std::test::Fail;

fn clone(offset: u64, clone_len: u64) -> Command<'static> {
    Command::Clone {
        path: b"x",
        offset,
        clone_uuid: uuid(1),
        clone_ctransid: 1,
        clone_path: b"y",
        clone_offset: 0,
        clone_len,
    }
}

// What the command of a test does: a WRITE or a CLONE at a place, a TRUNCATE, a new device, or END.
#[derive(Clone, Copy)]
enum Word {
    Write(u64, &'static [u8]),
    Clone(u64, u64),
    Truncate(u64),
    Device,
    End,
}

fn command(word: Word) -> Command<'static> {
    match word {
        Word::Write(offset, bytes) => Command::Write {
            path: b"x",
            offset,
            bytes,
        },
        Word::Clone(offset, clone_len) => clone(offset, clone_len),
        Word::Truncate(size) => Command::Truncate { size, path: b"x" },
        Word::Device => Command::MkNod {
            mode: 0o20644,
            rdev: 259,
            path: b"d",
        },
        Word::End => Command::End,
    }
}

const WORDS: &[(&str, Option<GuardSpec>)] = &[
    ("guard:bytes=8", Some(GuardSpec::Bytes(8))),
    ("guard:commands=0", Some(GuardSpec::Commands(0))),
    ("guard:nodev", Some(GuardSpec::NoDevices)),
    (
        "guard:end=1099511627776",
        Some(GuardSpec::End(1_099_511_627_776)),
    ),
    (
        "guard:end=18446744073709551615",
        Some(GuardSpec::End(u64::MAX)),
    ),
    ("guard:end=18446744073709551616", None),
    ("guard:end=20000000000000000000", None),
    (
        "guard:bytes=00000000000000000008",
        Some(GuardSpec::Bytes(8)),
    ),
    ("guard:bytes=000000000000000000008", None),
    ("guard:bytes=", None),
    ("guard:bytes", None),
    ("guard:bytes=+8", None),
    ("guard:bytes=-8", None),
    ("guard:bytes=8 ", None),
    ("guard:bytes= 8", None),
    ("guard:bytes=0x8", None),
    ("guard:Bytes=8", None),
    ("guard:nodev=1", None),
    ("guard:nodevices", None),
    ("guard:", None),
    ("bytes=8", None),
    ("", None),
];

#[test]
fn words(rt: HostRuntime) {
    for &(word, wanted) in WORDS {
        same(&rt, (word, parse_guard(word)), (word, wanted));
    }
}

// A command, whether a guard allows it, and what the guard has counted then.
type Look = (Word, bool, u64);

// The guard looks at each command.
fn looks<G: Guard>(rt: &impl Abort, guard: &mut G, table: &[Look]) {
    for (word, allowed, used) in table {
        let command = command(*word);
        same(rt, guard.look(&command), *allowed);
        same(rt, guard.used(), *used);
    }
}

const BYTES: &[Look] = &[
    (Word::Write(0, b"12345"), true, 5),
    (Word::Write(0, b"1234"), false, 5),
    (Word::Clone(0, 4096), true, 5),
    (Word::End, true, 5),
    (Word::Write(u64::MAX, b"123"), true, 8),
    (Word::Write(0, b""), true, 8),
    (Word::Write(0, b"1"), false, 8),
];

#[test]
fn bytes_up_to_the_limit(rt: HostRuntime) {
    let mut guard = ByteGuard::new(8);
    same(&rt, guard.spec(), GuardSpec::Bytes(8));
    looks(&rt, &mut guard, BYTES);
}

const ENDS: &[Look] = &[
    (Word::Write(4090, b"12"), true, 4092),
    (Word::Write(0, b"1"), true, 4092),
    (Word::Write(4095, b"12"), false, 4092),
    (Word::Write(u64::MAX, b""), true, 4092),
    (Word::Write(u64::MAX, b"1"), false, 4092),
    (Word::Clone(u64::MAX, u64::MAX), false, 4092),
    (Word::Truncate(4097), false, 4092),
    (Word::Truncate(4096), true, 4096),
    (Word::Clone(0, 4096), true, 4096),
];

#[test]
fn ends_up_to_the_limit(rt: HostRuntime) {
    let mut guard = EndGuard::new(4096);
    same(&rt, guard.spec(), GuardSpec::End(4096));
    looks(&rt, &mut guard, ENDS);
}

// A command, the place of the first guard that refuses it, and what the guards have counted then.
const NAMED: &[(Word, Option<usize>, [u64; 3])] = &[
    (Word::Device, Some(1), [1, 0, 0]),
    (Word::Write(0, b"1"), None, [2, 0, 1]),
    (Word::Write(0, b"12"), Some(2), [3, 0, 1]),
    (Word::Write(0, b"1"), Some(0), [3, 0, 1]),
    (Word::Device, Some(0), [3, 0, 1]),
];

// Whether the first guard that refuses the command has this place, and the guards then have these
// counts.
fn answers(
    guards: &mut [Box<dyn Guard>],
    command: &Command<'_>,
    refused: Option<usize>,
    counts: [u64; 3],
) -> bool {
    look_all(guards, command) == refused
        && guards
            .iter()
            .zip(counts)
            .all(|(guard, count)| guard.used() == count)
}

#[test]
fn the_first_guard_that_refuses_is_named(rt: HostRuntime) -> Result<(), Fail> {
    let mut guards: Vec<Box<dyn Guard>> = Vec::new(rt.alloc());
    guards.push(Box::new(rt.alloc(), CommandGuard::new(3))?)?;
    guards.push(Box::new(rt.alloc(), DeviceGuard::new())?)?;
    guards.push(Box::new(rt.alloc(), ByteGuard::new(2))?)?;
    for &(word, refused, counts) in NAMED {
        let command = command(word);
        same(&rt, answers(&mut guards, &command, refused, counts), true);
    }
    Ok(())
}

#[test]
fn without_guards_nothing_is_refused(rt: HostRuntime) {
    let guards: &mut [Box<dyn Guard>] = &mut [];
    same(&rt, look_all(guards, &Command::End), None);
}
