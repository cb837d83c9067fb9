// Calls that stand, calls that nearly do, and what those that stand name and are made of.
use crate::{Access, FileArguments, Request, StoreAccess, Word, parse};
use guard_rules::{AnyGuard, Guard, GuardSpec};
use std::alloc::{AllocError, Global};
use std::process::Abort;
use std::test::Fail;

const STAND: &[&str] = &[
    "compose none one",
    "compose backups one two",
    "compose none name:new one name:escaped:a\\x20b two",
    "compose none parent:11111111-1111-1111-1111-111111111111:5 name:new one",
    "audit none one",
    "audit guard:bytes=9 guard:nodev backups one two",
    "dump none",
    "export none one",
    "gen 1 0",
    "gen 4096 18446744073709551615",
    "trial 2 7",
    "init backups",
    "drop backups monday",
    "drop backups escaped:a\\x20b",
    "receive backups one two",
    "receive none one",
    "receive guard:commands=3 guard:end=4096 backups name:new one",
    "list backups",
    "show backups monday",
    "cat backups monday etc/fstab",
    "cat backups escaped:\\xff escaped:\\x5c",
    "scrub backups",
    "send backups monday",
    "restore backups monday",
    "interleave backups 0 one",
    "interleave backups 0110 guard:bytes=9 one guard:nodev guard:end=1 two",
];

const NEARLY_STAND: &[&str] = &[
    "",
    "composed none one",
    "compose none",
    "compose none name:a name:b one",
    "compose none one name:a",
    "compose none name:a\\x20b parent:11111111-1111-1111-1111-111111111111:05 one",
    "compose none parent:AAAAAAAA-1111-1111-1111-111111111111:5 one",
    "compose none name:escaped:a\\x2 one",
    "audit guard:bytes= none one",
    "audit guard:nodev none",
    "audit guard:nodev",
    "dump",
    "dump one two",
    "export none",
    "gen 0 1",
    "gen 4097 1",
    "gen 1",
    "gen 1 2 3",
    "trial 1 18446744073709551616",
    "trial 4097 1",
    "init",
    "init backups more",
    "drop backups",
    "drop backups escaped:\\x41",
    "receive backups",
    "receive guard:nodevs backups one",
    "receive guard:nodev backups",
    "list",
    "list backups more",
    "show backups",
    "show backups monday more",
    "cat backups monday",
    "cat backups monday escaped:\\",
    "scrub",
    "send backups",
    "restore backups monday more",
    "interleave backups 0",
    "interleave backups 1 one",
    "interleave backups 0 guard:nodev",
    "interleave backups 0 one guard:nodev",
    "interleave backups 0 guard:nodevs one",
    "interleave backups x one",
    "interleave backups 0 1 2 3 4 5 6 7 8 9 10 11",
];

// A call, the store that it names, and the names of its files.
const NAMED: &[(&str, Option<(&str, Access)>, &str)] = &[
    ("compose none name:new one two", None, "one two"),
    (
        "export backups one",
        Some(("backups", Access::Reads)),
        "one",
    ),
    (
        "audit guard:nodev backups name:new one",
        Some(("backups", Access::Reads)),
        "one",
    ),
    ("dump none", None, "none"),
    ("gen 1 2", None, ""),
    ("init backups", Some(("backups", Access::Makes)), ""),
    ("drop backups one", Some(("backups", Access::Changes)), ""),
    (
        "receive guard:nodev none name:new one two",
        Some(("none", Access::Changes)),
        "one two",
    ),
    ("list backups", Some(("backups", Access::Reads)), ""),
    ("cat backups one two", Some(("backups", Access::Reads)), ""),
    (
        "interleave backups 01 guard:nodev one name:new",
        Some(("backups", Access::Changes)),
        "one name:new",
    ),
];

fn words_of(alloc: Global, line: &str) -> Result<Vec<String>, AllocError> {
    let mut words = Vec::new(alloc);
    for word in line.split(' ') {
        if !word.is_empty() {
            words.push(String::from_str(alloc, word)?)?;
        }
    }
    Ok(words)
}

// Whether a call stands.
fn stands(alloc: Global, line: &str) -> Result<bool, AllocError> {
    let words = words_of(alloc, line)?;
    Ok(parse(words.as_slice()).is_some())
}

fn same(rt: &impl Abort, line: &str, got: bool, want: bool) {
    assert!(rt; got == want, "{line}");
}

#[test]
fn calls_stand(rt: HostRuntime) -> Result<(), Fail> {
    for line in STAND {
        same(&rt, line, stands(rt.alloc(), line)?, true);
    }
    Ok(())
}

#[test]
fn calls_that_nearly_stand_mean_nothing(rt: HostRuntime) -> Result<(), Fail> {
    for line in NEARLY_STAND {
        same(&rt, line, stands(rt.alloc(), line)?, false);
    }
    Ok(())
}

// Whether a call names this store and these files, in order.
fn names(
    alloc: Global,
    line: &str,
    store: Option<(&str, Access)>,
    files: &str,
) -> Result<bool, AllocError> {
    let words = words_of(alloc, line)?;
    let files = words_of(alloc, files)?;
    let Some(request) = parse(words.as_slice()) else {
        return Ok(false);
    };
    let same_store = match (request.store(), store) {
        (Some(StoreAccess { file, access }), Some((name, way))) => file == name && access == way,
        (None, None) => true,
        _ => false,
    };
    let mut number = 0;
    for name in request.file_names() {
        if files.get(number).map(String::as_str) != Some(name) {
            return Ok(false);
        }
        number += 1;
    }
    let last = request.file_name(number as u64);
    let same_last = files.last().map(String::as_str) == last;
    Ok(same_store && same_last && number == files.len())
}

#[test]
fn calls_name_stores_and_files(rt: HostRuntime) -> Result<(), Fail> {
    for &(line, store, files) in NAMED {
        same(&rt, line, names(rt.alloc(), line, store, files)?, true);
    }
    Ok(())
}

// Words for names and paths, and what they mean.
const MEANT: &[(&str, &[u8])] = &[
    ("monday", b"monday"),
    ("escaped:a\\x20b", b"a b"),
    ("escaped:\\xff", b"\xff"),
    ("etc/fstab", b"etc/fstab"),
];

fn means(alloc: Global, text: &str, bytes: &[u8]) -> Result<bool, AllocError> {
    let Some(word) = Word::of(text) else {
        return Ok(false);
    };
    Ok(word.bytes(alloc)?.as_slice() == bytes)
}

#[test]
fn words_mean_bytes(rt: HostRuntime) -> Result<(), Fail> {
    for &(text, bytes) in MEANT {
        same(&rt, text, means(rt.alloc(), text, bytes)?, true);
    }
    Ok(())
}

// A call, and its guards.
const GUARDED: &[(&str, &[GuardSpec])] = &[
    (
        "audit guard:bytes=9 guard:nodev none one",
        &[GuardSpec::Bytes(9), GuardSpec::NoDevices],
    ),
    (
        "receive guard:commands=3 guard:end=4096 backups one",
        &[GuardSpec::Commands(3), GuardSpec::End(4_096)],
    ),
    (
        "interleave backups 01 guard:end=1 one guard:nodev two",
        &[GuardSpec::End(1), GuardSpec::NoDevices],
    ),
    ("compose none one", &[]),
];

fn are_new(guards: &[AnyGuard], wanted: &[GuardSpec]) -> bool {
    if guards.len() != wanted.len() {
        return false;
    }
    for place in 0..guards.len() {
        if guards[place].spec() != wanted[place] || guards[place].used() != 0 {
            return false;
        }
    }
    true
}

fn makes(alloc: Global, line: &str, wanted: &[GuardSpec]) -> Result<bool, AllocError> {
    let words = words_of(alloc, line)?;
    let Some(request) = parse(words.as_slice()) else {
        return Ok(false);
    };
    let guards = request.guards().new_guards(alloc)?;
    Ok(are_new(guards.as_slice(), wanted))
}

#[test]
fn guards_are_made_of_words(rt: HostRuntime) -> Result<(), Fail> {
    for &(line, wanted) in GUARDED {
        same(&rt, line, makes(rt.alloc(), line, wanted)?, true);
    }
    Ok(())
}

// A call, guards that are handed in with it, and whether they are its own.
const HANDED: &[(&str, &[GuardSpec], bool)] = &[
    (
        "audit guard:bytes=9 guard:nodev none one",
        &[GuardSpec::Bytes(9), GuardSpec::NoDevices],
        true,
    ),
    (
        "audit guard:bytes=9 guard:nodev none one",
        &[GuardSpec::NoDevices, GuardSpec::Bytes(9)],
        false,
    ),
    (
        "audit guard:bytes=9 guard:nodev none one",
        &[GuardSpec::Bytes(9)],
        false,
    ),
    (
        "receive guard:commands=3 backups one",
        &[GuardSpec::Commands(3), GuardSpec::NoDevices],
        false,
    ),
    (
        "receive guard:commands=3 backups one",
        &[GuardSpec::Commands(4)],
        false,
    ),
    ("list backups", &[], true),
];

fn are_own(alloc: Global, line: &str, handed: &[GuardSpec]) -> Result<bool, AllocError> {
    let words = words_of(alloc, line)?;
    let mut guards: Vec<Box<dyn Guard>> = Vec::new(alloc);
    for &spec in handed {
        guards.push(Box::new(alloc, AnyGuard::new(spec))?)?;
    }
    let Some(request) = parse(words.as_slice()) else {
        return Ok(false);
    };
    Ok(request.guards().are_those(guards.as_slice()))
}

#[test]
fn handed_guards_are_compared(rt: HostRuntime) -> Result<(), Fail> {
    for &(line, handed, own) in HANDED {
        same(&rt, line, are_own(rt.alloc(), line, handed)?, own);
    }
    Ok(())
}

// A call with turns, how many guards each file has, and the files.
const TURNS: &[(&str, &[u8], &[usize], &str)] = &[
    (
        "interleave backups 0110 guard:bytes=9 one guard:nodev guard:end=1 two",
        b"0110",
        &[1, 2],
        "one two",
    ),
    ("interleave backups 0 one", b"0", &[0], "one"),
];

fn same_texts(texts: &[String], others: &[String]) -> bool {
    if texts.len() != others.len() {
        return false;
    }
    for place in 0..texts.len() {
        if texts[place].as_str() != others[place].as_str() {
            return false;
        }
    }
    true
}

fn same_counts(guards: &[Vec<AnyGuard>], shares: &[usize]) -> bool {
    if guards.len() != shares.len() {
        return false;
    }
    for place in 0..guards.len() {
        if guards[place].len() != shares[place] {
            return false;
        }
    }
    true
}

fn take_turns(
    alloc: Global,
    line: &str,
    schedule: &[u8],
    shares: &[usize],
    files: &str,
) -> Result<bool, AllocError> {
    let words = words_of(alloc, line)?;
    let files = words_of(alloc, files)?;
    let Some(Request::Interleave { turns, .. }) = parse(words.as_slice()) else {
        return Ok(false);
    };
    let found = turns.shares(alloc)?;
    let sessions = turns.sessions(alloc)?;
    let same_shares = found.as_slice() == shares;
    let same_files = same_texts(sessions.files.as_slice(), files.as_slice());
    let same_guards = same_counts(sessions.guards.as_slice(), shares);
    Ok(turns.schedule() == schedule && same_shares && same_files && same_guards)
}

#[test]
fn files_take_turns(rt: HostRuntime) -> Result<(), Fail> {
    for &(line, schedule, shares, files) in TURNS {
        let got = take_turns(rt.alloc(), line, schedule, shares, files)?;
        same(&rt, line, got, true);
    }
    Ok(())
}

// Words with what they say in front of files, and the files.
const GIVEN: &[(&str, &str)] = &[
    ("one two", "one two"),
    ("name:new one name:escaped:a\\x20b two", "one two"),
    (
        "parent:11111111-1111-1111-1111-111111111111:5 name:new one",
        "one",
    ),
];

fn gives(alloc: Global, line: &str, files: &str) -> Result<bool, AllocError> {
    let words = words_of(alloc, line)?;
    let files = words_of(alloc, files)?;
    let Some(arguments) = FileArguments::of(words.as_slice()) else {
        return Ok(false);
    };
    let given = arguments.given(alloc)?;
    Ok(same_texts(given.files(), files.as_slice()))
}

#[test]
fn words_give_files(rt: HostRuntime) -> Result<(), Fail> {
    for &(line, files) in GIVEN {
        same(&rt, line, gives(rt.alloc(), line, files)?, true);
    }
    Ok(())
}
