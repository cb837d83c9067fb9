//! Names and paths at the edges of their rules.

use crate::same::same;
use path_rules::{name_ok, split};

// How many names a path has, or None where it is no path.
fn count_names(path: &[u8]) -> Option<usize> {
    match split(path) {
        Ok(names) => Some(names.fold(0, |count: usize, _| count.wrapping_add(1))),
        Err(_) => None,
    }
}

const NAMES: &[(&[u8], bool)] = &[
    (b"", false),
    (b".", false),
    (b"..", false),
    (b"...", true),
    (b".profile", true),
    (b"a/b", false),
    (b"a\0", false),
    (b"\xff\n ", true),
];

#[test]
fn names(rt: HostRuntime) {
    for &(name, wanted) in NAMES {
        same(&rt, (name, name_ok(name)), (name, wanted));
    }
    let long = [b'n'; 256];
    same(&rt, name_ok(&long[..255]), true);
    same(&rt, name_ok(&long[..]), false);
}

#[test]
fn paths(rt: HostRuntime) {
    // "n/n/../n", of 4,095 bytes, and with a second byte in the last name.
    let mut long = [b'n'; 4096];
    for place in 0..2047 {
        long[2 * place + 1] = b'/';
    }
    for (path, wanted) in [
        (b"".as_slice(), Some(0)),
        (b"notes".as_slice(), Some(1)),
        (b"home/user/notes".as_slice(), Some(3)),
        (b"/".as_slice(), None),
        (b"/home".as_slice(), None),
        (b"home/".as_slice(), None),
        (b"home//user".as_slice(), None),
        (b"home/../user".as_slice(), None),
        (&long[..4095], Some(2048)),
        (&long[..], None),
    ] {
        assert_eq!(rt; count_names(path), wanted, "the path {path:?}");
    }
}

const IN_ORDER: &[Option<&[u8]>] = &[Some(b"home"), Some(b"user"), Some(b"notes"), None, None];

#[test]
fn names_in_order(rt: HostRuntime) {
    let Ok(mut names) = split(b"home/user/notes") else {
        panic!(rt; "a path of three names was refused");
    };
    for &wanted in IN_ORDER {
        same(&rt, names.next(), wanted);
    }
}
