// What no clause says: the ways in which a group is at fault, each with its number in its image.
use crate::image::{header, put_frame, put_group, put_sealed, read};
use crate::same::same;
use Piece::{Bytes, Frame};
use std::alloc::{AllocError, Global};
use std::test::Fail;

// A piece of a group: bytes, or a frame by the number of its command and its attributes.
#[derive(Clone, Copy)]
enum Piece {
    Bytes(&'static [u8]),
    Frame(u16, &'static [u8]),
}

// A group by what it does and its pieces.
type Group = (u8, &'static [Piece]);

// What a group does, as the number of its kind where it has no checksum. With one it is three more.
const MARK: u8 = 1;

const BODY: u8 = 2;

const DROP: u8 = 3;

const SEALED: u8 = 3;

// The numbers of commands.
const SUBVOL: u16 = 1;

const SNAPSHOT: u16 = 2;

const MKFILE: u16 = 3;

const UNLINK: u16 = 11;

const WRITE: u16 = 15;

const UTIMES: u16 = 20;

const END: u16 = 21;

const FALLOCATE: u16 = 23;

// The attributes of the heads of `a`, of its snapshot `b` and of `c`, and the path of a file.
const HEAD_A: &[u8] = b"\x01\0\x10\0AAAAAAAAAAAAAAAA\x02\0\x08\0\x01\0\0\0\0\0\0\0\x0f\0\x01\0a";

const HEAD_B: &[u8] =
    b"\x01\0\x10\0BBBBBBBBBBBBBBBB\x02\0\x08\0\x02\0\0\0\0\0\0\0\x0f\0\x01\0b\x14\0\x10\0AAAAAAAAAAAAAAAA\x15\0\x08\0\x01\0\0\0\0\0\0\0";

const HEAD_C: &[u8] = b"\x01\0\x10\0CCCCCCCCCCCCCCCC\x02\0\x08\0\x01\0\0\0\0\0\0\0\x0f\0\x01\0c";

const X: &[u8] = b"\x0f\0\x01\0x";

// A hole in the file.
const HOLE: &[u8] =
    b"\x04\0\x08\0\x01\0\0\0\0\0\0\0\x0f\0\x01\0x\x12\0\x08\0\0\0\0\0\0\0\0\0\x19\0\x04\0\x03\0\0\0";

// What stands in front of the edits of `a`, in both versions, and of those of `b`.
const EDITS_A: Piece = Bytes(b"AAAAAAAAAAAAAAAA\x01");

const EDITS_A_2: Piece = Bytes(b"AAAAAAAAAAAAAAAA\x02");

const EDITS_B: Piece = Bytes(b"BBBBBBBBBBBBBBBB\x01");

// Groups that are right: the heads, a file in each subvolume, and the name of the first that is
// dropped.
const MARK_A: Group = (MARK, &[Frame(SUBVOL, HEAD_A)]);

const MARK_B: Group = (MARK, &[Frame(SNAPSHOT, HEAD_B)]);

const BODY_A: Group = (BODY, &[EDITS_A, Frame(MKFILE, X)]);

const BODY_B: Group = (BODY, &[EDITS_B, Frame(UNLINK, X)]);

const DROP_A: Group = (DROP, &[Bytes(b"a")]);

// Appends a group.
fn put(
    alloc: Global,
    image: &mut Vec<u8>,
    is_sealed: bool,
    group: &Group,
) -> Result<(), AllocError> {
    let mut body = Vec::new(alloc);
    body.push(if is_sealed {
        group.0.wrapping_add(SEALED)
    } else {
        group.0
    })?;
    for piece in group.1 {
        match piece {
            Bytes(bytes) => body.extend_from_slice(bytes)?,
            Frame(number, attributes) => put_frame(&mut body, *number, attributes)?,
        }
    }
    if is_sealed {
        put_sealed(alloc, image, &body)
    } else {
        put_group(image, &body)
    }
}

// What an image of these groups is read as.
fn judged(
    alloc: Global,
    format: u8,
    is_sealed: bool,
    groups: &[Group],
) -> Result<Result<usize, u64>, Fail> {
    let mut image = header(alloc, format)?;
    for group in groups {
        put(alloc, &mut image, is_sealed, group)?;
    }
    read(alloc, &image)
}

// Groups of which the last is a head at fault.
const HEADS_AT_FAULT: [(&str, &[Group]); 22] = [
    ("no head", &[(MARK, &[])]),
    (
        "a head that is cut short",
        &[(MARK, &[Bytes(b"%\0\0\0\x01\0\x85\x0fH{\x01\0\x10\0")])],
    ),
    (
        "a head with another checksum",
        &[(MARK, &[Bytes(b"%\0\0\0\x01\0\x85\x0fH|"), Bytes(HEAD_A)])],
    ),
    ("an edit in place of a head", &[(MARK, &[Frame(MKFILE, X)])]),
    ("END in place of a head", &[(MARK, &[Frame(END, b"")])]),
    ("a command of no number", &[(MARK, &[Frame(99, HEAD_A)])]),
    (
        "a byte behind a head",
        &[(MARK, &[Frame(SUBVOL, HEAD_A), Bytes(b"\0")])],
    ),
    (
        "two heads",
        &[(MARK, &[Frame(SUBVOL, HEAD_A), Frame(SUBVOL, HEAD_C)])],
    ),
    (
        "a number behind the name",
        &[(
            MARK,
            &[Frame(
                SUBVOL,
                b"\x01\0\x10\0AAAAAAAAAAAAAAAA\x0f\0\x01\0a\x02\0\x08\0\x01\0\0\0\0\0\0\0",
            )],
        )],
    ),
    (
        "an attribute more",
        &[(
            MARK,
            &[Frame(
                SUBVOL,
                b"\x01\0\x10\0AAAAAAAAAAAAAAAA\x02\0\x08\0\x01\0\0\0\0\0\0\0\x03\0\x08\0\0\0\0\0\0\0\0\0\x0f\0\x01\0a",
            )],
        )],
    ),
    (
        "an attribute twice",
        &[(
            MARK,
            &[Frame(
                SUBVOL,
                b"\x01\0\x10\0AAAAAAAAAAAAAAAA\x02\0\x08\0\x01\0\0\0\0\0\0\0\x0f\0\x01\0a\x0f\0\x01\0a",
            )],
        )],
    ),
    (
        "an attribute less",
        &[(
            MARK,
            &[Frame(SUBVOL, b"\x01\0\x10\0AAAAAAAAAAAAAAAA\x0f\0\x01\0a")],
        )],
    ),
    (
        "a short identifier",
        &[(
            MARK,
            &[Frame(
                SUBVOL,
                b"\x01\0\x0f\0AAAAAAAAAAAAAAA\x02\0\x08\0\x01\0\0\0\0\0\0\0\x0f\0\x01\0a",
            )],
        )],
    ),
    (
        "an empty name",
        &[(
            MARK,
            &[Frame(
                SUBVOL,
                b"\x01\0\x10\0AAAAAAAAAAAAAAAA\x02\0\x08\0\x01\0\0\0\0\0\0\0\x0f\0\0\0",
            )],
        )],
    ),
    (
        "a name with a slash",
        &[(
            MARK,
            &[Frame(
                SUBVOL,
                b"\x01\0\x10\0AAAAAAAAAAAAAAAA\x02\0\x08\0\x01\0\0\0\0\0\0\0\x0f\0\x03\0a/b",
            )],
        )],
    ),
    (
        "a name of two dots",
        &[(
            MARK,
            &[Frame(
                SUBVOL,
                b"\x01\0\x10\0AAAAAAAAAAAAAAAA\x02\0\x08\0\x01\0\0\0\0\0\0\0\x0f\0\x02\0..",
            )],
        )],
    ),
    (
        "a name that is there",
        &[
            MARK_A,
            (
                MARK,
                &[Frame(
                    SUBVOL,
                    b"\x01\0\x10\0CCCCCCCCCCCCCCCC\x02\0\x08\0\x01\0\0\0\0\0\0\0\x0f\0\x01\0a",
                )],
            ),
        ],
    ),
    (
        "an identifier that is there",
        &[
            MARK_A,
            (
                MARK,
                &[Frame(
                    SUBVOL,
                    b"\x01\0\x10\0AAAAAAAAAAAAAAAA\x02\0\x08\0\x01\0\0\0\0\0\0\0\x0f\0\x01\0c",
                )],
            ),
        ],
    ),
    ("a parent that is not there", &[MARK_B]),
    ("a parent that is not complete", &[MARK_A, MARK_B]),
    (
        "a parent of another number",
        &[
            MARK_A,
            BODY_A,
            (
                MARK,
                &[Frame(
                    SNAPSHOT,
                    b"\x01\0\x10\0BBBBBBBBBBBBBBBB\x02\0\x08\0\x02\0\0\0\0\0\0\0\x0f\0\x01\0b\x14\0\x10\0AAAAAAAAAAAAAAAA\x15\0\x08\0\x02\0\0\0\0\0\0\0",
                )],
            ),
        ],
    ),
    (
        "a parent that was dropped",
        &[MARK_A, BODY_A, DROP_A, MARK_B],
    ),
];

// Groups of which the last is one of edits at fault.
const EDITS_AT_FAULT: [(&str, &[Group]); 28] = [
    ("no identifier", &[MARK_A, (BODY, &[])]),
    (
        "an identifier that is cut short",
        &[MARK_A, (BODY, &[Bytes(b"AAAAAAAAAAAAAAA")])],
    ),
    (
        "no version",
        &[MARK_A, (BODY, &[Bytes(b"AAAAAAAAAAAAAAAA")])],
    ),
    (
        "version 0",
        &[
            MARK_A,
            (BODY, &[Bytes(b"AAAAAAAAAAAAAAAA\0"), Frame(MKFILE, X)]),
        ],
    ),
    (
        "version 3",
        &[
            MARK_A,
            (BODY, &[Bytes(b"AAAAAAAAAAAAAAAA\x03"), Frame(MKFILE, X)]),
        ],
    ),
    ("an entry that is not there", &[BODY_A]),
    (
        "an entry of another identifier",
        &[MARK_A, (BODY, &[EDITS_B, Frame(MKFILE, X)])],
    ),
    ("an entry that is complete", &[MARK_A, BODY_A, BODY_A]),
    ("an entry that was dropped", &[MARK_A, DROP_A, BODY_A]),
    (
        "an entry whose parent was dropped",
        &[MARK_A, BODY_A, MARK_B, DROP_A, BODY_B],
    ),
    (
        "END among edits",
        &[
            MARK_A,
            (BODY, &[EDITS_A, Frame(MKFILE, X), Frame(END, b"")]),
        ],
    ),
    (
        "a head among edits",
        &[MARK_A, (BODY, &[EDITS_A, Frame(SUBVOL, HEAD_C)])],
    ),
    (
        "an edit of no number",
        &[MARK_A, (BODY, &[EDITS_A, Frame(99, X)])],
    ),
    (
        "an edit of number 0",
        &[MARK_A, (BODY, &[EDITS_A, Frame(0, b"")])],
    ),
    (
        "an edit of version 2 in version 1",
        &[
            MARK_A,
            (BODY, &[EDITS_A, Frame(MKFILE, X), Frame(FALLOCATE, HOLE)]),
        ],
    ),
    (
        "compressed bytes",
        &[MARK_A, (BODY, &[EDITS_A_2, Frame(MKFILE, X), Frame(25, X)])],
    ),
    (
        "a place in front of the path",
        &[
            MARK_A,
            (
                BODY,
                &[
                    EDITS_A,
                    Frame(MKFILE, X),
                    Frame(
                        WRITE,
                        b"\x12\0\x08\0\x03\0\0\0\0\0\0\0\x0f\0\x01\0x\x13\0\x02\0hi",
                    ),
                ],
            ),
        ],
    ),
    (
        "a number that no edit wants",
        &[
            MARK_A,
            (
                BODY,
                &[
                    EDITS_A,
                    Frame(MKFILE, b"\x03\0\x08\0\0\0\0\0\0\0\0\0\x0f\0\x01\0x"),
                ],
            ),
        ],
    ),
    (
        "an edit without a path",
        &[MARK_A, (BODY, &[EDITS_A, Frame(MKFILE, b"")])],
    ),
    (
        "an attribute of no number",
        &[
            MARK_A,
            (BODY, &[EDITS_A, Frame(MKFILE, b"\x0f\0\x01\0x\xff\0\0\0")]),
        ],
    ),
    (
        "an attribute that is cut short",
        &[MARK_A, (BODY, &[EDITS_A, Frame(MKFILE, b"\x0f\0\x02\0x")])],
    ),
    (
        "too many nanoseconds",
        &[
            MARK_A,
            (
                BODY,
                &[
                    EDITS_A,
                    Frame(MKFILE, X),
                    Frame(
                        UTIMES,
                        b"\x0a\0\x0c\0\x01\0\0\0\0\0\0\0\0\xca\x9a;\x0b\0\x0c\0\x01\0\0\0\0\0\0\0\0\0\0\0\x0f\0\x01\0x",
                    ),
                ],
            ),
        ],
    ),
    (
        "a frame with another checksum",
        &[
            MARK_A,
            (
                BODY,
                &[EDITS_A, Bytes(b"\x05\0\0\0\x03\0/\x8a6t"), Bytes(X)],
            ),
        ],
    ),
    (
        "a frame that is cut short",
        &[
            MARK_A,
            (
                BODY,
                &[EDITS_A, Bytes(b"\x05\0\0\0\x03\0/\x8a6s\x0f\0\x01\0")],
            ),
        ],
    ),
    (
        "a frame's header that is cut short",
        &[
            MARK_A,
            (
                BODY,
                &[EDITS_A, Frame(MKFILE, X), Bytes(b"\x05\0\0\0\x03\0/\x8a6")],
            ),
        ],
    ),
    (
        "a frame that is too long",
        &[
            MARK_A,
            (BODY, &[EDITS_A, Bytes(b"\x01\0\x04\0\x03\0\0\0\0\0")]),
        ],
    ),
    (
        "a path that is there",
        &[
            MARK_A,
            (BODY, &[EDITS_A, Frame(MKFILE, X), Frame(MKFILE, X)]),
        ],
    ),
    (
        "a path that is not there",
        &[MARK_A, (BODY, &[EDITS_A, Frame(UNLINK, X)])],
    ),
];

// Groups of which the last is a dropped name at fault.
const NAMES_AT_FAULT: [(&str, &[Group]); 4] = [
    ("an empty name", &[MARK_A, (DROP, &[])]),
    (
        "a name that is not there",
        &[MARK_A, (DROP, &[Bytes(b"b")])],
    ),
    ("a name and a byte", &[MARK_A, (DROP, &[Bytes(b"a\0")])]),
    ("a name that was dropped", &[MARK_A, BODY_A, DROP_A, DROP_A]),
];

// Whether the last of these groups is at fault, in each format and with or without checksums.
fn is_last_at_fault(alloc: Global, groups: &[Group]) -> Result<bool, Fail> {
    let group = groups.len() as u64;
    for (format, is_sealed) in [(2, true), (1, true), (1, false)] {
        if judged(alloc, format, is_sealed, groups)? != Err(group) {
            return Ok(false);
        }
    }
    Ok(true)
}

#[test]
fn a_group_at_fault_has_its_number(rt: HostRuntime) -> Result<(), Fail> {
    for (what, groups) in HEADS_AT_FAULT {
        same(
            &rt,
            (what, is_last_at_fault(rt.alloc(), groups)?),
            (what, true),
        );
    }
    for (what, groups) in EDITS_AT_FAULT {
        same(
            &rt,
            (what, is_last_at_fault(rt.alloc(), groups)?),
            (what, true),
        );
    }
    for (what, groups) in NAMES_AT_FAULT {
        same(
            &rt,
            (what, is_last_at_fault(rt.alloc(), groups)?),
            (what, true),
        );
    }
    Ok(())
}

// Groups that are right, beside those above, and how many entries they make.
const RIGHT: [(&str, &[Group], usize); 11] = [
    ("a head", &[MARK_A], 1),
    ("two heads", &[MARK_A, (MARK, &[Frame(SUBVOL, HEAD_C)])], 2),
    ("a head and its edits", &[MARK_A, BODY_A], 1),
    ("no edits", &[MARK_A, (BODY, &[EDITS_A])], 1),
    (
        "a frame with its checksum",
        &[
            MARK_A,
            (
                BODY,
                &[EDITS_A, Bytes(b"\x05\0\0\0\x03\0/\x8a6s"), Bytes(X)],
            ),
        ],
        1,
    ),
    (
        "an edit of version 2",
        &[
            MARK_A,
            (BODY, &[EDITS_A_2, Frame(MKFILE, X), Frame(FALLOCATE, HOLE)]),
        ],
        1,
    ),
    (
        "a path in front of the place",
        &[
            MARK_A,
            (
                BODY,
                &[
                    EDITS_A,
                    Frame(MKFILE, X),
                    Frame(
                        WRITE,
                        b"\x0f\0\x01\0x\x12\0\x08\0\x03\0\0\0\0\0\0\0\x13\0\x02\0hi",
                    ),
                ],
            ),
        ],
        1,
    ),
    (
        "nanoseconds",
        &[
            MARK_A,
            (
                BODY,
                &[
                    EDITS_A,
                    Frame(MKFILE, X),
                    Frame(
                        UTIMES,
                        b"\x0a\0\x0c\0\x01\0\0\0\0\0\0\0\xff\xc9\x9a;\x0b\0\x0c\0\x01\0\0\0\0\0\0\0\0\0\0\0\x0f\0\x01\0x",
                    ),
                ],
            ),
        ],
        1,
    ),
    ("a snapshot", &[MARK_A, BODY_A, MARK_B, BODY_B], 2),
    (
        "a snapshot without its parent",
        &[MARK_A, BODY_A, MARK_B, BODY_B, DROP_A],
        1,
    ),
    (
        "a name that is there again",
        &[MARK_A, DROP_A, MARK_A, BODY_A],
        1,
    ),
];

#[test]
fn groups_that_are_right_are_taken(rt: HostRuntime) -> Result<(), Fail> {
    for (what, groups, entries) in RIGHT {
        for (format, is_sealed) in [(2, true), (1, true), (1, false)] {
            let found = judged(rt.alloc(), format, is_sealed, groups)?;
            same(&rt, (what, format, found), (what, format, Ok(entries)));
        }
        // Without a checksum there are none in format 2.
        same(
            &rt,
            (what, judged(rt.alloc(), 2, false, groups)?),
            (what, Err(1)),
        );
    }
    Ok(())
}
