// What is printed of a store and of its subvolumes. The lines of the first two subvolumes and of
// the first lists are from another program; those of the others are written by hand.

use crate::marks::Mark;
use crate::same::same;
use inode_tree::{NodeKind, Timestamp};
use std::alloc::Global;
use std::test::Fail;
use subvol::Subvol;
use subvol_catalog::{Catalog, Entry, Key};
use sx_base::{Blob, MemSink, Outcome, Stop};
use tree_view::{list, show};
use uuid::Uuid;

fn key(byte: u8, ctransid: u64) -> Key {
    Key {
        uuid: Uuid::from_bytes([byte; 16]),
        ctransid,
    }
}

// ---- list

// An entry: its name, the byte of its UUID, its transaction number, whether it is complete, and its
// parent's byte and number.
type Row = (&'static [u8], u8, u64, bool, Option<(u8, u64)>);

const TWO_PARTS: &[Row] = &[
    (b"a", 0x11, 1, true, None),
    (b"b", 0x22, 2, true, Some((0x11, 1))),
];

const TWO_PART_LINES: &[u8] =
    b"a 11111111-1111-1111-1111-111111111111 1 complete -\nb 22222222-2222-2222-2222-222222222222 2 complete 11111111-1111-1111-1111-111111111111:1\n";

const UNFINISHED: &[Row] = &[(b"a", 0x11, 1, false, None)];

const UNFINISHED_LINE: &[u8] = b"a 11111111-1111-1111-1111-111111111111 1 unfinished -\n";

// Entries stay in the order in which they began. A parent need not be there.
const OTHERS: &[Row] = &[
    (b"z\\ \xc3\xa9", 0xab, u64::MAX, true, Some((0xff, 0))),
    (b"-", 0x00, 0, false, Some((0xab, u64::MAX))),
    (b"b~!", 0x0f, 10, true, None),
];

const OTHER_LINES: &[u8] =
    b"z\\x5c\\x20\\xc3\\xa9 abababab-abab-abab-abab-abababababab 18446744073709551615 complete ffffffff-ffff-ffff-ffff-ffffffffffff:0\n- 00000000-0000-0000-0000-000000000000 0 unfinished abababab-abab-abab-abab-abababababab:18446744073709551615\nb~! 0f0f0f0f-0f0f-0f0f-0f0f-0f0f0f0f0f0f 10 complete -\n";

fn catalog(alloc: Global, rows: &[Row]) -> Result<Catalog<u64>, Stop> {
    let mut catalog = Catalog::new(alloc);
    for (name, byte, ctransid, complete, parent) in rows {
        let mut bytes = Blob::new(alloc);
        bytes.push_all(name)?;
        catalog.add(Entry {
            name: bytes,
            key: key(*byte, *ctransid),
            parent: parent_key(*parent),
            value: if *complete { Some(7) } else { None },
        })?;
    }
    Ok(catalog)
}

fn parent_key(parent: Option<(u8, u64)>) -> Option<Key> {
    let (byte, ctransid) = parent?;
    Some(key(byte, ctransid))
}

// Whether the entries are listed as these lines.
fn lists(alloc: Global, rows: &[Row], lines: &[u8]) -> Result<bool, Fail> {
    let mut out = MemSink::new(alloc);
    let answer = list(alloc, &catalog(alloc, rows)?, &mut out);
    Ok(answer == Outcome::Done && out.bytes() == lines)
}

const LISTS: &[(&[Row], &[u8])] = &[
    (&[], b""),
    (TWO_PARTS, TWO_PART_LINES),
    (UNFINISHED, UNFINISHED_LINE),
    (OTHERS, OTHER_LINES),
];

#[test]
fn entries_are_listed(rt: HostRuntime) -> Result<(), Fail> {
    for &(rows, lines) in LISTS {
        same(&rt, lists(rt.alloc(), rows, lines)?, true);
    }
    Ok(())
}

// ---- show

// One call on a subvolume.
#[derive(Clone, Copy)]
enum Step {
    // The path of a new inode, its kind, device number and target.
    Make(&'static [u8], NodeKind, u64, &'static [u8]),
    // A new path for an inode, and the one that it has.
    Link(&'static [u8], &'static [u8]),
    Mode(&'static [u8], u16),
    Owner(&'static [u8], u64, u64),
    // When it was last read and last written: seconds and nanoseconds.
    Times(&'static [u8], (u64, u32), (u64, u32)),
    Flags(&'static [u8], u64),
    Xattr(&'static [u8], &'static [u8], &'static [u8]),
    // So many bytes from a place on.
    Write(&'static [u8], u64, u64),
}

fn moment(time: (u64, u32)) -> Timestamp {
    Timestamp {
        secs: time.0,
        nanos: time.1,
    }
}

fn done(sub: &mut Subvol<Mark>, step: Step) -> Result<(), Stop> {
    match step {
        Step::Make(path, kind, rdev, target) => {
            sub.tree_mut().make(path, kind, rdev, target)?;
            Ok(())
        }
        Step::Link(path, existing) => sub.tree_mut().link(path, existing),
        Step::Mode(path, mode) => sub.tree_mut().set_mode(path, mode),
        Step::Owner(path, uid, gid) => sub.tree_mut().set_owner(path, uid, gid),
        Step::Times(path, atime, mtime) => {
            sub.tree_mut().set_times(path, moment(atime), moment(mtime))
        }
        Step::Flags(path, flags) => sub.tree_mut().set_flags(path, flags),
        Step::Xattr(path, name, value) => sub.tree_mut().set_xattr(path, name, value),
        Step::Write(path, at, len) => sub.write(path, at, Mark { place: 0 }, len),
    }
}

fn made(alloc: Global, steps: &[Step]) -> Result<Subvol<Mark>, Stop> {
    let mut sub = Subvol::new_root(alloc)?;
    for step in steps {
        done(&mut sub, *step)?;
    }
    Ok(sub)
}

// Whether the subvolume that these steps make is shown as these lines.
fn shows(alloc: Global, name: &[u8], key: Key, steps: &[Step], lines: &[u8]) -> Result<bool, Fail> {
    let mut out = MemSink::new(alloc);
    let answer = show(alloc, name, key, &made(alloc, steps)?, &mut out);
    Ok(answer == Outcome::Done && out.bytes() == lines)
}

const HOME: &[Step] = &[
    Step::Owner(b"", 0, 0),
    Step::Mode(b"", 0o755),
    Step::Times(b"", (1_700_000_000, 0), (1_700_000_000, 0)),
    Step::Make(b"notes", NodeKind::File, 0, b""),
    Step::Write(b"notes", 0, 6),
    Step::Owner(b"notes", 1_000, 1_000),
    Step::Mode(b"notes", 0o644),
    Step::Times(b"notes", (1_700_000_001, 500), (1_700_000_002, 0)),
];

const HOME_LINES: &[u8] =
    b"subvol home 11111111-1111-1111-1111-111111111111 9 258\ninode 256 dir 755 0 0 1700000000.000000000 1700000000.000000000 0 -\ninode 257 file 644 1000 1000 1700000001.000000500 1700000002.000000000 0 6\nname 256 notes 257\n";

const KINDS: &[Step] = &[
    Step::Make(b"d", NodeKind::Directory, 0, b""),
    Step::Make(b"d/s", NodeKind::SymbolicLink, 0, b"../x y"),
    Step::Make(b"d/n", NodeKind::CharacterDevice, 1_281, b""),
    Step::Make(b"d/p", NodeKind::Fifo, 0, b""),
    Step::Make(b"d/q", NodeKind::Socket, 0, b""),
    Step::Xattr(b"d", b"user.k", b"\x00\xff"),
];

const KIND_LINES: &[u8] =
    b"subvol a 11111111-1111-1111-1111-111111111111 1 262\ninode 256 dir 700 0 0 0.000000000 0.000000000 0 -\ninode 257 dir 700 0 0 0.000000000 0.000000000 0 -\nxattr 257 user.k 00ff\ninode 258 symlink 777 0 0 0.000000000 0.000000000 0 ../x\\x20y\ninode 259 chr 600 0 0 0.000000000 0.000000000 0 1281\ninode 260 fifo 600 0 0 0.000000000 0.000000000 0 -\ninode 261 socket 600 0 0 0.000000000 0.000000000 0 -\nname 256 d 257\nname 257 n 259\nname 257 p 260\nname 257 q 261\nname 257 s 258\n";

// Names in the order of their bytes, two of one inode; modes with and without all bits; attributes
// in the order of their names; a file that ends in a hole.
const FURTHER: &[Step] = &[
    Step::Make(b"\xff", NodeKind::BlockDevice, u64::MAX, b""),
    Step::Make(b"b", NodeKind::Directory, 0, b""),
    Step::Make(b"b/z", NodeKind::File, 0, b""),
    Step::Link(b"B", b"b/z"),
    Step::Link(b"b c", b"b/z"),
    Step::Write(b"b/z", 4_096, 4),
    Step::Mode(b"b/z", 0o7_777),
    Step::Mode(b"b", 0),
    Step::Owner(b"B", u64::MAX, 65_534),
    Step::Times(b"B", (u64::MAX, 999_999_999), (1, 10)),
    Step::Flags(b"B", 16),
    Step::Xattr(b"B", b"user.b", b""),
];

const FURTHER_LINES: &[u8] =
    b"subvol \\x09 00000000-0000-0000-0000-000000000000 0 260\ninode 256 dir 700 0 0 0.000000000 0.000000000 0 -\ninode 257 blk 600 0 0 0.000000000 0.000000000 0 18446744073709551615\ninode 258 dir 0 0 0 0.000000000 0.000000000 0 -\ninode 259 file 7777 18446744073709551615 65534 18446744073709551615.999999999 1.000000010 16 4100\nxattr 259 user.b \nname 256 B 259\nname 256 b 258\nname 256 b\\x20c 259\nname 256 \\xff 257\nname 258 z 259\n";

// The name, the byte of the UUID and the transaction number of a subvolume, how it is made, and its
// lines.
type Shown = (&'static [u8], u8, u64, &'static [Step], &'static [u8]);

const SHOWN: &[Shown] = &[
    (b"home", 0x11, 9, HOME, HOME_LINES),
    (b"a", 0x11, 1, KINDS, KIND_LINES),
    (b"\t", 0, 0, FURTHER, FURTHER_LINES),
];

#[test]
fn subvolumes_are_shown(rt: HostRuntime) -> Result<(), Fail> {
    for &(name, byte, ctransid, steps, lines) in SHOWN {
        let shown = shows(rt.alloc(), name, key(byte, ctransid), steps, lines)?;
        same(&rt, shown, true);
    }
    Ok(())
}

// ---- faults

// The lines of the first list, where the output fails its call of this number: what came out, and
// how it ended.
fn cut_list(alloc: Global, call: u64) -> Result<(u64, Outcome), Fail> {
    let mut out = MemSink::new(alloc);
    out.fail_call(call)?;
    let answer = list(alloc, &catalog(alloc, TWO_PARTS)?, &mut out);
    Ok((out.bytes().len() as u64, answer))
}

#[test]
fn a_fault_of_the_output_is_answered(rt: HostRuntime) -> Result<(), Fail> {
    same(&rt, cut_list(rt.alloc(), 1)?, (0, Outcome::OutputFault));
    let whole = TWO_PART_LINES.len() as u64;
    same(&rt, cut_list(rt.alloc(), 2)?, (whole, Outcome::Done));
    Ok(())
}

// A subvolume with a value of so many bytes that its line is written before the others are made.
fn with_much_text(alloc: Global) -> Result<Subvol<Mark>, Fail> {
    let mut sub = made(alloc, KINDS)?;
    let value = vec![in alloc; 0xab; 33_000]?;
    sub.tree_mut().set_xattr(b"", b"user.v", value.as_slice())?;
    Ok(sub)
}

#[test]
fn much_text_goes_out_in_pieces(rt: HostRuntime) -> Result<(), Fail> {
    let sub = with_much_text(rt.alloc())?;
    let mut out = MemSink::new(rt.alloc());
    out.fail_call(2)?;
    let answer = show(rt.alloc(), b"a", key(0x11, 1), &sub, &mut out);
    same(&rt, answer, Outcome::OutputFault);
    same(&rt, out.bytes().len(), 52 + 50 + 66_000 + 18);
    Ok(())
}
