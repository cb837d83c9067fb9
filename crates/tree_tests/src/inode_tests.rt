// Trees as commands make them. The calls stand in tables, so that each test is a loop over one
// helper.
use crate::marks::Mark;
use crate::same::same;
use extent_map::Extents;
use inode_tree::{NodeKind, Timestamp, Tree};
use std::alloc::{AllocError, Global};
use std::process::Abort;
use std::test::Fail;
use sx_base::{Refusal, Stop};

// One call on a tree.
#[derive(Clone, Copy)]
enum Call {
    Make(&'static [u8], NodeKind),
    Link(&'static [u8], &'static [u8]),
    Unlink(&'static [u8]),
    Rmdir(&'static [u8]),
    Rename(&'static [u8], &'static [u8]),
    SetMode(&'static [u8], u16),
    SetOwner(&'static [u8], u64, u64),
    SetTimes(&'static [u8], Timestamp),
    SetFlags(&'static [u8], u64),
    SetXattr(&'static [u8], &'static [u8]),
    RemoveXattr(&'static [u8], &'static [u8]),
}

// What the calls lead to: the number of an inode, or a refusal.
type Leads = (&'static [u8], Result<u64, Refusal>);

fn done(tree: &mut Tree<Mark>, call: Call) -> Result<(), Stop> {
    match call {
        Call::Make(path, kind) => {
            tree.make(path, kind, 1_281, b"../x y")?;
            Ok(())
        }
        Call::Link(path, existing) => tree.link(path, existing),
        Call::Unlink(path) => tree.unlink(path),
        Call::Rmdir(path) => tree.rmdir(path),
        Call::Rename(from, to) => tree.rename(from, to),
        Call::SetMode(path, mode) => tree.set_mode(path, mode),
        Call::SetOwner(path, uid, gid) => tree.set_owner(path, uid, gid),
        Call::SetTimes(path, moment) => tree.set_times(path, moment, moment),
        Call::SetFlags(path, flags) => tree.set_flags(path, flags),
        Call::SetXattr(path, name) => tree.set_xattr(path, name, b"\x00\xff"),
        Call::RemoveXattr(path, name) => tree.remove_xattr(path, name),
    }
}

// The refusal of a call, if it was refused; an error where there is no memory.
fn refusal_of(tree: &mut Tree<Mark>, call: Call) -> Result<Option<Refusal>, Stop> {
    match done(tree, call) {
        Ok(()) => Ok(None),
        Err(Stop::Refused(refusal)) => Ok(Some(refusal)),
        Err(Stop::NoMemory) => Err(Stop::NoMemory),
    }
}

// Makes these calls on a tree, each with its refusal.
fn call_all(
    rt: &impl Abort,
    tree: &mut Tree<Mark>,
    calls: &[(Call, Option<Refusal>)],
) -> Result<(), Fail> {
    for (call, want) in calls {
        let answer = refusal_of(tree, *call)?;
        same(rt, answer, *want);
    }
    Ok(())
}

// A tree after these calls.
fn tree_after(
    rt: &impl Abort,
    alloc: Global,
    calls: &[(Call, Option<Refusal>)],
) -> Result<Tree<Mark>, Fail> {
    let mut tree = Tree::new(alloc)?;
    call_all(rt, &mut tree, calls)?;
    Ok(tree)
}

// A copy of a tree, of which nothing is said: what is known of two trees at once makes a proof
// long.
fn copy_of(tree: &Tree<Mark>) -> Result<Tree<Mark>, AllocError> {
    tree.copy()
}

fn leads(rt: &impl Abort, tree: &Tree<Mark>, table: &[Leads]) {
    for (path, want) in table {
        same(rt, tree.find(path), *want);
    }
}

const NAMES: &[(Call, Option<Refusal>)] = &[
    (Call::Make(b"d", NodeKind::Directory), None),
    (Call::Make(b"d/x", NodeKind::File), None),
    (Call::Link(b"y", b"d/x"), None),
    (Call::Link(b"y", b"d/x"), Some(Refusal::EntryThere)),
    (Call::Link(b"z", b"d"), Some(Refusal::IsDirectory)),
    (Call::Make(b"", NodeKind::File), Some(Refusal::IsRoot)),
    (Call::Unlink(b"d"), Some(Refusal::IsDirectory)),
    (Call::Rmdir(b"d"), Some(Refusal::NotEmpty)),
    (Call::Rmdir(b"y"), Some(Refusal::NotDirectory)),
];

const NAMES_LEAD: &[Leads] = &[
    (b"", Ok(256)),
    (b"d", Ok(257)),
    (b"d/x", Ok(258)),
    (b"y", Ok(258)),
    (b"y/z", Err(Refusal::NotDirectory)),
];

#[test]
fn names_are_found(rt: HostRuntime) -> Result<(), Fail> {
    let tree = tree_after(&rt, rt.alloc(), NAMES)?;
    leads(&rt, &tree, NAMES_LEAD);
    Ok(())
}

const REMOVALS: &[(Call, Option<Refusal>)] = &[
    (Call::Unlink(b"d/x"), None),
    (Call::Unlink(b"y"), None),
    (Call::Rmdir(b"d"), None),
];

const REMOVED_LEAD: &[Leads] = &[(b"d", Err(Refusal::NoEntry))];

const KEPT_LEAD: &[Leads] = &[(b"d/x", Ok(258)), (b"y", Ok(258))];

#[test]
fn a_copy_keeps_what_goes(rt: HostRuntime) -> Result<(), Fail> {
    let mut tree = tree_after(&rt, rt.alloc(), NAMES)?;
    let copy = copy_of(&tree)?;
    call_all(&rt, &mut tree, REMOVALS)?;
    leads(&rt, &tree, REMOVED_LEAD);
    leads(&rt, &copy, KEPT_LEAD);
    same(&rt, tree.inode_after(256), None);
    same(
        &rt,
        copy.name_after(256, b"y"),
        Some((257, b"x".as_slice(), 258)),
    );
    Ok(())
}

const MOVES: &[(Call, Option<Refusal>)] = &[
    (Call::Make(b"x", NodeKind::File), None),
    (Call::Link(b"y", b"x"), None),
    (Call::Rename(b"x", b"y"), None),
    (Call::Make(b"d", NodeKind::Directory), None),
    (Call::Make(b"e", NodeKind::Directory), None),
    (Call::Make(b"e/f", NodeKind::File), None),
    (Call::Rename(b"d", b"e"), Some(Refusal::NotEmpty)),
    (Call::Rename(b"d", b"d/g"), Some(Refusal::IntoItself)),
    (Call::Rename(b"z", b"/"), Some(Refusal::NoEntry)),
    (Call::Rename(b"d", b"x"), Some(Refusal::NotDirectory)),
    (Call::Rename(b"x", b"d"), Some(Refusal::IsDirectory)),
    (Call::Rename(b"e", b"d"), None),
    (Call::Rename(b"d/f", b"x"), None),
];

const MOVED_LEAD: &[Leads] = &[
    (b"x", Ok(260)),
    (b"y", Ok(257)),
    (b"d/f", Err(Refusal::NoEntry)),
];

#[test]
fn names_move(rt: HostRuntime) -> Result<(), Fail> {
    let tree = tree_after(&rt, rt.alloc(), MOVES)?;
    leads(&rt, &tree, MOVED_LEAD);
    Ok(())
}

// Each name goes or moves right after a walk by it.
const WALKED: &[(Call, Option<Refusal>)] = &[
    (Call::Make(b"d", NodeKind::Directory), None),
    (Call::Make(b"d/e", NodeKind::Directory), None),
    (Call::Make(b"d/e/x", NodeKind::File), None),
    (Call::Rename(b"d", b"c"), None),
    (Call::SetMode(b"d/e/x", 0o600), Some(Refusal::NoEntry)),
    (Call::Make(b"d/e/y", NodeKind::File), Some(Refusal::NoEntry)),
    (Call::SetMode(b"c/e/x", 0o600), None),
    (Call::Unlink(b"c/e/x"), None),
    (Call::SetMode(b"c/e/x", 0o600), Some(Refusal::NoEntry)),
    (Call::Rmdir(b"c/e"), None),
    (Call::Make(b"c/e/y", NodeKind::File), Some(Refusal::NoEntry)),
    (Call::Make(b"c/e", NodeKind::File), None),
    (
        Call::Make(b"c/e/y", NodeKind::File),
        Some(Refusal::NotDirectory),
    ),
    (Call::Make(b"z", NodeKind::File), None),
    (Call::SetMode(b"c/e", 0o600), None),
    (Call::Rename(b"z", b"c/e"), None),
    (Call::Make(b"g", NodeKind::Directory), None),
    (Call::Make(b"h", NodeKind::Directory), None),
    (Call::Make(b"h/k", NodeKind::Directory), None),
    (Call::SetMode(b"g", 0o700), None),
    (Call::Rename(b"h", b"g"), None),
];

const WALKED_LEAD: &[Leads] = &[
    (b"c/e", Ok(261)),
    (b"g", Ok(263)),
    (b"g/k", Ok(264)),
    (b"h/k", Err(Refusal::NoEntry)),
    (b"g/k/", Err(Refusal::BadPath)),
    (b"g/", Err(Refusal::BadPath)),
    (b"g/.", Err(Refusal::BadPath)),
];

#[test]
fn what_was_walked_may_go(rt: HostRuntime) -> Result<(), Fail> {
    let tree = tree_after(&rt, rt.alloc(), WALKED)?;
    leads(&rt, &tree, WALKED_LEAD);
    Ok(())
}

const MOMENT: Timestamp = Timestamp { secs: 7, nanos: 8 };

const EPOCH: Timestamp = Timestamp { secs: 0, nanos: 0 };

const DEVICE: &[(Call, Option<Refusal>)] = &[
    (Call::Make(b"n", NodeKind::CharacterDevice), None),
    (Call::SetXattr(b"n", b"user.k"), None),
];

const CHANGES: &[(Call, Option<Refusal>)] = &[
    (Call::SetMode(b"n", 0o123_755), None),
    (Call::SetOwner(b"n", 1_000, 1_001), None),
    (Call::SetTimes(b"n", MOMENT), None),
    (Call::SetFlags(b"n", 16), None),
    (Call::RemoveXattr(b"n", b"user.k"), None),
    (Call::RemoveXattr(b"n", b"user.k"), Some(Refusal::NoXattr)),
    (Call::SetXattr(b"n", b""), Some(Refusal::BadXattr)),
    (Call::RemoveXattr(b"", b"user.k"), Some(Refusal::NoXattr)),
    (Call::SetFlags(b"", 32), None),
    (Call::SetXattr(b"", b"user.r"), None),
];

// The mode, the owner and the group of an inode, and its flags.
fn says(tree: &Tree<Mark>, ino: u64) -> Option<(u16, u64, u64, u64)> {
    let inode = tree.inode(ino)?;
    Some((inode.mode(), inode.uid(), inode.gid(), inode.flags()))
}

// The times of an inode, the number of its device, and whether it has an extended attribute.
fn has(tree: &Tree<Mark>, ino: u64) -> Option<(Timestamp, Timestamp, u64, bool)> {
    let inode = tree.inode(ino)?;
    Some((
        inode.atime(),
        inode.mtime(),
        inode.rdev(),
        inode.xattrs().next().is_some(),
    ))
}

#[test]
fn a_snapshot_changes_alone(rt: HostRuntime) -> Result<(), Fail> {
    let before = tree_after(&rt, rt.alloc(), DEVICE)?;
    let mut after = copy_of(&before)?;
    call_all(&rt, &mut after, CHANGES)?;
    same(&rt, says(&before, 257), Some((0o600, 0, 0, 0)));
    same(&rt, says(&after, 257), Some((0o3_755, 1_000, 1_001, 16)));
    same(&rt, has(&before, 257), Some((EPOCH, EPOCH, 1_281, true)));
    same(&rt, has(&after, 257), Some((MOMENT, MOMENT, 1_281, false)));
    same(&rt, says(&before, 256), Some((0o700, 0, 0, 0)));
    same(&rt, says(&after, 256), Some((0o700, 0, 0, 32)));
    same(&rt, has(&before, 256), Some((EPOCH, EPOCH, 0, false)));
    same(&rt, has(&after, 256), Some((EPOCH, EPOCH, 0, true)));
    Ok(())
}

// Contents of three cells.
fn three_cells(alloc: Global) -> Result<Extents<Mark>, Fail> {
    let mut contents = Extents::new(alloc);
    contents.put_run(0, Mark { place: 5 }, 3)?;
    Ok(contents)
}

fn size_of(tree: &Tree<Mark>, ino: u64) -> Option<u64> {
    Some(tree.inode(ino)?.contents().size())
}

const FILE: &[(Call, Option<Refusal>)] = &[(Call::Make(b"x", NodeKind::File), None)];

#[test]
fn contents_are_exchanged(rt: HostRuntime) -> Result<(), Fail> {
    let mut tree = tree_after(&rt, rt.alloc(), FILE)?;
    let mut contents = three_cells(rt.alloc())?;
    same(&rt, tree.swap_contents(257, &mut contents), Ok(true));
    same(&rt, contents.size(), 0);
    same(&rt, tree.swap_contents(256, &mut contents), Ok(false));
    same(&rt, size_of(&tree, 257), Some(3));
    Ok(())
}
