// Contents of files as commands make them, one call after the other.

use crate::marks::Mark;
use crate::same::same;
use inode_tree::{NodeKind, Starts};
use std::alloc::{AllocError, Global};
use std::test::Fail;
use subvol::{SourceRange, Subvol};
use sx_base::{Refusal, Stop};

// Places by the numbers of inodes.
struct Numbers;

impl Starts<Mark> for Numbers {
    ghost use Rattle.std.specs.Prelude.{◌%◌};

    ghost starts = { λ s ino. record { place = ino % 1_024 } };

    fn start(&self, ino: u64) -> Mark {
        Mark { place: ino % 1_024 }
    }
}

// What a call answers that is refused.
fn refused(refusal: Refusal) -> Result<(), Stop> {
    Err(Stop::Refused(refusal))
}

// A subvolume with one file, which has so many cells.
fn with_file(alloc: Global, len: u64) -> Result<Subvol<Mark>, Stop> {
    let mut subvol = Subvol::new_root(alloc)?;
    subvol.tree_mut().make(b"x", NodeKind::File, 0, b"")?;
    subvol.write(b"x", 0, Mark { place: 0 }, len)?;
    Ok(subvol)
}

// A piece of a file: its number, and which of its pieces.
fn piece(subvol: &Subvol<Mark>, ino: u64, number: usize) -> Option<(Option<Mark>, u64)> {
    let contents = subvol.tree().inode(ino)?.contents();
    contents.pieces(0, contents.size()).nth(number)
}

#[test]
fn ranges_are_allocated(rt: HostRuntime) -> Result<(), Fail> {
    let mut subvol = with_file(rt.alloc(), 2)?;
    same(&rt, subvol.fallocate(b"x", 3, 0, 1), Ok(()));
    same(&rt, subvol.fallocate(b"x", 0, 0, 5), Ok(()));
    same(&rt, piece(&subvol, 257, 0), Some((None, 1)));
    same(
        &rt,
        piece(&subvol, 257, 1),
        Some((Some(Mark { place: 1 }), 1)),
    );
    same(&rt, piece(&subvol, 257, 2), Some((None, 3)));
    same(&rt, piece(&subvol, 257, 3), None);
    Ok(())
}

#[test]
fn allocations_are_refused(rt: HostRuntime) -> Result<(), Fail> {
    let mut subvol = with_file(rt.alloc(), 2)?;
    for (mode, at, refusal) in [
        (2, 0, Refusal::BadFallocate(2)),
        (17, 1, Refusal::FileTooBig),
    ] {
        let answer = subvol.fallocate(b"x", mode, at, u64::MAX);
        same(&rt, answer, refused(refusal));
    }
    same(
        &rt,
        subvol.truncate(b"", 1 << 63),
        refused(Refusal::NotFile),
    );
    Ok(())
}

// From where a clone within a file of two blocks is made, to where, and how long it is.
const CLONES: &[(u64, u64, u64, Refusal)] = &[
    (4_096, 0, 8_192, Refusal::Overlap),
    (8_192, 0, 100, Refusal::Unaligned),
    (8_192, 4_096, 8_192, Refusal::BadRange),
];

// A range of the file x.
fn of_x(from: u64, len: u64) -> SourceRange<'static> {
    SourceRange {
        path: b"x",
        from,
        len,
    }
}

#[test]
fn clones_are_refused(rt: HostRuntime) -> Result<(), Fail> {
    let mut subvol = with_file(rt.alloc(), 8_192)?;
    for &(at, from, len, refusal) in CLONES {
        let answer = subvol.clone_here(b"x", at, &of_x(from, len));
        same(&rt, answer, refused(refusal));
    }
    Ok(())
}

// A file that is two clones of the second block of another.
fn with_clones(alloc: Global) -> Result<Subvol<Mark>, Stop> {
    let source = with_file(alloc, 8_192)?;
    let mut subvol = with_file(alloc, 0)?;
    subvol.clone_from(b"x", 4_096, &source, &of_x(4_096, 4_096))?;
    subvol.clone_here(b"x", 0, &of_x(4_096, 4_096))?;
    Ok(subvol)
}

#[test]
fn blocks_are_cloned(rt: HostRuntime) -> Result<(), Fail> {
    let mut subvol = with_clones(rt.alloc())?;
    let mark = Some(Mark { place: 4_096 });
    same(&rt, piece(&subvol, 257, 0), Some((mark, 4_096)));
    same(&rt, piece(&subvol, 257, 1), Some((mark, 4_096)));
    same(&rt, subvol.truncate(b"x", 1), Ok(()));
    same(&rt, piece(&subvol, 257, 0), Some((mark, 1)));
    Ok(())
}

// A subvolume of a thousand files.
fn thousand(alloc: Global) -> Result<Subvol<Mark>, Stop> {
    let mut subvol: Subvol<Mark> = Subvol::new_root(alloc)?;
    for number in 0_u16..1_000 {
        let [low, high] = number.to_le_bytes();
        let path = [b'0' + low % 64, b'0' + low / 64, b'0' + high % 8];
        subvol.tree_mut().make(&path, NodeKind::File, 0, b"")?;
    }
    Ok(subvol)
}

// A copy of which the mode of a file is changed.
fn changed(subvol: &Subvol<Mark>) -> Result<Subvol<Mark>, Stop> {
    let mut next = subvol.copy()?;
    next.tree_mut().set_mode(b"000", 0o755)?;
    Ok(next)
}

#[test]
fn a_snapshot_copies_what_it_changes(rt: HostRuntime) -> Result<(), Fail> {
    let mut subvol = thousand(rt.alloc())?;
    same(&rt, subvol.copied(), 0);
    for _snapshot in 0..32 {
        subvol = changed(&subvol)?;
        same(&rt, subvol.copied(), 1);
    }
    Ok(())
}

// The subvolume with places of its own.
fn traced(subvol: &Subvol<Mark>) -> Result<Subvol<Mark>, AllocError> {
    subvol.retraced(&Numbers)
}

#[test]
fn contents_get_places_of_their_own(rt: HostRuntime) -> Result<(), Fail> {
    let mut subvol = with_file(rt.alloc(), 2)?;
    same(&rt, subvol.fallocate(b"x", 3, 0, 1), Ok(()));
    let other = traced(&subvol)?;
    same(&rt, other.tree().find(b"x"), Ok(257));
    let run = Some((Some(Mark { place: 257 }), 2));
    same(&rt, piece(&other, 257, 0), run);
    same(&rt, piece(&other, 257, 1), None);
    same(&rt, piece(&subvol, 257, 0), Some((None, 1)));
    Ok(())
}
