// Contents of bytes of outside files, and what they are cut into.
use crate::same::same;
use crate::values::key;
use extent_map::Extents;
use inode_tree::NodeKind;
use provenance::{Ends, Plan, Trace, cut_blocks, retag};
use std::alloc::{AllocError, Global};
use std::process::Abort;
use std::test::Fail;
use subvol::Subvol;
use subvol_catalog::Key;
use sx_base::Stop;

// Each file of each subvolume has this size, or none has a name.
#[derive(Drop)]
struct AllEnd {
    size: Option<u64>,
}

impl Ends for AllEnd {
    ghost ends = { λ all key ino. all.size };

    fn end_of(&self, key: Key, ino: u64) -> Option<u64> {
        let _ = (key, ino);
        self.size
    }
}

// A run, or a piece of what contents are cut into: of an inode, from a place on, and so long.
// Number 0 is no inode: the bytes of a run were written, and those of a piece are.
type Run = (u32, u32, u32);

fn plan(piece: Run) -> Plan {
    let (ino, from, len) = (u64::from(piece.0), u64::from(piece.1), u64::from(piece.2));
    if ino == 0 {
        return Plan::Literal { from, len };
    }
    Plan::Carry {
        key: key(1, 1),
        ino,
        from,
        len,
    }
}

// Contents of these runs.
fn contents(alloc: Global, runs: &[Run]) -> Result<Extents<Trace>, AllocError> {
    let mut contents = Extents::new(alloc);
    for (ino, at, len) in runs {
        let (at, len) = (u64::from(*at), u64::from(*len));
        let trace = if *ino == 0 {
            Trace::Fresh { file: 0, at }
        } else {
            Trace::Outside {
                key: key(1, 1),
                ino: u64::from(*ino),
                at,
            }
        };
        let end = contents.size().min(1 << 40);
        contents.put_run(end, trace, len)?;
    }
    Ok(contents)
}

// Whether contents are cut into these pieces.
fn is_cut(contents: &Extents<Trace>, size: Option<u64>, expected: &[Run]) -> bool {
    let ends = AllEnd { size };
    let mut place: usize = 0;
    for found in cut_blocks(contents, 0, contents.size(), &ends) {
        let Some(piece) = expected.get(place) else {
            return false;
        };
        if plan(*piece) != found {
            return false;
        }
        place = place.wrapping_add(1);
    }
    place == expected.len()
}

// Runs, the size of each file, and what the runs are cut into.
type Cut = (&'static [Run], Option<u64>, &'static [Run]);

fn are_cut(rt: &impl Abort, alloc: Global, table: &[Cut]) -> Result<(), AllocError> {
    for (runs, size, pieces) in table {
        same(rt, is_cut(&contents(alloc, runs)?, *size, pieces), true);
    }
    Ok(())
}

const SHORT: &[Run] = &[(257, 0, 8_192), (0, 0, 4_096), (257, 8_192, 1_000)];

const SHORT_CUTS: &[Cut] = &[
    (
        SHORT,
        Some(9_192),
        &[(257, 0, 8_192), (0, 8_192, 4_096), (257, 8_192, 1_000)],
    ),
    (SHORT, Some(9_193), &[(257, 0, 8_192), (0, 8_192, 5_096)]),
    (SHORT, None, &[(0, 0, 13_288)]),
];

#[test]
fn a_short_block_is_carried_where_its_file_ends(rt: HostRuntime) -> Result<(), Fail> {
    are_cut(&rt, rt.alloc(), SHORT_CUTS)?;
    Ok(())
}

// Runs of two files, runs that begin within a block, and runs that are one.
const RUN_CUTS: &[Cut] = &[
    (
        &[(257, 0, 4_096), (258, 4_096, 4_096)],
        Some(1 << 20),
        &[(257, 0, 4_096), (258, 4_096, 4_096)],
    ),
    (
        &[(257, 1, 4_096), (257, 4_097, 4_096)],
        Some(1 << 20),
        &[(0, 0, 8_192)],
    ),
    (
        &[(257, 4_096, 96), (257, 4_192, 8_096)],
        Some(1 << 20),
        &[(257, 4_096, 8_192)],
    ),
];

#[test]
fn runs_are_of_one_file(rt: HostRuntime) -> Result<(), Fail> {
    are_cut(&rt, rt.alloc(), RUN_CUTS)?;
    Ok(())
}

// A subvolume with a file of two bytes.
fn with_file(alloc: Global) -> Result<Subvol<Trace>, Stop> {
    let mut subvol = Subvol::new_root(alloc)?;
    subvol.tree_mut().make(b"x", NodeKind::File, 0, b"")?;
    subvol.write(b"x", 0, Trace::Fresh { file: 3, at: 70 }, 2)?;
    Ok(subvol)
}

// The first piece of a file.
fn first_piece(sub: &Subvol<Trace>, ino: u64) -> Option<(Option<Trace>, u64)> {
    let contents = sub.tree().inode(ino)?.contents();
    contents.pieces(0, contents.size()).next()
}

#[test]
fn a_subvolume_is_traced_to_itself(rt: HostRuntime) -> Result<(), Fail> {
    let traced = retag(&with_file(rt.alloc())?, key(1, 1))?;
    let first = Trace::Outside {
        key: key(1, 1),
        ino: 257,
        at: 0,
    };
    same(&rt, first_piece(&traced, 257), Some((Some(first), 2)));
    Ok(())
}
