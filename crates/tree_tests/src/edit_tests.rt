// Three hundred edits over a tree, beside what a plain map makes of them: a model in another
// language drew the edits and says what each answers and what stands after 160 and after all of
// them.
//
// An edit is four letters: what it does, a path, another path (or a mode), and the number of its
// refusal, counted from @, which stands for none.
use crate::marks::Mark;
use crate::same::same;
use inode_tree::{NodeKind, Tree};
use std::process::Abort;
use std::test::Fail;
use sx_base::Stop;

// The paths from A on.
const PATHS: &[&[u8]] = &[
    b"a", b"b", b"c", b"a/a", b"a/b", b"b/a", b"b/b", b"c/a", b"a/a/a", b"a/a/b", b"a/b/a",
    b"b/a/a", b"b/b/a", b"a/a/a/a", b"", b"a//b",
];

const EDITS_FIRST: &[&[u8]] = &[
    b"mHCOlLCOcEBOdBE@lGJOfMEOcBB@uGGOmBA@mBLOmDIOcOG@dAFQcGNOmDDOdCH@mIKOfACQcIHOmMHO",
    b"mGEOmEDOrMAOmGLOmDCOdKFOmGEOdBF@fFF@dKBOdHN@mKMOuEDOdFDQmGCOmBA@mHIPdCCQrJBPfBC@",
    b"dEB@lIKOdIOPuLDPmDB@dCEQmHGPmIIOfFFPfOKZlKB@fIGOcKD@cJFOfHJQlAERlLARcBD@fFJPmABP",
    b"dMEPfHFQcEL@dBLQlBIOfLOPdIKOcGEPdOJZcKN@lBDOmFAPlHDOlLERdDC@mJDOmBERmAH@mAAOmJBO",
    b"dBCQdHAQlEDOmHA@lBDRmCD@mBC@mFBOrCFPlLARdCLQcMFOmKHPuAARfID@uJJOuAHRfALQdFAOfNBP",
    b"lCBOlIARmHJPmJIOcGJOdFIOdLBOmJAOuHDPlAGOcKD@dBL@mAA@fHNPmIHPmGFOlJFOfBBQdDLQlKKQ",
    b"fJJ@fDBQcCD@mDB@dDM@lLGPdEOQuFL@dFH@mEI@mCG@dNGQlEKOfEC@fKFPdDOQlEIRmHBOmDEPuHKO",
    b"cFJ@fCC@mHCPuCA@mAKPfLM@dFBQlADRuGB@dIDQfAKQcHLOrHBOcLC@dGE@uDCRfHMOmBMTmDM@lMNO",
];

const EDITS_LAST: &[&[u8]] = &[
    b"mAFSfBAQdCM@cJCOdIAOcAI@fACQlELQcBA@dHC@mEMRmAA@lHCRfHEQmBFTfABQlKEPfEIQdHGQlLAR",
    b"dLFQuHHRlFBRfJAOlDHRmFJOdBAQlABRlMCRrMNSmECRfGEQmBFTcBI@mGPNdALQmEJOlBIOfECQdIKO",
    b"lHLQcEJ@lDBRfMHQmFF@dGJQmKLPlDNOfCDQmBGTmCBSlDJOdGBQmILOlCGRlKCRfHCQmACSmCD@dAOQ",
    b"dJD@fHBOmEIRlEFRdJBQdELQfGFQdPANcGF@cAL@mHLOdGAQcDA@mAGSlDARdCA@dHB@fBPQmBEPlJGR",
    b"fFFQmAETcEC@lBARmKHPfIFQfBBQcEA@mDBSrGASuEF@mFI@cCE@dMBQuIKRfJIQcHL@uFFOdABQdAFQ",
    b"cBF@cBH@cFHOlABRfBHQmFNOlCNQmBASmHASfMBQfBNQfBGQlAKOfFH@lFJRlICRcDF@dHCQdHGQfBDQ",
    b"lFARfKCOdFDQdIBQdFDQmDFPrJB@dCAQcDB@lDPNcBF@mJBOfCBQmACSmFN@dGKQlAMRcBC@dEM@fIJQ",
];

// What stands after the first edits, by number: the inode's kind and mode; and the names.
const INODES_FIRST: &[(u64, NodeKind, u16)] = &[
    (256, NodeKind::Directory, 0o2_452),
    (258, NodeKind::Directory, 0o700),
    (259, NodeKind::Directory, 0o700),
    (260, NodeKind::File, 0o5_225),
    (263, NodeKind::Directory, 0o3_315),
    (268, NodeKind::Directory, 0o700),
    (269, NodeKind::Directory, 0o7_677),
    (270, NodeKind::File, 0o600),
    (272, NodeKind::File, 0o3_416),
    (273, NodeKind::Directory, 0o700),
];

const NAMES_FIRST: &[(u64, &[u8], u64)] = &[
    (256, b"a", 259),
    (256, b"b", 258),
    (258, b"a", 269),
    (258, b"b", 273),
    (259, b"b", 270),
    (263, b"a", 260),
    (268, b"a", 263),
    (269, b"a", 272),
    (273, b"a", 268),
];

// The same after all edits.
const INODES_LAST: &[(u64, NodeKind, u16)] = &[
    (256, NodeKind::Directory, 0o2_452),
    (258, NodeKind::Directory, 0o3_416),
    (259, NodeKind::Directory, 0o3_315),
    (260, NodeKind::File, 0o5_225),
    (263, NodeKind::Directory, 0o3_315),
    (268, NodeKind::Directory, 0o700),
    (269, NodeKind::Directory, 0o7_677),
    (273, NodeKind::Directory, 0o643),
    (274, NodeKind::Directory, 0o1_607),
    (277, NodeKind::Directory, 0o7_034),
    (278, NodeKind::Directory, 0o3_315),
    (279, NodeKind::File, 0o600),
    (280, NodeKind::Directory, 0o700),
];

const NAMES_LAST: &[(u64, &[u8], u64)] = &[
    (256, b"a", 259),
    (256, b"b", 258),
    (256, b"c", 277),
    (258, b"b", 273),
    (259, b"a", 274),
    (259, b"b", 280),
    (263, b"a", 260),
    (268, b"a", 263),
    (269, b"a", 279),
    (273, b"a", 268),
    (274, b"a", 269),
    (277, b"a", 278),
];

fn path_of(letter: u8) -> &'static [u8] {
    match PATHS.get(usize::from(letter.wrapping_sub(b'A'))) {
        Some(path) => path,
        None => b"",
    }
}

fn make(tree: &mut Tree<Mark>, path: &[u8], kind: NodeKind) -> Result<(), Stop> {
    tree.make(path, kind, 0, b"")?;
    Ok(())
}

fn done(tree: &mut Tree<Mark>, what: u8, letter: u8, other_letter: u8) -> Result<(), Stop> {
    let path = path_of(letter);
    let other = path_of(other_letter);
    match what {
        b'd' => make(tree, path, NodeKind::Directory),
        b'f' => make(tree, path, NodeKind::File),
        b'l' => tree.link(path, other),
        b'u' => tree.unlink(path),
        b'r' => tree.rmdir(path),
        b'm' => tree.rename(path, other),
        _ => {
            let mode = u16::from(other_letter.wrapping_sub(b'A')).wrapping_mul(4_999);
            tree.set_mode(path, mode)
        }
    }
}

// The number of the refusal, 0 for none; an error where there is no memory.
fn number_of(answer: Result<(), Stop>) -> Result<u64, Stop> {
    match answer {
        Ok(()) => Ok(0),
        Err(Stop::Refused(refusal)) => Ok(refusal.number()),
        Err(Stop::NoMemory) => Err(Stop::NoMemory),
    }
}

fn edit(rt: &impl Abort, tree: &mut Tree<Mark>, line: &[u8]) -> Result<(), Fail> {
    for edit in line.chunks_exact(4) {
        if let [what, path, other, want] = edit {
            let number = number_of(done(tree, *what, *path, *other))?;
            same(rt, number, u64::from(want.wrapping_sub(b'@')));
        }
    }
    Ok(())
}

fn edit_all(rt: &impl Abort, tree: &mut Tree<Mark>, lines: &[&[u8]]) -> Result<(), Fail> {
    for line in lines {
        edit(rt, tree, line)?;
    }
    Ok(())
}

fn kind_and_mode(tree: &Tree<Mark>, number: u64) -> Option<(NodeKind, u16)> {
    let inode = tree.inode(number)?;
    Some((inode.kind(), inode.mode()))
}

fn inodes_are(rt: &impl Abort, tree: &Tree<Mark>, table: &[(u64, NodeKind, u16)]) {
    let mut last = 0;
    for (number, kind, mode) in table {
        same(rt, tree.inode_after(last), Some(*number));
        same(rt, kind_and_mode(tree, *number), Some((*kind, *mode)));
        last = *number;
    }
    same(rt, tree.inode_after(last), None);
}

fn names_are(rt: &impl Abort, tree: &Tree<Mark>, table: &[(u64, &[u8], u64)]) {
    let mut directory = 0;
    let mut name: &[u8] = b"";
    for entry in table {
        same(rt, tree.name_after(directory, name), Some(*entry));
        directory = entry.0;
        name = entry.1;
    }
    same(rt, tree.name_after(directory, name), None);
}

#[test]
fn edits_leave_what_a_plain_map_has(rt: HostRuntime) -> Result<(), Fail> {
    let mut tree = Tree::new(rt.alloc())?;
    edit_all(&rt, &mut tree, EDITS_FIRST)?;
    let copy = tree.copy()?;
    edit_all(&rt, &mut tree, EDITS_LAST)?;
    inodes_are(&rt, &tree, INODES_LAST);
    names_are(&rt, &tree, NAMES_LAST);
    inodes_are(&rt, &copy, INODES_FIRST);
    names_are(&rt, &copy, NAMES_FIRST);
    Ok(())
}
