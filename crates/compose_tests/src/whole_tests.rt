// Files that are composed over objects in memory.
use crate::same::same;
use crate::streams::{
    CLONE_FROM_A, CLONE_FROM_B, END, FALLOCATE, FIRST, HEADER, HEADER_V2, MKFILE, MKFILE_Y,
    SNAPSHOT_B, SUBVOL_A, SUBVOL_B, WRITE_HI, WRITE_HI_V2, WRITE_MORE, WRITE_MORE_V2, WRITE_Y_HI,
    joined,
};
use composer::compose;
use part_names::Overrides;
use std::alloc::{AllocError, Global};
use std::process::Abort;
use std::test::Fail;
use sx_base::{MemInputs, MemSink, Outcome};

// One that goes on from the first.
const SECOND: &[&[u8]] = &[HEADER, SNAPSHOT_B, WRITE_MORE, END];

const NAMES: &[&str] = &["first", "second"];

// Composes up to two files, given by their pieces, and expects the pieces that are written.
fn expect(
    rt: &impl Abort,
    alloc: Global,
    files: &[&[&[u8]]],
    written: &[&[u8]],
) -> Result<(), AllocError> {
    let mut inputs = MemInputs::new(alloc);
    let mut names = Vec::new(alloc);
    for (name, file) in NAMES.iter().zip(files) {
        inputs.add(name, joined(alloc, file)?.as_slice())?;
        names.push(String::from_str(alloc, name)?)?;
    }
    assert!(rt; names.len() == files.len() && !names.is_empty());
    let own = Overrides::none(alloc);
    let mut out = MemSink::new(alloc);
    let outcome = compose(alloc, &mut inputs, &names, &own, &mut out);
    same(rt, outcome, Outcome::Done);
    same(rt, out.bytes(), joined(alloc, written)?.as_slice());
    Ok(())
}

// Files, and what is written of them.
const COMPOSED: &[(&[&[&[u8]]], &[&[u8]])] = &[
    (&[FIRST], FIRST),
    (
        &[FIRST, SECOND],
        &[HEADER, SUBVOL_B, MKFILE, WRITE_HI, WRITE_MORE, END],
    ),
    // one file with two parts, the first without END
    (
        &[&[
            HEADER, SUBVOL_A, MKFILE, WRITE_HI, SNAPSHOT_B, WRITE_MORE, END,
        ]],
        &[HEADER, SUBVOL_B, MKFILE, WRITE_HI, WRITE_MORE, END],
    ),
    // a clone from an earlier part, whose bytes are read again
    (
        &[FIRST, &[HEADER, SNAPSHOT_B, MKFILE_Y, CLONE_FROM_A, END]],
        &[
            HEADER, SUBVOL_B, MKFILE, WRITE_HI, MKFILE_Y, WRITE_Y_HI, END,
        ],
    ),
    // one from the part itself, which then has another name
    (
        &[
            &[
                HEADER,
                SUBVOL_A,
                MKFILE,
                WRITE_HI,
                MKFILE_Y,
                CLONE_FROM_A,
                END,
            ],
            SECOND,
        ],
        &[
            HEADER,
            SUBVOL_B,
            MKFILE,
            WRITE_HI,
            MKFILE_Y,
            CLONE_FROM_B,
            WRITE_MORE,
            END,
        ],
    ),
    // streams of both versions
    (
        &[
            &[HEADER_V2, SUBVOL_A, MKFILE, FALLOCATE, WRITE_HI_V2, END],
            SECOND,
        ],
        &[
            HEADER_V2,
            SUBVOL_B,
            MKFILE,
            FALLOCATE,
            WRITE_HI_V2,
            WRITE_MORE_V2,
            END,
        ],
    ),
];

#[test]
fn files_are_composed(rt: HostRuntime) -> Result<(), Fail> {
    for &(files, written) in COMPOSED {
        expect(&rt, rt.alloc(), files, written)?;
    }
    Ok(())
}
