// Every fault of reading through each word that reads one file to its end: what is written before
// it, and the note. The files, what is written and the notes are not this program's own.
use crate::same::same;
use crate::streams::{
    DUMPED, END, FIRST, HEADER, HEADER_OF_VERSION_2, MKFILE_X, MKFILE_X_WITH_INO, SUBVOL_A,
    WRITE_HI, joined, words_of,
};
use host_io::NoDisk;
use send_top::run;
use std::alloc::{AllocError, Global};
use std::process::Abort;
use std::test::Fail;
use sx_base::{MemInputs, MemSink};

// Third frames of a stream of version 1 that can't be read, and the notes.
const FRAMES: [(&[u8], &[u8]); 18] = [
    (
        b"\x01\x00\x04\x00\x04\x00\xa5\xbd\xd5\x9c\x0f\x00\x01\x00d",
        b"refused 1 3 79 4 LongCommand 262145\n",
    ),
    (
        b"\x00\x00\x04\x00\x04\x00\xa4@[\xfb\x0f\x00\x01\x00d",
        b"refused 1 3 79 3 Truncated\n",
    ),
    (
        b"\x05\x00\x00\x00\x04\x00\x00\x00\x00\x00\x0f\x00\x01\x00d",
        b"refused 1 3 79 5 BadChecksum 00000000 c44adec4\n",
    ),
    (
        b"\x05\x00\x00\x00\x04\x00\xc4\xdeJ\xc4\x0f\x00\x01\x00e",
        b"refused 1 3 79 5 BadChecksum c44adec4 36215dc7\n",
    ),
    (
        b"\x00\x00\x00\x00\x00\x00\x00\x00\x00\x00",
        b"refused 1 3 79 6 UnknownCommand 0\n",
    ),
    (
        b"\x00\x00\x00\x00\x17\x00\x93\xccEF",
        b"refused 1 3 79 6 UnknownCommand 23\n",
    ),
    (
        b"\x00\x00\x00\x00\x19\x008C:O",
        b"refused 1 3 79 6 UnknownCommand 25\n",
    ),
    (
        b"\x09\x00\x00\x00\x04\x00\x13u\xc7\"\x0f\x00\x01\x00d\x00\x00\x00\x00",
        b"refused 1 3 79 7 BadAttribute 0\n",
    ),
    (
        b"\x06\x00\x00\x00\x04\x00\xd2\xa78I\x0f\x00\x01\x00d\x0f",
        b"refused 1 3 79 7 BadAttribute 0\n",
    ),
    (
        b"\x09\x00\x00\x00\x04\x00\x92?\xf1\xdd\x0f\x00\x01\x00d\x03\x00\x08\x00",
        b"refused 1 3 79 7 BadAttribute 3\n",
    ),
    (
        b"\x08\x00\x00\x00\x04\x00U\xba\xbd\x1e\x0f\x00\x01\x00d\x03\x00\x08",
        b"refused 1 3 79 7 BadAttribute 3\n",
    ),
    (
        b"\x0a\x00\x00\x00\x04\x00\xffx\xe44\x0f\x00\x01\x00d\x0f\x00\x01\x00d",
        b"refused 1 3 79 7 BadAttribute 15\n",
    ),
    (
        b"\x09\x00\x00\x00\x04\x00p\x0d\xa2\xe0\x0f\x00\x01\x00d\x19\x00\x00\x00",
        b"refused 1 3 79 7 BadAttribute 25\n",
    ),
    (
        b"\x10\x00\x00\x00\x12\x00E\x01\x0fZ\x05\x00\x07\x00\xa4\x81\x00\x00\x00\x00\x00\x0f\x00\x01\x00x",
        b"refused 1 3 79 7 BadAttribute 5\n",
    ),
    (
        b"$\x00\x00\x00\x14\x00]\x0b\x07~\x0a\x00\x0b\x00\x01\x00\x00\x00\x00\x00\x00\x00\x00\x00\x00\x0b\x00\x0c\x00\x01\x00\x00\x00\x00\x00\x00\x00\x00\x00\x00\x00\x0f\x00\x01\x00x",
        b"refused 1 3 79 7 BadAttribute 10\n",
    ),
    (
        b"\x12\x00\x00\x00\x0f\x00\xfb\x99P\x83\x12\x00\x08\x00\x00\x00\x00\x00\x00\x00\x00\x00\x13\x00\x02\x00hi",
        b"refused 1 3 79 8 MissingAttribute 15\n",
    ),
    (
        b"\x11\x00\x00\x00\x0f\x00\x05D\xdc\xfd\x0f\x00\x01\x00x\x12\x00\x08\x00\x00\x00\x00\x00\x00\x00\x00\x00",
        b"refused 1 3 79 8 MissingAttribute 19\n",
    ),
    (
        b"%\x00\x00\x00\x14\x00\\\xc1!>\x0a\x00\x0c\x00\x02\x00\x00\x00\x00\x00\x00\x00\x00\xca\x9a;\x0b\x00\x0c\x00\x01\x00\x00\x00\x00\x00\x00\x00\x00\x00\x00\x00\x0f\x00\x01\x00x",
        b"refused 1 3 79 25 BadTime\n",
    ),
];

// Third frames of a stream of version 2 that can't be read, and the notes.
const FRAMES_OF_VERSION_2: [(&[u8], &[u8]); 4] = [
    (
        b"\x00\x00\x00\x00\x19\x008C:O",
        b"refused 1 3 79 32 Encoded\n",
    ),
    (
        b"\x00\x00\x00\x00\x1a\x00\xe2\x88\x86{",
        b"refused 1 3 79 6 UnknownCommand 26\n",
    ),
    (
        b"\x09\x00\x00\x00\x04\x00\x98a\xe2\xf5\x0f\x00\x01\x00d \x00\x00\x00",
        b"refused 1 3 79 7 BadAttribute 32\n",
    ),
    (
        b"\x1d\x00\x00\x00\x17\x00\\\x07\xab\xec\x04\x00\x08\x00\x01\x00\x00\x00\x00\x00\x00\x00\x0f\x00\x01\x00x\x12\x00\x08\x00\x00\x00\x00\x00\x00\x00\x00\x00",
        b"refused 1 3 79 8 MissingAttribute 25\n",
    ),
];

// What follows a whole stream and is no header that can be read, and the notes.
const HEADERS: &[(&[u8], &[u8])] = &[
    (
        b"btrfs-strean\x00\x01\x00\x00\x00",
        b"refused 1 5 122 1 BadMagic\n",
    ),
    (
        b"btrfs-stream\x01\x01\x00\x00\x00",
        b"refused 1 5 122 1 BadMagic\n",
    ),
    (
        b"btrfs-stream\x00\x00\x00\x00\x00",
        b"refused 1 5 122 2 BadVersion 0\n",
    ),
    (
        b"btrfs-stream\x00\x03\x00\x00\x00",
        b"refused 1 5 122 2 BadVersion 3\n",
    ),
    (
        b"btrfs-stream\x00\x01\x00\x00\x01",
        b"refused 1 5 122 2 BadVersion 16777217\n",
    ),
];

// The lines of SUBVOL a and MKFILE x in version 2.
const DUMPED_OF_VERSION_2: &[u8] = b"stream 2
1 17 SUBVOL uuid=11111111-1111-1111-1111-111111111111 ctransid=1 path=a
2 64 MKFILE path=x
";

// A word before the name of a file, and what it writes before a refusal.
type Written<'a> = (&'a [&'a str], &'a [u8]);

// Expects of each word that it refuses the file with this note, after what it writes before.
fn expect_refused(
    rt: &impl Abort,
    alloc: Global,
    file: &[u8],
    note: &[u8],
    words: &[Written<'_>],
) -> Result<(), AllocError> {
    for (front, written) in words {
        let mut all = words_of(alloc, front)?;
        all.push(String::from_str(alloc, "file")?)?;
        let mut inputs = MemInputs::new(alloc);
        inputs.add("file", file)?;
        let mut out = MemSink::new(alloc);
        let mut notes = MemSink::new(alloc);
        let status = run(
            alloc,
            &all,
            Vec::new(alloc),
            &mut inputs,
            &mut out,
            &mut notes,
            &mut NoDisk::new(),
        );
        same(rt, notes.bytes(), note);
        same(rt, status, 1);
        same(rt, out.bytes(), *written);
    }
    Ok(())
}

// Where a file of so many bytes is cut short: the note, and the lines and the exported frames
// before it.
fn cut_at(len: usize) -> (&'static [u8], &'static [u8], &'static [&'static [u8]]) {
    match len {
        0..17 => (b"refused 1 1 0 3 Truncated\n", b"", &[]),
        17..64 => (b"refused 1 1 17 3 Truncated\n", b"", &[]),
        64..79 => (
            b"refused 1 2 64 3 Truncated\n",
            &DUMPED[..81],
            &[HEADER, SUBVOL_A],
        ),
        79..112 => (
            b"refused 1 3 79 3 Truncated\n",
            &DUMPED[..100],
            &[HEADER, SUBVOL_A, MKFILE_X_WITH_INO],
        ),
        _ => (
            b"refused 1 4 112 3 Truncated\n",
            &DUMPED[..134],
            &[HEADER, SUBVOL_A, MKFILE_X_WITH_INO, WRITE_HI],
        ),
    }
}

#[test]
fn files_that_are_cut(rt: HostRuntime) -> Result<(), Fail> {
    let alloc = rt.alloc();
    let file = joined(alloc, FIRST)?;
    let bytes = file.as_slice();
    for len in 0..bytes.len() {
        let (note, lines, frames) = cut_at(len);
        let lines = joined(alloc, &[lines])?;
        let exported = joined(alloc, frames)?;
        let words: [Written<'_>; 3] = [
            (&["audit", "none"], b""),
            (&["dump"], lines.as_slice()),
            (&["export", "none"], exported.as_slice()),
        ];
        expect_refused(&rt, alloc, &bytes[..len], note, &words)?;
    }
    Ok(())
}

#[test]
fn frames_that_are_refused(rt: HostRuntime) -> Result<(), Fail> {
    let alloc = rt.alloc();
    for (header, lines, frames) in [
        (HEADER, &DUMPED[..100], FRAMES.as_slice()),
        (
            HEADER_OF_VERSION_2,
            DUMPED_OF_VERSION_2,
            FRAMES_OF_VERSION_2.as_slice(),
        ),
    ] {
        let exported = joined(alloc, &[header, SUBVOL_A, MKFILE_X_WITH_INO])?;
        let words: [Written<'_>; 3] = [
            (&["audit", "none"], b""),
            (&["dump"], lines),
            (&["export", "none"], exported.as_slice()),
        ];
        for (frame, note) in frames {
            let file = joined(alloc, &[header, SUBVOL_A, MKFILE_X, frame])?;
            expect_refused(&rt, alloc, file.as_slice(), note, &words)?;
        }
    }
    Ok(())
}

#[test]
fn headers_that_are_refused(rt: HostRuntime) -> Result<(), Fail> {
    let alloc = rt.alloc();
    let exported = joined(alloc, &[HEADER, SUBVOL_A, MKFILE_X_WITH_INO, WRITE_HI, END])?;
    let words: [Written<'_>; 3] = [
        (&["audit", "none"], b""),
        (&["dump"], DUMPED),
        (&["export", "none"], exported.as_slice()),
    ];
    for (header, note) in HEADERS {
        let file = joined(alloc, &[HEADER, SUBVOL_A, MKFILE_X, WRITE_HI, END, header])?;
        expect_refused(&rt, alloc, file.as_slice(), note, &words)?;
    }
    Ok(())
}
