//! Dumps of small files. The files and the lines of the first are from another program; the lines
//! of the others are written by hand.

use crate::same::same;
use crate::streams::{DUMPED, END, FIRST, HEADER, OF_BOTH_VERSIONS, Pieces, SNAPSHOT_B, joined};
use std::alloc::Global;
use std::test::Fail;
use stream_dump::dump;
use sx_base::{MemInputs, MemSink, Outcome};

// Values of every form, in two streams.
const VALUES: Pieces = &[
    HEADER,
    b"'\x00\x00\x00\x01\x00&;\xafR\x01\x00\x10\x00\x11\x11\x11\x11\x11\x11\x11\x11\x11\x11\x11\x11\x11\x11\x11\x11\x02\x00\x08\x00\x01\x00\x00\x00\x00\x00\x00\x00\x0f\x00\x03\x00a b\x1e\x00\x00\x00\x05\x00\xa4K\x03\x18\x05\x00\x08\x00\xa4!\x00\x00\x00\x00\x00\x00\x08\x00\x08\x00\x03\x01\x00\x00\x00\x00\x00\x00\x0f\x00\x02\x00n\\\x09\x00\x00\x00\x08\x00\xe9\x94\x15z\x0f\x00\x01\x00l\x11\x00\x00\x00\x16\x00\x00\x00\x0d\x00\xa4\xf8#\xb2\x0d\x00\x06\x00user.x\x0e\x00\x03\x00abc\x0f\x00\x01\x00l%\x00\x00\x00\x14\x003\xe9_C\x0a\x00\x0c\x00\x08\x00\x00\x00\x00\x00\x00\x00\x15\xcd[\x07\x0b\x00\x0c\x00\x07\x00\x00\x00\x00\x00\x00\x00\x01\x00\x00\x00\x0f\x00\x01\x00l\x11\x00\x00\x00\x12\x00b\xd5\x9a\xf3\x05\x00\x08\x00\x00\x00\x00\x00\x00\x00\x00\x00\x0f\x00\x01\x00l\x11\x00\x00\x00\x11\x00\xd1\xdbL\xb4\x04\x00\x08\x00\xff\xff\xff\xff\xff\xff\xff\xff\x0f\x00\x01\x00\xff\x1d\x00\x00\x00\x13\x00\xa7\x02(i\x06\x00\x08\x00\xe8\x03\x00\x00\x00\x00\x00\x00\x07\x00\x08\x00\xfe\xff\x00\x00\x00\x00\x00\x00\x0f\x00\x01\x00l",
    END,
    HEADER,
    SNAPSHOT_B,
    b"\x1d\x00\x00\x00\x16\x00\x94\"\xe7\xb1\x04\x00\x08\x00\x00 \x00\x00\x00\x00\x00\x00\x0f\x00\x01\x00l\x12\x00\x08\x00\x00\x10\x00\x00\x00\x00\x00\x00\x0a\x00\x00\x00\x09\x00\x18Q\x8es\x0f\x00\x01\x00l\x10\x00\x01\x00m",
    END,
];

const VALUE_LINES: &[u8] =
    b"stream 1\n1 17 SUBVOL uuid=11111111-1111-1111-1111-111111111111 ctransid=1 path=a\\x20b\n2 66 MKNOD mode=20644 rdev=259 path=n\\x5c\n3 106 SYMLINK path=l link=\n4 125 SET_XATTR xattr=user.x value=3 path=l\n5 157 UTIMES mtime=8.123456789 atime=7.000000001 path=l\n6 204 CHMOD mode=0 path=l\n7 231 TRUNCATE size=18446744073709551615 path=\\xff\n8 258 CHOWN uid=1000 gid=65534 path=l\n9 297 END\nstream 1\n10 324 SNAPSHOT uuid=22222222-2222-2222-2222-222222222222 ctransid=2 path=b clone_uuid=11111111-1111-1111-1111-111111111111 clone_ctransid=1\n11 403 UPDATE_EXTENT size=8192 path=l offset=4096\n12 442 RENAME path=l to=m\n13 462 END\n";

const BOTH_LINES: &[u8] =
    b"stream 1\n1 17 SUBVOL uuid=11111111-1111-1111-1111-111111111111 ctransid=1 path=a\n2 64 MKFILE path=x\n3 79 WRITE path=x offset=0 data=2\n4 112 END\nstream 2\n5 139 SNAPSHOT uuid=22222222-2222-2222-2222-222222222222 ctransid=2 path=b clone_uuid=11111111-1111-1111-1111-111111111111 clone_ctransid=1\n6 218 MKFILE path=y\n7 233 CLONE path=y offset=0 clone_uuid=11111111-1111-1111-1111-111111111111 clone_ctransid=1 clone_path=x clone_offset=0 clone_len=2\n8 321 WRITE path=x offset=2 data=1\n9 351 FALLOCATE size=1 path=x offset=0 fmode=3\n10 398 FILEATTR path=x flags=16\n11 425 END\n";

// Whether the file is dumped as these lines.
fn dumps_as(alloc: Global, file: Pieces, lines: &[u8]) -> Result<bool, Fail> {
    let mut inputs = MemInputs::new(alloc);
    inputs.add("file", joined(alloc, file)?.as_slice())?;
    let mut out = MemSink::new(alloc);
    let answer = dump(alloc, &mut inputs, "file", &mut out);
    Ok(answer == Outcome::Done && out.bytes() == lines)
}

#[test]
fn whole_files(rt: HostRuntime) -> Result<(), Fail> {
    same(&rt, dumps_as(rt.alloc(), FIRST, DUMPED)?, true);
    same(&rt, dumps_as(rt.alloc(), VALUES, VALUE_LINES)?, true);
    same(
        &rt,
        dumps_as(rt.alloc(), OF_BOTH_VERSIONS, BOTH_LINES)?,
        true,
    );
    Ok(())
}

#[test]
fn faults_of_the_objects(rt: HostRuntime) -> Result<(), Fail> {
    let mut inputs = MemInputs::new(rt.alloc());
    inputs.add("whole", joined(rt.alloc(), FIRST)?.as_slice())?;
    let mut out = MemSink::new(rt.alloc());
    out.fail_call(1)?;
    same(
        &rt,
        dump(rt.alloc(), &mut inputs, "whole", &mut out),
        Outcome::OutputFault,
    );
    let mut failing = MemInputs::new(rt.alloc());
    failing.add("whole", joined(rt.alloc(), FIRST)?.as_slice())?;
    failing.fail_call(2)?;
    let mut unused = MemSink::new(rt.alloc());
    same(
        &rt,
        dump(rt.alloc(), &mut failing, "whole", &mut unused),
        Outcome::InputFault,
    );
    same(&rt, unused.bytes(), b"".as_slice());
    Ok(())
}
