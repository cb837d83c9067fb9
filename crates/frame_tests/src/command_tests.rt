// What no clause says: that each call succeeds where there is memory, and bytes from another
// program.
ghost use Rattle.std.specs.Prelude.{IfOk};
ghost use Rattle.send_commands.specs.Meaning.{meaning_of};
ghost use Rattle.send_commands.specs.Writing.{IsWritable};

use crate::frames::{END, WRITE_OF_VERSION_2};
use crate::same::same;
use send_commands::{Command, data_place, decode, encode};
use std::alloc::{AllocError, Global};
use std::process::Abort;
use std::test::Fail;
use sx_base::{Blob, Refusal, Stop};
use tlv_frame::attrs;

// A frame of each command, with its number and in the canonical spelling.
const FRAMES: &[(u16, &[u8])] = &[
    (
        1,
        b"%\x00\x00\x00\x01\x00m\xa2\xafL\x01\x00\x10\x00\x11\x11\x11\x11\x11\x11\x11\x11\x11\x11\x11\x11\x11\x11\x11\x11\x02\x00\x08\x00\x07\x00\x00\x00\x00\x00\x00\x00\x0f\x00\x01\x00a",
    ),
    (
        2,
        b"E\x00\x00\x00\x02\x00\x10\x1cO\xf9\x01\x00\x10\x00\x22\x22\x22\x22\x22\x22\x22\x22\x22\x22\x22\x22\x22\x22\x22\x22\x02\x00\x08\x00\x08\x00\x00\x00\x00\x00\x00\x00\x0f\x00\x01\x00b\x14\x00\x10\x00\x11\x11\x11\x11\x11\x11\x11\x11\x11\x11\x11\x11\x11\x11\x11\x11\x15\x00\x08\x00\x07\x00\x00\x00\x00\x00\x00\x00",
    ),
    (3, b"\x05\x00\x00\x00\x03\x00/\x8a6s\x0f\x00\x01\x00x"),
    (4, b"\x05\x00\x00\x00\x04\x00\xc4\xdeJ\xc4\x0f\x00\x01\x00d"),
    (
        5,
        b"\x1d\x00\x00\x00\x05\x005\xbf\xc3\xf9\x05\x00\x08\x00\xa4!\x00\x00\x00\x00\x00\x00\x08\x00\x08\x00\x03\x01\x00\x00\x00\x00\x00\x00\x0f\x00\x01\x00n",
    ),
    (6, b"\x05\x00\x00\x00\x06\x00\xc7\x17\x818\x0f\x00\x01\x00p"),
    (
        7,
        b"\x05\x00\x00\x00\x07\x00\xf2\x13\xa0\xbc\x0f\x00\x01\x00s",
    ),
    (
        8,
        b"\x0d\x00\x00\x00\x08\x00C\xa3\x8b\xf6\x0f\x00\x01\x00l\x11\x00\x04\x00../x",
    ),
    (
        9,
        b"\x0c\x00\x00\x00\x09\x00*\x97\x8e\x15\x0f\x00\x01\x00x\x10\x00\x03\x00d/y",
    ),
    (
        10,
        b"\x0c\x00\x00\x00\x0a\x00\xd1GN\xfe\x0f\x00\x01\x00z\x11\x00\x03\x00d/y",
    ),
    (11, b"\x05\x00\x00\x00\x0b\x00\x14\x9f3>\x0f\x00\x01\x00z"),
    (12, b"\x05\x00\x00\x00\x0c\x00\x08\xbbth\x0f\x00\x01\x00d"),
    (
        13,
        b"\x15\x00\x00\x00\x0d\x00\xf5\xae\x19{\x0d\x00\x06\x00user.k\x0e\x00\x02\x00v\x00\x0f\x00\x01\x00x",
    ),
    (
        14,
        b"\x0f\x00\x00\x00\x0e\x00\x91T\xe7\xcc\x0d\x00\x06\x00user.k\x0f\x00\x01\x00x",
    ),
    (
        15,
        b"\x1a\x00\x00\x00\x0f\x00\x8d\xec*$\x0f\x00\x01\x00x\x12\x00\x08\x00\x00\x10\x00\x00\x00\x00\x00\x00\x13\x00\x05\x00hello",
    ),
    (
        16,
        b"N\x00\x00\x00\x10\x00\x8c*\xb6\xcf\x0f\x00\x01\x00x\x12\x00\x08\x00\x00 \x00\x00\x00\x00\x00\x00\x14\x00\x10\x00\x11\x11\x11\x11\x11\x11\x11\x11\x11\x11\x11\x11\x11\x11\x11\x11\x15\x00\x08\x00\x07\x00\x00\x00\x00\x00\x00\x00\x16\x00\x01\x00q\x17\x00\x08\x00\x00\x00\x00\x00\x00\x00\x00\x00\x18\x00\x08\x00\x00\x10\x00\x00\x00\x00\x00\x00",
    ),
    (
        17,
        b"\x11\x00\x00\x00\x11\x00\x224\xf2\xac\x04\x00\x08\x00\x00\x00\x00\x00\x00\x01\x00\x00\x0f\x00\x01\x00x",
    ),
    (
        18,
        b"\x11\x00\x00\x00\x12\x00\x98\x98\x02w\x05\x00\x08\x00\xed\x01\x00\x00\x00\x00\x00\x00\x0f\x00\x01\x00x",
    ),
    (
        19,
        b"\x1d\x00\x00\x00\x13\x00\x9fS>\xd9\x06\x00\x08\x00\xe8\x03\x00\x00\x00\x00\x00\x00\x07\x00\x08\x00d\x00\x00\x00\x00\x00\x00\x00\x0f\x00\x01\x00x",
    ),
    (
        20,
        b"%\x00\x00\x00\x14\x00\x97\x06\xe84\x0a\x00\x0c\x00\x02\x00\x00\x00\x00\x00\x00\x00\x05\x00\x00\x00\x0b\x00\x0c\x00\x01\x00\x00\x00\x00\x00\x00\x00\xff\xc9\x9a;\x0f\x00\x01\x00x",
    ),
    (21, END),
    (
        22,
        b"\x1d\x00\x00\x00\x16\x00\x9e Hh\x04\x00\x08\x00\x000\x00\x00\x00\x00\x00\x00\x0f\x00\x01\x00x\x12\x00\x08\x00\x00\x00\x00\x00\x00\x00\x00\x00",
    ),
];

// Bodies that break a rule, with their command's number.
const REFUSED: &[(&str, u16, &[u8], Refusal)] = &[
    (
        "no command has the number zero",
        0,
        b"\x0f\x00\x01\x00x",
        Refusal::UnknownCommand(0),
    ),
    (
        "no command has the number",
        23,
        b"\x0f\x00\x01\x00x",
        Refusal::UnknownCommand(23),
    ),
    (
        "the first of two that are missing",
        15,
        b"\x13\x00\x05\x00hello",
        Refusal::MissingAttribute(15),
    ),
    (
        "one is missing behind one of a wrong length",
        1,
        b"\x01\x00\x05\x00short\x0f\x00\x01\x00x",
        Refusal::BadAttribute(1),
    ),
    (
        "a number of seven bytes",
        15,
        b"\x0f\x00\x01\x00x\x12\x00\x07\x001234567\x13\x00\x05\x00hello",
        Refusal::BadAttribute(18),
    ),
    (
        "a moment of eleven bytes",
        20,
        b"\x0a\x00\x0c\x00\x02\x00\x00\x00\x00\x00\x00\x00\x05\x00\x00\x00\x0b\x00\x0b\x0012345678901\x0f\x00\x01\x00x",
        Refusal::BadAttribute(11),
    ),
    (
        "a whole second of nanoseconds",
        20,
        b"\x0a\x00\x0c\x00\x02\x00\x00\x00\x00\x00\x00\x00\x05\x00\x00\x00\x0b\x00\x0c\x00\x01\x00\x00\x00\x00\x00\x00\x00\x00\xca\x9a;\x0f\x00\x01\x00x",
        Refusal::BadTime,
    ),
];

// Bodies that break a rule of version 2, with their command's number.
const REFUSED_IN_SECOND: &[(&str, u16, &[u8], Refusal)] = &[
    ("a write of compressed bytes", 25, b"", Refusal::Encoded),
    (
        "a write of compressed bytes with a bad attribute",
        25,
        b"\x20\x00\x00\x00",
        Refusal::BadAttribute(32),
    ),
    (
        "no command has the number",
        26,
        b"\x0f\x00\x01\x00x",
        Refusal::UnknownCommand(26),
    ),
    (
        "data swallows what follows it",
        15,
        b"\x13\x00\x02\x00hi\x0f\x00\x01\x00x\x12\x00\x08\x00\x00\x00\x00\x00\x00\x00\x00\x00",
        Refusal::MissingAttribute(15),
    ),
    (
        "a mode of eight bytes",
        23,
        b"\x04\x00\x08\x00\x01\x00\x00\x00\x00\x00\x00\x00\x0f\x00\x01\x00x\x12\x00\x08\x00\x00\x00\x00\x00\x00\x00\x00\x00\x19\x00\x08\x00\x03\x00\x00\x00\x00\x00\x00\x00",
        Refusal::BadAttribute(25),
    ),
    (
        "no flags",
        24,
        b"\x0f\x00\x01\x00x",
        Refusal::MissingAttribute(26),
    ),
];

// The command of a number whose frame has this body in a version.
fn read<'a>(version: u32, cmd: u16, body: &'a [u8]) -> Result<Command<'a>, Refusal>
    ensures { IfOk result (λ command. IsWritable version (meaning_of command)) }
{
    match attrs(body, version) {
        Ok(table) => decode(cmd, &table),
        Err(refusal) => Err(refusal),
    }
}

// The refusal of a body in a version.
fn refusal(version: u32, cmd: u16, body: &[u8]) -> Option<Refusal> {
    match read(version, cmd, body) {
        Ok(_) => None,
        Err(refusal) => Some(refusal),
    }
}

// The canonical spelling of the command of a number whose frame has this body in version 1, and the
// place of its data.
fn spelled(alloc: Global, cmd: u16, body: &[u8]) -> Result<(Blob, Option<u64>), Stop> {
    let command = match read(1, cmd, body) {
        Ok(command) => command,
        Err(refusal) => return Err(Stop::Refused(refusal)),
    };
    let mut to = Blob::new(alloc);
    encode(&command, 1, &mut to)?;
    Ok((to, data_place(&command, 1)))
}

#[test]
fn each_command_is_read_and_written(rt: HostRuntime) -> Result<(), Fail> {
    for &(cmd, frame) in FRAMES {
        let body = frame.get(10..).ok_or("a frame has a header")?;
        let (to, place) = spelled(rt.alloc(), cmd, body)?;
        same(&rt, to.as_slice(), frame);
        same(&rt, place, if cmd == 15 { Some(31) } else { None });
    }
    Ok(())
}

const BODIES: &[&[u8]] = &[
    b"\x13\x00\x05\x00hello\x03\x00\x08\x00\x01\x01\x00\x00\x00\x00\x00\x00\x0f\x00\x01\x00x\x09\x00\x03\x00odd\x12\x00\x08\x00\x00\x10\x00\x00\x00\x00\x00\x00",
    b"\x12\x00\x08\x00\x00\x10\x00\x00\x00\x00\x00\x00\x13\x00\x05\x00hello\x0f\x00\x01\x00x",
];

const WRITE_HELLO: &[u8] =
    b"\x1a\x00\x00\x00\x0f\x00\x8d\xec*$\x0f\x00\x01\x00x\x12\x00\x08\x00\x00\x10\x00\x00\x00\x00\x00\x00\x13\x00\x05\x00hello";

#[test]
fn attributes_stand_in_any_order(rt: HostRuntime) -> Result<(), Fail> {
    for &body in BODIES {
        let (to, _) = spelled(rt.alloc(), 15, body)?;
        same(&rt, to.as_slice(), WRITE_HELLO);
    }
    Ok(())
}

// Each body is refused in a version; what is wrong is there to be shown.
fn are_refused(rt: &impl Abort, version: u32, table: &[(&str, u16, &[u8], Refusal)]) {
    for &(what, cmd, body, want) in table {
        let refused = refusal(version, cmd, body);
        same(rt, (what, refused), (what, Some(want)));
    }
}

#[test]
fn the_first_rule_that_is_broken_refuses(rt: HostRuntime) {
    are_refused(&rt, 1, REFUSED);
    are_refused(&rt, 2, REFUSED_IN_SECOND);
    let unknown = refusal(1, 25, b"");
    same(&rt, unknown, Some(Refusal::UnknownCommand(25)));
}

// Where a WRITE begins, and its bytes.
fn written<'a>(command: &Command<'a>) -> Option<(u64, &'a [u8])> {
    match command {
        Command::Write { offset, bytes, .. } => Some((*offset, *bytes)),
        _ => None,
    }
}

// The same of the command with this body in version 2.
fn written_of<'a>(cmd: u16, body: &'a [u8]) -> Option<(u64, &'a [u8])> {
    match read(2, cmd, body) {
        Ok(command) => written(&command),
        Err(_) => None,
    }
}

// The size, the place and the mode of a FALLOCATE, or the flags of a FILEATTR.
fn numbers(command: &Command<'_>) -> Option<(u64, u64, u32)> {
    match command {
        Command::Fallocate {
            size,
            offset,
            mode,
            ..
        } => Some((*size, *offset, *mode)),
        Command::FileAttr { flags, .. } => Some((*flags, 0, 0)),
        _ => None,
    }
}

const FALLOCATE_BODY: &[u8] =
    b"\x04\x00\x08\x00\x01\x00\x00\x00\x00\x00\x00\x00\x0f\x00\x01\x00x\x12\x00\x08\x00\x02\x00\x00\x00\x00\x00\x00\x00\x19\x00\x04\x00\x03\x00\x00\x00";

const FILEATTR_BODY: &[u8] = b"\x0f\x00\x01\x00x\x1a\x00\x08\x00\x10\x00\x00\x00\x00\x00\x00\x00";

// The numbers of the command with this body in version 2.
fn numbers_of(cmd: u16, body: &[u8]) -> Option<(u64, u64, u32)> {
    match read(2, cmd, body) {
        Ok(command) => numbers(&command),
        Err(_) => None,
    }
}

#[test]
fn commands_of_version_two_are_read(rt: HostRuntime) {
    let written = written_of(15, &WRITE_OF_VERSION_2[10..]);
    same(&rt, written, Some((5, b"hi".as_slice())));
    same(&rt, numbers_of(23, FALLOCATE_BODY), Some((1, 2, 3)));
    same(&rt, numbers_of(24, FILEATTR_BODY), Some((16, 0, 0)));
}

// A WRITE as version 2 spells it, and the place of its data.
#[tactic(auto, unfolding(send_commands::specs::Writing::IsWritable, send_model::specs::Command::row, send_model::specs::Spelling::attributes_of, send_model::specs::Spelling::body_of, send_model::specs::Spelling::attribute_bytes))]
fn written_in_second(alloc: Global) -> Result<(Blob, Option<u64>), AllocError> {
    let write = Command::Write {
        path: b"x",
        offset: 5,
        bytes: b"hi",
    };
    let mut to = Blob::new(alloc);
    encode(&write, 2, &mut to)?;
    Ok((to, data_place(&write, 2)))
}

#[test]
fn commands_of_version_two_are_written(rt: HostRuntime) -> Result<(), Fail> {
    let (to, place) = written_in_second(rt.alloc())?;
    same(&rt, to.as_slice(), WRITE_OF_VERSION_2);
    same(&rt, place, Some(29));
    Ok(())
}
