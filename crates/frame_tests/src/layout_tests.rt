// What no clause says: that each call succeeds where there is memory, and bytes from another
// program.
use crate::frames::{END, WRITE_OF_VERSION_2};
use crate::same::same;
use std::process::Abort;
use std::test::Fail;
use sx_base::{Blob, Refusal};
use tlv_frame::{AttrTable, FrameHead, FrameWriter, StreamHead, attrs};

// The header and the body of a frame that writes two bytes into the file x from place 5 on.
const WRITE_HEAD: &[u8; 10] = b"\x17\x00\x00\x00\x0f\x00\xec\x08\x18^";

const WRITE_BODY: &[u8] =
    b"\x0f\x00\x01\x00x\x12\x00\x08\x00\x05\x00\x00\x00\x00\x00\x00\x00\x13\x00\x02\x00hi";

const HEADERS: &[(&[u8; 17], Result<StreamHead, Refusal>)] = &[
    (b"btrfs-stream\0\x01\0\0\0", Ok(StreamHead { version: 1 })),
    (b"btrfs-stream\0\x02\0\0\0", Ok(StreamHead { version: 2 })),
    (b"btrfs-stream\0\x03\0\0\0", Err(Refusal::BadVersion(3))),
    (b"btrfs-stream\0\x02\x01\0\0", Err(Refusal::BadVersion(258))),
    (b"btrfs-stream \x01\0\0\0", Err(Refusal::BadMagic)),
];

#[test]
fn stream_headers_are_read(rt: HostRuntime) {
    for &(header, want) in HEADERS {
        same(&rt, StreamHead::read(header), want);
    }
}

#[test]
fn frame_headers_are_read(rt: HostRuntime) -> Result<(), Fail> {
    let right = FrameHead {
        len: 0,
        cmd: 21,
        crc: 0x9dc9_6c50,
    };
    same(&rt, FrameHead::read(END), Ok(right));
    same(&rt, right.check_crc(b""), Ok(()));
    let other = FrameHead {
        len: 0,
        cmd: 21,
        crc: 1,
    };
    let differs = Refusal::BadChecksum {
        stored: 1,
        computed: 0x9dc9_6c50,
    };
    same(&rt, other.check_crc(b""), Err(differs));
    let long = FrameHead::read(&[0, 0, 4, 0, 0, 0, 0, 0, 0, 0]);
    same(&rt, long.is_ok(), true);
    let longer = FrameHead::read(&[1, 0, 4, 0, 0, 0, 0, 0, 0, 0]);
    same(&rt, longer, Err(Refusal::LongCommand(262_145)));
    Ok(())
}

#[test]
fn attributes_are_found(rt: HostRuntime) -> Result<(), Fail> {
    let table = attrs(WRITE_BODY, 1)
        .ok()
        .ok_or("the attributes are lawful")?;
    same(&rt, table.get(15), Some(b"x".as_slice()));
    same(
        &rt,
        table.get(18),
        Some([5, 0, 0, 0, 0, 0, 0, 0].as_slice()),
    );
    same(&rt, table.get(19), Some(b"hi".as_slice()));
    same(&rt, table.place(19), Some(21));
    same(&rt, table.get(16), None);
    same(&rt, table.place(16), None);
    same(&rt, table.get(700), None);
    same(&rt, table.version(), 1);
    Ok(())
}

#[test]
fn a_table_keeps_nothing_of_the_body_before(rt: HostRuntime) {
    let mut table = AttrTable::new(1);
    same(&rt, table.get(15), None);
    same(&rt, table.read(WRITE_BODY), Ok(()));
    same(&rt, table.get(19), Some(b"hi".as_slice()));
    same(&rt, table.read(b"\x0f\x00\x01\x00y"), Ok(()));
    same(&rt, table.get(15), Some(b"y".as_slice()));
    same(&rt, table.get(19), None);
    let twice = table.read(b"\x0f\x00\x01\x00x\x0f\x00\x01\x00y");
    same(&rt, twice, Err(Refusal::BadAttribute(15)));
    same(&rt, table.get(15), None);
}

// The number that the refusal of these attributes keeps, if they are refused.
fn bad_attribute(read: Result<AttrTable<'_>, Refusal>) -> Option<u16> {
    match read {
        Err(Refusal::BadAttribute(kind)) => Some(kind),
        _ => None,
    }
}

// Bodies in version 2, with the place of their data, and the data; and bodies that are refused,
// with what their refusal keeps.
const WITH_DATA: &[(&[u8], usize, &[u8])] = &[
    (b"\x0f\x00\x01\x00x\x13\x00hi", 7, b"hi"),
    (b"\x13\x00", 2, b""),
    (
        b"\x19\x00\x04\x00\x03\x00\x00\x00\x13\x00\x13\x00\x0f\x00\x01\x00x",
        10,
        b"\x13\x00\x0f\x00\x01\x00x",
    ),
];

const BAD_IN_SECOND: &[(&[u8], u16)] = &[
    (b"\x0f\x00\x01\x00x\x13", 0),
    (b"\x20\x00\x01\x00x", 32),
    (b"\x0f\x00", 15),
    (b"\x0f\x00\x01\x00x\x0f\x00\x01\x00x\x13\x00", 15),
];

fn has_data(rt: &impl Abort, body: &[u8], place: usize, data: &[u8]) -> Result<(), Fail> {
    let table = attrs(body, 2).ok().ok_or("the attributes are lawful")?;
    same(rt, table.get(19), Some(data));
    same(rt, table.place(19), Some(place));
    same(rt, table.version(), 2);
    Ok(())
}

#[test]
fn data_of_version_two_has_no_length(rt: HostRuntime) -> Result<(), Fail> {
    for &(body, place, data) in WITH_DATA {
        has_data(&rt, body, place, data)?;
    }
    for &(body, kind) in BAD_IN_SECOND {
        same(&rt, bad_attribute(attrs(body, 2)), Some(kind));
    }
    Ok(())
}

#[test]
#[tactic(auto, unfolding(send_model::specs::Spelling::attribute_bytes))]
fn frames_of_version_two_are_written(rt: HostRuntime) -> Result<(), Fail> {
    let mut to = Blob::new(rt.alloc());
    let mut writer = FrameWriter::begin(&mut to, 15, 2)?;
    writer.attr_bytes(&mut to, 15, b"x")?;
    writer.attr_u64(&mut to, 18, 5)?;
    writer.attr_data(&mut to, b"hi")?;
    writer.finish(&mut to);
    same(&rt, to.as_slice(), WRITE_OF_VERSION_2);
    Ok(())
}

const BAD: &[(&str, &[u8], u16)] = &[
    ("one byte", b"\x0f", 0),
    ("a number and no length", b"\x0f\x00", 15),
    ("no number of the protocol, zero", b"\x00\x00\x01\x00a", 0),
    (
        "a number above the last",
        b"\x0f\x00\x01\x00x\x19\x00\x01\x00a",
        25,
    ),
    (
        "the same number twice",
        b"\x0f\x00\x01\x00x\x03\x00\x08\x00\x01\x01\x00\x00\x00\x00\x00\x00\x0f\x00\x01\x00y",
        15,
    ),
    ("a length past the end", b"\x0f\x00\x01\x00", 15),
    (
        "a length past the end, after another",
        b"\x0f\x00\x01\x00x\x03\x00\x08\x00\x01\x01\x00\x00\x00\x00\x00",
        3,
    ),
];

#[test]
fn the_first_breach_is_refused(rt: HostRuntime) {
    for &(what, body, kind) in BAD {
        same(
            &rt,
            (what, bad_attribute(attrs(body, 1))),
            (what, Some(kind)),
        );
    }
}

#[test]
#[tactic(auto, unfolding(send_model::specs::Spelling::attribute_bytes))]
fn frames_are_written(rt: HostRuntime) -> Result<(), Fail> {
    let mut to = Blob::new(rt.alloc());
    let mut writer = FrameWriter::begin(&mut to, 15, 1)?;
    writer.attr_bytes(&mut to, 15, b"x")?;
    writer.attr_u64(&mut to, 18, 5)?;
    writer.attr_data(&mut to, b"hi")?;
    writer.finish(&mut to);
    let body = to.as_slice().strip_prefix(WRITE_HEAD.as_slice());
    same(&rt, body, Some(WRITE_BODY));
    Ok(())
}
