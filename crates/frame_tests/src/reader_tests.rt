// A file that is read to its end, and one that is cut. The bytes are from another program.
ghost use Rattle.std.specs.Prelude.{None, ⊤};
ghost use Rattle.sx_base.specs.Again.{no_end};

use crate::same::same;
use cmd_reader::{CmdReader, Glance, ReadStop};
use send_commands::Command;
use std::alloc::{AllocError, Global};
use std::process::Abort;
use std::test::Fail;
use sx_base::{Failed, Inputs, Lost, PlainInputs, Refusal, Verdict};

const FILE: &[u8] =
    b"btrfs-stream\x00\x01\x00\x00\x00%\x00\x00\x00\x01\x0033C\xee\x01\x00\x10\x00\x11\x11\x11\x11\x11\x11\x11\x11\x11\x11\x11\x11\x11\x11\x11\x11\x02\x00\x08\x00\x01\x00\x00\x00\x00\x00\x00\x00\x0f\x00\x01\x00a\x05\x00\x00\x00\x03\x00/\x8a6s\x0f\x00\x01\x00x\x17\x00\x00\x00\x0f\x00C~\xee_\x0f\x00\x01\x00x\x12\x00\x08\x00\x00\x00\x00\x00\x00\x00\x00\x00\x13\x00\x02\x00hi\x00\x00\x00\x00\x15\x00Pl\xc9\x9d";

// The frames of an added attribute, and of attributes in falling order, are among these.
const SPELLED: &[u8] =
    b"btrfs-stream\x00\x01\x00\x00\x00%\x00\x00\x00\x01\x0033C\xee\x01\x00\x10\x00\x11\x11\x11\x11\x11\x11\x11\x11\x11\x11\x11\x11\x11\x11\x11\x11\x02\x00\x08\x00\x01\x00\x00\x00\x00\x00\x00\x00\x0f\x00\x01\x00a\x11\x00\x00\x00\x03\x00\x0b\xb5\xb3\x86\x0f\x00\x01\x00x\x03\x00\x08\x00\x01\x01\x00\x00\x00\x00\x00\x00\x0a\x00\x00\x00\x09\x00\xb68\xcf\x99\x10\x00\x01\x00y\x0f\x00\x01\x00x\x11\x00\x00\x00\x12\x0098\xfc\xff\x05\x00\x08\x00\x80\x01\x00\x00\x00\x00\x00\x00\x0f\x00\x01\x00y\x00\x00\x00\x00\x15\x00Pl\xc9\x9d";

// A snapshot in version 2, a file, and a frame that lacks the path of the file that it makes.
const LACKING: &[u8] =
    b"btrfs-stream\x00\x02\x00\x00\x00E\x00\x00\x00\x02\x00\xca\x93\xbf\xed\x01\x00\x10\x00\x22\x22\x22\x22\x22\x22\x22\x22\x22\x22\x22\x22\x22\x22\x22\x22\x02\x00\x08\x00\x02\x00\x00\x00\x00\x00\x00\x00\x0f\x00\x01\x00b\x14\x00\x10\x00\x11\x11\x11\x11\x11\x11\x11\x11\x11\x11\x11\x11\x11\x11\x11\x11\x15\x00\x08\x00\x01\x00\x00\x00\x00\x00\x00\x00\x05\x00\x00\x00\x03\x00,\x09]\x81\x0f\x00\x01\x00y\x00\x00\x00\x00\x03\x00\xda\xcb\xbc4";

// Files in memory that tell nothing, give at most so many bytes at a time and count their calls.
#[derive(Drop)]
struct CountedInputs {
    files: PlainInputs,
    most: usize,
    calls: u64,
}

impl Inputs for CountedInputs {
    ghost told = { λ _. None };

    ghost faults = { λ _. 0 };

    ghost ends = { λ _. 0 };

    ghost last_end = { λ _. no_end };

    ghost asked = { λ _ _. ⊤ };

    fn read_at(&mut self, name: &str, at: u64, buf: &mut [u8]) -> Result<usize, Failed> {
        self.calls = self.calls.saturating_add(1);
        let len = buf.len().min(self.most);
        self.files.read_at(name, at, &mut buf[..len])
    }

    // A reader only reads on.
    fn read_again(&mut self, _name: &str, _at: u64, _buf: &mut [u8]) -> Result<(), Lost> {
        Ok(())
    }
}

// Such files: one of them, which gives at most so many bytes at a time.
fn counted(
    alloc: Global,
    name: &str,
    bytes: &[u8],
    most: usize,
) -> Result<CountedInputs, AllocError> {
    let mut files = PlainInputs::new(alloc);
    files.add(name, bytes)?;
    Ok(CountedInputs {
        files,
        most,
        calls: 0,
    })
}

// What the tests look at in the next command: its number, its offset and the place of its data; the
// transaction number if it begins a part, and its version; and whether its frame is canonical.
#[derive(Clone, Copy)]
struct Shown {
    place: (u64, u64, u64),
    begun: (Option<u64>, u32),
    canonical: bool,
}

// The transaction number of a command that begins a part.
fn begun(c: &Command<'_>) -> Option<u64> {
    match c {
        Command::Subvol { ctransid, .. } => Some(*ctransid),
        Command::Snapshot { ctransid, .. } => Some(*ctransid),
        _ => None,
    }
}

fn next(reader: &mut CmdReader, inputs: &mut CountedInputs) -> Result<Option<Shown>, ReadStop> {
    let frame = match reader.advance(inputs) {
        Ok(Some(frame)) => frame,
        Ok(None) => return Ok(None),
        Err(stop) => return Err(stop),
    };
    match reader.item(frame) {
        Ok(item) => Ok(Some(Shown {
            place: (item.number, item.offset, item.data_at),
            begun: (begun(&item.command), item.version),
            canonical: item.canonical,
        })),
        Err(verdict) => Err(ReadStop::Refused(verdict)),
    }
}

// The number, the offset and the place of the data of the next command.
fn place(
    reader: &mut CmdReader,
    inputs: &mut CountedInputs,
) -> Result<Option<(u64, u64, u64)>, ReadStop> {
    match next(reader, inputs)? {
        Some(seen) => Ok(Some(seen.place)),
        None => Ok(None),
    }
}

const PLACES: &[(u64, u64, u64)] = &[(1, 17, 0), (2, 64, 0), (3, 79, 110), (4, 112, 0)];

#[test]
fn commands_have_their_places(rt: HostRuntime) -> Result<(), Fail> {
    let mut inputs = counted(rt.alloc(), "whole", FILE, 65_536)?;
    let mut whole = CmdReader::new(rt.alloc(), 1, "whole")?;
    for &want in PLACES {
        same(&rt, place(&mut whole, &mut inputs), Ok(Some(want)));
    }
    same(&rt, place(&mut whole, &mut inputs), Ok(None));
    same(&rt, inputs.calls, 2);
    Ok(())
}

// How the reading of a file ends.
fn ending(reader: &mut CmdReader, inputs: &mut CountedInputs) -> Result<u64, ReadStop> {
    for count in 0..100_000 {
        if next(reader, inputs)?.is_none() {
            return Ok(count);
        }
    }
    Ok(100_000)
}

// Where a file of so many bytes is cut short: the number and the offset of the command.
fn cut_at(len: usize) -> (u64, u64) {
    match len {
        0..17 => (1, 0),
        17..64 => (1, 17),
        64..79 => (2, 64),
        79..112 => (3, 79),
        _ => (4, 112),
    }
}

fn truncated(len: usize) -> ReadStop {
    let (command, offset) = cut_at(len);
    ReadStop::Refused(Verdict {
        file: 2,
        command,
        offset,
        refusal: Refusal::Truncated,
    })
}

#[test]
fn a_file_that_is_cut_is_refused_at_its_place(rt: HostRuntime) -> Result<(), Fail> {
    for len in 0..FILE.len() {
        let mut inputs = counted(rt.alloc(), "cut", &FILE[..len], 3)?;
        let mut reader = CmdReader::new(rt.alloc(), 2, "cut")?;
        same(&rt, ending(&mut reader, &mut inputs), Err(truncated(len)));
    }
    Ok(())
}

// A file of many small commands.
fn many(alloc: Global) -> Result<Vec<u8>, AllocError> {
    let mut bytes = Vec::new(alloc);
    bytes.extend_from_slice(&FILE[..64])?;
    for _ in 0..10_000 {
        bytes.extend_from_slice(&FILE[64..79])?;
    }
    bytes.extend_from_slice(&FILE[112..])?;
    Ok(bytes)
}

#[test]
fn small_commands_are_read_in_few_calls(rt: HostRuntime) -> Result<(), Fail> {
    let bytes = many(rt.alloc())?;
    let mut inputs = counted(rt.alloc(), "many", &bytes, 65_536)?;
    let mut reader = CmdReader::new(rt.alloc(), 1, "many")?;
    same(&rt, ending(&mut reader, &mut inputs), Ok(10_002));
    same(&rt, inputs.calls, 4);
    Ok(())
}

// Whether the frame of the next command is canonical, and whether its bytes are these.
fn spelling(
    reader: &mut CmdReader,
    inputs: &mut CountedInputs,
    bytes: &[u8],
) -> Result<Option<(bool, bool)>, ReadStop> {
    match next(reader, inputs)? {
        Some(seen) => Ok(Some((seen.canonical, reader.last_frame() == bytes))),
        None => Ok(None),
    }
}

const SPELLINGS: &[(usize, usize, bool)] = &[
    (17, 64, true),
    (64, 91, false),
    (91, 111, false),
    (111, 138, true),
    (138, 148, true),
];

#[test]
fn frames_are_handed_out_as_they_stand(rt: HostRuntime) -> Result<(), Fail> {
    let mut inputs = counted(rt.alloc(), "spelled", SPELLED, 65_536)?;
    let mut reader = CmdReader::new(rt.alloc(), 1, "spelled")?;
    for &(from, to, canonical) in SPELLINGS {
        let bytes = SPELLED.get(from..to).ok_or("the frame is there")?;
        let read = spelling(&mut reader, &mut inputs, bytes);
        same(&rt, read, Ok(Some((canonical, true))));
    }
    Ok(())
}

// The transaction number of the next command if it begins a part, and its version.
fn given(
    reader: &mut CmdReader,
    inputs: &mut CountedInputs,
) -> Result<Option<(Option<u64>, u32)>, ReadStop> {
    match next(reader, inputs)? {
        Some(seen) => Ok(Some(seen.begun)),
        None => Ok(None),
    }
}

fn seen_begun(glance: &Glance<'_>) -> Option<u64> {
    match &glance.mention {
        Some(mention) => begun(mention),
        None => None,
    }
}

// The same of what is seen of it.
fn seen(
    reader: &mut CmdReader,
    inputs: &mut CountedInputs,
) -> Result<Option<(Option<u64>, u32)>, ReadStop> {
    let frame = match reader.advance(inputs) {
        Ok(Some(frame)) => frame,
        Ok(None) => return Ok(None),
        Err(stop) => return Err(stop),
    };
    match reader.glance(frame) {
        Ok(glance) => Ok(Some((seen_begun(&glance), glance.version))),
        Err(verdict) => Err(ReadStop::Refused(verdict)),
    }
}

// What a glance and the next command say at the same place.
fn both_say(
    rt: &impl Abort,
    glances: &mut CmdReader,
    items: &mut CmdReader,
    inputs: &mut CountedInputs,
    want: Result<Option<(Option<u64>, u32)>, ReadStop>,
) {
    same(rt, seen(glances, inputs), want);
    same(rt, given(items, inputs), want);
}

#[test]
fn a_glance_sees_what_an_item_says(rt: HostRuntime) -> Result<(), Fail> {
    let mut inputs = counted(rt.alloc(), "parts", FILE, 7)?;
    let mut glances = CmdReader::new(rt.alloc(), 1, "parts")?;
    let mut items = CmdReader::new(rt.alloc(), 1, "parts")?;
    for head in [Some(1), None, None, None] {
        both_say(
            &rt,
            &mut glances,
            &mut items,
            &mut inputs,
            Ok(Some((head, 1))),
        );
    }
    both_say(&rt, &mut glances, &mut items, &mut inputs, Ok(None));
    Ok(())
}

// The two files as one.
fn file_and_lacking(alloc: Global) -> Result<Vec<u8>, AllocError> {
    let mut bytes = Vec::new(alloc);
    bytes.extend_from_slice(FILE)?;
    bytes.extend_from_slice(LACKING)?;
    Ok(bytes)
}

const HEADS: &[(Option<u64>, u32)] = &[
    (Some(1), 1),
    (None, 1),
    (None, 1),
    (None, 1),
    (Some(2), 2),
    (None, 2),
];

const LACKS_PATH: ReadStop = ReadStop::Refused(Verdict {
    file: 3,
    command: 7,
    offset: 233,
    refusal: Refusal::MissingAttribute(15),
});

#[test]
fn a_glance_is_refused_where_an_item_is(rt: HostRuntime) -> Result<(), Fail> {
    let bytes = file_and_lacking(rt.alloc())?;
    let mut inputs = counted(rt.alloc(), "parts", &bytes, 65_536)?;
    let mut glances = CmdReader::new(rt.alloc(), 3, "parts")?;
    let mut items = CmdReader::new(rt.alloc(), 3, "parts")?;
    for &head in HEADS {
        both_say(&rt, &mut glances, &mut items, &mut inputs, Ok(Some(head)));
    }
    both_say(&rt, &mut glances, &mut items, &mut inputs, Err(LACKS_PATH));
    Ok(())
}
