// That the calls succeed where there is memory, and the bytes that they write.
ghost use Rattle.std.specs.Prelude.{◌≡◌, ⊤, ℕ, ◌<◌, [], None, IfOk};
ghost use Rattle.std.specs.List.{AllByRecursion};
ghost use Rattle.extent_map.specs.Cells.{cells_between};
ghost use Rattle.clone_pieces.specs.Origins.{IsHad};
ghost use Rattle.sx_base.specs.Again.{no_end};

use crate::same::same;
use clone_pieces::{CellRange, NoBase, Sources, Target, put, redirect, send, uncarried};
use extent_map::Extents;
use provenance::Trace;
use send_commands::Command;
use std::alloc::{AllocError, Global};
use std::process::Abort;
use std::test::Fail;
use sx_base::{Blob, Failed, Inputs, Lost, MemSink};

// Files that do not tell, where the byte at each place is the remainder of its number by 251.
#[derive(Drop)]
struct Remainders;

impl Inputs for Remainders {
    ghost told = { λ inputs. None };

    ghost faults = { λ inputs. 0 };

    ghost ends = { λ inputs. 0 };

    ghost last_end = { λ inputs. no_end };

    ghost asked = { λ inputs asks. ⊤ };

    fn read_at(&mut self, name: &str, at: u64, buf: &mut [u8]) -> Result<usize, Failed> {
        let _ = name;
        let _ = (at, buf.len());
        Ok(0)
    }

    fn read_again(&mut self, name: &str, at: u64, buf: &mut [u8]) -> Result<(), Lost> {
        let _ = name;
        let mut place = at % 251;
        for i in 0..buf.len() {
            buf[i] = (place % 251) as u8;
            place = place.wrapping_add(1) % 251;
        }
        Ok(())
    }
}

// Four zero bytes, and 99,996 bytes of the first input file, from the place 7 on.
fn contents(alloc: Global) -> Result<Extents<Trace>, AllocError>
    ensures { IfOk result
        (λ contents. (from len count : ℕ) → 0 < count
        → AllByRecursion (IsHad count []) (cells_between from len contents)) }
{
    let mut contents = Extents::new(alloc);
    contents.zero_run(0, 4)?;
    contents.put_run(4, Trace::Fresh { file: 0, at: 7 }, 99_996)?;
    Ok(contents)
}

// Writes what stands for a clone of these bytes.
#[tactic(auto, unfolding(send_model::specs::Store::find))]
fn write_clone(
    rt: &impl Abort,
    alloc: Global,
    pending: &mut Blob,
    out: &mut MemSink,
) -> Result<(), AllocError> {
    let contents = contents(alloc)?;
    let len = contents.size();
    assert_eq!(rt; len, 100_000);
    same(rt, uncarried(&contents, 0, len, &NoBase), 100_000);
    let files = [String::from_str(alloc, "a")?];
    let mut bytes = NoBase;
    let range = CellRange {
        to: Target {
            path: b"f",
            offset: 8_192,
            version: 1,
        },
        contents: &contents,
        from: 0,
        len,
    };
    let sources = Sources {
        alloc,
        files: &files,
        known: &NoBase,
    };
    let done = redirect(&range, &sources, &mut Remainders, &mut bytes, pending, out);
    same(rt, done, Ok(()));
    Ok(())
}

// Writes END, and all that is pending.
#[tactic(auto, unfolding(send_commands::specs::Writing::IsWritable, send_model::specs::Command::row))]
fn write_end(rt: &impl Abort, pending: &mut Blob, out: &mut MemSink) {
    same(rt, put(&Command::End, 1, pending, out), Ok(()));
    same(rt, send(pending, out), Ok(()));
}

// So many bytes from a place on; none where there are fewer.
fn part(bytes: &[u8], at: usize, len: usize) -> &[u8] {
    bytes.get(at..at.saturating_add(len)).unwrap_or(b"")
}

// Where a WRITE begins, its body's length, its offset, and its first two bytes.
const WRITES: &[(usize, u32, u64, [u8; 2])] = &[
    (0, 49_173, 8_192, [0, 0]),
    (49_183, 49_173, 57_344, [210, 211]),
    (98_366, 1_717, 106_496, [166, 167]),
];

#[test]
fn bytes_are_written_again(rt: HostRuntime) -> Result<(), Fail> {
    let mut pending = Blob::new(rt.alloc());
    let mut out = MemSink::new(rt.alloc());
    write_clone(&rt, rt.alloc(), &mut pending, &mut out)?;
    write_end(&rt, &mut pending, &mut out);
    let written = out.bytes();
    // Of each WRITE 31 bytes stand around its data, and END has no body.
    same(&rt, written.len(), 3 * 31 + 100_000 + 10);
    for &(at, size, offset, first) in WRITES {
        let write = part(written, at, 33);
        same(&rt, part(write, 0, 4), size.to_le_bytes().as_slice());
        same(&rt, part(write, 10, 5), [15, 0, 1, 0, b'f'].as_slice());
        same(&rt, part(write, 19, 8), offset.to_le_bytes().as_slice());
        same(&rt, part(write, 31, 2), first.as_slice());
    }
    same(&rt, part(written, 33, 4), [0, 0, 7, 8].as_slice());
    Ok(())
}
