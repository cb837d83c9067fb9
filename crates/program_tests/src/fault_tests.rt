// What a run answers where calls of both the inputs and the output fail: the fault that comes
// first.
use crate::same::same;
use crate::streams::{END, HEADER, MKFILE_X, SUBVOL_A, words_of};
use host_io::NoDisk;
use send_top::run;
use std::alloc::{AllocError, Global};
use std::process::Abort;
use std::test::Fail;
use sx_base::{Blob, MemInputs, MemSink};

// WRITE x from 0, 49,152 times the letter a, up to its data
const FIRST_WRITE: &[u8] =
    b"\x15\xc0\x00\x00\x0f\x00q\x0cuO\x0f\x00\x01\x00x\x12\x00\x08\x00\x00\x00\x00\x00\x00\x00\x00\x00\x13\x00\x00\xc0";

// WRITE x from 49,152, 49,152 times the letter a, up to its data
const SECOND_WRITE: &[u8] =
    b"\x15\xc0\x00\x00\x0f\x00\xa7\xed\x81\xdf\x0f\x00\x01\x00x\x12\x00\x08\x00\x00\xc0\x00\x00\x00\x00\x00\x00\x13\x00\x00\xc0";

// WRITE x from 98,304, 49,152 times the letter a, up to its data
const THIRD_WRITE: &[u8] =
    b"\x15\xc0\x00\x00\x0f\x00,\xb9pk\x0f\x00\x01\x00x\x12\x00\x08\x00\x00\x80\x01\x00\x00\x00\x00\x00\x13\x00\x00\xc0";

const LETTERS: &[u8] = b"aaaaaaaaaaaaaaaaaaaaaaaaaaaaaaaaaaaaaaaaaaaaaaaaaaaaaaaaaaaaaaaa";

// More reads than there are in a run.
const READS: u64 = 20;

// More writes than there are in a run.
const WRITES: u64 = 1_000;

// A stream that is written in two calls of the output: one after its second WRITE, when enough has
// gathered, and one at its end.
fn long_stream(alloc: Global) -> Result<Blob, AllocError> {
    let mut stream = Blob::new(alloc);
    for piece in [HEADER, SUBVOL_A, MKFILE_X] {
        stream.push_all(piece)?;
    }
    for front in [FIRST_WRITE, SECOND_WRITE, THIRD_WRITE] {
        stream.push_all(front)?;
        for _ in 0..768 {
            stream.push_all(LETTERS)?;
        }
    }
    stream.push_all(END)?;
    Ok(stream)
}

// Short commands, so many that both the stream and its lines are longer than what is read or
// written at once.
fn many_commands(alloc: Global) -> Result<Blob, AllocError> {
    let mut stream = Blob::new(alloc);
    stream.push_all(HEADER)?;
    stream.push_all(SUBVOL_A)?;
    for _ in 0..6_000 {
        stream.push_all(MKFILE_X)?;
    }
    stream.push_all(END)?;
    Ok(stream)
}

// Runs the words over a file where one call of the inputs and one of the output fails, and gives
// the exit status.
fn status_with(
    alloc: Global,
    words: &[&str],
    file: &[u8],
    read: u64,
    write: u64,
) -> Result<u8, AllocError> {
    let words = words_of(alloc, words)?;
    let mut inputs = MemInputs::new(alloc);
    inputs.add("file", file)?;
    inputs.fail_call(read)?;
    let mut out = MemSink::new(alloc);
    out.fail_call(write)?;
    let mut notes = MemSink::new(alloc);
    Ok(run(
        alloc,
        &words,
        Vec::new(alloc),
        &mut inputs,
        &mut out,
        &mut notes,
        &mut NoDisk::new(),
    ))
}

// How many calls of the inputs come before the given call of the output, or in a whole run where
// there is no such call.
fn reads_before(
    rt: &impl Abort,
    alloc: Global,
    words: &[&str],
    file: &[u8],
    write: u64,
    status: u8,
) -> Result<u64, Fail> {
    let mut before = 0;
    for read in 1..=READS {
        let answered = status_with(alloc, words, file, read, write)?;
        if answered == 3 {
            same(rt, before, read - 1);
            before = read;
            continue;
        }
        same(rt, answered, status);
    }
    same(rt, before < READS, true);
    Ok(before)
}

#[test]
fn the_first_fault_decides(rt: HostRuntime) -> Result<(), Fail> {
    let file = long_stream(rt.alloc())?;
    let words = &["compose", "none", "file"];
    let before_first = reads_before(&rt, rt.alloc(), words, file.as_slice(), 1, 4)?;
    let before_second = reads_before(&rt, rt.alloc(), words, file.as_slice(), 2, 4)?;
    let in_all = reads_before(&rt, rt.alloc(), words, file.as_slice(), 3, 0)?;
    same(&rt, 0 < before_first && before_first < before_second, true);
    same(&rt, before_second, in_all);
    Ok(())
}

// What is written goes out while the file is still read: no word gathers all of it first.
#[test]
fn output_goes_out_in_pieces(rt: HostRuntime) -> Result<(), Fail> {
    let long = long_stream(rt.alloc())?;
    let many = many_commands(rt.alloc())?;
    let exported: (&[&str], &[u8]) = (&["export", "none", "file"], long.as_slice());
    let dumped: (&[&str], &[u8]) = (&["dump", "file"], many.as_slice());
    for (words, file) in [exported, dumped] {
        let before_first = reads_before(&rt, rt.alloc(), words, file, 1, 4)?;
        let before_second = reads_before(&rt, rt.alloc(), words, file, 2, 4)?;
        let in_all = reads_before(&rt, rt.alloc(), words, file, WRITES, 0)?;
        same(&rt, 0 < before_first && before_first < in_all, true);
        same(&rt, before_first <= before_second, true);
    }
    Ok(())
}

// An audit has one line to write, at the end of all that is read, and reads the file once.
#[test]
fn an_audit_reads_once(rt: HostRuntime) -> Result<(), Fail> {
    let file = long_stream(rt.alloc())?;
    let words = &["audit", "none", "file"];
    let in_all = reads_before(&rt, rt.alloc(), words, file.as_slice(), WRITES, 0)?;
    let before_line = reads_before(&rt, rt.alloc(), words, file.as_slice(), 1, 4)?;
    same(&rt, before_line, in_all);
    // As often as it takes to read 147,599 bytes once, and to find its end.
    same(&rt, in_all, 4);
    Ok(())
}
