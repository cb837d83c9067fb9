// What is printed of a run.
use crate::runs::Ran;
use crc32c_part::update;
use std::alloc::{AllocError, Global};
use stream_dump::push_decimal;
use stream_text::text;
use sx_base::{Blob, MemInputs, MemSink, escape_into, hex_into};

// What a stream begins with.
const STREAM: &[u8] = b"btrfs-stream\0";
// A line of more bytes is shown by its front, its length and its checksum.
const LONG_LINE: usize = 200;
// So many bytes of it are shown.
const FRONT: usize = 60;
// More bytes are shown by their number and checksum.
const MUCH: usize = 16384;
// The same of a run among many.
const SOME: usize = 1000;

/// What a run wrote, its status and its message.
pub(crate) fn shown(alloc: Global, ran: &Ran) -> Result<Blob, AllocError> {
    let mut to = Blob::new(alloc);
    push_output(alloc, ran.out.bytes(), &mut to)?;
    push_status(ran, &mut to)?;
    Ok(to)
}

/// The status and the message of a run, in a line.
pub(crate) fn push_status(ran: &Ran, to: &mut Blob) -> Result<(), AllocError> {
    to.push_all(b"status ")?;
    push_decimal(u64::from(ran.status), to)?;
    let notes = ran.notes.bytes();
    if !notes.is_empty() {
        to.push_all(b": ")?;
        push_line(notes.strip_suffix(b"\n").unwrap_or(notes), to)?;
    }
    to.push_all(b"\n")
}

// Streams as their text, and other bytes as they are, but for those that are not visible. What is
// long is shown by its checksum.
fn push_output(alloc: Global, bytes: &[u8], to: &mut Blob) -> Result<(), AllocError> {
    if bytes.len() > MUCH {
        push_sum(bytes, to)?;
        return to.push_all(b"\n");
    }
    if !bytes.starts_with(STREAM) {
        return push_lines(b"", bytes, to);
    }
    let mut inputs = MemInputs::new(alloc);
    inputs.add("output", bytes)?;
    let mut lines = MemSink::new(alloc);
    let _ = text(alloc, &mut inputs, "output", &mut lines);
    push_lines(b"", lines.bytes(), to)?;
    push_sum(bytes, to)?;
    to.push_all(b"\n")
}

/// How many bytes these are, and their checksum.
pub(crate) fn push_sum(bytes: &[u8], to: &mut Blob) -> Result<(), AllocError> {
    to.push_all(b"(")?;
    push_decimal(bytes.len() as u64, to)?;
    to.push_all(b" bytes, checksum ")?;
    hex_into(&update(0, bytes).to_be_bytes(), to)?;
    to.push_all(b")")
}

// Lines, each behind some spaces.
fn push_lines(spaces: &[u8], bytes: &[u8], to: &mut Blob) -> Result<(), AllocError> {
    if bytes.is_empty() {
        return Ok(());
    }
    let lines = bytes.strip_suffix(b"\n").unwrap_or(bytes);
    for line in lines.split(|byte| *byte == b'\n') {
        to.push_all(spaces)?;
        push_line(line, to)?;
        to.push_all(b"\n")?;
    }
    Ok(())
}

/// What was written behind a title, in short; nothing where nothing was.
pub(crate) fn push_written(title: &[u8], bytes: &[u8], to: &mut Blob) -> Result<(), AllocError> {
    if bytes.is_empty() {
        return Ok(());
    }
    to.push_all(title)?;
    if bytes.starts_with(STREAM) || bytes.len() > SOME {
        to.push_all(b" ")?;
        push_sum(bytes, to)?;
        return to.push_all(b"\n");
    }
    to.push_all(b"\n")?;
    push_lines(b"    ", bytes, to)
}

fn push_line(line: &[u8], to: &mut Blob) -> Result<(), AllocError> {
    if line.len() <= LONG_LINE {
        return push_visible(line, to);
    }
    push_visible(line.get(..FRONT).unwrap_or(&[]), to)?;
    to.push_all(b" .. ")?;
    push_sum(line, to)
}

// Bytes that are not visible in their escaped form.
fn push_visible(bytes: &[u8], to: &mut Blob) -> Result<(), AllocError> {
    for byte in bytes {
        if *byte == b'\\' || *byte == b' ' || *byte == b'\t' {
            to.push_all(&[*byte])?;
        } else {
            escape_into(&[*byte], to)?;
        }
    }
    Ok(())
}
