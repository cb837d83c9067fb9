// What no clause says: files that give few bytes at a time, fail in their middle, or are a pipe.
use crate::same::same;
use host_io::PathInputs;
use std::alloc::Allocator;
use std::fs::{Metadata, OpenFile, OpenOptions};
use std::io::{Empty, ErrorKind, Read, Seek, SeekFrom, Write};
use std::os::fd::AsRawFd;
use std::process::Abort;
use std::rt::Files;
use std::test::Fail;
use std::{fs, io};
use sx_base::{Failed, Inputs, Lost};

const BYTES: &[u8] = b"0123456789";

// A file system whose every file has these bytes, of which a read gives at most so many. The byte
// at the bad place can not be read: a read ends in front of it, and one that begins there fails.
#[derive(Drop)]
struct BadFiles {
    most: usize,
    bad: usize,
}

#[derive(Drop)]
struct BadFile {
    place: usize,
    most: usize,
    bad: usize,
}

fn unsupported() -> io::Error {
    io::Error::from(ErrorKind::Unsupported)
}

impl Read for BadFile {
    fn read(&mut self, buf: &mut [u8]) -> io::Result<usize> {
        if self.place == self.bad {
            return Err(io::Error::from(ErrorKind::Other));
        }
        let start = self.place.min(BYTES.len());
        let left = if self.place < self.bad {
            &BYTES[start..self.bad.min(BYTES.len())]
        } else {
            &BYTES[start..]
        };
        let count = left.len().min(self.most).min(buf.len());
        buf[..count].copy_from_slice(&left[..count]);
        self.place = self.place.saturating_add(count);
        Ok(count)
    }
}

impl Write for BadFile {
    fn write(&mut self, _buf: &[u8]) -> io::Result<usize> {
        Err(unsupported())
    }

    fn flush(&mut self) -> io::Result<()> {
        Err(unsupported())
    }
}

impl Seek for BadFile {
    fn seek(&mut self, to: SeekFrom) -> io::Result<u64> {
        let SeekFrom::Start(place) = to else {
            return Err(unsupported());
        };
        self.place = place as usize;
        Ok(place)
    }
}

impl OpenFile for BadFile {
    fn metadata(&self) -> io::Result<Metadata> {
        Err(unsupported())
    }

    fn set_len(&self, _size: u64) -> io::Result<()> {
        Err(unsupported())
    }

    fn sync_all(&self) -> io::Result<()> {
        Err(unsupported())
    }

    fn sync_data(&self) -> io::Result<()> {
        Err(unsupported())
    }
}

impl Files for BadFiles {
    type File = BadFile;

    type Dir = Empty;

    fn open_file(&self, _how: &OpenOptions, _path: &str) -> io::Result<BadFile> {
        Ok(BadFile {
            place: 0,
            most: self.most,
            bad: self.bad,
        })
    }

    fn open_dir(&self, _path: &str) -> io::Result<Empty> {
        Err(unsupported())
    }

    fn metadata(&self, _path: &str) -> io::Result<Metadata> {
        Ok(Metadata::of_file(BYTES.len() as u64))
    }

    fn symlink_metadata(&self, _path: &str) -> io::Result<Metadata> {
        Err(unsupported())
    }

    fn copy(&self, _from: &str, _to: &str) -> io::Result<u64> {
        Err(unsupported())
    }

    fn rename(&self, _from: &str, _to: &str) -> io::Result<()> {
        Err(unsupported())
    }

    fn remove_file(&self, _path: &str) -> io::Result<()> {
        Err(unsupported())
    }

    fn create_dir(&self, _path: &str) -> io::Result<()> {
        Err(unsupported())
    }

    fn remove_dir(&self, _path: &str) -> io::Result<()> {
        Err(unsupported())
    }

    fn remove_dir_all<B: Allocator>(&self, _alloc: B, _path: &str) -> io::Result<()> {
        Err(unsupported())
    }
}

#[test]
fn short_reads_are_gone_on_with(rt: HostRuntime) -> Result<(), Fail> {
    let files = BadFiles { most: 3, bad: 99 };
    let mut inputs = PathInputs::new(&files, rt.alloc());
    let mut buf = [0; 8];
    same(&rt, inputs.read_at("short", 0, &mut buf), Ok(3));
    same(&rt, &buf[..3], b"012".as_slice());
    same(&rt, inputs.read_at("short", 3, &mut buf), Ok(3));
    same(&rt, &buf[..3], b"345".as_slice());
    same(&rt, inputs.read_again("short", 1, &mut buf), Ok(()));
    same(&rt, &buf, b"12345678");
    same(
        &rt,
        inputs.read_again("short", 4, &mut buf),
        Err(Lost::Ended { place: 10 }),
    );
    same(&rt, inputs.read_at("short", 10, &mut buf), Ok(0));
    Ok(())
}

#[test]
fn a_file_that_fails_in_its_middle_is_a_fault_there(rt: HostRuntime) -> Result<(), Fail> {
    let files = BadFiles { most: 3, bad: 6 };
    let mut inputs = PathInputs::new(&files, rt.alloc());
    let mut buf = [0; 8];
    same(&rt, inputs.read_at("bad", 0, &mut buf), Ok(3));
    same(&rt, inputs.read_at("bad", 3, &mut buf), Ok(3));
    // The place that can not be read, asked for twice, and bytes of which it is among.
    same(&rt, inputs.read_at("bad", 6, &mut buf), Err(Failed));
    same(&rt, inputs.read_at("bad", 6, &mut buf), Err(Failed));
    same(
        &rt,
        inputs.read_again("bad", 2, &mut buf),
        Err(Lost::Failed),
    );
    // Others can still be read.
    same(&rt, inputs.read_again("bad", 1, &mut buf[..5]), Ok(()));
    same(&rt, &buf[..5], b"12345".as_slice());
    same(&rt, inputs.read_at("bad", 7, &mut buf), Ok(3));
    same(&rt, &buf[..3], b"789".as_slice());
    Ok(())
}

#[test]
fn a_pipe_is_read_in_order_and_once(rt: HostRuntime) -> Result<(), Fail> {
    let (reader, mut writer) = io::pipe(&rt)?;
    writer.write_all(BYTES)?;
    let name = format!(in rt.alloc(); "/proc/self/fd/{}", reader.as_raw_fd())?;
    let mut inputs = PathInputs::new(&rt, rt.alloc());
    let mut buf = [0; 4];
    same(&rt, inputs.read_at(&name, 0, &mut buf), Ok(4));
    same(&rt, &buf, b"0123");
    drop(writer);
    same(&rt, inputs.read_at(&name, 4, &mut buf), Ok(4));
    same(&rt, &buf, b"4567");
    same(&rt, inputs.read_at(&name, 8, &mut buf), Ok(2));
    same(&rt, &buf[..2], b"89".as_slice());
    same(&rt, inputs.read_at(&name, 10, &mut buf), Ok(0));
    same(&rt, inputs.read_at(&name, 0, &mut buf), Err(Failed));
    same(
        &rt,
        inputs.read_again(&name, 2, &mut buf),
        Err(Lost::Failed),
    );
    Ok(())
}

#[test]
fn a_pipe_is_not_opened_again(rt: HostRuntime) -> Result<(), Fail> {
    let (reader, mut writer) = io::pipe(&rt)?;
    writer.write_all(BYTES)?;
    let name = format!(in rt.alloc(); "/proc/self/fd/{}", reader.as_raw_fd())?;
    let other = format!(in rt.alloc(); "/proc/self/./fd/{}", reader.as_raw_fd())?;
    let mut inputs = PathInputs::new(&rt, rt.alloc());
    let mut buf = [0; 4];
    same(&rt, inputs.read_at(&other, 0, &mut buf), Ok(4));
    // The same pipe by another name, also from where it stands.
    same(&rt, inputs.read_at(&name, 0, &mut buf), Err(Failed));
    same(&rt, inputs.read_at(&name, 4, &mut buf), Err(Failed));
    same(
        &rt,
        inputs.read_again(&name, 0, &mut buf),
        Err(Lost::Failed),
    );
    same(&rt, inputs.read_at(&other, 4, &mut buf), Ok(4));
    // And by its own, once it was closed for sixteen others.
    for number in 0..16 {
        let regular = format!(in rt.alloc(); "trouble.{number}")?;
        fs::write(&rt, &regular, BYTES)?;
        same(&rt, inputs.read_at(&regular, 6, &mut buf), Ok(4));
        fs::remove_file(&rt, &regular)?;
    }
    same(&rt, inputs.read_at(&other, 8, &mut buf), Err(Failed));
    Ok(())
}
