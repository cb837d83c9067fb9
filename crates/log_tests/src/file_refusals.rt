// What no clause says: that opening a file as a disk leaves what is there, that places go beyond 4
// GiB, and that a sync that was not done is not told as done.
use crate::file_tests::{all_fails, cut_to, expect_at, in_use, no_file, put};
use crate::same::same;
use file_disk::{FileDisk, ROOM};
use std::fs::{File, Metadata, OpenFile};
use std::io::ErrorKind;
use std::os::fd::AsRawFd;
use std::os::unix::fs::FileExt;
use std::process::Abort;
use std::rt::Files;
use std::test::Fail;
use std::{fs, io};
use sx_base::{Disk, Failed};

// The bytes of the file of this path.
fn expect_file<R: Files + AllocGlobal + Abort>(
    rt: &R,
    path: &str,
    bytes: &[u8],
) -> Result<(), Fail> {
    same(rt, fs::read(rt, path)?.as_slice(), bytes);
    Ok(())
}

#[test]
fn a_file_that_is_there_stays(rt: HostRuntime) -> Result<(), Fail> {
    let name = "file_disk.there";
    fs::write(&rt, name, "a store")?;
    let mut disk = FileDisk::create(&rt, rt.alloc(), name)?;
    same(&rt, disk.size(), Ok(7));
    expect_file(&rt, name, b"a store")?;
    same(&rt, in_use(FileDisk::create(&rt, rt.alloc(), name)), true);
    same(&rt, in_use(FileDisk::open(&rt, rt.alloc(), name)), true);
    expect_file(&rt, name, b"a store")?;
    disk.sync()?;
    drop(disk);
    expect_file(&rt, name, b"a store")?;
    drop(FileDisk::open(&rt, rt.alloc(), name)?);
    expect_file(&rt, name, b"a store")?;
    fs::remove_file(&rt, name)?;
    Ok(())
}

// A place that has more than 32 bits.
const FAR: u64 = (1 << 32) + 5;

// What stands in a file at a place.
fn expect_in(rt: &impl Abort, file: &File, at: u64, bytes: &[u8]) -> Result<(), Fail> {
    let mut buf = [b'?'; 3];
    file.read_exact_at(&mut buf, at)?;
    same(rt, buf.as_slice(), bytes);
    Ok(())
}

// A file with a hole up to the far place.
fn with_hole(rt: &HostRuntime, path: &str) -> Result<(), Fail> {
    let file = File::create(rt, path)?;
    file.set_len(FAR)?;
    Ok(())
}

#[test]
fn places_go_beyond_4_gib(rt: HostRuntime) -> Result<(), Fail> {
    let name = "file_disk.far";
    with_hole(&rt, name)?;
    let mut disk = FileDisk::open(&rt, rt.alloc(), name)?;
    put(&mut disk, FAR, b"far")?;
    expect_at(&rt, &mut disk, FAR, b"far")?;
    expect_at(&rt, &mut disk, 5, &[0; 16])?;
    let large = vec![in rt.alloc(); 7; ROOM + 1]?;
    put(&mut disk, FAR + 3, large.as_slice())?;
    disk.sync()?;
    let file = fs::open(&rt, name)?;
    expect_in(&rt, &file, 5, b"\0\0\0")?;
    expect_in(&rt, &file, 8, b"\0\0\0")?;
    expect_in(&rt, &file, FAR, b"far")?;
    expect_in(&rt, &file, FAR + ROOM as u64 + 1, b"\x07\x07\x07")?;
    same(&rt, disk.size(), Ok(FAR + ROOM as u64 + 4));
    cut_to(&mut disk, FAR + 1)?;
    same(&rt, file.metadata()?.len(), FAR + 1);
    drop(disk);
    fs::remove_file(&rt, name)?;
    Ok(())
}

// A file of which a sync is answered with an error, if one is there.
#[derive(Drop)]
struct Synced {
    file: File,
    error: Option<ErrorKind>,
}

impl Synced {
    fn answer(&self) -> io::Result<()> {
        match self.error {
            Some(kind) => Err(io::Error::from(kind)),
            None => Ok(()),
        }
    }
}

impl FileExt for Synced {
    fn read_at(&self, buf: &mut [u8], offset: u64) -> io::Result<usize> {
        self.file.read_at(buf, offset)
    }

    fn write_at(&self, buf: &[u8], offset: u64) -> io::Result<usize> {
        self.file.write_at(buf, offset)
    }
}

impl OpenFile for Synced {
    fn metadata(&self) -> io::Result<Metadata> {
        self.file.metadata()
    }

    fn set_len(&self, size: u64) -> io::Result<()> {
        self.file.set_len(size)
    }

    fn sync_all(&self) -> io::Result<()> {
        self.answer()
    }

    fn sync_data(&self) -> io::Result<()> {
        self.answer()
    }
}

// What is answered to a sync of a file, and to one of its folder where the file is new.
#[derive(Clone, Copy)]
struct Answers {
    file: Option<ErrorKind>,
    folder: Option<Option<ErrorKind>>,
}

// A disk that is an empty file.
fn answering<R: Files<File = File> + AllocGlobal>(
    rt: &R,
    path: &str,
    answers: Answers,
    writable: bool,
) -> Result<FileDisk<Synced>, Fail> {
    let folder = match answers.folder {
        Some(error) => Some(Synced {
            file: fs::open(rt, ".")?,
            error,
        }),
        None => None,
    };
    let file = Synced {
        file: File::create_new(rt, path)?,
        error: answers.file,
    };
    Ok(FileDisk::new(rt.alloc(), file, folder, writable, 0))
}

// With what a sync may fail, and whether it left nothing undone where the file is only read.
const ERRORS: &[(ErrorKind, bool)] = &[
    (ErrorKind::InvalidInput, true),
    (ErrorKind::ReadOnlyFilesystem, true),
    (ErrorKind::Uncategorized, false),
    (ErrorKind::StorageFull, false),
    (ErrorKind::Unsupported, false),
];

// A disk that was written to is not told as stable.
fn expect_lost<R: Files<File = File> + AllocGlobal + Abort>(
    rt: &R,
    path: &str,
    answers: Answers,
) -> Result<(), Fail> {
    let mut disk = answering(rt, path, answers, true)?;
    same(rt, disk.write_at(0, b"lost"), Ok(()));
    same(rt, disk.sync(), Err(Failed));
    all_fails(rt, &mut disk);
    drop(disk);
    fs::remove_file(rt, path)?;
    Ok(())
}

#[test]
fn a_sync_that_failed_is_not_done(rt: HostRuntime) -> Result<(), Fail> {
    let name = "file_disk.lost";
    for (kind, _) in ERRORS {
        let (file, folder) = (Some(*kind), None);
        expect_lost(&rt, name, Answers { file, folder })?;
    }
    let refused = Some(ErrorKind::InvalidInput);
    for (file, folder) in [(refused, Some(None)), (None, Some(refused))] {
        expect_lost(&rt, name, Answers { file, folder })?;
    }
    Ok(())
}

#[test]
fn one_that_is_read_may_stand_where_nothing_is_synced(rt: HostRuntime) -> Result<(), Fail> {
    let name = "file_disk.unsynced";
    for (kind, passes) in ERRORS {
        let answers = Answers {
            file: Some(*kind),
            folder: None,
        };
        let mut disk = answering(&rt, name, answers, false)?;
        same(&rt, disk.sync().is_ok(), *passes);
        same(&rt, disk.size().is_ok(), *passes);
        drop(disk);
        fs::remove_file(&rt, name)?;
    }
    Ok(())
}

// What a path leads to that is a pipe.
#[test]
fn a_pipe_is_no_disk(rt: HostRuntime) -> Result<(), Fail> {
    let (reader, writer) = io::pipe(&rt)?;
    let path = format!(in rt.alloc(); "/proc/self/fd/{}", reader.as_raw_fd())?;
    drop(writer);
    let path = path.as_str();
    same(
        &rt,
        no_file(FileDisk::open_to_read(&rt, rt.alloc(), path)),
        true,
    );
    same(&rt, no_file(FileDisk::open(&rt, rt.alloc(), path)), true);
    same(&rt, no_file(FileDisk::create(&rt, rt.alloc(), path)), true);
    drop(reader);
    Ok(())
}
