// What no clause says: that a disk that is a file reads and writes one, and when.
use crate::same::same;
use file_disk::{FileDisk, OpenStop, ROOM};
use group_log::{Log, LogStop};
use std::cell::Cell;
use std::fs::{File, Metadata, OpenFile, OpenOptions};
use std::io::ErrorKind;
use std::os::unix::fs::FileExt;
use std::process::Abort;
use std::test::Fail;
use std::{fs, io};
use sx_base::{Disk, Failed};

// What was done to a file.
#[derive(Debug, Drop)]
struct Calls {
    writes: Cell<u64>,
    syncs: Cell<u64>,
    whole_syncs: Cell<u64>,
}

fn no_calls() -> Calls {
    Calls {
        writes: Cell::new(0),
        syncs: Cell::new(0),
        whole_syncs: Cell::new(0),
    }
}

// A file that takes few bytes at once, and none behind a place, as on a full device; it counts the
// calls to it.
#[derive(Drop)]
struct Small<'a> {
    file: File,
    calls: &'a Calls,
    most: usize,
    room: u64,
}

impl FileExt for Small<'_> {
    fn read_at(&self, buf: &mut [u8], offset: u64) -> io::Result<usize> {
        self.file.read_at(buf, offset)
    }

    fn write_at(&self, buf: &[u8], offset: u64) -> io::Result<usize> {
        self.calls
            .writes
            .set(self.calls.writes.get().wrapping_add(1));
        if offset >= self.room {
            return Err(io::Error::from(ErrorKind::StorageFull));
        }
        let count = buf.len().min(self.most);
        self.file.write_at(&buf[..count], offset)
    }
}

impl OpenFile for Small<'_> {
    fn metadata(&self) -> io::Result<Metadata> {
        self.file.metadata()
    }

    fn set_len(&self, size: u64) -> io::Result<()> {
        self.file.set_len(size)
    }

    fn sync_all(&self) -> io::Result<()> {
        self.calls
            .whole_syncs
            .set(self.calls.whole_syncs.get().wrapping_add(1));
        self.file.sync_all()
    }

    fn sync_data(&self) -> io::Result<()> {
        self.calls.syncs.set(self.calls.syncs.get().wrapping_add(1));
        self.file.sync_data()
    }
}

// A new file to be read and written.
fn new_file(rt: &HostRuntime, path: &str) -> io::Result<File> {
    OpenOptions::new()
        .read(true)
        .write(true)
        .create(true)
        .truncate(true)
        .open(rt, path)
}

// What a read of the bytes from a place on gives.
pub(crate) fn expect_at<D: Disk>(
    rt: &impl Abort,
    disk: &mut D,
    at: u64,
    bytes: &[u8],
) -> Result<(), Failed> {
    let mut buf = [0; 16];
    let count = disk.read(at, &mut buf)?;
    same(rt, &buf[..count], bytes);
    Ok(())
}

// Writes a small piece that begins within the disk or at its end.
pub(crate) fn put<D: Disk>(disk: &mut D, at: u64, piece: &[u8]) -> Result<(), Failed> {
    let size = disk.size()?;
    if at > size || at > 1 << 40 || piece.len() > 1 << 30 {
        return Err(Failed);
    }
    disk.write_at(at, piece)
}

// Cuts a disk that is as long.
pub(crate) fn cut_to<D: Disk>(disk: &mut D, size: u64) -> Result<(), Failed> {
    let now = disk.size()?;
    if size > now {
        return Err(Failed);
    }
    disk.cut(size)
}

// One call on a disk, and what it gives.
#[derive(Clone, Copy)]
enum Call {
    Put(u64, &'static [u8]),
    Cut(u64),
    Size(u64),
    Expect(u64, &'static [u8]),
}

fn make(rt: &impl Abort, disk: &mut FileDisk<File>, call: Call) -> Result<(), Failed> {
    match call {
        Call::Put(at, piece) => put(disk, at, piece),
        Call::Cut(size) => cut_to(disk, size),
        Call::Size(size) => {
            same(rt, disk.size(), Ok(size));
            Ok(())
        }
        Call::Expect(at, bytes) => expect_at(rt, disk, at, bytes),
    }
}

const GATHERED: &[Call] = &[
    Call::Put(0, b"abc"),
    Call::Put(3, b"def"),
    Call::Size(6),
    Call::Expect(0, b"abcdef"),
    Call::Put(1, b"XY"),
    Call::Put(3, b"Z"),
    Call::Expect(2, b"YZef"),
    Call::Put(6, b"ghi"),
    Call::Cut(5),
    Call::Size(5),
    Call::Put(5, b"!"),
];

#[test]
fn what_is_gathered_is_read_back(rt: HostRuntime) -> Result<(), Fail> {
    let mut disk = FileDisk::create(&rt, rt.alloc(), "file_disk.gathered")?;
    for call in GATHERED {
        make(&rt, &mut disk, *call)?;
    }
    disk.sync()?;
    drop(disk);
    same(
        &rt,
        fs::read(&rt, "file_disk.gathered")?.as_slice(),
        b"aXYZe!".as_slice(),
    );
    let mut again = FileDisk::open(&rt, rt.alloc(), "file_disk.gathered")?;
    expect_at(&rt, &mut again, 4, b"e!")?;
    expect_at(&rt, &mut again, 6, b"")?;
    drop(again);
    fs::remove_file(&rt, "file_disk.gathered")?;
    Ok(())
}

// A write to a disk that is only read fails, and each call after it.
fn write_fails(rt: &impl Abort, disk: &mut FileDisk<File>) {
    same(rt, disk.write_at(0, b"X"), Err(Failed));
    same(rt, disk.size(), Err(Failed));
    same(rt, disk.read(0, &mut [0; 1]), Err(Failed));
}

#[test]
fn one_that_is_read_is_not_written(rt: HostRuntime) -> Result<(), Fail> {
    fs::write(&rt, "file_disk.read", "abcdef")?;
    let mut disk = FileDisk::open_to_read(&rt, rt.alloc(), "file_disk.read")?;
    disk.sync()?;
    expect_at(&rt, &mut disk, 3, b"def")?;
    write_fails(&rt, &mut disk);
    drop(disk);
    same(
        &rt,
        fs::read(&rt, "file_disk.read")?.as_slice(),
        b"abcdef".as_slice(),
    );
    fs::remove_file(&rt, "file_disk.read")?;
    Ok(())
}

// Whether the file is in use.
pub(crate) fn in_use(answer: Result<FileDisk<File>, OpenStop>) -> bool {
    matches!(answer, Err(OpenStop::InUse))
}

#[test]
fn one_program_writes(rt: HostRuntime) -> Result<(), Fail> {
    let name = "file_disk.locked";
    let writer = FileDisk::create(&rt, rt.alloc(), name)?;
    same(&rt, in_use(FileDisk::create(&rt, rt.alloc(), name)), true);
    same(&rt, in_use(FileDisk::open(&rt, rt.alloc(), name)), true);
    same(
        &rt,
        in_use(FileDisk::open_to_read(&rt, rt.alloc(), name)),
        true,
    );
    drop(writer);
    let reader = FileDisk::open_to_read(&rt, rt.alloc(), name)?;
    let other = FileDisk::open_to_read(&rt, rt.alloc(), name)?;
    same(&rt, in_use(FileDisk::open(&rt, rt.alloc(), name)), true);
    drop(reader);
    drop(other);
    drop(FileDisk::open(&rt, rt.alloc(), name)?);
    fs::remove_file(&rt, name)?;
    Ok(())
}

// What the system says of a file that it does not open.
fn reason(answer: Result<FileDisk<File>, OpenStop>) -> Option<ErrorKind> {
    match answer {
        Err(OpenStop::System(error)) => Some(error.kind()),
        _ => None,
    }
}

// Whether it is no regular file.
pub(crate) fn no_file(answer: Result<FileDisk<File>, OpenStop>) -> bool {
    matches!(answer, Err(OpenStop::NotFile))
}

const NO_FILES: &[&str] = &[".", "/dev/null", "/dev/full"];

#[test]
fn what_is_no_file_is_refused(rt: HostRuntime) -> Result<(), Fail> {
    for path in NO_FILES {
        same(&rt, no_file(FileDisk::create(&rt, rt.alloc(), path)), true);
        same(&rt, no_file(FileDisk::open(&rt, rt.alloc(), path)), true);
        same(
            &rt,
            no_file(FileDisk::open_to_read(&rt, rt.alloc(), path)),
            true,
        );
    }
    let missing = "file_disk.none";
    let found = Some(ErrorKind::NotFound);
    same(&rt, reason(FileDisk::open(&rt, rt.alloc(), missing)), found);
    same(
        &rt,
        reason(FileDisk::open_to_read(&rt, rt.alloc(), missing)),
        found,
    );
    let below = FileDisk::create(&rt, rt.alloc(), "file_disk.none/store");
    same(&rt, reason(below), found);
    Ok(())
}

impl Calls {
    // How often was written, and how often only data and everything was synced.
    fn counts(&self) -> (u64, u64, u64) {
        (self.writes.get(), self.syncs.get(), self.whole_syncs.get())
    }
}

// A disk that is a new file, which takes so many bytes at once, and none behind a place.
fn small_file<'a>(
    rt: &HostRuntime,
    path: &str,
    calls: &'a Calls,
    most: usize,
    room: u64,
) -> Result<Small<'a>, io::Error> {
    Ok(Small {
        file: new_file(rt, path)?,
        calls,
        most,
        room,
    })
}

#[test]
fn thousands_of_writes_are_one(rt: HostRuntime) -> Result<(), Fail> {
    let calls = no_calls();
    let file = small_file(&rt, "file_disk.many", &calls, usize::MAX, u64::MAX)?;
    let mut disk = FileDisk::new(rt.alloc(), file, None, true, 0);
    for place in 0..5_000u64 {
        put(&mut disk, 10 * place, b"0123456789")?;
    }
    same(&rt, calls.counts(), (0, 0, 0));
    disk.sync()?;
    same(&rt, calls.counts(), (1, 1, 0));
    let large = vec![in rt.alloc(); 7; ROOM + 1]?;
    put(&mut disk, 50_000, b"a")?;
    put(&mut disk, 0, b"b")?;
    same(&rt, calls.writes.get(), 2);
    put(&mut disk, 1, large.as_slice())?;
    same(&rt, calls.writes.get(), 4);
    same(&rt, disk.size(), Ok(ROOM as u64 + 2));
    expect_at(&rt, &mut disk, 0, MANY)?;
    drop(disk);
    fs::remove_file(&rt, "file_disk.many")?;
    Ok(())
}

const MANY: &[u8] = b"b\x07\x07\x07\x07\x07\x07\x07\x07\x07\x07\x07\x07\x07\x07\x07";

#[test]
fn a_new_file_and_its_folder_are_synced(rt: HostRuntime) -> Result<(), Fail> {
    let calls = no_calls();
    let file = small_file(&rt, "file_disk.new", &calls, 7, u64::MAX)?;
    let folder = Small {
        file: fs::open(&rt, ".")?,
        calls: &calls,
        most: 0,
        room: 0,
    };
    let mut disk = FileDisk::new(rt.alloc(), file, Some(folder), true, 0);
    disk.write_at(0, b"a line of twenty-two.\n")?;
    disk.sync()?;
    same(&rt, calls.counts(), (4, 0, 2));
    disk.sync()?;
    same(&rt, calls.counts(), (4, 1, 2));
    drop(disk);
    same(
        &rt,
        fs::read(&rt, "file_disk.new")?.as_slice(),
        b"a line of twenty-two.\n".as_slice(),
    );
    fs::remove_file(&rt, "file_disk.new")?;
    Ok(())
}

// Each call fails.
pub(crate) fn all_fails<F: FileExt + OpenFile + Drop>(rt: &impl Abort, disk: &mut FileDisk<F>) {
    same(rt, disk.size(), Err(Failed));
    same(rt, disk.read(0, &mut [0; 1]), Err(Failed));
    same(rt, disk.write_at(0, b"a"), Err(Failed));
    same(rt, disk.cut(0), Err(Failed));
    same(rt, disk.sync(), Err(Failed));
}

#[test]
fn after_a_fault_nothing_is_tried_again(rt: HostRuntime) -> Result<(), Fail> {
    let calls = no_calls();
    let file = small_file(&rt, "file_disk.full", &calls, 4, 8)?;
    let mut disk = FileDisk::new(rt.alloc(), file, None, true, 0);
    same(&rt, disk.write_at(0, b"0123456789"), Ok(()));
    same(&rt, disk.sync(), Err(Failed));
    same(&rt, calls.writes.get(), 3);
    all_fails(&rt, &mut disk);
    same(&rt, calls.counts(), (3, 0, 0));
    drop(disk);
    fs::remove_file(&rt, "file_disk.full")?;
    Ok(())
}

#[test]
fn a_file_that_was_cut_is_a_fault(rt: HostRuntime) -> Result<(), Fail> {
    fs::write(&rt, "file_disk.cut", "abcdef")?;
    let mut disk = FileDisk::open(&rt, rt.alloc(), "file_disk.cut")?;
    expect_at(&rt, &mut disk, 0, b"abcdef")?;
    fs::write(&rt, "file_disk.cut", "ab")?;
    same(&rt, disk.read(0, &mut [0; 6]), Err(Failed));
    same(&rt, disk.read(0, &mut [0; 2]), Ok(2));
    drop(disk);
    fs::remove_file(&rt, "file_disk.cut")?;
    Ok(())
}

// Whether a store on a disk has no group.
fn is_empty(disk: &mut FileDisk<File>) -> Result<bool, LogStop> {
    let mut log = Log::open(disk)?;
    Ok(log.next(disk)?.is_none())
}

#[test]
fn a_store_stands_on_a_file(rt: HostRuntime) -> Result<(), Fail> {
    let mut disk = FileDisk::create(&rt, rt.alloc(), "file_disk.store")?;
    Log::create(&mut disk)?;
    drop(disk);
    let mut again = FileDisk::open_to_read(&rt, rt.alloc(), "file_disk.store")?;
    same(&rt, is_empty(&mut again)?, true);
    drop(again);
    same(
        &rt,
        fs::read(&rt, "file_disk.store")?.as_slice(),
        b"sndstore\x02\0\0\0\0\0\0\0\0\x01\0\0\0".as_slice(),
    );
    fs::remove_file(&rt, "file_disk.store")?;
    Ok(())
}
