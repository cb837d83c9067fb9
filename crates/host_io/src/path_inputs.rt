// Files of the system, named by their paths.
ghost use Rattle.std.specs.Prelude.{◌≡◌, ⊤, ◌≤◌, length, string_bytes, IfOk, OnOk, None};
ghost use Rattle.sx_base.specs.Again.{FillsFrom, EndsKept, LostFor, MeetsEnd};
ghost use Rattle.sx_base.specs.Causes.{HasCause, Rose, Steady, counts};
ghost use Rattle.sx_base.specs.Outside.{GivesAt};
ghost use Rattle.host_io.specs.Counting.{one_more, CountsFaults, CountsLosses};

use std::alloc::Global;
use std::collections::BTreeSet;
use std::fs::Metadata;
use std::io::{BufReader, ErrorKind, Read, Seek, SeekFrom};
use std::os::unix::fs::{FileTypeExt, MetadataExt};
use std::rt::Files;
use std::{fs, io};
use sx_base::{Failed, Inputs, Lost};

// How many files are open at the most.
const OPEN_FILES: usize = 16;

// So often a read is made again that a signal interrupts.
const TRIES: u64 = 1000;

// What is wrong with moving a pipe, and with opening it again.
const READ_ONCE: &str = "it can be read only once";

/// Files of the system, named by their paths. They tell nothing of their bytes, and keep nothing of
/// what was asked. Each `Failed` raises the count of faults, and each `Ended` that of ends; both
/// end at the greatest u64. Of the last end the name and the place are kept; where there is no
/// memory for the name, `Failed` is answered in its place.
///
/// The 16 files that were asked for last stay open, each with its place, and one is moved only
/// where the place that is asked for is not the one at which it stands. A file that is opened again
/// is always moved. A pipe, a terminal, or whatever else is neither a regular file nor a block
/// device can be read in order, and only once: moving it is a fault, and so is opening it again,
/// also by another name. The second opening is not tried, since it could wait for ever for who
/// writes into the pipe.
///
/// Opening a file takes no time that grows with those before but for the steps of a search in an
/// ordered set. Memory grows with the files that were opened, and with nothing else.
#[derive(Debug, Drop)]
pub struct PathInputs<'a, R: Files> {
    files: &'a R,
    alloc: Global,
    // The names of all files that were opened so far.
    names: BTreeSet<String>,
    // The device and the inode of each file among them that can be read only once: they are the
    // same under all its names.
    read_once: BTreeSet<(u64, u64)>,
    // The file that was asked for last stands first.
    open: Vec<OpenInput<R::File>>,
    faults: u64,
    ends: u64,
    // The name of the file that ended last, and where it did.
    last_name: String,
    last_place: u64,
    // The name of the file that the system failed last at, and its reason.
    failed: Option<FailedInput>,
}

#[derive(Debug, Drop)]
struct FailedInput {
    name: String,
    reason: io::Error,
}

#[derive(Debug, Drop)]
struct OpenInput<F> {
    name: String,
    // Short reads come from a buffer, and long ones go past it.
    reader: BufReader<F>,
    // Where the next read begins, if it is known.
    place: Option<u64>,
}

impl<'a, R: Files> PathInputs<'a, R> {
    /// The files of the system, none of them open. Takes no memory.
    pub fn new(files: &'a R, alloc: Global) -> PathInputs<'a, R>
        ensures faults { result.faults ≡ 0 }
        ensures ends { result.ends ≡ 0 }
        ensures open { length result.open.items ≡ 0 }
    {
        PathInputs {
            files,
            alloc,
            names: BTreeSet::new(alloc),
            read_once: BTreeSet::new(alloc),
            open: Vec::new(alloc),
            faults: 0,
            ends: 0,
            last_name: String::new(alloc),
            last_place: 0,
            failed: None,
        }
    }

    /// The files of the system.
    pub(crate) fn files(&self) -> &'a R {
        self.files
    }

    /// The name of the file that the system failed last at; none where it did not, or there was no
    /// memory for it.
    pub fn failed_name(&self) -> Option<&str> {
        match &self.failed {
            Some(failed) => Some(failed.name.as_str()),
            None => None,
        }
    }

    /// The system's reason then.
    pub fn failed_reason(&self) -> Option<&io::Error> {
        match &self.failed {
            Some(failed) => Some(&failed.reason),
            None => None,
        }
    }

    // Remembers at which file the system failed, and why.
    fn keep_failure(&mut self, name: &str, reason: io::Error)
        ensures faults { self.new.faults ≡ self.old.faults }
        ensures ends { self.new.ends ≡ self.old.ends }
        ensures open { self.new.open ≡ self.old.open }
    {
        if let Ok(name) = String::from_str(self.alloc, name) {
            self.failed = Some(FailedInput { name, reason });
        }
    }

    // Fills the buffer from the place on, as far as the file goes, and gives how many bytes there
    // were.
    fn fill(&mut self, name: &str, at: u64, buf: &mut [u8]) -> io::Result<usize>
        ensures bound { IfOk result (λ count. count ≤ length buf.new) }
        ensures faults { self.new.faults ≡ self.old.faults }
        ensures ends { self.new.ends ≡ self.old.ends }
        ensures few { length self.old.open.items ≤ 16 → length self.new.open.items ≤ 16 }
    {
        let mut done = 0;
        while done < buf.len() {
            let Some(place) = at.checked_add(done as u64) else {
                return Ok(done);
            };
            let count = self.read_file(name, place, &mut buf[done..])?;
            if count == 0 {
                return Ok(done);
            }
            done += count;
        }
        Ok(done)
    }

    fn read_file(&mut self, name: &str, at: u64, buf: &mut [u8]) -> io::Result<usize>
        ensures bound { IfOk result (λ count. count ≤ length buf.new) }
        ensures faults { self.new.faults ≡ self.old.faults }
        ensures ends { self.new.ends ≡ self.old.ends }
        ensures few { length self.old.open.items ≤ 16 → length self.new.open.items ≤ 16 }
    {
        let known = self
            .open
            .iter()
            .position(|input| input.name.as_str() == name);
        let mut input = match known {
            Some(place) => self.open.remove(place),
            None => self.open_file(name)?,
        };
        let answer = input.read_at(at, buf);
        self.open.truncate(OPEN_FILES - 1);
        self.open.insert(0, input)?;
        answer
    }

    // Opens a file, unless it was opened before and can be read only once.
    fn open_file(&mut self, name: &str) -> io::Result<OpenInput<R::File>>
        ensures faults { self.new.faults ≡ self.old.faults }
        ensures ends { self.new.ends ≡ self.old.ends }
        ensures open { self.new.open ≡ self.old.open }
    {
        let about = fs::metadata(self.files, name)?;
        if !can_be_read_again(&about) && !self.read_once.insert((about.dev(), about.ino()))? {
            return Err(read_once());
        }
        let is_first = self.names.insert(String::from_str(self.alloc, name)?)?;
        Ok(OpenInput {
            name: String::from_str(self.alloc, name)?,
            reader: BufReader::new(self.alloc, fs::open(self.files, name)?)?,
            place: if is_first { Some(0) } else { None },
        })
    }

    // Counts a fault.
    fn count_fault(&mut self)
        ensures later { self.old.faults ≤ self.new.faults }
        ensures rose { Rose self.old.faults self.new.faults }
        ensures counted { self.new.faults ≡ one_more self.old.faults }
        ensures ends { self.new.ends ≡ self.old.ends }
        ensures open { self.new.open ≡ self.old.open }
    {
        self.faults = self.faults.saturating_add(1);
    }
}

impl<F: Read + Seek> OpenInput<F> {
    fn read_at(&mut self, at: u64, buf: &mut [u8]) -> io::Result<usize>
        ensures { IfOk result (λ count. count ≤ length buf.new) }
    {
        if self.place != Some(at) {
            self.place = None;
            match self.reader.seek(SeekFrom::Start(at)) {
                Err(error) if error.kind() == ErrorKind::NotSeekable => return Err(read_once()),
                Err(error) => return Err(error),
                Ok(_) => {}
            }
        }
        let count = read_on(&mut self.reader, buf)?;
        self.place = at.checked_add(count as u64);
        Ok(count)
    }
}

// The reason where a pipe was to be read once more.
fn read_once() -> io::Error {
    io::Error::new(ErrorKind::NotSeekable, READ_ONCE)
}

// Whether a file gives the same bytes when it is opened again.
fn can_be_read_again(about: &Metadata) -> bool {
    about.is_file() || about.file_type().is_block_device()
}

// Reads bytes, once more where a signal interrupts it.
fn read_on<R: Read>(reader: &mut R, buf: &mut [u8]) -> io::Result<usize>
    ensures { IfOk result (λ count. count ≤ length buf.new) }
{
    for _ in 0..TRIES {
        match reader.read(buf) {
            Err(error) if error.kind() == ErrorKind::Interrupted => {}
            answer => return answer,
        }
    }
    Err(ErrorKind::Interrupted.into())
}

impl<'a, R: Files> Inputs for PathInputs<'a, R> {
    ghost told = { λ _. None };

    ghost faults = { λ s. s.faults };

    ghost ends = { λ s. s.ends };

    ghost last_end = { λ s. record { name = string_bytes s.last_name; place = s.last_place } };

    ghost asked = { λ _ _. ⊤ };

    fn read_at(&mut self, name: &str, at: u64, buf: &mut [u8]) -> Result<usize, Failed>
        ensures bound { IfOk result (λ count. count ≤ length buf.new) }
        ensures bytes { IfOk result (λ count. GivesAt None name.now at buf.new count) }
        ensures ends_later { EndsKept None self.old.ends self.new.ends }
        ensures ends { self.new.ends ≡ self.old.ends }
        ensures cause { HasCause self.old.faults self.new.faults result }
        ensures steady { Steady self.old.faults self.new.faults result }
        ensures ends_steady { Steady self.old.ends self.new.ends result }
        ensures counted { CountsFaults self.old.faults self.new.faults result }
        ensures few { length self.old.open.items ≤ 16 → length self.new.open.items ≤ 16 }
    {
        match self.read_file(name, at, buf) {
            Ok(count) => Ok(count),
            Err(reason) => {
                self.keep_failure(name, reason);
                self.count_fault();
                Err(Failed)
            }
        }
    }

    fn read_again(&mut self, name: &str, at: u64, buf: &mut [u8]) -> Result<(), Lost>
        ensures bytes { OnOk result (FillsFrom None name.now at buf.new) }
        ensures later { self.old.faults ≤ self.new.faults }
        ensures ends { EndsKept None self.old.ends self.new.ends }
        ensures cause { LostFor None at (length buf.new)
            (counts self.old.ends self.old.faults 0) (counts self.new.ends self.new.faults 0)
            result }
        ensures met { MeetsEnd name.now
            (record { name = string_bytes self.new.last_name; place = self.new.last_place }) result }
        ensures steady { Steady self.old.faults self.new.faults result }
        ensures ends_steady { Steady self.old.ends self.new.ends result }
        ensures counted { CountsLosses self.old.faults self.new.faults self.old.ends self.new.ends
            result }
        ensures few { length self.old.open.items ≤ 16 → length self.new.open.items ≤ 16 }
    {
        let count = match self.fill(name, at, buf) {
            Ok(count) => count,
            Err(reason) => {
                self.keep_failure(name, reason);
                self.count_fault();
                return Err(Lost::Failed);
            }
        };
        if count == buf.len() {
            return Ok(());
        }
        let Ok(copy) = String::from_str(self.alloc, name) else {
            self.count_fault();
            return Err(Lost::Failed);
        };
        let place = at.saturating_add(count as u64);
        self.last_name = copy;
        self.last_place = place;
        self.ends = self.ends.saturating_add(1);
        Err(Lost::Ended { place })
    }
}
