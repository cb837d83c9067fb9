// Opening a file as a disk.
ghost use Rattle.std.specs.Prelude.{◌≡◌, true, false, IfOk};
ghost use Rattle.file_disk.specs.Opening.{folder_of};
ghost use Rattle.file_disk.specs.State.{opened};

use crate::disk::FileDisk;
use crate::locked::Locked;
use crate::place::Place;
use std::alloc::Global;
use std::fs::{File, Files};
use std::{fs, io};
use thiserror::Error;

/// Why a file was not opened as a disk.
#[derive(Debug, Drop, Error)]
pub enum OpenStop {
    /// Another program has the file open as a disk, and one of the two writes to it.
    #[error("the file is in use by another program")]
    InUse,
    /// What the path names is no regular file.
    #[error("not a regular file")]
    NotFile,
    /// The file has 2^63 bytes or more.
    #[error("the file is too large")]
    TooLarge,
    /// The system refused, and says why.
    #[error("the system refused")]
    System(io::Error),
}

impl From<io::Error> for OpenStop {
    fn from(error: io::Error) -> OpenStop {
        OpenStop::System(error)
    }
}

impl FileDisk<File> {
    /// Opens the file of this path to be read and written, and makes it where there is none. No
    /// other program may have it open as a disk.
    pub fn create<R: Files<File = File>>(
        files: &R,
        alloc: Global,
        path: &str,
    ) -> Result<FileDisk<File>, OpenStop>
        ensures { IfOk result (λ disk. disk ≡ opened disk.size true true) }
    {
        let folder = fs::open(files, folder_of(path))?;
        let place = Place::of_file_or_none(path, fs::metadata(files, path))?;
        let file = place.open(files, true)?;
        Locked::new(file, true)?.into_disk(alloc, Some(folder))
    }

    /// Opens the file of this path, which is there, to be read and written. No other program may
    /// have it open as a disk.
    pub fn open<R: Files<File = File>>(
        files: &R,
        alloc: Global,
        path: &str,
    ) -> Result<FileDisk<File>, OpenStop>
        ensures { IfOk result (λ disk. disk ≡ opened disk.size true false) }
    {
        let place = Place::of_file(path, fs::metadata(files, path))?;
        let file = place.open(files, true)?;
        Locked::new(file, true)?.into_disk(alloc, None)
    }

    /// Opens the file of this path, which is there, to be read alone. Other programs may do so too,
    /// but none may have it open to write.
    pub fn open_to_read<R: Files<File = File>>(
        files: &R,
        alloc: Global,
        path: &str,
    ) -> Result<FileDisk<File>, OpenStop>
        ensures { IfOk result (λ disk. disk ≡ opened disk.size false false) }
    {
        let place = Place::of_file(path, fs::metadata(files, path))?;
        let file = place.open(files, false)?;
        Locked::new(file, false)?.into_disk(alloc, None)
    }
}

// The folder in which the file of this path stands.
fn folder_of(path: &str) -> &str
    ensures { result.now ≡ folder_of path.now }
{
    match path.rsplit_once('/') {
        None => ".",
        Some(("", _)) => "/",
        Some((folder, _)) => folder,
    }
}
