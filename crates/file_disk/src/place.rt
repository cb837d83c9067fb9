// A path that may be opened. Only such a path is, so no pipe is opened: that would wait for another
// program.
ghost use Rattle.std.specs.Prelude.{◌≡◌, ◌⊎◌, ◌↔◌, false, is_err, IfOk, IfErr, IsOk, IsOkAnd, IsErrAnd};
ghost use Rattle.std.specs.IoError.{error_kind};
ghost use Rattle.std.specs.Fs.{IsFile, file_type};
ghost use Rattle.file_disk.specs.Opening.{opening};

use crate::opening::OpenStop;
use std::fs::{Files, Metadata, OpenOptions};
use std::io;
use std::io::ErrorKind;

// A path at which the system found a regular file, or nothing where a file may be made.
#[derive(Clone, Copy)]
pub(crate) struct Place<'a> {
    path: &'a str,
    new: bool,
}

impl<'a> Place<'a> {
    // A path at which there has to be a file.
    pub(crate) fn of_file(path: &'a str, found: io::Result<Metadata>) -> Result<Place<'a>, OpenStop>
        ensures taken { IsOk result ↔ IsOkAnd found (λ found. IsFile (file_type found)) }
        ensures new { IfOk result (λ place. place.new ≡ false) }
    {
        check_file(&found?)?;
        Ok(Place { path, new: false })
    }

    // A path at which there is a file, or nothing.
    pub(crate) fn of_file_or_none(
        path: &'a str,
        found: io::Result<Metadata>,
    ) -> Result<Place<'a>, OpenStop>
        ensures taken { IsOk result ↔ (IsOkAnd found (λ found. IsFile (file_type found))
            ⊎ IsErrAnd found (λ error. error_kind error ≡ ErrorKind.NotFound)) }
        ensures new { IfOk result (λ place. place.new ≡ is_err found) }
    {
        match found {
            Err(error) if error.kind() == ErrorKind::NotFound => Ok(Place { path, new: true }),
            found => Place::of_file(path, found),
        }
    }

    // Opens the file to be read, or to be written too. What is there stays.
    pub(crate) fn open<R: Files>(&self, files: &R, writable: bool) -> io::Result<R::File> {
        opening(writable, self.new).open(files, self.path)
    }
}

// How a file is opened: to be read, to be written too, and to be made, if it is new.
pub(crate) fn opening(writable: bool, new: bool) -> OpenOptions
    ensures { result ≡ opening writable new }
{
    let mut options = OpenOptions::new();
    options.read(true).write(writable).create_new(new);
    options
}

// Only a regular file is a disk: a pipe and a device have no size.
pub(crate) fn check_file(found: &Metadata) -> Result<(), OpenStop>
    ensures regular { IsOk result ↔ IsFile (file_type found.now) }
    ensures other { IfErr result (λ why. why ≡ OpenStop.NotFile) }
{
    if found.is_file() {
        Ok(())
    } else {
        Err(OpenStop::NotFile)
    }
}
