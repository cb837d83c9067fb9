// The three standard descriptors, none of which is left free for a file of the program.
use std::fs::{self, File};
use std::io;
use std::os::fd::AsRawFd;

// The first number that is no standard descriptor.
const FIRST_OTHER: i32 = 3;

/// What stands in for those of the three standard descriptors that were closed when the program
/// began. As long as this is kept, each file that is opened has another number, and writing to a
/// descriptor that was closed fails.
#[derive(Drop)]
pub(crate) struct StandardFiles {
    _held: [Option<File>; 3],
}

impl StandardFiles {
    /// Takes the descriptors that are closed. It must be called before anything else is opened,
    /// since the system gives each file the least free number.
    ///
    /// # Errors
    /// The system opens no file that could stand in, so no other file may be opened.
    pub(crate) fn hold(rt: &HostRuntime) -> io::Result<StandardFiles> {
        let first = next_free(rt)?;
        let second = next_free(rt)?;
        let third = next_free(rt)?;
        Ok(StandardFiles {
            _held: [first, second, third],
        })
    }
}

// The standard descriptor that is free and has the least number, if there is one.
fn next_free(rt: &HostRuntime) -> io::Result<Option<File>> {
    let file = stand_in(rt)?;
    if file.as_raw_fd() < FIRST_OTHER {
        Ok(Some(file))
    } else {
        Ok(None)
    }
}

// A file that is opened for reading alone. A folder cannot even be read as bytes; the others serve
// if the first cannot be opened.
fn stand_in(rt: &HostRuntime) -> io::Result<File> {
    if let Ok(file) = fs::open(rt, "/") {
        return Ok(file);
    }
    if let Ok(file) = fs::open(rt, ".") {
        return Ok(file);
    }
    fs::open(rt, "/dev/null")
}
