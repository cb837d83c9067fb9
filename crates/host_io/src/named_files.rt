// What is found out about files by their names.
use command_line::Request;
use std::fs::{self, Files};
use std::os::unix::fs::MetadataExt;

/// The name of the file of a number, which is counted from 1, of what is asked for.
pub(crate) fn file_named<'a>(request: Option<&Request<'a>>, number: u64) -> Option<&'a str> {
    request?.file_name(number)
}

/// The name of the store of what is asked for.
pub(crate) fn store_named<'a>(request: Option<&Request<'a>>) -> Option<&'a str> {
    Some(request?.store()?.file)
}

/// The bytes of all files of a request, where each is a regular one.
pub(crate) fn all_bytes<R: Files>(files: &R, request: &Request<'_>) -> Option<u64> {
    let mut sum: u64 = 0;
    for name in request.file_names() {
        sum = sum.checked_add(bytes_of(files, name)?)?;
    }
    Some(sum)
}

/// Whether one of the files of a request is the regular file that standard output goes to.
pub(crate) fn have_output<R: Files>(files: &R, request: &Request<'_>) -> bool {
    for name in request.file_names() {
        if is_output(files, name) {
            return true;
        }
    }
    false
}

/// The bytes of a file, where it is a regular one.
pub(crate) fn bytes_of<R: Files>(files: &R, name: &str) -> Option<u64> {
    let about = fs::metadata(files, name).ok()?;
    if !about.is_file() {
        return None;
    }
    Some(about.len())
}

/// Whether a file is the regular file that standard output goes to, of which `files` tells by the
/// path /dev/stdout.
pub(crate) fn is_output<R: Files>(files: &R, name: &str) -> bool {
    match place_of(files, "/dev/stdout") {
        Some(output) => place_of(files, name) == Some(output),
        None => false,
    }
}

// The numbers of the device and the inode of a file, where it is a regular one.
fn place_of<R: Files>(files: &R, name: &str) -> Option<(u64, u64)> {
    let about = fs::metadata(files, name).ok()?;
    if !about.is_file() {
        return None;
    }
    Some((about.dev(), about.ino()))
}
