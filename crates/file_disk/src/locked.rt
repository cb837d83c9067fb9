// A file that is locked. Only of such a file is the size asked, so it is asked while no other
// program can change it.
ghost use Rattle.std.specs.Prelude.{◌≡◌, ◌^◌, ◌<◌, ◌≤◌, ◌↔◌, is_some, IfOk, IsOk, IsErrAnd};
ghost use Rattle.std.specs.Fs.{IsFile, file_type, metadata_len};
ghost use Rattle.file_disk.specs.Opening.{held};
ghost use Rattle.file_disk.specs.State.{opened};

use crate::disk::FileDisk;
use crate::opening::OpenStop;
use crate::place::check_file;
use std::alloc::Global;
use std::fs::{File, Metadata, TryLockError};

// A size that is larger than this is no size of a disk.
const GREATEST: u64 = (1 << 63) - 1;

// A file that this program has for itself, or with others that only read. The lock goes with the
// file.
#[derive(Drop)]
pub(crate) struct Locked {
    file: File,
    writable: bool,
}

impl Locked {
    // Takes the lock of a file that was opened.
    pub(crate) fn new(file: File, writable: bool) -> Result<Locked, OpenStop>
        ensures { IfOk result (λ locked. locked.writable ≡ writable) }
    {
        let answer = if writable {
            file.try_lock()
        } else {
            file.try_lock_shared()
        };
        held(answer)?;
        Ok(Locked { file, writable })
    }

    // Takes the size that the file has now.
    pub(crate) fn into_disk(
        self,
        alloc: Global,
        folder: Option<File>,
    ) -> Result<FileDisk<File>, OpenStop>
        ensures { IfOk result (λ disk. disk ≡ opened disk.size self.writable (is_some folder)) }
    {
        let size = size_in(&self.file.metadata()?)?;
        Ok(FileDisk::new(alloc, self.file, folder, self.writable, size))
    }
}

// What the system's answer to a lock says.
fn held(answer: Result<(), TryLockError>) -> Result<(), OpenStop>
    ensures { result ≡ held answer }
{
    match answer {
        Ok(()) => Ok(()),
        Err(TryLockError::WouldBlock) => Err(OpenStop::InUse),
        Err(TryLockError::Error(error)) => Err(OpenStop::System(error)),
    }
}

// The size of a regular file, below 2^63.
fn size_in(found: &Metadata) -> Result<u64, OpenStop>
    ensures size { IfOk result (λ size. size ≡ metadata_len found.now) }
    ensures taken { IsOk result
        ↔ (IsFile (file_type found.now) × (metadata_len found.now < 2 ^ 63)) }
    ensures too_large { IsFile (file_type found.now) → 2 ^ 63 ≤ metadata_len found.now
        → IsErrAnd result (λ why. why ≡ OpenStop.TooLarge) }
    ensures no_file { (IsFile (file_type found.now) → ⊥)
        → IsErrAnd result (λ why. why ≡ OpenStop.NotFile) }
{
    check_file(found)?;
    if found.len() > GREATEST {
        return Err(OpenStop::TooLarge);
    }
    Ok(found.len())
}
