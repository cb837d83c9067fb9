// The store of a request, and how its file is opened.
ghost use Rattle.std.specs.Prelude.{◌≡◌, IfOk};
ghost use Rattle.file_disk.specs.State.{opened};
ghost use Rattle.host_io.specs.Edge.{is_made, is_written};

use command_line::{Access, Request};
use file_disk::{FileDisk, OpenStop};
use std::alloc::Global;
use std::fs::{File, Files};

/// The store of a request.
#[derive(Drop)]
pub(crate) enum Opened {
    /// It is open for what is done with it.
    Disk(FileDisk<File>),
    /// There is none.
    NoStore,
    /// It can not be opened.
    Stopped(OpenStop),
}

/// Opens the store of a request.
pub(crate) fn open_store(rt: &HostRuntime, request: Option<&Request<'_>>) -> Opened {
    let Some(request) = request else {
        return Opened::NoStore;
    };
    let Some(store) = request.store() else {
        return Opened::NoStore;
    };
    match open_as(rt, rt.alloc(), store.file, store.access) {
        Ok(disk) => Opened::Disk(disk),
        Err(why) => Opened::Stopped(why),
    }
}

// Opens a store for what is done with it: only one that is made may be new, and one that is only
// read is not written to.
fn open_as<R: Files<File = File>>(
    files: &R,
    alloc: Global,
    path: &str,
    access: Access,
) -> Result<FileDisk<File>, OpenStop>
    ensures { IfOk result (λ disk. disk ≡ opened disk.size (is_written access) (is_made access)) }
{
    match access {
        Access::Makes => FileDisk::create(files, alloc, path),
        Access::Changes => FileDisk::open(files, alloc, path),
        Access::Reads => FileDisk::open_to_read(files, alloc, path),
    }
}

/// Whether a request changes its store.
pub(crate) fn changes_store(request: Option<&Request<'_>>) -> bool {
    let Some(request) = request else {
        return false;
    };
    match request.store() {
        Some(store) => changes(store.access),
        None => false,
    }
}

fn changes(access: Access) -> bool
    ensures { result ≡ is_written access }
{
    match access {
        Access::Makes | Access::Changes => true,
        Access::Reads => false,
    }
}
