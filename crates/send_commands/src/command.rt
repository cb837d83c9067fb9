// The commands of a stream.
ghost use Rattle.std.specs.Prelude.{◌≡◌, ◌++◌};
ghost use Rattle.std.specs.Int.{w32, w64, to_le_bytes};

use uuid::Uuid;

/// A moment: seconds, and nanoseconds below a second.
#[derive(Debug, Clone, Copy, PartialEq, Eq)]
pub struct Time {
    /// Seconds since the beginning of 1970.
    pub secs: u64,
    /// Nanoseconds, fewer than 1,000,000,000.
    pub nanos: u32,
}

impl Time {
    /// Its bytes: eight of seconds and four of nanoseconds, each with the least byte first. Source:
    /// the times of UTIMES in send.h of btrfs-progs.
    pub fn bytes(self) -> [u8; 12]
        ensures { result ≡ to_le_bytes w64 self.secs ++ to_le_bytes w32 self.nanos }
    {
        let secs = self.secs.to_le_bytes();
        let nanos = self.nanos.to_le_bytes();
        [
            secs[0], secs[1], secs[2], secs[3], secs[4], secs[5], secs[6], secs[7], nanos[0],
            nanos[1], nanos[2], nanos[3],
        ]
    }
}

/// A command with its values. Paths, names and data are bytes that stand elsewhere; sizes, offsets
/// and lengths count bytes. Source: enum btrfs_send_cmd in send.h of btrfs-progs.
#[derive(Debug, Clone, Copy)]
pub enum Command<'a> {
    /// Begins a subvolume of its own.
    Subvol {
        uuid: Uuid,
        ctransid: u64,
        path: &'a [u8],
    },
    /// Begins a subvolume as a snapshot of another.
    Snapshot {
        uuid: Uuid,
        ctransid: u64,
        path: &'a [u8],
        clone_uuid: Uuid,
        clone_ctransid: u64,
    },
    /// Makes a regular file.
    MkFile {
        path: &'a [u8],
    },
    /// Makes a directory.
    MkDir {
        path: &'a [u8],
    },
    /// Makes a character or block device.
    MkNod {
        mode: u64,
        rdev: u64,
        path: &'a [u8],
    },
    /// Makes a named pipe.
    MkFifo {
        path: &'a [u8],
    },
    /// Makes a socket.
    MkSock {
        path: &'a [u8],
    },
    /// Makes a symbolic link to `path_link`.
    Symlink {
        path: &'a [u8],
        path_link: &'a [u8],
    },
    /// Moves a name.
    Rename {
        path: &'a [u8],
        path_to: &'a [u8],
    },
    /// Gives what `path_link` names one more name.
    Link {
        path: &'a [u8],
        path_link: &'a [u8],
    },
    /// Takes a name away.
    Unlink {
        path: &'a [u8],
    },
    /// Takes an empty directory away.
    Rmdir {
        path: &'a [u8],
    },
    /// Sets an extended attribute.
    SetXattr {
        name: &'a [u8],
        value: &'a [u8],
        path: &'a [u8],
    },
    /// Takes an extended attribute away.
    RemoveXattr {
        name: &'a [u8],
        path: &'a [u8],
    },
    /// Puts bytes into a file, from the place `offset` on.
    Write {
        path: &'a [u8],
        offset: u64,
        bytes: &'a [u8],
    },
    /// Shares a range of another file.
    Clone {
        path: &'a [u8],
        offset: u64,
        clone_uuid: Uuid,
        clone_ctransid: u64,
        clone_path: &'a [u8],
        clone_offset: u64,
        clone_len: u64,
    },
    /// Sets a file's size in bytes.
    Truncate {
        size: u64,
        path: &'a [u8],
    },
    /// Sets the mode.
    Chmod {
        mode: u64,
        path: &'a [u8],
    },
    /// Sets the owner and the group.
    Chown {
        uid: u64,
        gid: u64,
        path: &'a [u8],
    },
    /// Sets the times.
    Utimes {
        mtime: Time,
        atime: Time,
        path: &'a [u8],
    },
    /// Ends a part.
    End,
    /// Says that a range of a file has bytes that are not sent.
    UpdateExtent {
        size: u64,
        path: &'a [u8],
        offset: u64,
    },
    /// Reserves or frees a range of a file, as `fallocate` does in this mode. Of version 2.
    Fallocate {
        size: u64,
        path: &'a [u8],
        offset: u64,
        mode: u32,
    },
    /// Sets the flags of an inode. Of version 2.
    FileAttr {
        path: &'a [u8],
        flags: u64,
    },
}
