// What a tree remembers of the last paths that were walked.
ghost use Rattle.std.specs.Prelude.{◌≡◌, Some, IfSome};
ghost use Rattle.inode_tree.specs.Walked.{nothing, GoesOn, LearnsFront, LearnsPath, without_name};

use std::alloc::Global;
use std::marker::Model;

// The number of the root of each subvolume. Source: BTRFS_FIRST_FREE_OBJECTID of Btrfs.
pub(crate) const ROOT: u64 = 256;

// The most bytes that a path has. Source: PATH_MAX of Linux, less the zero byte at its end.
const LONGEST_PATH: usize = 4_095;

// The last path with more than one name, as far as the directory of its last name, and the last
// path that led to an inode. The room for their bytes is kept from walk to walk; where there is no
// memory for them, less is remembered.
#[derive(Debug, Drop)]
pub(crate) struct LastWalks {
    // The bytes in front of a path's last name, and the directory that they lead to.
    front: Vec<u8>,
    directory: u64,
    // The bytes of a path, and what it leads to where that is known.
    path: Vec<u8>,
    ino: Option<u64>,
}

impl Model for LastWalks {
    ghost use Rattle.inode_tree.specs.Walked.{Walked};

    ghost Value = { Walked };

    ghost view = { λ w. record
        { front = w.front.items; directory = w.directory; path = w.path.items; ino = w.ino } };
}

impl LastWalks {
    // Nothing but the root. Takes no memory.
    pub(crate) fn new(alloc: Global) -> LastWalks
        ensures { result ≡ nothing }
    {
        LastWalks {
            front: Vec::new(alloc),
            directory: ROOT,
            path: Vec::new(alloc),
            ino: None,
        }
    }

    // The directory that the front leads to.
    pub(crate) fn directory(&self) -> u64
        ensures { result ≡ self.now.directory }
    {
        self.directory
    }

    // What a path leads to, if it is the remembered one.
    pub(crate) fn known(&self, path: &[u8]) -> Option<u64>
        ensures { IfSome result (λ ino. (self.now.path ≡ path.now) × (self.now.ino ≡ Some ino)) }
    {
        let ino = self.ino?;
        if self.path.as_slice() != path {
            return None;
        }
        Some(ino)
    }

    // What is left of a path behind the front, if it is a path that goes on there.
    pub(crate) fn rest<'p>(&self, path: &'p [u8]) -> Option<&'p [u8]>
        ensures { IfSome result (λ rest. GoesOn self.now.front path.now rest.now) }
    {
        if path.len() > LONGEST_PATH {
            return None;
        }
        let rest = path.strip_prefix(self.front.as_slice())?;
        if rest.is_empty() {
            return None;
        }
        Some(rest)
    }

    // Remembers a front and its directory. A front of no bytes needs no room: it is the root's.
    pub(crate) fn learn_front(&mut self, front: &[u8], directory: u64)
        ensures { LearnsFront self.old self.new front.now directory }
    {
        if front.is_empty() {
            return;
        }
        if self.front.as_slice() == front {
            self.directory = directory;
            return;
        }
        self.front.clear();
        if self.front.extend_from_slice(front).is_err() {
            self.directory = ROOT;
            return;
        }
        self.directory = directory;
    }

    // Remembers a path and what it leads to.
    pub(crate) fn learn_path(&mut self, path: &[u8], ino: u64)
        ensures { LearnsPath self.old self.new path.now ino }
    {
        self.path.clear();
        if self.path.extend_from_slice(path).is_err() {
            self.ino = None;
            return;
        }
        self.ino = Some(ino);
    }

    // Forgets what may lead elsewhere once a name goes or moves that is a directory's or not.
    pub(crate) fn forget_name(&mut self, directory: bool)
        ensures { self.new ≡ without_name directory self.old }
    {
        self.ino = None;
        if directory {
            self.front.clear();
            self.directory = ROOT;
        }
    }
}
