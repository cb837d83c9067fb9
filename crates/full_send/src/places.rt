// What is written at a time: an inode at a path, the path that was passed last, and some bytes of a
// file.
use group_replay::Place;
use path_walk::Paths;

// A path, and the number of the inode that it leads to.
#[derive(Clone, Copy)]
pub(crate) struct InodeAt<'a> {
    pub(crate) path: &'a [u8],
    pub(crate) ino: u64,
}

// What has passed paths, and the number of the inode that the last of them leads to.
#[derive(Clone, Copy)]
pub(crate) struct LastPath<'a> {
    pub(crate) paths: &'a Paths<'a, Place>,
    pub(crate) ino: u64,
}

// The bytes of a file from a place up to another; none where that does not come after it.
#[derive(Clone, Copy)]
pub(crate) struct ByteRange {
    pub(crate) from: u64,
    pub(crate) to: u64,
}
