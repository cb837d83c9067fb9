// What an inode is.

/// What an inode is. Source: inode(7).
#[derive(Debug, Clone, Copy, PartialEq, Eq)]
pub enum NodeKind {
    /// A regular file, which has contents.
    File,
    /// A directory, which has names in it.
    Directory,
    /// A symbolic link, which has a target.
    SymbolicLink,
    /// A character device, which has a device number.
    CharacterDevice,
    /// A block device, which has a device number.
    BlockDevice,
    /// A named pipe.
    Fifo,
    /// A socket.
    Socket,
}
