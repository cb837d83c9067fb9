//! The numbers of the attributes of both versions. Source: BTRFS_SEND_A_.. in send.h of
//! btrfs-progs.

/// The identifier of a subvolume.
pub const UUID: u16 = 1;

/// The transaction of a subvolume.
pub const CTRANSID: u16 = 2;

/// The number of an inode.
pub const INO: u16 = 3;

/// A size in bytes.
pub const SIZE: u16 = 4;

/// A mode.
pub const MODE: u16 = 5;

/// An owner.
pub const UID: u16 = 6;

/// A group.
pub const GID: u16 = 7;

/// The number of a device.
pub const RDEV: u16 = 8;

/// The moment of the last change.
pub const CTIME: u16 = 9;

/// The moment of the last modification.
pub const MTIME: u16 = 10;

/// The moment of the last access.
pub const ATIME: u16 = 11;

/// The moment of creation.
pub const OTIME: u16 = 12;

/// The name of an extended attribute.
pub const XATTR_NAME: u16 = 13;

/// The value of an extended attribute.
pub const XATTR_DATA: u16 = 14;

/// A path.
pub const PATH: u16 = 15;

/// The path that a name moves to.
pub const PATH_TO: u16 = 16;

/// The path that a link leads to.
pub const PATH_LINK: u16 = 17;

/// A place in a file, in bytes.
pub const FILE_OFFSET: u16 = 18;

/// The bytes of a write.
pub const DATA: u16 = 19;

/// The identifier of the subvolume that is cloned from, or of the parent.
pub const CLONE_UUID: u16 = 20;

/// Its transaction.
pub const CLONE_CTRANSID: u16 = 21;

/// The path of the file that is cloned from.
pub const CLONE_PATH: u16 = 22;

/// The place in that file, in bytes.
pub const CLONE_OFFSET: u16 = 23;

/// How many bytes are cloned. The last of version 1.
pub const CLONE_LEN: u16 = 24;

/// The mode of `fallocate`. The first of version 2.
pub const FALLOCATE_MODE: u16 = 25;

/// The flags of an inode.
pub const FILE_FLAGS: u16 = 26;

/// Of a write of encoded bytes: how many bytes of the file they stand for.
pub const UNENCODED_FILE_LEN: u16 = 27;

/// Of a write of encoded bytes: how many they are once decoded.
pub const UNENCODED_LEN: u16 = 28;

/// Of a write of encoded bytes: the place in the decoded bytes.
pub const UNENCODED_OFFSET: u16 = 29;

/// Of a write of encoded bytes: how they are compressed.
pub const COMPRESSION: u16 = 30;

/// Of a write of encoded bytes: how they are encrypted. The last of version 2.
pub const ENCRYPTION: u16 = 31;
