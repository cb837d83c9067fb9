// Why a command is refused.
ghost use Rattle.std.specs.Prelude.{◌≡◌};
ghost use Rattle.send_model.specs.Refusal.{refusal_number, refusal_name};
ghost use Rattle.sx_base.specs.Refusals.{refusal_of};

/// Why a command of a stream is refused, with the values that a note prints. The numbers and names
/// are this program's own.
#[derive(Debug, Clone, Copy, PartialEq, Eq)]
pub enum Refusal {
    /// A stream does not begin with the text `btrfs-stream` and a zero byte.
    BadMagic,
    /// A stream is of a version that is not read; it keeps the version.
    BadVersion(u32),
    /// The file ends inside a stream.
    Truncated,
    /// A command's body is longer than 262,144 bytes; it keeps the length.
    LongCommand(u32),
    /// A command's checksum is not that of its bytes.
    BadChecksum {
        /// The checksum that the command has.
        stored: u32,
        /// The checksum of the command's bytes.
        computed: u32,
    },
    /// No command has this number; it keeps the number.
    UnknownCommand(u16),
    /// An attribute can't be read, is of no known type, stands twice or has a wrong length; it
    /// keeps the type.
    BadAttribute(u16),
    /// A command lacks an attribute that it needs; it keeps the attribute's type.
    MissingAttribute(u16),
    /// A command comes before the first head of its stream.
    NoSubvolume,
    /// A subvolume's name is no lawful name.
    BadName,
    /// The store has a subvolume of this name.
    NameThere,
    /// The store has a subvolume with this UUID.
    UuidThere,
    /// The store has no complete subvolume with the parent's key.
    NoParent,
    /// A path is too long, or one of its names is no lawful name.
    BadPath,
    /// A path names nothing.
    NoEntry,
    /// A path goes through an inode that is no directory, or a directory is wanted.
    NotDirectory,
    /// The directory has this name already.
    EntryThere,
    /// A directory stands where none may.
    IsDirectory,
    /// A directory that is to go has names.
    NotEmpty,
    /// A directory is to move below itself.
    IntoItself,
    /// The inode is no regular file.
    NotFile,
    /// The name of an extended attribute has no byte or more than 255.
    BadXattr,
    /// The inode has no extended attribute of this name.
    NoXattr,
    /// The mode of a device is that of no device.
    BadDevice,
    /// A time has 1,000,000,000 nanoseconds or more.
    BadTime,
    /// The root of a subvolume is no place for an edit of names.
    IsRoot,
    /// A file would end above 2^63 - 1.
    FileTooBig,
    /// No subvolume has the key of a clone's source.
    NoSource,
    /// A clone's range is empty or ends past its source.
    BadRange,
    /// A clone's range does not lie on blocks of 4096 bytes.
    Unaligned,
    /// A clone's source and destination share a place of one inode.
    Overlap,
    /// A write of bytes that are compressed or encrypted.
    Encoded,
    /// A guard does not allow the command.
    Guarded {
        /// The guard's place among the guards, counted from 0.
        guard: u64,
        /// What it had counted before this command.
        used: u64,
    },
    /// The mode of a FALLOCATE is none that is known; it keeps the mode.
    BadFallocate(u32),
    /// A part does not follow on the part before it.
    NotConsecutive,
    /// Kept for commands that are not taken, of which there are none; it keeps the command's
    /// number.
    NotBuilt(u16),
    /// A text is not that of whole streams.
    BadText,
    /// A subvolume has no inode number left.
    NoNumber,
}

impl Refusal {
    /// The number of the refusal that a note prints.
    #[tactic(auto, unfolding(send_model::specs::Refusal::refusal_number))]
    pub fn number(&self) -> u64
        ensures number { result ≡ refusal_number (refusal_of self.now) }
    {
        match self {
            Refusal::BadMagic => 1,
            Refusal::BadVersion(_) => 2,
            Refusal::Truncated => 3,
            Refusal::LongCommand(_) => 4,
            Refusal::BadChecksum { .. } => 5,
            Refusal::UnknownCommand(_) => 6,
            Refusal::BadAttribute(_) => 7,
            Refusal::MissingAttribute(_) => 8,
            Refusal::NoSubvolume => 9,
            Refusal::BadName => 10,
            Refusal::NameThere => 11,
            Refusal::UuidThere => 12,
            Refusal::NoParent => 13,
            Refusal::BadPath => 14,
            Refusal::NoEntry => 15,
            Refusal::NotDirectory => 16,
            Refusal::EntryThere => 17,
            Refusal::IsDirectory => 18,
            Refusal::NotEmpty => 19,
            Refusal::IntoItself => 20,
            Refusal::NotFile => 21,
            Refusal::BadXattr => 22,
            Refusal::NoXattr => 23,
            Refusal::BadDevice => 24,
            Refusal::BadTime => 25,
            Refusal::IsRoot => 26,
            Refusal::FileTooBig => 27,
            Refusal::NoSource => 28,
            Refusal::BadRange => 29,
            Refusal::Unaligned => 30,
            Refusal::Overlap => 31,
            Refusal::Encoded => 32,
            Refusal::Guarded { .. } => 33,
            Refusal::BadFallocate(_) => 34,
            Refusal::NotConsecutive => 35,
            Refusal::NotBuilt(_) => 36,
            Refusal::BadText => 37,
            Refusal::NoNumber => 38,
        }
    }

    /// The name of the refusal that a note prints.
    #[tactic(auto, unfolding(send_model::specs::Refusal::refusal_name))]
    pub fn name(&self) -> &'static str
        ensures name { result.now ≡ refusal_name (refusal_of self.now) }
    {
        match self {
            Refusal::BadMagic => "BadMagic",
            Refusal::BadVersion(_) => "BadVersion",
            Refusal::Truncated => "Truncated",
            Refusal::LongCommand(_) => "LongCommand",
            Refusal::BadChecksum { .. } => "BadChecksum",
            Refusal::UnknownCommand(_) => "UnknownCommand",
            Refusal::BadAttribute(_) => "BadAttribute",
            Refusal::MissingAttribute(_) => "MissingAttribute",
            Refusal::NoSubvolume => "NoSubvolume",
            Refusal::BadName => "BadName",
            Refusal::NameThere => "NameThere",
            Refusal::UuidThere => "UuidThere",
            Refusal::NoParent => "NoParent",
            Refusal::BadPath => "BadPath",
            Refusal::NoEntry => "NoEntry",
            Refusal::NotDirectory => "NotDirectory",
            Refusal::EntryThere => "EntryThere",
            Refusal::IsDirectory => "IsDirectory",
            Refusal::NotEmpty => "NotEmpty",
            Refusal::IntoItself => "IntoItself",
            Refusal::NotFile => "NotFile",
            Refusal::BadXattr => "BadXattr",
            Refusal::NoXattr => "NoXattr",
            Refusal::BadDevice => "BadDevice",
            Refusal::BadTime => "BadTime",
            Refusal::IsRoot => "IsRoot",
            Refusal::FileTooBig => "FileTooBig",
            Refusal::NoSource => "NoSource",
            Refusal::BadRange => "BadRange",
            Refusal::Unaligned => "Unaligned",
            Refusal::Overlap => "Overlap",
            Refusal::Encoded => "Encoded",
            Refusal::Guarded { .. } => "Guarded",
            Refusal::BadFallocate(_) => "BadFallocate",
            Refusal::NotConsecutive => "NotConsecutive",
            Refusal::NotBuilt(_) => "NotBuilt",
            Refusal::BadText => "BadText",
            Refusal::NoNumber => "NoNumber",
        }
    }
}
