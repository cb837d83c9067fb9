// The commands by name, with their numbers and the attributes that they want.
ghost use Rattle.std.specs.Prelude.{◌≡◌, ◌==◌, ◌≤◌, length, option_map};
ghost use Rattle.std.specs.List.{find};
ghost use Rattle.send_model.specs.Command.{row, first_kinds, kind_of_number};
ghost use Rattle.send_commands.specs.Meaning.{kind_meant};

use tlv_frame::attribute_numbers::*;

/// The commands by name. Source: enum btrfs_send_cmd in send.h of btrfs-progs.
#[derive(Debug, Clone, Copy, PartialEq, Eq)]
pub enum Kind {
    /// SUBVOL.
    Subvol,
    /// SNAPSHOT.
    Snapshot,
    /// MKFILE.
    MkFile,
    /// MKDIR.
    MkDir,
    /// MKNOD.
    MkNod,
    /// MKFIFO.
    MkFifo,
    /// MKSOCK.
    MkSock,
    /// SYMLINK.
    Symlink,
    /// RENAME.
    Rename,
    /// LINK.
    Link,
    /// UNLINK.
    Unlink,
    /// RMDIR.
    Rmdir,
    /// SET_XATTR.
    SetXattr,
    /// REMOVE_XATTR.
    RemoveXattr,
    /// WRITE.
    Write,
    /// CLONE.
    Clone,
    /// TRUNCATE.
    Truncate,
    /// CHMOD.
    Chmod,
    /// CHOWN.
    Chown,
    /// UTIMES.
    Utimes,
    /// END.
    End,
    /// UPDATE_EXTENT.
    UpdateExtent,
    /// FALLOCATE, of version 2.
    Fallocate,
    /// FILEATTR, of version 2.
    FileAttr,
}

impl Kind {
    /// The command of this number in a stream of this version, None where there is none. Version 2
    /// has two more than version 1.
    #[tactic(auto, unfolding(send_model::specs::Command::kind_of_number, send_model::specs::Command::row), using(crate::proofs::Numbers::second_kinds))]
    pub fn from_number(version: u32, number: u16) -> Option<Kind>
        ensures kind { option_map kind_meant result ≡ kind_of_number version number }
    {
        match version {
            1 => Kind::of_first_version(number),
            2 => match number {
                23 => Some(Kind::Fallocate),
                24 => Some(Kind::FileAttr),
                _ => Kind::of_first_version(number),
            },
            _ => None,
        }
    }

    // The command of this number in version 1.
    #[tactic(auto, unfolding(send_model::specs::Command::row))]
    fn of_first_version(number: u16) -> Option<Kind>
        ensures kind { option_map kind_meant result ≡ find (λ kind. (row kind).number == number)
            first_kinds }
    {
        match number {
            1 => Some(Kind::Subvol),
            2 => Some(Kind::Snapshot),
            3 => Some(Kind::MkFile),
            4 => Some(Kind::MkDir),
            5 => Some(Kind::MkNod),
            6 => Some(Kind::MkFifo),
            7 => Some(Kind::MkSock),
            8 => Some(Kind::Symlink),
            9 => Some(Kind::Rename),
            10 => Some(Kind::Link),
            11 => Some(Kind::Unlink),
            12 => Some(Kind::Rmdir),
            13 => Some(Kind::SetXattr),
            14 => Some(Kind::RemoveXattr),
            15 => Some(Kind::Write),
            16 => Some(Kind::Clone),
            17 => Some(Kind::Truncate),
            18 => Some(Kind::Chmod),
            19 => Some(Kind::Chown),
            20 => Some(Kind::Utimes),
            21 => Some(Kind::End),
            22 => Some(Kind::UpdateExtent),
            _ => None,
        }
    }

    /// The command's number.
    #[tactic(auto, unfolding(send_model::specs::Command::row))]
    pub fn number(self) -> u16
        ensures number { result ≡ (row (kind_meant self)).number }
    {
        match self {
            Kind::Subvol => 1,
            Kind::Snapshot => 2,
            Kind::MkFile => 3,
            Kind::MkDir => 4,
            Kind::MkNod => 5,
            Kind::MkFifo => 6,
            Kind::MkSock => 7,
            Kind::Symlink => 8,
            Kind::Rename => 9,
            Kind::Link => 10,
            Kind::Unlink => 11,
            Kind::Rmdir => 12,
            Kind::SetXattr => 13,
            Kind::RemoveXattr => 14,
            Kind::Write => 15,
            Kind::Clone => 16,
            Kind::Truncate => 17,
            Kind::Chmod => 18,
            Kind::Chown => 19,
            Kind::Utimes => 20,
            Kind::End => 21,
            Kind::UpdateExtent => 22,
            Kind::Fallocate => 23,
            Kind::FileAttr => 24,
        }
    }

    /// The numbers of the attributes that the command wants, in rising order.
    #[tactic(auto, unfolding(send_model::specs::Command::row))]
    pub fn wanted(self) -> &'static [u16]
        ensures wanted { result.now ≡ (row (kind_meant self)).wanted }
        ensures few { length result.now ≤ 7 }
    {
        match self {
            Kind::Subvol => &[UUID, CTRANSID, PATH],
            Kind::Snapshot => &[UUID, CTRANSID, PATH, CLONE_UUID, CLONE_CTRANSID],
            Kind::MkFile => &[PATH],
            Kind::MkDir => &[PATH],
            Kind::MkNod => &[MODE, RDEV, PATH],
            Kind::MkFifo => &[PATH],
            Kind::MkSock => &[PATH],
            Kind::Symlink => &[PATH, PATH_LINK],
            Kind::Rename => &[PATH, PATH_TO],
            Kind::Link => &[PATH, PATH_LINK],
            Kind::Unlink => &[PATH],
            Kind::Rmdir => &[PATH],
            Kind::SetXattr => &[XATTR_NAME, XATTR_DATA, PATH],
            Kind::RemoveXattr => &[XATTR_NAME, PATH],
            Kind::Write => &[PATH, FILE_OFFSET, DATA],
            Kind::Clone => &[
                PATH,
                FILE_OFFSET,
                CLONE_UUID,
                CLONE_CTRANSID,
                CLONE_PATH,
                CLONE_OFFSET,
                CLONE_LEN,
            ],
            Kind::Truncate => &[SIZE, PATH],
            Kind::Chmod => &[MODE, PATH],
            Kind::Chown => &[UID, GID, PATH],
            Kind::Utimes => &[MTIME, ATIME, PATH],
            Kind::End => &[],
            Kind::UpdateExtent => &[SIZE, PATH, FILE_OFFSET],
            Kind::Fallocate => &[SIZE, PATH, FILE_OFFSET, FALLOCATE_MODE],
            Kind::FileAttr => &[PATH, FILE_FLAGS],
        }
    }
}
