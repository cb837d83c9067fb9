// Headers and frames of which the files of the tests are made, and what is written of them, spelled
// by another program. The UUIDs are sixteen times `A` or `B`.
use std::alloc::{AllocError, Global};

pub(crate) const HEADER: &[u8] = b"btrfs-stream\0\x01\0\0\0";

pub(crate) const HEADER_V2: &[u8] = b"btrfs-stream\0\x02\0\0\0";

pub(crate) const SUBVOL_A: &[u8] =
    b"%\0\0\0\x01\0\x85\x0fH{\x01\0\x10\0AAAAAAAAAAAAAAAA\x02\0\x08\0\x01\0\0\0\0\0\0\0\x0f\0\x01\0a";

pub(crate) const SUBVOL_B: &[u8] =
    b"%\0\0\0\x01\0\x16\x1c\x95O\x01\0\x10\0BBBBBBBBBBBBBBBB\x02\0\x08\0\x01\0\0\0\0\0\0\0\x0f\0\x01\0b";

pub(crate) const SUBVOL_NAMED: &[u8] =
    b")\0\0\0\x01\0\xe70I-\x01\0\x10\0AAAAAAAAAAAAAAAA\x02\0\x08\0\x01\0\0\0\0\0\0\0\x0f\0\x05\0named";

pub(crate) const MKFILE: &[u8] = b"\x05\0\0\0\x03\0/\x8a6s\x0f\0\x01\0x";

pub(crate) const MKFILE_Y: &[u8] = b"\x05\0\0\0\x03\0,\x09]\x81\x0f\0\x01\0y";

pub(crate) const WRITE_ABC: &[u8] =
    b"\x18\0\0\0\x0f\0\xcb\xc8\xa3\xa8\x0f\0\x01\0x\x12\0\x08\0\0\0\0\0\0\0\0\0\x13\0\x03\0abc";

pub(crate) const WRITE_DEF: &[u8] =
    b"\x18\0\0\0\x0f\0\xf6#\xa0\xdc\x0f\0\x01\0x\x12\0\x08\0\0\0\0\0\0\0\0\0\x13\0\x03\0def";

pub(crate) const WRITE_GHIJ: &[u8] =
    b"\x19\0\0\0\x0f\0\x0fr-\xfe\x0f\0\x01\0x\x12\0\x08\0\0\0\0\0\0\0\0\0\x13\0\x04\0ghij";

pub(crate) const WRITE_SIX: &[u8] =
    b"\x1b\0\0\0\x0f\0>\xdc\xa8\xf8\x0f\0\x01\0x\x12\0\x08\0\0\0\0\0\0\0\0\0\x13\0\x06\0abcdef";

pub(crate) const WRITE_SIX_OTHERWISE: &[u8] =
    b"\x1b\0\0\0\x0f\0\xe6\xe0\xe3\xba\x13\0\x06\0abcdef\x12\0\x08\0\0\0\0\0\0\0\0\0\x0f\0\x01\0x";

pub(crate) const WRITE_MIDDLE: &[u8] =
    b"\x17\0\0\0\x0f\0\xfd\x8fM\x87\x0f\0\x01\0x\x12\0\x08\0\x02\0\0\0\0\0\0\0\x13\0\x02\0XY";

pub(crate) const WRITE_AB: &[u8] =
    b"\x17\0\0\0\x0f\0\xb7\x8e\xd1H\x0f\0\x01\0x\x12\0\x08\0\0\0\0\0\0\0\0\0\x13\0\x02\0ab";

pub(crate) const WRITE_EF: &[u8] =
    b"\x17\0\0\0\x0f\0\x9d[0\x94\x0f\0\x01\0x\x12\0\x08\0\x04\0\0\0\0\0\0\0\x13\0\x02\0ef";

pub(crate) const WRITE_MORE: &[u8] =
    b"\x17\0\0\0\x0f\0\xd8~\x03\xb7\x0f\0\x01\0x\x12\0\x08\0\x06\0\0\0\0\0\0\0\x13\0\x02\0gh";

pub(crate) const WRITE_Q: &[u8] =
    b"\x16\0\0\0\x0f\07\xab\xa5W\x0f\0\x01\0x\x12\0\x08\0\x01\0\0\0\0\0\0\0\x13\0\x01\0Q";

pub(crate) const WRITE_NONE: &[u8] =
    b"\x15\0\0\0\x0f\0\xf7?\"7\x0f\0\x01\0x\x12\0\x08\0\0\0\0\0\0\0\0\0\x13\0\0\0";

pub(crate) const WRITE_Y: &[u8] =
    b"\x17\0\0\0\x0f\0P\xc2\xea\xf1\x0f\0\x01\0y\x12\0\x08\0\0\0\0\0\0\0\0\0\x13\0\x02\0ab";

pub(crate) const TRUNCATE_2: &[u8] =
    b"\x11\0\0\0\x11\0\xcf9j\x84\x04\0\x08\0\x02\0\0\0\0\0\0\0\x0f\0\x01\0x";

pub(crate) const TRUNCATE_3: &[u8] =
    b"\x11\0\0\0\x11\0\xaa\x01\xb8\xb4\x04\0\x08\0\x03\0\0\0\0\0\0\0\x0f\0\x01\0x";

pub(crate) const TRUNCATE_6: &[u8] =
    b"\x11\0\0\0\x11\0[\xd8\"G\x04\0\x08\0\x06\0\0\0\0\0\0\0\x0f\0\x01\0x";

pub(crate) const UNLINK: &[u8] = b"\x05\0\0\0\x0b\0\xe3\xef\x08\xdf\x0f\0\x01\0x";

pub(crate) const CLONE: &[u8] =
    b"N\0\0\0\x10\0\xaa<\xb6#\x0f\0\x01\0y\x12\0\x08\0\0\0\0\0\0\0\0\0\x14\0\x10\0AAAAAAAAAAAAAAAA\x15\0\x08\0\x01\0\0\0\0\0\0\0\x16\0\x01\0x\x17\0\x08\0\0\0\0\0\0\0\0\0\x18\0\x08\0\x06\0\0\0\0\0\0\0";

pub(crate) const WRITE_SIX_V2: &[u8] =
    b"\x19\0\0\0\x0f\0>\xa5\xb37\x0f\0\x01\0x\x12\0\x08\0\0\0\0\0\0\0\0\0\x13\0abcdef";

pub(crate) const WRITE_AB_V2: &[u8] =
    b"\x15\0\0\0\x0f\0\x13a\xe1$\x0f\0\x01\0x\x12\0\x08\0\0\0\0\0\0\0\0\0\x13\0ab";

pub(crate) const WRITE_EF_V2: &[u8] =
    b"\x15\0\0\0\x0f\0\x10\xc76h\x0f\0\x01\0x\x12\0\x08\0\x04\0\0\0\0\0\0\0\x13\0ef";

pub(crate) const PUNCH: &[u8] =
    b"%\0\0\0\x17\0&\xb4\xb5E\x04\0\x08\0\x02\0\0\0\0\0\0\0\x0f\0\x01\0x\x12\0\x08\0\x02\0\0\0\0\0\0\0\x19\0\x04\0\x03\0\0\0";

pub(crate) const END: &[u8] = b"\0\0\0\0\x15\0Pl\xc9\x9d";

// The pieces, one after the other.
pub(crate) fn joined(alloc: Global, pieces: &[&[u8]]) -> Result<Vec<u8>, AllocError> {
    let mut bytes = Vec::new(alloc);
    for piece in pieces {
        bytes.extend_from_slice(piece)?;
    }
    Ok(bytes)
}
