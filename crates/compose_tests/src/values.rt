// Values that commands, catalogues and calls of these tests have.
ghost use Rattle.std.specs.Prelude.{◌≡◌, IfOk, length};

use std::alloc::{AllocError, Global};
use subvol_catalog::Key;
use uuid::Uuid;

// Sixteen times the same byte.
pub(crate) fn uuid(byte: u8) -> Uuid {
    Uuid::from_bytes([byte; 16])
}

pub(crate) fn key(byte: u8, ctransid: u64) -> Key {
    Key {
        uuid: uuid(byte),
        ctransid,
    }
}

// The names of two files.
pub(crate) fn two_names(alloc: Global) -> Result<Vec<String>, AllocError>
    ensures two { IfOk result (λ names. length names.items ≡ 2) }
{
    let mut names = Vec::new(alloc);
    names.push(String::from_str(alloc, "first")?)?;
    names.push(String::from_str(alloc, "second")?)?;
    Ok(names)
}
