// Files that stand in memory.
ghost use Rattle.std.specs.Prelude.{◌≡◌, ◌-◌, length, min, ◌++◌, ◌∷◌, [], IfOk, OnOk, OnErr};
ghost use Rattle.sx_base.specs.Outside.{file_at, IsPieceAt};
ghost use Rattle.sx_base.specs.Stored.{as_files};

use std::alloc::{AllocError, Global};

#[derive(Debug, Drop)]
pub(crate) struct StoredFile {
    pub(crate) name: String,
    pub(crate) bytes: Vec<u8>,
}

// Puts a file behind the others, or changes nothing where there is no memory.
pub(crate) fn add_file(
    alloc: Global,
    files: &mut Vec<StoredFile>,
    name: &str,
    bytes: &[u8],
) -> Result<(), AllocError>
    ensures added { OnOk result
        (as_files files.new.items ≡ as_files files.old.items ++ (name.now, bytes.now) ∷ []) }
    ensures same { OnErr result (as_files files.new.items ≡ as_files files.old.items) }
{
    let name = String::from_str(alloc, name)?;
    let bytes = Vec::from_slice(alloc, bytes)?;
    files.push(StoredFile { name, bytes })?;
    Ok(())
}

// The bytes of the first file of this name, none where there is no such file.
pub(crate) fn find_file<'a>(files: &'a [StoredFile], name: &str) -> &'a [u8]
    ensures { result.now ≡ file_at (as_files files.now) name.now }
{
    for file in files {
        if file.name.as_str() == name {
            return file.bytes.as_slice();
        }
    }
    &[]
}

// Fills the buffer from the place `at` of a file on, as far as the file goes.
pub(crate) fn read_piece(file: &[u8], at: u64, buf: &mut [u8]) -> usize
    ensures count { result ≡ min (length buf.new) (length file.now - at) }
    ensures piece { IsPieceAt file.now at buf.new result }
{
    let start = (file.len() as u64).min(at) as usize;
    let rest = &file[start..];
    let count = rest.len().min(buf.len());
    buf[..count].copy_from_slice(&rest[..count]);
    count
}
