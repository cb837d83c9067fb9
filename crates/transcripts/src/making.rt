// Files as a script makes them.
use crate::forms::{bytes_in, bytes_of, frame_of};
use crate::scene::Scene;
use guard_rules::number_of;
use std::alloc::AllocError;
use sx_base::Blob;

/// The bytes that a file has after a line of a script; none where the line means nothing.
pub(crate) fn made(
    scene: &Scene,
    what: &str,
    name: &str,
    more: &[String],
) -> Result<Option<Blob>, AllocError> {
    let alloc = scene.alloc;
    let before = scene.bytes(name);
    match (what, more) {
        ("file", forms) => bytes_of(alloc, forms),
        ("add", forms) => {
            let added = bytes_of(alloc, forms)?;
            joined(before, added)
        }
        ("frame", [kind, forms @ ..]) => match number_of(kind.as_bytes()) {
            Some(kind) => {
                let added = frame_of(alloc, kind, forms)?;
                joined(before, added)
            }
            None => Ok(None),
        },
        ("patch", [at, form]) => patched(scene, before, at, form),
        ("cut", [length]) => cut(scene, before, length),
        ("join", names) => {
            let mut bytes = Blob::new(alloc);
            for name in names {
                bytes.push_all(scene.bytes(name.as_str()))?;
            }
            Ok(Some(bytes))
        }
        _ => Ok(None),
    }
}

// Bytes with more behind them, if there are any.
fn joined(before: &[u8], added: Option<Blob>) -> Result<Option<Blob>, AllocError> {
    let Some(added) = added else {
        return Ok(None);
    };
    let mut bytes = added.copy()?;
    bytes.clear();
    bytes.push_all(before)?;
    bytes.push_all(added.as_slice())?;
    Ok(Some(bytes))
}

// Bytes of which some have other values.
fn patched(
    scene: &Scene,
    before: &[u8],
    at: &String,
    form: &String,
) -> Result<Option<Blob>, AllocError> {
    let Some(at) = number_of(at.as_bytes()) else {
        return Ok(None);
    };
    let Some(values) = bytes_in(scene.alloc, form.as_str())? else {
        return Ok(None);
    };
    let at = at as usize;
    let mut bytes = Blob::new(scene.alloc);
    let (Some(front), Some(back)) = (
        before.get(..at),
        before.get(at.saturating_add(values.as_slice().len())..),
    ) else {
        return Ok(None);
    };
    bytes.push_all(front)?;
    bytes.push_all(values.as_slice())?;
    bytes.push_all(back)?;
    Ok(Some(bytes))
}

// The front of bytes.
fn cut(scene: &Scene, before: &[u8], length: &String) -> Result<Option<Blob>, AllocError> {
    let Some(length) = number_of(length.as_bytes()) else {
        return Ok(None);
    };
    let Some(front) = before.get(..length as usize) else {
        return Ok(None);
    };
    let mut bytes = Blob::new(scene.alloc);
    bytes.push_all(front)?;
    Ok(Some(bytes))
}
