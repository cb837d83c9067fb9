// Bytes and frames as a script spells them.
use crc32c_part::update;
use escaped_words::meant_by;
use guard_rules::number_of;
use std::alloc::{AllocError, Global};
use sx_base::Blob;

/// The bytes of some forms, none where one of them is no form.
pub(crate) fn bytes_of(alloc: Global, forms: &[String]) -> Result<Option<Blob>, AllocError> {
    let mut bytes = Blob::new(alloc);
    for form in forms {
        if !push_form(alloc, form.as_str(), &mut bytes)? {
            return Ok(None);
        }
    }
    Ok(Some(bytes))
}

/// The bytes of a form, none where it is no form.
pub(crate) fn bytes_in(alloc: Global, form: &str) -> Result<Option<Blob>, AllocError> {
    let mut bytes = Blob::new(alloc);
    if push_form(alloc, form, &mut bytes)? {
        return Ok(Some(bytes));
    }
    Ok(None)
}

/// A frame of a kind over some forms, whose checksum is right.
pub(crate) fn frame_of(
    alloc: Global,
    kind: u64,
    forms: &[String],
) -> Result<Option<Blob>, AllocError> {
    let Some(body) = bytes_of(alloc, forms)? else {
        return Ok(None);
    };
    let mut head = Blob::new(alloc);
    let size = body.as_slice().len() as u64;
    push_number(size, 4, &mut head)?;
    push_number(kind, 2, &mut head)?;
    let sum = update(update(update(0, head.as_slice()), &[0; 4]), body.as_slice());
    push_number(u64::from(sum), 4, &mut head)?;
    head.push_all(body.as_slice())?;
    Ok(Some(head))
}

// Puts the bytes of a form at the end, if it is one.
fn push_form(alloc: Global, form: &str, to: &mut Blob) -> Result<bool, AllocError> {
    if let Some((number, value)) = form.split_once('=')
        && let Some(number) = number_of(number.as_bytes())
    {
        let mut bytes = Blob::new(alloc);
        let is_form = push_value(alloc, value, &mut bytes)?;
        push_number(number, 2, to)?;
        push_number(bytes.as_slice().len() as u64, 2, to)?;
        to.push_all(bytes.as_slice())?;
        return Ok(is_form);
    }
    if let Some((number, value)) = form.split_once(':')
        && let Some(number) = number_of(number.as_bytes())
    {
        push_number(number, 2, to)?;
        return push_value(alloc, value, to);
    }
    push_value(alloc, form, to)
}

// Puts the bytes of a value at the end, if it is one.
fn push_value(alloc: Global, value: &str, to: &mut Blob) -> Result<bool, AllocError> {
    if let Some(digits) = value.strip_prefix("u64:") {
        return push_digits(digits, 8, to);
    }
    if let Some(digits) = value.strip_prefix("u32:") {
        return push_digits(digits, 4, to);
    }
    let mut word = Blob::new(alloc);
    word.push_all(b"escaped:")?;
    word.push_all(value.as_bytes())?;
    match meant_by(alloc, word.as_slice())? {
        Some(bytes) => {
            to.push_all(bytes.as_slice())?;
            Ok(true)
        }
        None => Ok(false),
    }
}

fn push_digits(digits: &str, count: usize, to: &mut Blob) -> Result<bool, AllocError> {
    match number_of(digits.as_bytes()) {
        Some(number) => {
            push_number(number, count, to)?;
            Ok(true)
        }
        None => Ok(false),
    }
}

// Puts the lowest bytes of a number at the end, the lowest first.
fn push_number(number: u64, count: usize, to: &mut Blob) -> Result<(), AllocError> {
    let bytes = number.to_le_bytes();
    to.push_all(bytes.get(..count).unwrap_or(&[]))
}
