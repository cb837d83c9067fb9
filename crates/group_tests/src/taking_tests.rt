// What no clause says: that groups are taken where there is memory, also such as are longer than a
// window.
use crate::image::{edits, header, mark, put_attribute, put_frame, put_group, put_sealed, read};
use crate::same::same;
use std::alloc::{AllocError, Global};
use std::test::Fail;

// The number of WRITE, and its attributes.
const WRITE: u16 = 15;

const PATH: u16 = 15;

const FILE_OFFSET: u16 = 18;

const DATA: u16 = 19;

// Appends the frame of a WRITE of version 1 to the file `x`.
fn put_write(alloc: Global, group: &mut Vec<u8>, at: u64, data: &[u8]) -> Result<(), AllocError> {
    let mut attributes = Vec::new(alloc);
    put_attribute(&mut attributes, PATH, b"x")?;
    put_attribute(&mut attributes, FILE_OFFSET, &at.to_le_bytes())?;
    put_attribute(&mut attributes, DATA, data)?;
    put_frame(group, WRITE, &attributes)
}

// An image with the head of the subvolume `a`.
fn marked(alloc: Global) -> Result<Vec<u8>, AllocError> {
    let mut image = header(alloc, 2)?;
    put_sealed(alloc, &mut image, &mark(alloc, 4)?)?;
    Ok(image)
}

#[test]
fn groups_of_both_formats_are_taken(rt: HostRuntime) -> Result<(), Fail> {
    let alloc = rt.alloc();
    let mut image = header(alloc, 1)?;
    put_group(&mut image, &mark(alloc, 1)?)?;
    put_group(&mut image, &edits(alloc, 2, 1)?)?;
    same(&rt, read(alloc, &image)?, Ok(1));
    put_group(&mut image, b"\x03a")?;
    same(&rt, read(alloc, &image)?, Ok(0));
    put_sealed(alloc, &mut image, &mark(alloc, 4)?)?;
    put_sealed(alloc, &mut image, &edits(alloc, 5, 2)?)?;
    same(&rt, read(alloc, &image)?, Ok(1));
    put_sealed(alloc, &mut image, b"\x06a")?;
    same(&rt, read(alloc, &image)?, Ok(0));
    Ok(())
}

#[test]
fn a_group_longer_than_a_window_is_taken(rt: HostRuntime) -> Result<(), Fail> {
    let alloc = rt.alloc();
    let data = vec![in alloc; 7; 48_000]?;
    let mut group = edits(alloc, 5, 1)?;
    for i in 0..26 {
        put_write(alloc, &mut group, i * 48_000, &data)?;
    }
    let mut image = marked(alloc)?;
    put_sealed(alloc, &mut image, &group)?;
    same(&rt, read(alloc, &image)?, Ok(1));
    put_group(&mut image, &group)?;
    same(&rt, read(alloc, &image)?, Err(3));
    Ok(())
}

#[test]
fn groups_at_fault_are_none(rt: HostRuntime) -> Result<(), Fail> {
    let alloc = rt.alloc();
    let faults: [&[u8]; 6] = [
        b"",
        b"\x05",
        b"\x07a",
        b"\x04a",
        b"\x06b",
        b"\x05aaaaaaaaaaaaaaaa\x01",
    ];
    for group in faults {
        let mut image = marked(alloc)?;
        put_sealed(alloc, &mut image, group)?;
        same(&rt, read(alloc, &image)?, Err(2));
        let mut image = marked(alloc)?;
        put_group(&mut image, group)?;
        same(&rt, read(alloc, &image)?, Err(2));
    }
    Ok(())
}
