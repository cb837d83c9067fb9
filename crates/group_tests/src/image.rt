// Images of journals that are made group by group, and what is read of them.
use clone_resolve::EditCore;
use crc32c_part::update;
use disk_model::MemDisk;
use group_log::Log;
use group_replay::{Place, Window, take_group};
use std::alloc::{AllocError, Global};
use std::test::Fail;
use sx_base::Disk;

// The number of the command that makes a file, and the attribute of its path.
const MKFILE: u16 = 3;

const PATH: u16 = 15;

// The header of an image of a format.
pub(crate) fn header(alloc: Global, format: u8) -> Result<Vec<u8>, AllocError> {
    let mut image = b"sndstore".to_vec(alloc)?;
    image.extend_from_slice(&[format, 0, 0, 0, 0, 0, 0, 0, 0, 1, 0, 0])?;
    Ok(image)
}

// Appends a group without a checksum.
pub(crate) fn put_group(image: &mut Vec<u8>, body: &[u8]) -> Result<(), AllocError> {
    image.push(1)?;
    image.extend_from_slice(&(body.len() as u64).to_le_bytes())?;
    image.extend_from_slice(body)
}

// Appends a group with the checksum of its bytes.
pub(crate) fn put_sealed(
    alloc: Global,
    image: &mut Vec<u8>,
    body: &[u8],
) -> Result<(), AllocError> {
    let mut all = body.to_vec(alloc)?;
    all.extend_from_slice(&update(0, body).to_le_bytes())?;
    put_group(image, &all)
}

// Appends an attribute with a length.
pub(crate) fn put_attribute(body: &mut Vec<u8>, kind: u16, bytes: &[u8]) -> Result<(), AllocError> {
    body.extend_from_slice(&kind.to_le_bytes())?;
    body.extend_from_slice(&((bytes.len() % 65_536) as u16).to_le_bytes())?;
    body.extend_from_slice(bytes)
}

// Appends the frame of a command with this number and these attributes.
pub(crate) fn put_frame(to: &mut Vec<u8>, number: u16, body: &[u8]) -> Result<(), AllocError> {
    let len = ((body.len() % 262_145) as u32).to_le_bytes();
    let command = number.to_le_bytes();
    let sum = update(update(update(update(0, &len), &command), &[0; 4]), body);
    to.extend_from_slice(&len)?;
    to.extend_from_slice(&command)?;
    to.extend_from_slice(&sum.to_le_bytes())?;
    to.extend_from_slice(body)
}

// A group of the head of a subvolume `a`, of the UUID of sixteen bytes 17: with this first byte.
pub(crate) fn mark(alloc: Global, first: u8) -> Result<Vec<u8>, AllocError> {
    let mut attributes = Vec::new(alloc);
    put_attribute(&mut attributes, 1, &[17; 16])?;
    put_attribute(&mut attributes, 2, &1u64.to_le_bytes())?;
    put_attribute(&mut attributes, PATH, b"a")?;
    let mut group = Vec::new(alloc);
    group.push(first)?;
    put_frame(&mut group, 1, &attributes)?;
    Ok(group)
}

// What stands in front of the frames of its edits, and that of a file `x` that is made.
pub(crate) fn edits(alloc: Global, first: u8, version: u8) -> Result<Vec<u8>, AllocError> {
    let mut group = Vec::new(alloc);
    group.push(first)?;
    group.extend_from_slice(&[17; 16])?;
    group.push(version)?;
    let mut attributes = Vec::new(alloc);
    put_attribute(&mut attributes, PATH, b"x")?;
    put_frame(&mut group, MKFILE, &attributes)?;
    Ok(group)
}

// How many entries the groups of an image make, or which group is at fault.
pub(crate) fn read(alloc: Global, image: &[u8]) -> Result<Result<usize, u64>, Fail> {
    let mut bytes = image.to_vec(alloc)?;
    bytes.push(0)?;
    let mut disk = MemDisk::new(alloc, &bytes)?;
    read_from(alloc, &mut disk)
}

// The same of what a disk has.
fn read_from<D: Disk>(alloc: Global, disk: &mut D) -> Result<Result<usize, u64>, Fail> {
    let mut log = Log::open(disk)?;
    let mut core: EditCore<Place> = EditCore::new(alloc);
    let mut window = Window::new(alloc);
    for _ in 0..u64::MAX {
        let Some(group) = log.next(disk)? else {
            return Ok(Ok(core.catalog().len()));
        };
        if !take_group(&log, disk, &mut core, group, &mut window)? {
            return Ok(Err(group.number));
        }
    }
    Ok(Err(0))
}
