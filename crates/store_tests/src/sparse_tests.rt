// What no clause says: that images of 2^40 bytes and more are judged at once. They are files with a
// hole behind their first bytes.
use crate::same::same;
use crate::streams::{NEW, OLD, judged, with_a};
use file_disk::FileDisk;
use std::fs;
use std::fs::OpenOptions;
use std::test::Fail;

// Where such a file stands.
const PATH: &str = "store_tests.sparse";

// What a file of this length is judged that begins with these bytes.
fn judged_sparse(rt: &HostRuntime, bytes: &[u8], len: u64) -> Result<Result<u64, u64>, Fail> {
    fs::write(rt, PATH, bytes)?;
    let file = OpenOptions::new().write(true).open(rt, PATH)?;
    file.set_len(len)?;
    drop(file);
    let mut disk = FileDisk::open_to_read(rt, rt.alloc(), PATH)?;
    let found = judged(rt.alloc(), &mut disk);
    drop(disk);
    fs::remove_file(rt, PATH)?;
    Ok(found)
}

// A store's first bytes, and behind them an open gate, the length of a group, and the first bytes
// of its body.
fn with_group(rt: &HostRuntime, start: &[u8], len: u64, body: &[u8]) -> Result<Vec<u8>, Fail> {
    let mut bytes = start.to_vec(rt.alloc())?;
    bytes.push(1)?;
    bytes.extend_from_slice(&len.to_le_bytes())?;
    bytes.extend_from_slice(body)?;
    Ok(bytes)
}

#[test]
fn a_store_may_have_a_hole_behind_it(rt: HostRuntime) -> Result<(), Fail> {
    let with_a = with_a(&rt, rt.alloc())?;
    for len in [1 << 40, (1 << 40) + 21, 1 << 41] {
        same(&rt, judged_sparse(&rt, b"", len)?, Err(0));
        same(&rt, judged_sparse(&rt, NEW, len)?, Ok(0));
        same(&rt, judged_sparse(&rt, &OLD[..20], len)?, Ok(0));
        same(&rt, judged_sparse(&rt, &with_a, len)?, Ok(1));
    }
    Ok(())
}

// The first bytes of the edits of `a` in version 1, behind the kind of their group.
const EDITS: &[u8; 17] = b"AAAAAAAAAAAAAAAA\x01";

// Whether a group of this kind is at fault behind a store's first bytes with the groups before it,
// however long it says that it is.
fn is_at_fault(rt: &HostRuntime, start: &[u8], group: u64, kind: u8) -> Result<bool, Fail> {
    let mut body = [kind; 18];
    body[1..].copy_from_slice(EDITS);
    for len in [1 << 40, (1 << 40) + 1, 1 << 41, u64::MAX] {
        let bytes = with_group(rt, start, len, &body)?;
        if judged_sparse(rt, &bytes, (1 << 40) + 1000)? != Err(group) {
            return Ok(false);
        }
    }
    Ok(true)
}

#[test]
fn a_group_of_a_terabyte_is_at_fault_at_once(rt: HostRuntime) -> Result<(), Fail> {
    let with_a = with_a(&rt, rt.alloc())?;
    same(&rt, with_a.len() > 81, true);
    let head = &with_a[..with_a.len().min(81)];
    for kind in 0..8 {
        same(
            &rt,
            (kind, is_at_fault(&rt, &OLD[..20], 1, kind)?),
            (kind, true),
        );
        same(
            &rt,
            (kind, is_at_fault(&rt, &NEW[..20], 1, kind)?),
            (kind, true),
        );
        same(&rt, (kind, is_at_fault(&rt, head, 2, kind)?), (kind, true));
    }
    Ok(())
}
