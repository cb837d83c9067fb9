// The snapshots of the store that words name, as `list` prints them. Its file is opened anew to be
// read alone.
use crate::barred_inputs::BarredInputs;
use crate::statuses::DONE;
use file_disk::FileDisk;
use guard_rules::number_of;
use send_top::run;
use std::alloc::{AllocError, Global};
use std::fs::{File, Files};
use sx_base::MemSink;
use uuid::Uuid;

/// The lines of `list`.
#[derive(Debug, Drop)]
pub(crate) struct StoredList {
    lines: MemSink,
}

impl StoredList {
    /// The lines of the store of a name. None where there is no store, or it can not be listed.
    pub(crate) fn of<R: Files<File = File>>(
        files: &R,
        alloc: Global,
        store: Option<&str>,
    ) -> Option<StoredList> {
        let path = store?;
        let mut disk = FileDisk::open_to_read(files, alloc, path).ok()?;
        let asked = list_words(alloc, path).ok()?;
        let mut inputs = BarredInputs::new();
        let mut lines = MemSink::new(alloc);
        let mut notes = MemSink::new(alloc);
        let guards = Vec::new(alloc);
        let asked = asked.as_slice();
        match run(
            alloc,
            asked,
            guards,
            &mut inputs,
            &mut lines,
            &mut notes,
            &mut disk,
        ) {
            DONE => Some(StoredList { lines }),
            _ => None,
        }
    }

    /// The CTRANSID of the complete snapshot with a UUID.
    pub(crate) fn ctransid_of(&self, uuid: Uuid) -> Option<u64> {
        for line in self.lines.bytes().split(|byte| *byte == b'\n') {
            if has_uuid(line, uuid) && state_of(line) == b"complete".as_slice() {
                return number_of(field_of(line, 2));
            }
        }
        None
    }

    /// Whether the snapshot with a UUID is unfinished.
    pub(crate) fn begun(&self, uuid: Uuid) -> bool {
        for line in self.lines.bytes().split(|byte| *byte == b'\n') {
            if has_uuid(line, uuid) {
                return state_of(line) == b"unfinished".as_slice();
            }
        }
        false
    }

    /// Whether the snapshot whose name is printed so is unfinished.
    pub(crate) fn begun_as(&self, name: &[u8]) -> bool {
        for line in self.lines.bytes().split(|byte| *byte == b'\n') {
            if field_of(line, 0) == name {
                return state_of(line) == b"unfinished".as_slice();
            }
        }
        false
    }
}

// The words that ask for the list of a store.
fn list_words(alloc: Global, store: &str) -> Result<Vec<String>, AllocError> {
    let mut words = Vec::new(alloc);
    words.push(String::from_str(alloc, "list")?)?;
    words.push(String::from_str(alloc, store)?)?;
    Ok(words)
}

// Whether a line is that of a snapshot with a UUID.
fn has_uuid(line: &[u8], uuid: Uuid) -> bool {
    match Uuid::try_parse_ascii(field_of(line, 1)) {
        Ok(found) => found == uuid,
        Err(_) => false,
    }
}

fn state_of(line: &[u8]) -> &[u8] {
    field_of(line, 3)
}

// The field of a line at a place, counted from 0; none where there are fewer.
fn field_of(line: &[u8], place: usize) -> &[u8] {
    line.split(|byte| *byte == b' ').nth(place).unwrap_or(&[])
}
