// One run over the files.
use crate::outside::{Plan, PlannedInputs, PlannedOutput};
use crate::scene::Scene;
use command_line::{Access, parse};
use disk_model::{FlakyDisk, FuseDisk, MemDisk};
use guard_rules::Guard;
use send_top::run;
use std::alloc::{AllocError, Global};
use sx_base::{Blob, Disk, Inputs, Sink};

// So many bytes are read of a disk at once.
const PIECE: usize = 4096;

/// What happens at the outside of a run.
#[derive(Debug, Clone, Copy, PartialEq, Eq)]
pub(crate) struct Outside {
    pub(crate) inputs: Plan,
    pub(crate) output: Plan,
    pub(crate) notes: Plan,
    /// The call of the disk that fails, 0 for none.
    pub(crate) disk: u64,
    /// After how many calls of the disk the power is lost, and which image it leaves.
    pub(crate) power: Option<Power>,
}

/// A loss of power.
#[derive(Debug, Clone, Copy, PartialEq, Eq)]
pub(crate) struct Power {
    pub(crate) after: u64,
    pub(crate) choice: u64,
}

impl Outside {
    /// Nothing happens.
    pub(crate) fn new() -> Outside {
        Outside {
            inputs: Plan::new(),
            output: Plan::new(),
            notes: Plan::new(),
            disk: 0,
            power: None,
        }
    }
}

/// What came of a run.
#[derive(Debug, Drop)]
pub(crate) struct Ran {
    pub(crate) status: u8,
    pub(crate) out: PlannedOutput,
    pub(crate) notes: PlannedOutput,
    /// What its store has then.
    pub(crate) store: Blob,
}

/// The store that words name.
pub(crate) fn store_of<'a>(words: &'a [String]) -> Option<&'a str> {
    Some(parse(words)?.store()?.file)
}

/// The store that words make or change.
pub(crate) fn changed_by<'a>(words: &'a [String]) -> Option<&'a str> {
    let store = parse(words)?.store()?;
    match store.access {
        Access::Reads => None,
        _ => Some(store.file),
    }
}

/// Runs words over a scene, which stays as it is.
pub(crate) fn run_in(
    scene: &Scene,
    words: &[String],
    outside: &Outside,
) -> Result<Ran, AllocError> {
    let alloc = scene.alloc;
    let mut inputs = PlannedInputs::new(alloc, scene.files(), outside.inputs);
    let mut out = PlannedOutput::new(alloc, outside.output);
    let mut notes = PlannedOutput::new(alloc, outside.notes);
    let bytes = match store_of(words) {
        Some(name) => scene.bytes(name),
        None => &[],
    };
    let mut disk = faulty_disk(alloc, bytes, outside)?;
    let status = run_over(alloc, words, &mut inputs, &mut out, &mut notes, &mut disk)?;
    let disk = disk.into_inner().into_inner();
    let store = match outside.power {
        Some(power) => bytes_of(alloc, disk.crash(alloc, power.choice)?)?,
        None => bytes_of(alloc, disk)?,
    };
    Ok(Ran {
        status,
        out,
        notes,
        store,
    })
}

// A disk with these bytes, and with what happens to it.
fn faulty_disk(
    alloc: Global,
    bytes: &[u8],
    outside: &Outside,
) -> Result<FlakyDisk<FuseDisk<MemDisk>>, AllocError> {
    let mut failing = Vec::new(alloc);
    if outside.disk > 0 {
        failing.push(outside.disk)?;
    }
    let after = match outside.power {
        Some(power) => power.after,
        None => u64::MAX,
    };
    let disk = FuseDisk::new(MemDisk::new(alloc, bytes)?, after);
    Ok(FlakyDisk::new(disk, failing))
}

// What a read of a disk gives.
fn bytes_of(alloc: Global, disk: MemDisk) -> Result<Blob, AllocError> {
    let mut disk = disk;
    let mut bytes = Blob::new(alloc);
    let mut piece = [0; PIECE];
    for _ in 0..u64::MAX {
        let at = bytes.as_slice().len() as u64;
        let count = disk.read(at, &mut piece).unwrap_or(0);
        if count == 0 {
            break;
        }
        bytes.push_all(piece.get(..count).unwrap_or(&[]))?;
    }
    Ok(bytes)
}

// Runs words under the guards that they ask for.
fn run_over<I: Inputs, O: Sink, N: Sink, D: Disk>(
    alloc: Global,
    words: &[String],
    inputs: &mut I,
    out: &mut O,
    notes: &mut N,
    disk: &mut D,
) -> Result<u8, AllocError> {
    let mut guards: Vec<Box<dyn Guard>> = Vec::new(alloc);
    if let Some(request) = parse(words) {
        for guard in request.guards().new_guards(alloc)? {
            guards.push(Box::new(alloc, guard)?)?;
        }
    }
    Ok(run(alloc, words, guards, inputs, out, notes, disk))
}
