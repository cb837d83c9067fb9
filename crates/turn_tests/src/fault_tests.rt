// Disks that stop or fail, inputs and outputs that fail, and what of the store is there afterwards.
use crate::places::are_places;
use crate::same::same;
use crate::turn_tests::{
    A, C, DONE, Files, LINES_CA, both_guards, input_files, interleaved, new_store,
};
use disk_model::{FlakyDisk, FuseDisk, MemDisk};
use std::alloc::Global;
use std::test::Fail;
use store_commands::StoreEnd;
use store_journal::Store;
use sx_base::{MemSink, Outcome};
use turn_sessions::{Task, interleave_store};

const LINE_C: &[u8] = b"complete c 33333333-3333-3333-3333-333333333333 3\n";

// How many calls of a disk receiving both files makes at the most, and how many of the inputs.
const MOST: u64 = 70;

const MOST_OF_INPUTS: u64 = 10;

// How many entries of a store are complete, and how many are not.
fn entries_in(store: &Store) -> (u64, u64) {
    let catalog = store.core().catalog();
    let (mut complete, mut others) = (0u64, 0u64);
    for i in 0..catalog.len() {
        match catalog.at(i) {
            Some(entry) if entry.value.is_some() => complete = complete.saturating_add(1),
            _ => others = others.saturating_add(1),
        }
    }
    (complete, others)
}

// How many lines of the parts stand whole in what was written, `c` first. None where anything else
// stands there.
fn lines_in(written: &[u8]) -> Option<u64> {
    if written.is_empty() {
        return Some(0);
    }
    if written == LINE_C {
        return Some(1);
    }
    if written == LINES_CA {
        return Some(2);
    }
    None
}

// Whether a store can be opened that has a complete entry for each line, two entries at the most,
// and no others.
fn is_there(alloc: Global, disk: &mut MemDisk, written: &[u8]) -> Result<bool, Fail> {
    let Some(lines) = lines_in(written) else {
        return Ok(false);
    };
    let Ok(store) = Store::open(disk, alloc) else {
        return Ok(false);
    };
    let (complete, others) = entries_in(&store);
    Ok(lines <= complete && complete <= 2 && others <= 2 - complete)
}

// Whether an end is that of the disk's fault, or all was done.
fn is_told(end: StoreEnd, written: &[u8]) -> bool {
    end == StoreEnd::StoreFault || (end == DONE && lines_in(written) == Some(2))
}

// Whether a disk that stops after some calls has, whatever a loss of power makes of it, what was
// acknowledged.
fn stop_is_survived(alloc: Global, calls: u64) -> Result<bool, Fail> {
    let mut disk = FuseDisk::new(new_store(alloc)?, calls);
    let mut out = MemSink::new(alloc);
    let end = interleaved(alloc, &mut disk, b"01111", &[A, C], 100, &mut out)?;
    let inside = disk.into_inner();
    let mut is_well = is_told(end, out.bytes());
    for choice in 0..8 {
        let mut crashed = inside.crash(alloc, choice)?;
        is_well = is_well && is_there(alloc, &mut crashed, out.bytes())?;
    }
    Ok(is_well)
}

#[test]
fn a_disk_stops_after_each_call(rt: HostRuntime) -> Result<(), Fail> {
    let alloc = rt.alloc();
    for calls in 0..MOST {
        same(&rt, stop_is_survived(alloc, calls)?, true);
    }
    Ok(())
}

// Whether a disk one call of which fails is told, and has what was acknowledged.
fn fault_is_survived(alloc: Global, call: u64) -> Result<bool, Fail> {
    let mut failing = Vec::new(alloc);
    failing.push(call)?;
    let mut disk = FlakyDisk::new(new_store(alloc)?, failing);
    let mut out = MemSink::new(alloc);
    let end = interleaved(alloc, &mut disk, b"01111", &[A, C], 100, &mut out)?;
    let mut inside = disk.into_inner();
    Ok(is_told(end, out.bytes()) && is_there(alloc, &mut inside, out.bytes())?)
}

#[test]
fn each_call_of_a_disk_fails_once(rt: HostRuntime) -> Result<(), Fail> {
    let alloc = rt.alloc();
    for call in 0..MOST {
        same(&rt, fault_is_survived(alloc, call)?, true);
    }
    Ok(())
}

// Whether inputs one call of which fails are told, and the store has what was acknowledged.
fn input_is_told(alloc: Global, call: u64) -> Result<bool, Fail> {
    let mut disk = new_store(alloc)?;
    let mut out = MemSink::new(alloc);
    let Files { mut inputs, names } = input_files(alloc, &[A, C])?;
    inputs.fail_call(call)?;
    let guards = both_guards(alloc, 100)?;
    if guards.len() != names.len() || !are_places(b"01111", names.len()) {
        return Ok(false);
    }
    let task = Task {
        alloc,
        files: names.as_slice(),
        schedule: b"01111",
    };
    let end = interleave_store(&task, &mut disk, &mut inputs, guards, &mut out);
    let is_told = end == StoreEnd::Ends(Outcome::InputFault)
        || (end == DONE && lines_in(out.bytes()) == Some(2));
    Ok(is_told && is_there(alloc, &mut disk, out.bytes())?)
}

#[test]
fn each_call_of_the_inputs_fails_once(rt: HostRuntime) -> Result<(), Fail> {
    let alloc = rt.alloc();
    for call in 1..MOST_OF_INPUTS {
        same(&rt, input_is_told(alloc, call)?, true);
    }
    Ok(())
}

// Whether an output one call of which fails is told, and the part whose line failed is complete.
fn output_is_told(alloc: Global, call: u64, complete: u64) -> Result<bool, Fail> {
    let mut disk = new_store(alloc)?;
    let mut out = MemSink::new(alloc);
    out.fail_call(call)?;
    let end = interleaved(alloc, &mut disk, b"01111", &[A, C], 100, &mut out)?;
    let store = Store::open(&mut disk, alloc)?;
    let (there, _others) = entries_in(&store);
    let lines = lines_in(out.bytes());
    Ok(
        end == StoreEnd::Ends(Outcome::OutputFault)
            && there == complete
            && lines == Some(complete.saturating_sub(1)),
    )
}

#[test]
fn each_call_of_the_output_fails_once(rt: HostRuntime) -> Result<(), Fail> {
    let alloc = rt.alloc();
    same(&rt, output_is_told(alloc, 1, 1)?, true);
    same(&rt, output_is_told(alloc, 2, 2)?, true);
    Ok(())
}

// Whether all is done where only a call behind those of the tables fails.
fn behind_is_done(alloc: Global) -> Result<bool, Fail> {
    let mut disk = FuseDisk::new(new_store(alloc)?, MOST);
    let mut out = MemSink::new(alloc);
    let end = interleaved(alloc, &mut disk, b"01111", &[A, C], 100, &mut out)?;
    let mut other = new_store(alloc)?;
    let mut again = MemSink::new(alloc);
    let Files { mut inputs, names } = input_files(alloc, &[A, C])?;
    inputs.fail_call(MOST_OF_INPUTS)?;
    let guards = both_guards(alloc, 100)?;
    if guards.len() != names.len() || !are_places(b"01111", names.len()) {
        return Ok(false);
    }
    let task = Task {
        alloc,
        files: names.as_slice(),
        schedule: b"01111",
    };
    let other_end = interleave_store(&task, &mut other, &mut inputs, guards, &mut again);
    Ok(end == DONE && other_end == DONE && again.bytes() == LINES_CA)
}

#[test]
fn the_tables_reach_each_call(rt: HostRuntime) -> Result<(), Fail> {
    same(&rt, behind_is_done(rt.alloc())?, true);
    Ok(())
}
