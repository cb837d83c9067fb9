// How compose asks for its files, up to their ends: its contract says in which order, and not how
// far.
ghost use Rattle.std.specs.Prelude.{◌≡◌, None, map, string_bytes};

use crate::same::same;
use crate::streams::{CLONE_FROM_A, END, FIRST, HEADER, MKFILE_Y, SNAPSHOT_B, joined};
use crate::values::two_names;
use composer::compose;
use part_names::Overrides;
use std::alloc::{AllocError, Global};
use std::test::Fail;
use sx_base::{Failed, Inputs, Lost, MemSink, Outcome, PlainInputs};

// A stream that goes on from the first, with a clone of its data.
const SECOND: &[&[u8]] = &[HEADER, SNAPSHOT_B, MKFILE_Y, CLONE_FROM_A, END];

// Where the data of the first stream stand.
const PLACE: u64 = 110;

// A call that gave bytes of a file, or none at its end; or that asked for bytes again.
#[derive(Drop)]
struct Call {
    name: String,
    at: u64,
    count: usize,
    again: bool,
}

// Files in memory that tell nothing and keep the list of their calls, as long as none fails.
#[derive(Drop)]
struct ListedInputs {
    alloc: Global,
    files: PlainInputs,
    calls: Vec<Call>,
    ended: bool,
    faults: u64,
    ends: u64,
    last_name: String,
    last_place: u64,
}

impl Inputs for ListedInputs {
    ghost told = { λ _. None };

    ghost faults = { λ s. s.faults };

    ghost ends = { λ s. s.ends };

    ghost last_end = { λ s. record { name = string_bytes s.last_name; place = s.last_place } };

    ghost asked = { λ s asks. s.faults ≡ 0 → s.ends ≡ 0 → asks ≡ map (λ call. record {
      name = string_bytes call.name;
      place = call.at;
      count = call.count;
      again = call.again;
    }) s.calls.items };

    fn read_at(&mut self, name: &str, at: u64, buf: &mut [u8]) -> Result<usize, Failed> {
        let Ok(copy) = String::from_str(self.alloc, name) else {
            self.faults = self.faults.saturating_add(1);
            return Err(Failed);
        };
        let Ok(count) = self.files.read_at(name, at, buf) else {
            self.faults = self.faults.saturating_add(1);
            return Err(Failed);
        };
        let call = Call {
            name: copy,
            at,
            count,
            again: false,
        };
        if self.calls.push(call).is_err() {
            self.faults = self.faults.saturating_add(1);
            return Err(Failed);
        }
        Ok(count)
    }

    fn read_again(&mut self, name: &str, at: u64, buf: &mut [u8]) -> Result<(), Lost> {
        let Ok(copy) = String::from_str(self.alloc, name) else {
            self.faults = self.faults.saturating_add(1);
            return Err(Lost::Failed);
        };
        if self.ended && !buf.is_empty() {
            self.ends = self.ends.saturating_add(1);
            self.last_name = copy;
            self.last_place = at;
            return Err(Lost::Ended { place: at });
        }
        let again = Call {
            name: copy,
            at,
            count: buf.len(),
            again: true,
        };
        if self.calls.push(again).is_err() {
            self.faults = self.faults.saturating_add(1);
            return Err(Lost::Failed);
        }
        for byte in buf {
            *byte = b'h';
        }
        Ok(())
    }
}

// Whether the calls that ask for no byte again are for these files, one file after the other, each
// from its first byte to its last.
fn read_in_order(calls: &[Call], files: &[(&str, u64)]) -> bool {
    let mut read = 0;
    let mut place = 0;
    for call in calls {
        if call.again {
            continue;
        }
        let ended = files.get(read).is_some_and(|file| file.1 == place);
        if ended && call.at == 0 {
            read += 1;
            place = 0;
        }
        let asked = files
            .get(read)
            .is_some_and(|file| file.0 == call.name.as_str());
        if !asked || call.at != place {
            return false;
        }
        place = place.saturating_add(call.count as u64);
    }
    files.len().checked_sub(1) == Some(read) && files.last().is_some_and(|file| file.1 == place)
}

// The two files, whose data are gone when they are asked for again, or are not.
fn two_files(alloc: Global, ended: bool) -> Result<ListedInputs, AllocError> {
    let mut files = PlainInputs::new(alloc);
    files.add("first", joined(alloc, FIRST)?.as_slice())?;
    files.add("other", b"never read")?;
    files.add("second", joined(alloc, SECOND)?.as_slice())?;
    Ok(ListedInputs {
        alloc,
        files,
        calls: Vec::new(alloc),
        ended,
        faults: 0,
        ends: 0,
        last_name: String::new(alloc),
        last_place: 0,
    })
}

// How composing the two files ends.
fn composed(alloc: Global, inputs: &mut ListedInputs) -> Result<Outcome, AllocError> {
    let names = two_names(alloc)?;
    let own = Overrides::none(alloc);
    let mut out = MemSink::new(alloc);
    Ok(compose(alloc, inputs, &names, &own, &mut out))
}

// Whether the calls are two passes over the two files.
fn are_passes(alloc: Global, calls: &[Call]) -> Result<bool, AllocError> {
    let first = ("first", joined(alloc, FIRST)?.len() as u64);
    let second = ("second", joined(alloc, SECOND)?.len() as u64);
    Ok(read_in_order(calls, &[first, second, first, second]))
}

// Whether there is one call that asks again, for the data of the first stream.
fn is_for_data(calls: &[Call]) -> bool {
    let mut found = false;
    for call in calls {
        if call.again {
            if found || call.name.as_str() != "first" || call.at != PLACE || call.count != 2 {
                return false;
            }
            found = true;
        }
    }
    found
}

#[test]
fn each_file_is_asked_for_once_in_a_pass(rt: HostRuntime) -> Result<(), Fail> {
    let mut inputs = two_files(rt.alloc(), false)?;
    same(&rt, composed(rt.alloc(), &mut inputs)?, Outcome::Done);
    same(&rt, are_passes(rt.alloc(), inputs.calls.as_slice())?, true);
    // The data of the vanishing part are asked for again, in a call of its own, and so no byte of
    // them was kept.
    same(&rt, is_for_data(inputs.calls.as_slice()), true);
    Ok(())
}

#[test]
fn data_that_are_gone_are_no_data(rt: HostRuntime) -> Result<(), Fail> {
    let mut inputs = two_files(rt.alloc(), true)?;
    let gone = Outcome::InputChanged {
        file: 1,
        place: PLACE,
    };
    same(&rt, composed(rt.alloc(), &mut inputs)?, gone);
    Ok(())
}
