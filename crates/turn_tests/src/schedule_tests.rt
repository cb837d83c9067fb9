// Every schedule of eight turns over two files, against receiving the completed parts one after the
// other.
use crate::same::same;
use crate::turn_tests::{
    A, B, C, DONE, Files, LINE_A, LINES_AB, LINES_AC, LINES_CA, both_guards, input_files,
    interleaved, new_store, refusal,
};
use disk_model::MemDisk;
use part_names::{NamedFiles, Overrides};
use std::alloc::Global;
use std::test::Fail;
use store_commands::{StoreEnd, receive_store, show_entry};
use sx_base::{MemSink, Refusal};

// The schedule of eight turns that a number gives.
fn schedule_of(number: u32) -> [u8; 8] {
    let mut schedule = [b'0'; 8];
    for i in 0..8 {
        if number / (1 << i as u32) % 2 == 1 {
            schedule[i] = b'1';
        }
    }
    schedule
}

// How often the first session has its turn before the second one has its first, and whether that
// has one.
fn turns_before(schedule: &[u8]) -> (u64, bool) {
    let mut count = 0u64;
    for i in 0..schedule.len() {
        if schedule[i] == b'1' {
            return (count, true);
        }
        count = count.saturating_add(1);
    }
    (count, false)
}

// Whether two stores show the same of the subvolume of a name.
fn shows_same(alloc: Global, one: &mut MemDisk, other: &mut MemDisk, name: &[u8]) -> bool {
    let mut shown = MemSink::new(alloc);
    let mut again = MemSink::new(alloc);
    let end = show_entry(alloc, one, name, &mut shown);
    let other_end = show_entry(alloc, other, name, &mut again);
    end == DONE && other_end == DONE && shown.bytes() == again.bytes()
}

// Whether receiving files one after the other writes these lines and leaves the subvolumes of these
// names as a store has them.
fn is_one_by_one(
    alloc: Global,
    disk: &mut MemDisk,
    all: &[&[u8]],
    lines: &[u8],
    names: &[&[u8]],
) -> Result<bool, Fail> {
    let mut other = new_store(alloc)?;
    let mut out = MemSink::new(alloc);
    let Files {
        mut inputs,
        names: files,
    } = input_files(alloc, all)?;
    let mut guards = both_guards(alloc, 100)?;
    let Some(mut own) = guards.pop() else {
        return Ok(false);
    };
    let names_of_parts = Overrides::none(alloc);
    let given = NamedFiles {
        alloc,
        files: &files,
        overrides: &names_of_parts,
    };
    let end = receive_store(&given, &mut other, &mut inputs, &mut own, &mut out);
    let mut is_same = end == DONE && out.bytes() == lines;
    for name in names.iter() {
        is_same = is_same && shows_same(alloc, disk, &mut other, name);
    }
    Ok(is_same)
}

// Whether a schedule over `a` and `c` leaves what receiving them in the order of their completion
// leaves.
fn apart_is_right(alloc: Global, number: u32) -> Result<bool, Fail> {
    let schedule = schedule_of(number);
    let mut disk = new_store(alloc)?;
    let mut out = MemSink::new(alloc);
    let end = interleaved(alloc, &mut disk, &schedule, &[A, C], 100, &mut out)?;
    let in_order = if out.bytes() == LINES_AC {
        is_one_by_one(alloc, &mut disk, &[A, C], LINES_AC, &[b"a", b"c"])?
    } else {
        is_one_by_one(alloc, &mut disk, &[C, A], LINES_CA, &[b"a", b"c"])?
            && out.bytes() == LINES_CA
    };
    Ok(end == DONE && in_order)
}

// Whether a schedule over `a` and its snapshot is refused where the snapshot begins before `a` is
// complete, and only there.
fn behind_is_right(alloc: Global, number: u32) -> Result<bool, Fail> {
    let schedule = schedule_of(number);
    let mut disk = new_store(alloc)?;
    let mut out = MemSink::new(alloc);
    let end = interleaved(alloc, &mut disk, &schedule, &[A, B], 100, &mut out)?;
    let (before, has_turn) = turns_before(&schedule);
    if has_turn && before < 4 {
        return Ok(
            end == refusal(2, 1, 17, Refusal::NoParent)
                && out.bytes() == LINE_A
                && is_one_by_one(alloc, &mut disk, &[A], LINE_A, &[b"a"])?,
        );
    }
    Ok(
        end == DONE
            && out.bytes() == LINES_AB
            && is_one_by_one(alloc, &mut disk, &[A, B], LINES_AB, &[b"a", b"b"])?,
    )
}

// Whether a schedule over `a`, whose guard refuses its WRITE, and `c` is refused there, and `c` is
// complete.
fn guarded_is_right(alloc: Global, number: u32) -> Result<bool, Fail> {
    let schedule = schedule_of(number);
    let mut disk = new_store(alloc)?;
    let mut out = MemSink::new(alloc);
    let end: StoreEnd = interleaved(alloc, &mut disk, &schedule, &[A, C], 1, &mut out)?;
    let line = b"complete c 33333333-3333-3333-3333-333333333333 3\n";
    Ok(
        end == refusal(1, 3, 79, Refusal::Guarded { guard: 0, used: 0 })
            && out.bytes() == line.as_slice()
            && is_one_by_one(alloc, &mut disk, &[C], line, &[b"c"])?,
    )
}

#[test]
fn each_schedule_is_one_after_the_other(rt: HostRuntime) -> Result<(), Fail> {
    let alloc = rt.alloc();
    for number in 0..256 {
        same(&rt, apart_is_right(alloc, number)?, true);
        same(&rt, behind_is_right(alloc, number)?, true);
        same(&rt, guarded_is_right(alloc, number)?, true);
    }
    Ok(())
}
