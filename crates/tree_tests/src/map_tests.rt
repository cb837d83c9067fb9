// Maps and their copies.
ghost use Rattle.std.specs.Prelude.{◌+◌, ◌%◌, ◌^◌};

use crate::same::same;
use shared_map::{Copied, Edit, Entries, InShared, Shared, SharedMap};
use std::alloc::{AllocError, Global};
use std::process::Abort;
use std::test::Fail;

// How many entries the maps of these tests have: some more than eight pages hold.
const COUNT: u64 = 1_000;

// The keys from 0 to 999, put in one by one from all over the map, each with its double.
fn doubles(alloc: Global) -> Result<SharedMap<u64, u64>, AllocError> {
    let mut map = SharedMap::new(alloc);
    for step in 0..COUNT {
        let key = step * 617 % COUNT;
        map.insert(&key, key * 2)?;
    }
    Ok(map)
}

fn value(map: &SharedMap<u64, u64>, key: u64) -> Option<u64> {
    map.get(&key).copied()
}

#[test]
fn entries_come_in_order(rt: HostRuntime) -> Result<(), Fail> {
    let map = doubles(rt.alloc())?;
    same(&rt, map.len(), COUNT);
    let mut wanted: u64 = 0;
    for (key, value) in map.iter() {
        same(&rt, (*key, *value), (wanted, wanted.wrapping_mul(2)));
        wanted = wanted.wrapping_add(1);
    }
    same(&rt, wanted, COUNT);
    same(&rt, value(&map, 617), Some(1_234));
    same(&rt, value(&map, 1_000), None);
    same(&rt, map.next_after(&127), Some(&(128, 256)));
    same(&rt, map.next_after(&999), None);
    Ok(())
}

// Takes out the keys that do not end in 7.
fn thin(rt: &impl Abort, map: &mut SharedMap<u64, u64>) {
    for key in 0..COUNT {
        if key % 10 != 7 {
            same(rt, map.remove(&key), Ok(Some(key * 2)));
        }
    }
}

#[test]
fn a_copy_keeps_what_the_other_loses(rt: HostRuntime) -> Result<(), Fail> {
    let before = doubles(rt.alloc())?;
    let mut after = before.copy()?;
    thin(&rt, &mut after);
    after.insert(&7, 1)?;
    same(&rt, after.remove(&8), Ok(None));
    same(&rt, after.len(), 100);
    same(&rt, value(&after, 7), Some(1));
    same(&rt, after.next_after(&7), Some(&(17, 34)));
    same(&rt, before.len(), COUNT);
    same(&rt, value(&before, 7), Some(14));
    same(&rt, before.next_after(&7), Some(&(8, 16)));
    Ok(())
}

// A map of the same entries, each of which is new when it is put in.
fn all_new(rt: &impl Abort, alloc: Global) -> SharedMap<u64, u64> {
    let mut map = SharedMap::new(alloc);
    for key in 0..COUNT {
        same(rt, map.insert_new(&key, key * 2), Ok(true));
    }
    map
}

#[test]
fn no_entries_are_none(rt: HostRuntime) {
    same(&rt, Entries::<u64, u64>::none().next(), None);
}

#[test]
fn a_new_key_is_told_from_one_that_is_there(rt: HostRuntime) -> Result<(), Fail> {
    let mut map = all_new(&rt, rt.alloc());
    let before = map.copy()?;
    same(&rt, map.insert_new(&500, 1), Ok(false));
    same(&rt, value(&map, 500), Some(1_000));
    same(&rt, map.insert_new(&1_000, 1), Ok(true));
    same(&rt, value(&map, 1_000), Some(1));
    same(&rt, map.next_after(&999), Some(&(1_000, 1)));
    same(&rt, map.len(), 1_001);
    same(&rt, before.len(), COUNT);
    same(&rt, value(&before, 1_000), None);
    Ok(())
}

// Adds to a number, and remembers what it was.
#[derive(Drop)]
struct Add {
    more: u64,
    was: u64,
}

impl Edit<u64> for Add {
    ghost edited = { λ a n. (n + a.more) % 2 ^ 64 };

    ghost left = { λ a n. record a { was = n } };

    fn edit(&mut self, value: &mut u64) -> Result<(), AllocError> {
        self.was = *value;
        *value = value.wrapping_add(self.more);
        Ok(())
    }
}

#[test]
fn a_value_is_changed_where_it_stands(rt: HostRuntime) -> Result<(), Fail> {
    let before = doubles(rt.alloc())?;
    let mut after = before.copy()?;
    let mut add = Add { more: 3, was: 0 };
    same(&rt, after.edit(&500, &mut add), Ok(true));
    same(&rt, add.was, 1_000);
    same(&rt, after.edit(&1_000, &mut add), Ok(false));
    same(&rt, add.was, 1_000);
    same(&rt, value(&after, 500), Some(1_003));
    same(&rt, value(&after, 501), Some(1_002));
    same(&rt, after.len(), COUNT);
    same(&rt, value(&before, 500), Some(1_000));
    Ok(())
}

#[test]
fn what_is_shared_is_copied_to_change_it(rt: HostRuntime) -> Result<(), Fail> {
    let mut map = SharedMap::new(rt.alloc());
    let five = Shared::new(rt.alloc(), 5_u64)?;
    map.insert(&7, five.copy()?)?;
    let mut add = InShared::new(rt.alloc(), Add { more: 1, was: 0 });
    same(&rt, map.edit(&7, &mut add), Ok(true));
    same(&rt, add.copied(), true);
    same(&rt, map.edit(&7, &mut add), Ok(true));
    same(&rt, add.copied(), false);
    same(&rt, add.into_inner().was, 6);
    same(&rt, *five.get(), 5);
    if let Some(value) = map.get(&7) {
        same(&rt, *value.get(), 7);
    }
    Ok(())
}
