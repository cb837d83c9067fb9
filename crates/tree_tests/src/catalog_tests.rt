// That there is memory, and a catalogue as its user sees it.
use crate::same::same;
use std::alloc::{AllocError, Global};
use std::test::Fail;
use subvol_catalog::{Catalog, Entry, Key};
use sx_base::{Blob, Refusal, Stop};
use uuid::Uuid;

// A key: the byte that its UUID has sixteen times, and the transaction number.
type Short = (u8, u64);

fn name(alloc: Global, text: &str) -> Result<Blob, AllocError> {
    let mut name = Blob::new(alloc);
    name.push_all(text.as_bytes())?;
    Ok(name)
}

fn key(short: Short) -> Key {
    Key {
        uuid: Uuid::from_bytes([short.0; 16]),
        ctransid: short.1,
    }
}

fn parent_key(parent: Option<Short>) -> Option<Key> {
    Some(key(parent?))
}

fn begin(
    alloc: Global,
    catalog: &mut Catalog<u64>,
    text: &str,
    new: Short,
    parent: Option<Short>,
) -> Result<(), Stop> {
    catalog.begin(name(alloc, text)?, key(new), parent_key(parent))
}

fn add(
    alloc: Global,
    catalog: &mut Catalog<u64>,
    text: &str,
    new: Short,
    parent: Option<Short>,
    value: Option<u64>,
) -> Result<(), Stop> {
    catalog.add(Entry {
        name: name(alloc, text)?,
        key: key(new),
        parent: parent_key(parent),
        value,
    })
}

// Three subvolumes, one on the other: the first two are complete.
const CHAIN: &[(&str, Short, Option<Short>, Option<u64>)] = &[
    ("monday", (1, 10), None, Some(100)),
    ("tuesday", (2, 20), Some((1, 10)), Some(200)),
    ("wednesday", (3, 30), Some((2, 20)), None),
];

fn chain(alloc: Global) -> Result<Catalog<u64>, Stop> {
    let mut catalog = Catalog::new(alloc);
    for &(text, new, parent, value) in CHAIN {
        begin(alloc, &mut catalog, text, new, parent)?;
        if let Some(value) = value {
            catalog.complete(key(new).uuid, value);
        }
    }
    Ok(catalog)
}

const BY_KEY: &[(Short, Option<u64>)] = &[
    ((1, 10), Some(100)),
    ((2, 20), Some(200)),
    ((2, 10), None),
    ((3, 30), None),
    ((4, 40), None),
];

#[test]
fn complete_entries_are_found_by_key(rt: HostRuntime) -> Result<(), Fail> {
    let catalog = chain(rt.alloc())?;
    for &(short, value) in BY_KEY {
        same(&rt, catalog.by_key(key(short)).copied(), value);
    }
    Ok(())
}

const REFUSED: &[(&str, Short, Option<Short>, Refusal)] = &[
    ("", (1, 10), Some((9, 9)), Refusal::BadName),
    ("a/b", (4, 40), None, Refusal::BadName),
    ("..", (4, 40), None, Refusal::BadName),
    ("monday", (1, 10), Some((9, 9)), Refusal::NameThere),
    ("friday", (2, 99), Some((9, 9)), Refusal::UuidThere),
    ("friday", (4, 40), Some((9, 9)), Refusal::NoParent),
    ("friday", (4, 40), Some((2, 21)), Refusal::NoParent),
    ("friday", (4, 40), Some((3, 30)), Refusal::NoParent),
];

#[test]
fn the_first_reason_refuses(rt: HostRuntime) -> Result<(), Fail> {
    let mut catalog = chain(rt.alloc())?;
    for &(text, new, parent, refusal) in REFUSED {
        let answer = begin(rt.alloc(), &mut catalog, text, new, parent);
        same(&rt, answer, Err(Stop::Refused(refusal)));
        same(&rt, catalog.len(), 3);
    }
    Ok(())
}

#[test]
fn entries_are_added_whatever_their_parent(rt: HostRuntime) -> Result<(), Fail> {
    let mut catalog = chain(rt.alloc())?;
    let parent = Some((9, 9));
    let added = add(
        rt.alloc(),
        &mut catalog,
        "friday",
        (5, 50),
        parent,
        Some(500),
    );
    same(&rt, added, Ok(()));
    same(&rt, catalog.by_key(key((5, 50))).copied(), Some(500));
    let again = add(rt.alloc(), &mut catalog, "saturday", (5, 51), None, None);
    same(&rt, again, Err(Stop::Refused(Refusal::UuidThere)));
    Ok(())
}

fn name_at(catalog: &Catalog<u64>, place: usize) -> Option<&[u8]> {
    Some(catalog.at(place)?.name.as_slice())
}

#[test]
fn what_is_dropped_makes_room(rt: HostRuntime) -> Result<(), Fail> {
    let mut catalog = chain(rt.alloc())?;
    same(&rt, catalog.drop_name(b"tuesday"), true);
    same(&rt, catalog.drop_name(b"tuesday"), false);
    same(&rt, catalog.drop_uuid(key((1, 0)).uuid), true);
    same(&rt, catalog.drop_uuid(key((1, 0)).uuid), false);
    same(&rt, catalog.len(), 1);
    begin(rt.alloc(), &mut catalog, "monday", (2, 20), None)?;
    same(&rt, name_at(&catalog, 0), Some(b"wednesday".as_slice()));
    same(&rt, name_at(&catalog, 1), Some(b"monday".as_slice()));
    same(&rt, name_at(&catalog, 2), None);
    Ok(())
}
