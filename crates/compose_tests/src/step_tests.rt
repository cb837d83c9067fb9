// Chains of parts. The commands stand in tables, so that each test is a loop over one helper.
ghost use Rattle.std.specs.Prelude.{◌≡◌, [], ◌^◌, ◌<◌, IsTrue, is_some, length};
ghost use Rattle.send_model.specs.Store.{head_of};
ghost use Rattle.send_commands.specs.Meaning.{meaning_of};
ghost use Rattle.clone_resolve.specs.Steps.{data_len, done_by, Fits};
ghost use Rattle.clone_resolve.specs.declared.done.Done.TheVariants as did;

use crate::same::same;
use crate::values::{key, uuid};
use clone_resolve::{EditCore, Part};
use extent_map::Nowhere;
use send_commands::Command;
use std::alloc::Global;
use std::process::Abort;
use std::test::Fail;
use subvol::Subvol;
use sx_base::Stop;

// What a command of a test does.
#[derive(Clone, Copy)]
enum Word {
    Subvol,
    Snapshot,
    MkFile,
    MkDir,
    Link,
    Rename,
    Write,
    Clone,
    Truncate,
    Fallocate,
    Chmod,
    End,
}

// A command, and the number of its refusal, 0 where it is taken. First a byte: a UUID is sixteen
// times this byte, and it is the transaction number too; or the bits of a FALLOCATE's mode. Then
// the path, the other path or the data, and a number: the parent's transaction number, the length,
// the size, the mode, or the place.
type Row = (Word, u8, &'static [u8], &'static [u8], u64, u64);

fn command<'a>(word: Word, id: u8, path: &'a [u8], other: &'a [u8], number: u64) -> Command<'a>
    requires short { length other.now < 2 ^ 64 }
    ensures short { data_len (meaning_of result) < 2 ^ 64 }
{
    match word {
        Word::Subvol => Command::Subvol {
            uuid: uuid(id),
            ctransid: u64::from(id),
            path,
        },
        Word::Snapshot => Command::Snapshot {
            uuid: uuid(id),
            ctransid: u64::from(id),
            path,
            clone_uuid: uuid(1),
            clone_ctransid: number,
        },
        Word::MkFile => Command::MkFile { path },
        Word::MkDir => Command::MkDir { path },
        Word::Link => Command::Link {
            path,
            path_link: other,
        },
        Word::Rename => Command::Rename {
            path,
            path_to: other,
        },
        Word::Write => Command::Write {
            path,
            offset: number,
            bytes: other,
        },
        Word::Clone => Command::Clone {
            path,
            offset: 0,
            clone_uuid: uuid(id),
            clone_ctransid: u64::from(id),
            clone_path: other,
            clone_offset: 0,
            clone_len: number,
        },
        Word::Truncate => Command::Truncate { size: number, path },
        Word::Fallocate => Command::Fallocate {
            size: number,
            path,
            offset: 0,
            mode: u32::from(id),
        },
        Word::Chmod => Command::Chmod { mode: number, path },
        Word::End => Command::End,
    }
}

fn command_of(row: Row) -> Command<'static>
    ensures short { data_len (meaning_of result) < 2 ^ 64 }
{
    let (word, id, path, other, number, _want) = row;
    let _len = other.len();
    command(word, id, path, other, number)
}

// The number of the refusal of a command, 0 where it is taken; an error where there is no memory.
fn number_of(
    core: &mut EditCore<Nowhere>,
    part: &mut Option<Part<Nowhere>>,
    c: &Command<'_>,
) -> Result<u64, Stop>
    requires fits { Fits core.old part.old }
    requires short { data_len (meaning_of c.now) < 2 ^ 64 }
    ensures fits { Fits core.new part.new }
{
    match core.step(part, c, Nowhere) {
        Ok(_done) => Ok(0),
        Err(Stop::Refused(refusal)) => Ok(refusal.number()),
        Err(Stop::NoMemory) => Err(Stop::NoMemory),
    }
}

// How many inodes the part has copied after these rows, each with its number; none without a part.
fn copied_after(rt: &impl Abort, alloc: Global, rows: &[Row]) -> Result<Option<u64>, Fail> {
    let mut core = EditCore::new(alloc);
    let mut part = None;
    for row in rows {
        let c = command_of(*row);
        let answer = number_of(&mut core, &mut part, &c)?;
        same(rt, answer, row.5);
    }
    Ok(copied(&part))
}

fn copied(part: &Option<Part<Nowhere>>) -> Option<u64> {
    match part {
        Some(part) => Some(part.sub().copied()),
        None => None,
    }
}

const CLONES: &[Row] = &[
    (Word::Subvol, 1, b"a", b"", 0, 0),
    (Word::MkFile, 0, b"x", b"", 0, 0),
    (Word::Write, 0, b"x", b"aa", 4_998, 0),
    (Word::MkFile, 0, b"y", b"", 0, 0),
    (Word::Clone, 1, b"y", b"x", 904, 30),
    (Word::Clone, 1, b"y", b"x", 0, 29),
    (Word::Clone, 1, b"y", b"x", 5_001, 29),
    (Word::Clone, 9, b"y", b"x", 4_096, 28),
    (Word::Clone, 9, b"z", b"z", 4_096, 28),
    (Word::Clone, 9, b"z/", b"x", 4_096, 14),
    (Word::Clone, 9, b"y", b"x/", 4_096, 14),
    (Word::Clone, 1, b"x", b"x", 4_096, 31),
    (Word::Clone, 1, b"y", b"x", 4_096, 0),
    (Word::Clone, 1, b"y", b"x", 5_000, 0),
    (Word::Truncate, 0, b"y", b"", 6_000, 0),
    (Word::Clone, 1, b"y", b"x", 5_000, 0),
    (Word::Snapshot, 2, b"b", b"", 1, 0),
    (Word::Clone, 1, b"x", b"y", 6_000, 0),
];

#[test]
fn clones_are_taken_or_refused(rt: HostRuntime) -> Result<(), Fail> {
    same(&rt, copied_after(&rt, rt.alloc(), CLONES)?, Some(1));
    Ok(())
}

const RENAMES: &[Row] = &[
    (Word::Subvol, 1, b"a", b"", 0, 0),
    (Word::MkFile, 0, b"x", b"", 0, 0),
    (Word::Link, 0, b"y", b"x", 0, 0),
    (Word::Rename, 0, b"x", b"y", 0, 0),
    (Word::MkFile, 0, b"x", b"", 0, 17),
    (Word::MkFile, 0, b"y", b"", 0, 17),
    (Word::MkDir, 0, b"d", b"", 0, 0),
    (Word::MkDir, 0, b"e", b"", 0, 0),
    (Word::MkFile, 0, b"e/f", b"", 0, 0),
    (Word::Rename, 0, b"d", b"e", 0, 19),
    (Word::Rename, 0, b"d", b"d/g", 0, 20),
    (Word::Fallocate, 3, b"x", b"", 1, 0),
    (Word::Fallocate, 0, b"x", b"", 5, 0),
    (Word::Fallocate, 2, b"x", b"", 1, 34),
];

#[test]
fn names_move(rt: HostRuntime) -> Result<(), Fail> {
    same(&rt, copied_after(&rt, rt.alloc(), RENAMES)?, Some(0));
    Ok(())
}

const HEADS: &[Row] = &[
    (Word::MkFile, 0, b"x", b"", 0, 9),
    (Word::Subvol, 1, b"a/b", b"", 0, 10),
    (Word::Subvol, 1, b"a", b"", 0, 0),
    (Word::MkFile, 0, b"x", b"", 0, 0),
    (Word::Snapshot, 2, b"a", b"", 9, 11),
    (Word::MkFile, 0, b"y", b"", 0, 9),
    (Word::Snapshot, 1, b"b", b"", 9, 12),
    (Word::Snapshot, 2, b"b", b"", 9, 13),
    (Word::Snapshot, 2, b"b", b"", 1, 0),
    (Word::MkFile, 0, b"x", b"", 0, 17),
    (Word::End, 0, b"", b"", 0, 0),
];

#[test]
fn heads_begin_parts(rt: HostRuntime) -> Result<(), Fail> {
    same(&rt, copied_after(&rt, rt.alloc(), HEADS)?, None);
    Ok(())
}

const SNAPSHOTS: &[Row] = &[
    (Word::Subvol, 1, b"a", b"", 0, 0),
    (Word::MkFile, 0, b"x", b"", 0, 0),
    (Word::MkFile, 0, b"y", b"", 0, 0),
    (Word::MkFile, 0, b"z", b"", 0, 0),
    (Word::Snapshot, 2, b"b", b"", 1, 0),
    (Word::Chmod, 0, b"x", b"", 0o755, 0),
    (Word::Snapshot, 3, b"c", b"", 1, 0),
    (Word::Chmod, 0, b"y", b"", 0o755, 0),
];

#[test]
fn a_snapshot_copies_what_it_changes(rt: HostRuntime) -> Result<(), Fail> {
    same(&rt, copied_after(&rt, rt.alloc(), SNAPSHOTS)?, Some(1));
    Ok(())
}

// Adds an entry that is complete.
fn add_root(alloc: Global, core: &mut EditCore<Nowhere>) -> Result<(), Stop> {
    let root = Subvol::new_root(alloc)?;
    core.add(b"a", key(1, 1), None, Some(root))
}

fn head(path: &[u8]) -> Command<'_>
    ensures head { IsTrue (is_some (head_of (meaning_of result))) }
{
    Command::Subvol {
        uuid: uuid(1),
        ctransid: 1,
        path,
    }
}

fn edit(path: &[u8]) -> Command<'_>
    ensures edits { done_by (meaning_of result) ≡ did.Edited }
    ensures short { data_len (meaning_of result) < 2 ^ 64 }
{
    Command::MkFile { path }
}

// The part of a subvolume that began, taken up again.
fn part_again(core: &mut EditCore<Nowhere>, head: &Command<'_>) -> Result<Part<Nowhere>, Stop>
    requires empty { core.old ≡ [] }
    requires head { IsTrue (is_some (head_of (meaning_of head.now))) }
{
    let part = core.begin(head)?;
    core.resume(part.key().uuid)
}

fn first_part(alloc: Global) -> Result<Part<Nowhere>, Stop> {
    let mut core = EditCore::new(alloc);
    part_again(&mut core, &head(b"a"))
}

// Whether the subvolume of the core has the file.
fn has_file(core: &EditCore<Nowhere>) -> bool {
    match core.catalog().by_key(key(1, 1)) {
        Some(sub) => sub.tree().find(b"x").is_ok(),
        None => false,
    }
}

// Adds a file to the part.
fn add_file(core: &EditCore<Nowhere>, part: &mut Part<Nowhere>) -> Result<(), Stop> {
    core.edit(part, &edit(b"x"), Nowhere)
}

// A core whose one subvolume is the part with the file.
fn with_part(alloc: Global) -> Result<EditCore<Nowhere>, Stop> {
    let mut core = EditCore::new(alloc);
    add_root(alloc, &mut core)?;
    let mut part = first_part(alloc)?;
    add_file(&core, &mut part)?;
    core.complete(part);
    Ok(core)
}

#[test]
fn entries_come_and_go(rt: HostRuntime) -> Result<(), Fail> {
    let mut core = with_part(rt.alloc())?;
    same(&rt, has_file(&core), true);
    core.hide(uuid(1));
    same(&rt, core.drop_name(b"a"), false);
    Ok(())
}
