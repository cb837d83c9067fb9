// What commands are about to do to the contents of files.
ghost use Rattle.std.specs.Prelude.{◌≡◌, ◌^◌, ◌<◌, true, [], ◌∷◌, IfSome};
ghost use Rattle.std.specs.Option.{option_to_list};
ghost use Rattle.std.specs.Str.{bytes_eq};
ghost use Rattle.send_model.specs.Edit.{allocation_of};
ghost use Rattle.send_commands.specs.Meaning.{meaning_of};
ghost use Rattle.squash_model.specs.Liveness.{at_file, size_of};
ghost use Rattle.squash_log.specs.Resolved.{range_of, allocated_changes, cloned_changes, changes_for};
ghost use Rattle.squasher.specs.Judging.{walked, IsSized};

use clone_resolve::Part;
use extent_map::Origin;
use inode_tree::Tree;
use send_commands::Command;
use squash_log::{Change, Ended, FileRange};
use uuid::Uuid;

// What a CLONE takes: a range of a file of the subvolume of a UUID.
#[derive(Clone, Copy)]
struct Taken<'a> {
    uuid: Uuid,
    path: &'a [u8],
    from: u64,
    len: u64,
}

/// What a command is about to do to the contents of a file of the part, by the file's number and
/// size; `None` where it does nothing to contents. Takes no memory.
#[tactic(auto, unfolding(squash_log::specs::Resolved::changes_for))]
pub fn change_of<R: Origin>(part: &Part<R>, command: &Command<'_>) -> Option<Change>
    ensures change { option_to_list result ≡ changes_for part.now (meaning_of command.now) }
    ensures sized { IfSome result (IsSized part.now.subvolume) }
{
    let tree = part.sub().tree();
    match command {
        Command::Write {
            path,
            offset,
            bytes,
        } => wrote(tree, path, *offset, bytes.len() as u64),
        Command::Truncate { size, path } => resized(tree, path, *size),
        Command::Fallocate {
            size,
            path,
            offset,
            mode,
        } => replaced(tree, path, *mode, (*offset, *size)),
        Command::Clone {
            path,
            offset,
            clone_uuid,
            clone_path,
            clone_offset,
            clone_len,
            ..
        } => {
            let taken = Taken {
                uuid: *clone_uuid,
                path: clone_path,
                from: *clone_offset,
                len: *clone_len,
            };
            copied(part, path, *offset, &taken)
        }
        _ => None,
    }
}

// What a WRITE of so many bytes does.
fn wrote<R: Origin>(tree: &Tree<R>, path: &[u8], at: u64, len: u64) -> Option<Change>
    ensures change { option_to_list result
        ≡ at_file tree.now path.now (λ ino. Change.Wrote (range_of tree.now ino at len) ∷ []) [] }
    ensures sized { IfSome result (IsSized tree.now) }
{
    let ino = file_at(tree, path)?;
    Some(Change::Wrote(range_at(tree, ino, at, len)))
}

// What TRUNCATE does.
fn resized<R: Origin>(tree: &Tree<R>, path: &[u8], new: u64) -> Option<Change>
    ensures change { option_to_list result
        ≡ at_file tree.now path.now
        (λ ino. Change.Resized ino (size_of tree.now ino) new ∷ []) [] }
    ensures sized { IfSome result (IsSized tree.now) }
{
    let ino = file_at(tree, path)?;
    Some(Change::Resized {
        ino,
        size: size_at(tree, ino),
        new,
    })
}

// What FALLOCATE does.
fn replaced<R: Origin>(tree: &Tree<R>, path: &[u8], mode: u32, range: (u64, u64)) -> Option<Change>
    ensures change { option_to_list result
        ≡ at_file tree.now path.now
        (λ ino. allocated_changes tree.now (allocation_of mode) ino range.0 range.1) [] }
    ensures sized { IfSome result (IsSized tree.now) }
{
    let ino = file_at(tree, path)?;
    allocated(tree, ino, mode, range)
}

// What FALLOCATE does to a range of a file, by its mode.
fn allocated<R: Origin>(tree: &Tree<R>, ino: u64, mode: u32, range: (u64, u64)) -> Option<Change>
    ensures change { option_to_list result
        ≡ allocated_changes tree.now (allocation_of mode) ino range.0 range.1 }
    ensures sized { IfSome result (IsSized tree.now) }
{
    match mode {
        0 | 1 => Some(Change::Replaced(range_at(tree, ino, 0, 0))),
        3 | 16 | 17 => Some(Change::Replaced(range_at(tree, ino, range.0, range.1))),
        _ => None,
    }
}

// What CLONE does.
fn copied<R: Origin>(part: &Part<R>, path: &[u8], offset: u64, taken: &Taken<'_>) -> Option<Change>
    ensures change { option_to_list result
        ≡ at_file part.now.subvolume path.now
        (λ ino. cloned_changes part.now.subvolume (bytes_eq taken.now.uuid part.now.key.uuid)
        ino offset taken.now.path.now taken.now.from taken.now.len) [] }
    ensures sized { IfSome result (IsSized part.now.subvolume) }
{
    let tree = part.sub().tree();
    let ino = file_at(tree, path)?;
    let to = range_at(tree, ino, offset, taken.len);
    if is_own(part, taken.uuid) {
        return Some(cloned(tree, to, taken));
    }
    Some(Change::Replaced(to))
}

// Whether a UUID is that of the part.
fn is_own<R: Origin>(part: &Part<R>, uuid: Uuid) -> bool
    ensures { result ≡ bytes_eq uuid part.now.key.uuid }
{
    uuid == part.key().uuid
}

// What CLONE does to a range, from a place of a file of the part.
fn cloned<R: Origin>(tree: &Tree<R>, to: FileRange, taken: &Taken<'_>) -> Change
    requires range { to ≡ range_of tree.now to.ino to.at taken.now.len }
    requires fits { to.size < 2 ^ 63 }
    ensures change { result ∷ []
        ≡ cloned_changes tree.now true to.ino to.at taken.now.path.now taken.now.from
        taken.now.len }
    ensures sized { IsSized tree.now result }
{
    let Some(source) = file_at(tree, taken.path) else {
        return Change::Replaced(to);
    };
    let _size = size_at(tree, source);
    Change::Cloned {
        to,
        source,
        from: taken.from,
    }
}

// The inode that a path leads to.
fn file_at<R: Origin>(tree: &Tree<R>, path: &[u8]) -> Option<u64>
    ensures { result ≡ walked tree.now path.now }
{
    match tree.find(path) {
        Ok(ino) => Some(ino),
        Err(_) => None,
    }
}

// A range of a file with the size that the file has.
fn range_at<R: Origin>(tree: &Tree<R>, ino: u64, at: u64, len: u64) -> FileRange
    ensures range { result ≡ range_of tree.now ino at len }
    ensures fits { result.size < 2 ^ 63 }
{
    FileRange {
        ino,
        at,
        len,
        size: size_at(tree, ino),
    }
}

// How long a file is.
#[tactic(auto, unfolding(send_model::specs::Clone::cells_of))]
fn size_at<R: Origin>(tree: &Tree<R>, ino: u64) -> u64
    ensures size { result ≡ size_of tree.now ino }
    ensures fits { result < 2 ^ 63 }
{
    match tree.inode(ino) {
        Some(inode) => inode.contents().size(),
        None => 0,
    }
}

/// The inodes of a part when it is complete.
#[derive(Drop)]
pub(crate) struct PartEnd<'a, R: Origin> {
    pub(crate) tree: &'a Tree<R>,
}

impl<'a, R: Origin> Ended for PartEnd<'a, R> {
    ghost use Rattle.std.specs.Prelude.{is_some};
    ghost use Rattle.send_model.specs.Subvolume.{inode_at};

    ghost there = { λ end ino. is_some (inode_at end.tree.now ino) };

    fn is_there(&self, ino: u64) -> bool {
        self.tree.inode(ino).is_some()
    }
}
