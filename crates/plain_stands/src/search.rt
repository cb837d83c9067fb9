// The stand of a block.
ghost use Rattle.std.specs.Prelude.{◌≡◌, ℕ, ◌+◌, ◌<◌, ◌≤◌, Option, map, length, take, drop};
ghost use Rattle.std.specs.Option.{option_map};
ghost use Rattle.provenance.specs.Traces.{advanced_by};
ghost use Rattle.extent_map.specs.Pieces.{piece_cells};
ghost use Rattle.extent_map.specs.Cells.{cells_between};
ghost use Rattle.send_model.specs.Store.{Key};
ghost use Rattle.send_model.specs.Subvolume.{IsLawful};
ghost use Rattle.standing_model.specs.Standing.{begin_with, stand_of};
ghost use Rattle.provenance.specs.declared.trace.Trace.{Trace};
ghost use Rattle.plain_stands.specs.Tags.{tagged, tagged_part, place_under};
ghost use Rattle.plain_stands.specs.Stands.{FindsLeast, stands_in, may_end, AreAlike};

use crate::naming::is_nameable;
use extent_map::Extents;
use inode_tree::Tree;
use provenance::Trace;
use standing_model::stands_are_least;
use subvol::Subvol;

// How many cells a block has.
const BLOCK: u64 = 4_096;

/// The least place, by inode number and then by place, at which a block of `contents` stands in a
/// file of the subvolume other than `dest`: the inode number of the file and the place there. None
/// where it stands nowhere. The block has the `len` cells from `from` on. Goes over all blocks of
/// all files, and over all names for each. Takes no memory.
pub fn stand_of(
    sub: &Subvol<Trace>,
    contents: &Extents<Trace>,
    from: u64,
    len: u64,
    dest: u64,
) -> Option<(u64, u64)>
    requires lawful { IsLawful sub.now }
    requires some { 0 < len }
    requires most { len ≤ 4_096 }
    requires within { from + len ≤ length contents.now }
    ensures { (key : Key) (byte : Option Trace → ℕ) → stand_of key (tagged_part byte sub.now) dest
        (map (tagged byte) (cells_between from len contents.now))
        ≡ option_map (place_under key) result }
{
    stands_are_least();
    let tree = sub.tree();
    // No edit makes an inode of number 0.
    if let Some(at) = stand_in(tree, 0, contents, from, len, dest) {
        return Some((0, at));
    }
    let mut ino = 0;
    while let Some(next) = tree.inode_after(ino) {
        if let Some(at) = stand_in(tree, next, contents, from, len, dest) {
            return Some((next, at));
        }
        ino = next;
    }
    None
}

// The least place of one file at which the block stands.
fn stand_in(
    tree: &Tree<Trace>,
    ino: u64,
    contents: &Extents<Trace>,
    from: u64,
    len: u64,
    dest: u64,
) -> Option<u64>
    requires lawful { IsLawful tree.now }
    requires some { 0 < len }
    requires most { len ≤ 4_096 }
    requires within { from + len ≤ length contents.now }
    ensures { (byte : Option Trace → ℕ) → FindsLeast
        (stands_in byte tree.now dest (cells_between from len contents.now) ino) result }
{
    if ino == dest || !tree.is_file(ino) || !is_nameable(tree, ino) {
        return None;
    }
    let Some(inode) = tree.inode(ino) else {
        return None;
    };
    let there = inode.contents();
    let size = there.size();
    let mut at = 0;
    while at < size {
        let left = size - at;
        if may_end(len, left) && begins_with(there, at, contents, from, len) {
            return Some(at);
        }
        at += BLOCK;
    }
    None
}

// Whether a block of a length may stand where so many cells are left of the file.
fn may_end(len: u64, left: u64) -> bool
    requires { len ≤ 4_096 }
    ensures { result ≡ may_end len left }
{
    len == left || len == BLOCK && len < left
}

// Whether all cells of a block have tags, and the cells of a file from a place on begin with them.
fn begins_with(
    there: &Extents<Trace>,
    at: u64,
    contents: &Extents<Trace>,
    from: u64,
    len: u64,
) -> bool
    requires there { at + len ≤ length there.now }
    requires within { from + len ≤ length contents.now }
    ensures { (byte : Option Trace → ℕ) → result ≡ begin_with
        (map (tagged byte) (drop at there.now))
        (map (tagged byte) (cells_between from len contents.now)) }
{
    // Places in both are below their sizes, which are below 2^63.
    let _size = there.size();
    let _own_size = contents.size();
    let mut done = 0;
    while done < len {
        let (other, more) = first_piece(there, at + done, len - done);
        let (own, few) = first_piece(contents, from + done, len - done);
        if !are_alike(own, other) {
            return false;
        }
        done += few.min(more);
    }
    true
}

// The cells in front of a range that are zero, or come from successive places: the first one, and
// how many there are.
fn first_piece(contents: &Extents<Trace>, at: u64, len: u64) -> (Option<Trace>, u64)
    requires some { 0 < len }
    requires within { at + len ≤ length contents.now }
    ensures some { 0 < result.1 }
    ensures most { result.1 ≤ len }
    ensures cells { take result.1 (drop at contents.now)
        ≡ piece_cells advanced_by result.0 result.1 }
{
    let Some(piece) = contents.pieces(at, len).next() else {
        unreachable!()
    };
    piece
}

// Whether a cell has a tag, and it is that of another.
fn are_alike(own: Option<Trace>, other: Option<Trace>) -> bool
    ensures { AreAlike own other result }
{
    match (own, other) {
        (Some(own), Some(other)) => own == other,
        (None, _) | (Some(_), None) => false,
    }
}
