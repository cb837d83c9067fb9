// Lines that are gathered, and written in large pieces.
ghost use Rattle.std.specs.Prelude.{◌≡◌, ◌++◌, []};
ghost use Rattle.store_model.specs.StoreLines.{entry_line, inode_line, xattr_line, name_line};
ghost use Rattle.sx_base.specs.Later.{OutputLater};
ghost use Rattle.subvol_catalog.specs.Entries.{key_of, entry_of};
ghost use Rattle.tree_view.specs.Printing.{AddsText, output, subvol_line};

use crate::lines::{push_entry, push_inode, push_name, push_subvol, push_xattr};
use extent_map::Origin;
use inode_tree::Inode;
use stream_dump::{Gathered, PIECE, send};
use subvol_catalog::{Entry, Key};
use sx_base::{Outcome, Sink};

// Writes what was gathered where it is much.
fn send_much<O: Sink>(text: &mut Gathered, out: &mut O) -> Result<(), Outcome>
    ensures out { OutputLater O.Sink out.old out.new result }
    ensures added { AddsText [] (output O.Sink out.old text.old.bytes)
        (output O.Sink out.new text.new.bytes) result }
{
    if text.bytes.as_slice().len() >= PIECE {
        return send(text, out);
    }
    Ok(())
}

// Writes the line of an entry.
pub(crate) fn write_entry<V, O: Sink>(
    entry: &Entry<V>,
    text: &mut Gathered,
    out: &mut O,
) -> Result<(), Outcome>
    ensures out { OutputLater O.Sink out.old out.new result }
    ensures added { AddsText (entry_line (entry_of entry.now))
        (output O.Sink out.old text.old.bytes) (output O.Sink out.new text.new.bytes) result }
{
    let Ok(()) = push_entry(entry, &mut text.bytes) else {
        return Err(Outcome::NoMemory);
    };
    send_much(text, out)
}

// Writes the line of a subvolume.
pub(crate) fn write_subvol<O: Sink>(
    name: &[u8],
    key: Key,
    next: u64,
    text: &mut Gathered,
    out: &mut O,
) -> Result<(), Outcome>
    ensures out { OutputLater O.Sink out.old out.new result }
    ensures added { AddsText (subvol_line name.now (key_of key) next)
        (output O.Sink out.old text.old.bytes) (output O.Sink out.new text.new.bytes) result }
{
    let Ok(()) = push_subvol(name, key, next, &mut text.bytes) else {
        return Err(Outcome::NoMemory);
    };
    send_much(text, out)
}

// Writes the line of an inode.
pub(crate) fn write_inode<R: Origin, O: Sink>(
    ino: u64,
    inode: &Inode<R>,
    text: &mut Gathered,
    out: &mut O,
) -> Result<(), Outcome>
    ensures out { OutputLater O.Sink out.old out.new result }
    ensures added { AddsText (inode_line ino inode.now) (output O.Sink out.old text.old.bytes)
        (output O.Sink out.new text.new.bytes) result }
{
    let Ok(()) = push_inode(ino, inode, &mut text.bytes) else {
        return Err(Outcome::NoMemory);
    };
    send_much(text, out)
}

// Writes the line of an extended attribute.
pub(crate) fn write_xattr<O: Sink>(
    ino: u64,
    name: &[u8],
    value: &[u8],
    text: &mut Gathered,
    out: &mut O,
) -> Result<(), Outcome>
    ensures out { OutputLater O.Sink out.old out.new result }
    ensures added { AddsText (xattr_line ino (name.now, value.now))
        (output O.Sink out.old text.old.bytes) (output O.Sink out.new text.new.bytes) result }
{
    let Ok(()) = push_xattr(ino, name, value, &mut text.bytes) else {
        return Err(Outcome::NoMemory);
    };
    send_much(text, out)
}

// Writes the line of a name.
pub(crate) fn write_name<O: Sink>(
    directory: u64,
    name: &[u8],
    ino: u64,
    text: &mut Gathered,
    out: &mut O,
) -> Result<(), Outcome>
    ensures out { OutputLater O.Sink out.old out.new result }
    ensures added { AddsText (name_line ((directory, name.now), ino))
        (output O.Sink out.old text.old.bytes) (output O.Sink out.new text.new.bytes) result }
{
    let Ok(()) = push_name(directory, name, ino, &mut text.bytes) else {
        return Err(Outcome::NoMemory);
    };
    send_much(text, out)
}
