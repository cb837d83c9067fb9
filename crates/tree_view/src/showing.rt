// Showing one subvolume.
ghost use Rattle.std.specs.Prelude.{◌≤◌, IfErr};
ghost use Rattle.std.specs.List.{flat_map};
ghost use Rattle.std.specs.Ordering.{nat_cmp};
ghost use Rattle.send_model.specs.Map.{IsMap, named_cmp};
ghost use Rattle.send_model.specs.Subvolume.{IsLawful, HasLawfulNames};
ghost use Rattle.shared_map.specs.Sought.{entries_above};
ghost use Rattle.store_model.specs.StoreLines.{shown, inode_lines, xattr_line, name_line};
ghost use Rattle.subvol_catalog.specs.Entries.{key_of};
ghost use Rattle.sx_base.specs.Calls.{Wrote, SteadyIfDone};
ghost use Rattle.sx_base.specs.Later.{OutputLater};
ghost use Rattle.stream_dump.specs.Steps.{StopsWriting};
ghost use Rattle.tree_view.specs.Printing.{AddsText, output, Prints, PrintCaused, at_zero};

use crate::writing::{write_inode, write_name, write_subvol, write_xattr};
use extent_map::Origin;
use inode_tree::{Bytes, Inode, Tree};
use shared_map::Entries;
use std::alloc::Global;
use stream_dump::{Gathered, finish};
use subvol::Subvol;
use subvol_catalog::Key;
use sx_base::{Outcome, Sink};

/// Writes a line for the subvolume with this name and key, one for each inode by number, each
/// followed by those of its extended attributes by their names, and one for each name by directory
/// and then by bytes. With `Done` `out` got all lines; where it failed, or there was no memory, a
/// front part of them. This is said of a lawful subvolume, as each is that edits made.
pub fn show<R: Origin, O: Sink>(
    alloc: Global,
    name: &[u8],
    key: Key,
    sub: &Subvol<R>,
    out: &mut O,
) -> Outcome
    ensures later { O.faults out.old ≤ O.faults out.new }
    ensures steady { SteadyIfDone (O.faults out.old) (O.faults out.new) result }
    ensures cause { PrintCaused (O.faults out.old) (O.faults out.new) result }
    ensures shown { IsLawful sub.now → Wrote (O.taken out.old) (O.taken out.new)
        (Prints (shown name.now (key_of key) sub.now) result) }
{
    let mut text = Gathered::new(alloc);
    match write_all(name, key, sub.tree(), &mut text, out) {
        Ok(()) => finish(&mut text, out, Outcome::Done),
        Err(outcome) => outcome,
    }
}

// Writes all lines of a subvolume.
fn write_all<R: Origin, O: Sink>(
    name: &[u8],
    key: Key,
    tree: &Tree<R>,
    text: &mut Gathered,
    out: &mut O,
) -> Result<(), Outcome>
    ensures out { OutputLater O.Sink out.old out.new result }
    ensures stops { IfErr result (StopsWriting (O.faults out.old) (O.faults out.new)) }
    ensures added { IsLawful tree.now → AddsText (shown name.now (key_of key) tree.now)
        (output O.Sink out.old text.old.bytes) (output O.Sink out.new text.new.bytes) result }
{
    write_subvol(name, key, tree.next_number(), text, out)?;
    write_zero(tree, text, out)?;
    write_inodes(tree, text, out)?;
    write_names(tree, text, out)
}

// Writes the lines of inode 0, which no tree has that edits made.
fn write_zero<R: Origin, O: Sink>(
    tree: &Tree<R>,
    text: &mut Gathered,
    out: &mut O,
) -> Result<(), Outcome>
    ensures out { OutputLater O.Sink out.old out.new result }
    ensures added { AddsText (flat_map inode_lines (at_zero tree.now.inodes))
        (output O.Sink out.old text.old.bytes) (output O.Sink out.new text.new.bytes) result }
{
    match tree.inode(0) {
        Some(inode) => write_with_xattrs(0, inode, text, out),
        None => Ok(()),
    }
}

// Writes the lines of all inodes above 0.
fn write_inodes<R: Origin, O: Sink>(
    tree: &Tree<R>,
    text: &mut Gathered,
    out: &mut O,
) -> Result<(), Outcome>
    ensures out { OutputLater O.Sink out.old out.new result }
    ensures stops { IfErr result (StopsWriting (O.faults out.old) (O.faults out.new)) }
    ensures added { IsMap nat_cmp tree.now.inodes
        → AddsText (flat_map inode_lines (entries_above nat_cmp 0 tree.now.inodes))
        (output O.Sink out.old text.old.bytes) (output O.Sink out.new text.new.bytes) result }
{
    let mut last = 0;
    while let Some(ino) = tree.inode_after(last) {
        let Some(inode) = tree.inode(ino) else {
            unreachable!()
        };
        write_with_xattrs(ino, inode, text, out)?;
        last = ino;
    }
    Ok(())
}

// Writes the line of an inode and those of its extended attributes.
fn write_with_xattrs<R: Origin, O: Sink>(
    ino: u64,
    inode: &Inode<R>,
    text: &mut Gathered,
    out: &mut O,
) -> Result<(), Outcome>
    ensures out { OutputLater O.Sink out.old out.new result }
    ensures added { AddsText (inode_lines (ino, inode.now)) (output O.Sink out.old text.old.bytes)
        (output O.Sink out.new text.new.bytes) result }
{
    write_inode(ino, inode, text, out)?;
    write_xattrs(ino, inode.xattrs(), text, out)
}

// Writes the lines of the extended attributes of an inode.
fn write_xattrs<O: Sink>(
    ino: u64,
    xattrs: Entries<'_, Bytes, Bytes>,
    text: &mut Gathered,
    out: &mut O,
) -> Result<(), Outcome>
    ensures out { OutputLater O.Sink out.old out.new result }
    ensures added { AddsText (flat_map (xattr_line ino) xattrs.entry)
        (output O.Sink out.old text.old.bytes) (output O.Sink out.new text.new.bytes) result }
{
    for (name, value) in xattrs {
        write_xattr(ino, name.as_slice(), value.as_slice(), text, out)?;
    }
    Ok(())
}

// Writes the lines of all names.
fn write_names<R: Origin, O: Sink>(
    tree: &Tree<R>,
    text: &mut Gathered,
    out: &mut O,
) -> Result<(), Outcome>
    ensures out { OutputLater O.Sink out.old out.new result }
    ensures stops { IfErr result (StopsWriting (O.faults out.old) (O.faults out.new)) }
    ensures added { IsMap named_cmp tree.now.names → HasLawfulNames tree.now
        → AddsText (flat_map name_line tree.now.names) (output O.Sink out.old text.old.bytes)
        (output O.Sink out.new text.new.bytes) result }
{
    let mut directory = 0;
    let mut last: &[u8] = b"";
    while let Some((next, name, ino)) = tree.name_after(directory, last) {
        write_name(next, name, ino, text, out)?;
        directory = next;
        last = name;
    }
    Ok(())
}
