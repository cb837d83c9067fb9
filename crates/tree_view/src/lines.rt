// The lines of entries, subvolumes, inodes, extended attributes and names.
ghost use Rattle.std.specs.Prelude.{◌≡◌, ◌++◌, OnOk};
ghost use Rattle.std.specs.Option.{option_map};
ghost use Rattle.send_model.specs.Answer.{and_field, and_number, line};
ghost use Rattle.send_model.specs.Printed.{escaped, uuid_text};
ghost use Rattle.store_model.specs.StoreLines.{state_text, parent_text, entry_line, kind_text, extra_text, inode_line, xattr_line, name_line};
ghost use Rattle.inode_tree.specs.Kinds.{kind_of};
ghost use Rattle.subvol_catalog.specs.Entries.{key_of, entry_of};
ghost use Rattle.tree_view.specs.Printing.{subvol_line};

use crate::fields::{
    push_escaped, push_hex, push_identifier, push_mode, push_moment, push_number, push_word,
};
use extent_map::Origin;
use inode_tree::{Inode, NodeKind};
use std::alloc::AllocError;
use stream_dump::{push_decimal, push_uuid};
use subvol_catalog::{Entry, Key};
use sx_base::{Blob, escape_into};

// An entry of a store.
pub(crate) fn push_entry<V>(entry: &Entry<V>, to: &mut Blob) -> Result<(), AllocError>
    ensures pushed { OnOk result (to.new ≡ to.old ++ entry_line (entry_of entry.now)) }
{
    escape_into(entry.name.as_slice(), to)?;
    push_identifier(&entry.key.uuid, to)?;
    push_number(entry.key.ctransid, to)?;
    push_state(&entry.value, to)?;
    push_parent(entry.parent, to)?;
    to.push_all(b"\n")
}

// Whether an entry is complete.
fn push_state<V>(value: &Option<V>, to: &mut Blob) -> Result<(), AllocError>
    ensures pushed { OnOk result (to.new ≡ to.old ++ and_field (state_text value.now)) }
{
    match value {
        None => push_word(b"unfinished", to),
        Some(_) => push_word(b"complete", to),
    }
}

// The key of the subvolume that an entry started from, or a hyphen.
fn push_parent(parent: Option<Key>, to: &mut Blob) -> Result<(), AllocError>
    ensures pushed { OnOk result
        (to.new ≡ to.old ++ and_field (parent_text (option_map key_of parent))) }
{
    let Some(key) = parent else {
        return push_word(b"-", to);
    };
    to.push_all(b" ")?;
    push_uuid(&key.uuid, to)?;
    to.push_all(b":")?;
    push_decimal(key.ctransid, to)
}

// The line of a subvolume: its name, its key, and the number that its next inode would get.
pub(crate) fn push_subvol(name: &[u8], key: Key, next: u64, to: &mut Blob) -> Result<(), AllocError>
    ensures pushed { OnOk result (to.new ≡ to.old ++ subvol_line name.now (key_of key) next) }
{
    to.push_all(b"subvol")?;
    push_escaped(name, to)?;
    push_identifier(&key.uuid, to)?;
    push_number(key.ctransid, to)?;
    push_number(next, to)?;
    to.push_all(b"\n")
}

// An inode.
pub(crate) fn push_inode<R: Origin>(
    ino: u64,
    inode: &Inode<R>,
    to: &mut Blob,
) -> Result<(), AllocError>
    ensures pushed { OnOk result (to.new ≡ to.old ++ inode_line ino inode.now) }
{
    to.push_all(b"inode")?;
    push_number(ino, to)?;
    push_kind(inode.kind(), to)?;
    push_mode(inode.mode(), to)?;
    push_number(inode.uid(), to)?;
    push_number(inode.gid(), to)?;
    push_moment(inode.atime(), to)?;
    push_moment(inode.mtime(), to)?;
    push_number(inode.flags(), to)?;
    push_extra(inode, to)?;
    to.push_all(b"\n")
}

// What an inode is.
fn push_kind(kind: NodeKind, to: &mut Blob) -> Result<(), AllocError>
    ensures pushed { OnOk result (to.new ≡ to.old ++ and_field (kind_text (kind_of kind))) }
{
    match kind {
        NodeKind::File => push_word(b"file", to),
        NodeKind::Directory => push_word(b"dir", to),
        NodeKind::SymbolicLink => push_word(b"symlink", to),
        NodeKind::CharacterDevice => push_word(b"chr", to),
        NodeKind::BlockDevice => push_word(b"blk", to),
        NodeKind::Fifo => push_word(b"fifo", to),
        NodeKind::Socket => push_word(b"socket", to),
    }
}

// The size of a file, the target of a symbolic link, the number of a device; a hyphen for what has
// none of these.
fn push_extra<R: Origin>(inode: &Inode<R>, to: &mut Blob) -> Result<(), AllocError>
    ensures pushed { OnOk result
        (to.new ≡ to.old ++ and_field (extra_text inode.now.kind inode.now)) }
{
    match inode.kind() {
        NodeKind::File => push_number(inode.contents().size(), to),
        NodeKind::SymbolicLink => push_escaped(inode.target(), to),
        NodeKind::CharacterDevice => push_number(inode.rdev(), to),
        NodeKind::BlockDevice => push_number(inode.rdev(), to),
        NodeKind::Directory => push_word(b"-", to),
        NodeKind::Fifo => push_word(b"-", to),
        NodeKind::Socket => push_word(b"-", to),
    }
}

// An extended attribute of an inode.
pub(crate) fn push_xattr(
    ino: u64,
    name: &[u8],
    value: &[u8],
    to: &mut Blob,
) -> Result<(), AllocError>
    ensures pushed { OnOk result (to.new ≡ to.old ++ xattr_line ino (name.now, value.now)) }
{
    to.push_all(b"xattr")?;
    push_number(ino, to)?;
    push_escaped(name, to)?;
    push_hex(value, to)?;
    to.push_all(b"\n")
}

// A name in a directory.
pub(crate) fn push_name(
    directory: u64,
    name: &[u8],
    ino: u64,
    to: &mut Blob,
) -> Result<(), AllocError>
    ensures pushed { OnOk result
        (to.new ≡ to.old ++ name_line ((directory, name.now), ino)) }
{
    to.push_all(b"name")?;
    push_number(directory, to)?;
    push_escaped(name, to)?;
    push_number(ino, to)?;
    to.push_all(b"\n")
}
