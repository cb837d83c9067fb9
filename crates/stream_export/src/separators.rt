// The commands of separators, and the name that one takes.
ghost use Rattle.std.specs.Prelude.{◌≡◌, ◌++◌, ◌≤◌, ◌<◌, ◌^◌, OnOk, IfOk, [], length};
ghost use Rattle.send_model.specs.Command.{Write, Link, Unlink, Utimes};
ghost use Rattle.send_model.specs.Receivable.{receivable};
ghost use Rattle.send_model.specs.Separated.{own_name, free_name, mtime_of_root, atime_of_root};
ghost use Rattle.send_commands.specs.Meaning.{time_of};
ghost use Rattle.inode_tree.specs.Kinds.{time_of as moment_of};
ghost use Rattle.sx_base.specs.Bytes.{IsFront};

use extent_map::Origin;
use inode_tree::{Timestamp, Tree};
use itoa::Buffer;
use receivable_form::push_times;
use send_commands::{Kind, Time};
use std::alloc::{AllocError, Global};
use sx_base::Blob;
use tlv_frame::FrameWriter;
use tlv_frame::attribute_numbers::{FILE_OFFSET, PATH, PATH_LINK};

// The number of the root of each subvolume. Source: BTRFS_FIRST_FREE_OBJECTID of Btrfs.
const ROOT: u64 = 256;

// Appends a WRITE of no bytes.
pub(crate) fn push_touch(path: &[u8], version: u32, to: &mut Blob) -> Result<(), AllocError>
    requires short { length path.now ≤ 4095 }
    ensures added { OnOk result (to.new ≡ to.old ++ receivable version (Write path.now 0 [])) }
    ensures kept { IsFront to.old to.new }
{
    let mut writer = FrameWriter::begin(to, Kind::Write.number(), version)?;
    writer.attr_bytes(to, PATH, path)?;
    writer.attr_u64(to, FILE_OFFSET, 0)?;
    writer.attr_data(to, b"")?;
    writer.finish(to);
    Ok(())
}

// Appends a LINK of one more name.
pub(crate) fn push_link(
    name: &[u8],
    path: &[u8],
    version: u32,
    to: &mut Blob,
) -> Result<(), AllocError>
    requires short_name { length name.now ≤ 4095 }
    requires short { length path.now ≤ 4095 }
    ensures added { OnOk result (to.new ≡ to.old ++ receivable version (Link name.now path.now)) }
    ensures kept { IsFront to.old to.new }
{
    let mut writer = FrameWriter::begin(to, Kind::Link.number(), version)?;
    writer.attr_bytes(to, PATH, name)?;
    writer.attr_bytes(to, PATH_LINK, path)?;
    writer.finish(to);
    Ok(())
}

// Appends an UNLINK.
pub(crate) fn push_unlink(path: &[u8], version: u32, to: &mut Blob) -> Result<(), AllocError>
    requires short { length path.now ≤ 4095 }
    ensures added { OnOk result (to.new ≡ to.old ++ receivable version (Unlink path.now)) }
    ensures kept { IsFront to.old to.new }
{
    let mut writer = FrameWriter::begin(to, Kind::Unlink.number(), version)?;
    writer.attr_bytes(to, PATH, path)?;
    writer.finish(to);
    Ok(())
}

// Appends UTIMES of the root with the times that it has.
pub(crate) fn push_root_times<R: Origin>(
    tree: &Tree<R>,
    version: u32,
    to: &mut Blob,
) -> Result<(), AllocError>
    ensures added { OnOk result (to.new ≡ to.old
        ++ receivable version (Utimes (mtime_of_root tree.now) (atime_of_root tree.now) [])) }
    ensures kept { IsFront to.old to.new }
{
    let (mtime, atime) = root_times(tree);
    push_times(mtime, atime, b"", version, to)
}

// The times of the root: of its last change, and of its last use.
fn root_times<R: Origin>(tree: &Tree<R>) -> (Time, Time)
    ensures mtime { time_of result.0 ≡ mtime_of_root tree.now }
    ensures atime { time_of result.1 ≡ atime_of_root tree.now }
{
    match tree.inode(ROOT) {
        Some(root) => (time_at(root.mtime()), time_at(root.atime())),
        None => (Time { secs: 0, nanos: 0 }, Time { secs: 0, nanos: 0 }),
    }
}

// A moment of an inode as one of a command.
fn time_at(moment: Timestamp) -> Time
    ensures { time_of result ≡ moment_of moment }
{
    Time {
        secs: moment.secs,
        nanos: moment.nanos,
    }
}

// The first of this program's own names that the root does not have.
pub(crate) fn free_name<R: Origin>(alloc: Global, tree: &Tree<R>) -> Result<Blob, AllocError>
    ensures name { IfOk result (λ name. name ≡ free_name tree.now) }
    ensures short { IfOk result (λ name. length name ≤ 28) }
{
    let most = tree.name_count();
    let mut number = 0;
    let mut name = own_name(alloc, 0)?;
    while number < most {
        let Some(_) = tree.name_in(ROOT, name.as_slice()) else {
            return Ok(name);
        };
        number += 1;
        name = own_name(alloc, number)?;
    }
    Ok(name)
}

// A name of this program's own with a number.
fn own_name(alloc: Global, number: u64) -> Result<Blob, AllocError>
    ensures name { IfOk result (λ name. name ≡ own_name number) }
    ensures short { IfOk result (λ name. length name ≤ 28) }
{
    let mut name = Blob::new(alloc);
    name.push_all(b"btrsend.")?;
    let mut buffer = Buffer::new();
    name.push_all(buffer.format(number).as_bytes())?;
    Ok(name)
}
