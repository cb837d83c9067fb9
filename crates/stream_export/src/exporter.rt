// The part as it stands, and the file that the receiver has open: what goes before each command.
ghost use Rattle.std.specs.Prelude.{◌≡◌, ◌≤◌, ◌^◌, ◌++◌, ℕ, Some, IfOk, OnOk, length, true};
ghost use Rattle.std.specs.Option.{option_map};
ghost use Rattle.send_model.specs.Opened.{written_path, kept_at, opened_at};
ghost use Rattle.send_model.specs.Separated.{IsSmall, separator_in, names_file, touch};
ghost use Rattle.send_model.specs.Exported.{exporting};
ghost use Rattle.send_model.specs.Receivable.{header_before};
ghost use Rattle.send_model.specs.Spelling.{canonical};
ghost use Rattle.send_model.specs.Laws.{CanWrite};
ghost use Rattle.send_commands.specs.Meaning.{meaning_of};
ghost use Rattle.send_commands.specs.Writing.{IsWritable};
ghost use Rattle.clone_resolve.specs.Steps.{data_len};
ghost use Rattle.auditor.specs.Following.{blank};
ghost use Rattle.cmd_reader.specs.Next.{item_of};
ghost use Rattle.stream_export.specs.Exporting.{closes, all_receivable, before, opening, ready_for, opened_for, opened_by, opened_anew, export_bytes};
ghost use Rattle.stream_export.specs.Framed.{IsFramed};
ghost use Rattle.stream_export.specs.Steps.{Takes};
ghost use Rattle.sx_base.specs.Bytes.{IsFront};

use crate::separators::{free_name, push_link, push_root_times, push_touch, push_unlink};
use crate::spelling::push_receivable;
use auditor::Follower;
use clone_resolve::EditCore;
use cmd_reader::Item;
use extent_map::Origin;
use inode_tree::Tree;
use send_commands::Command;
use std::alloc::{AllocError, Global};
use std::marker::Model;
use sx_base::{Blob, Stop};
use tlv_frame::StreamHead;

// The part so far, and which file the receiver has open.
#[derive(Drop)]
pub(crate) struct Exporter<R: Origin> {
    alloc: Global,
    follower: Follower<R>,
    // The inode that is open, if one is, and the path by which it was opened.
    ino: Option<u64>,
    path: Blob,
    // The path that was open before it.
    other: Blob,
}

impl<R: Origin> Model for Exporter<R> {
    ghost use Rattle.std.specs.Option.{option_map};
    ghost use Rattle.send_model.specs.Exported.{Exporting};
    ghost use Rattle.stream_export.specs.Exporting.{Blank, opened_by};

    ghost Value = { Exporting Blank };

    ghost view = { λ e. record {
      state = e.follower;
      opened = option_map (λ ino. opened_by e.path ino) e.ino;
      other = e.other;
    } };
}

impl<R: Origin> Exporter<R> {
    // Nothing is open, before the first command. The origin reaches as far as the data of any
    // command.
    pub(crate) fn new(alloc: Global, core: EditCore<R>, origin: R) -> Exporter<R>
        requires reach { 2 ^ 18 ≤ R.reach origin }
        ensures start { result ≡ exporting (blank core) }
    {
        Exporter {
            alloc,
            follower: Follower::new(core, origin),
            ino: None,
            path: Blob::new(alloc),
            other: Blob::new(alloc),
        }
    }

    // One command, whose frame came so: it is taken and its bytes are appended, or nothing is.
    pub(crate) fn take(
        &mut self,
        begins: bool,
        item: &Item<'_>,
        frame: &[u8],
        to: &mut Blob,
    ) -> Result<(), Stop>
        requires frame { item.now.canonical ≡ true
            → frame.now ≡ canonical item.now.version (meaning_of item.now.command) }
        requires framed { IsFramed frame.now }
        requires short { data_len (meaning_of item.now.command) ≤ 2 ^ 18 }
        requires writable { IsWritable item.now.version (meaning_of item.now.command) }
        requires sayable { CanWrite item.now.version (meaning_of item.now.command) }
        ensures small { IsSmall self.old.state.part }
        ensures taken { (file : ℕ) → Takes (record { now = self.old; begins = begins }) self.new
            (item_of file item.now) to.old to.new result }
    {
        let _names = self.names();
        let start = to.as_slice().len();
        let Ok(opens) = self.push_item(begins, item, frame, to) else {
            return Err(Stop::NoMemory);
        };
        match self.follower.step(&item.command) {
            Ok(_) => {}
            Err(stop) => {
                to.cut(start);
                return Err(stop);
            }
        }
        let Some(path) = opens else {
            return Ok(());
        };
        let found = self.find(path);
        match self.open_anew(path, found) {
            Ok(()) => Ok(()),
            Err(_) => Err(Stop::NoMemory),
        }
    }

    // How many names the part has.
    fn names(&self) -> u64
        ensures small { IsSmall self.now.state.part }
    {
        match self.follower.tree() {
            Some(tree) => tree.name_count(),
            None => 0,
        }
    }

    // Appends the bytes of a command, and gives the path that it opens, if it writes to one that is
    // not open.
    fn push_item<'c>(
        &mut self,
        begins: bool,
        item: &Item<'c>,
        frame: &[u8],
        to: &mut Blob,
    ) -> Result<Option<&'c [u8]>, AllocError>
        requires frame { item.now.canonical ≡ true
            → frame.now ≡ canonical item.now.version (meaning_of item.now.command) }
        requires framed { IsFramed frame.now }
        requires writable { IsWritable item.now.version (meaning_of item.now.command) }
        requires sayable { CanWrite item.now.version (meaning_of item.now.command) }
        ensures added { OnOk result (to.new ≡ to.old ++ export_bytes begins self.old
            item.now.version (meaning_of item.now.command)) }
        ensures opens { IfOk result (λ path. option_map (λ p. p.now) path
            ≡ opening self.old.opened (written_path (meaning_of item.now.command))) }
        ensures ready { OnOk result
            (self.new ≡ ready_for self.old (meaning_of item.now.command)) }
        ensures kept { IsFront to.old to.new }
    {
        push_header(begins, item.version, to)?;
        let opens = match self.push_before(&item.command, item.version, to) {
            Ok(opens) => opens,
            Err(error) => return Err(error),
        };
        push_receivable(item, frame, to)?;
        Ok(opens)
    }

    // Appends what goes before a command. Gives the path that the command opens, if it writes to
    // one that is not open.
    fn push_before<'c>(
        &mut self,
        command: &Command<'c>,
        version: u32,
        to: &mut Blob,
    ) -> Result<Option<&'c [u8]>, AllocError>
        ensures added { OnOk result (to.new ≡ to.old
            ++ all_receivable version (before self.old (meaning_of command.now))) }
        ensures opens { IfOk result (λ path. option_map (λ p. p.now) path
            ≡ opening self.old.opened (written_path (meaning_of command.now))) }
        ensures ready { OnOk result (self.new ≡ ready_for self.old (meaning_of command.now)) }
        ensures kept { IsFront to.old to.new }
    {
        if closes_file(command) {
            self.ino = None;
            return Ok(None);
        }
        let Some(path) = written_path(command) else {
            return Ok(None);
        };
        let Some(ino) = self.open_by(path) else {
            return Ok(Some(path));
        };
        match self.open_again(path, ino, version, to) {
            Ok(()) => Ok(None),
            Err(error) => Err(error),
        }
    }

    // The inode that is open by this path.
    fn open_by(&self, path: &[u8]) -> Option<u64>
        ensures { result ≡ kept_at self.now.opened (Some path.now) }
    {
        let ino = self.ino?;
        if self.path.as_slice() != path {
            return None;
        }
        Some(ino)
    }

    // The inode that a path of the part leads to.
    fn find(&self, path: &[u8]) -> Option<u64>
        ensures { option_map (λ ino. opened_by path.now ino) result
            ≡ opened_at self.now.state.part path.now }
    {
        let tree = self.follower.tree()?;
        match tree.find(path) {
            Ok(ino) => Some(ino),
            Err(_) => None,
        }
    }

    // Goes on with the path that is open, with a separator in front where it leads to another inode
    // than the one that is open.
    fn open_again(
        &mut self,
        path: &[u8],
        ino: u64,
        version: u32,
        to: &mut Blob,
    ) -> Result<(), AllocError>
        requires open { kept_at self.old.opened (Some path.now) ≡ Some ino }
        ensures added { OnOk result (to.new ≡ to.old
            ++ all_receivable version (before self.old (touch path.now))) }
        ensures opened { OnOk result (self.new ≡ opened_for self.old (touch path.now)) }
        ensures kept { IsFront to.old to.new }
    {
        let Some(tree) = self.follower.tree() else {
            return Ok(());
        };
        let Ok(now) = tree.find(path) else {
            return Ok(());
        };
        if now == ino {
            return Ok(());
        }
        push_separator(self.alloc, tree, self.other.as_slice(), path, version, to)?;
        self.ino = Some(now);
        Ok(())
    }

    // Opens a file by a path that is not open; the path that was open is the one before it.
    fn open_anew(&mut self, path: &[u8], ino: Option<u64>) -> Result<(), AllocError>
        ensures opened { OnOk result (self.new ≡ opened_anew self.old path.now ino) }
    {
        if self.ino.is_some() {
            std::mem::swap(&mut self.path, &mut self.other);
        }
        self.path.clear();
        self.path.push_all(path)?;
        self.ino = ino;
        Ok(())
    }
}

// Appends the header of a stream where a command begins one.
fn push_header(begins: bool, version: u32, to: &mut Blob) -> Result<(), AllocError>
    ensures added { OnOk result (to.new ≡ to.old ++ header_before begins version) }
    ensures kept { IsFront to.old to.new }
{
    if !begins {
        return Ok(());
    }
    let header = StreamHead { version };
    to.push_all(&header.bytes())
}

// Appends commands that change nothing and make the receiver open another path.
fn push_separator<R: Origin>(
    alloc: Global,
    tree: &Tree<R>,
    other: &[u8],
    path: &[u8],
    version: u32,
    to: &mut Blob,
) -> Result<(), AllocError>
    requires short { length path.now ≤ 4095 }
    ensures added { OnOk result (to.new ≡ to.old
        ++ all_receivable version (separator_in tree.now other.now path.now)) }
    ensures kept { IsFront to.old to.new }
{
    if other != path && names_file(tree, other) {
        return push_touch(other, version, to);
    }
    let name = free_name(alloc, tree)?;
    push_link(name.as_slice(), path, version, to)?;
    push_touch(name.as_slice(), version, to)?;
    push_unlink(name.as_slice(), version, to)?;
    push_root_times(tree, version, to)
}

// Whether a path names a regular file.
fn names_file<R: Origin>(tree: &Tree<R>, path: &[u8]) -> bool
    ensures { result ≡ names_file tree.now path.now }
{
    match tree.find(path) {
        Ok(ino) => tree.is_file(ino),
        Err(_) => false,
    }
}

// Whether the receiver has no file open after a command: a head or END.
fn closes_file(command: &Command<'_>) -> bool
    ensures { result ≡ closes (meaning_of command.now) }
{
    matches!(
        command,
        Command::Subvol { .. } | Command::Snapshot { .. } | Command::End
    )
}

// The path of the file that a command writes to through the one that the receiver keeps open.
fn written_path<'c>(command: &Command<'c>) -> Option<&'c [u8]>
    ensures { option_map (λ path. path.now) result ≡ written_path (meaning_of command.now) }
{
    match command {
        Command::Write { path, .. } => Some(*path),
        Command::Clone { path, .. } => Some(*path),
        Command::Fallocate { path, .. } => Some(*path),
        Command::Subvol { .. } => None,
        Command::Snapshot { .. } => None,
        Command::MkFile { .. } => None,
        Command::MkDir { .. } => None,
        Command::MkNod { .. } => None,
        Command::MkFifo { .. } => None,
        Command::MkSock { .. } => None,
        Command::Symlink { .. } => None,
        Command::Rename { .. } => None,
        Command::Link { .. } => None,
        Command::Unlink { .. } => None,
        Command::Rmdir { .. } => None,
        Command::SetXattr { .. } => None,
        Command::RemoveXattr { .. } => None,
        Command::Truncate { .. } => None,
        Command::Chmod { .. } => None,
        Command::Chown { .. } => None,
        Command::Utimes { .. } => None,
        Command::End => None,
        Command::UpdateExtent { .. } => None,
        Command::FileAttr { .. } => None,
    }
}
