// The inodes of a tree.
ghost use Rattle.std.specs.Prelude.{◌≡◌, ◌<◌, ◌≤◌, ◌^◌, length, IfOk, OnOk};
ghost use Rattle.extent_map.specs.Pieces.{run_cells};
ghost use Rattle.std.specs.Option.{option_copied};
ghost use Rattle.send_model.specs.Map.{bytes_cmp, value_at};
ghost use Rattle.send_model.specs.Provenance.{inode_with};
ghost use Rattle.send_model.specs.Subvolume.{is_directory_kind};
ghost use Rattle.inode_tree.specs.Changes.{changed};
ghost use Rattle.inode_tree.specs.Kinds.{kind_of, time_of, new_of_kind, mode_of};

use crate::change::Change;
use crate::extras::Extras;
use crate::kind::NodeKind;
use crate::name::Bytes;
use crate::time::Timestamp;
use extent_map::{Extents, Origin};
use shared_map::{Copied, Entries};
use std::alloc::{AllocError, Global};
use std::marker::Model;

/// An inode, seen as that of the definitions, where a cell is an origin or zero.
#[derive(Debug, Drop)]
pub struct Inode<O: Origin> {
    kind: NodeKind,
    mode: u16,
    uid: u64,
    gid: u64,
    atime: Timestamp,
    mtime: Timestamp,
    extras: Extras,
    contents: Extents<O>,
}

impl<O: Origin> Model for Inode<O> {
    ghost use Rattle.std.specs.Prelude.{Option};
    ghost use Rattle.send_model.specs.Subvolume as meant;
    ghost use Rattle.inode_tree.specs.Kinds.{kind_of, time_of};

    ghost Value = { meant.Inode (Option O) };

    ghost view = { λ i. record {
      kind = kind_of i.kind;
      mode = i.mode;
      uid = i.uid;
      gid = i.gid;
      atime = time_of i.atime;
      mtime = time_of i.mtime;
      rdev = i.extras.rdev;
      flags = i.extras.flags;
      target = i.extras.target;
      xattrs = i.extras.xattrs;
      cells = i.contents;
    } };
}

impl<O: Origin> Inode<O> {
    // A new inode: nothing set but its kind, mode, device number and target. Fails for want of
    // memory alone.
    pub(crate) fn new(
        alloc: Global,
        kind: NodeKind,
        rdev: u64,
        target: &[u8],
    ) -> Result<Inode<O>, AllocError>
        ensures { IfOk result (λ i. i ≡ new_of_kind (kind_of kind) rdev target.now) }
    {
        let epoch = Timestamp { secs: 0, nanos: 0 };
        Ok(Inode {
            kind,
            mode: first_mode(kind),
            uid: 0,
            gid: 0,
            atime: epoch,
            mtime: epoch,
            extras: Extras::new(alloc, rdev, target)?,
            contents: Extents::new(alloc),
        })
    }

    /// What the inode is.
    pub fn kind(&self) -> NodeKind
        ensures { kind_of result ≡ self.now.kind }
    {
        self.kind
    }

    // Whether it is a directory.
    pub(crate) fn is_directory(&self) -> bool
        ensures { result ≡ is_directory_kind self.now.kind }
    {
        matches!(self.kind, NodeKind::Directory)
    }

    /// The permission bits, the low twelve bits of a mode.
    pub fn mode(&self) -> u16
        ensures { result ≡ self.now.mode }
    {
        self.mode
    }

    /// The owner.
    pub fn uid(&self) -> u64
        ensures { result ≡ self.now.uid }
    {
        self.uid
    }

    /// The group.
    pub fn gid(&self) -> u64
        ensures { result ≡ self.now.gid }
    {
        self.gid
    }

    /// When it was last read.
    pub fn atime(&self) -> Timestamp
        ensures { time_of result ≡ self.now.atime }
    {
        self.atime
    }

    /// When it was last written.
    pub fn mtime(&self) -> Timestamp
        ensures { time_of result ≡ self.now.mtime }
    {
        self.mtime
    }

    /// The number of the device, where it is one.
    pub fn rdev(&self) -> u64
        ensures { result ≡ self.now.rdev }
    {
        self.extras.rdev()
    }

    /// The flags of FILEATTR.
    pub fn flags(&self) -> u64
        ensures { result ≡ self.now.flags }
    {
        self.extras.flags()
    }

    /// What a symbolic link leads to, any bytes.
    pub fn target(&self) -> &[u8]
        ensures { result.now ≡ self.now.target }
    {
        self.extras.target()
    }

    /// The extended attributes in rising order of their names.
    pub fn xattrs(&self) -> Entries<'_, Bytes, Bytes>
        ensures { result ≡ self.now.xattrs }
    {
        self.extras.xattrs()
    }

    // The value of an extended attribute, if there is one of the name.
    pub(crate) fn xattr(&self, name: &[u8]) -> Option<&Bytes>
        ensures { option_copied result ≡ value_at bytes_cmp name.now self.now.xattrs }
    {
        self.extras.xattr(name)
    }

    /// The contents of a file.
    pub fn contents(&self) -> &Extents<O>
        ensures { result.now ≡ self.now.cells }
    {
        &self.contents
    }

    // A change. Fails for want of memory alone, and then nothing is said of the inode.
    pub(crate) fn apply(&mut self, alloc: Global, change: &Change<'_>) -> Result<(), AllocError>
        ensures { OnOk result (self.new ≡ changed change.now self.old) }
    {
        match change {
            Change::Mode(mode) => self.mode = *mode % 0o10_000,
            Change::Owner(uid, gid) => {
                self.uid = *uid;
                self.gid = *gid;
            }
            Change::Times(atime, mtime) => {
                self.atime = *atime;
                self.mtime = *mtime;
            }
            Change::Flags(flags) => self.extras.set_flags(alloc, *flags)?,
            Change::SetXattr(name, value) => self.extras.set_xattr(alloc, name, value)?,
            Change::RemoveXattr(name) => self.extras.remove_xattr(name)?,
        }
        Ok(())
    }

    // The same inode, whose contents are one run of their size from an origin. Fails for want of
    // memory alone.
    pub(crate) fn retraced<P: Origin>(
        &self,
        alloc: Global,
        start: P,
    ) -> Result<Inode<P>, AllocError>
        requires { length self.now.cells < 2 ^ 63 → length self.now.cells ≤ P.reach start }
        ensures { IfOk result
            (λ i. i ≡ inode_with self.now (run_cells P.advanced start (length self.now.cells))) }
    {
        let contents = one_run(alloc, start, self.contents.size())?;
        Ok(Inode {
            kind: self.kind,
            mode: self.mode,
            uid: self.uid,
            gid: self.gid,
            atime: self.atime,
            mtime: self.mtime,
            extras: self.extras.copy()?,
            contents,
        })
    }

    // Exchanges the contents with the given ones.
    pub(crate) fn swap_contents(&mut self, contents: &mut Extents<O>)
        ensures mine { self.new ≡ record self.old { cells = contents.old } }
        ensures given { contents.new ≡ self.old.cells }
    {
        std::mem::swap(&mut self.contents, contents);
    }
}

impl<O: Origin> Copied for Inode<O> {
    fn copy(&self) -> Result<Inode<O>, AllocError> {
        Ok(Inode {
            kind: self.kind,
            mode: self.mode,
            uid: self.uid,
            gid: self.gid,
            atime: self.atime,
            mtime: self.mtime,
            extras: self.extras.copy()?,
            contents: self.contents.copy()?,
        })
    }
}

// Contents that are one run. Fails for want of memory alone.
fn one_run<P: Origin>(alloc: Global, start: P, len: u64) -> Result<Extents<P>, AllocError>
    requires fits { len < 2 ^ 63 }
    requires reaches { len ≤ P.reach start }
    ensures { IfOk result (λ contents. contents ≡ run_cells P.advanced start len) }
{
    let mut contents = Extents::new(alloc);
    contents.put_run(0, start, len)?;
    Ok(contents)
}

// The mode of a new inode.
fn first_mode(kind: NodeKind) -> u16
    ensures { result ≡ mode_of (kind_of kind) }
{
    match kind {
        NodeKind::Directory => 0o700,
        NodeKind::SymbolicLink => 0o777,
        NodeKind::File
        | NodeKind::CharacterDevice
        | NodeKind::BlockDevice
        | NodeKind::Fifo
        | NodeKind::Socket => 0o600,
    }
}
