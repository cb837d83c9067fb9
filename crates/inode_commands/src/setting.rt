// The commands that set what an inode has beside its contents.
ghost use Rattle.std.specs.Prelude.{◌≡◌, ◌==◌, ◌++◌, ◌∷◌, ◌&&◌, [], map, OnOk, if◌then◌else◌};
ghost use Rattle.std.specs.List.{AllByRecursion};
ghost use Rattle.std.specs.Str.{bytes_eq};
ghost use Rattle.send_model.specs.Command.{SetXattr, Chown, Chmod, Utimes};
ghost use Rattle.snapshot_model.specs.Sent.{flags_commands, setting_commands};
ghost use Rattle.snapshot_model.specs.Restored.{finishing, is_link_kind, capability, capability_commands};
ghost use Rattle.inode_tree.specs.Kinds.{kind_of, time_of};
ghost use Rattle.send_commands.specs.Meaning.{time_of as said_time};
ghost use Rattle.send_model.specs.Exported.{IsMoment};
ghost use Rattle.inode_commands.specs.Spelled.{spelled_all, kept_by, IsShortPath, HasLength, IsSaid};

use crate::form::Form;
use crate::spelling::Spelling;
use extent_map::Origin;
use inode_tree::{Bytes, Inode, NodeKind, Timestamp};
use send_commands::{Command, Time};
use shared_map::Entries;
use std::alloc::AllocError;
use sx_base::Blob;

// The mode of a new symbolic link. Source: symlink(7).
const LINK_MODE: u16 = 0o777;

impl<F: Form> Spelling<F> {
    /// Appends the extended attributes of an inode, by their names.
    pub fn xattrs(
        &self,
        path: &[u8],
        xattrs: Entries<'_, Bytes, Bytes>,
        to: &mut Blob,
    ) -> Result<(), AllocError>
        requires short { IsShortPath path.now }
        requires said { AllByRecursion (λ x. HasLength x.0 × HasLength x.1) xattrs }
        ensures added { OnOk result (to.new ≡ to.old ++ spelled_all F.spelled self.now.version
            (map (λ e. SetXattr e.0 e.1 path.now) xattrs.entry)) }
    {
        for (name, value) in xattrs {
            self.xattr(path, name.as_slice(), value.as_slice(), to)?;
        }
        Ok(())
    }

    // Appends those that are capabilities, or those that are not.
    fn xattrs_by(
        &self,
        path: &[u8],
        xattrs: Entries<'_, Bytes, Bytes>,
        capabilities: bool,
        to: &mut Blob,
    ) -> Result<(), AllocError>
        requires short { IsShortPath path.now }
        requires said { AllByRecursion (λ x. HasLength x.0 × HasLength x.1) xattrs }
        ensures added { OnOk result (to.new ≡ to.old ++ spelled_all F.spelled self.now.version
            (map (λ e. SetXattr e.0 e.1 path.now) (kept_by capabilities xattrs.entry))) }
    {
        for (name, value) in xattrs {
            if is_capability(name.as_slice()) == capabilities {
                self.xattr(path, name.as_slice(), value.as_slice(), to)?;
            }
        }
        Ok(())
    }

    // Appends one.
    fn xattr<'a>(
        &self,
        path: &'a [u8],
        name: &'a [u8],
        value: &'a [u8],
        to: &mut Blob,
    ) -> Result<(), AllocError>
        requires short { IsShortPath path.now }
        requires said { HasLength name.now × HasLength value.now }
        ensures added { OnOk result (to.new ≡ to.old
            ++ F.spelled self.now.version (SetXattr name.now value.now path.now)) }
    {
        self.push(&Command::SetXattr { name, value, path }, to)
    }

    /// Appends owners, mode, flags and times, in this order: what comes behind the contents of an
    /// inode that is sent.
    pub fn settings<R: Origin>(
        &self,
        path: &[u8],
        inode: &Inode<R>,
        to: &mut Blob,
    ) -> Result<(), AllocError>
        requires short { IsShortPath path.now }
        requires said { IsSaid inode.now }
        ensures added { OnOk result (to.new ≡ to.old
            ++ spelled_all F.spelled self.now.version (setting_commands path.now inode.now)) }
    {
        self.owners(path, inode.uid(), inode.gid(), to)?;
        self.mode(path, inode.mode(), to)?;
        self.flags(path, inode.flags(), to)?;
        self.times(path, inode.mtime(), inode.atime(), to)
    }

    /// Appends owners, mode, extended attributes but capabilities, flags and times, in this order:
    /// what the real receiver asks for. The mode of a plain link is not set.
    pub fn finishing<R: Origin>(
        &self,
        path: &[u8],
        inode: &Inode<R>,
        to: &mut Blob,
    ) -> Result<(), AllocError>
        requires short { IsShortPath path.now }
        requires said { IsSaid inode.now }
        ensures added { OnOk result (to.new ≡ to.old
            ++ spelled_all F.spelled self.now.version (finishing path.now inode.now)) }
    {
        self.owners(path, inode.uid(), inode.gid(), to)?;
        self.mode_unless_plain(path, inode.kind(), inode.mode(), to)?;
        self.xattrs_by(path, inode.xattrs(), false, to)?;
        self.flags(path, inode.flags(), to)?;
        self.times(path, inode.mtime(), inode.atime(), to)
    }

    /// Appends the capabilities of an inode, if it has them: what the real receiver asks for behind
    /// all owners.
    pub fn capabilities<R: Origin>(
        &self,
        path: &[u8],
        inode: &Inode<R>,
        to: &mut Blob,
    ) -> Result<(), AllocError>
        requires short { IsShortPath path.now }
        requires said { IsSaid inode.now }
        ensures added { OnOk result (to.new ≡ to.old
            ++ spelled_all F.spelled self.now.version (capability_commands path.now inode.now)) }
    {
        self.xattrs_by(path, inode.xattrs(), true, to)
    }

    // Appends CHOWN.
    fn owners(&self, path: &[u8], uid: u64, gid: u64, to: &mut Blob) -> Result<(), AllocError>
        requires short { IsShortPath path.now }
        ensures added { OnOk result
            (to.new ≡ to.old ++ F.spelled self.now.version (Chown uid gid path.now)) }
    {
        self.push(&Command::Chown { uid, gid, path }, to)
    }

    // Appends CHMOD.
    fn mode(&self, path: &[u8], mode: u16, to: &mut Blob) -> Result<(), AllocError>
        requires short { IsShortPath path.now }
        ensures added { OnOk result
            (to.new ≡ to.old ++ F.spelled self.now.version (Chmod mode path.now)) }
    {
        let mode = u64::from(mode);
        self.push(&Command::Chmod { mode, path }, to)
    }

    // The same, but of a link with the mode that each new one has.
    fn mode_unless_plain(
        &self,
        path: &[u8],
        kind: NodeKind,
        mode: u16,
        to: &mut Blob,
    ) -> Result<(), AllocError>
        requires short { IsShortPath path.now }
        ensures added { OnOk result (to.new ≡ to.old ++ spelled_all F.spelled self.now.version
            (if is_link_kind (kind_of kind) && (mode == 0o777) then [] else Chmod mode path.now ∷ [])) }
    {
        if matches!(kind, NodeKind::SymbolicLink) && mode == LINK_MODE {
            return Ok(());
        }
        self.mode(path, mode, to)
    }

    // Appends FILEATTR where a flag is set.
    fn flags(&self, path: &[u8], flags: u64, to: &mut Blob) -> Result<(), AllocError>
        requires short { IsShortPath path.now }
        ensures added { OnOk result (to.new ≡ to.old
            ++ spelled_all F.spelled self.now.version (flags_commands path.now flags)) }
    {
        if flags == 0 {
            return Ok(());
        }
        self.push(&Command::FileAttr { path, flags }, to)
    }

    // Appends UTIMES.
    fn times(
        &self,
        path: &[u8],
        mtime: Timestamp,
        atime: Timestamp,
        to: &mut Blob,
    ) -> Result<(), AllocError>
        requires short { IsShortPath path.now }
        requires moments { IsMoment (time_of mtime) × IsMoment (time_of atime) }
        ensures added { OnOk result (to.new ≡ to.old
            ++ F.spelled self.now.version (Utimes (time_of mtime) (time_of atime) path.now)) }
    {
        self.push(
            &Command::Utimes {
                mtime: moment_at(mtime),
                atime: moment_at(atime),
                path,
            },
            to,
        )
    }
}

// Whether an extended attribute of this name is that of capabilities.
fn is_capability(name: &[u8]) -> bool
    ensures { result ≡ bytes_eq name.now capability }
{
    name == b"security.capability".as_slice()
}

// A moment of an inode as one of a command.
fn moment_at(moment: Timestamp) -> Time
    ensures { said_time result ≡ time_of moment }
{
    Time {
        secs: moment.secs,
        nanos: moment.nanos,
    }
}
