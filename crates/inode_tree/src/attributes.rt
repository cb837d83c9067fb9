// Changing what an inode says of itself.
ghost use Rattle.std.specs.Prelude.{◌≡◌, ◌%◌, if◌then◌else◌, IfOk, OnOk, IsTrue, is_some};
ghost use Rattle.send_model.specs.Subvolume.{IsSound, inode_at, is_file};
ghost use Rattle.send_model.specs.Clone.{cells_of};
ghost use Rattle.send_model.specs.Edit as edit;
ghost use Rattle.sx_base.specs.Answers.{MayChange};
ghost use Rattle.inode_tree.specs.Changes.{with_times, changed};
ghost use Rattle.inode_tree.specs.Kinds.{time_of};

use crate::change::{Change, Changing, Swapping};
use crate::time::Timestamp;
use crate::tree::Tree;
use extent_map::{Extents, Origin};
use shared_map::InShared;
use std::alloc::AllocError;
use sx_base::{Refusal, Stop};

// The most bytes that the name of an extended attribute has. Source: XATTR_NAME_MAX of Linux.
const LONGEST_XATTR_NAME: usize = 255;

impl<O: Origin> Tree<O> {
    /// Sets the permission bits to the low twelve bits of a mode, as CHMOD. After `NoMemory`
    /// nothing is said of the tree.
    ///
    /// # Errors
    /// The refusals of the walk; then nothing changes.
    pub fn set_mode(&mut self, path: &[u8], mode: u16) -> Result<(), Stop>
        ensures { MayChange result self.old self.new
            (edit.change_at path.now (λ inode. record inode { mode = mode % 0o10_000 }) self.old) }
    {
        self.change_at(path, &Change::Mode(mode))
    }

    /// Sets owner and group, as CHOWN. After `NoMemory` nothing is said of the tree.
    ///
    /// # Errors
    /// The refusals of the walk; then nothing changes.
    pub fn set_owner(&mut self, path: &[u8], uid: u64, gid: u64) -> Result<(), Stop>
        ensures { MayChange result self.old self.new
            (edit.change_at path.now (λ inode. record inode { uid = uid; gid = gid }) self.old) }
    {
        self.change_at(path, &Change::Owner(uid, gid))
    }

    /// Sets the times, as UTIMES. After `NoMemory` nothing is said of the tree.
    ///
    /// # Errors
    /// The refusals of the walk; then nothing changes.
    pub fn set_times(&mut self, path: &[u8], atime: Timestamp, mtime: Timestamp) -> Result<(), Stop>
        ensures { MayChange result self.old self.new
            (edit.change_at path.now (with_times (time_of atime) (time_of mtime)) self.old) }
    {
        self.change_at(path, &Change::Times(atime, mtime))
    }

    /// Sets the flags, as FILEATTR. After `NoMemory` nothing is said of the tree.
    ///
    /// # Errors
    /// The refusals of the walk; then nothing changes.
    pub fn set_flags(&mut self, path: &[u8], flags: u64) -> Result<(), Stop>
        ensures { MayChange result self.old self.new
            (edit.change_at path.now (λ inode. record inode { flags = flags }) self.old) }
    {
        self.change_at(path, &Change::Flags(flags))
    }

    /// Sets an extended attribute, or replaces it. After `NoMemory` nothing is said of the tree.
    ///
    /// # Errors
    /// The refusals of the walk, then BadXattr where the name does not have 1 to 255 bytes; then
    /// nothing changes.
    pub fn set_xattr(&mut self, path: &[u8], name: &[u8], value: &[u8]) -> Result<(), Stop>
        ensures { MayChange result self.old self.new
            (edit.set_xattr path.now name.now value.now self.old) }
    {
        let ino = self.reach(path)?;
        if !is_xattr_name(name) {
            return Err(Stop::Refused(Refusal::BadXattr));
        }
        self.change(ino, &Change::SetXattr(name, value))?;
        Ok(())
    }

    /// Removes an extended attribute. After `NoMemory` nothing is said of the tree.
    ///
    /// # Errors
    /// The refusals of the walk, then BadXattr where the name does not have 1 to 255 bytes, then
    /// NoXattr where the inode has no such attribute; then nothing changes.
    pub fn remove_xattr(&mut self, path: &[u8], name: &[u8]) -> Result<(), Stop>
        ensures { MayChange result self.old self.new
            (edit.remove_xattr path.now name.now self.old) }
    {
        let ino = self.reach(path)?;
        if !is_xattr_name(name) {
            return Err(Stop::Refused(Refusal::BadXattr));
        }
        if !self.has_xattr(ino, name) {
            return Err(Stop::Refused(Refusal::NoXattr));
        }
        self.change(ino, &Change::RemoveXattr(name))?;
        Ok(())
    }

    /// Exchanges the contents of a file with the given ones, and says whether there is a file of
    /// that number; where there is none nothing changes. Fails for want of memory alone, and then
    /// nothing is said of either.
    pub fn swap_contents(&mut self, ino: u64, contents: &mut Extents<O>) -> Result<bool, AllocError>
        ensures file { IfOk result (λ there. there ≡ is_file self.old ino) }
        ensures tree { IfOk result
            (λ there. self.new ≡ (if there
            then edit.change_inode ino (edit.set_cells (λ _. contents.old)) self.old
            else self.old)) }
        ensures contents { IfOk result
            (λ there. contents.new ≡ (if there then cells_of self.old ino else contents.old)) }
    {
        if !self.is_file(ino) {
            return Ok(false);
        }
        if !self.whole {
            return Err(AllocError);
        }
        self.whole = false;
        let given = std::mem::replace(contents, Extents::new(self.alloc));
        let mut edit = InShared::new(self.alloc, Swapping::new(given));
        if !self.inodes.edit(&ino, &mut edit)? {
            unreachable!()
        }
        self.copied = one_more_if(self.copied, edit.copied());
        *contents = edit.into_inner().into_contents();
        self.whole = true;
        Ok(true)
    }

    // Whether an inode is there and has an extended attribute.
    fn has_xattr(&self, ino: u64, name: &[u8]) -> bool
        ensures { result ≡ edit.has_xattr self.now ino name.now }
    {
        match self.inode(ino) {
            Some(inode) => inode.xattr(name).is_some(),
            None => false,
        }
    }

    // A change of the inode that a path leads to.
    fn change_at(&mut self, path: &[u8], change: &Change<'_>) -> Result<(), Stop>
        ensures { MayChange result self.old self.new
            (edit.change_at path.now (changed change.now) self.old) }
    {
        let ino = self.reach(path)?;
        self.change(ino, change)?;
        Ok(())
    }

    // A change of an inode that is there. An inode that another tree shares is copied first.
    fn change(&mut self, ino: u64, change: &Change<'_>) -> Result<(), AllocError>
        requires { IsSound self.old → IsTrue (is_some (inode_at self.old ino)) }
        ensures { OnOk result (self.new ≡ edit.change_inode ino (changed change.now) self.old) }
    {
        if !self.whole {
            return Err(AllocError);
        }
        self.whole = false;
        let mut edit = InShared::new(self.alloc, Changing::new(self.alloc, change));
        if !self.inodes.edit(&ino, &mut edit)? {
            unreachable!()
        }
        self.copied = one_more_if(self.copied, edit.copied());
        self.whole = true;
        Ok(())
    }
}

// A count, with one more if so. At the greatest number it stays.
fn one_more_if(count: u64, more: bool) -> u64 {
    if more { count.saturating_add(1) } else { count }
}

// Whether the bytes are a name of an extended attribute: 1 to 255 of them.
fn is_xattr_name(name: &[u8]) -> bool
    ensures { result ≡ edit.is_xattr_name name.now }
{
    !name.is_empty() && name.len() <= LONGEST_XATTR_NAME
}
