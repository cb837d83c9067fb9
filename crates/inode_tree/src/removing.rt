// Removing names.
ghost use Rattle.std.specs.Prelude.{◌≡◌, ◌≢◌, ℕ, List, Some, OnOk};
ghost use Rattle.send_model.specs.Subvolume.{named, is_directory, is_empty_directory};
ghost use Rattle.send_model.specs.Edit as edit;
ghost use Rattle.sx_base.specs.Answers.{MayChange};
ghost use Rattle.inode_tree.specs.Places.{spot_of, unlink_at};

use crate::making::further_names;
use crate::name::Place;
use crate::tree::Tree;
use extent_map::Origin;
use std::alloc::AllocError;
use sx_base::{Refusal, Stop};

impl<O: Origin> Tree<O> {
    /// Takes away a name that is not a directory's, and with its last name the inode. After
    /// `NoMemory` nothing is said of the tree: what a snapshot shares is copied before it is
    /// changed.
    ///
    /// # Errors
    /// The first refusal of UNLINK: those of the place, NoEntry, IsDirectory; then nothing changes.
    pub fn unlink(&mut self, path: &[u8]) -> Result<(), Stop>
        ensures { MayChange result self.old self.new (edit.unlink path.now self.old) }
    {
        let place = self.place(path)?;
        self.take_plain(&place)
    }

    /// Takes away an empty directory. After `NoMemory` nothing is said of the tree: what a snapshot
    /// shares is copied before it is changed.
    ///
    /// # Errors
    /// The first refusal of RMDIR: those of the place, NoEntry, NotDirectory, NotEmpty; then
    /// nothing changes.
    pub fn rmdir(&mut self, path: &[u8]) -> Result<(), Stop>
        ensures { MayChange result self.old self.new (edit.rmdir path.now self.old) }
    {
        let place = self.place(path)?;
        let Some(ino) = self.named(&place) else {
            return Err(Stop::Refused(Refusal::NoEntry));
        };
        if !self.is_directory(ino) {
            return Err(Stop::Refused(Refusal::NotDirectory));
        }
        if !self.is_empty(ino) {
            return Err(Stop::Refused(Refusal::NotEmpty));
        }
        self.take_name(&place, ino, true)?;
        Ok(())
    }

    // Whether no name stands in a directory.
    pub(crate) fn is_empty(&self, ino: u64) -> bool
        ensures { result ≡ is_empty_directory self.now ino }
    {
        let _names = self.names.iter();
        if self.named(&Place::new(ino, b"")).is_some() {
            return false;
        }
        let Some(next) = self.names.next_after(&Place::new(ino, b"")) else {
            return true;
        };
        next.0.directory() != ino
    }

    // The name at a place goes, and with its last name the inode. Where that is a directory, both
    // come back.
    fn take_plain(&mut self, place: &Place<'_>) -> Result<(), Stop>
        ensures { MayChange result self.old self.new (unlink_at (spot_of place.now) self.old) }
    {
        if !self.whole {
            return Err(Stop::NoMemory);
        }
        self.whole = false;
        let Some(ino) = self.names.remove(place)? else {
            self.whole = true;
            return Err(Stop::Refused(Refusal::NoEntry));
        };
        let further = further_names(&self.further, ino);
        if further > 0 {
            self.further.insert(&ino, further - 1)?;
            self.last.forget_name(false);
            self.whole = true;
            return Ok(());
        }
        let Some(inode) = self.inodes.remove(&ino)? else {
            unreachable!()
        };
        if inode.get().is_directory() {
            self.names.insert(place, ino)?;
            self.inodes.insert(&ino, inode)?;
            self.whole = true;
            return Err(Stop::Refused(Refusal::IsDirectory));
        }
        self.last.forget_name(false);
        self.whole = true;
        Ok(())
    }

    // A name of an inode with no names in it goes, and with its last name the inode. It is a
    // directory or not.
    pub(crate) fn take_name(
        &mut self,
        place: &Place<'_>,
        ino: u64,
        directory: bool,
    ) -> Result<(), AllocError>
        requires there { named self.old place.now.0 place.now.1 ≡ Some ino }
        requires leaf { (name : List ℕ) (below : ℕ) → named self.old ino name ≢ Some below }
        requires kind { directory ≡ is_directory self.old ino }
        ensures { OnOk result (self.new ≡ edit.take_name (spot_of place.now) ino self.old) }
    {
        if !self.whole {
            return Err(AllocError);
        }
        let further = further_names(&self.further, ino);
        self.whole = false;
        self.last.forget_name(directory);
        let _ino = self.names.remove(place)?;
        if further == 0 {
            let _inode = self.inodes.remove(&ino)?;
            self.whole = true;
            return Ok(());
        }
        self.further.insert(&ino, further - 1)?;
        self.whole = true;
        Ok(())
    }
}
