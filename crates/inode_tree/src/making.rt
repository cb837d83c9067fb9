// Making inodes and names.
ghost use Rattle.std.specs.Prelude.{◌≡◌, IfOk};
ghost use Rattle.send_model.specs.Edit as edit;
ghost use Rattle.sx_base.specs.Answers.{MayChange};
ghost use Rattle.inode_tree.specs.Kinds.{kind_of, new_of_kind};
ghost use Rattle.inode_tree.specs.Trees.{further_names};

use crate::inode::Inode;
use crate::kind::NodeKind;
use crate::tree::Tree;
use extent_map::Origin;
use path_rules::split;
use shared_map::{Shared, SharedMap};
use sx_base::{Refusal, Stop};

impl<O: Origin> Tree<O> {
    /// Makes an inode of a kind under a name, with the next number, and gives that number. MKFILE,
    /// MKDIR, MKNOD, MKFIFO, MKSOCK and SYMLINK make theirs so. After `NoMemory` nothing is said of
    /// the tree.
    ///
    /// # Errors
    /// The first refusal of the making: of the place, EntryThere or NoNumber; then nothing changes.
    pub fn make(
        &mut self,
        path: &[u8],
        kind: NodeKind,
        rdev: u64,
        target: &[u8],
    ) -> Result<u64, Stop>
        ensures made { MayChange result self.old self.new
            (edit.make (new_of_kind (kind_of kind) rdev target.now) path.now self.old) }
        ensures number { IfOk result (λ ino. ino ≡ self.old.next) }
    {
        let place = self.place(path)?;
        if !self.whole {
            return Err(Stop::NoMemory);
        }
        if self.next == u64::MAX {
            if self.named(&place).is_some() {
                return Err(Stop::Refused(Refusal::EntryThere));
            }
            return Err(Stop::Refused(Refusal::NoNumber));
        }
        let ino = self.next;
        self.whole = false;
        if !self.names.insert_new(&place, ino)? {
            self.whole = true;
            return Err(Stop::Refused(Refusal::EntryThere));
        }
        let inode = Inode::new(self.alloc, kind, rdev, target)?;
        self.inodes.insert(&ino, Shared::new(self.alloc, inode)?)?;
        self.next = ino + 1;
        self.whole = true;
        self.learn(path, ino);
        Ok(ino)
    }

    /// Gives the inode that `existing` leads to one more name. After `NoMemory` nothing is said of
    /// the tree.
    ///
    /// # Errors
    /// The first refusal of LINK: BadPath of the new path, those of the walk, IsDirectory, those of
    /// the place, EntryThere; then nothing changes.
    pub fn link(&mut self, path: &[u8], existing: &[u8]) -> Result<(), Stop>
        ensures { MayChange result self.old self.new (edit.link path.now existing.now self.old) }
    {
        let Ok(_names) = split(path) else {
            return Err(Stop::Refused(Refusal::BadPath));
        };
        let ino = self.reach(existing)?;
        if self.is_directory(ino) {
            return Err(Stop::Refused(Refusal::IsDirectory));
        }
        let place = self.place(path)?;
        if self.named(&place).is_some() {
            return Err(Stop::Refused(Refusal::EntryThere));
        }
        if !self.whole {
            return Err(Stop::NoMemory);
        }
        let Some(further) = further_names(&self.further, ino).checked_add(1) else {
            return Err(Stop::NoMemory);
        };
        self.whole = false;
        self.names.insert(&place, ino)?;
        self.further.insert(&ino, further)?;
        self.whole = true;
        Ok(())
    }
}

// How many names an inode has beyond its first.
pub(crate) fn further_names(further: &SharedMap<u64, u64>, ino: u64) -> u64
    ensures { result ≡ further_names further.now ino }
{
    further.get(&ino).copied().unwrap_or(0)
}
