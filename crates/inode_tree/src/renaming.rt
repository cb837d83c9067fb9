// Moving names.
ghost use Rattle.std.specs.Prelude.{◌≡◌, ◌≢◌, ◌&&◌, ℕ, List, Some, None, Ok, IfOk, OnOk};
ghost use Rattle.send_model.specs.Subvolume.{IsSound, named, is_directory, spot};
ghost use Rattle.send_model.specs.Edit as edit;
ghost use Rattle.sx_base.specs.Answers.{Finds, MayChange};
ghost use Rattle.inode_tree.specs.Places.{MovesIfFree};
ghost use Rattle.inode_tree.specs.Places.{spot_of};

use crate::name::Place;
use crate::tree::Tree;
use crate::walked::ROOT;
use extent_map::Origin;
use path_rules::split;
use std::alloc::AllocError;
use sx_base::{Refusal, Stop};

impl<O: Origin> Tree<O> {
    /// Moves a name. What stands at the new place gives way; where that is the same inode, both
    /// names stay. After `NoMemory` nothing is said of the tree.
    ///
    /// # Errors
    /// The first refusal of RENAME: those of the place, NoEntry, those of the new place,
    /// IntoItself, and where another inode stands there NotDirectory, IsDirectory or NotEmpty; then
    /// nothing changes.
    pub fn rename(&mut self, path: &[u8], path_to: &[u8]) -> Result<(), Stop>
        ensures { MayChange result self.old self.new (edit.rename path.now path_to.now self.old) }
    {
        let from = self.place(path)?;
        let Some(moved) = self.standing(path, &from) else {
            return Err(Stop::Refused(Refusal::NoEntry));
        };
        let to = self.place(path_to)?;
        if !self.whole {
            return Err(Stop::NoMemory);
        }
        let directory = self.is_directory(moved);
        if self.goes_into_itself(moved, directory, path_to) {
            let Some(there) = self.named(&to) else {
                return Err(Stop::Refused(Refusal::IntoItself));
            };
            if there != moved {
                return Err(Stop::Refused(Refusal::IntoItself));
            }
            return Ok(());
        }
        if self.move_to(&from, &to, moved, directory, path_to)? {
            return Ok(());
        }
        let Some(there) = self.named(&to) else {
            unreachable!()
        };
        if there == moved {
            return Ok(());
        }
        self.check_replace(moved, there)?;
        self.move_onto(&from, &to, moved, there)?;
        Ok(())
    }

    // What stands at the place of a path, which may be what that path is known to lead to.
    fn standing(&self, path: &[u8], place: &Place<'_>) -> Option<u64>
        requires { spot self.now path.now ≡ Ok (spot_of place.now) }
        ensures { result ≡ named self.now place.now.0 place.now.1 }
    {
        if let Some(ino) = self.known(path) {
            return Some(ino);
        }
        self.named(place)
    }

    // Whether what moves, a directory or not, would go to a place in it or below it.
    fn goes_into_itself(&self, moved: u64, directory: bool, path_to: &[u8]) -> bool
        requires { directory ≡ is_directory self.now moved }
        ensures { result ≡ (is_directory self.now moved
            && edit.lies_below self.now moved path_to.now) }
    {
        directory && self.lies_below(moved, path_to)
    }

    // Whether the walk to the directory of a path passes an inode.
    fn lies_below(&self, ino: u64, path: &[u8]) -> bool
        ensures { result ≡ edit.lies_below self.now ino path.now }
    {
        let Ok(mut names) = split(path) else {
            return false;
        };
        let mut directory = ROOT;
        let Some(mut name) = names.next() else {
            return directory == ino;
        };
        for further in names {
            if directory == ino {
                return true;
            }
            let Some(below) = self.named(&Place::new(directory, name)) else {
                return false;
            };
            directory = below;
            name = further;
        }
        directory == ino
    }

    // Whether what stands at a place can give way to another inode.
    fn check_replace(&self, moved: u64, there: u64) -> Result<(), Refusal>
        ensures { Finds result (edit.can_replace self.now moved there) }
    {
        let from_directory = self.is_directory(moved);
        let to_directory = self.is_directory(there);
        if from_directory && !to_directory {
            return Err(Refusal::NotDirectory);
        }
        if !from_directory && to_directory {
            return Err(Refusal::IsDirectory);
        }
        if to_directory && !self.is_empty(there) {
            return Err(Refusal::NotEmpty);
        }
        Ok(())
    }

    // The name of an inode goes to a place where another one gives way.
    fn move_onto(
        &mut self,
        from: &Place<'_>,
        to: &Place<'_>,
        moved: u64,
        there: u64,
    ) -> Result<(), AllocError>
        requires mine { named self.old from.now.0 from.now.1 ≡ Some moved }
        requires stands { named self.old to.now.0 to.now.1 ≡ Some there }
        requires differ { there ≢ moved }
        requires leaf { (name : List ℕ) (below : ℕ) → named self.old there name ≢ Some below }
        requires sound { IsSound
            (edit.move_name (spot_of from.now) (spot_of to.now) moved
            (edit.take_name (spot_of to.now) there self.old)) }
        ensures { OnOk result
            (self.new ≡ edit.move_name (spot_of from.now) (spot_of to.now) moved
            (edit.take_name (spot_of to.now) there self.old)) }
    {
        let directory_there = self.is_directory(there);
        self.take_name(to, there, directory_there)?;
        let directory = self.is_directory(moved);
        let _free = self.move_name(from, to, moved, directory)?;
        Ok(())
    }

    // The name of an inode, a directory or not, goes to the place that a path names, if it is free.
    fn move_to(
        &mut self,
        from: &Place<'_>,
        to: &Place<'_>,
        moved: u64,
        directory: bool,
        path_to: &[u8],
    ) -> Result<bool, AllocError>
        requires at { spot self.old path_to.now ≡ Ok (spot_of to.now) }
        requires there { named self.old from.now.0 from.now.1 ≡ Some moved }
        requires kind { directory ≡ is_directory self.old moved }
        requires sound { named self.old to.now.0 to.now.1 ≡ None
            → IsSound (edit.move_name (spot_of from.now) (spot_of to.now) moved self.old) }
        ensures { IfOk result
            (MovesIfFree (named self.old to.now.0 to.now.1)
            (edit.move_name (spot_of from.now) (spot_of to.now) moved self.old) self.old self.new) }
    {
        let free = self.move_name(from, to, moved, directory)?;
        if !free {
            return Ok(false);
        }
        if directory {
            return Ok(true);
        }
        self.learn(path_to, moved);
        Ok(true)
    }

    // The name of an inode, a directory or not, goes from one place to another, if that is free.
    fn move_name(
        &mut self,
        from: &Place<'_>,
        to: &Place<'_>,
        moved: u64,
        directory: bool,
    ) -> Result<bool, AllocError>
        requires there { named self.old from.now.0 from.now.1 ≡ Some moved }
        requires kind { directory ≡ is_directory self.old moved }
        requires sound { named self.old to.now.0 to.now.1 ≡ None
            → IsSound (edit.move_name (spot_of from.now) (spot_of to.now) moved self.old) }
        ensures { IfOk result
            (MovesIfFree (named self.old to.now.0 to.now.1)
            (edit.move_name (spot_of from.now) (spot_of to.now) moved self.old) self.old self.new) }
    {
        if !self.whole {
            return Err(AllocError);
        }
        self.whole = false;
        if !self.names.insert_new(to, moved)? {
            self.whole = true;
            return Ok(false);
        }
        let _moved = self.names.remove(from)?;
        self.last.forget_name(directory);
        self.whole = true;
        Ok(true)
    }
}
