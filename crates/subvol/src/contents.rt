// Writing the contents of files.
ghost use Rattle.std.specs.Prelude.{◌≡◌, ◌+◌, ◌^◌, ◌<◌, ◌≤◌, ℕ, true, None, [], IfOk, OnOk, nat_le};
ghost use Rattle.send_model.specs.Refusal as refusal;
ghost use Rattle.send_model.specs.Chain.{require};
ghost use Rattle.send_model.specs.Subvolume.{is_file};
ghost use Rattle.send_model.specs.Edit as edit;
ghost use Rattle.send_model.specs.Clone.{cells_of};
ghost use Rattle.extent_map.specs.Pieces.{run_cells};
ghost use Rattle.sx_base.specs.Answers.{Finds, MayChange};
ghost use Rattle.subvol.specs.Files.{file_at};

use crate::allocation::{allocate, allocation_of};
use crate::subvol::Subvol;
use extent_map::{Extents, Origin};
use inode_tree::{NodeKind, Tree};
use std::alloc::AllocError;
use sx_base::{Refusal, Stop};

// The greatest end of a file's contents: no file is longer in Linux.
const GREATEST_END: u64 = (1 << 63) - 1;

impl<O: Origin> Subvol<O> {
    /// Puts a run of `len` cells from an origin at the place `at` of a file, as WRITE; a gap before
    /// it is filled with zero cells. After `NoMemory` nothing is said of the subvolume.
    ///
    /// # Errors
    /// The refusals of the walk, NotFile, then FileTooBig where the run ends above 2^63 - 1; then
    /// nothing changes.
    pub fn write(&mut self, path: &[u8], at: u64, origin: O, len: u64) -> Result<(), Stop>
        requires { len ≤ O.reach origin }
        ensures { MayChange result self.old self.new
            (edit.change_contents path.now (at + len)
            (edit.written_at None at (run_cells O.advanced origin len)) self.old) }
    {
        let ino = self.file(path)?;
        check_end(at, len)?;
        let mut contents = self.take_contents(ino)?;
        contents.put_run(at, origin, len)?;
        self.put_contents(ino, contents)?;
        Ok(())
    }

    /// Cuts the contents of a file to a size, or fills them with zero cells, as TRUNCATE. After
    /// `NoMemory` nothing is said of the subvolume.
    ///
    /// # Errors
    /// The refusals of the walk, NotFile, then FileTooBig where the size is above 2^63 - 1; then
    /// nothing changes.
    pub fn truncate(&mut self, path: &[u8], size: u64) -> Result<(), Stop>
        ensures { MayChange result self.old self.new
            (edit.change_contents path.now size (edit.resized None size) self.old) }
    {
        let ino = self.file(path)?;
        check_end(0, size)?;
        let mut contents = self.take_contents(ino)?;
        contents.cut_to(size)?;
        self.put_contents(ino, contents)?;
        Ok(())
    }

    /// Lengthens a file, punches a hole or zeroes a range of it by the mode, as FALLOCATE. After
    /// `NoMemory` nothing is said of the subvolume.
    ///
    /// # Errors
    /// The refusals of the walk, NotFile, BadFallocate where the mode is none of 0, 1, 3, 16 and
    /// 17, then FileTooBig where the range ends above 2^63 - 1; then nothing changes.
    pub fn fallocate(&mut self, path: &[u8], mode: u32, at: u64, len: u64) -> Result<(), Stop>
        ensures { MayChange result self.old self.new
            (edit.fallocate None path.now at len mode self.old) }
    {
        let ino = self.file(path)?;
        let Some(allocation) = allocation_of(mode) else {
            return Err(Stop::Refused(Refusal::BadFallocate(mode)));
        };
        check_end(at, len)?;
        let mut contents = self.take_contents(ino)?;
        allocate(&mut contents, allocation, at, len)?;
        self.put_contents(ino, contents)?;
        Ok(())
    }

    // The file that a path leads to; the walk is remembered.
    fn file(&mut self, path: &[u8]) -> Result<u64, Refusal>
        ensures found { Finds result (file_at self.old path.now) }
        ensures same { self.new ≡ self.old }
    {
        let ino = self.tree.reach(path)?;
        if !is_file(&self.tree, ino) {
            return Err(Refusal::NotFile);
        }
        Ok(ino)
    }

    // Takes the contents of a file, which leaves it empty.
    pub(crate) fn take_contents(&mut self, ino: u64) -> Result<Extents<O>, AllocError>
        requires { is_file self.old ino ≡ true }
        ensures contents { IfOk result (λ contents. contents ≡ cells_of self.old ino) }
        ensures tree { OnOk result
            (self.new ≡ edit.change_inode ino (edit.set_cells (λ _. [])) self.old) }
        ensures file { OnOk result (is_file self.new ino ≡ true) }
    {
        let mut contents = Extents::new(self.alloc);
        let _there = self.tree.swap_contents(ino, &mut contents)?;
        Ok(contents)
    }

    // Gives a file these contents.
    pub(crate) fn put_contents(&mut self, ino: u64, contents: Extents<O>) -> Result<(), AllocError>
        requires { is_file self.old ino ≡ true }
        ensures { OnOk result
            (self.new ≡ edit.change_inode ino (edit.set_cells (λ _. contents)) self.old) }
    {
        let mut contents = contents;
        let _there = self.tree.swap_contents(ino, &mut contents)?;
        Ok(())
    }
}

// The file that a path leads to.
pub(crate) fn file_at<O: Origin>(tree: &Tree<O>, path: &[u8]) -> Result<u64, Refusal>
    ensures { Finds result (file_at tree.now path.now) }
{
    let ino = tree.find(path)?;
    if !is_file(tree, ino) {
        return Err(Refusal::NotFile);
    }
    Ok(ino)
}

// Whether there is a file of that number.
#[tactic(auto, unfolding(send_model::specs::Subvolume::is_file))]
fn is_file<O: Origin>(tree: &Tree<O>, ino: u64) -> bool
    ensures { result ≡ is_file tree.now ino }
{
    match tree.inode(ino) {
        Some(inode) => matches!(inode.kind(), NodeKind::File),
        None => false,
    }
}

// Tests that a range ends where a file may end.
pub(crate) fn check_end(at: u64, len: u64) -> Result<(), Refusal>
    ensures tested { Finds result
        (require (nat_le (at + len) edit.greatest_end) refusal.FileTooBig) }
    ensures fits { OnOk result (at + len < 2 ^ 63) }
{
    match at.checked_add(len) {
        Some(end) if end <= GREATEST_END => Ok(()),
        _ => Err(Refusal::FileTooBig),
    }
}
