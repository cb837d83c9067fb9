// Cloning contents of files.
ghost use Rattle.std.specs.Prelude.{◌≡◌, ◌+◌, ◌^◌, ◌<◌, ◌≤◌, ◌==◌, ◌&&◌, true, false, length, None, Some, IfOk, OnOk};
ghost use Rattle.extent_map.specs.Cells.{cells_between};
ghost use Rattle.send_model.specs.Subvolume.{is_file};
ghost use Rattle.send_model.specs.Clone as meant;
ghost use Rattle.sx_base.specs.Answers.{Finds, MayChange};
ghost use Rattle.subvol.specs.Files.{clone_files, check_range};

use crate::contents::{check_end, file_at};
use crate::subvol::Subvol;
use extent_map::{Extents, Origin};
use inode_tree::Tree;
use path_rules::split;
use std::alloc::{AllocError, Global};
use sx_base::{Refusal, Stop};

// Clones begin at a multiple of this. Source: the block size that BTRFS_IOC_CLONE_RANGE asks for on
// x86.
const BLOCK_LEN: u64 = 4_096;

/// A range of a file that is cloned.
#[derive(Debug, Clone, Copy)]
pub struct SourceRange<'a> {
    /// The path of the file.
    pub path: &'a [u8],
    /// The place of its first cell.
    pub from: u64,
    /// How many cells it has.
    pub len: u64,
}

impl<O: Origin> Subvol<O> {
    /// Puts the cells of a range of a file at the place `at` of a file of the same subvolume, as
    /// CLONE. After `NoMemory` nothing is said of the subvolume.
    ///
    /// # Errors
    /// The first refusal of CLONE but NoSource: BadPath of either path, those of the walk, NotFile,
    /// the same of the source, BadRange, Unaligned, FileTooBig, Overlap; then nothing changes.
    pub fn clone_here(&mut self, path: &[u8], at: u64, range: &SourceRange<'_>) -> Result<(), Stop>
        ensures { MayChange result self.old self.new
            (meant.clone None self.old (Some self.old) true
            (meant.clone_values path.now at range.now.path.now range.now.from range.now.len)) }
    {
        let (ino, source) = clone_files(&self.tree, path, &self.tree, range.path)?;
        let cells = contents_of(&self.tree, source);
        check_range(at, range.from, range.len, cells.size())?;
        if share_place(source, ino, at, range.from, range.len) {
            return Err(Stop::Refused(Refusal::Overlap));
        }
        let part = part_of(self.alloc, cells, range.from, range.len)?;
        let mut contents = self.take_contents(ino)?;
        contents.copy_range(at, &part, 0, range.len)?;
        self.put_contents(ino, contents)?;
        Ok(())
    }

    /// Puts the cells of a range of a file of another subvolume at the place `at` of a file, as
    /// CLONE. After `NoMemory` nothing is said of the subvolume.
    ///
    /// # Errors
    /// The first refusal of CLONE but NoSource and Overlap: BadPath of either path, those of the
    /// walk, NotFile, the same of the source, BadRange, Unaligned, FileTooBig; then nothing
    /// changes.
    pub fn clone_from(
        &mut self,
        path: &[u8],
        at: u64,
        source: &Subvol<O>,
        range: &SourceRange<'_>,
    ) -> Result<(), Stop>
        ensures { MayChange result self.old self.new
            (meant.clone None self.old (Some source.now) false
            (meant.clone_values path.now at range.now.path.now range.now.from range.now.len)) }
    {
        let (ino, source_ino) = clone_files(&self.tree, path, &source.tree, range.path)?;
        let cells = contents_of(&source.tree, source_ino);
        check_range(at, range.from, range.len, cells.size())?;
        let mut contents = self.take_contents(ino)?;
        contents.copy_range(at, cells, range.from, range.len)?;
        self.put_contents(ino, contents)?;
        Ok(())
    }
}

// The files that the two paths of a clone lead to: the one that it changes, and its source.
fn clone_files<O: Origin>(
    tree: &Tree<O>,
    path: &[u8],
    other: &Tree<O>,
    source_path: &[u8],
) -> Result<(u64, u64), Refusal>
    ensures { Finds result (clone_files tree.now path.now other.now source_path.now) }
{
    let Ok(_names) = split(path) else {
        return Err(Refusal::BadPath);
    };
    let Ok(_names) = split(source_path) else {
        return Err(Refusal::BadPath);
    };
    let ino = file_at(tree, path)?;
    let source = file_at(other, source_path)?;
    Ok((ino, source))
}

// The contents of a file that is there.
#[tactic(auto, unfolding(send_model::specs::Clone::cells_of, send_model::specs::Subvolume::is_file))]
fn contents_of<O: Origin>(tree: &Tree<O>, ino: u64) -> &Extents<O>
    requires there { is_file tree.now ino ≡ true }
    ensures { result.now ≡ meant.cells_of tree.now ino }
{
    let Some(inode) = tree.inode(ino) else {
        unreachable!()
    };
    inode.contents()
}

// A part of contents. Fails for want of memory alone.
fn part_of<O: Origin>(
    alloc: Global,
    cells: &Extents<O>,
    from: u64,
    len: u64,
) -> Result<Extents<O>, AllocError>
    requires within { from + len ≤ length cells.now }
    requires fits { len < 2 ^ 63 }
    ensures cells { IfOk result (λ part. part ≡ cells_between from len cells.now) }
    ensures count { IfOk result (λ part. length part ≡ len) }
{
    let mut part = Extents::new(alloc);
    part.copy_range(0, cells, from, len)?;
    Ok(part)
}

// Tests the range of a clone, for the size of its source.
fn check_range(at: u64, from: u64, len: u64, size: u64) -> Result<(), Refusal>
    ensures tested { Finds result (check_range at from len size) }
    ensures some { OnOk result (0 < len) }
    ensures within { OnOk result (from + len ≤ size) }
    ensures fits { OnOk result (at + len < 2 ^ 63) }
{
    if len == 0 || len > size || from > size - len {
        return Err(Refusal::BadRange);
    }
    if !is_aligned(at, from, len, size) {
        return Err(Refusal::Unaligned);
    }
    check_end(at, len)
}

// Whether two ranges of one length share a place of one inode.
fn share_place(source: u64, ino: u64, at: u64, from: u64, len: u64) -> bool
    requires to { at + len < 2 ^ 63 }
    requires from { from + len < 2 ^ 63 }
    ensures { result ≡ ((source == ino) && meant.overlap at from len) }
{
    source == ino && at < from + len && from < at + len
}

// Whether a clone takes whole blocks to whole blocks, but for a short one where the source ends.
fn is_aligned(at: u64, from: u64, len: u64, size: u64) -> bool
    requires { from + len ≤ size }
    ensures { result ≡ meant.is_aligned at from len size }
{
    at % BLOCK_LEN == 0 && from % BLOCK_LEN == 0 && (len % BLOCK_LEN == 0 || from + len == size)
}
