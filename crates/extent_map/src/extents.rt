// The contents of a file.
ghost use Rattle.std.specs.Prelude.{◌≡◌, ℕ, ◌+◌, ◌^◌, ◌<◌, ◌≤◌, ◌⊎◌, IfOk, IfSome, OnOk, None, Some, [], length};
ghost use Rattle.extent_map.specs.Cells.{resize_cells, put_cells, cells_between, IsFirstFrom};
ghost use Rattle.extent_map.specs.Pieces.{run_cells, zero_cells, foreign_cell};
ghost use Rattle.extent_map.specs.Leaves.{cells_in, IsReached};

use crate::foreign::first_in_tree;
use crate::origin::Origin;
use crate::parts::Part;
use crate::piece::Piece;
use crate::pieces::Pieces;
use crate::tree::Tree;
use std::alloc::{AllocError, Global};
use std::marker::Model;
use std::mem;

// Up to so many pieces are copied one by one.
const FEW: usize = 8;

/// The contents of a file, seen as a list of cells. A cell is an origin, or None where it is zero.
/// A hole takes as much memory as any other run of cells, and one run takes none of the heap.
/// Copies share their runs, and each call takes a time that grows with the logarithm of their
/// number.
#[derive(Debug, Drop)]
pub struct Extents<O: Origin> {
    root: Root<O>,
    alloc: Global,
}

/// One piece, or a tree of any number.
#[derive(Debug, Drop)]
pub(crate) enum Root<O: Origin> {
    One(Piece<O>),
    Many(Tree<O>),
}

impl<O: Origin> Model for Extents<O> {
    ghost use Rattle.std.specs.Prelude.{List, Option, ◌<◌, ◌^◌, length};
    ghost use Rattle.extent_map.specs.Roots.{root_cells, IsRoot};

    ghost Value = { List (Option O) };

    ghost view = { λ e. root_cells O.advanced e.root };

    ghost invariant = { λ e. IsRoot O.advanced O.reach e.root };
}

impl<O: Origin> Root<O> {
    ghost use Rattle.extent_map.specs.Roots.{root_cells, IsRoot, IsPut};

    /// How many cells there are.
    fn size(&self) -> u64
        requires { IsRoot O.advanced O.reach self.now }
        ensures { result ≡ length (root_cells O.advanced self.now) }
    {
        match self {
            Root::One(piece) => piece.len,
            Root::Many(tree) => tree.span(),
        }
    }

    /// The first place from `at` on where a foreign cell stands, or the end of the cells.
    fn first_foreign(&self, at: u64) -> u64
        requires root { IsRoot O.advanced O.reach self.now }
        requires within { at ≤ length (root_cells O.advanced self.now) }
        ensures { IsFirstFrom (foreign_cell O.foreign) None at (root_cells O.advanced self.now)
            result }
    {
        match self {
            Root::One(piece) => piece.first_foreign(at),
            Root::Many(tree) => first_in_tree(tree, at),
        }
    }

    /// The same cells.
    fn copy(&self) -> Result<Root<O>, AllocError>
        ensures { IfOk result (λ root. root ≡ self.now) }
    {
        match self {
            Root::One(piece) => Ok(Root::One(*piece)),
            Root::Many(tree) => Ok(Root::Many(tree.copy()?)),
        }
    }

    /// A tree of the cells.
    fn tree(self, alloc: Global) -> Result<Tree<O>, AllocError>
        requires { IsRoot O.advanced O.reach self }
        ensures { IfOk result (λ t. t.cells ≡ root_cells O.advanced self) }
    {
        match self {
            Root::One(piece) => Tree::of_piece(alloc, piece),
            Root::Many(tree) => Ok(tree),
        }
    }

    /// The one piece that the cells are with those of a piece put in at their end, if they are one.
    fn with(&self, at: u64, piece: &Piece<O>) -> Option<Piece<O>>
        requires root { IsRoot O.advanced O.reach self.now }
        requires end { at + piece.now.len < 2 ^ 63 }
        ensures { IfSome result
            (IsPut O.advanced O.reach (root_cells O.advanced self.now) at piece.now) }
    {
        match self {
            Root::One(one) => { if at == one.len { one.with(piece) } else { None } }
            Root::Many(_) => None,
        }
    }

    /// What the cells of a tree stand in.
    fn of(tree: Tree<O>) -> Root<O>
        requires { length tree.cells < 2 ^ 63 }
        ensures root { IsRoot O.advanced O.reach result }
        ensures cells { root_cells O.advanced result ≡ tree.cells }
    {
        match tree.only() {
            Some(piece) => Root::One(piece),
            None => Root::Many(tree),
        }
    }
}

impl<O: Origin> Extents<O> {
    /// No cells. Later calls take their memory from `alloc`.
    pub fn new(alloc: Global) -> Extents<O>
        ensures { result ≡ [] }
    {
        Extents {
            root: Root::Many(Tree::new()),
            alloc,
        }
    }

    /// How many cells there are.
    pub fn size(&self) -> u64
        ensures count { result ≡ length self.now }
        ensures fits { result < 2 ^ 63 }
    {
        self.root.size()
    }

    /// The same cells. Fails for want of memory alone.
    pub fn copy(&self) -> Result<Extents<O>, AllocError>
        ensures { IfOk result (λ copy. copy ≡ self.now) }
    {
        Ok(Extents {
            root: self.root.copy()?,
            alloc: self.alloc,
        })
    }

    /// Puts a run of `len` cells from `origin` in place of the cells from `at` on. Fails for want
    /// of memory alone.
    #[tactic(auto, unfolding(crate::specs::Pieces::piece_cells))]
    pub fn put_run(&mut self, at: u64, origin: O, len: u64) -> Result<(), AllocError>
        requires end { at + len < 2 ^ 63 }
        requires reaches { len ≤ O.reach origin }
        ensures { OnOk result
            (self.new ≡ put_cells None at (run_cells O.advanced origin len) self.old) }
    {
        self.put_piece(
            at,
            Piece {
                origin: Some(origin),
                len,
            },
        )
    }

    /// Puts `len` zero cells in place of the cells from `at` on. Fails for want of memory alone.
    #[tactic(auto, unfolding(crate::specs::Pieces::piece_cells))]
    pub fn zero_run(&mut self, at: u64, len: u64) -> Result<(), AllocError>
        requires { at + len < 2 ^ 63 }
        ensures { OnOk result (self.new ≡ put_cells None at (zero_cells len) self.old) }
    {
        self.put_piece(at, Piece { origin: None, len })
    }

    /// Makes the contents `size` cells long: cuts them, or fills them with zero cells. Fails for
    /// want of memory alone.
    pub fn cut_to(&mut self, size: u64) -> Result<(), AllocError>
        requires { size < 2 ^ 63 }
        ensures { OnOk result (self.new ≡ resize_cells None size self.old) }
    {
        let tree = self.taken()?.resized(self.alloc, size)?;
        self.root = Root::of(tree);
        Ok(())
    }

    /// Puts the `len` cells of `source` from `from` on in place of the cells from `at` on.
    /// Fails for want of memory alone.
    pub fn copy_range(
        &mut self,
        at: u64,
        source: &Extents<O>,
        from: u64,
        len: u64,
    ) -> Result<(), AllocError>
        requires end { at + len < 2 ^ 63 }
        requires source { from + len ≤ length source.now }
        ensures { OnOk result
            (self.new ≡ put_cells None at (cells_between from len source.now) self.old) }
    {
        if source.are_few(from, len) {
            return self.copy_pieces(at, source, from, len);
        }
        let part = source.range(from, len)?;
        self.put_tree(at, part)
    }

    /// Puts the `len` cells from `from` on in place of those from `at` on, which are others.
    /// Fails for want of memory alone.
    pub fn copy_within(&mut self, at: u64, from: u64, len: u64) -> Result<(), AllocError>
        requires end { at + len < 2 ^ 63 }
        requires source { from + len ≤ length self.old }
        requires apart { (at + len ≤ from) ⊎ (from + len ≤ at) }
        ensures { OnOk result
            (self.new ≡ put_cells None at (cells_between from len self.old) self.old) }
    {
        let mut part = Extents::new(self.alloc);
        part.copy_range(0, self, from, len)?;
        self.copy_range(at, &part, 0, len)
    }

    /// The cells of a range as pieces, in order.
    pub fn pieces(&self, from: u64, len: u64) -> Pieces<'_, O>
        requires { from + len ≤ length self.now }
        ensures { result ≡ cells_between from len self.now }
    {
        Pieces::new(&self.root, from, from + len)
    }

    /// The first place from `at` on where a foreign cell stands, or the size where there is none.
    /// It takes no memory, and passes any number of runs that are not foreign at once.
    pub fn next_foreign(&self, at: u64) -> u64
        requires { at ≤ length self.now }
        ensures { IsFirstFrom (foreign_cell O.foreign) None at self.now result }
    {
        self.root.first_foreign(at)
    }

    /// Whether a range is of few pieces.
    fn are_few(&self, from: u64, len: u64) -> bool
        requires { from + len ≤ length self.now }
    {
        let mut count: usize = 0;
        for _ in self.pieces(from, len) {
            if count == FEW {
                return false;
            }
            count = count.saturating_add(1);
        }
        true
    }

    /// Puts cells of `source` in place of others, piece by piece.
    fn copy_pieces(
        &mut self,
        at: u64,
        source: &Extents<O>,
        from: u64,
        len: u64,
    ) -> Result<(), AllocError>
        requires end { at + len < 2 ^ 63 }
        requires source { from + len ≤ length source.now }
        ensures { OnOk result
            (self.new ≡ put_cells None at (cells_between from len source.now) self.old) }
    {
        let mut place = at;
        for (origin, piece_len) in source.pieces(from, len) {
            self.put_piece(
                place,
                Piece {
                    origin,
                    len: piece_len,
                },
            )?;
            place += piece_len;
        }
        Ok(())
    }

    /// The tree of the cells, which goes out: no cells stay.
    fn taken(&mut self) -> Result<Tree<O>, AllocError>
        ensures cells { IfOk result (λ t. t.cells ≡ self.old) }
        ensures fits { IfOk result (λ t. length t.cells < 2 ^ 63) }
    {
        mem::replace(&mut self.root, Root::Many(Tree::new())).tree(self.alloc)
    }

    /// The cells of a range as a tree.
    #[tactic(auto, unfolding(crate::specs::Cells::cells_between))]
    fn range(&self, from: u64, len: u64) -> Result<Tree<O>, AllocError>
        requires { from + len ≤ length self.now }
        ensures { IfOk result (λ t. t.cells ≡ cells_between from len self.now) }
    {
        let whole = self.root.copy()?.tree(self.alloc)?;
        let (_, back) = whole.halves(self.alloc, from)?;
        let (part, _) = back.halves(self.alloc, len)?;
        Ok(part)
    }

    /// Puts a piece in place of the cells from `at` on.
    fn put_piece(&mut self, at: u64, piece: Piece<O>) -> Result<(), AllocError>
        requires end { at + piece.len < 2 ^ 63 }
        requires reaches { IsReached O.reach piece }
        ensures { OnOk result (self.new ≡ put_cells None at (cells_in O.advanced piece) self.old) }
    {
        if piece.len == 0 {
            return Ok(());
        }
        if at == 0 && piece.len >= self.size() {
            self.root = Root::One(piece);
            return Ok(());
        }
        if let Some(both) = self.root.with(at, &piece) {
            self.root = Root::One(both);
            return Ok(());
        }
        let tree = self.taken()?.with(self.alloc, at, piece)?;
        self.root = Root::of(tree);
        Ok(())
    }

    /// Puts the cells of a tree in place of the cells from `at` on.
    fn put_tree(&mut self, at: u64, new: Tree<O>) -> Result<(), AllocError>
        requires { at + length new.cells < 2 ^ 63 }
        ensures { OnOk result (self.new ≡ put_cells None at new.cells self.old) }
    {
        if new.height() == 0 {
            return Ok(());
        }
        let tree = self.taken()?.with_tree(self.alloc, at, new)?;
        self.root = Root::of(tree);
        Ok(())
    }
}
