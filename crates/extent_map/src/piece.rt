// A run of cells, or some zero cells.
ghost use Rattle.std.specs.Prelude.{◌≡◌, ℕ, ◌+◌, ◌-◌, ◌^◌, ◌<◌, ◌≤◌, None, IfSome, IsTrue, take, drop};
ghost use Rattle.extent_map.specs.Cells.{IsFirstFrom};
ghost use Rattle.extent_map.specs.Pieces.{foreign_cell};

use crate::origin::Origin;
use crate::parts::Part;
use std::alloc::AllocError;

/// So many cells: zero cells, or the first is `origin`, and each further one the origin advanced by
/// one more.
#[derive(Debug, Copy)]
pub(crate) struct Piece<O> {
    pub(crate) origin: Option<O>,
    pub(crate) len: u64,
}

impl<O: Copy> Clone for Piece<O> {
    ghost is_clone = { λ piece copy. copy ≡ piece };

    fn clone(&self) -> Result<Piece<O>, AllocError> {
        Ok(*self)
    }
}

impl<O: Origin> Part for Piece<O> {
    ghost span = { λ piece. piece.len };

    ghost foreign = { λ piece. foreign_cell O.foreign piece.origin };

    fn span(&self) -> u64 {
        self.len
    }

    fn has_foreign(&self) -> bool {
        match &self.origin {
            Some(origin) => origin.is_foreign(),
            None => false,
        }
    }

    fn copy(&self) -> Result<Piece<O>, AllocError> {
        Ok(*self)
    }
}

impl<O: Origin> Piece<O> {
    ghost use Rattle.extent_map.specs.Pieces.{AreOne};
    ghost use Rattle.extent_map.specs.Leaves.{cells_in, IsPiece, IsReached, IsBoth};

    /// The first `count` cells.
    pub(crate) fn front(&self, count: u64) -> Piece<O>
        requires within { count ≤ self.now.len }
        requires reaches { IsReached O.reach self.now }
        ensures len { result.len ≡ count }
        ensures reaches { IsReached O.reach result }
        ensures cells { cells_in O.advanced result ≡ take count (cells_in O.advanced self.now) }
    {
        Piece {
            origin: self.origin,
            len: count,
        }
    }

    /// The cells from `count` on.
    pub(crate) fn behind(&self, count: u64) -> Piece<O>
        requires within { count ≤ self.now.len }
        requires reaches { IsReached O.reach self.now }
        ensures len { result.len ≡ self.now.len - count }
        ensures reaches { IsReached O.reach result }
        ensures cells { cells_in O.advanced result ≡ drop count (cells_in O.advanced self.now) }
    {
        let len = self.len - count;
        match &self.origin {
            Some(origin) => Piece {
                origin: Some(origin.advance(count)),
                len,
            },
            None => Piece { origin: None, len },
        }
    }

    /// The first place from `at` on where a foreign cell stands, or the end of the cells.
    pub(crate) fn first_foreign(&self, at: u64) -> u64
        requires piece { IsPiece O.reach self.now }
        requires within { at ≤ self.now.len }
        ensures { IsFirstFrom (foreign_cell O.foreign) None at (cells_in O.advanced self.now)
            result }
    {
        if self.has_foreign() { at } else { self.len }
    }

    /// Whether this piece and the next one are one.
    fn is_one_with(&self, next: &Piece<O>) -> bool
        ensures { IsTrue result → AreOne O.advanced O.reach
            self.now.origin self.now.len next.now.origin next.now.len }
    {
        match (&self.origin, &next.origin) {
            (None, None) => true,
            (Some(origin), Some(more)) => origin.goes_on(self.len, more, next.len),
            _ => false,
        }
    }

    /// The piece that this one and the next one are, if they are one.
    pub(crate) fn with(&self, next: &Piece<O>) -> Option<Piece<O>>
        requires { self.now.len + next.now.len < 2 ^ 64 }
        ensures { IfSome result (IsBoth O.advanced O.reach self.now next.now) }
    {
        if !self.is_one_with(next) {
            return None;
        }
        Some(Piece {
            origin: self.origin,
            len: self.len + next.len,
        })
    }
}
