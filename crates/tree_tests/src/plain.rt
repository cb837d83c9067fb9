// The contents of a file as a vector of cells: the definitions as a plain program, small and slow,
// with the contracts of `Extents`.
ghost use Rattle.std.specs.Prelude.{◌≡◌, ℕ, ◌+◌, ◌-◌, ◌^◌, ◌<◌, ◌≤◌, ◌++◌, ◌⊎◌, IfOk, OnOk, None, [], length};
ghost use lib.ListN.{replicate};
ghost use Rattle.extent_map.specs.Cells.{resize_cells, put_cells, cells_between};
ghost use Rattle.extent_map.specs.Pieces.{run_cells, zero_cells};

use extent_map::Origin;
use std::alloc::{AllocError, Global};
use std::marker::Model;

/// The cells of a file.
#[derive(Drop)]
pub(crate) struct PlainCells<O: Origin> {
    cells: Vec<Option<O>>,
    alloc: Global,
}

impl<O: Origin> Model for PlainCells<O> {
    ghost use Rattle.std.specs.Prelude.{List, Option};

    ghost Value = { List (Option O) };

    ghost view = { λ p. p.cells.items };
}

impl<O: Origin> PlainCells<O> {
    pub(crate) fn new(alloc: Global) -> PlainCells<O>
        ensures { result ≡ [] }
    {
        PlainCells {
            cells: Vec::new(alloc),
            alloc,
        }
    }

    pub(crate) fn cells(&self) -> &[Option<O>]
        ensures { result.now ≡ self.now }
    {
        &self.cells
    }

    pub(crate) fn copy(&self) -> Result<PlainCells<O>, AllocError>
        ensures { IfOk result (λ copy. copy ≡ self.now) }
    {
        Ok(PlainCells {
            cells: Vec::from_slice(self.alloc, &self.cells)?,
            alloc: self.alloc,
        })
    }

    pub(crate) fn put_run(&mut self, at: u64, origin: O, len: u64) -> Result<(), AllocError>
        requires end { at + len < 2 ^ 63 }
        requires reaches { len ≤ O.reach origin }
        ensures { OnOk result
            (self.new ≡ put_cells None at (run_cells O.advanced origin len) self.old) }
    {
        let cells = run_of(self.alloc, origin, len)?;
        self.put(at, &cells)
    }

    pub(crate) fn zero_run(&mut self, at: u64, len: u64) -> Result<(), AllocError>
        requires { at + len < 2 ^ 63 }
        ensures { OnOk result (self.new ≡ put_cells None at (zero_cells len) self.old) }
    {
        let mut cells = Vec::new(self.alloc);
        fill(&mut cells, len as usize)?;
        self.put(at, &cells)
    }

    pub(crate) fn cut_to(&mut self, size: u64) -> Result<(), AllocError>
        requires { size < 2 ^ 63 }
        ensures { OnOk result (self.new ≡ resize_cells None size self.old) }
    {
        self.cells.truncate(size as usize);
        fill(&mut self.cells, size as usize)?;
        Ok(())
    }

    pub(crate) fn copy_range(
        &mut self,
        at: u64,
        source: &PlainCells<O>,
        from: u64,
        len: u64,
    ) -> Result<(), AllocError>
        requires end { at + len < 2 ^ 63 }
        requires source { from + len ≤ length source.now }
        ensures { OnOk result
            (self.new ≡ put_cells None at (cells_between from len source.now) self.old) }
    {
        let range = &source.cells[from as usize..][..len as usize];
        self.put(at, range)
    }

    pub(crate) fn copy_within(&mut self, at: u64, from: u64, len: u64) -> Result<(), AllocError>
        requires end { at + len < 2 ^ 63 }
        requires source { from + len ≤ length self.old }
        requires apart { (at + len ≤ from) ⊎ (from + len ≤ at) }
        ensures { OnOk result
            (self.new ≡ put_cells None at (cells_between from len self.old) self.old) }
    {
        let range = Vec::from_slice(self.alloc, &self.cells[from as usize..][..len as usize])?;
        self.put(at, &range)
    }

    fn put(&mut self, at: u64, new: &[Option<O>]) -> Result<(), AllocError>
        requires { at + length new.now < 2 ^ 63 }
        ensures { OnOk result (self.new ≡ put_cells None at new.now self.old) }
    {
        if new.is_empty() {
            return Ok(());
        }
        let end = at as usize + new.len();
        let tail = Vec::from_slice(self.alloc, &self.cells[end.min(self.cells.len())..])?;
        self.cut_to(at)?;
        self.cells.extend_from_slice(new)?;
        self.cells.extend_from_slice(&tail)?;
        Ok(())
    }
}

/// Puts zero cells at the end until there are `size` cells.
fn fill<O: Origin>(cells: &mut Vec<Option<O>>, size: usize) -> Result<(), AllocError>
    ensures { OnOk result
        (cells.new.items ≡ cells.old.items ++ replicate (size - length cells.old.items) None) }
{
    for have in cells.len()..size {
        cells.push(None)?;
    }
    Ok(())
}

/// The cells of a run.
fn run_of<O: Origin>(alloc: Global, origin: O, len: u64) -> Result<Vec<Option<O>>, AllocError>
    requires { len ≤ O.reach origin }
    ensures { IfOk result (λ cells. cells.items ≡ run_cells O.advanced origin len) }
{
    let mut cells = Vec::new(alloc);
    for k in 0..len {
        cells.push(Some(origin.advance(k)))?;
    }
    Ok(cells)
}
