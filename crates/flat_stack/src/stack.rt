ghost use Rattle.std.specs.Prelude.{◌≡◌, ◌+◌, ◌≤◌, length, get_or, set, take, drop, replicate, IfOk};
ghost use Rattle.rvt_num.specs.declared.values.Value.TheVariants as V;
ghost use Rattle.c_meaning.specs.Stores.{overwritten};

use c_cells::Cell;
use std::alloc::{AllocError, Global};
use std::marker::Model;

/// An array of cells, which contracts see as the list of their values. Nothing but `new` takes memory.
#[derive(Drop, Debug)]
pub struct FlatStack {
    cells: Vec<Cell>,
}

impl Model for FlatStack {
    ghost use Rattle.std.specs.Prelude.{List};
    ghost use Rattle.rvt_num.specs.declared.values.Value.{Value as RunValue};

    ghost Value = { List RunValue };

    ghost view = { λ it. it.cells.items };
}

impl FlatStack {
    /// So many cells, each null.
    pub fn new(alloc: Global, length: usize) -> Result<FlatStack, AllocError>
        ensures { IfOk result (λ stack. stack ≡ replicate length V.Null) }
    {
        let cells = vec![in alloc; Cell::null(); length]?;
        Ok(FlatStack { cells })
    }

    pub fn length(&self) -> usize
        ensures { result ≡ length self.now }
    {
        self.cells.len()
    }

    /// The cell at a place, null behind the end.
    pub fn get(&self, at: usize) -> Cell
        ensures { result ≡ get_or self.now at V.Null }
    {
        match self.cells.get(at) {
            Some(cell) => *cell,
            None => Cell::null(),
        }
    }

    /// Writes a cell; behind the end nothing is written.
    pub fn set(&mut self, at: usize, cell: Cell)
        ensures { self.new ≡ set self.old at cell }
    {
        if at < self.cells.len() {
            self.cells[at] = cell;
        }
    }

    /// Writes cells from a place on.
    pub fn put(&mut self, at: usize, cells: &[Cell])
        requires { at + length cells.now ≤ length self.old }
        ensures { self.new ≡ overwritten self.old at cells.now }
    {
        self.cells[at..at + cells.len()].copy_from_slice(cells);
    }

    /// Copies cells to another place of the array, also where the two overlap.
    pub fn copy(&mut self, from: usize, count: usize, to: usize)
        requires source { from + count ≤ length self.old }
        requires target { to + count ≤ length self.old }
        ensures { self.new ≡ overwritten self.old to (take count (drop from self.old)) }
    {
        self.cells.copy_within(from..from + count, to);
    }

    /// Some cells in a row.
    pub fn range(&self, from: usize, count: usize) -> &[Cell]
        requires { from + count ≤ length self.now }
        ensures { result.now ≡ take count (drop from self.now) }
    {
        &self.cells[from..from + count]
    }
}
