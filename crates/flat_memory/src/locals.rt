//! The locals of all activations.

ghost use Rattle.std.specs.Prelude.{◌≡◌, ◌+◌, ◌≤◌, ℕ, List, [], ◌++◌, length, get_or, set, map, IfOk};
ghost use Rattle.rvt_num.specs.declared.values.Value.{Value};
ghost use Rattle.rvt_num.specs.declared.values.Value.TheVariants as V;
ghost use Rattle.c_meaning.specs.Stores.{cleared};
ghost use Rattle.flat_memory.specs.Cells.{joined};
ghost use Rattle.flat_memory.specs.Entries.{spot_of};
ghost use Rattle.flat_memory.specs.Locals.{entered};

use crate::entries::{EntryLocals, Spot};
use crate::ranges::{all, cell_at, clear, part, write_cell};
use c_cells::Cell;
use flat_stack::FlatStack;
use sqlite_items::at;
use std::alloc::{AllocError, Global};
use std::marker::Model;

/// The locals of the activation that runs and of those that wait, in one array. Nothing but `new` takes memory.
#[derive(Drop)]
pub struct Locals {
    /// By function.
    entries: Vec<EntryLocals>,
    cells: FlatStack,
    /// Where the cells of the activation begin that runs, and its function.
    base: usize,
    function: usize,
}

impl Model for Locals {
    ghost use Rattle.flat_memory.specs.Locals.{Stacked, view_of, HasRoom};

    ghost Value = { Stacked };

    ghost view = { λ it. view_of it.entries.items it.cells it.base it.function };

    ghost invariant = { λ it. HasRoom it.entries.items it.cells it.base it.function };
}

impl Locals {
    /// No activation runs, and there is room for so many cells.
    pub fn new(alloc: Global, entries: Vec<EntryLocals>, room: u32) -> Result<Locals, AllocError>
        ensures { IfOk result (λ it. it ≡ record { entries = entries.items; below = []; here = []; room = room }) }
    {
        let cells = FlatStack::new(alloc, room as usize)?;
        let function = entries.len();
        Ok(Locals {
            entries,
            cells,
            base: 0,
            function,
        })
    }

    /// No activation runs.
    pub fn reset(&mut self)
        ensures { self.new ≡ record self.old { below = []; here = [] } }
    {
        self.base = 0;
        self.function = self.entries.len();
    }

    /// The cells of a local of the activation that runs, and none where there is no local of this number.
    pub fn local(&self, number: u32) -> &[Cell]
        ensures { result.now ≡ get_or self.now.here number [] }
    {
        match spot(self.entries.as_slice(), self.function, number) {
            Some(spot) => part(
                all(&self.cells),
                self.base + spot.first as usize,
                spot.count as usize,
            ),
            None => &[],
        }
    }

    /// What a cell of a local holds, null where there is no such cell.
    pub fn read(&self, number: u32, cell: u32) -> Cell
        ensures { result ≡ get_or (get_or self.now.here number []) cell V.Null }
    {
        cell_at(self.local(number), cell)
    }

    /// Nothing is written where there is no such cell.
    pub fn write(&mut self, number: u32, cell: u32, value: Cell)
        ensures { self.new ≡ record self.old { here = set self.old.here number (set (get_or self.old.here number []) cell value) } }
    {
        match spot(self.entries.as_slice(), self.function, number) {
            Some(spot) => write_cell(
                &mut self.cells,
                self.base + spot.first as usize,
                spot.count,
                cell,
                value,
            ),
            None => {}
        }
    }

    /// Gives a local these cells, as many as it has.
    pub fn put(&mut self, number: u32, cells: &[Cell])
        requires { length cells.now ≡ length (get_or self.old.here number []) }
        ensures { self.new ≡ record self.old { here = set self.old.here number cells.now } }
    {
        match spot(self.entries.as_slice(), self.function, number) {
            Some(spot) => self.cells.put(self.base + spot.first as usize, cells),
            None => {}
        }
    }

    /// Sets each cell of a local to zero or null.
    pub fn clear(&mut self, number: u32)
        ensures { self.new ≡ record self.old { here = set self.old.here number (map cleared (get_or self.old.here number [])) } }
    {
        match spot(self.entries.as_slice(), self.function, number) {
            Some(spot) => clear(
                &mut self.cells,
                self.base + spot.first as usize,
                spot.count as usize,
            ),
            None => {}
        }
    }

    /// An activation of a function begins, above the one that ran.
    pub fn enter(&mut self, function: u32)
        requires { length self.old.below + length (joined self.old.here) + length (joined (get_or self.old.entries function [])) ≤ self.old.room }
        ensures { self.new ≡ entered function self.old }
    {
        let entries = self.entries.as_slice();
        let base = self.base + count(entries, self.function);
        let function = function as usize;
        self.cells.put(base, image(entries, function));
        self.base = base;
        self.function = function;
    }

    /// The activation ends, and the one below it goes on, which is of this function.
    pub fn leave(&mut self, function: u32)
        requires { length (joined (get_or self.old.entries function [])) ≤ length self.old.below }
        ensures { (below : List Value) (here : List (List Value)) → map length here ≡ map length (get_or self.old.entries function []) → self.old.below ≡ below ++ joined here → self.new ≡ record self.old { below = below; here = here } }
    {
        let function = function as usize;
        self.base = self.base - count(self.entries.as_slice(), function);
        self.function = function;
    }
}

/// Where a local of a function lies, if there is one of this number.
fn spot(entries: &[EntryLocals], function: usize, number: u32) -> Option<Spot>
    ensures { result ≡ spot_of (get_or entries.now function []) number }
{
    match at(entries, function) {
        Some(entry) => entry.spot(number),
        None => None,
    }
}

/// The cells of the locals of a function when it is entered, one after another.
fn image(entries: &[EntryLocals], function: usize) -> &[Cell]
    ensures { result.now ≡ joined (get_or entries.now function []) }
{
    match at(entries, function) {
        Some(entry) => entry.cells(),
        None => &[],
    }
}

/// How many they are.
fn count(entries: &[EntryLocals], function: usize) -> usize
    ensures { result ≡ length (joined (get_or entries.now function [])) }
{
    image(entries, function).len()
}
