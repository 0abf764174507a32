//! The locals of a function when it is entered.

ghost use Rattle.std.specs.Prelude.{◌≡◌, [], ◌∷◌, ◌++◌, length, IfOk};
ghost use Rattle.flat_memory.specs.Cells.{joined};
ghost use Rattle.flat_memory.specs.Entries.{spot_of};

use c_cells::Cell;
use sqlite_items::at;
use std::alloc::{AllocError, Global};
use std::marker::Model;

/// Where a local's cells lie in its activation, and how many they are.
#[derive(Clone, Copy)]
pub struct Spot {
    pub first: u32,
    pub count: u32,
}

/// The locals of a function with the cells that they have when it is entered. Contracts see the cells of each.
#[derive(Drop)]
pub struct EntryLocals {
    spots: Vec<Spot>,
    cells: Vec<Cell>,
}

impl Model for EntryLocals {
    ghost use Rattle.std.specs.Prelude.{List};
    ghost use Rattle.rvt_num.specs.declared.values.Value.{Value as RunValue};
    ghost use Rattle.flat_memory.specs.Cells.{shared_out};
    ghost use Rattle.flat_memory.specs.Entries.{counts_of, AreSpots};

    ghost Value = { List (List RunValue) };

    ghost view = { λ it. shared_out (counts_of it.spots.items) it.cells.items };

    ghost invariant = { λ it. AreSpots it.spots.items it.cells.items };
}

impl EntryLocals {
    pub fn new(alloc: Global) -> EntryLocals
        ensures { result ≡ [] }
    {
        EntryLocals {
            spots: Vec::new(alloc),
            cells: Vec::new(alloc),
        }
    }

    /// One more local, with these cells. Want of memory also where there would be 2^32 cells.
    pub fn with(mut self, cells: &[Cell]) -> Result<EntryLocals, AllocError>
        ensures { IfOk result (λ locals. locals ≡ self ++ cells.now ∷ []) }
    {
        let spot = spot_behind(self.cells.len(), cells.len())?;
        self.spots.push(spot)?;
        self.cells.extend_from_slice(cells)?;
        Ok(self)
    }

    /// Where a local lies, if there is one of this number.
    pub(crate) fn spot(&self, number: u32) -> Option<Spot>
        ensures { result ≡ spot_of self.now number }
    {
        match at(self.spots.as_slice(), number as usize) {
            Some(spot) => Some(*spot),
            None => None,
        }
    }

    /// The cells of all locals, one after another.
    pub fn cells(&self) -> &[Cell]
        ensures { result.now ≡ joined self.now }
    {
        self.cells.as_slice()
    }
}

/// Want of memory where there would be 2^32 cells.
fn spot_behind(first: usize, count: usize) -> Result<Spot, AllocError>
    ensures { IfOk result (λ spot. spot ≡ record { first = first; count = count }) }
{
    match u32::try_from(first) {
        Ok(first) => match u32::try_from(count) {
            Ok(count) => Ok(Spot { first, count }),
            Err(_) => Err(AllocError),
        },
        Err(_) => Err(AllocError),
    }
}
