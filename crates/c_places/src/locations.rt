ghost use Rattle.std.specs.Prelude.{◌≡◌, IfOk};
ghost use Rattle.c_meaning.specs.Stores.{beyond, element_at, pointer_to};

use rvt_num::{Trap, Value};
use rvt_tree::Variable;
use std::alloc::AllocError;
use std::marker::Model;

/// A cell of a variable.
#[derive(Clone, Copy, Debug, Eq, PartialEq)]
pub struct Location {
    variable: Variable,
    cell: u32,
}

impl Model for Location {
    ghost use Rattle.c_meaning.specs.Stores.{Location};

    ghost Value = { Location };

    ghost view = { λ place. record { variable = place.variable; cell = place.cell } };

    ghost inverse = { λ place. record { variable = place.variable; cell = place.cell } };
}

impl Location {
    pub fn new(variable: Variable, cell: u32) -> Location
        ensures { result ≡ record { variable = variable; cell = cell } }
    {
        Location { variable, cell }
    }

    pub fn variable(&self) -> Variable
        ensures { result ≡ self.now.variable }
    {
        self.variable
    }

    pub fn cell(&self) -> u32
        ensures { result ≡ self.now.cell }
    {
        self.cell
    }

    /// The cell so many further on. Want of memory where its number would pass 2^32.
    pub fn beyond(&self, by: u32) -> Result<Location, AllocError>
        ensures { IfOk result (λ place. place ≡ beyond by self.now) }
    {
        match self.cell.checked_add(by) {
            Some(cell) => Ok(Location {
                variable: self.variable,
                cell,
            }),
            None => Err(AllocError),
        }
    }

    /// The place of an element of the array here, that has so many elements of this size.
    /// Want of memory where its number would pass 2^32.
    pub fn element(
        &self,
        index: i128,
        count: u32,
        size: u32,
    ) -> Result<Result<Location, Trap>, AllocError>
        ensures { IfOk result (λ place. place ≡ element_at self.now index count size) }
    {
        if index < 0 || index >= count as i128 {
            return Ok(Err(Trap::Index));
        }
        match (index as u32).checked_mul(size) {
            Some(by) => {
                let place = self.beyond(by)?;
                Ok(Ok(place))
            }
            None => Err(AllocError),
        }
    }

    /// The pointer to this place, null if it is in a local.
    pub fn pointer(&self) -> Value
        ensures { result ≡ pointer_to self.now }
    {
        match self.variable {
            Variable::Object(number) => Value::At(number, self.cell),
            Variable::Local(_) => Value::Null,
        }
    }
}
