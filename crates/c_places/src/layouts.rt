ghost use Rattle.std.specs.Prelude.{◌≡◌, pos, ◌+ℤ◌, IfOk};
ghost use Rattle.c_meaning.specs.Stores.{object_length, begins_at, within, moved, target, objects_of};
ghost use Rattle.c_places.specs.Extents.{extent_of, owned_ranges};
ghost use Rattle.c_places.specs.Frames.{frame_in};

use crate::Location;
use crate::extents::{Extent, extents};
use crate::frames::frames;
use crate::owners::owned;
use crate::ranges::Range;
use crate::rows::row;
use crate::starts::{all_starts, is_among};
use rvt_num::{Trap, Value};
use rvt_tree::{Pointee, Program, Variable};
use sqlite_items::{Items, at};
use std::alloc::{AllocError, Global};
use std::marker::Model;

/// A program, with what a run asks of it at each step: where each object begins in the store, how long it is,
/// and which values begin at its cells.
#[derive(Drop)]
pub struct Layouts<'a> {
    program: &'a Program,
    /// By object.
    extents: Vec<Extent>,
    /// By object and cell, what begins there.
    starts: Vec<Items<Items<Pointee>>>,
    /// By function, the cells of the objects that it owns.
    owned: Vec<Items<Range>>,
    /// By function, its locals without the parameters, at the entry.
    frames: Vec<Items<Items<Value>>>,
}

impl<'a> Model for Layouts<'a> {
    ghost use Rattle.rvt_tree.specs.declared.programs.Program.{Program};
    ghost use Rattle.rvt_tree.specs.contracts.programs.Program as c;

    ghost Value = { Program };

    ghost coded = { c.the_row.coded };

    ghost use Rattle.c_places.specs.Tables.{AreTables};

    ghost view = { λ layouts. layouts.program.now };

    ghost invariant = { λ layouts. AreTables layouts.program.now layouts.extents.items layouts.starts.items layouts.owned.items layouts.frames.items };
}

impl<'a> Layouts<'a> {
    /// Want of memory also where a type has more than 4,096 cells, or where a number of a cell would pass 2^32.
    pub fn of(alloc: Global, program: &'a Program) -> Result<Layouts<'a>, AllocError>
        ensures { IfOk result (λ layouts. layouts ≡ program.now) }
    {
        let objects = program.table.objects.as_slice();
        let extents = extents(alloc, objects)?;
        let starts = all_starts(alloc, program)?;
        let owned = owned(alloc, objects)?;
        let frames = frames(alloc, &program.structs, program.functions.as_slice())?;
        Ok(Layouts {
            program,
            extents,
            starts,
            owned,
            frames,
        })
    }

    pub fn program(&self) -> &'a Program
        ensures { result.now ≡ self.now }
    {
        self.program
    }

    /// How many cells an object has, and 0 where there is none of this number.
    pub fn object_length(&self, number: u32) -> u32
        ensures { result ≡ object_length self.now number }
    {
        match self.extent(number) {
            Some(extent) => extent.length,
            None => 0,
        }
    }

    /// Whether a value of the pointee type begins at a cell of an object.
    pub fn begins(&self, pointee: Pointee, number: u32, cell: u32) -> bool
        ensures { result ≡ begins_at self.now pointee number cell }
    {
        is_among(pointee, row(row(self.starts.as_slice(), number), cell))
    }

    /// A pointer, so many cells further on.
    pub fn moved(&self, pointer: Value, by: i128) -> Result<Value, Trap>
        ensures { result ≡ moved self.now pointer by }
    {
        match pointer {
            Value::At(number, cell) => within(number, self.object_length(number), cell, by),
            Value::Null => Err(Trap::Null),
            Value::Num(_) => Err(Trap::Null),
        }
    }

    /// The place to which a pointer points.
    pub fn target(&self, pointee: Pointee, pointer: Value) -> Result<Location, Trap>
        ensures { result ≡ target self.now pointee pointer }
    {
        match pointer {
            Value::At(number, cell) => {
                if self.begins(pointee, number, cell) {
                    Ok(Location::new(Variable::Object(number), cell))
                } else {
                    Err(Trap::Place)
                }
            }
            Value::Null => Err(Trap::Null),
            Value::Num(_) => Err(Trap::Null),
        }
    }

    /// Where an object lies.
    pub(crate) fn extent(&self, number: u32) -> Option<Extent>
        ensures { result ≡ extent_of (objects_of self.now) number }
    {
        match at(self.extents.as_slice(), number as usize) {
            Some(extent) => Some(*extent),
            None => None,
        }
    }

    /// The cells of the objects that a function owns.
    pub(crate) fn owned(&self, function: u32) -> &[Range]
        ensures { result.now ≡ owned_ranges function 0 (objects_of self.now) }
    {
        row(self.owned.as_slice(), function)
    }

    /// A function's locals without the parameters, at the entry.
    pub(crate) fn frame(&self, function: u32) -> &[Items<Value>]
        ensures { result.now ≡ frame_in self.now function }
    {
        row(self.frames.as_slice(), function)
    }
}

/// The pointer so many cells on in an object of this length.
fn within(number: u32, length: u32, cell: u32, by: i128) -> Result<Value, Trap>
    ensures { result ≡ within number length (pos cell +ℤ by) }
{
    match by.checked_add(cell as i128) {
        Some(to) => {
            if to < 0 || to > length as i128 {
                Err(Trap::Range)
            } else {
                Ok(Value::At(number, to as u32))
            }
        }
        None => Err(Trap::Range),
    }
}
