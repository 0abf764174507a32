ghost use Rattle.std.specs.Prelude.{◌≡◌, [], ◌∷◌, map, get_or, slice_get, Some, IfOk, OnOk};
ghost use Rattle.c_meaning.specs.Stores.{cleared, cells_of, with_cells, read, write};
ghost use Rattle.c_meaning.specs.Statements.{locals_without};
ghost use Rattle.c_meaning.specs.Runs.{entered};
ghost use Rattle.rvt_num.specs.declared.values.Value.TheVariants.{Null};
ghost use Rattle.c_places.specs.Kept.{kept_of, returned};

use crate::calls::{entry_locals, open_store, owned_copy, put_owned};
use crate::locals::{clear_local, local_cells, put_local, write_local};
use crate::objects::{clear_object, object_cells, put_object, write_object};
use crate::ranges::cleared_copy;
use crate::{Layouts, Location, Saved};
use rvt_num::Value;
use rvt_tree::{Function, Variable};
use sqlite_items::Items;
use std::alloc::{AllocError, Global};
use std::marker::Model;
use std::mem;

/// The locals of the running function, each with its cells, and the mutable cells of all objects.
#[derive(Drop)]
pub struct Cells {
    locals: Vec<Items<Value>>,
    store: Vec<Value>,
}

impl Model for Cells {
    ghost use Rattle.c_places.specs.Kept.{Contents};

    ghost Value = { Contents };

    ghost view = { λ cells. record { locals = cells.locals.items; store = cells.store.items; kept = tt } };
}

impl Cells {
    /// No locals, and this store.
    pub fn new(alloc: Global, store: &[Value]) -> Result<Cells, AllocError>
        ensures { IfOk result (λ cells. cells ≡ record { locals = []; store = store.now; kept = tt }) }
    {
        let store = Vec::from_slice(alloc, store)?;
        Ok(Cells {
            locals: Vec::new(alloc),
            store,
        })
    }

    pub fn store(&self) -> &[Value]
        ensures { result.now ≡ self.now.store }
    {
        self.store.as_slice()
    }

    /// The cells of a local, and none where there is no local of this number.
    pub fn local(&self, number: u32) -> &[Value]
        ensures { result.now ≡ get_or self.now.locals number [] }
    {
        local_cells(self.locals.as_slice(), number)
    }

    /// What a cell holds, and null where there is no such cell.
    pub fn read(&self, layouts: &Layouts, place: Location) -> Value
        ensures { result ≡ read layouts.now place self.now }
    {
        match place.variable() {
            Variable::Local(number) => value_at(
                local_cells(self.locals.as_slice(), number),
                place.cell(),
            ),
            Variable::Object(number) => value_at(
                object_cells(layouts, self.store.as_slice(), number),
                place.cell(),
            ),
        }
    }

    /// Nothing is written where there is no such cell, or where the object is constant.
    pub fn write(&mut self, layouts: &Layouts, place: Location, value: Value)
        ensures { self.new ≡ write layouts.now place value self.old }
    {
        match place.variable() {
            Variable::Local(number) => write_local(
                self.locals.as_mut_slice(),
                number,
                place.cell(),
                value,
            ),
            Variable::Object(number) => write_object(
                layouts,
                self.store.as_mut_slice(),
                number,
                place.cell(),
                value,
            ),
        }
    }

    /// Zeros of the kinds that a variable's cells have, and null for pointers.
    pub fn cleared_cells(
        &self,
        alloc: Global,
        layouts: &Layouts,
        variable: Variable,
    ) -> Result<Vec<Value>, AllocError>
        ensures { IfOk result (λ cells. cells.items ≡ map cleared (cells_of layouts.now variable self.now.locals self.now.store)) }
    {
        match variable {
            Variable::Local(number) => cleared_copy(
                alloc,
                local_cells(self.locals.as_slice(), number),
            ),
            Variable::Object(number) => cleared_copy(
                alloc,
                object_cells(layouts, self.store.as_slice(), number),
            ),
        }
    }

    /// Gives a variable these cells. As many as it has take no memory.
    pub fn put_cells(
        &mut self,
        alloc: Global,
        layouts: &Layouts,
        variable: Variable,
        cells: &[Value],
    ) -> Result<(), AllocError>
        ensures { OnOk result (self.new ≡ with_cells layouts.now variable cells.now self.old) }
    {
        match variable {
            Variable::Local(number) => put_local(alloc, self.locals.as_mut_slice(), number, cells),
            Variable::Object(number) => put_object(layouts, &mut self.store, number, cells),
        }
    }

    /// Sets each cell of a variable to zero or null.
    pub fn clear(&mut self, layouts: &Layouts, variable: Variable)
        ensures { self.new ≡ with_cells layouts.now variable (map cleared (cells_of layouts.now variable self.old.locals self.old.store)) self.old }
    {
        match variable {
            Variable::Local(number) => clear_local(self.locals.as_mut_slice(), number),
            Variable::Object(number) => clear_object(layouts, self.store.as_mut_slice(), number),
        }
    }

    /// The scope of a variable is left: a local that is no object is back at zero or null.
    pub fn leave_scope(&mut self, variable: Variable)
        ensures { self.new ≡ record self.old { locals = locals_without (variable ∷ []) self.old.locals } }
    {
        match variable {
            Variable::Local(number) => clear_local(self.locals.as_mut_slice(), number),
            Variable::Object(_) => {}
        }
    }

    /// Enters a function, which has this number. The time and the memory are those of its own locals and objects.
    pub fn enter(
        &mut self,
        alloc: Global,
        layouts: &Layouts,
        number: u32,
        function: &Function,
        arguments: &[Value],
    ) -> Result<Saved, AllocError>
        requires { slice_get layouts.now.functions number ≡ Some function.now }
        ensures entered { OnOk result (self.new ≡ entered layouts.now number function.now arguments.now self.old) }
        ensures saved { IfOk result (λ saved. saved ≡ kept_of layouts.now number self.old) }
    {
        let cells = owned_copy(alloc, layouts, self.store.as_slice(), number)?;
        let locals = entry_locals(alloc, layouts, number, function, arguments)?;
        open_store(layouts, &mut self.store, number, function, arguments)?;
        let caller = mem::replace(&mut self.locals, locals);
        Ok(Saved::new(caller, cells))
    }

    /// Leaves a function for its caller. In a store as long as it was at the entry this takes no memory.
    pub fn leave(
        &mut self,
        alloc: Global,
        layouts: &Layouts,
        number: u32,
        saved: Saved,
    ) -> Result<(), AllocError>
        ensures { OnOk result (self.new ≡ returned layouts.now number saved self.old) }
    {
        let (locals, cells) = saved.into_parts();
        put_owned(alloc, layouts, number, &mut self.store, cells.as_slice())?;
        self.locals = locals;
        Ok(())
    }
}

/// A cell's value, and null where there is no such cell.
fn value_at(cells: &[Value], cell: u32) -> Value
    ensures { result ≡ get_or cells.now cell Null }
{
    match cells.get(cell as usize) {
        Some(value) => *value,
        None => Value::Null,
    }
}
