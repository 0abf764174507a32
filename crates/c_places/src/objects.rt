//! The cells of the objects of a program.

ghost use Rattle.std.specs.Prelude.{◌≡◌, ◌+◌, map, set, slice_get, nat_lt, if◌then◌else◌, OnOk};
ghost use Rattle.c_meaning.specs.Stores.{cleared, object_cells, with_object, objects_of};
ghost use Rattle.c_places.specs.Extents.{contents_of};

use crate::Layouts;
use crate::ranges::{clear, overwrite, part};
use rvt_num::Value;
use rvt_tree::Program;
use std::alloc::AllocError;

/// The cells of an object, and none where there is no object of this number.
pub fn object_cells<'s>(layouts: &'s Layouts, store: &'s [Value], number: u32) -> &'s [Value]
    ensures { result.now ≡ object_cells layouts.now store.now number }
{
    match layouts.extent(number) {
        None => &[],
        Some(extent) => {
            if extent.constant {
                constant_cells(layouts.program(), number)
            } else {
                part(store, extent.first as usize, extent.length as usize)
            }
        }
    }
}

/// The contents of a constant object.
fn constant_cells(program: &Program, number: u32) -> &[Value]
    ensures { result.now ≡ contents_of (slice_get (objects_of program.now) number) }
{
    match program.table.objects.get(number as usize) {
        Some(object) => object.initial.as_slice(),
        None => &[],
    }
}

/// Sets a cell of the store in a range, where there is such a cell.
fn write_cell(store: &mut [Value], first: u32, length: u32, cell: u32, value: Value)
    ensures { store.new ≡ (if nat_lt cell length then set store.old (first + cell) value else store.old) }
{
    if cell >= length {
        return;
    }
    let at = first as usize + cell as usize;
    if at < store.len() {
        store[at] = value;
    }
}

/// Sets a cell of an object, where it has such a cell and isn't constant.
pub fn write_object(layouts: &Layouts, store: &mut [Value], number: u32, cell: u32, value: Value)
    ensures { store.new ≡ with_object layouts.now store.old number (set (object_cells layouts.now store.old number) cell value) }
{
    match layouts.extent(number) {
        None => {}
        Some(extent) => {
            if !extent.constant {
                write_cell(store, extent.first, extent.length, cell, value);
            }
        }
    }
}

/// Gives an object these cells, where it isn't constant.
pub fn put_object(
    layouts: &Layouts,
    store: &mut Vec<Value>,
    number: u32,
    cells: &[Value],
) -> Result<(), AllocError>
    ensures { OnOk result (store.new.items ≡ with_object layouts.now store.old.items number cells.now) }
{
    match layouts.extent(number) {
        None => Ok(()),
        Some(extent) => {
            if extent.constant {
                return Ok(());
            }
            overwrite(store, extent.first as usize, cells)?;
            Ok(())
        }
    }
}

/// Sets each cell of an object to zero or null, where it isn't constant.
pub fn clear_object(layouts: &Layouts, store: &mut [Value], number: u32)
    ensures { store.new ≡ with_object layouts.now store.old number (map cleared (object_cells layouts.now store.old number)) }
{
    match layouts.extent(number) {
        None => {}
        Some(extent) => {
            if !extent.constant {
                clear(store, extent.first as usize, extent.length as usize);
            }
        }
    }
}
