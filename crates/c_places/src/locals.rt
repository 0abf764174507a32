//! The locals of a function, each with its cells.

ghost use Rattle.std.specs.Prelude.{◌≡◌, [], length, map, get_or, set, OnOk};
ghost use Rattle.c_meaning.specs.Stores.{cleared};

use crate::ranges::cleared;
use crate::rows::row;
use rvt_num::Value;
use sqlite_items::Items;
use std::alloc::{AllocError, Global};

/// The cells of a local, and none where there is no local of this number.
pub fn local_cells(locals: &[Items<Value>], number: u32) -> &[Value]
    ensures { result.now ≡ get_or locals.now number [] }
{
    row(locals, number)
}

/// Sets a cell of a local, where it has such a cell.
pub fn write_local(locals: &mut [Items<Value>], number: u32, cell: u32, value: Value)
    ensures { locals.new ≡ set locals.old number (set (get_or locals.old number []) cell value) }
{
    let number = number as usize;
    if number >= locals.len() {
        return;
    }
    let cells = &mut locals[number];
    let cell = cell as usize;
    if cell < cells.len() {
        cells.set(cell, value);
    }
}

/// Gives a local these cells. As many as it has take no memory.
pub fn put_local(
    alloc: Global,
    locals: &mut [Items<Value>],
    number: u32,
    cells: &[Value],
) -> Result<(), AllocError>
    ensures { OnOk result (locals.new ≡ set locals.old number cells.now) }
{
    let number = number as usize;
    if number >= locals.len() {
        return Ok(());
    }
    let old = &mut locals[number];
    if old.len() == cells.len() {
        copy_into(old, cells);
        return Ok(());
    }
    let new = Items::from_slice(alloc, cells)?;
    locals[number] = new;
    Ok(())
}

/// Sets each cell to the one at its place.
fn copy_into(to: &mut Items<Value>, cells: &[Value])
    requires { length to.old ≡ length cells.now }
    ensures { to.new ≡ cells.now }
{
    for at in 0..cells.len() {
        to.set(at, cells[at]);
    }
}

/// Sets each cell of a local to zero or null.
pub fn clear_local(locals: &mut [Items<Value>], number: u32)
    ensures { locals.new ≡ set locals.old number (map cleared (get_or locals.old number [])) }
{
    let number = number as usize;
    if number < locals.len() {
        let cells = &mut locals[number];
        clear_all(cells);
    }
}

/// Sets each cell to zero or null.
fn clear_all(cells: &mut Items<Value>)
    ensures { cells.new ≡ map cleared cells.old }
{
    for at in 0..cells.len() {
        let value = cells.as_slice()[at];
        cells.set(at, cleared(value));
    }
}
