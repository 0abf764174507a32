//! What places hold.

ghost use Rattle.std.specs.Prelude.{◌≡◌, slice_get, slice_index_or, IfOk};
ghost use Rattle.sym_constants.specs.Constants.{constant_value};
ghost use Rattle.sym_places.specs.Bases.{bases_from};
ghost use Rattle.sym_places.specs.Reads.{cell_held, cell_in, held_by};

use bit_ops::SymValue;
use core_ir::CoreObject;
use rvt_num::{Memory, Value};
use std::alloc::Global;
use sym_constants::constant;
use sym_spots::{Target, sum};
use sym_store::{SymStore, copy_value};

/// A copy of what a place holds.
pub fn held_by(
    alloc: Global,
    objects: &[CoreObject],
    bases: &[u64],
    store: &SymStore,
    target: Target,
) -> Result<SymValue, Memory>
    requires bases_are { bases.now ≡ bases_from 0 objects.now }
    ensures { IfOk result (λ value. value ≡ held_by objects.now store.now target) }
{
    match target {
        Target::Cell(object, cell) => {
            let value = cell_held(alloc, objects, bases, store.cells(), object, cell)?;
            Ok(value)
        }
        Target::Register(register) => {
            let value = value_or_null(alloc, store.registers(), register)?;
            Ok(value)
        }
    }
}

fn cell_held(
    alloc: Global,
    objects: &[CoreObject],
    bases: &[u64],
    cells: &[SymValue],
    object: u32,
    cell: u64,
) -> Result<SymValue, Memory>
    requires bases_are { bases.now ≡ bases_from 0 objects.now }
    ensures { IfOk result (λ value. value ≡ cell_held objects.now cells.now object cell (slice_get objects.now object)) }
{
    let number = object as usize;
    if number >= objects.len() {
        let null = constant(alloc, Value::Null)?;
        return Ok(null);
    }
    let value = cell_in(alloc, &objects[number], bases[number], cells, cell)?;
    Ok(value)
}

/// What a cell of an object holds whose mutable cells begin at `base`.
fn cell_in(
    alloc: Global,
    object: &CoreObject,
    base: u64,
    cells: &[SymValue],
    cell: u64,
) -> Result<SymValue, Memory>
    ensures { IfOk result (λ value. value ≡ cell_in object.now base cells.now cell) }
{
    if object.constant {
        let content = constant(alloc, content_of(object.contents.as_slice(), cell))?;
        return Ok(content);
    }
    if cell >= object.cells.len() as u64 {
        let null = constant(alloc, Value::Null)?;
        return Ok(null);
    }
    let at = sum(base, cell)?;
    let value = value_or_null(alloc, cells, at)?;
    Ok(value)
}

/// The content of a constant cell. One that is not there is null.
fn content_of(contents: &[Value], cell: u64) -> Value
    ensures { result ≡ slice_index_or contents.now cell Value.Null }
{
    if cell >= contents.len() as u64 {
        return Value::Null;
    }
    contents[cell as usize]
}

/// A copy of a value. One that is not there is null.
fn value_or_null(alloc: Global, values: &[SymValue], at: u64) -> Result<SymValue, Memory>
    ensures { IfOk result (λ value. value ≡ slice_index_or values.now at (constant_value Value.Null)) }
{
    if at >= values.len() as u64 {
        let null = constant(alloc, Value::Null)?;
        return Ok(null);
    }
    let value = copy_value(alloc, &values[at as usize])?;
    Ok(value)
}
