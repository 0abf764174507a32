//! Runs of cells in a store.

ghost use Rattle.std.specs.Prelude.{◌≡◌, ◌≤◌, ◌+◌, List, ◌∷◌, length, map, take, drop, IfOk, OnOk};
ghost use Rattle.rvt_num.specs.declared.values.Value.{Value};
ghost use Rattle.c_meaning.specs.Stores.{cleared, overwritten};
ghost use Rattle.c_places.specs.Ranges.{with_cleared, cells_in_ranges, with_cleared_ranges, fits, with_ranges};

use rvt_num::{Num, Value};
use std::alloc::{AllocError, Global};

/// So many cells of the store from one on.
#[derive(Clone, Copy)]
pub struct Range {
    pub first: u32,
    pub length: u32,
}

/// Zero of the same kind, or null.
pub fn cleared(value: Value) -> Value
    ensures { result ≡ cleared value }
{
    match value {
        Value::Num(number) => Value::Num(Num::wrapped(number.kind(), 0)),
        Value::Null | Value::At(_, _) => Value::Null,
    }
}

/// The first cells, at most so many.
pub fn first_of(cells: &[Value], count: usize) -> &[Value]
    ensures { result.now ≡ take count cells.now }
{
    if count < cells.len() {
        &cells[..count]
    } else {
        cells
    }
}

/// The cells behind the first so many.
pub fn rest_of(cells: &[Value], count: usize) -> &[Value]
    ensures { result.now ≡ drop count cells.now }
{
    if count < cells.len() {
        &cells[count..]
    } else {
        &[]
    }
}

/// The cells from one on, at most so many.
pub fn part(cells: &[Value], first: usize, length: usize) -> &[Value]
    ensures { result.now ≡ take length (drop first cells.now) }
{
    first_of(rest_of(cells, first), length)
}

/// Sets cells to zero or null.
pub fn clear(cells: &mut [Value], first: usize, length: usize)
    ensures { cells.new ≡ with_cleared first length cells.old }
{
    let mut at = first;
    let mut left = length;
    'cells: while left > 0 && at < cells.len() {
        cells[at] = cleared(cells[at]);
        at += 1;
        left -= 1;
    }
}

/// A copy of the cells, each set to zero or null.
pub fn cleared_copy(alloc: Global, cells: &[Value]) -> Result<Vec<Value>, AllocError>
    ensures { IfOk result (λ copy. copy.items ≡ map cleared cells.now) }
{
    let mut copy = Vec::new(alloc);
    for cell in cells {
        copy.push(cleared(*cell))?;
    }
    Ok(copy)
}

/// Writes cells from one on; what does not fit in is added at the end.
pub fn overwrite(store: &mut Vec<Value>, first: usize, cells: &[Value]) -> Result<(), AllocError>
    ensures { OnOk result (store.new.items ≡ overwritten store.old.items first cells.now) }
{
    let mut at = first.min(store.len());
    for cell in cells {
        put(store, at, *cell)?;
        at += 1;
    }
    Ok(())
}

/// Writes a cell, also one behind the last.
fn put(store: &mut Vec<Value>, at: usize, value: Value) -> Result<(), AllocError>
    requires { at ≤ length store.old.items }
    ensures written { OnOk result ((rest : List Value) → overwritten store.new.items (at + 1) rest ≡ overwritten store.old.items at (value ∷ rest)) }
    ensures within { OnOk result (at + 1 ≤ length store.new.items) }
{
    if at < store.len() {
        store[at] = value;
        return Ok(());
    }
    store.push(value)?;
    Ok(())
}

/// The cells in these ranges, one after another.
pub fn cells_in(alloc: Global, store: &[Value], ranges: &[Range]) -> Result<Vec<Value>, AllocError>
    ensures { IfOk result (λ cells. cells.items ≡ cells_in_ranges ranges.now store.now) }
{
    let mut out = Vec::new(alloc);
    for range in ranges {
        let cells = part(store, range.first as usize, range.length as usize);
        out.extend_from_slice(cells)?;
    }
    Ok(out)
}

/// Sets the cells in these ranges to zero or null.
pub fn clear_ranges(store: &mut [Value], ranges: &[Range])
    ensures { store.new ≡ with_cleared_ranges ranges.now store.old }
{
    for range in ranges {
        clear(store, range.first as usize, range.length as usize);
    }
}

/// Whether the store and the cells are long enough for these ranges.
pub fn fit(ranges: &[Range], cells: usize, store: usize) -> bool
    ensures { result ≡ fits ranges.now cells store }
{
    let mut left = cells;
    for range in ranges {
        let length = range.length as usize;
        if length > left {
            return false;
        }
        if range.first as usize + length > store {
            return false;
        }
        left -= length;
    }
    true
}

/// Writes the cells into these ranges.
pub fn overwrite_ranges(
    store: &mut Vec<Value>,
    ranges: &[Range],
    cells: &[Value],
) -> Result<(), AllocError>
    ensures { OnOk result (store.new.items ≡ with_ranges ranges.now cells.now store.old.items) }
{
    let mut left = cells;
    for range in ranges {
        let length = range.length as usize;
        overwrite(store, range.first as usize, first_of(left, length))?;
        left = rest_of(left, length);
    }
    Ok(())
}
