//! Cells in a row.

ghost use Rattle.std.specs.Prelude.{◌≡◌, ◌<◌, ◌+◌, ◌^◌, get_or, set, take, drop, nat_lt, if◌then◌else◌};
ghost use Rattle.rvt_num.specs.declared.values.Value.TheVariants as V;
ghost use Rattle.flat_memory.specs.Cells.{with_cleared};

use c_cells::Cell;
use flat_stack::FlatStack;

/// The first cells, at most so many.
fn first_of(cells: &[Cell], count: usize) -> &[Cell]
    ensures { result.now ≡ take count cells.now }
{
    if count < cells.len() {
        &cells[..count]
    } else {
        cells
    }
}

/// The cells behind the first so many.
fn rest_of(cells: &[Cell], count: usize) -> &[Cell]
    ensures { result.now ≡ drop count cells.now }
{
    if count < cells.len() {
        &cells[count..]
    } else {
        &[]
    }
}

/// The cells from one on, at most so many.
pub fn part(cells: &[Cell], first: usize, count: usize) -> &[Cell]
    ensures { result.now ≡ take count (drop first cells.now) }
{
    first_of(rest_of(cells, first), count)
}

/// The cell at a place, null behind the end.
pub fn cell_at(cells: &[Cell], at: u32) -> Cell
    ensures { result ≡ get_or cells.now at V.Null }
{
    match cells.get(at as usize) {
        Some(cell) => *cell,
        None => Cell::null(),
    }
}

/// Sets a cell among so many from one on, where there is such a cell.
pub fn write_cell(cells: &mut FlatStack, first: usize, count: u32, cell: u32, value: Cell)
    requires { first < 2 ^ 48 }
    ensures { cells.new ≡ (if nat_lt cell count then set cells.old (first + cell) value else cells.old) }
{
    if cell < count {
        cells.set(first + cell as usize, value);
    }
}

/// All cells of an array.
pub fn all(cells: &FlatStack) -> &[Cell]
    ensures { result.now ≡ cells.now }
{
    cells.range(0, cells.length())
}

/// Sets cells to zero or null.
pub fn clear(cells: &mut FlatStack, first: usize, count: usize)
    ensures { cells.new ≡ with_cleared first count cells.old }
{
    let mut at = first;
    let mut left = count;
    'cells: while left > 0 && at < cells.length() {
        let cell = cells.get(at);
        cells.set(at, cell.cleared());
        at += 1;
        left -= 1;
    }
}
