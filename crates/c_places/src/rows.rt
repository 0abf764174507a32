//! Lists that are found by a number; one that nothing was added to is empty.

ghost use Rattle.std.specs.Prelude.{◌≡◌, ℕ, ◌<◌, ◌^◌, [], ◌∷◌, ◌++◌, length, get_or, nat_eq, if◌then◌else◌, OnOk};

use sqlite_items::Items;
use std::alloc::{AllocError, Global};

/// Adds an item to the list of this number.
pub fn add<T: Drop>(
    alloc: Global,
    rows: &mut Vec<Items<T>>,
    number: u32,
    item: T,
) -> Result<(), AllocError>
    ensures { OnOk result ((k : ℕ) → get_or rows.new.items k [] ≡ (if nat_eq k number then get_or rows.old.items k [] ++ item ∷ [] else get_or rows.old.items k [])) }
{
    let number = number as usize;
    make_room(alloc, rows, number)?;
    let row = &mut rows[number];
    row.push(item)?;
    Ok(())
}

fn make_room<T: Drop>(
    alloc: Global,
    rows: &mut Vec<Items<T>>,
    number: usize,
) -> Result<(), AllocError>
    requires { number < 2 ^ 32 }
    ensures room { OnOk result (number < length rows.new.items) }
    ensures same { (k : ℕ) → get_or rows.new.items k [] ≡ get_or rows.old.items k [] }
{
    'rows: while rows.len() <= number {
        rows.push(Items::new(alloc))?;
    }
    Ok(())
}

/// The list of this number.
pub fn row<T>(rows: &[Items<T>], number: u32) -> &[T]
    ensures { result.now ≡ get_or rows.now number [] }
{
    match rows.get(number as usize) {
        Some(row) => row.as_slice(),
        None => &[],
    }
}
