//! Which objects each function owns.

ghost use Rattle.std.specs.Prelude.{◌≡◌, ℕ, [], ◌++◌, get_or, IfOk, OnOk};
ghost use Rattle.c_places.specs.Extents.{owned_ranges, own_range};

use crate::extents::next_first;
use crate::ranges::Range;
use crate::rows::add;
use rvt_tree::Object;
use sqlite_items::Items;
use std::alloc::{AllocError, Global};

/// By a function's number, the cells of the objects that it owns, in their order.
pub fn owned(alloc: Global, objects: &[Object]) -> Result<Vec<Items<Range>>, AllocError>
    ensures { IfOk result (λ rows. (function : ℕ) → get_or rows.items function [] ≡ owned_ranges function 0 objects.now) }
{
    let mut rows = Vec::new(alloc);
    let mut first = 0;
    for object in objects {
        let next = next_first(first, object)?;
        add_owned(alloc, &mut rows, object, first, next - first)?;
        first = next;
    }
    Ok(rows)
}

fn add_owned(
    alloc: Global,
    rows: &mut Vec<Items<Range>>,
    object: &Object,
    first: u32,
    length: u32,
) -> Result<(), AllocError>
    ensures { OnOk result ((function : ℕ) → get_or rows.new.items function [] ≡ get_or rows.old.items function [] ++ own_range function object.now.owner (record { first = first; length = length })) }
{
    match object.owner {
        Some(owner) => {
            add(alloc, rows, owner, Range { first, length })?;
            Ok(())
        }
        None => Ok(()),
    }
}
