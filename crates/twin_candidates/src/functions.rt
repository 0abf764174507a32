//! Functions without those that dereference a pointer to a marked type.

ghost use Rattle.std.specs.Prelude.{◌≡◌, ◌↔◌, All, IsTrue, false, Some, slice_get, IfOk};
ghost use Rattle.twin_candidates.specs.Kept.{IsKept, KeepsOnly};
ghost use Rattle.twin_candidates.specs.Marks.{marked, AvoidsMarked};

use crate::marks::Marks;
use body_pointees::pointees_in;
use rvt_tree::{Function, Pointee};
use sqlite_items::Items;
use std::alloc::{AllocError, Global};

/// The partners of functions, without those of functions that dereference a pointer to a marked type.
pub fn avoiding(
    alloc: Global,
    partners: &[Option<u32>],
    functions: &Items<Function>,
    marks: &Marks,
) -> Result<Vec<Option<u32>>, AllocError>
    ensures { IfOk result (λ kept. KeepsOnly (λ f g. AvoidsMarked marks.now (slice_get functions.now f)) partners.now kept.items) }
{
    let mut kept = Vec::new(alloc);
    for number in 0..partners.len() {
        let partner = kept_function(alloc, partners, number, functions, marks)?;
        kept.push(partner)?;
    }
    Ok(kept)
}

fn kept_function(
    alloc: Global,
    partners: &[Option<u32>],
    number: usize,
    functions: &Items<Function>,
    marks: &Marks,
) -> Result<Option<u32>, AllocError>
    ensures { IfOk result (λ kept. IsKept (λ g. AvoidsMarked marks.now (slice_get functions.now number)) partners.now number kept) }
{
    match partners.get(number) {
        Some(Some(other)) => {
            let avoids = avoids(alloc, functions, number, marks)?;
            if avoids { Ok(Some(*other)) } else { Ok(None) }
        }
        _ => Ok(None),
    }
}

fn avoids(
    alloc: Global,
    functions: &Items<Function>,
    number: usize,
    marks: &Marks,
) -> Result<bool, AllocError>
    ensures { IfOk result (λ yes. IsTrue yes ↔ AvoidsMarked marks.now (slice_get functions.now number)) }
{
    let Some(function) = functions.get(number) else {
        return Ok(true)
    };
    let yes = avoids_marked(alloc, function, marks)?;
    Ok(yes)
}

fn avoids_marked(alloc: Global, function: &Function, marks: &Marks) -> Result<bool, AllocError>
    ensures { IfOk result (λ yes. IsTrue yes ↔ AvoidsMarked marks.now (Some function.now)) }
{
    let pointees = pointees_in(alloc, &function.body)?;
    let none = are_unmarked(pointees.as_slice(), marks);
    Ok(none)
}

fn are_unmarked(pointees: &[Pointee], marks: &Marks) -> bool
    ensures { IsTrue result ↔ All (λ pointee. marked marks.now pointee ≡ false) pointees.now }
{
    let mut left = pointees;
    'pointees: while let Some((first, rest)) = left.split_first() {
        if marks.is_marked(*first) {
            return false;
        }
        left = rest;
    }
    true
}
