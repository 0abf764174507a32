//! Which object each local of a function is.

ghost use Rattle.std.specs.Prelude.{◌≡◌, ◌↔◌, ◌+◌, ◌≤◌, ℕ, length, IfOk, IsTrue};
ghost use Rattle.file_typing.specs.LocalObjects.{objects_before, object_of_local};
ghost use Rattle.local_objects.specs.ObjectTables.{object_at, is_flagged};

use std::alloc::{AllocError, Global};

/// Whether there is a number for each object.
#[tactic(auto, using(crate::proofs::Numbering::no_more, crate::proofs::Numbering::next_after_object))]
pub fn has_room(is_object: &[bool], first: u32) -> bool
    ensures { IsTrue result ↔ (first + objects_before (is_flagged is_object.now) (length is_object.now) ≤ 4294967295) }
{
    let mut next = first;
    for &flag in is_object {
        if !flag {
            continue;
        }
        if next == u32::MAX {
            return false;
        }
        next += 1;
    }
    true
}

/// The object that each local is: the objects of a function follow one another in the order of its locals,
/// from the first one's number on.
#[tactic(auto, using(crate::proofs::Numbering::no_more, crate::proofs::Numbering::entries_pushed, crate::proofs::Numbering::entry_of_none, crate::proofs::Numbering::all_entries))]
pub fn objects_of_locals(
    alloc: Global,
    is_object: &[bool],
    first: u32,
) -> Result<Vec<Option<u32>>, AllocError>
    requires room { first + objects_before (is_flagged is_object.now) (length is_object.now) ≤ 4294967295 }
    ensures entries { IfOk result (λ objects. (number : ℕ) →
        object_at objects.items number ≡ object_of_local (is_flagged is_object.now) first number) }
    ensures count { IfOk result (λ objects. length objects.items ≡ length is_object.now) }
{
    let mut objects = Vec::new(alloc);
    let mut next = first;
    for &flag in is_object {
        if !flag {
            objects.push(None)?;
            continue;
        }
        objects.push(Some(next))?;
        next += 1;
    }
    Ok(objects)
}
