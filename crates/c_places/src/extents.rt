//! Where the objects of a program lie in its store.

ghost use Rattle.std.specs.Prelude.{◌≡◌, ◌+◌, IfOk};
ghost use Rattle.c_meaning.specs.Stores.{stored};
ghost use Rattle.c_places.specs.Extents.{extent_at, extents_from};

use rvt_tree::Object;
use std::alloc::{AllocError, Global};

/// Where an object lies.
#[derive(Clone, Copy)]
pub struct Extent {
    /// The cell of the store at which it begins.
    pub first: u32,
    /// How many cells it has. Those of a constant object are not in the store.
    pub length: u32,
    pub constant: bool,
}

/// How many cells of the store are an object's.
pub fn stored_cells(object: &Object) -> usize
    ensures { result ≡ stored object.now }
{
    if object.constant {
        0
    } else {
        object.initial.len()
    }
}

/// The cell at which the next object begins. Want of memory where it would pass 2^32.
pub fn next_first(first: u32, object: &Object) -> Result<u32, AllocError>
    ensures next { IfOk result (λ next. next ≡ first + stored object.now) }
{
    match u32::try_from(stored_cells(object)) {
        Ok(length) => match first.checked_add(length) {
            Some(next) => Ok(next),
            None => Err(AllocError),
        },
        Err(_) => Err(AllocError),
    }
}

fn extent_at(first: u32, object: &Object) -> Result<Extent, AllocError>
    ensures { IfOk result (λ it. it ≡ extent_at first object.now) }
{
    match u32::try_from(object.initial.len()) {
        Ok(length) => Ok(Extent {
            first,
            length,
            constant: object.constant,
        }),
        Err(_) => Err(AllocError),
    }
}

/// Where the objects lie, by their numbers. Want of memory where a number would pass 2^32.
pub fn extents(alloc: Global, objects: &[Object]) -> Result<Vec<Extent>, AllocError>
    ensures { IfOk result (λ it. it.items ≡ extents_from 0 objects.now) }
{
    let mut out = Vec::new(alloc);
    let mut first = 0;
    for object in objects {
        let it = extent_at(first, object)?;
        out.push(it)?;
        first = next_first(first, object)?;
    }
    Ok(out)
}
