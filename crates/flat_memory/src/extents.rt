//! Where the objects of a program lie.

ghost use Rattle.std.specs.Prelude.{◌≡◌, ◌+◌, length, IfOk};
ghost use Rattle.c_meaning.specs.Stores.{stored};
ghost use Rattle.flat_memory.specs.Extents.{extent_at, extents_from, kept_apart};

use rvt_tree::Object;
use std::alloc::{AllocError, Global};

/// Where an object's cells lie: those of a constant object among the contents of the constant ones, the others in the store.
#[derive(Clone, Copy)]
pub struct Extent {
    pub first: u32,
    pub count: u32,
    pub constant: bool,
}

/// The cell behind so many others. Want of memory where its number would pass 2^32.
pub fn behind(first: u32, cells: usize) -> Result<u32, AllocError>
    ensures { IfOk result (λ next. next ≡ first + cells) }
{
    match u32::try_from(cells) {
        Ok(cells) => match first.checked_add(cells) {
            Some(next) => Ok(next),
            None => Err(AllocError),
        },
        Err(_) => Err(AllocError),
    }
}

/// How many cells of the store are an object's.
pub fn stored_cells(object: &Object) -> usize
    ensures { result ≡ stored object.now }
{
    if object.constant {
        0
    } else {
        object.initial.len()
    }
}

/// How many of the constant cells are an object's.
fn constant_cells(object: &Object) -> usize
    ensures { result ≡ kept_apart object.now }
{
    if object.constant {
        object.initial.len()
    } else {
        0
    }
}

fn extent_at(first: u32, constants: u32, object: &Object) -> Result<Extent, AllocError>
    ensures { IfOk result (λ it. it ≡ extent_at first constants object.now) }
{
    match u32::try_from(object.initial.len()) {
        Ok(count) => Ok(Extent {
            first: if object.constant { constants } else { first },
            count,
            constant: object.constant,
        }),
        Err(_) => Err(AllocError),
    }
}

/// Where the objects lie, by their numbers. Want of memory where a number would pass 2^32.
pub fn extents(alloc: Global, objects: &[Object]) -> Result<Vec<Extent>, AllocError>
    ensures { IfOk result (λ it. it.items ≡ extents_from 0 0 objects.now) }
{
    let mut out = Vec::new(alloc);
    let mut first = 0;
    let mut constants = 0;
    for object in objects {
        let it = extent_at(first, constants, object)?;
        out.push(it)?;
        first = behind(first, stored_cells(object))?;
        constants = behind(constants, constant_cells(object))?;
    }
    Ok(out)
}
