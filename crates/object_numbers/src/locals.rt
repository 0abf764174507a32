//! Locals over another table of objects.

ghost use Rattle.std.specs.Prelude.{◌≡◌, map, reverse, option_map, IfOk};
ghost use Rattle.object_numbers.specs.NumberedObjects.{number_in, local_renumbered};

use rvt_tree::Local;
use sqlite_items::Items;
use std::alloc::{AllocError, Global};

pub fn renumbered_locals(
    alloc: Global,
    locals: Items<Local>,
    numbers: &[u32],
) -> Result<Items<Local>, AllocError>
    ensures { IfOk result (λ list. list ≡ map (local_renumbered numbers.now) locals) }
{
    let mut turned = turned_locals(alloc, locals, numbers)?;
    let mut done = Vec::new(alloc);
    'turned: while let Some(local) = turned.pop() {
        done.push(local)?;
    }
    Ok(Items::from_vec(done))
}

/// The locals under their other numbers, from the last to the first.
fn turned_locals(
    alloc: Global,
    locals: Items<Local>,
    numbers: &[u32],
) -> Result<Vec<Local>, AllocError>
    ensures { IfOk result (λ list. reverse list.items ≡ map (local_renumbered numbers.now) locals) }
{
    let mut rest = locals;
    let mut done = Vec::new(alloc);
    'rest: while let Some(local) = rest.pop() {
        done.push(renumbered_local(local, numbers))?;
    }
    Ok(done)
}

fn renumbered_local(local: Local, numbers: &[u32]) -> Local
    ensures { result ≡ local_renumbered numbers.now local }
{
    let Local {
        name,
        ty,
        constant,
        object,
    } = local;
    Local {
        name,
        ty,
        constant,
        object: renumbered_object(object, numbers),
    }
}

fn renumbered_object(object: Option<u32>, numbers: &[u32]) -> Option<u32>
    ensures { result ≡ option_map (number_in numbers.now) object }
{
    match object {
        None => None,
        Some(object) => Some(number_of(numbers, object)),
    }
}

fn number_of(numbers: &[u32], object: u32) -> u32
    ensures { result ≡ number_in numbers.now object }
{
    let place = object as usize;
    if place < numbers.len() {
        numbers[place]
    } else {
        object
    }
}
