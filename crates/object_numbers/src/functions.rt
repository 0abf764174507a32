//! Functions over another table of objects.

ghost use Rattle.std.specs.Prelude.{◌≡◌, map, reverse, IfOk};
ghost use Rattle.object_numbers.specs.NumberedObjects.{parts, renumbered as parts_renumbered};

use crate::bodies::renumbered_body;
use crate::locals::renumbered_locals;
use rvt_tree::Function;
use sqlite_items::Items;
use std::alloc::{AllocError, Global};

/// The functions of a program, in which each object stands under the number that the list has at its own. An object
/// beyond the end of the list keeps its number.
pub fn renumbered(
    alloc: Global,
    functions: Items<Function>,
    numbers: &[u32],
) -> Result<Items<Function>, AllocError>
    ensures { IfOk result (λ list. map parts list ≡ map (λ one. parts_renumbered numbers.now (parts one)) functions) }
{
    let mut turned = turned_functions(alloc, functions, numbers)?;
    let mut done = Vec::new(alloc);
    'turned: while let Some(function) = turned.pop() {
        done.push(function)?;
    }
    Ok(Items::from_vec(done))
}

/// The functions under the other numbers, from the last to the first.
fn turned_functions(
    alloc: Global,
    functions: Items<Function>,
    numbers: &[u32],
) -> Result<Vec<Function>, AllocError>
    ensures { IfOk result (λ list. reverse (map parts list.items) ≡ map (λ one. parts_renumbered numbers.now (parts one)) functions) }
{
    let mut rest = functions;
    let mut done = Vec::new(alloc);
    'rest: while let Some(function) = rest.pop() {
        done.push(renumbered_function(alloc, function, numbers)?)?;
    }
    Ok(done)
}

fn renumbered_function(
    alloc: Global,
    function: Function,
    numbers: &[u32],
) -> Result<Function, AllocError>
    ensures { IfOk result (λ other. parts other ≡ parts_renumbered numbers.now (parts function)) }
{
    let Function {
        name,
        params,
        result,
        locals,
        body,
    } = function;
    let params = renumbered_locals(alloc, params, numbers)?;
    let locals = renumbered_locals(alloc, locals, numbers)?;
    Ok(Function {
        name,
        params,
        result,
        locals,
        body: renumbered_body(body, numbers),
    })
}
