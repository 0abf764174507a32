//! The contents with which a file begins.

ghost use Rattle.std.specs.Prelude.{◌≡◌, IfOk};
ghost use Rattle.c_meaning.specs.Promises.{mutable_cells};
ghost use Rattle.c_meaning.specs.Stores.{objects_of};

use rvt_num::Value;
use rvt_tree::Program;
use std::alloc::{AllocError, Global};

/// The mutable cells with the contents that the file gives them.
pub fn first_contents(alloc: Global, program: &Program) -> Result<Vec<Value>, AllocError>
    ensures { IfOk result (λ cells. cells.items ≡ mutable_cells (objects_of program.now)) }
{
    let mut cells = Vec::new(alloc);
    for object in program.table.objects.as_slice() {
        if !object.constant {
            cells.extend_from_slice(object.initial.as_slice())?;
        }
    }
    Ok(cells)
}
