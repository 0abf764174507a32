//! The cells that the locals of a function have when it is entered.

ghost use Rattle.std.specs.Prelude.{◌≡◌, map, IfOk};
ghost use Rattle.c_meaning.specs.Runs.{zero_cell, zero_cells, first_cells};
ghost use Rattle.c_types.specs.Layout.{plan_of};
ghost use Rattle.c_places.specs.Frames.{frame_of};

use c_layout::{TypeFault, layout};
use rvt_num::{Kind, Num, Value};
use rvt_tree::{CType, Function, Local, Structs};
use sqlite_items::Items;
use std::alloc::{AllocError, Global};

fn zero(cell: Option<Kind>) -> Value
    ensures { result ≡ zero_cell cell }
{
    match cell {
        Some(kind) => Value::Num(Num::wrapped(kind, 0)),
        None => Value::Null,
    }
}

fn zeros(alloc: Global, cells: &[Option<Kind>]) -> Result<Items<Value>, AllocError>
    ensures { IfOk result (λ it. it ≡ map zero_cell cells.now) }
{
    let mut out = Items::new(alloc);
    for cell in cells {
        out.push(zero(*cell))?;
    }
    Ok(out)
}

/// Zeros of a type, and none where the type is incomplete. Want of memory also where it has more than 4,096 cells.
fn zeros_of(alloc: Global, structs: &Structs, ty: &CType) -> Result<Items<Value>, AllocError>
    ensures { IfOk result (λ it. it ≡ zero_cells (plan_of structs.now ty.now)) }
{
    match layout(alloc, ty, structs) {
        Ok(plan) => {
            let cells = zeros(alloc, plan.cells.as_slice())?;
            Ok(cells)
        }
        Err(TypeFault::Incomplete) => Ok(Items::new(alloc)),
        Err(_) => Err(AllocError),
    }
}

fn first_cells(alloc: Global, structs: &Structs, local: &Local) -> Result<Items<Value>, AllocError>
    ensures { IfOk result (λ it. it ≡ first_cells structs.now local.now) }
{
    match local.object {
        Some(_) => Ok(Items::new(alloc)),
        None => {
            let cells = zeros_of(alloc, structs, &local.ty)?;
            Ok(cells)
        }
    }
}

fn frame_of(
    alloc: Global,
    structs: &Structs,
    function: &Function,
) -> Result<Items<Items<Value>>, AllocError>
    ensures { IfOk result (λ it. it ≡ frame_of structs.now function.now) }
{
    let mut out = Items::new(alloc);
    for local in function.locals.as_slice() {
        let cells = first_cells(alloc, structs, local)?;
        out.push(cells)?;
    }
    Ok(out)
}

/// Of each function, its locals at its entry.
pub fn frames(
    alloc: Global,
    structs: &Structs,
    functions: &[Function],
) -> Result<Vec<Items<Items<Value>>>, AllocError>
    ensures { IfOk result (λ it. it.items ≡ map (frame_of structs.now) functions.now) }
{
    let mut out = Vec::new(alloc);
    for function in functions {
        let frame = frame_of(alloc, structs, function)?;
        out.push(frame)?;
    }
    Ok(out)
}
