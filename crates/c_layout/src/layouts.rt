ghost use Rattle.std.specs.Prelude.{◌≡◌, ◌≤◌, length, Some, None, IfOk, IfErr};
ghost use Rattle.c_types.specs.Layout.{plan_of, starts_of};
ghost use Rattle.c_layout.specs.Causes.{IsRefusal};

use crate::TypeFault;
use crate::plans::list_of;
use crate::sizes::check;
use c_types::Cells;
use rvt_tree::{CType, Structs};
use std::alloc::Global;

/// The cells of a type of at most 4,096 cells, and which values begin where.
///
/// The time is that of the structs' definitions and of the answer's length.
pub fn layout(alloc: Global, ty: &CType, structs: &Structs) -> Result<Cells, TypeFault>
    ensures plan { IfOk result (λ it. plan_of structs.now ty.now ≡ Some (record { cells = it.cells.items; starts = starts_of it.starts.items })) }
    ensures few { IfOk result (λ it. length it.cells.items ≤ 4096) }
    ensures refusal { IfErr result (IsRefusal (plan_of structs.now ty.now)) }
{
    check(alloc, ty, structs)?;
    let cells = list_of(alloc, ty, structs)?;
    Ok(cells)
}
