ghost use Rattle.std.specs.Prelude.{◌≡◌, ◌≤◌, ℕ, length, Option, Some, IsSome, IfOk, OnOk};
ghost use Rattle.c_types.specs.Layout.{Plan, plan_of, plan_with, plan_in_order, followed_by, repeated};
ghost use Rattle.c_layout.specs.Causes.{HasFew};
ghost use Rattle.c_layout.specs.Sizes.{types_of};
ghost use Rattle.c_layout.specs.Runs.{listed, known_plans, both, plan_of_runs, head, inside};

use crate::copies::copy_of;
use c_types::Cells;
use rvt_tree::{CType, Name, Structs};
use std::alloc::{AllocError, Global};

/// A value of a type, and so many more after it.
#[derive(Clone, Copy)]
pub struct Run<'t> {
    pub ty: &'t CType,
    pub more: u32,
}

/// Lists that a value of the type begins here, with its cell where it has one of its own.
fn list_head(alloc: Global, ty: &CType, out: &mut Cells) -> Result<(), AllocError>
    requires few { length out.old.cells.items ≤ 4096 }
    ensures { OnOk result (listed out.new ≡ followed_by (listed out.old) (head ty.now)) }
{
    let what = copy_of(alloc, ty)?;
    out.starts.push((what, out.cells.len() as u32))?;
    match ty {
        CType::Word(kind) => {
            out.cells.push(Some(*kind))?;
            Ok(())
        }
        CType::Pointer(_, _) => {
            out.cells.push(None)?;
            Ok(())
        }
        CType::Array(_, _) => Ok(()),
        CType::Struct(_) => Ok(()),
    }
}

/// So many values of the type come next.
fn push_values<'t>(ty: &'t CType, count: u32, rest: &mut Vec<Run<'t>>) -> Result<(), AllocError>
    ensures { OnOk result ((known : ℕ → Option Plan) (plan : Plan) → plan_with known ty.now ≡ Some plan → plan_of_runs known rest.new.items ≡ both (Some (repeated count plan)) (plan_of_runs known rest.old.items)) }
{
    if count == 0 {
        return Ok(());
    }
    rest.push(Run {
        ty,
        more: count - 1,
    })?;
    Ok(())
}

/// The fields come next.
fn push_fields<'t>(fields: &'t [(Name, CType)], rest: &mut Vec<Run<'t>>) -> Result<(), AllocError>
    ensures { OnOk result ((known : ℕ → Option Plan) → plan_of_runs known rest.new.items ≡ both (plan_in_order known (types_of fields.now)) (plan_of_runs known rest.old.items)) }
{
    let mut left = fields.len();
    'fields: while left > 0 {
        left -= 1;
        rest.push(Run {
            ty: &fields[left].1,
            more: 0,
        })?;
    }
    Ok(())
}

/// The elements or the fields of a value of the type come next.
fn push_inside<'t>(
    ty: &'t CType,
    structs: &'t Structs,
    rest: &mut Vec<Run<'t>>,
) -> Result<(), AllocError>
    requires complete { IsSome (inside structs.now ty.now) }
    ensures { OnOk result (plan_of_runs (known_plans structs.now) rest.new.items ≡ both (inside structs.now ty.now) (plan_of_runs (known_plans structs.now) rest.old.items)) }
{
    match ty {
        CType::Word(_) => Ok(()),
        CType::Pointer(_, _) => Ok(()),
        CType::Array(element, count) => {
            push_values(element, *count, rest)?;
            Ok(())
        }
        CType::Struct(number) => {
            let definition = &structs.list.as_slice()[*number as usize];
            push_fields(definition.fields.as_slice(), rest)?;
            Ok(())
        }
    }
}

/// The cells of a type that has at most 4,096, and which values begin where.
pub fn list_of(alloc: Global, ty: &CType, structs: &Structs) -> Result<Cells, AllocError>
    requires few { HasFew (plan_of structs.now ty.now) }
    ensures plan { IfOk result (λ it. plan_of structs.now ty.now ≡ Some (listed it)) }
    ensures few { IfOk result (λ it. length it.cells.items ≤ 4096) }
{
    let mut out = Cells {
        cells: Vec::new(alloc),
        starts: Vec::new(alloc),
    };
    let mut rest = Vec::new(alloc);
    push_values(ty, 1, &mut rest)?;
    'runs: while let Some(run) = rest.pop() {
        push_values(run.ty, run.more, &mut rest)?;
        list_head(alloc, run.ty, &mut out)?;
        push_inside(run.ty, structs, &mut rest)?;
    }
    Ok(out)
}
