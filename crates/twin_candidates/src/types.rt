//! The types of which a value begins in an object that isn't paired.

ghost use Rattle.std.specs.Prelude.{◌≡◌, ◌↔◌, ◌||◌, ◌+◌, IsTrue, IfOk, OnOk};
ghost use Rattle.rvt_tree.specs.Same.{ArePaired};
ghost use Rattle.rvt_tree.specs.declared.types.Pointee.{Pointee as PointeeType};
ghost use Rattle.c_types.specs.Layout.{plan_of, is_of_pointee, shape_of, starts_of};
ghost use Rattle.twin_candidates.specs.Marks.{marked, pointee_of, is_among, begins_somewhere, MarksBelow, MarksChanged};

use crate::marks::Marks;
use c_layout::{TypeFault, layout};
use c_types::Cells;
use rvt_tree::{CType, Pointee, Program, Structs};
use std::alloc::{AllocError, Global};

/// Marks the types of which a value begins in an addressable object that isn't paired with itself.
/// Want of memory also where such an object has more than 4,096 cells.
pub fn changed_types(
    alloc: Global,
    program: &Program,
    partners: &[Option<u32>],
) -> Result<Marks, AllocError>
    ensures { IfOk result (λ marks. MarksChanged program.now partners.now marks) }
{
    let mut marks = Marks::new(alloc);
    for number in 0..program.table.objects.len() {
        mark_object(alloc, &mut marks, program, partners, number)?;
    }
    Ok(marks)
}

fn mark_object(
    alloc: Global,
    marks: &mut Marks,
    program: &Program,
    partners: &[Option<u32>],
    number: usize,
) -> Result<(), AllocError>
    ensures { OnOk result (MarksBelow program.now partners.now marks.old number → MarksBelow program.now partners.now marks.new (number + 1)) }
{
    let Some(object) = program.table.objects.get(number) else {
        return Ok(())
    };
    if !object.addressable {
        return Ok(());
    }
    if is_own_partner(partners, number) {
        return Ok(());
    }
    mark_type(alloc, marks, &object.ty, &program.structs)?;
    Ok(())
}

fn is_own_partner(partners: &[Option<u32>], number: usize) -> bool
    ensures { IsTrue result ↔ ArePaired partners.now number number }
{
    match partners.get(number) {
        Some(Some(other)) => *other as usize == number,
        _ => false,
    }
}

/// Marks what begins in a value of the type; nothing where the type is incomplete.
fn mark_type(
    alloc: Global,
    marks: &mut Marks,
    ty: &CType,
    structs: &Structs,
) -> Result<(), AllocError>
    ensures { OnOk result ((pointee : PointeeType) → marked marks.new pointee ≡ (begins_somewhere pointee (plan_of structs.now ty.now) || marked marks.old pointee)) }
{
    match layout(alloc, ty, structs) {
        Ok(plan) => mark_starts(marks, &plan),
        Err(TypeFault::Incomplete) => Ok(()),
        Err(_) => Err(AllocError),
    }
}

fn mark_starts(marks: &mut Marks, plan: &Cells) -> Result<(), AllocError>
    ensures { OnOk result ((pointee : PointeeType) → marked marks.new pointee ≡ (is_among pointee (starts_of plan.now.starts.items) || marked marks.old pointee)) }
{
    let mut left = plan.starts.as_slice();
    'starts: while let Some((start, rest)) = left.split_first() {
        mark_start(marks, &start.0)?;
        left = rest;
    }
    Ok(())
}

fn mark_start(marks: &mut Marks, what: &CType) -> Result<(), AllocError>
    ensures { OnOk result ((pointee : PointeeType) → marked marks.new pointee ≡ (is_of_pointee pointee (shape_of what.now) || marked marks.old pointee)) }
{
    match pointee_of(what) {
        Some(pointee) => marks.mark(pointee),
        None => Ok(()),
    }
}

fn pointee_of(ty: &CType) -> Option<Pointee>
    ensures { result ≡ pointee_of ty.now }
{
    match ty {
        CType::Word(kind) => Some(Pointee::Word(*kind)),
        CType::Struct(number) => Some(Pointee::Struct(*number)),
        CType::Pointer(_, _) => None,
        CType::Array(_, _) => None,
    }
}
