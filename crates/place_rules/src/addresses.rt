//! `&x` and `*p` (C 6.5.3.2).

ghost use Rattle.rvt_tree.specs.Views.{lvalue_view};
ghost use Rattle.expression_typing.specs.AddressAndIndirection.{pointer_to, address_of, target_of};
ghost use Rattle.typing_base.specs.Views.{operand_view, scope_view, structures_view, notes_view};
ghost use Rattle.typing_base.specs.Follows.{BecomesOperand, GivesOperand};

use crate::operands::{taken, type_of_pointee};
use rvt_tree::{Expr, Lvalue, Place, Pointee};
use std::alloc::Global;
use typing_base::{
    Fault, Notes, Operand, PlaceType, Scope, Structure, not_in_profile, pointee_cells, wrong_type,
};

fn pointer_to<'t>(
    alloc: Global,
    scope: Scope<'t>,
    at: Place,
    pointee: Pointee,
    fixed: bool,
    lvalue: Lvalue,
    notes: &mut Notes,
) -> Result<Operand<'t>, Fault>
    ensures { BecomesOperand (pointer_to (scope_view scope.entry) at pointee fixed (lvalue_view lvalue) (notes_view notes.old)) result notes.new }
{
    taken(scope, at, &lvalue, notes)?;
    let value = Expr::Address(Box::new(alloc, lvalue)?);
    Ok(Operand::Pointer(pointee, fixed, value))
}

/// The address of an integer or a struct, not of an array as a whole, and not of a pointer.
pub fn address_of<'t>(
    alloc: Global,
    scope: Scope<'t>,
    at: Place,
    operand: Operand<'t>,
    notes: &mut Notes,
) -> Result<Operand<'t>, Fault>
    ensures { BecomesOperand (address_of (scope_view scope.entry) at (operand_view operand.entry) (notes_view notes.old)) result notes.new }
{
    match operand {
        Operand::Place(ty, fixed, lvalue) => match ty {
            PlaceType::Word(kind) => {
                pointer_to(alloc, scope, at, Pointee::Word(kind), fixed, lvalue, notes)
            }
            PlaceType::Struct(number) => pointer_to(
                alloc,
                scope,
                at,
                Pointee::Struct(number),
                fixed,
                lvalue,
                notes,
            ),
            PlaceType::Array(_, _) => Err(not_in_profile(at)),
            PlaceType::Pointer(_, _) => Err(wrong_type(at)),
        },
        _ => Err(wrong_type(at)),
    }
}

/// What a pointer points to, which is complete.
pub fn target_of<'t>(
    alloc: Global,
    structs: &[Structure],
    at: Place,
    operand: Operand<'t>,
) -> Result<Operand<'t>, Fault>
    ensures { GivesOperand (target_of (structures_view structs.now) at (operand_view operand.entry)) result }
{
    match operand {
        Operand::Pointer(pointee, to_constant, pointer) => {
            pointee_cells(structs, at, pointee)?;
            let target = Lvalue::Target(Box::new(alloc, pointer)?, pointee);
            Ok(Operand::Place(type_of_pointee(pointee), to_constant, target))
        }
        _ => Err(wrong_type(at)),
    }
}
