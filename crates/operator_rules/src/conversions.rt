//! The implicit conversions (C 6.3.1, 6.3.2.3, 6.5.16.1).

ghost use Rattle.std.specs.Prelude.{◌≡◌, IfOk};
ghost use Rattle.rvt_tree.specs.Views.{expr_view};
ghost use Rattle.expression_typing.specs.Conversions.{integer_converted, promoted, pointer_converted, converted_to, tested};
ghost use Rattle.c_types.specs.Layout.{AWord, AStruct};
ghost use Rattle.typing_base.specs.Views.{operand_view, type_view};
ghost use Rattle.typing_base.specs.Follows.{Gives};

use crate::kinds::{is_same_kind, is_same_pointee};
use rvt_num::Kind;
use rvt_tree::{Expr, Place, Pointee};
use std::alloc::{AllocError, Global};
use typing_base::{Fault, Operand, PlaceType, not_in_profile, wrong_type};

/// An integer of the first kind as one of the second (C 6.3.1.3).
pub fn integer_converted(
    alloc: Global,
    from: Kind,
    to: Kind,
    value: Expr,
) -> Result<Expr, AllocError>
    ensures { IfOk result (λ e. expr_view e ≡ integer_converted from to (expr_view value)) }
{
    if is_same_kind(from, to) {
        Ok(value)
    } else {
        Ok(Expr::Cast(to, Box::new(alloc, value)?))
    }
}

/// An integer as one of its promoted kind (C 6.3.1.1).
pub fn promoted(alloc: Global, kind: Kind, value: Expr) -> Result<Expr, AllocError>
    ensures { IfOk result (λ e. expr_view e ≡ promoted kind (expr_view value)) }
{
    integer_converted(alloc, kind, rvt_num::promoted(kind), value)
}

/// To a pointer: from one to the same type, and from a null pointer constant (C 6.3.2.3).
pub fn pointer_converted<'t>(
    at: Place,
    pointee: Pointee,
    to_constant: bool,
    operand: Operand<'t>,
) -> Result<Expr, Fault>
    ensures { Gives expr_view (pointer_converted at pointee to_constant (operand_view operand.entry)) result }
{
    match operand {
        Operand::Pointer(own, own_constant, value) => {
            if is_same_pointee(pointee, own) && (to_constant || !own_constant) {
                Ok(value)
            } else {
                Err(wrong_type(at))
            }
        }
        Operand::Null => Ok(Expr::Null),
        Operand::Integer(_, _, true) => Ok(Expr::Null),
        _ => Err(wrong_type(at)),
    }
}

/// To a type, as by assignment (C 6.5.16.1), at the first token of what is converted.
pub fn converted_to<'t>(
    alloc: Global,
    at: Place,
    to: PlaceType<'t>,
    operand: Operand<'t>,
) -> Result<Expr, Fault>
    ensures { Gives expr_view (converted_to at (type_view to.entry) (operand_view operand.entry)) result }
{
    match to {
        PlaceType::Word(to) => to_integer(alloc, at, to, operand),
        PlaceType::Pointer(pointee, to_constant) => {
            pointer_converted(at, pointee, to_constant, operand)
        }
        PlaceType::Array(_, _) => Err(wrong_type(at)),
        PlaceType::Struct(number) => to_struct(at, number, operand),
    }
}

fn to_integer<'t>(alloc: Global, at: Place, to: Kind, operand: Operand<'t>) -> Result<Expr, Fault>
    ensures { Gives expr_view (converted_to at (AWord to) (operand_view operand.entry)) result }
{
    match operand {
        Operand::Integer(kind, value, _) => Ok(integer_converted(alloc, kind, to, value)?),
        _ => Err(wrong_type(at)),
    }
}

/// A struct is never copied.
fn to_struct<'t>(at: Place, number: u32, operand: Operand<'t>) -> Result<Expr, Fault>
    ensures { Gives expr_view (converted_to at (AStruct number) (operand_view operand.entry)) result }
{
    match operand {
        Operand::Place(_, _, _) => Err(not_in_profile(at)),
        _ => Err(wrong_type(at)),
    }
}

/// As a condition: an integer or a pointer.
pub fn tested<'t>(at: Place, operand: Operand<'t>) -> Result<Expr, Fault>
    ensures { Gives expr_view (tested at (operand_view operand.entry)) result }
{
    match operand {
        Operand::Integer(_, value, _) => Ok(value),
        Operand::Pointer(_, _, value) => Ok(value),
        Operand::Null => Ok(Expr::Null),
        _ => Err(wrong_type(at)),
    }
}
