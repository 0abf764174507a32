//! The arguments of `f(a, b)` (C 6.5.2.2).

ghost use Rattle.std.specs.Prelude.{◌≡◌, [], map};
ghost use Rattle.rvt_tree.specs.Views.{expr_view};
ghost use Rattle.c_types.specs.Layout.{shape_of};
ghost use Rattle.expression_typing.specs.FunctionCalls.{passed_as};
ghost use Rattle.typing_base.specs.Views.{operand_view, type_view};
ghost use Rattle.typing_base.specs.Follows.{Gives};

use crate::conversions::converted_to;
use rvt_tree::{CType, Expr, Place};
use std::alloc::Global;
use typing_base::{Fault, Operand, PlaceType, wrong_type};

/// A type whose element type, if it is an array, is lent.
fn place_type<'t>(ty: &'t CType) -> PlaceType<'t>
    ensures { type_view result ≡ shape_of ty.now }
{
    match ty {
        CType::Word(kind) => PlaceType::Word(*kind),
        CType::Pointer(pointee, to_constant) => PlaceType::Pointer(*pointee, *to_constant),
        CType::Array(item, count) => PlaceType::Array(item, *count),
        CType::Struct(number) => PlaceType::Struct(*number),
    }
}

/// An argument as a value of its parameter's type, the first of these; of one too many only a value is asked.
pub fn passed_as<'t>(
    alloc: Global,
    at: Place,
    types: &[CType],
    operand: Operand<'t>,
) -> Result<Expr, Fault>
    ensures { Gives expr_view (passed_as at (map shape_of types.now) (operand_view operand.entry)) result }
{
    match types {
        [] => additional(alloc, at, operand),
        [ty, ..] => converted_to(alloc, at, place_type(ty), operand),
    }
}

fn additional<'t>(alloc: Global, at: Place, operand: Operand<'t>) -> Result<Expr, Fault>
    ensures { Gives expr_view (passed_as at [] (operand_view operand.entry)) result }
{
    match operand {
        Operand::Place(_, _, lvalue) => Ok(Expr::Read(Box::new(alloc, lvalue)?)),
        Operand::Integer(_, value, _) => Ok(value),
        Operand::Pointer(_, _, value) => Ok(value),
        Operand::Null => Ok(Expr::Null),
        Operand::Void(_, _) => Err(wrong_type(at)),
    }
}
