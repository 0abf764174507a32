//! `a[i]` (C 6.5.2.1).

ghost use Rattle.rvt_tree.specs.Views.{expr_view, lvalue_view};
ghost use Rattle.c_types.specs.Layout.{shape_of, AnArray};
ghost use Rattle.expression_typing.specs.ArraySubscripting.{indexed, element_of};
ghost use Rattle.expression_typing.specs.Operands.{a_place};
ghost use Rattle.typing_base.specs.Views.{operand_view, structures_view};
ghost use Rattle.typing_base.specs.Follows.{GivesOperand};

use crate::operands::{place_type, type_of_pointee};
use rvt_tree::{CType, Expr, Lvalue, Place, Pointee};
use std::alloc::Global;
use typing_base::{
    Fault, Operand, PlaceType, Structure, complete_cells, pointee_cells, wrong_type,
};

/// An element of what a pointer points to, which is complete.
fn indexed<'t>(
    alloc: Global,
    structs: &[Structure],
    at: Place,
    pointee: Pointee,
    to_constant: bool,
    pointer: Expr,
    index: Operand<'t>,
) -> Result<Operand<'t>, Fault>
    ensures { GivesOperand (indexed (structures_view structs.now) at pointee to_constant (expr_view pointer) (operand_view index.entry)) result }
{
    match index {
        Operand::Integer(_, index, _) => {
            let size = pointee_cells(structs, at, pointee)?;
            let pointer = Box::new(alloc, pointer)?;
            let element = Lvalue::Indexed(pointer, Box::new(alloc, index)?, pointee, size);
            Ok(Operand::Place(type_of_pointee(pointee), to_constant, element))
        }
        _ => Err(wrong_type(at)),
    }
}

/// An element of an array.
fn element_of_array<'t>(
    alloc: Global,
    structs: &[Structure],
    at: Place,
    item: &'t CType,
    count: u32,
    fixed: bool,
    array: Lvalue,
    index: Operand<'t>,
) -> Result<Operand<'t>, Fault>
    ensures { GivesOperand (element_of (structures_view structs.now) at (a_place (AnArray (shape_of item.now) count) fixed (lvalue_view array)) (operand_view index.entry)) result }
{
    match index {
        Operand::Integer(_, index, _) => {
            let size = complete_cells(structs, at, item)?;
            let array = Box::new(alloc, array)?;
            let element = Lvalue::Element(array, Box::new(alloc, index)?, count, size);
            Ok(Operand::Place(place_type(item), fixed, element))
        }
        _ => Err(wrong_type(at)),
    }
}

/// Of an array or a pointer, and an integer.
pub fn element_of<'t>(
    alloc: Global,
    structs: &[Structure],
    at: Place,
    array: Operand<'t>,
    index: Operand<'t>,
) -> Result<Operand<'t>, Fault>
    ensures { GivesOperand (element_of (structures_view structs.now) at (operand_view array.entry) (operand_view index.entry)) result }
{
    match array {
        Operand::Place(ty, fixed, place) => match ty {
            PlaceType::Array(item, count) => {
                element_of_array(alloc, structs, at, item, count, fixed, place, index)
            }
            PlaceType::Pointer(pointee, to_constant) => {
                let pointer = Expr::Read(Box::new(alloc, place)?);
                indexed(alloc, structs, at, pointee, to_constant, pointer, index)
            }
            _ => Err(wrong_type(at)),
        },
        Operand::Pointer(pointee, to_constant, pointer) => {
            indexed(alloc, structs, at, pointee, to_constant, pointer, index)
        }
        _ => Err(wrong_type(at)),
    }
}
