//! Types in our program.

ghost use Rattle.std.specs.Prelude.{◌≡◌, IfOk};
ghost use Rattle.c_types.specs.Layout.{shape_of};
ghost use Rattle.joint_programs.specs.Views.{view_of};
ghost use Rattle.joint_programs.specs.Structs.{number_across as number_there, pointee_across as pointee_there, shape_across};

use crate::sides::{Side, number_across};
use rvt_tree::{CType, Pointee};
use std::alloc::{AllocError, Global};

/// A copy of a type, of the same shape.
pub fn copy_of(alloc: Global, ty: &CType) -> Result<CType, AllocError>
    ensures { IfOk result (λ copy. shape_of copy ≡ shape_of ty.now) }
{
    match ty {
        CType::Word(kind) => Ok(CType::Word(*kind)),
        CType::Pointer(pointee, constant) => Ok(CType::Pointer(*pointee, *constant)),
        CType::Array(element, count) => {
            let element = copy_of(alloc, element)?;
            let element = Box::new(alloc, element)?;
            Ok(CType::Array(element, *count))
        }
        CType::Struct(number) => Ok(CType::Struct(*number)),
    }
}

fn pointee_across(side: &Side, pointee: Pointee) -> Result<Pointee, AllocError>
    ensures { IfOk result (λ other. other ≡ pointee_there (number_there (view_of side.now)) pointee) }
{
    match pointee {
        Pointee::Word(kind) => Ok(Pointee::Word(kind)),
        Pointee::Struct(number) => Ok(Pointee::Struct(number_across(side, number)?)),
    }
}

/// A type of theirs in our program.
pub fn type_across(alloc: Global, side: &Side, ty: &CType) -> Result<CType, AllocError>
    ensures { IfOk result (λ other. shape_of other ≡ shape_across (number_there (view_of side.now)) (shape_of ty.now)) }
{
    match ty {
        CType::Word(kind) => Ok(CType::Word(*kind)),
        CType::Pointer(pointee, constant) => {
            let pointee = pointee_across(side, *pointee)?;
            Ok(CType::Pointer(pointee, *constant))
        }
        CType::Array(element, count) => {
            let element = type_across(alloc, side, element)?;
            let element = Box::new(alloc, element)?;
            Ok(CType::Array(element, *count))
        }
        CType::Struct(number) => {
            let number = number_across(side, *number)?;
            Ok(CType::Struct(number))
        }
    }
}
