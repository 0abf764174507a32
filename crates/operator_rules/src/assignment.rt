//! Assignment, compound assignment, `++` and `--` (C 6.5.16, 6.5.2.4, 6.5.3.1), which are acts: they give no value.

ghost use Rattle.std.specs.Prelude.{◌≡◌, IfOk};
ghost use Rattle.rvt_tree.specs.Views.{expr_view, lvalue_view, act_view};
ghost use Rattle.c_types.specs.Layout.{APointer};
ghost use Rattle.expression_typing.specs.Operands.{an_integer};
ghost use Rattle.expression_typing.specs.Assignment.{target, modifiable, no_struct_copied, assigned, integer_compound, compound_of, compound_assigned, step_of, stepped};
ghost use Rattle.typing_base.specs.Views.{operand_view, structures_view, type_view};
ghost use Rattle.typing_base.specs.Follows.{Gives};
ghost use Rattle.operator_rules.specs.Views.{target_view, sides_view};

use crate::conversions::{converted_to, integer_converted, promoted};
use crate::integer_operators::is_shift;
use rvt_num::{BinOp, Kind};
use rvt_tree::{Act, Bump, Expr, Lvalue, Place, Pointee};
use std::alloc::{AllocError, Global};
use typing_base::{
    Cause, Fault, Operand, PlaceType, Structure, broken, not_in_profile, pointee_cells, wrong_type,
};

/// What is written, and its type.
#[derive(Drop)]
pub struct AssignmentTarget<'t> {
    pub ty: PlaceType<'t>,
    pub lvalue: Lvalue,
}

/// Where an assignment stands: its operator, and the first tokens of its two sides.
#[derive(Clone, Copy)]
pub struct Sides {
    pub operator: Place,
    pub left: Place,
    pub right: Place,
}

/// An lvalue, and no array as a whole.
pub fn target<'t>(operator: Place, operand: Operand<'t>) -> Result<AssignmentTarget<'t>, Fault>
    ensures { Gives target_view (target operator (operand_view operand.entry)) result }
{
    match operand {
        Operand::Place(ty, _, lvalue) => match ty {
            PlaceType::Array(_, _) => Err(wrong_type(operator)),
            _ => Ok(AssignmentTarget { ty, lvalue }),
        },
        _ => Err(wrong_type(operator)),
    }
}

/// A modifiable one (C 6.3.2.1), at the first token of what is written.
pub fn modifiable<'t>(first: Place, operand: &Operand<'t>) -> Result<(), Fault>
    ensures { Gives (λ u. u) (modifiable first (operand_view operand.now)) result }
{
    match operand {
        Operand::Place(_, true, _) => Err(broken(Cause::WriteToConstant, first)),
        _ => Ok(()),
    }
}

/// A struct is not assigned to a struct, at the first token of the second.
fn no_struct_copied<'t>(at: Place, ty: PlaceType<'t>, operand: &Operand<'t>) -> Result<(), Fault>
    ensures { Gives (λ u. u) (no_struct_copied at (type_view ty.entry) (operand_view operand.now)) result }
{
    match ty {
        PlaceType::Struct(_) => match operand {
            Operand::Place(_, _, _) => Err(not_in_profile(at)),
            _ => Ok(()),
        },
        _ => Ok(()),
    }
}

/// C 6.5.16.1
pub fn assigned<'t>(
    alloc: Global,
    at: Sides,
    left: Operand<'t>,
    right: Operand<'t>,
) -> Result<Act, Fault>
    ensures { Gives act_view (assigned (sides_view at) (operand_view left.entry) (operand_view right.entry)) result }
{
    let may_write = modifiable(at.left, &left);
    let to = target(at.operator, left)?;
    no_struct_copied(at.right, to.ty, &right)?;
    match may_write {
        Ok(()) => {}
        Err(fault) => return Err(fault),
    }
    let value = converted_to(alloc, at.right, to.ty, right)?;
    Ok(Act::Assign(to.lvalue, value))
}

/// Of an integer, the operation in the kind that it has as one of two operands.
fn integer_compound(
    alloc: Global,
    op: BinOp,
    own: Kind,
    lvalue: Lvalue,
    kind: Kind,
    value: Expr,
) -> Result<Act, AllocError>
    ensures { IfOk result (λ act. act_view act ≡ integer_compound op own (lvalue_view lvalue) kind (expr_view value)) }
{
    if is_shift(op) {
        let value = promoted(alloc, kind, value)?;
        Ok(Act::Update(op, lvalue, rvt_num::promoted(own), value))
    } else {
        let common = rvt_num::common(own, kind);
        let value = integer_converted(alloc, kind, common, value)?;
        Ok(Act::Update(op, lvalue, common, value))
    }
}

/// An integer and an integer, or under `+=` and `-=` a pointer to a complete type and an integer.
fn compound_of<'t>(
    alloc: Global,
    structs: &[Structure],
    op: BinOp,
    at: Place,
    ty: PlaceType<'t>,
    lvalue: Lvalue,
    operand: Operand<'t>,
) -> Result<Act, Fault>
    ensures { Gives act_view (compound_of (structures_view structs.now) op at (type_view ty.entry) (lvalue_view lvalue) (operand_view operand.entry)) result }
{
    match ty {
        PlaceType::Word(own) => match operand {
            Operand::Integer(kind, value, _) => {
                Ok(integer_compound(alloc, op, own, lvalue, kind, value)?)
            }
            _ => Err(wrong_type(at)),
        },
        PlaceType::Pointer(pointee, to_constant) => {
            pointer_compound(structs, op, at, pointee, to_constant, lvalue, operand)
        }
        _ => Err(wrong_type(at)),
    }
}

fn pointer_compound<'t>(
    structs: &[Structure],
    op: BinOp,
    at: Place,
    pointee: Pointee,
    to_constant: bool,
    lvalue: Lvalue,
    operand: Operand<'t>,
) -> Result<Act, Fault>
    ensures { Gives act_view (compound_of (structures_view structs.now) op at (APointer pointee to_constant) (lvalue_view lvalue) (operand_view operand.entry)) result }
{
    match op {
        BinOp::Add => match operand {
            Operand::Integer(_, value, _) => {
                let size = pointee_cells(structs, at, pointee)?;
                Ok(Act::Advance(lvalue, value, size))
            }
            _ => Err(wrong_type(at)),
        },
        BinOp::Sub => match operand {
            Operand::Integer(_, value, _) => {
                let size = pointee_cells(structs, at, pointee)?;
                Ok(Act::Retreat(lvalue, value, size))
            }
            _ => Err(wrong_type(at)),
        },
        _ => Err(wrong_type(at)),
    }
}

/// C 6.5.16.2
pub fn compound_assigned<'t>(
    alloc: Global,
    structs: &[Structure],
    op: BinOp,
    at: Sides,
    left: Operand<'t>,
    right: Operand<'t>,
) -> Result<Act, Fault>
    ensures { Gives act_view (compound_assigned (structures_view structs.now) op (sides_view at) (operand_view left.entry) (operand_view right.entry)) result }
{
    let may_write = modifiable(at.left, &left);
    let to = target(at.operator, left)?;
    let made = compound_of(alloc, structs, op, at.operator, to.ty, to.lvalue, right)?;
    match may_write {
        Ok(()) => {}
        Err(fault) => return Err(fault),
    }
    Ok(made)
}

/// An integer, or a pointer to a complete type.
fn step_of<'t>(
    structs: &[Structure],
    bump: Bump,
    at: Place,
    ty: PlaceType<'t>,
    lvalue: Lvalue,
) -> Result<Act, Fault>
    ensures { Gives act_view (step_of (structures_view structs.now) bump at (type_view ty.entry) (lvalue_view lvalue)) result }
{
    match ty {
        PlaceType::Word(_) => Ok(Act::Bump(bump, lvalue)),
        PlaceType::Pointer(pointee, _) => {
            let size = pointee_cells(structs, at, pointee)?;
            Ok(Act::BumpPointer(bump, lvalue, size))
        }
        _ => Err(wrong_type(at)),
    }
}

/// `++` and `--`, at the operator, and at the first token of what is written.
pub fn stepped<'t>(
    structs: &[Structure],
    bump: Bump,
    operator: Place,
    first: Place,
    operand: Operand<'t>,
) -> Result<Act, Fault>
    ensures { Gives act_view (stepped (structures_view structs.now) bump operator first (operand_view operand.entry)) result }
{
    let may_write = modifiable(first, &operand);
    let to = target(operator, operand)?;
    let made = step_of(structs, bump, operator, to.ty, to.lvalue)?;
    match may_write {
        Ok(()) => {}
        Err(fault) => return Err(fault),
    }
    Ok(made)
}
