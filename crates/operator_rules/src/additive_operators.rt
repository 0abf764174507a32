//! `a + b`, `a - b` (C 6.5.6).

ghost use Rattle.expression_typing.specs.Operands.{an_integer, a_pointer};
ghost use Rattle.expression_typing.specs.AdditiveOperators.{sum_of, difference_of};
ghost use Rattle.rvt_tree.specs.Views.{expr_view};
ghost use Rattle.typing_base.specs.Views.{operand_view, structures_view};
ghost use Rattle.typing_base.specs.Follows.{GivesOperand};

use crate::integer_operators::on_common;
use rvt_num::{BinOp, Kind};
use rvt_tree::{Expr, Place, Pointee};
use std::alloc::Global;
use typing_base::{Fault, Operand, Structure, not_in_profile, pointee_cells, wrong_type};

/// Two integers, or a pointer to a complete type and an integer.
pub fn sum_of<'t>(
    alloc: Global,
    structs: &[Structure],
    at: Place,
    x: Operand<'t>,
    y: Operand<'t>,
) -> Result<Operand<'t>, Fault>
    ensures { GivesOperand (sum_of (structures_view structs.now) at (operand_view x.entry) (operand_view y.entry)) result }
{
    match x {
        Operand::Integer(a, x, zero_token) => integer_plus(alloc, structs, at, a, x, zero_token, y),
        Operand::Pointer(pointee, to_constant, p) => {
            pointer_plus(alloc, structs, at, pointee, to_constant, p, y)
        }
        _ => Err(wrong_type(at)),
    }
}

fn integer_plus<'t>(
    alloc: Global,
    structs: &[Structure],
    at: Place,
    a: Kind,
    x: Expr,
    zero_token: bool,
    y: Operand<'t>,
) -> Result<Operand<'t>, Fault>
    ensures { GivesOperand (sum_of (structures_view structs.now) at (an_integer a (expr_view x) zero_token) (operand_view y.entry)) result }
{
    match y {
        Operand::Integer(b, y, _) => Ok(on_common(alloc, BinOp::Add, a, x, b, y)?),
        Operand::Pointer(pointee, to_constant, p) => {
            let size = pointee_cells(structs, at, pointee)?;
            let sum = Expr::ForwardFrom(Box::new(alloc, x)?, Box::new(alloc, p)?, size);
            Ok(Operand::Pointer(pointee, to_constant, sum))
        }
        _ => Err(wrong_type(at)),
    }
}

fn pointer_plus<'t>(
    alloc: Global,
    structs: &[Structure],
    at: Place,
    pointee: Pointee,
    to_constant: bool,
    p: Expr,
    y: Operand<'t>,
) -> Result<Operand<'t>, Fault>
    ensures { GivesOperand (sum_of (structures_view structs.now) at (a_pointer pointee to_constant (expr_view p)) (operand_view y.entry)) result }
{
    match y {
        Operand::Integer(_, k, _) => {
            let size = pointee_cells(structs, at, pointee)?;
            let sum = Expr::Forward(Box::new(alloc, p)?, Box::new(alloc, k)?, size);
            Ok(Operand::Pointer(pointee, to_constant, sum))
        }
        _ => Err(wrong_type(at)),
    }
}

/// Two integers, or a pointer to a complete type and an integer after it; that of two pointers is not in the profile.
pub fn difference_of<'t>(
    alloc: Global,
    structs: &[Structure],
    at: Place,
    x: Operand<'t>,
    y: Operand<'t>,
) -> Result<Operand<'t>, Fault>
    ensures { GivesOperand (difference_of (structures_view structs.now) at (operand_view x.entry) (operand_view y.entry)) result }
{
    match x {
        Operand::Integer(a, x, _) => match y {
            Operand::Integer(b, y, _) => Ok(on_common(alloc, BinOp::Sub, a, x, b, y)?),
            _ => Err(wrong_type(at)),
        },
        Operand::Pointer(pointee, to_constant, p) => {
            pointer_minus(alloc, structs, at, pointee, to_constant, p, y)
        }
        Operand::Null => match y {
            Operand::Pointer(_, _, _) | Operand::Null => Err(not_in_profile(at)),
            _ => Err(wrong_type(at)),
        },
        _ => Err(wrong_type(at)),
    }
}

fn pointer_minus<'t>(
    alloc: Global,
    structs: &[Structure],
    at: Place,
    pointee: Pointee,
    to_constant: bool,
    p: Expr,
    y: Operand<'t>,
) -> Result<Operand<'t>, Fault>
    ensures { GivesOperand (difference_of (structures_view structs.now) at (a_pointer pointee to_constant (expr_view p)) (operand_view y.entry)) result }
{
    match y {
        Operand::Integer(_, k, _) => {
            let size = pointee_cells(structs, at, pointee)?;
            let rest = Expr::Backward(Box::new(alloc, p)?, Box::new(alloc, k)?, size);
            Ok(Operand::Pointer(pointee, to_constant, rest))
        }
        Operand::Pointer(_, _, _) | Operand::Null => Err(not_in_profile(at)),
        _ => Err(wrong_type(at)),
    }
}
