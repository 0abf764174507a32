//! `a ? b : c` (C 6.5.15).

ghost use Rattle.std.specs.Prelude.{◌≡◌, IfOk};
ghost use Rattle.rvt_tree.specs.Syntax.{conditional, null_pointer};
ghost use Rattle.rvt_tree.specs.Views.{lvalue_view, expr_view, exprs_view};
ghost use Rattle.expression_typing.specs.Operands.{a_place, an_integer, a_pointer, a_null, a_void};
ghost use Rattle.expression_typing.specs.ConditionalOperator.{chosen, choice_of};
ghost use Rattle.typing_base.specs.Views.{operand_view, type_view};
ghost use Rattle.typing_base.specs.Follows.{GivesOperand};

use crate::conversions::{integer_converted, tested};
use crate::kinds::is_same_pointee;
use rvt_num::Kind;
use rvt_tree::{Expr, Exprs, Lvalue, Place, Pointee};
use std::alloc::{AllocError, Global};
use typing_base::{Fault, Operand, PlaceType, wrong_type};

/// The second and the third operand are both integers, or both pointers.
pub fn choice_of<'t>(
    alloc: Global,
    at: Place,
    test: Operand<'t>,
    x: Operand<'t>,
    y: Operand<'t>,
) -> Result<Operand<'t>, Fault>
    ensures { GivesOperand (choice_of at (operand_view test.entry) (operand_view x.entry) (operand_view y.entry)) result }
{
    let condition = tested(at, test)?;
    chosen(alloc, at, condition, x, y)
}

/// Two integers, of their common kind; two pointers to one type; or a pointer and a null pointer constant.
fn chosen<'t>(
    alloc: Global,
    at: Place,
    test: Expr,
    x: Operand<'t>,
    y: Operand<'t>,
) -> Result<Operand<'t>, Fault>
    ensures { GivesOperand (chosen at (expr_view test) (operand_view x.entry) (operand_view y.entry)) result }
{
    match x {
        Operand::Integer(a, x, zero_token) => integer_or(alloc, at, test, a, x, zero_token, y),
        Operand::Pointer(pointee, to_constant, p) => {
            pointer_or(alloc, at, test, pointee, to_constant, p, y)
        }
        Operand::Null => null_or(alloc, at, test, y),
        Operand::Place(ty, fixed, lvalue) => place_or(at, test, ty, fixed, lvalue, y),
        Operand::Void(function, given) => void_or(at, test, function, given, y),
    }
}

fn conditional(alloc: Global, test: Expr, first: Expr, second: Expr) -> Result<Expr, AllocError>
    ensures { IfOk result (λ e. expr_view e ≡ conditional (expr_view test) (expr_view first) (expr_view second)) }
{
    let test = Box::new(alloc, test)?;
    let first = Box::new(alloc, first)?;
    let second = Box::new(alloc, second)?;
    Ok(Expr::Choice(test, first, second))
}

fn integer_or<'t>(
    alloc: Global,
    at: Place,
    test: Expr,
    a: Kind,
    x: Expr,
    zero_token: bool,
    y: Operand<'t>,
) -> Result<Operand<'t>, Fault>
    ensures { GivesOperand (chosen at (expr_view test) (an_integer a (expr_view x) zero_token) (operand_view y.entry)) result }
{
    match y {
        Operand::Integer(b, y, _) => {
            let kind = rvt_num::common(a, b);
            let x = integer_converted(alloc, a, kind, x)?;
            let y = integer_converted(alloc, b, kind, y)?;
            Ok(Operand::Integer(kind, conditional(alloc, test, x, y)?, false))
        }
        Operand::Pointer(pointee, to_constant, q) => {
            if zero_token {
                let value = conditional(alloc, test, Expr::Null, q)?;
                Ok(Operand::Pointer(pointee, to_constant, value))
            } else {
                Err(wrong_type(at))
            }
        }
        _ => Err(wrong_type(at)),
    }
}

fn null_or<'t>(alloc: Global, at: Place, test: Expr, y: Operand<'t>) -> Result<Operand<'t>, Fault>
    ensures { GivesOperand (chosen at (expr_view test) a_null (operand_view y.entry)) result }
{
    match y {
        Operand::Pointer(pointee, to_constant, q) => {
            let value = conditional(alloc, test, Expr::Null, q)?;
            Ok(Operand::Pointer(pointee, to_constant, value))
        }
        _ => Err(wrong_type(at)),
    }
}

fn pointer_or<'t>(
    alloc: Global,
    at: Place,
    test: Expr,
    pointee: Pointee,
    to_constant: bool,
    p: Expr,
    y: Operand<'t>,
) -> Result<Operand<'t>, Fault>
    ensures { GivesOperand (chosen at (expr_view test) (a_pointer pointee to_constant (expr_view p)) (operand_view y.entry)) result }
{
    match y {
        Operand::Pointer(other, other_constant, q) => {
            if !is_same_pointee(pointee, other) {
                return Err(wrong_type(at));
            }
            let value = conditional(alloc, test, p, q)?;
            Ok(Operand::Pointer(pointee, to_constant || other_constant, value))
        }
        Operand::Null => Ok(pointer_or_null(alloc, test, pointee, to_constant, p)?),
        Operand::Integer(_, _, zero_token) => {
            if zero_token {
                Ok(pointer_or_null(alloc, test, pointee, to_constant, p)?)
            } else {
                Err(wrong_type(at))
            }
        }
        Operand::Place(_, _, _) => Err(wrong_type(at)),
        Operand::Void(_, _) => Err(wrong_type(at)),
    }
}

fn pointer_or_null<'t>(
    alloc: Global,
    test: Expr,
    pointee: Pointee,
    to_constant: bool,
    p: Expr,
) -> Result<Operand<'t>, AllocError>
    ensures { IfOk result (λ o. operand_view o ≡ a_pointer pointee to_constant (conditional (expr_view test) (expr_view p) null_pointer)) }
{
    let value = conditional(alloc, test, p, Expr::Null)?;
    Ok(Operand::Pointer(pointee, to_constant, value))
}

/// A struct is not chosen, whatever the other operand is.
fn place_or<'t>(
    at: Place,
    test: Expr,
    ty: PlaceType<'t>,
    fixed: bool,
    lvalue: Lvalue,
    y: Operand<'t>,
) -> Result<Operand<'t>, Fault>
    ensures { GivesOperand (chosen at (expr_view test) (a_place (type_view ty.entry) fixed (lvalue_view lvalue)) (operand_view y.entry)) result }
{
    match y {
        Operand::Pointer(_, _, _) => Err(wrong_type(at)),
        _ => Err(wrong_type(at)),
    }
}

/// Nor is a call without a result.
fn void_or<'t>(
    at: Place,
    test: Expr,
    function: u32,
    given: Exprs,
    y: Operand<'t>,
) -> Result<Operand<'t>, Fault>
    ensures { GivesOperand (chosen at (expr_view test) (a_void function (exprs_view given)) (operand_view y.entry)) result }
{
    match y {
        Operand::Pointer(_, _, _) => Err(wrong_type(at)),
        _ => Err(wrong_type(at)),
    }
}
