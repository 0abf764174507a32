//! `==`, `!=` (C 6.5.9).

ghost use Rattle.std.specs.Prelude.{◌≡◌, IfOk};
ghost use Rattle.rvt_num.specs.declared.kinds.Kind.TheVariants.{I32};
ghost use Rattle.rvt_tree.specs.Views.{lvalue_view, expr_view, exprs_view};
ghost use Rattle.expression_typing.specs.Operands.{a_place, an_integer, a_null, a_void, an_int_value};
ghost use Rattle.expression_typing.specs.EqualityOperators.{equality_of};
ghost use Rattle.typing_base.specs.Views.{operand_view, type_view};
ghost use Rattle.typing_base.specs.Follows.{GivesOperand};
ghost use Rattle.operator_rules.specs.Forms.{of_integers, of_pointers};

use crate::conversions::pointer_converted;
use crate::integer_operators::on_common;
use rvt_num::{BinOp, Kind};
use rvt_tree::{Expr, Exprs, Lvalue, Place};
use std::alloc::{AllocError, Global};
use typing_base::{Fault, Operand, PlaceType, wrong_type};

#[derive(Clone, Copy)]
pub enum Equality {
    /// `==`
    Equal,
    /// `!=`
    Unequal,
}

fn of_integers(equality: Equality) -> BinOp
    ensures { result ≡ of_integers equality }
{
    match equality {
        Equality::Equal => BinOp::Eq,
        Equality::Unequal => BinOp::Ne,
    }
}

fn of_pointers(alloc: Global, equality: Equality, p: Expr, q: Expr) -> Result<Expr, AllocError>
    ensures { IfOk result (λ e. expr_view e ≡ of_pointers equality (expr_view p) (expr_view q)) }
{
    let p = Box::new(alloc, p)?;
    let q = Box::new(alloc, q)?;
    match equality {
        Equality::Equal => Ok(Expr::SamePointer(p, q)),
        Equality::Unequal => Ok(Expr::OtherPointer(p, q)),
    }
}

fn compared<'t>(
    alloc: Global,
    equality: Equality,
    p: Expr,
    q: Expr,
) -> Result<Operand<'t>, AllocError>
    ensures { IfOk result (λ o. operand_view o ≡ an_int_value I32 (of_pointers equality (expr_view p) (expr_view q))) }
{
    let value = of_pointers(alloc, equality, p, q)?;
    Ok(Operand::Integer(Kind::I32, value, false))
}

/// Two integers; or a pointer, and a pointer to the same type or a null pointer constant, `const` or not.
pub fn equality_of<'t>(
    alloc: Global,
    equality: Equality,
    at: Place,
    x: Operand<'t>,
    y: Operand<'t>,
) -> Result<Operand<'t>, Fault>
    ensures { GivesOperand (equality_of (of_integers equality) (of_pointers equality) at (operand_view x.entry) (operand_view y.entry)) result }
{
    match x {
        Operand::Integer(a, x, zero_token) => integer_and(alloc, equality, at, a, x, zero_token, y),
        Operand::Pointer(pointee, _, p) => {
            let q = pointer_converted(at, pointee, true, y)?;
            Ok(compared(alloc, equality, p, q)?)
        }
        Operand::Null => null_and(alloc, equality, at, y),
        Operand::Place(ty, fixed, lvalue) => place_and(equality, at, ty, fixed, lvalue, y),
        Operand::Void(function, given) => void_and(equality, at, function, given, y),
    }
}

/// With an integer on the left, which may be a null pointer constant.
fn integer_and<'t>(
    alloc: Global,
    equality: Equality,
    at: Place,
    a: Kind,
    x: Expr,
    zero_token: bool,
    y: Operand<'t>,
) -> Result<Operand<'t>, Fault>
    ensures { GivesOperand (equality_of (of_integers equality) (of_pointers equality) at (an_integer a (expr_view x) zero_token) (operand_view y.entry)) result }
{
    match y {
        Operand::Integer(b, y, _) => Ok(on_common(alloc, of_integers(equality), a, x, b, y)?),
        Operand::Pointer(_, _, q) => {
            if zero_token {
                Ok(compared(alloc, equality, Expr::Null, q)?)
            } else {
                Err(wrong_type(at))
            }
        }
        _ => Err(wrong_type(at)),
    }
}

/// With `NULL` on the left.
fn null_and<'t>(
    alloc: Global,
    equality: Equality,
    at: Place,
    y: Operand<'t>,
) -> Result<Operand<'t>, Fault>
    ensures { GivesOperand (equality_of (of_integers equality) (of_pointers equality) at a_null (operand_view y.entry)) result }
{
    match y {
        Operand::Pointer(_, _, q) => Ok(compared(alloc, equality, Expr::Null, q)?),
        _ => Err(wrong_type(at)),
    }
}

/// A struct is compared with nothing, whatever stands on the right.
fn place_and<'t>(
    equality: Equality,
    at: Place,
    ty: PlaceType<'t>,
    fixed: bool,
    lvalue: Lvalue,
    y: Operand<'t>,
) -> Result<Operand<'t>, Fault>
    ensures { GivesOperand (equality_of (of_integers equality) (of_pointers equality) at (a_place (type_view ty.entry) fixed (lvalue_view lvalue)) (operand_view y.entry)) result }
{
    match y {
        Operand::Pointer(_, _, _) => Err(wrong_type(at)),
        _ => Err(wrong_type(at)),
    }
}

/// Nor is a call without a result.
fn void_and<'t>(
    equality: Equality,
    at: Place,
    function: u32,
    given: Exprs,
    y: Operand<'t>,
) -> Result<Operand<'t>, Fault>
    ensures { GivesOperand (equality_of (of_integers equality) (of_pointers equality) at (a_void function (exprs_view given)) (operand_view y.entry)) result }
{
    match y {
        Operand::Pointer(_, _, _) => Err(wrong_type(at)),
        _ => Err(wrong_type(at)),
    }
}
