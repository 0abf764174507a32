//! The operators that take two integers (C 6.5.5, 6.5.7, 6.5.10 to 6.5.12).

ghost use Rattle.std.specs.Prelude.{◌≡◌, IfOk};
ghost use Rattle.rvt_num.specs.Operations.{is_shift, result_kind};
ghost use Rattle.rvt_tree.specs.Views.{expr_view};
ghost use Rattle.expression_typing.specs.IntegerOperators.{on_common, integers_of, shift_of};
ghost use Rattle.typing_base.specs.Views.{operand_view};
ghost use Rattle.typing_base.specs.Follows.{GivesOperand};

use crate::conversions::{integer_converted, promoted};
use rvt_num::{BinOp, Kind};
use rvt_tree::builders::operation;
use rvt_tree::{Expr, Place};
use std::alloc::{AllocError, Global};
use typing_base::{Fault, Operand, wrong_type};

/// The kind of what an operation on two operands of one kind gives.
fn result_kind(op: BinOp, kind: Kind) -> Kind
    ensures { result ≡ result_kind op kind }
{
    match op {
        BinOp::Eq | BinOp::Ne | BinOp::Lt | BinOp::Le | BinOp::Gt | BinOp::Ge => Kind::I32,
        _ => kind,
    }
}

pub fn is_shift(op: BinOp) -> bool
    ensures { result ≡ is_shift op }
{
    match op {
        BinOp::Shl | BinOp::Shr => true,
        _ => false,
    }
}

/// An operation on two integers, both of their common kind (C 6.3.1.8).
pub fn on_common<'t>(
    alloc: Global,
    op: BinOp,
    a: Kind,
    x: Expr,
    b: Kind,
    y: Expr,
) -> Result<Operand<'t>, AllocError>
    ensures { IfOk result (λ o. operand_view o ≡ on_common op a (expr_view x) b (expr_view y)) }
{
    let kind = rvt_num::common(a, b);
    let x = integer_converted(alloc, a, kind, x)?;
    let y = integer_converted(alloc, b, kind, y)?;
    let value = operation(alloc, op, x, y)?;
    Ok(Operand::Integer(result_kind(op, kind), value, false))
}

/// `*`, `/`, `%`, `&`, `^`, `|`
pub fn integers_of<'t>(
    alloc: Global,
    op: BinOp,
    at: Place,
    x: Operand<'t>,
    y: Operand<'t>,
) -> Result<Operand<'t>, Fault>
    ensures { GivesOperand (integers_of op at (operand_view x.entry) (operand_view y.entry)) result }
{
    match x {
        Operand::Integer(a, x, _) => match y {
            Operand::Integer(b, y, _) => Ok(on_common(alloc, op, a, x, b, y)?),
            _ => Err(wrong_type(at)),
        },
        _ => Err(wrong_type(at)),
    }
}

/// `<<`, `>>`: each operand is promoted by itself.
pub fn shift_of<'t>(
    alloc: Global,
    op: BinOp,
    at: Place,
    x: Operand<'t>,
    y: Operand<'t>,
) -> Result<Operand<'t>, Fault>
    ensures { GivesOperand (shift_of op at (operand_view x.entry) (operand_view y.entry)) result }
{
    match x {
        Operand::Integer(a, x, _) => match y {
            Operand::Integer(b, y, _) => {
                let x = promoted(alloc, a, x)?;
                let y = promoted(alloc, b, y)?;
                let value = operation(alloc, op, x, y)?;
                Ok(Operand::Integer(rvt_num::promoted(a), value, false))
            }
            _ => Err(wrong_type(at)),
        },
        _ => Err(wrong_type(at)),
    }
}
