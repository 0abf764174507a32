//! `a && b`, `a || b` (C 6.5.13, 6.5.14).

ghost use Rattle.std.specs.Prelude.{◌≡◌, IfOk};
ghost use Rattle.rvt_num.specs.declared.kinds.Kind.TheVariants.{I32};
ghost use Rattle.rvt_tree.specs.Views.{expr_view};
ghost use Rattle.expression_typing.specs.Operands.{an_int_value};
ghost use Rattle.expression_typing.specs.Outcomes.{and_then, give};
ghost use Rattle.expression_typing.specs.Conversions.{tested};
ghost use Rattle.expression_typing.specs.LogicalOperators.{logical_of};
ghost use Rattle.typing_base.specs.Views.{operand_view};
ghost use Rattle.typing_base.specs.Follows.{GivesOperand};
ghost use Rattle.operator_rules.specs.Forms.{logical_form};

use crate::conversions::tested;
use rvt_num::Kind;
use rvt_tree::{Expr, Place};
use std::alloc::{AllocError, Global};
use typing_base::{Fault, Operand};

#[derive(Clone, Copy)]
pub enum Logical {
    /// `&&`
    And,
    /// `||`
    Or,
}

fn logical_form(alloc: Global, form: Logical, a: Expr, b: Expr) -> Result<Expr, AllocError>
    ensures { IfOk result (λ e. expr_view e ≡ logical_form form (expr_view a) (expr_view b)) }
{
    let a = Box::new(alloc, a)?;
    let b = Box::new(alloc, b)?;
    match form {
        Logical::And => Ok(Expr::Both(a, b)),
        Logical::Or => Ok(Expr::Either(a, b)),
    }
}

/// Two integers or pointers.
pub fn logical_of<'t>(
    alloc: Global,
    form: Logical,
    at: Place,
    x: Operand<'t>,
    y: Operand<'t>,
) -> Result<Operand<'t>, Fault>
    ensures { GivesOperand (logical_of (logical_form form) at (operand_view x.entry) (operand_view y.entry)) result }
{
    let a = tested(at, x)?;
    logical_with(alloc, form, at, a, y)
}

fn logical_with<'t>(
    alloc: Global,
    form: Logical,
    at: Place,
    a: Expr,
    y: Operand<'t>,
) -> Result<Operand<'t>, Fault>
    ensures { GivesOperand (and_then (tested at (operand_view y.entry)) (λ b. give (an_int_value I32 (logical_form form (expr_view a) b)))) result }
{
    let b = tested(at, y)?;
    let value = logical_form(alloc, form, a, b)?;
    Ok(Operand::Integer(Kind::I32, value, false))
}
