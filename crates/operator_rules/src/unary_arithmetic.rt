//! `+a`, `-a`, `~a` and `!a` (C 6.5.3.3).

ghost use Rattle.std.specs.Prelude.{◌≡◌, IfOk};
ghost use Rattle.rvt_tree.specs.Views.{expr_view};
ghost use Rattle.expression_typing.specs.UnaryArithmetic.{on_promoted, not_of};
ghost use Rattle.typing_base.specs.Views.{operand_view};
ghost use Rattle.typing_base.specs.Follows.{GivesOperand};
ghost use Rattle.operator_rules.specs.Forms.{signed_form};

use crate::conversions::{promoted, tested};
use rvt_num::Kind;
use rvt_tree::{Expr, Place};
use std::alloc::{AllocError, Global};
use typing_base::{Fault, Operand, wrong_type};

/// The operators whose operand is promoted.
#[derive(Clone, Copy)]
pub enum Sign {
    /// `+`
    Plus,
    /// `-`
    Minus,
    /// `~`
    Complement,
}

fn signed_form(alloc: Global, form: Sign, value: Expr) -> Result<Expr, AllocError>
    ensures { IfOk result (λ e. expr_view e ≡ signed_form form (expr_view value)) }
{
    let value = Box::new(alloc, value)?;
    match form {
        Sign::Plus => Ok(Expr::Plus(value)),
        Sign::Minus => Ok(Expr::Minus(value)),
        Sign::Complement => Ok(Expr::Flip(value)),
    }
}

/// A promoted integer.
pub fn on_promoted<'t>(
    alloc: Global,
    form: Sign,
    at: Place,
    operand: Operand<'t>,
) -> Result<Operand<'t>, Fault>
    ensures { GivesOperand (on_promoted (signed_form form) at (operand_view operand.entry)) result }
{
    match operand {
        Operand::Integer(kind, value, _) => {
            let value = promoted(alloc, kind, value)?;
            let value = signed_form(alloc, form, value)?;
            Ok(Operand::Integer(rvt_num::promoted(kind), value, false))
        }
        _ => Err(wrong_type(at)),
    }
}

/// `!a`
pub fn not_of<'t>(alloc: Global, at: Place, operand: Operand<'t>) -> Result<Operand<'t>, Fault>
    ensures { GivesOperand (not_of at (operand_view operand.entry)) result }
{
    let value = tested(at, operand)?;
    let value = Expr::Not(Box::new(alloc, value)?);
    Ok(Operand::Integer(Kind::I32, value, false))
}
