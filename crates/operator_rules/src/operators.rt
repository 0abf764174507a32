//! Which rule each operator has, and which operation of the typed tree it is.

ghost use Rattle.std.specs.Prelude.{◌≡◌};
ghost use Rattle.rvt_tree.specs.Views.{act_view};
ghost use Rattle.expression_typing.specs.Operators.{operated, set, bump_after, bump_before};
ghost use Rattle.typing_base.specs.Views.{operand_view, structures_view};
ghost use Rattle.typing_base.specs.Follows.{Gives, GivesOperand};
ghost use Rattle.operator_rules.specs.Views.{sides_view};

use crate::additive_operators::{difference_of, sum_of};
use crate::assignment::{Sides, assigned, compound_assigned};
use crate::equality_operators::{Equality, equality_of};
use crate::integer_operators::{integers_of, shift_of};
use crate::logical_operators::{Logical, logical_of};
use crate::relational_operators::order_of;
use c_syntax::{Infix, Setting, Step};
use rvt_num::BinOp;
use rvt_tree::{Act, Bump, Place};
use std::alloc::Global;
use typing_base::{Fault, Operand, Structure};

/// An operator between two operands (C 6.5.5 to 6.5.14).
pub fn operated<'t>(
    alloc: Global,
    structs: &[Structure],
    op: Infix,
    at: Place,
    x: Operand<'t>,
    y: Operand<'t>,
) -> Result<Operand<'t>, Fault>
    ensures { GivesOperand (operated (structures_view structs.now) op at (operand_view x.entry) (operand_view y.entry)) result }
{
    match op {
        Infix::Multiply => integers_of(alloc, BinOp::Mul, at, x, y),
        Infix::Divide => integers_of(alloc, BinOp::Div, at, x, y),
        Infix::Remainder => integers_of(alloc, BinOp::Rem, at, x, y),
        Infix::Add => sum_of(alloc, structs, at, x, y),
        Infix::Subtract => difference_of(alloc, structs, at, x, y),
        Infix::ShiftLeft => shift_of(alloc, BinOp::Shl, at, x, y),
        Infix::ShiftRight => shift_of(alloc, BinOp::Shr, at, x, y),
        Infix::Less => order_of(alloc, BinOp::Lt, at, x, y),
        Infix::Greater => order_of(alloc, BinOp::Gt, at, x, y),
        Infix::LessEqual => order_of(alloc, BinOp::Le, at, x, y),
        Infix::GreaterEqual => order_of(alloc, BinOp::Ge, at, x, y),
        Infix::Equal => equality_of(alloc, Equality::Equal, at, x, y),
        Infix::NotEqual => equality_of(alloc, Equality::Unequal, at, x, y),
        Infix::And => integers_of(alloc, BinOp::And, at, x, y),
        Infix::Xor => integers_of(alloc, BinOp::Xor, at, x, y),
        Infix::Or => integers_of(alloc, BinOp::Or, at, x, y),
        Infix::Both => logical_of(alloc, Logical::And, at, x, y),
        Infix::Either => logical_of(alloc, Logical::Or, at, x, y),
    }
}

/// An operator of an assignment (C 6.5.16).
pub fn set<'t>(
    alloc: Global,
    structs: &[Structure],
    op: Setting,
    at: Sides,
    x: Operand<'t>,
    y: Operand<'t>,
) -> Result<Act, Fault>
    ensures { Gives act_view (set (structures_view structs.now) op (sides_view at) (operand_view x.entry) (operand_view y.entry)) result }
{
    match op {
        Setting::Plain => assigned(alloc, at, x, y),
        Setting::Multiply => compound_assigned(alloc, structs, BinOp::Mul, at, x, y),
        Setting::Divide => compound_assigned(alloc, structs, BinOp::Div, at, x, y),
        Setting::Remainder => compound_assigned(alloc, structs, BinOp::Rem, at, x, y),
        Setting::Add => compound_assigned(alloc, structs, BinOp::Add, at, x, y),
        Setting::Subtract => compound_assigned(alloc, structs, BinOp::Sub, at, x, y),
        Setting::ShiftLeft => compound_assigned(alloc, structs, BinOp::Shl, at, x, y),
        Setting::ShiftRight => compound_assigned(alloc, structs, BinOp::Shr, at, x, y),
        Setting::And => compound_assigned(alloc, structs, BinOp::And, at, x, y),
        Setting::Xor => compound_assigned(alloc, structs, BinOp::Xor, at, x, y),
        Setting::Or => compound_assigned(alloc, structs, BinOp::Or, at, x, y),
    }
}

/// `x++`, `x--`
pub fn bump_after(step: Step) -> Bump
    ensures { result ≡ bump_after step }
{
    match step {
        Step::Up => Bump::UpAfter,
        Step::Down => Bump::DownAfter,
    }
}

/// `++x`, `--x`
pub fn bump_before(step: Step) -> Bump
    ensures { result ≡ bump_before step }
{
    match step {
        Step::Up => Bump::UpBefore,
        Step::Down => Bump::DownBefore,
    }
}
