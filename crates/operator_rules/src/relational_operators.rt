//! `<`, `<=`, `>`, `>=` (C 6.5.8).

ghost use Rattle.expression_typing.specs.RelationalOperators.{order_of};
ghost use Rattle.typing_base.specs.Views.{operand_view};
ghost use Rattle.typing_base.specs.Follows.{GivesOperand};

use crate::integer_operators::on_common;
use rvt_num::BinOp;
use rvt_tree::Place;
use std::alloc::Global;
use typing_base::{Fault, Operand, not_in_profile, wrong_type};

/// Two integers; an order of two pointers is not in the profile.
pub fn order_of<'t>(
    alloc: Global,
    op: BinOp,
    at: Place,
    x: Operand<'t>,
    y: Operand<'t>,
) -> Result<Operand<'t>, Fault>
    ensures { GivesOperand (order_of op at (operand_view x.entry) (operand_view y.entry)) result }
{
    match x {
        Operand::Integer(a, x, _) => match y {
            Operand::Integer(b, y, _) => Ok(on_common(alloc, op, a, x, b, y)?),
            _ => Err(wrong_type(at)),
        },
        Operand::Pointer(_, _, _) => match y {
            Operand::Pointer(_, _, _) | Operand::Null => Err(not_in_profile(at)),
            _ => Err(wrong_type(at)),
        },
        Operand::Null => match y {
            Operand::Pointer(_, _, _) | Operand::Null => Err(not_in_profile(at)),
            _ => Err(wrong_type(at)),
        },
        _ => Err(wrong_type(at)),
    }
}
