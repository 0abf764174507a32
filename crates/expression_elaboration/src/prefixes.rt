//! An operator before its operand (C 6.5.3).

ghost use Rattle.expression_typing.specs.Operators.{prefixed};
ghost use Rattle.typing_base.specs.Views.{operand_view, scope_view, notes_view};
ghost use Rattle.typing_base.specs.Follows.{BecomesOperand};
ghost use Rattle.place_rules.specs.Views.{ends_view};

use c_syntax::Prefix;
use operator_rules::{Sign, not_of, on_promoted};
use place_rules::{Ends, address_of, converted_operand, target_of};
use rvt_tree::Place;
use std::alloc::Global;
use typing_base::{Fault, Notes, Operand, Scope};

/// Under `&` an lvalue stays one, and an array stays an array.
pub fn prefixed<'t>(
    alloc: Global,
    scope: Scope<'t>,
    op: Prefix,
    at: Place,
    ends: Ends,
    x: Operand<'t>,
    notes: &mut Notes,
) -> Result<Operand<'t>, Fault>
    ensures { BecomesOperand (prefixed (scope_view scope.entry) op at (ends_view ends) (operand_view x.entry) (notes_view notes.old)) result notes.new }
{
    match op {
        Prefix::Plus => {
            let x = converted_operand(alloc, scope, ends, x, notes)?;
            on_promoted(alloc, Sign::Plus, at, x)
        }
        Prefix::Minus => {
            let x = converted_operand(alloc, scope, ends, x, notes)?;
            on_promoted(alloc, Sign::Minus, at, x)
        }
        Prefix::Complement => {
            let x = converted_operand(alloc, scope, ends, x, notes)?;
            on_promoted(alloc, Sign::Complement, at, x)
        }
        Prefix::Not => {
            let x = converted_operand(alloc, scope, ends, x, notes)?;
            not_of(alloc, at, x)
        }
        Prefix::Target => {
            let x = converted_operand(alloc, scope, ends, x, notes)?;
            target_of(alloc, scope.structs(), at, x)
        }
        Prefix::Address => address_of(alloc, scope, at, x, notes),
    }
}
