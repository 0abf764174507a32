//! Names and constants (C 6.5.1).

ghost use Rattle.std.specs.Prelude.{◌≡◌, option_map};
ghost use Rattle.expression_typing.specs.PrimaryExpressions.{named, integer_constant, character_constant};
ghost use Rattle.typing_base.specs.Views.{entity_view, operand_view};
ghost use Rattle.typing_base.specs.Follows.{GivesOperand};

use crate::operands::place_type;
use c_syntax::Word;
use rvt_num::Num;
use rvt_tree::{Expr, Lvalue, Variable};
use std::alloc::Global;
use typing_base::{Cause, Entity, Fault, Operand, broken, copied_name, not_in_profile, wrong_type};

/// A name that stands for this.
pub fn named<'t>(
    alloc: Global,
    word: &Word,
    entity: Option<&'t Entity>,
) -> Result<Operand<'t>, Fault>
    ensures { GivesOperand (named word.now (option_map (λ entity. entity_view entity.now) entity.entry)) result }
{
    match entity {
        None => {
            let name = copied_name(alloc, &word.name)?;
            Err(broken(Cause::UnknownName(name), word.place))
        }
        Some(Entity::Local(number, ty, fixed)) => {
            let lvalue = Lvalue::Variable(Variable::Local(*number));
            Ok(Operand::Place(place_type(ty), *fixed, lvalue))
        }
        Some(Entity::Object(number, ty, fixed)) => {
            let lvalue = Lvalue::Variable(Variable::Object(*number));
            Ok(Operand::Place(place_type(ty), *fixed, lvalue))
        }
        Some(Entity::Function(_, _, _)) => Err(not_in_profile(word.place)),
        Some(Entity::Constant(number)) => Ok(character_constant(*number)),
        Some(Entity::Null) => Ok(Operand::Null),
        Some(Entity::Typedef(_)) => Err(wrong_type(word.place)),
    }
}

/// An integer constant (C 6.4.4.1).
pub fn integer_constant<'t>(number: Num) -> Operand<'t>
    ensures { operand_view result ≡ integer_constant number }
{
    Operand::Integer(number.kind(), Expr::Constant(number), number.value() == 0)
}

/// A character constant (C 6.4.4.4), and any other that is no token of an integer.
pub fn character_constant<'t>(number: Num) -> Operand<'t>
    ensures { operand_view result ≡ character_constant number }
{
    Operand::Integer(number.kind(), Expr::Constant(number), false)
}
