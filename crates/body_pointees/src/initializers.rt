//! What is dereferenced in initializers.

ghost use Rattle.std.specs.Prelude.{◌≡◌, ◌++◌, IfOk};
ghost use Rattle.rvt_tree.specs.Views.{init_view, inits_view};
ghost use Rattle.body_pointees.specs.Pointees.{initializer_pointees, members_pointees};

use crate::expressions::collect_from_expression;
use rvt_tree::{Init, Inits, Pointee};
use std::alloc::AllocError;

#[cycle(collect_from_initializer)]
pub fn collect_from_initializer(init: &Init, into: &mut Vec<Pointee>) -> Result<(), AllocError>
    ensures { IfOk result (λ _. into.new.items ≡ into.old.items ++ initializer_pointees (init_view init.now)) }
{
    match init {
        Init::Value(e) => collect_from_expression(e, into),
        Init::Braces(members) => collect_from_members(members, into),
    }
}

#[cycle(collect_from_initializer)]
fn collect_from_members(members: &Inits, into: &mut Vec<Pointee>) -> Result<(), AllocError>
    ensures { IfOk result (λ _. into.new.items ≡ into.old.items ++ members_pointees (inits_view members.now)) }
{
    let mut rest = members;
    while let Inits::More(item, _, more) = rest {
        collect_from_initializer(item, into)?;
        rest = more;
    }
    Ok(())
}
