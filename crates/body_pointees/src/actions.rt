//! What is dereferenced in actions.

ghost use Rattle.std.specs.Prelude.{◌≡◌, ◌++◌, IfOk};
ghost use Rattle.rvt_tree.specs.Views.{lvalue_view, expr_view, act_view, acts_view};
ghost use Rattle.body_pointees.specs.Pointees.{place_pointees, expression_pointees, action_pointees, actions_pointees};

use crate::expressions::{collect_from_arguments, collect_from_expression, collect_from_place};
use rvt_tree::{Act, Acts, Expr, Lvalue, Pointee};
use std::alloc::AllocError;

pub fn collect_from_action(act: &Act, into: &mut Vec<Pointee>) -> Result<(), AllocError>
    ensures { IfOk result (λ _. into.new.items ≡ into.old.items ++ action_pointees (act_view act.now)) }
{
    match act {
        Act::Evaluate(e) => collect_from_expression(e, into),
        Act::Call(_, arguments) => collect_from_arguments(arguments, into),
        Act::Discard(e) => collect_from_expression(e, into),
        Act::DiscardCall(_, arguments) => collect_from_arguments(arguments, into),
        Act::Assign(place, e) => collect_from_sides(place, e, into),
        Act::Update(_, place, _, e) => collect_from_sides(place, e, into),
        Act::Advance(place, e, _) => collect_from_sides(place, e, into),
        Act::Retreat(place, e, _) => collect_from_sides(place, e, into),
        Act::Bump(_, place) => collect_from_place(place, into),
        Act::BumpPointer(_, place, _) => collect_from_place(place, into),
    }
}

/// What is changed, and the operand at its right.
fn collect_from_sides(place: &Lvalue, e: &Expr, into: &mut Vec<Pointee>) -> Result<(), AllocError>
    ensures { IfOk result (λ _. into.new.items ≡ into.old.items ++ (place_pointees (lvalue_view place.now) ++ expression_pointees (expr_view e.now))) }
{
    collect_from_place(place, into)?;
    collect_from_expression(e, into)
}

pub fn collect_from_actions(acts: &Acts, into: &mut Vec<Pointee>) -> Result<(), AllocError>
    ensures { IfOk result (λ _. into.new.items ≡ into.old.items ++ actions_pointees (acts_view acts.now)) }
{
    let mut rest = acts;
    while let Acts::More(item, more) = rest {
        collect_from_action(item, into)?;
        rest = more;
    }
    Ok(())
}
