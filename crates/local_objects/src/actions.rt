//! Actions in which each local that is an object stands as that.

ghost use Rattle.std.specs.Prelude.{◌≡◌, []};
ghost use Rattle.rvt_tree.specs.Views.{lvalue_view, expr_view, act_view, acts_view};
ghost use Rattle.file_typing.specs.LocalObjects.{place_resolved, resolved, action_resolved, actions_resolved};
ghost use Rattle.local_objects.specs.ObjectTables.{object_at};
ghost use Rattle.local_objects.specs.TurnedLists.{actions_turned};

use crate::expressions::{resolve_arguments, resolve_expression, resolve_place};
use crate::turned::turned_actions;
use rvt_tree::{Act, Acts, Expr, Lvalue};
use std::mem;

pub fn resolve_action(act: &mut Act, objects: &[Option<u32>])
    ensures { act_view act.new ≡ action_resolved (object_at objects.now) (act_view act.old) }
{
    match act {
        Act::Evaluate(e) => resolve_expression(e, objects),
        Act::Call(_, arguments) => resolve_arguments(arguments, objects),
        Act::Discard(e) => resolve_expression(e, objects),
        Act::DiscardCall(_, arguments) => resolve_arguments(arguments, objects),
        Act::Assign(place, e) => resolve_sides(place, e, objects),
        Act::Update(_, place, _, e) => resolve_sides(place, e, objects),
        Act::Advance(place, e, _) => resolve_sides(place, e, objects),
        Act::Retreat(place, e, _) => resolve_sides(place, e, objects),
        Act::Bump(_, place) => resolve_place(place, objects),
        Act::BumpPointer(_, place, _) => resolve_place(place, objects),
    }
}

/// What is changed, and the operand at its right.
fn resolve_sides(place: &mut Lvalue, e: &mut Expr, objects: &[Option<u32>])
    ensures place { lvalue_view place.new ≡ place_resolved (object_at objects.now) (lvalue_view place.old) }
    ensures operand { expr_view e.new ≡ resolved (object_at objects.now) (expr_view e.old) }
{
    resolve_place(place, objects);
    resolve_expression(e, objects);
}

#[tactic(auto, using(crate::proofs::TurnedTwice::actions_turned_twice))]
pub fn resolve_actions(list: &mut Acts, objects: &[Option<u32>])
    ensures { acts_view list.new ≡ actions_resolved (object_at objects.now) (acts_view list.old) }
{
    let turned = taken_actions(list, objects);
    *list = turned_actions(turned);
}

/// The actions, each resolved, from the last to the first; none is left.
fn taken_actions(list: &mut Acts, objects: &[Option<u32>]) -> Acts
    ensures { acts_view result ≡ actions_turned (actions_resolved (object_at objects.now) (acts_view list.old)) [] }
{
    let mut done = Acts::End;
    loop {
        match list {
            Acts::End => return done,
            Acts::More(act, rest) => {
                resolve_action(act, objects);
                let next = mem::replace(&mut **rest, done);
                done = mem::replace(list, next);
            }
        }
    }
}
