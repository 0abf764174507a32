//! Actions in which each variable stands under another name.

ghost use Rattle.std.specs.Prelude.{◌≡◌, []};
ghost use Rattle.rvt_tree.specs.Views.{lvalue_view, expr_view, act_view, acts_view};
ghost use Rattle.renamed_trees.specs.RenamedTrees.{place_renamed, renamed, action_renamed, actions_renamed};
ghost use Rattle.renamed_trees.specs.Renamings.{named};
ghost use Rattle.renamed_trees.specs.TurnedLists.{actions_turned};

use crate::expressions::{rename_arguments, rename_expression, rename_place};
use crate::turned::turned_actions;
use crate::variables::Renaming;
use rvt_tree::{Act, Acts, Expr, Lvalue};
use std::mem;

pub fn rename_action(act: &mut Act, renaming: &Renaming)
    ensures { act_view act.new ≡ action_renamed (named renaming.now) (act_view act.old) }
{
    match act {
        Act::Evaluate(e) => rename_expression(e, renaming),
        Act::Call(_, arguments) => rename_arguments(arguments, renaming),
        Act::Discard(e) => rename_expression(e, renaming),
        Act::DiscardCall(_, arguments) => rename_arguments(arguments, renaming),
        Act::Assign(place, e) => rename_sides(place, e, renaming),
        Act::Update(_, place, _, e) => rename_sides(place, e, renaming),
        Act::Advance(place, e, _) => rename_sides(place, e, renaming),
        Act::Retreat(place, e, _) => rename_sides(place, e, renaming),
        Act::Bump(_, place) => rename_place(place, renaming),
        Act::BumpPointer(_, place, _) => rename_place(place, renaming),
    }
}

/// What is changed, and the operand at its right.
fn rename_sides(place: &mut Lvalue, e: &mut Expr, renaming: &Renaming)
    ensures place { lvalue_view place.new ≡ place_renamed (named renaming.now) (lvalue_view place.old) }
    ensures operand { expr_view e.new ≡ renamed (named renaming.now) (expr_view e.old) }
{
    rename_place(place, renaming);
    rename_expression(e, renaming);
}

#[tactic(auto, using(crate::proofs::TurnedTwice::actions_turned_twice))]
pub fn rename_actions(list: &mut Acts, renaming: &Renaming)
    ensures { acts_view list.new ≡ actions_renamed (named renaming.now) (acts_view list.old) }
{
    let turned = taken_actions(list, renaming);
    *list = turned_actions(turned);
}

/// The actions, each renamed, from the last to the first; none is left.
fn taken_actions(list: &mut Acts, renaming: &Renaming) -> Acts
    ensures { acts_view result ≡ actions_turned (actions_renamed (named renaming.now) (acts_view list.old)) [] }
{
    let mut done = Acts::End;
    loop {
        match list {
            Acts::End => return done,
            Acts::More(act, rest) => {
                rename_action(act, renaming);
                let next = mem::replace(&mut **rest, done);
                done = mem::replace(list, next);
            }
        }
    }
}
