//! What a statement's or a `for` header's expression does (C 6.8.3).

ghost use Rattle.std.specs.Prelude.{◌≡◌, IfOk};
ghost use Rattle.rvt_tree.specs.Views.{act_view};
ghost use Rattle.c_syntax.specs.Syntax.{assign};
ghost use Rattle.c_syntax.specs.Views.{expr_view, act_view as action_view};
ghost use Rattle.expression_typing.specs.Actions.{evaluation, discarded, typed_action};
ghost use Rattle.typing_base.specs.Views.{operand_view, scope_view, notes_view};
ghost use Rattle.typing_base.specs.Follows.{Becomes};

use crate::expressions::{operand, typed};
use crate::first_tokens::first_token;
use c_syntax::{Act, Expr, Setting};
use operator_rules::{Sides, bump_after, bump_before, set, stepped};
use rvt_tree::Place;
use std::alloc::{AllocError, Global};
use typing_base::{Fault, Notes, Operand, Scope};

/// A value is formed, a struct's place too; a call of a function without a result stands here alone.
fn evaluation<'t>(alloc: Global, x: Operand<'t>) -> Result<rvt_tree::Act, AllocError>
    ensures { IfOk result (λ act. act_view act ≡ evaluation (operand_view x.entry)) }
{
    match x {
        Operand::Place(_, _, lvalue) => {
            let value = rvt_tree::Expr::Read(Box::new(alloc, lvalue)?);
            Ok(rvt_tree::Act::Evaluate(value))
        }
        Operand::Integer(_, value, _) => Ok(rvt_tree::Act::Evaluate(value)),
        Operand::Pointer(_, _, value) => Ok(rvt_tree::Act::Evaluate(value)),
        Operand::Null => Ok(rvt_tree::Act::Evaluate(rvt_tree::Expr::Null)),
        Operand::Void(function, values) => Ok(rvt_tree::Act::Call(function, values)),
    }
}

/// The same, cast to `void` (C 6.3.2.2).
fn discarded<'t>(alloc: Global, x: Operand<'t>) -> Result<rvt_tree::Act, AllocError>
    ensures { IfOk result (λ act. act_view act ≡ discarded (operand_view x.entry)) }
{
    match x {
        Operand::Place(_, _, lvalue) => {
            let value = rvt_tree::Expr::Read(Box::new(alloc, lvalue)?);
            Ok(rvt_tree::Act::Discard(value))
        }
        Operand::Integer(_, value, _) => Ok(rvt_tree::Act::Discard(value)),
        Operand::Pointer(_, _, value) => Ok(rvt_tree::Act::Discard(value)),
        Operand::Null => Ok(rvt_tree::Act::Discard(rvt_tree::Expr::Null)),
        Operand::Void(function, values) => Ok(rvt_tree::Act::DiscardCall(function, values)),
    }
}

/// An assignment: the place that is written is formed before the right side.
fn assignment(
    alloc: Global,
    scope: Scope,
    setting: Setting,
    at: Place,
    left: &Expr,
    right: &Expr,
    notes: &mut Notes,
) -> Result<rvt_tree::Act, Fault>
    ensures { Becomes act_view (typed_action (scope_view scope.entry) (assign setting at (expr_view left.now) (expr_view right.now)) (notes_view notes.old)) result notes.new }
{
    let sides = Sides {
        operator: at,
        left: first_token(left),
        right: first_token(right),
    };
    let x = typed(alloc, scope, left, notes)?;
    let y = operand(alloc, scope, right, notes)?;
    set(alloc, scope.structs(), setting, sides, x, y)
}

/// What an action does.
pub fn typed_action(
    alloc: Global,
    scope: Scope,
    act: &Act,
    notes: &mut Notes,
) -> Result<rvt_tree::Act, Fault>
    ensures { Becomes act_view (typed_action (scope_view scope.entry) (action_view act.now) (notes_view notes.old)) result notes.new }
{
    match act {
        Act::Evaluate(e) => {
            let x = operand(alloc, scope, e, notes)?;
            Ok(evaluation(alloc, x)?)
        }
        Act::Discard(_, e) => {
            let x = operand(alloc, scope, e, notes)?;
            Ok(discarded(alloc, x)?)
        }
        Act::Assign(setting, at, left, right) => {
            assignment(alloc, scope, *setting, *at, left, right, notes)
        }
        Act::StepAfter(step, at, e) => {
            let x = typed(alloc, scope, e, notes)?;
            stepped(scope.structs(), bump_after(*step), *at, first_token(e), x)
        }
        Act::StepBefore(step, at, e) => {
            let x = typed(alloc, scope, e, notes)?;
            stepped(scope.structs(), bump_before(*step), *at, first_token(e), x)
        }
    }
}
