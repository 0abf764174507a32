//! Acts: which tasks do them (C 6.8.3).

ghost use Rattle.std.specs.Prelude.{◌≡◌, ◌+◌, ◌≤◌, OnOk};
ghost use Rattle.rvt_tree.specs.Syntax.{evaluate as evaluated, call_void, assign};
ghost use Rattle.rvt_tree.specs.Views.{lvalue_view, expr_view, exprs_view, act_view, acts_view};
ghost use Rattle.c_tasks.specs.Tasks.{acting, acting_all, replacing, replacing_alone, Becomes};
ghost use Rattle.c_tasks.specs.Weights.{tasks_weight, expression_weight, lvalue_weight, arguments_weight, action_weight, actions_weight};

use crate::tasks::{Binary, Task, Unary};
use crate::work::{Work, put};
use rvt_tree::{Act, Acts, Expr, Exprs, Lvalue};
use std::alloc::AllocError;

impl<'a> Work<'a> {
    /// An act is to come next.
    pub fn act(&mut self, act: &'a Act) -> Result<(), AllocError>
        ensures next { OnOk result (Becomes (λ program d. acting program d (act_view act.now)) self.old self.new) }
        ensures weight { OnOk result (tasks_weight self.new.tasks.items ≤ tasks_weight self.old.tasks.items + action_weight (act_view act.now)) }
    {
        match act {
            Act::Evaluate(e) => self.evaluate_and_discard(e),
            Act::Call(function, arguments) => self.call_and_discard(*function, arguments),
            Act::Discard(e) => self.evaluate_and_discard(e),
            Act::DiscardCall(function, arguments) => self.call_and_discard(*function, arguments),
            Act::Assign(lvalue, e) => self.assign(lvalue, e),
            Act::Update(op, lvalue, kind, e) => self.replace(Binary::Update(*op, *kind), lvalue, e),
            Act::Advance(lvalue, e, size) => self.replace(Binary::Forward(*size), lvalue, e),
            Act::Retreat(lvalue, e, size) => self.replace(Binary::Backward(*size), lvalue, e),
            Act::Bump(bump, lvalue) => self.replace_alone(Unary::Bump(*bump), lvalue),
            Act::BumpPointer(bump, lvalue, size) => {
                self.replace_alone(Unary::BumpPointer(*bump, *size), lvalue)
            }
        }
    }

    fn evaluate_and_discard(&mut self, e: &'a Expr) -> Result<(), AllocError>
        ensures next { OnOk result (Becomes (λ program d. acting program d (evaluated (expr_view e.now))) self.old self.new) }
        ensures weight { OnOk result (tasks_weight self.new.tasks.items ≤ tasks_weight self.old.tasks.items + 8 + expression_weight (expr_view e.now)) }
    {
        put(&mut self.tasks, Task::Discard)?;
        self.evaluate(e)
    }

    fn call_and_discard(&mut self, function: u32, arguments: &'a Exprs) -> Result<(), AllocError>
        ensures next { OnOk result (Becomes (λ program d. acting program d (call_void function (exprs_view arguments.now))) self.old self.new) }
        ensures weight { OnOk result (tasks_weight self.new.tasks.items ≤ tasks_weight self.old.tasks.items + 8 + arguments_weight (exprs_view arguments.now)) }
    {
        let height = self.values.len();
        put(&mut self.tasks, Task::Discard)?;
        put(&mut self.tasks, Task::Call(function, height))?;
        self.pass(arguments)
    }

    fn assign(&mut self, lvalue: &'a Lvalue, e: &'a Expr) -> Result<(), AllocError>
        ensures next { OnOk result (Becomes (λ program d. acting program d (assign (lvalue_view lvalue.now) (expr_view e.now))) self.old self.new) }
        ensures weight { OnOk result (tasks_weight self.new.tasks.items ≤ tasks_weight self.old.tasks.items + 8 + lvalue_weight (lvalue_view lvalue.now) + expression_weight (expr_view e.now)) }
    {
        put(&mut self.tasks, Task::Store)?;
        put(&mut self.tasks, Task::EvaluateSide(e))?;
        self.locate(lvalue)
    }

    /// A place gets what is computed from what it holds and from the value of an expression.
    fn replace(
        &mut self,
        compute: Binary,
        lvalue: &'a Lvalue,
        e: &'a Expr,
    ) -> Result<(), AllocError>
        ensures next { OnOk result (Becomes (λ program d. replacing program d compute (lvalue_view lvalue.now) (expr_view e.now)) self.old self.new) }
        ensures weight { OnOk result (tasks_weight self.new.tasks.items ≤ tasks_weight self.old.tasks.items + 8 + lvalue_weight (lvalue_view lvalue.now) + expression_weight (expr_view e.now)) }
    {
        put(&mut self.tasks, Task::Store)?;
        put(&mut self.tasks, Task::Binary(compute))?;
        put(&mut self.tasks, Task::EvaluateSide(e))?;
        put(&mut self.tasks, Task::Fetch)?;
        self.locate(lvalue)
    }

    /// The same where nothing is evaluated.
    fn replace_alone(&mut self, compute: Unary, lvalue: &'a Lvalue) -> Result<(), AllocError>
        ensures next { OnOk result (Becomes (λ program d. replacing_alone program d compute (lvalue_view lvalue.now)) self.old self.new) }
        ensures weight { OnOk result (tasks_weight self.new.tasks.items ≤ tasks_weight self.old.tasks.items + 8 + lvalue_weight (lvalue_view lvalue.now)) }
    {
        put(&mut self.tasks, Task::Store)?;
        put(&mut self.tasks, Task::Unary(compute))?;
        put(&mut self.tasks, Task::Fetch)?;
        self.locate(lvalue)
    }

    /// Acts are to come next, one after another.
    pub fn act_all(&mut self, acts: &'a Acts) -> Result<(), AllocError>
        ensures next { OnOk result (Becomes (λ program d. acting_all program d (acts_view acts.now)) self.old self.new) }
        ensures weight { OnOk result (tasks_weight self.new.tasks.items ≤ tasks_weight self.old.tasks.items + actions_weight (acts_view acts.now)) }
    {
        match acts {
            Acts::End => Ok(()),
            Acts::More(act, rest) => {
                put(&mut self.tasks, Task::Acts(rest))?;
                self.act(act)
            }
        }
    }
}
