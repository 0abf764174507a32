//! Blocks and the parts of statements that need no law of loops: which tasks do them (C 6.8).

ghost use Rattle.std.specs.Prelude.{◌≡◌, ◌+◌, ◌≤◌, OnOk};
ghost use Rattle.rvt_tree.specs.Syntax.{compound, action, return_value as returned};
ghost use Rattle.rvt_tree.specs.Views.{expr_view, act_view, stmts_view, groups_view};
ghost use Rattle.c_tasks.specs.Tasks.{evaluating, selecting, running_statement, running_block, Becomes};
ghost use Rattle.c_tasks.specs.Weights.{tasks_weight, expression_weight, action_weight, block_weight, groups_weight};

use crate::manners::Manner;
use crate::tasks::{Part, Task};
use crate::work::{Work, put};
use rvt_tree::{Act, Expr, Groups, Stmts};
use std::alloc::AllocError;

impl<'a> Work<'a> {
    /// Statements are to come next, in order.
    pub fn block(&mut self, body: &'a Stmts) -> Result<(), AllocError>
        ensures next { OnOk result (Becomes (λ program d. running_block program d (stmts_view body.now)) self.old self.new) }
        ensures weight { OnOk result (tasks_weight self.new.tasks.items ≤ tasks_weight self.old.tasks.items + block_weight (stmts_view body.now)) }
    {
        match body {
            Stmts::End => {
                self.end(Manner::Normally);
                Ok(())
            }
            Stmts::More(first, rest) => {
                put(&mut self.tasks, Task::Rest(rest))?;
                put(&mut self.tasks, Task::Statement(Part::Whole, first))
            }
        }
    }

    /// A block with its scope is to come next.
    pub fn scope(&mut self, body: &'a Box<Stmts>) -> Result<(), AllocError>
        ensures next { OnOk result (Becomes (λ program d. running_statement program d (compound (stmts_view body.now.value))) self.old self.new) }
        ensures weight { OnOk result (tasks_weight self.new.tasks.items ≡ tasks_weight self.old.tasks.items + 1 + (1 + block_weight (stmts_view body.now.value))) }
    {
        put(&mut self.tasks, Task::Leave(body))?;
        put(&mut self.tasks, Task::Block(body))?;
        Ok(())
    }

    /// An act that is a statement is to come next.
    pub fn finish_act(&mut self, act: &'a Act) -> Result<(), AllocError>
        ensures next { OnOk result (Becomes (λ program d. running_statement program d (action (act_view act.now))) self.old self.new) }
        ensures weight { OnOk result (tasks_weight self.new.tasks.items ≤ tasks_weight self.old.tasks.items + 1 + action_weight (act_view act.now)) }
    {
        put(&mut self.tasks, Task::Complete)?;
        self.act(act)
    }

    /// The return of a value is to come next.
    pub fn return_value(&mut self, e: &'a Expr) -> Result<(), AllocError>
        ensures next { OnOk result (Becomes (λ program d. running_statement program d (returned (expr_view e.now))) self.old self.new) }
        ensures weight { OnOk result (tasks_weight self.new.tasks.items ≤ tasks_weight self.old.tasks.items + 1 + expression_weight (expr_view e.now)) }
    {
        put(&mut self.tasks, Task::Return)?;
        self.evaluate(e)
    }

    /// The value of a `switch` is to come next, and then its groups.
    pub fn test_switch(&mut self, e: &'a Expr, groups: &'a Box<Groups>) -> Result<(), AllocError>
        ensures next { OnOk result (Becomes (λ program d next. evaluating program d (expr_view e.now) (selecting program d (groups_view groups.now.value) next)) self.old self.new) }
        ensures weight { OnOk result (tasks_weight self.new.tasks.items ≤ tasks_weight self.old.tasks.items + (4 + groups_weight (groups_view groups.now.value)) + expression_weight (expr_view e.now)) }
    {
        put(&mut self.tasks, Task::Select(groups))?;
        self.evaluate(e)
    }
}
