//! Branches, and the rest of a block (C 6.8.2, 6.8.4.1).

ghost use Rattle.std.specs.Prelude.{◌≡◌, ◌+◌, ◌≤◌, OnOk, option_map};
ghost use Rattle.rvt_tree.specs.Syntax.{if_statement, if_else};
ghost use Rattle.rvt_tree.specs.Views.{expr_view, stmt_view, stmts_view};
ghost use Rattle.c_tasks.specs.Tasks.{running_statement, Becomes};
ghost use Rattle.c_tasks.specs.Weights.{tasks_weight, statement_weight, second_weight, block_weight};
ghost use Rattle.c_control.specs.Branches.{branching_by, resting};

use c_tasks::{Manner, Part, Task, Work, put};
use rvt_tree::{Expr, Stmt, Stmts};
use std::alloc::AllocError;

/// An `if` without `else` is to come next.
pub fn begin_if<'a>(
    work: &mut Work<'a>,
    test: &'a Expr,
    first: &'a Box<Stmt>,
) -> Result<(), AllocError>
    ensures next { OnOk result (Becomes (λ program d. running_statement program d (if_statement (expr_view test.now) (stmt_view first.now.value))) work.old work.new) }
    ensures weight { OnOk result (tasks_weight work.new.tasks.items ≤ tasks_weight work.old.tasks.items + statement_weight (if_statement (expr_view test.now) (stmt_view first.now.value))) }
{
    put(&mut work.tasks, Task::Branch(first, None))?;
    work.evaluate(test)
}

/// An `if` with `else` is to come next.
pub fn begin_if_else<'a>(
    work: &mut Work<'a>,
    test: &'a Expr,
    first: &'a Box<Stmt>,
    second: &'a Box<Stmt>,
) -> Result<(), AllocError>
    ensures next { OnOk result (Becomes (λ program d. running_statement program d (if_else (expr_view test.now) (stmt_view first.now.value) (stmt_view second.now.value))) work.old work.new) }
    ensures weight { OnOk result (tasks_weight work.new.tasks.items ≤ tasks_weight work.old.tasks.items + statement_weight (if_else (expr_view test.now) (stmt_view first.now.value) (stmt_view second.now.value))) }
{
    put(&mut work.tasks, Task::Branch(first, Some(second)))?;
    work.evaluate(test)
}

/// One of the branches of an `if` is to come next, where its test is known.
pub fn branch<'a>(
    work: &mut Work<'a>,
    holds: bool,
    first: &'a Box<Stmt>,
    second: Option<&'a Box<Stmt>>,
) -> Result<(), AllocError>
    ensures next { OnOk result (Becomes (λ program d. branching_by program d holds (stmt_view first.now.value) (option_map (λ s. stmt_view s.now.value) second.entry)) work.old work.new) }
    ensures weight { OnOk result (tasks_weight work.new.tasks.items ≤ tasks_weight work.old.tasks.items + 1 + statement_weight (stmt_view first.now.value) + second_weight (option_map (λ s. stmt_view s.now.value) second.entry)) }
{
    if holds {
        return put(&mut work.tasks, Task::Statement(Part::Whole, first));
    }
    match second {
        Some(second) => put(&mut work.tasks, Task::Statement(Part::Whole, second)),
        None => {
            work.end(Manner::Normally);
            Ok(())
        }
    }
}

/// The rest of a block is to come next, where what came before it ended normally.
pub fn rest<'a>(work: &mut Work<'a>, body: &'a Stmts) -> Result<(), AllocError>
    ensures next { OnOk result (Becomes (λ program d. resting program d (stmts_view body.now)) work.old work.new) }
    ensures weight { OnOk result (tasks_weight work.new.tasks.items ≤ tasks_weight work.old.tasks.items + block_weight (stmts_view body.now)) }
{
    match work.manner {
        Manner::Normally => work.block(body),
        Manner::Broke => Ok(()),
        Manner::Continued => Ok(()),
    }
}
