//! Loops (C 6.8.5).

ghost use Rattle.std.specs.Prelude.{◌≡◌, ◌+◌, ◌≤◌, OnOk, IsTrue, option_map};
ghost use Rattle.rvt_tree.specs.Views.{expr_view, stmt_view, stmts_view};
ghost use Rattle.c_meaning.specs.Outcomes.{Normally, give, and_then};
ghost use Rattle.c_meaning.specs.Expressions.{condition};
ghost use Rattle.c_meaning.specs.Statements.{in_scope, declared_in, after_body, acts, meaning, block};
ghost use Rattle.c_meaning.specs.Runs.{stepping};
ghost use Rattle.c_tasks.specs.Tasks.{running_statement, running_part, ending, decided, tested, rounded, onward, returning, test_in, last_in, body_in, Becomes};
ghost use Rattle.c_tasks.specs.Weights.{tasks_weight, statement_weight, block_weight, actions_weight};
ghost use Rattle.c_control.specs.Loops.{is_loop, testing, BecomesByLaw};

use c_tasks::{Manner, Part, Task, Work, put};
use rvt_tree::{Expr, Stmt, Stmts};
use std::alloc::AllocError;

/// A loop is to come next.
pub fn begin_loop<'a>(work: &mut Work<'a>, s: &'a Stmt) -> Result<(), AllocError>
    requires loop_statement { IsTrue (is_loop (stmt_view s.now)) }
    ensures next { OnOk result (BecomesByLaw (λ program d. running_statement program d (stmt_view s.now)) work.old work.new) }
    ensures weight { OnOk result (tasks_weight work.new.tasks.items ≤ tasks_weight work.old.tasks.items + statement_weight (stmt_view s.now)) }
{
    match s {
        Stmt::While(_, _, _) => put(&mut work.tasks, Task::Statement(Part::Test, s)),
        Stmt::DoWhile(_, body, _) => round(work, body, s),
        Stmt::For(_, first, _, _, _) => begin_for(work, first, s),
        _ => Ok(()),
    }
}

/// What stands first in a `for`, and then the loop.
fn begin_for<'a>(work: &mut Work<'a>, first: &'a Box<Stmts>, s: &'a Stmt) -> Result<(), AllocError>
    ensures next { OnOk result (Becomes (λ program d. ending program d (in_scope (declared_in (stmts_view first.now.value)) (and_then (block program (stepping program d) (stmts_view first.now.value)) (λ _. tested program d (stmt_view s.now))))) work.old work.new) }
    ensures weight { OnOk result (tasks_weight work.new.tasks.items ≡ tasks_weight work.old.tasks.items + 3 + block_weight (stmts_view first.now.value)) }
{
    put(&mut work.tasks, Task::Leave(first))?;
    put(&mut work.tasks, Task::Statement(Part::Test, s))?;
    put(&mut work.tasks, Task::Block(first))
}

/// The body of a loop, and what comes after its round.
fn round<'a>(work: &mut Work<'a>, body: &'a Box<Stmt>, s: &'a Stmt) -> Result<(), AllocError>
    ensures next { OnOk result (Becomes (λ program d. ending program d (and_then (meaning program (stepping program d) (stmt_view body.now.value)) (rounded program d (stmt_view s.now)))) work.old work.new) }
    ensures weight { OnOk result (tasks_weight work.new.tasks.items ≡ tasks_weight work.old.tasks.items + 3 + statement_weight (stmt_view body.now.value)) }
{
    put(&mut work.tasks, Task::Statement(Part::After, s))?;
    put(&mut work.tasks, Task::Statement(Part::Whole, body))
}

/// The body of a `for`, the last part of its header, and what comes after the round.
fn for_round<'a>(work: &mut Work<'a>, body: &'a Box<Stmt>, s: &'a Stmt) -> Result<(), AllocError>
    ensures next { OnOk result (Becomes (λ program d. ending program d (and_then (and_then (meaning program (stepping program d) (stmt_view body.now.value)) (after_body (acts program (stepping program d) (last_in (stmt_view s.now))))) (rounded program d (stmt_view s.now)))) work.old work.new) }
    ensures weight { OnOk result (tasks_weight work.new.tasks.items ≡ tasks_weight work.old.tasks.items + 7 + statement_weight (stmt_view body.now.value) + actions_weight (last_in (stmt_view s.now))) }
{
    put(&mut work.tasks, Task::Statement(Part::After, s))?;
    put(&mut work.tasks, Task::Statement(Part::Last, s))?;
    put(&mut work.tasks, Task::Statement(Part::Whole, body))
}

/// The test of a loop whose step is spent is to come next.
pub fn test<'a>(work: &mut Work<'a>, s: &'a Stmt) -> Result<(), AllocError>
    ensures next { OnOk result (BecomesByLaw (λ program d. testing program d (stmt_view s.now)) work.old work.new) }
{
    match test_of(s) {
        Some(test) => test_value(work, test, s),
        None => decide(work, true, s),
    }
}

fn test_of(s: &Stmt) -> Option<&Expr>
    ensures { option_map (λ e. expr_view e.now) result ≡ test_in (stmt_view s.now) }
{
    match s {
        Stmt::While(_, test, _) => Some(test),
        Stmt::DoWhile(_, _, test) => Some(test),
        Stmt::For(_, _, test, _, _) => lent(test),
        _ => None,
    }
}

fn lent(test: &Option<Expr>) -> Option<&Expr>
    ensures { option_map (λ e. expr_view e.now) result ≡ option_map expr_view test.now }
{
    match test {
        Some(e) => Some(e),
        None => None,
    }
}

/// The value of a test, and what comes after it.
fn test_value<'a>(work: &mut Work<'a>, test: &'a Expr, s: &'a Stmt) -> Result<(), AllocError>
    ensures next { OnOk result (Becomes (λ program d. ending program d (and_then (condition program (stepping program d) (expr_view test.now)) (decided program d (stmt_view s.now)))) work.old work.new) }
{
    put(&mut work.tasks, Task::Statement(Part::Decide, s))?;
    work.evaluate(test)
}

/// What comes of a loop whose test is known is to come next.
pub fn decide<'a>(work: &mut Work<'a>, holds: bool, s: &'a Stmt) -> Result<(), AllocError>
    ensures next { OnOk result (BecomesByLaw (λ program d. ending program d (decided program d (stmt_view s.now) holds)) work.old work.new) }
    ensures weight { OnOk result (tasks_weight work.new.tasks.items ≤ tasks_weight work.old.tasks.items + 8 + statement_weight (body_in (stmt_view s.now)) + actions_weight (last_in (stmt_view s.now))) }
{
    if holds {
        go_round(work, s)
    } else {
        work.end(Manner::Normally);
        Ok(())
    }
}

/// A round of a loop, and what comes after it.
fn go_round<'a>(work: &mut Work<'a>, s: &'a Stmt) -> Result<(), AllocError>
    ensures next { OnOk result (BecomesByLaw (λ program d. ending program d (onward program d (stmt_view s.now))) work.old work.new) }
    ensures weight { OnOk result (tasks_weight work.new.tasks.items ≤ tasks_weight work.old.tasks.items + 8 + statement_weight (body_in (stmt_view s.now)) + actions_weight (last_in (stmt_view s.now))) }
{
    match s {
        Stmt::While(_, _, body) => round(work, body, s),
        Stmt::DoWhile(_, body, _) => round(work, body, s),
        Stmt::For(_, _, _, _, body) => for_round(work, body, s),
        _ => {
            work.end(Manner::Normally);
            Ok(())
        }
    }
}

/// The last part of a `for` header, which `continue` reaches too, is to come next.
pub fn last<'a>(work: &mut Work<'a>, s: &'a Stmt) -> Result<(), AllocError>
    ensures next { OnOk result (Becomes (λ program d. running_part program d Part.Last (stmt_view s.now)) work.old work.new) }
    ensures weight { OnOk result (tasks_weight work.new.tasks.items ≤ tasks_weight work.old.tasks.items + 1 + actions_weight (last_in (stmt_view s.now))) }
{
    match work.manner {
        Manner::Normally => last_acts(work, s),
        Manner::Continued => last_acts(work, s),
        Manner::Broke => Ok(()),
    }
}

fn last_acts<'a>(work: &mut Work<'a>, s: &'a Stmt) -> Result<(), AllocError>
    ensures next { OnOk result (Becomes (λ program d. ending program d (and_then (acts program (stepping program d) (last_in (stmt_view s.now))) (λ _. give Normally))) work.old work.new) }
    ensures weight { OnOk result (tasks_weight work.new.tasks.items ≤ tasks_weight work.old.tasks.items + 1 + actions_weight (last_in (stmt_view s.now))) }
{
    put(&mut work.tasks, Task::Complete)?;
    match s {
        Stmt::For(_, _, _, last, _) => work.act_all(last),
        _ => Ok(()),
    }
}

/// What comes of a loop after a round is to come next.
pub fn after_round<'a>(work: &mut Work<'a>, s: &'a Stmt) -> Result<(), AllocError>
    ensures next { OnOk result (BecomesByLaw (λ program d. running_part program d Part.After (stmt_view s.now)) work.old work.new) }
    ensures weight { OnOk result (tasks_weight work.new.tasks.items ≤ tasks_weight work.old.tasks.items + 1) }
{
    match work.manner {
        Manner::Normally => next_turn(work, s),
        Manner::Continued => next_turn(work, s),
        Manner::Broke => {
            work.end(Manner::Normally);
            Ok(())
        }
    }
}

/// A loop goes on with its test.
fn next_turn<'a>(work: &mut Work<'a>, s: &'a Stmt) -> Result<(), AllocError>
    ensures next { OnOk result (BecomesByLaw (λ program d. ending program d (returning program d (stmt_view s.now))) work.old work.new) }
    ensures weight { OnOk result (tasks_weight work.new.tasks.items ≤ tasks_weight work.old.tasks.items + 1) }
{
    if is_loop(s) {
        put(&mut work.tasks, Task::Statement(Part::Test, s))
    } else {
        work.end(Manner::Normally);
        Ok(())
    }
}

fn is_loop(s: &Stmt) -> bool
    ensures { result ≡ is_loop (stmt_view s.now) }
{
    match s {
        Stmt::While(_, _, _) => true,
        Stmt::DoWhile(_, _, _) => true,
        Stmt::For(_, _, _, _, _) => true,
        _ => false,
    }
}
