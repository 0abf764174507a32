//! Tasks that choose by a value: `&&`, `||`, `?:`, branches, groups and the tests of loops.

ghost use Rattle.std.specs.Prelude.{◌≡◌, ◌+◌, ◌≤◌, OnOk, IsTrue};
ghost use Rattle.rvt_tree.specs.Views.{stmt_view};
ghost use Rattle.c_tasks.specs.Tasks.{step, running_part, running_statement, Becomes};
ghost use Rattle.c_tasks.specs.Weights.{task_weight, part_weight, statement_weight, tasks_weight};
ghost use Rattle.c_tasks.specs.declared.tasks.Task.TheVariants as T;
ghost use Rattle.c_tasks.specs.declared.tasks.Part.TheVariants as P;
ghost use Rattle.c_control.specs.Loops.{Lawful, is_loop};
ghost use Rattle.c_steps.specs.Steps.{Advances};

use c_control as control;
use c_meaning::laws;
use c_operations::{holds, number_of};
use c_places::Layouts;
use c_tasks::Work;
use rvt_tree::{Expr, Groups, Program, Stmt};
use std::alloc::AllocError;

/// The right side of `&&`, where the left one is known.
pub fn both<'a>(work: &mut Work<'a>, e: &'a Box<Expr>) -> Result<(), AllocError>
    ensures next { OnOk result (Becomes (λ program d. step program d (T.And e.entry)) work.old work.new) }
    ensures weight { OnOk result (tasks_weight work.new.tasks.items + 1 ≤ tasks_weight work.old.tasks.items + task_weight (T.And e.entry)) }
{
    let left = holds(work.take_value());
    work.both(left, e)?;
    Ok(())
}

/// The right side of `||`, where the left one is known.
pub fn either<'a>(work: &mut Work<'a>, e: &'a Box<Expr>) -> Result<(), AllocError>
    ensures next { OnOk result (Becomes (λ program d. step program d (T.Or e.entry)) work.old work.new) }
    ensures weight { OnOk result (tasks_weight work.new.tasks.items + 1 ≤ tasks_weight work.old.tasks.items + task_weight (T.Or e.entry)) }
{
    let left = holds(work.take_value());
    work.either(left, e)?;
    Ok(())
}

/// One of two expressions.
pub fn choose<'a>(
    work: &mut Work<'a>,
    first: &'a Box<Expr>,
    second: &'a Box<Expr>,
) -> Result<(), AllocError>
    ensures next { OnOk result (Becomes (λ program d. step program d (T.Choose first.entry second.entry)) work.old work.new) }
    ensures weight { OnOk result (tasks_weight work.new.tasks.items + 1 ≤ tasks_weight work.old.tasks.items + task_weight (T.Choose first.entry second.entry)) }
{
    let test = holds(work.take_value());
    if test {
        work.evaluate(first)?;
        return Ok(());
    }
    work.evaluate(second)?;
    Ok(())
}

/// One of the branches of an `if`.
pub fn branch<'a>(
    work: &mut Work<'a>,
    first: &'a Box<Stmt>,
    second: Option<&'a Box<Stmt>>,
) -> Result<(), AllocError>
    ensures next { OnOk result (Becomes (λ program d. step program d (T.Branch first.entry second.entry)) work.old work.new) }
    ensures weight { OnOk result (tasks_weight work.new.tasks.items + 1 ≤ tasks_weight work.old.tasks.items + task_weight (T.Branch first.entry second.entry)) }
{
    let test = holds(work.take_value());
    control::branch(work, test, first, second)?;
    Ok(())
}

/// One of the groups of a `switch`.
pub fn select<'a>(work: &mut Work<'a>, groups: &'a Box<Groups>) -> Result<(), AllocError>
    ensures next { OnOk result (Becomes (λ program d. step program d (T.Select groups.entry)) work.old work.new) }
    ensures weight { OnOk result (tasks_weight work.new.tasks.items + 1 ≤ tasks_weight work.old.tasks.items + task_weight (T.Select groups.entry)) }
{
    let number = number_of(work.take_value());
    control::select(work, number, groups)?;
    Ok(())
}

/// The laws by which loops do one turn and then themselves.
pub fn laws_of_loops(_program: &Program)
    ensures { Lawful _program.now }
{
    laws::loop_unfolds(_program);
    laws::loop_parts_spend(_program);
}

/// A loop begins.
pub fn begin_loop<'a>(layouts: &Layouts, work: &mut Work<'a>, s: &'a Stmt) -> Result<(), AllocError>
    requires loop_statement { IsTrue (is_loop (stmt_view s.now)) }
    ensures next { OnOk result (Advances layouts.now (λ d. running_statement layouts.now d (stmt_view s.now)) work.old work.new) }
    ensures weight { OnOk result (tasks_weight work.new.tasks.items ≤ tasks_weight work.old.tasks.items + statement_weight (stmt_view s.now)) }
{
    laws_of_loops(layouts.program());
    control::begin_loop(work, s)?;
    Ok(())
}

/// A loop whose test is known.
pub fn decide<'a>(layouts: &Layouts, work: &mut Work<'a>, s: &'a Stmt) -> Result<(), AllocError>
    ensures next { OnOk result (Advances layouts.now (λ d. running_part layouts.now d P.Decide (stmt_view s.now)) work.old work.new) }
    ensures weight { OnOk result (tasks_weight work.new.tasks.items + 1 ≤ tasks_weight work.old.tasks.items + part_weight P.Decide (stmt_view s.now)) }
{
    let test = holds(work.take_value());
    laws_of_loops(layouts.program());
    control::decide(work, test, s)?;
    Ok(())
}

/// A loop after a round.
pub fn after_round<'a>(
    layouts: &Layouts,
    work: &mut Work<'a>,
    s: &'a Stmt,
) -> Result<(), AllocError>
    ensures next { OnOk result (Advances layouts.now (λ d. running_part layouts.now d P.After (stmt_view s.now)) work.old work.new) }
    ensures weight { OnOk result (tasks_weight work.new.tasks.items + 1 ≤ tasks_weight work.old.tasks.items + part_weight P.After (stmt_view s.now)) }
{
    laws_of_loops(layouts.program());
    control::after_round(work, s)?;
    Ok(())
}
