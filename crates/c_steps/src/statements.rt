//! Statements: what is done at once, and which tasks do the rest (C 6.8).

ghost use Rattle.std.specs.Prelude.{◌≡◌, ◌+◌, ◌≤◌, IfOk};
ghost use Rattle.rvt_tree.specs.Views.{stmt_view};
ghost use Rattle.c_tasks.specs.Tasks.{running_statement, running_part};
ghost use Rattle.c_tasks.specs.Weights.{tasks_weight, statement_weight, part_weight};
ghost use Rattle.c_steps.specs.Steps.{Does, progress_weight};

use crate::choices::{after_round, begin_loop, decide};
use crate::progress::{Progress, goes_on};
use crate::scopes::declare;
use c_control::{begin_if, begin_if_else, begin_switch, last};
use c_places::{Cells, Layouts};
use c_tasks::{Manner, Part, Work};
use rvt_tree::Stmt;
use std::alloc::AllocError;

pub fn statement<'a>(
    layouts: &Layouts,
    cells: &mut Cells,
    work: &mut Work<'a>,
    s: &'a Stmt,
) -> Result<Progress<'a>, AllocError>
    ensures next { IfOk result (λ progress. Does layouts.now (λ d. running_statement layouts.now d (stmt_view s.now)) work.old cells.old progress work.new cells.new) }
    ensures weight { IfOk result (λ progress. tasks_weight work.new.tasks.items + 1 + progress_weight progress ≤ tasks_weight work.old.tasks.items + (1 + statement_weight (stmt_view s.now))) }
{
    match s {
        Stmt::Declare(variable) => {
            declare(layouts, cells, work, *variable);
            Ok(Progress::GoesOn)
        }
        Stmt::DeclareWith(variable, init) => Ok(Progress::Initializes(*variable, init)),
        Stmt::Return => Ok(Progress::Returns(None)),
        Stmt::Empty => {
            work.end(Manner::Normally);
            Ok(Progress::GoesOn)
        }
        Stmt::Break => {
            work.end(Manner::Broke);
            Ok(Progress::GoesOn)
        }
        Stmt::Continue => {
            work.end(Manner::Continued);
            Ok(Progress::GoesOn)
        }
        Stmt::Block(body) => goes_on(work.scope(body)),
        Stmt::Act(act) => goes_on(work.finish_act(act)),
        Stmt::ReturnValue(e) => goes_on(work.return_value(e)),
        Stmt::If(test, first) => goes_on(begin_if(work, test, first)),
        Stmt::IfElse(test, first, second) => goes_on(begin_if_else(work, test, first, second)),
        Stmt::While(_, _, _) => goes_on(begin_loop(layouts, work, s)),
        Stmt::DoWhile(_, _, _) => goes_on(begin_loop(layouts, work, s)),
        Stmt::For(_, _, _, _, _) => goes_on(begin_loop(layouts, work, s)),
        Stmt::Switch(e, groups) => goes_on(begin_switch(work, e, groups)),
    }
}

/// A part of a loop statement, or a whole statement.
pub fn part<'a>(
    layouts: &Layouts,
    cells: &mut Cells,
    work: &mut Work<'a>,
    part: Part,
    s: &'a Stmt,
) -> Result<Progress<'a>, AllocError>
    ensures next { IfOk result (λ progress. Does layouts.now (λ d. running_part layouts.now d part (stmt_view s.now)) work.old cells.old progress work.new cells.new) }
    ensures weight { IfOk result (λ progress. tasks_weight work.new.tasks.items + 1 + progress_weight progress ≤ tasks_weight work.old.tasks.items + part_weight part (stmt_view s.now)) }
{
    match part {
        Part::Whole => statement(layouts, cells, work, s),
        Part::Test => Ok(Progress::Tests(s)),
        Part::Decide => goes_on(decide(layouts, work, s)),
        Part::Last => goes_on(last(work, s)),
        Part::After => goes_on(after_round(layouts, work, s)),
    }
}
