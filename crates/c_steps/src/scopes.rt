//! Declarations, and the ends of scopes (C 6.2.1, 6.7.9).

ghost use Rattle.std.specs.Prelude.{◌≡◌, ◌+◌, ◌≤◌, OnOk};
ghost use Rattle.rvt_tree.specs.Syntax.{declaration};
ghost use Rattle.rvt_tree.specs.Views.{stmt_view, stmts_view};
ghost use Rattle.c_meaning.specs.Statements.{declared_variable, declared_in, locals_without};
ghost use Rattle.c_tasks.specs.Tasks.{step, running_statement};
ghost use Rattle.c_tasks.specs.declared.tasks.Task.TheVariants as T;
ghost use Rattle.c_steps.specs.Steps.{Does};
ghost use Rattle.c_steps.specs.declared.progress.Progress.TheVariants.{GoesOn as goes_on};

use c_places::{Cells, Layouts};
use c_tasks::{Manner, Work};
use rvt_tree::{Stmt, Stmts, Variable};
use std::alloc::{AllocError, Global};

/// A declaration without an initializer.
pub fn declare(layouts: &Layouts, cells: &mut Cells, work: &mut Work, variable: Variable)
    ensures next { Does layouts.now (λ d. running_statement layouts.now d (declaration variable)) work.old cells.old goes_on work.new cells.new }
    ensures tasks { work.new.tasks.items ≡ work.old.tasks.items }
{
    cells.clear(layouts, variable);
    work.end(Manner::Normally);
}

/// A variable gets the values above a height.
pub fn initialize(
    alloc: Global,
    layouts: &Layouts,
    cells: &mut Cells,
    work: &mut Work,
    variable: Variable,
    height: usize,
) -> Result<(), AllocError>
    ensures next { OnOk result (Does layouts.now (λ d. step layouts.now d (T.Initialize variable height)) work.old cells.old goes_on work.new cells.new) }
    ensures tasks { OnOk result (work.new.tasks.items ≡ work.old.tasks.items) }
{
    cells.put_cells(alloc, layouts, variable, work.values_above(height))?;
    work.lower(height);
    work.end(Manner::Normally);
    Ok(())
}

/// The scope of a statement's own declaration is left.
fn leave_declaration(cells: &mut Cells, s: &Stmt)
    ensures { cells.new ≡ record cells.old { locals = locals_without (declared_variable (stmt_view s.now)) cells.old.locals } }
{
    match s {
        Stmt::Declare(variable) => cells.leave_scope(*variable),
        Stmt::DeclareWith(variable, _) => cells.leave_scope(*variable),
        _ => {}
    }
}

/// The scope of the declarations among statements is left.
pub fn leave_scope(cells: &mut Cells, body: &Stmts)
    ensures { cells.new ≡ record cells.old { locals = locals_without (declared_in (stmts_view body.now)) cells.old.locals } }
{
    let mut body = body;
    'declarations: while let Stmts::More(first, rest) = body {
        leave_declaration(cells, first);
        body = rest;
    }
}
