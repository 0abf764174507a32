//! The locals that are declared inside a statement, in the order of the source.

ghost use Rattle.std.specs.Prelude.{◌≡◌, ◌++◌, OnOk};
ghost use Rattle.rvt_tree.specs.Views.{stmt_view, stmts_view, groups_view};
ghost use Rattle.c_meaning.specs.Interfaces.{declared_inside, declared_inside_block, declared_inside_groups, declared_in_loop};

use crate::named::add_variable;
use rvt_tree::{Groups, Stmt, Stmts};
use std::alloc::AllocError;

#[cycle(statement)]
fn add_inside(statement: &Stmt, out: &mut Vec<u32>) -> Result<(), AllocError>
    ensures { OnOk result (out.new.items ≡ out.old.items ++ declared_inside (stmt_view statement.now)) }
{
    match statement {
        Stmt::Block(body) => add_inside_block(body, out),
        Stmt::Declare(variable) => add_variable(*variable, out),
        Stmt::DeclareWith(variable, _) => add_variable(*variable, out),
        Stmt::If(_, first) => add_inside(first, out),
        Stmt::IfElse(_, first, second) => {
            add_inside(first, out)?;
            add_inside(second, out)?;
            Ok(())
        }
        Stmt::While(_, _, body) => add_inside(body, out),
        Stmt::DoWhile(_, body, _) => add_inside(body, out),
        Stmt::For(_, first, _, _, body) => {
            add_inside_block(first, out)?;
            add_inside(body, out)?;
            Ok(())
        }
        Stmt::Switch(_, groups) => add_inside_groups(groups, out),
        Stmt::Empty => Ok(()),
        Stmt::Act(_) => Ok(()),
        Stmt::Break => Ok(()),
        Stmt::Continue => Ok(()),
        Stmt::Return => Ok(()),
        Stmt::ReturnValue(_) => Ok(()),
    }
}

#[cycle(statement)]
fn add_inside_block(body: &Stmts, out: &mut Vec<u32>) -> Result<(), AllocError>
    ensures { OnOk result (out.new.items ≡ out.old.items ++ declared_inside_block (stmts_view body.now)) }
{
    let mut rest = body;
    while let Stmts::More(statement, more) = rest {
        add_inside(statement, out)?;
        rest = more;
    }
    Ok(())
}

#[cycle(statement)]
fn add_inside_groups(groups: &Groups, out: &mut Vec<u32>) -> Result<(), AllocError>
    ensures { OnOk result (out.new.items ≡ out.old.items ++ declared_inside_groups (groups_view groups.now)) }
{
    let mut rest = groups;
    while let Groups::More(_, body, more) = rest {
        add_inside_block(body, out)?;
        rest = more;
    }
    Ok(())
}

/// Adds what is declared inside a loop: what stands first in a `for` is outside it.
pub fn add_inside_loop(statement: &Stmt, out: &mut Vec<u32>) -> Result<(), AllocError>
    ensures { OnOk result (out.new.items ≡ out.old.items ++ declared_in_loop (stmt_view statement.now)) }
{
    match statement {
        Stmt::For(_, _, _, _, body) => add_inside(body, out),
        Stmt::Block(_) => add_inside(statement, out),
        Stmt::Empty => add_inside(statement, out),
        Stmt::Act(_) => add_inside(statement, out),
        Stmt::Declare(_) => add_inside(statement, out),
        Stmt::DeclareWith(_, _) => add_inside(statement, out),
        Stmt::Break => add_inside(statement, out),
        Stmt::Continue => add_inside(statement, out),
        Stmt::Return => add_inside(statement, out),
        Stmt::ReturnValue(_) => add_inside(statement, out),
        Stmt::If(_, _) => add_inside(statement, out),
        Stmt::IfElse(_, _, _) => add_inside(statement, out),
        Stmt::While(_, _, _) => add_inside(statement, out),
        Stmt::DoWhile(_, _, _) => add_inside(statement, out),
        Stmt::Switch(_, _) => add_inside(statement, out),
    }
}
