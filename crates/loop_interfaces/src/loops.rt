//! The loops of a function, in the order in which they begin.

ghost use Rattle.std.specs.Prelude.{◌≡◌, ◌++◌, OnOk, map};
ghost use Rattle.rvt_tree.specs.Views.{stmt_view, stmts_view, groups_view};
ghost use Rattle.loop_interfaces.specs.Loops.{loops_in, loops_in_block, loops_in_groups};

use rvt_tree::{Groups, Stmt, Stmts};
use std::alloc::AllocError;

#[cycle(statement)]
pub fn add_loops<'a>(statement: &'a Stmt, out: &mut Vec<&'a Stmt>) -> Result<(), AllocError>
    ensures { OnOk result (map (λ s. stmt_view s.now) out.new.items ≡ map (λ s. stmt_view s.now) out.old.items ++ loops_in (stmt_view statement.now)) }
{
    match statement {
        Stmt::Block(body) => add_loops_in_block(body, out),
        Stmt::If(_, first) => add_loops(first, out),
        Stmt::IfElse(_, first, second) => {
            add_loops(first, out)?;
            add_loops(second, out)?;
            Ok(())
        }
        Stmt::While(_, _, body) => {
            out.push(statement)?;
            add_loops(body, out)?;
            Ok(())
        }
        Stmt::DoWhile(_, body, _) => {
            out.push(statement)?;
            add_loops(body, out)?;
            Ok(())
        }
        Stmt::For(_, _, _, _, body) => {
            out.push(statement)?;
            add_loops(body, out)?;
            Ok(())
        }
        Stmt::Switch(_, groups) => add_loops_in_groups(groups, out),
        Stmt::Empty => Ok(()),
        Stmt::Act(_) => Ok(()),
        Stmt::Declare(_) => Ok(()),
        Stmt::DeclareWith(_, _) => Ok(()),
        Stmt::Break => Ok(()),
        Stmt::Continue => Ok(()),
        Stmt::Return => Ok(()),
        Stmt::ReturnValue(_) => Ok(()),
    }
}

#[cycle(statement)]
fn add_loops_in_block<'a>(body: &'a Stmts, out: &mut Vec<&'a Stmt>) -> Result<(), AllocError>
    ensures { OnOk result (map (λ s. stmt_view s.now) out.new.items ≡ map (λ s. stmt_view s.now) out.old.items ++ loops_in_block (stmts_view body.now)) }
{
    let mut rest = body;
    while let Stmts::More(statement, more) = rest {
        add_loops(statement, out)?;
        rest = more;
    }
    Ok(())
}

#[cycle(statement)]
fn add_loops_in_groups<'a>(groups: &'a Groups, out: &mut Vec<&'a Stmt>) -> Result<(), AllocError>
    ensures { OnOk result (map (λ s. stmt_view s.now) out.new.items ≡ map (λ s. stmt_view s.now) out.old.items ++ loops_in_groups (groups_view groups.now)) }
{
    let mut rest = groups;
    while let Groups::More(_, body, more) = rest {
        add_loops_in_block(body, out)?;
        rest = more;
    }
    Ok(())
}
