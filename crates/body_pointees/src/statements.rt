//! What is dereferenced in statements.

ghost use Rattle.std.specs.Prelude.{◌≡◌, ◌++◌, IfOk, option_map};
ghost use Rattle.rvt_tree.specs.Views.{expr_view, stmt_view, stmts_view, groups_view};
ghost use Rattle.body_pointees.specs.Pointees.{test_pointees, statement_pointees, statements_pointees, groups_pointees};

use crate::actions::{collect_from_action, collect_from_actions};
use crate::expressions::collect_from_expression;
use crate::initializers::collect_from_initializer;
use rvt_tree::{Expr, Groups, Pointee, Stmt, Stmts};
use std::alloc::AllocError;

#[cycle(collect_from_statement)]
pub fn collect_from_statement(statement: &Stmt, into: &mut Vec<Pointee>) -> Result<(), AllocError>
    ensures { IfOk result (λ _. into.new.items ≡ into.old.items ++ statement_pointees (stmt_view statement.now)) }
{
    match statement {
        Stmt::Block(body) => collect_from_statements(body, into),
        Stmt::Empty => Ok(()),
        Stmt::Act(act) => collect_from_action(act, into),
        Stmt::Declare(_) => Ok(()),
        Stmt::DeclareWith(_, init) => collect_from_initializer(init, into),
        Stmt::Break => Ok(()),
        Stmt::Continue => Ok(()),
        Stmt::Return => Ok(()),
        Stmt::ReturnValue(e) => collect_from_expression(e, into),
        Stmt::If(test, first) => {
            collect_from_expression(test, into)?;
            collect_from_statement(first, into)
        }
        Stmt::IfElse(test, first, second) => {
            collect_from_expression(test, into)?;
            collect_from_statement(first, into)?;
            collect_from_statement(second, into)
        }
        Stmt::While(_, test, body) => {
            collect_from_expression(test, into)?;
            collect_from_statement(body, into)
        }
        Stmt::DoWhile(_, body, test) => {
            collect_from_statement(body, into)?;
            collect_from_expression(test, into)
        }
        Stmt::For(_, first, test, last, body) => {
            collect_from_statements(first, into)?;
            collect_from_test(test, into)?;
            collect_from_actions(last, into)?;
            collect_from_statement(body, into)
        }
        Stmt::Switch(e, groups) => {
            collect_from_expression(e, into)?;
            collect_from_groups(groups, into)
        }
    }
}

fn collect_from_test(test: &Option<Expr>, into: &mut Vec<Pointee>) -> Result<(), AllocError>
    ensures { IfOk result (λ _. into.new.items ≡ into.old.items ++ test_pointees (option_map expr_view test.now)) }
{
    match test {
        None => Ok(()),
        Some(test) => collect_from_expression(test, into),
    }
}

#[cycle(collect_from_statement)]
fn collect_from_statements(statements: &Stmts, into: &mut Vec<Pointee>) -> Result<(), AllocError>
    ensures { IfOk result (λ _. into.new.items ≡ into.old.items ++ statements_pointees (stmts_view statements.now)) }
{
    let mut rest = statements;
    while let Stmts::More(item, more) = rest {
        collect_from_statement(item, into)?;
        rest = more;
    }
    Ok(())
}

#[cycle(collect_from_statement)]
fn collect_from_groups(groups: &Groups, into: &mut Vec<Pointee>) -> Result<(), AllocError>
    ensures { IfOk result (λ _. into.new.items ≡ into.old.items ++ groups_pointees (groups_view groups.now)) }
{
    let mut rest = groups;
    while let Groups::More(_, item, more) = rest {
        collect_from_statements(item, into)?;
        rest = more;
    }
    Ok(())
}
