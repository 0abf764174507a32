//! Statements in which each local that is an object stands as that.

ghost use Rattle.std.specs.Prelude.{◌≡◌, option_map};
ghost use Rattle.rvt_tree.specs.Syntax.{no_statements, no_groups};
ghost use Rattle.rvt_tree.specs.Views.{expr_view, stmt_view, stmts_view, groups_view};
ghost use Rattle.file_typing.specs.LocalObjects.{resolved, statement_resolved, statements_resolved, groups_resolved};
ghost use Rattle.local_objects.specs.ObjectTables.{object_at};
ghost use Rattle.local_objects.specs.TurnedLists.{statements_turned, groups_turned};

use crate::actions::{resolve_action, resolve_actions};
use crate::expressions::resolve_expression;
use crate::initializers::resolve_initializer;
use crate::turned::{turned_groups, turned_statements};
use crate::variables::variable_in;
use rvt_tree::{Expr, Groups, Stmt, Stmts};
use std::mem;

/// Makes each local that is an object stand as that, by the table of its function.
#[cycle(resolve)]
pub fn resolve(statement: &mut Stmt, objects: &[Option<u32>])
    ensures { stmt_view statement.new ≡ statement_resolved (object_at objects.now) (stmt_view statement.old) }
{
    match statement {
        Stmt::Block(body) => resolve_statements(body, objects),
        Stmt::Empty => {}
        Stmt::Act(act) => resolve_action(act, objects),
        Stmt::Declare(variable) => *variable = variable_in(*variable, objects),
        Stmt::DeclareWith(variable, init) => {
            *variable = variable_in(*variable, objects);
            resolve_initializer(init, objects);
        }
        Stmt::Break => {}
        Stmt::Continue => {}
        Stmt::Return => {}
        Stmt::ReturnValue(e) => resolve_expression(e, objects),
        Stmt::If(test, first) => {
            resolve_expression(test, objects);
            resolve(first, objects);
        }
        Stmt::IfElse(test, first, second) => {
            resolve_expression(test, objects);
            resolve(first, objects);
            resolve(second, objects);
        }
        Stmt::While(_, test, body) => {
            resolve_expression(test, objects);
            resolve(body, objects);
        }
        Stmt::DoWhile(_, body, test) => {
            resolve(body, objects);
            resolve_expression(test, objects);
        }
        Stmt::For(_, first, test, last, body) => {
            resolve_statements(first, objects);
            resolve_test(test, objects);
            resolve_actions(last, objects);
            resolve(body, objects);
        }
        Stmt::Switch(e, groups) => {
            resolve_expression(e, objects);
            resolve_groups(groups, objects);
        }
    }
}

fn resolve_test(test: &mut Option<Expr>, objects: &[Option<u32>])
    ensures { option_map expr_view test.new ≡ option_map (resolved (object_at objects.now)) (option_map expr_view test.old) }
{
    match test {
        None => {}
        Some(test) => resolve_expression(test, objects),
    }
}

#[cycle(resolve)]
#[tactic(auto, using(crate::proofs::TurnedTwice::statements_turned_twice))]
fn resolve_statements(list: &mut Stmts, objects: &[Option<u32>])
    ensures { stmts_view list.new ≡ statements_resolved (object_at objects.now) (stmts_view list.old) }
{
    let turned = taken_statements(list, objects);
    *list = turned_statements(turned);
}

/// The statements, each resolved, from the last to the first; none is left.
#[cycle(resolve)]
fn taken_statements(list: &mut Stmts, objects: &[Option<u32>]) -> Stmts
    ensures { stmts_view result ≡ statements_turned (statements_resolved (object_at objects.now) (stmts_view list.old)) no_statements }
{
    let mut done = Stmts::End;
    loop {
        match list {
            Stmts::End => return done,
            Stmts::More(statement, rest) => {
                resolve(statement, objects);
                let next = mem::replace(&mut **rest, done);
                done = mem::replace(list, next);
            }
        }
    }
}

#[cycle(resolve)]
#[tactic(auto, using(crate::proofs::TurnedTwice::groups_turned_twice))]
fn resolve_groups(list: &mut Groups, objects: &[Option<u32>])
    ensures { groups_view list.new ≡ groups_resolved (object_at objects.now) (groups_view list.old) }
{
    let turned = taken_groups(list, objects);
    *list = turned_groups(turned);
}

/// The groups, each resolved, from the last to the first; none is left.
#[cycle(resolve)]
fn taken_groups(list: &mut Groups, objects: &[Option<u32>]) -> Groups
    ensures { groups_view result ≡ groups_turned (groups_resolved (object_at objects.now) (groups_view list.old)) no_groups }
{
    let mut done = Groups::End;
    loop {
        match list {
            Groups::End => return done,
            Groups::More(_, body, rest) => {
                resolve_statements(body, objects);
                let next = mem::replace(&mut **rest, done);
                done = mem::replace(list, next);
            }
        }
    }
}
