//! Statements in which each variable stands under another name.

ghost use Rattle.std.specs.Prelude.{◌≡◌, option_map};
ghost use Rattle.rvt_tree.specs.Syntax.{no_statements, no_groups};
ghost use Rattle.rvt_tree.specs.Views.{expr_view, stmt_view, stmts_view, groups_view};
ghost use Rattle.renamed_trees.specs.RenamedTrees.{renamed, statement_renamed, statements_renamed, groups_renamed};
ghost use Rattle.renamed_trees.specs.Renamings.{named};
ghost use Rattle.renamed_trees.specs.TurnedLists.{statements_turned, groups_turned};

use crate::actions::{rename_action, rename_actions};
use crate::expressions::rename_expression;
use crate::initializers::rename_initializer;
use crate::turned::{turned_groups, turned_statements};
use crate::variables::Renaming;
use rvt_tree::{Expr, Groups, Stmt, Stmts};
use std::mem;

/// Makes each variable stand under its name of this renaming.
#[cycle(rename)]
pub fn rename(statement: &mut Stmt, renaming: &Renaming)
    ensures { stmt_view statement.new ≡ statement_renamed (named renaming.now) (stmt_view statement.old) }
{
    match statement {
        Stmt::Block(body) => rename_statements(body, renaming),
        Stmt::Empty => {}
        Stmt::Act(act) => rename_action(act, renaming),
        Stmt::Declare(variable) => *variable = renaming.name(*variable),
        Stmt::DeclareWith(variable, init) => {
            *variable = renaming.name(*variable);
            rename_initializer(init, renaming);
        }
        Stmt::Break => {}
        Stmt::Continue => {}
        Stmt::Return => {}
        Stmt::ReturnValue(e) => rename_expression(e, renaming),
        Stmt::If(test, first) => {
            rename_expression(test, renaming);
            rename(first, renaming);
        }
        Stmt::IfElse(test, first, second) => {
            rename_expression(test, renaming);
            rename(first, renaming);
            rename(second, renaming);
        }
        Stmt::While(_, test, body) => {
            rename_expression(test, renaming);
            rename(body, renaming);
        }
        Stmt::DoWhile(_, body, test) => {
            rename(body, renaming);
            rename_expression(test, renaming);
        }
        Stmt::For(_, first, test, last, body) => {
            rename_statements(first, renaming);
            rename_test(test, renaming);
            rename_actions(last, renaming);
            rename(body, renaming);
        }
        Stmt::Switch(e, groups) => {
            rename_expression(e, renaming);
            rename_groups(groups, renaming);
        }
    }
}

fn rename_test(test: &mut Option<Expr>, renaming: &Renaming)
    ensures { option_map expr_view test.new ≡ option_map (renamed (named renaming.now)) (option_map expr_view test.old) }
{
    match test {
        None => {}
        Some(test) => rename_expression(test, renaming),
    }
}

#[cycle(rename)]
#[tactic(auto, using(crate::proofs::TurnedTwice::statements_turned_twice))]
fn rename_statements(list: &mut Stmts, renaming: &Renaming)
    ensures { stmts_view list.new ≡ statements_renamed (named renaming.now) (stmts_view list.old) }
{
    let turned = taken_statements(list, renaming);
    *list = turned_statements(turned);
}

/// The statements, each renamed, from the last to the first; none is left.
#[cycle(rename)]
fn taken_statements(list: &mut Stmts, renaming: &Renaming) -> Stmts
    ensures { stmts_view result ≡ statements_turned (statements_renamed (named renaming.now) (stmts_view list.old)) no_statements }
{
    let mut done = Stmts::End;
    loop {
        match list {
            Stmts::End => return done,
            Stmts::More(statement, rest) => {
                rename(statement, renaming);
                let next = mem::replace(&mut **rest, done);
                done = mem::replace(list, next);
            }
        }
    }
}

#[cycle(rename)]
#[tactic(auto, using(crate::proofs::TurnedTwice::groups_turned_twice))]
fn rename_groups(list: &mut Groups, renaming: &Renaming)
    ensures { groups_view list.new ≡ groups_renamed (named renaming.now) (groups_view list.old) }
{
    let turned = taken_groups(list, renaming);
    *list = turned_groups(turned);
}

/// The groups, each renamed, from the last to the first; none is left.
#[cycle(rename)]
fn taken_groups(list: &mut Groups, renaming: &Renaming) -> Groups
    ensures { groups_view result ≡ groups_turned (groups_renamed (named renaming.now) (groups_view list.old)) no_groups }
{
    let mut done = Groups::End;
    loop {
        match list {
            Groups::End => return done,
            Groups::More(_, body, rest) => {
                rename_statements(body, renaming);
                let next = mem::replace(&mut **rest, done);
                done = mem::replace(list, next);
            }
        }
    }
}
