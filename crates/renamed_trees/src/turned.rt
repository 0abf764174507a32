//! Lists from their end to their beginning.

ghost use Rattle.std.specs.Prelude.{◌≡◌, []};
ghost use Rattle.rvt_tree.specs.Syntax.{no_arguments, no_initializers, no_statements, no_groups};
ghost use Rattle.rvt_tree.specs.Views.{exprs_view, acts_view, inits_view, stmts_view, groups_view};
ghost use Rattle.renamed_trees.specs.TurnedLists.{arguments_turned, actions_turned, members_turned, statements_turned, groups_turned};

use rvt_tree::{Acts, Exprs, Groups, Inits, Stmts};
use std::mem;

pub fn turned_arguments(mut list: Exprs) -> Exprs
    ensures { exprs_view result ≡ arguments_turned (exprs_view list) no_arguments }
{
    let mut done = Exprs::End;
    loop {
        match &mut list {
            Exprs::End => return done,
            Exprs::More(_, rest) => {
                let next = mem::replace(&mut **rest, done);
                done = mem::replace(&mut list, next);
            }
        }
    }
}

pub fn turned_actions(mut list: Acts) -> Acts
    ensures { acts_view result ≡ actions_turned (acts_view list) [] }
{
    let mut done = Acts::End;
    loop {
        match &mut list {
            Acts::End => return done,
            Acts::More(_, rest) => {
                let next = mem::replace(&mut **rest, done);
                done = mem::replace(&mut list, next);
            }
        }
    }
}

pub fn turned_members(mut list: Inits) -> Inits
    ensures { inits_view result ≡ members_turned (inits_view list) no_initializers }
{
    let mut done = Inits::End;
    loop {
        match &mut list {
            Inits::End => return done,
            Inits::More(_, _, rest) => {
                let next = mem::replace(&mut **rest, done);
                done = mem::replace(&mut list, next);
            }
        }
    }
}

pub fn turned_statements(mut list: Stmts) -> Stmts
    ensures { stmts_view result ≡ statements_turned (stmts_view list) no_statements }
{
    let mut done = Stmts::End;
    loop {
        match &mut list {
            Stmts::End => return done,
            Stmts::More(_, rest) => {
                let next = mem::replace(&mut **rest, done);
                done = mem::replace(&mut list, next);
            }
        }
    }
}

pub fn turned_groups(mut list: Groups) -> Groups
    ensures { groups_view result ≡ groups_turned (groups_view list) no_groups }
{
    let mut done = Groups::End;
    loop {
        match &mut list {
            Groups::End => return done,
            Groups::More(_, _, rest) => {
                let next = mem::replace(&mut **rest, done);
                done = mem::replace(&mut list, next);
            }
        }
    }
}
