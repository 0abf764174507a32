//! Places and expressions in which each variable stands under another name.

ghost use Rattle.std.specs.Prelude.{◌≡◌};
ghost use Rattle.rvt_tree.specs.Syntax.{no_arguments};
ghost use Rattle.rvt_tree.specs.Views.{lvalue_view, expr_view, exprs_view};
ghost use Rattle.renamed_trees.specs.RenamedTrees.{place_renamed, renamed, arguments_renamed};
ghost use Rattle.renamed_trees.specs.Renamings.{named};
ghost use Rattle.renamed_trees.specs.TurnedLists.{arguments_turned};

use crate::turned::turned_arguments;
use crate::variables::Renaming;
use rvt_tree::{Expr, Exprs, Lvalue};
use std::mem;

#[cycle(rename_expression)]
pub fn rename_place(place: &mut Lvalue, renaming: &Renaming)
    ensures { lvalue_view place.new ≡ place_renamed (named renaming.now) (lvalue_view place.old) }
{
    match place {
        Lvalue::Variable(variable) => *variable = renaming.name(*variable),
        Lvalue::Element(array, index, _, _) => {
            rename_place(array, renaming);
            rename_expression(index, renaming);
        }
        Lvalue::Member(aggregate, _, _) => rename_place(aggregate, renaming),
        Lvalue::Target(pointer, _) => rename_expression(pointer, renaming),
        Lvalue::Indexed(pointer, index, _, _) => {
            rename_expression(pointer, renaming);
            rename_expression(index, renaming);
        }
        Lvalue::Arrow(pointer, _, _, _) => rename_expression(pointer, renaming),
    }
}

#[cycle(rename_expression)]
pub fn rename_expression(e: &mut Expr, renaming: &Renaming)
    ensures { expr_view e.new ≡ renamed (named renaming.now) (expr_view e.old) }
{
    match e {
        Expr::Constant(_) => {}
        Expr::Null => {}
        Expr::Read(place) => rename_place(place, renaming),
        Expr::Address(place) => rename_place(place, renaming),
        Expr::Decay(place) => rename_place(place, renaming),
        Expr::Cast(_, a) => rename_expression(a, renaming),
        Expr::Plus(a) => rename_expression(a, renaming),
        Expr::Minus(a) => rename_expression(a, renaming),
        Expr::Flip(a) => rename_expression(a, renaming),
        Expr::Not(a) => rename_expression(a, renaming),
        Expr::Binary(_, a, b) => {
            rename_expression(a, renaming);
            rename_expression(b, renaming);
        }
        Expr::SamePointer(a, b) => {
            rename_expression(a, renaming);
            rename_expression(b, renaming);
        }
        Expr::OtherPointer(a, b) => {
            rename_expression(a, renaming);
            rename_expression(b, renaming);
        }
        Expr::Forward(a, b, _) => {
            rename_expression(a, renaming);
            rename_expression(b, renaming);
        }
        Expr::ForwardFrom(a, b, _) => {
            rename_expression(a, renaming);
            rename_expression(b, renaming);
        }
        Expr::Backward(a, b, _) => {
            rename_expression(a, renaming);
            rename_expression(b, renaming);
        }
        Expr::Both(a, b) => {
            rename_expression(a, renaming);
            rename_expression(b, renaming);
        }
        Expr::Either(a, b) => {
            rename_expression(a, renaming);
            rename_expression(b, renaming);
        }
        Expr::Choice(test, a, b) => {
            rename_expression(test, renaming);
            rename_expression(a, renaming);
            rename_expression(b, renaming);
        }
        Expr::Call(_, arguments) => rename_arguments(arguments, renaming),
    }
}

#[cycle(rename_expression)]
#[tactic(auto, using(crate::proofs::TurnedTwice::arguments_turned_twice))]
pub fn rename_arguments(list: &mut Exprs, renaming: &Renaming)
    ensures { exprs_view list.new ≡ arguments_renamed (named renaming.now) (exprs_view list.old) }
{
    let turned = taken_arguments(list, renaming);
    *list = turned_arguments(turned);
}

/// The arguments, each renamed, from the last to the first; none is left.
#[cycle(rename_expression)]
fn taken_arguments(list: &mut Exprs, renaming: &Renaming) -> Exprs
    ensures { exprs_view result ≡ arguments_turned (arguments_renamed (named renaming.now) (exprs_view list.old)) no_arguments }
{
    let mut done = Exprs::End;
    loop {
        match list {
            Exprs::End => return done,
            Exprs::More(e, rest) => {
                rename_expression(e, renaming);
                let next = mem::replace(&mut **rest, done);
                done = mem::replace(list, next);
            }
        }
    }
}
