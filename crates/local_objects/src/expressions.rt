//! Places and expressions in which each local that is an object stands as that.

ghost use Rattle.std.specs.Prelude.{◌≡◌};
ghost use Rattle.rvt_tree.specs.Syntax.{no_arguments};
ghost use Rattle.rvt_tree.specs.Views.{lvalue_view, expr_view, exprs_view};
ghost use Rattle.file_typing.specs.LocalObjects.{place_resolved, resolved, arguments_resolved};
ghost use Rattle.local_objects.specs.ObjectTables.{object_at};
ghost use Rattle.local_objects.specs.TurnedLists.{arguments_turned};

use crate::turned::turned_arguments;
use crate::variables::variable_in;
use rvt_tree::{Expr, Exprs, Lvalue};
use std::mem;

#[cycle(resolve_expression)]
pub fn resolve_place(place: &mut Lvalue, objects: &[Option<u32>])
    ensures { lvalue_view place.new ≡ place_resolved (object_at objects.now) (lvalue_view place.old) }
{
    match place {
        Lvalue::Variable(variable) => *variable = variable_in(*variable, objects),
        Lvalue::Element(array, index, _, _) => {
            resolve_place(array, objects);
            resolve_expression(index, objects);
        }
        Lvalue::Member(aggregate, _, _) => resolve_place(aggregate, objects),
        Lvalue::Target(pointer, _) => resolve_expression(pointer, objects),
        Lvalue::Indexed(pointer, index, _, _) => {
            resolve_expression(pointer, objects);
            resolve_expression(index, objects);
        }
        Lvalue::Arrow(pointer, _, _, _) => resolve_expression(pointer, objects),
    }
}

#[cycle(resolve_expression)]
pub fn resolve_expression(e: &mut Expr, objects: &[Option<u32>])
    ensures { expr_view e.new ≡ resolved (object_at objects.now) (expr_view e.old) }
{
    match e {
        Expr::Constant(_) => {}
        Expr::Null => {}
        Expr::Read(place) => resolve_place(place, objects),
        Expr::Address(place) => resolve_place(place, objects),
        Expr::Decay(place) => resolve_place(place, objects),
        Expr::Cast(_, a) => resolve_expression(a, objects),
        Expr::Plus(a) => resolve_expression(a, objects),
        Expr::Minus(a) => resolve_expression(a, objects),
        Expr::Flip(a) => resolve_expression(a, objects),
        Expr::Not(a) => resolve_expression(a, objects),
        Expr::Binary(_, a, b) => {
            resolve_expression(a, objects);
            resolve_expression(b, objects);
        }
        Expr::SamePointer(a, b) => {
            resolve_expression(a, objects);
            resolve_expression(b, objects);
        }
        Expr::OtherPointer(a, b) => {
            resolve_expression(a, objects);
            resolve_expression(b, objects);
        }
        Expr::Forward(a, b, _) => {
            resolve_expression(a, objects);
            resolve_expression(b, objects);
        }
        Expr::ForwardFrom(a, b, _) => {
            resolve_expression(a, objects);
            resolve_expression(b, objects);
        }
        Expr::Backward(a, b, _) => {
            resolve_expression(a, objects);
            resolve_expression(b, objects);
        }
        Expr::Both(a, b) => {
            resolve_expression(a, objects);
            resolve_expression(b, objects);
        }
        Expr::Either(a, b) => {
            resolve_expression(a, objects);
            resolve_expression(b, objects);
        }
        Expr::Choice(test, a, b) => {
            resolve_expression(test, objects);
            resolve_expression(a, objects);
            resolve_expression(b, objects);
        }
        Expr::Call(_, arguments) => resolve_arguments(arguments, objects),
    }
}

#[cycle(resolve_expression)]
#[tactic(auto, using(crate::proofs::TurnedTwice::arguments_turned_twice))]
pub fn resolve_arguments(list: &mut Exprs, objects: &[Option<u32>])
    ensures { exprs_view list.new ≡ arguments_resolved (object_at objects.now) (exprs_view list.old) }
{
    let turned = taken_arguments(list, objects);
    *list = turned_arguments(turned);
}

/// The arguments, each resolved, from the last to the first; none is left.
#[cycle(resolve_expression)]
fn taken_arguments(list: &mut Exprs, objects: &[Option<u32>]) -> Exprs
    ensures { exprs_view result ≡ arguments_turned (arguments_resolved (object_at objects.now) (exprs_view list.old)) no_arguments }
{
    let mut done = Exprs::End;
    loop {
        match list {
            Exprs::End => return done,
            Exprs::More(e, rest) => {
                resolve_expression(e, objects);
                let next = mem::replace(&mut **rest, done);
                done = mem::replace(list, next);
            }
        }
    }
}
