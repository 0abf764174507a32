//! What is dereferenced in places and expressions.

ghost use Rattle.std.specs.Prelude.{◌≡◌, ◌++◌, IfOk, ◌∷◌, []};
ghost use Rattle.rvt_tree.specs.Views.{lvalue_view, expr_view, exprs_view};
ghost use Rattle.rvt_tree.specs.declared.types.Pointee.TheVariants as P;
ghost use Rattle.body_pointees.specs.Pointees.{place_pointees, address_pointees, expression_pointees, arguments_pointees};

use rvt_tree::{Expr, Exprs, Lvalue, Pointee};
use std::alloc::AllocError;

#[cycle(collect_from_expression)]
pub fn collect_from_place(place: &Lvalue, into: &mut Vec<Pointee>) -> Result<(), AllocError>
    ensures { IfOk result (λ _. into.new.items ≡ into.old.items ++ place_pointees (lvalue_view place.now)) }
{
    match place {
        Lvalue::Variable(_) => Ok(()),
        Lvalue::Element(array, index, _, _) => {
            collect_from_place(array, into)?;
            collect_from_expression(index, into)
        }
        Lvalue::Member(aggregate, _, _) => collect_from_place(aggregate, into),
        Lvalue::Target(pointer, pointee) => {
            collect_from_expression(pointer, into)?;
            into.push(*pointee)?;
            Ok(())
        }
        Lvalue::Indexed(pointer, index, pointee, _) => {
            collect_from_expression(pointer, into)?;
            collect_from_expression(index, into)?;
            into.push(*pointee)?;
            Ok(())
        }
        Lvalue::Arrow(pointer, structure, _, _) => collect_from_arrow(pointer, *structure, into),
    }
}

#[cycle(collect_from_expression)]
fn collect_from_arrow(
    pointer: &Expr,
    structure: u32,
    into: &mut Vec<Pointee>,
) -> Result<(), AllocError>
    ensures { IfOk result (λ _. into.new.items ≡ into.old.items ++ (expression_pointees (expr_view pointer.now) ++ P.Struct structure ∷ [])) }
{
    collect_from_expression(pointer, into)?;
    into.push(Pointee::Struct(structure))?;
    Ok(())
}

/// What is dereferenced where the address of a place is taken.
#[cycle(collect_from_expression)]
fn collect_from_address(place: &Lvalue, into: &mut Vec<Pointee>) -> Result<(), AllocError>
    ensures { IfOk result (λ _. into.new.items ≡ into.old.items ++ address_pointees (lvalue_view place.now)) }
{
    match place {
        Lvalue::Variable(_) => Ok(()),
        Lvalue::Element(array, index, _, _) => {
            collect_from_place(array, into)?;
            collect_from_expression(index, into)
        }
        Lvalue::Member(aggregate, _, _) => collect_from_place(aggregate, into),
        Lvalue::Target(pointer, _) => collect_from_expression(pointer, into),
        Lvalue::Indexed(pointer, index, _, _) => {
            collect_from_expression(pointer, into)?;
            collect_from_expression(index, into)
        }
        Lvalue::Arrow(pointer, structure, _, _) => collect_from_arrow(pointer, *structure, into),
    }
}

#[cycle(collect_from_expression)]
pub fn collect_from_expression(e: &Expr, into: &mut Vec<Pointee>) -> Result<(), AllocError>
    ensures { IfOk result (λ _. into.new.items ≡ into.old.items ++ expression_pointees (expr_view e.now)) }
{
    match e {
        Expr::Constant(_) => Ok(()),
        Expr::Null => Ok(()),
        Expr::Read(place) => collect_from_place(place, into),
        Expr::Address(place) => collect_from_address(place, into),
        Expr::Decay(place) => collect_from_place(place, into),
        Expr::Cast(_, a) => collect_from_expression(a, into),
        Expr::Plus(a) => collect_from_expression(a, into),
        Expr::Minus(a) => collect_from_expression(a, into),
        Expr::Flip(a) => collect_from_expression(a, into),
        Expr::Not(a) => collect_from_expression(a, into),
        Expr::Binary(_, a, b) => {
            collect_from_expression(a, into)?;
            collect_from_expression(b, into)
        }
        Expr::SamePointer(a, b) => {
            collect_from_expression(a, into)?;
            collect_from_expression(b, into)
        }
        Expr::OtherPointer(a, b) => {
            collect_from_expression(a, into)?;
            collect_from_expression(b, into)
        }
        Expr::Forward(a, b, _) => {
            collect_from_expression(a, into)?;
            collect_from_expression(b, into)
        }
        Expr::ForwardFrom(a, b, _) => {
            collect_from_expression(a, into)?;
            collect_from_expression(b, into)
        }
        Expr::Backward(a, b, _) => {
            collect_from_expression(a, into)?;
            collect_from_expression(b, into)
        }
        Expr::Both(a, b) => {
            collect_from_expression(a, into)?;
            collect_from_expression(b, into)
        }
        Expr::Either(a, b) => {
            collect_from_expression(a, into)?;
            collect_from_expression(b, into)
        }
        Expr::Choice(test, a, b) => {
            collect_from_expression(test, into)?;
            collect_from_expression(a, into)?;
            collect_from_expression(b, into)
        }
        Expr::Call(_, arguments) => collect_from_arguments(arguments, into),
    }
}

#[cycle(collect_from_expression)]
pub fn collect_from_arguments(arguments: &Exprs, into: &mut Vec<Pointee>) -> Result<(), AllocError>
    ensures { IfOk result (λ _. into.new.items ≡ into.old.items ++ arguments_pointees (exprs_view arguments.now)) }
{
    let mut rest = arguments;
    while let Exprs::More(item, more) = rest {
        collect_from_expression(item, into)?;
        rest = more;
    }
    Ok(())
}
