//! Where an expression begins.

ghost use Rattle.std.specs.Prelude.{◌≡◌};
ghost use Rattle.c_syntax.specs.Views.{expr_view};
ghost use Rattle.expression_typing.specs.FirstTokens.{first_token, array_name, ends_of};
ghost use Rattle.place_rules.specs.Views.{ends_view};

use c_syntax::{Casts, Expr};
use place_rules::Ends;
use rvt_tree::Place;

/// The first token of an expression.
#[cycle(first_token)]
pub fn first_token(e: &Expr) -> Place
    ensures { result ≡ first_token (expr_view e.now) }
{
    match e {
        Expr::Name(word) => word.place,
        Expr::Constant(_, at) => *at,
        Expr::Character(_, at) => *at,
        Expr::Call(function, _) => function.place,
        Expr::Paren(at, _) => *at,
        Expr::Postfix(primary, _) => first_token(primary),
        Expr::Unary(_, at, _) => *at,
        Expr::Cast(casts, operand) => match &**casts {
            Casts::More(at, _, _, _, _) => *at,
            Casts::End => first_token(operand),
        },
        Expr::SizeofExpr(at, _) => *at,
        Expr::SizeofType(at, _, _, _) => *at,
        Expr::Binary(_, _, left, _) => first_token(left),
        Expr::Conditional(_, test, _, _) => first_token(test),
    }
}

/// Of an array, the name of the variable that it is or lies in.
#[cycle(array_name)]
pub fn array_name(e: &Expr) -> Place
    ensures { result ≡ array_name (expr_view e.now) }
{
    match e {
        Expr::Paren(_, inner) => array_name(inner),
        Expr::Postfix(primary, _) => array_name(primary),
        _ => first_token(e),
    }
}

pub fn ends_of(e: &Expr) -> Ends
    ensures { ends_view result ≡ ends_of (expr_view e.now) }
{
    Ends {
        first: first_token(e),
        array_name: array_name(e),
    }
}
