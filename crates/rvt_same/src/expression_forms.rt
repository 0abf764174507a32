//! Questions about the form of a tree.

ghost use Rattle.std.specs.Prelude.{◌≡◌, option_map};
ghost use Rattle.rvt_tree.specs.Views.{expr_view, exprs_view, lvalue_view};
ghost use Rattle.rvt_tree.specs.Forms.{as_identifier, as_element, as_member, as_dereference, as_subscript, as_arrow, as_constant, is_null_pointer, as_value_at, as_address, as_decay, as_cast, as_plus, as_minus, as_complement, as_negation, as_binary, as_equal_pointers, as_unequal_pointers, as_pointer_plus, as_plus_pointer, as_pointer_minus, as_logical_and, as_logical_or, as_conditional, as_call};

use rvt_num::{BinOp, Kind, Num};
use rvt_tree::{Expr, Exprs, Lvalue, Pointee, Variable};

pub fn as_identifier(e: &Lvalue) -> Option<Variable>
    ensures { result ≡ as_identifier (lvalue_view e.now) }
{
    if let Lvalue::Variable(variable) = e {
        Some(*variable)
    } else {
        None
    }
}

pub fn as_element(e: &Lvalue) -> Option<(&Lvalue, &Expr, u32, u32)>
    ensures { option_map (λ parts. (lvalue_view parts.0.now, expr_view parts.1.now, parts.2, parts.3)) result ≡ as_element (lvalue_view e.now) }
{
    if let Lvalue::Element(array, index, count, size) = e {
        Some((&**array, &**index, *count, *size))
    } else {
        None
    }
}

pub fn as_member(e: &Lvalue) -> Option<(&Lvalue, u32, u32)>
    ensures { option_map (λ parts. (lvalue_view parts.0.now, parts.1, parts.2)) result ≡ as_member (lvalue_view e.now) }
{
    if let Lvalue::Member(aggregate, field, cell) = e {
        Some((&**aggregate, *field, *cell))
    } else {
        None
    }
}

pub fn as_dereference(e: &Lvalue) -> Option<(&Expr, Pointee)>
    ensures { option_map (λ parts. (expr_view parts.0.now, parts.1)) result ≡ as_dereference (lvalue_view e.now) }
{
    if let Lvalue::Target(pointer, pointee) = e {
        Some((&**pointer, *pointee))
    } else {
        None
    }
}

pub fn as_subscript(e: &Lvalue) -> Option<(&Expr, &Expr, Pointee, u32)>
    ensures { option_map (λ parts. (expr_view parts.0.now, expr_view parts.1.now, parts.2, parts.3)) result ≡ as_subscript (lvalue_view e.now) }
{
    if let Lvalue::Indexed(pointer, index, pointee, size) = e {
        Some((&**pointer, &**index, *pointee, *size))
    } else {
        None
    }
}

pub fn as_arrow(e: &Lvalue) -> Option<(&Expr, u32, u32, u32)>
    ensures { option_map (λ parts. (expr_view parts.0.now, parts.1, parts.2, parts.3)) result ≡ as_arrow (lvalue_view e.now) }
{
    if let Lvalue::Arrow(pointer, structure, field, cell) = e {
        Some((&**pointer, *structure, *field, *cell))
    } else {
        None
    }
}

pub fn as_constant(e: &Expr) -> Option<Num>
    ensures { result ≡ as_constant (expr_view e.now) }
{
    if let Expr::Constant(value) = e {
        Some(*value)
    } else {
        None
    }
}

pub fn is_null_pointer(e: &Expr) -> bool
    ensures { result ≡ is_null_pointer (expr_view e.now) }
{
    if let Expr::Null = e { true } else { false }
}

pub fn as_value_at(e: &Expr) -> Option<&Lvalue>
    ensures { option_map (λ a. lvalue_view a.now) result ≡ as_value_at (expr_view e.now) }
{
    if let Expr::Read(place) = e {
        Some(&**place)
    } else {
        None
    }
}

pub fn as_address(e: &Expr) -> Option<&Lvalue>
    ensures { option_map (λ a. lvalue_view a.now) result ≡ as_address (expr_view e.now) }
{
    if let Expr::Address(place) = e {
        Some(&**place)
    } else {
        None
    }
}

pub fn as_decay(e: &Expr) -> Option<&Lvalue>
    ensures { option_map (λ a. lvalue_view a.now) result ≡ as_decay (expr_view e.now) }
{
    if let Expr::Decay(place) = e {
        Some(&**place)
    } else {
        None
    }
}

pub fn as_cast(e: &Expr) -> Option<(Kind, &Expr)>
    ensures { option_map (λ parts. (parts.0, expr_view parts.1.now)) result ≡ as_cast (expr_view e.now) }
{
    if let Expr::Cast(kind, operand) = e {
        Some((*kind, &**operand))
    } else {
        None
    }
}

pub fn as_plus(e: &Expr) -> Option<&Expr>
    ensures { option_map (λ a. expr_view a.now) result ≡ as_plus (expr_view e.now) }
{
    if let Expr::Plus(operand) = e {
        Some(&**operand)
    } else {
        None
    }
}

pub fn as_minus(e: &Expr) -> Option<&Expr>
    ensures { option_map (λ a. expr_view a.now) result ≡ as_minus (expr_view e.now) }
{
    if let Expr::Minus(operand) = e {
        Some(&**operand)
    } else {
        None
    }
}

pub fn as_complement(e: &Expr) -> Option<&Expr>
    ensures { option_map (λ a. expr_view a.now) result ≡ as_complement (expr_view e.now) }
{
    if let Expr::Flip(operand) = e {
        Some(&**operand)
    } else {
        None
    }
}

pub fn as_negation(e: &Expr) -> Option<&Expr>
    ensures { option_map (λ a. expr_view a.now) result ≡ as_negation (expr_view e.now) }
{
    if let Expr::Not(operand) = e {
        Some(&**operand)
    } else {
        None
    }
}

pub fn as_binary(e: &Expr) -> Option<(BinOp, &Expr, &Expr)>
    ensures { option_map (λ parts. (parts.0, expr_view parts.1.now, expr_view parts.2.now)) result ≡ as_binary (expr_view e.now) }
{
    if let Expr::Binary(op, left, right) = e {
        Some((*op, &**left, &**right))
    } else {
        None
    }
}

pub fn as_equal_pointers(e: &Expr) -> Option<(&Expr, &Expr)>
    ensures { option_map (λ parts. (expr_view parts.0.now, expr_view parts.1.now)) result ≡ as_equal_pointers (expr_view e.now) }
{
    if let Expr::SamePointer(left, right) = e {
        Some((&**left, &**right))
    } else {
        None
    }
}

pub fn as_unequal_pointers(e: &Expr) -> Option<(&Expr, &Expr)>
    ensures { option_map (λ parts. (expr_view parts.0.now, expr_view parts.1.now)) result ≡ as_unequal_pointers (expr_view e.now) }
{
    if let Expr::OtherPointer(left, right) = e {
        Some((&**left, &**right))
    } else {
        None
    }
}

pub fn as_pointer_plus(e: &Expr) -> Option<(&Expr, &Expr, u32)>
    ensures { option_map (λ parts. (expr_view parts.0.now, expr_view parts.1.now, parts.2)) result ≡ as_pointer_plus (expr_view e.now) }
{
    if let Expr::Forward(pointer, count, size) = e {
        Some((&**pointer, &**count, *size))
    } else {
        None
    }
}

pub fn as_plus_pointer(e: &Expr) -> Option<(&Expr, &Expr, u32)>
    ensures { option_map (λ parts. (expr_view parts.0.now, expr_view parts.1.now, parts.2)) result ≡ as_plus_pointer (expr_view e.now) }
{
    if let Expr::ForwardFrom(count, pointer, size) = e {
        Some((&**count, &**pointer, *size))
    } else {
        None
    }
}

pub fn as_pointer_minus(e: &Expr) -> Option<(&Expr, &Expr, u32)>
    ensures { option_map (λ parts. (expr_view parts.0.now, expr_view parts.1.now, parts.2)) result ≡ as_pointer_minus (expr_view e.now) }
{
    if let Expr::Backward(pointer, count, size) = e {
        Some((&**pointer, &**count, *size))
    } else {
        None
    }
}

pub fn as_logical_and(e: &Expr) -> Option<(&Expr, &Expr)>
    ensures { option_map (λ parts. (expr_view parts.0.now, expr_view parts.1.now)) result ≡ as_logical_and (expr_view e.now) }
{
    if let Expr::Both(left, right) = e {
        Some((&**left, &**right))
    } else {
        None
    }
}

pub fn as_logical_or(e: &Expr) -> Option<(&Expr, &Expr)>
    ensures { option_map (λ parts. (expr_view parts.0.now, expr_view parts.1.now)) result ≡ as_logical_or (expr_view e.now) }
{
    if let Expr::Either(left, right) = e {
        Some((&**left, &**right))
    } else {
        None
    }
}

pub fn as_conditional(e: &Expr) -> Option<(&Expr, &Expr, &Expr)>
    ensures { option_map (λ parts. (expr_view parts.0.now, expr_view parts.1.now, expr_view parts.2.now)) result ≡ as_conditional (expr_view e.now) }
{
    if let Expr::Choice(test, first, second) = e {
        Some((&**test, &**first, &**second))
    } else {
        None
    }
}

pub fn as_call(e: &Expr) -> Option<(u32, &Exprs)>
    ensures { option_map (λ parts. (parts.0, exprs_view parts.1.now)) result ≡ as_call (expr_view e.now) }
{
    if let Expr::Call(function, arguments) = e {
        Some((*function, &**arguments))
    } else {
        None
    }
}
