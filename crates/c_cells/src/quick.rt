//! The operations by 64 bits, for the operands that programs mostly have.

ghost use Rattle.std.specs.Prelude.{◌≡◌, IfSome};
ghost use Rattle.rvt_num.specs.Kinds.{IsOf};
ghost use Rattle.rvt_num.specs.Operations.{unary_of};
ghost use Rattle.rvt_num.specs.declared.values.Value.TheVariants as V;
ghost use Rattle.c_meaning.specs.Expressions.{operated, truth_value};
ghost use Rattle.c_cells.specs.Contents.{numeral};

use crate::cells::Cell;
use rvt_num::{BinOp, Kind, UnOp};

/// 1 or 0, as an `int`.
pub fn truth_value(holds: bool) -> Cell
    ensures { result ≡ truth_value holds }
{
    Cell::wrapped(Kind::I32, if holds { 1 } else { 0 })
}

/// An operation on numbers that fit 64 bits with a sign; none where the exact value doesn't, or where the operation traps or is rare.
pub fn of_shorts(op: BinOp, kind: Kind, x: i64, other: Kind, y: i64) -> Option<Cell>
    requires left { IsOf kind x }
    requires right { IsOf other y }
    ensures { IfSome result (λ cell. operated op (numeral kind x) (numeral other y) ≡ Ok cell) }
{
    match op {
        BinOp::Add => Some(Cell::wrapped(kind, x.checked_add(y)?)),
        BinOp::Sub => Some(Cell::wrapped(kind, x.checked_sub(y)?)),
        BinOp::Mul => Some(Cell::wrapped(kind, x.checked_mul(y)?)),
        BinOp::Eq => Some(truth_value(x == y)),
        BinOp::Ne => Some(truth_value(x != y)),
        BinOp::Lt => Some(truth_value(x < y)),
        BinOp::Le => Some(truth_value(x <= y)),
        BinOp::Gt => Some(truth_value(y < x)),
        BinOp::Ge => Some(truth_value(y <= x)),
        BinOp::Div => quotient(kind, x, other, y),
        BinOp::Rem => remainder(kind, x, other, y),
        BinOp::And => conjunction(kind, x, other, y),
        BinOp::Or => disjunction(kind, x, other, y),
        BinOp::Xor => difference(kind, x, other, y),
        BinOp::Shl | BinOp::Shr => None,
    }
}

/// `x / y` for a y above 0.
fn quotient(kind: Kind, x: i64, other: Kind, y: i64) -> Option<Cell>
    ensures { IfSome result (λ cell. operated BinOp.Div (numeral kind x) (numeral other y) ≡ Ok cell) }
{
    if y <= 0 {
        return None;
    }
    Some(Cell::wrapped(kind, x / y))
}

/// `x % y` for a y above 0.
fn remainder(kind: Kind, x: i64, other: Kind, y: i64) -> Option<Cell>
    ensures { IfSome result (λ cell. operated BinOp.Rem (numeral kind x) (numeral other y) ≡ Ok cell) }
{
    if y <= 0 {
        return None;
    }
    Some(Cell::wrapped(kind, x % y))
}

/// `x & y` where neither is negative.
fn conjunction(kind: Kind, x: i64, other: Kind, y: i64) -> Option<Cell>
    requires left { IsOf kind x }
    requires right { IsOf other y }
    ensures { IfSome result (λ cell. operated BinOp.And (numeral kind x) (numeral other y) ≡ Ok cell) }
{
    if x < 0 || y < 0 {
        return None;
    }
    Some(Cell::wrapped(kind, x & y))
}

/// `x | y` where neither is negative.
fn disjunction(kind: Kind, x: i64, other: Kind, y: i64) -> Option<Cell>
    requires left { IsOf kind x }
    requires right { IsOf other y }
    ensures { IfSome result (λ cell. operated BinOp.Or (numeral kind x) (numeral other y) ≡ Ok cell) }
{
    if x < 0 || y < 0 {
        return None;
    }
    Some(Cell::wrapped(kind, x | y))
}

/// `x ^ y` where neither is negative.
fn difference(kind: Kind, x: i64, other: Kind, y: i64) -> Option<Cell>
    requires left { IsOf kind x }
    requires right { IsOf other y }
    ensures { IfSome result (λ cell. operated BinOp.Xor (numeral kind x) (numeral other y) ≡ Ok cell) }
{
    if x < 0 || y < 0 {
        return None;
    }
    Some(Cell::wrapped(kind, x ^ y))
}

/// `-x`, `~x` and `!x`; none where the exact value doesn't fit 64 bits.
pub fn of_short(op: UnOp, kind: Kind, x: i64) -> Option<Cell>
    ensures { IfSome result (λ cell. cell ≡ V.Num (unary_of op (record { kind = kind; value = x }))) }
{
    match op {
        UnOp::Minus => Some(Cell::wrapped(kind, 0i64.checked_sub(x)?)),
        UnOp::Flip => Some(Cell::wrapped(kind, -1 - x)),
        UnOp::IsZero => Some(truth_value(x == 0)),
    }
}
