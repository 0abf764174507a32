//! The operations on numbers of any kinds, by their exact values in 128 bits.

ghost use Rattle.std.specs.Prelude.{◌≡◌, ◌<◌, ◌^◌, ◌*ℤ◌, unsigned_abs, IfOk, IfErr, OnOk};
ghost use Rattle.rvt_num.specs.Kinds.{width};
ghost use Rattle.rvt_num.specs.Operations.{binary_of, unary_of, truth, quotient_overflows, division_trap, shift_trap};
ghost use Rattle.rvt_num.specs.Wrapping.{pattern_of, wrap, wrapped};

use rvt_num::{BinOp, Kind, Num, Trap, UnOp};

/// 1 where the test holds, else 0.
fn truth_number(holds: bool) -> Num
    ensures { result ≡ wrapped Kind.I32 (truth holds) }
{
    Num::wrapped(Kind::I32, if holds { 1 } else { 0 })
}

/// The value modulo 2 to the kind's width.
fn low_bits(kind: Kind, value: i128) -> u128
    ensures value { result ≡ pattern_of (width kind) value }
    ensures bound { result < 2 ^ width kind }
    ensures within { result < 2 ^ 64 }
{
    value.rem_euclid(1 << kind.width()) as u128
}

/// A number that a kind wraps to the same as the product.
fn product(kind: Kind, x: i128, y: i128) -> i128
    ensures { wrap kind result ≡ wrap kind (x *ℤ y) }
{
    if kind == Kind::Bool {
        return truth_product(x, y);
    }
    (low_bits(kind, x) * low_bits(kind, y) % (1 << 64)) as i128
}

/// 1 where neither factor is 0.
fn truth_product(x: i128, y: i128) -> i128
    ensures { wrap Kind.Bool result ≡ wrap Kind.Bool (x *ℤ y) }
{
    if x == 0 {
        0
    } else if y == 0 {
        0
    } else {
        1
    }
}

/// Whether the least number of a signed kind is divided by -1.
fn overflows(a: Num, b: Num) -> bool
    ensures { result ≡ quotient_overflows a b }
{
    a.kind().is_signed() & (a.value() == a.kind().least()) & (b.value() == -1)
}

/// The trap of `/` and `%`, if there is one.
fn division_traps(a: Num, b: Num) -> Result<(), Trap>
    ensures err { IfErr result (λ trap. division_trap a b ≡ Some trap) }
    ensures ok { OnOk result (division_trap a b ≡ None) }
{
    if b.value() == 0 {
        Err(Trap::Divide)
    } else if overflows(a, b) {
        Err(Trap::Quotient)
    } else {
        Ok(())
    }
}

/// The count of a shift, or the trap.
fn shift_count(a: Num, b: Num) -> Result<u32, Trap>
    ensures err { IfErr result (λ trap. shift_trap a b ≡ Some trap) }
    ensures ok { IfOk result (λ count. (shift_trap a b ≡ None) × (count ≡ unsigned_abs b.value) × (count < 64)) }
{
    if b.value() < 0 || b.value() >= a.kind().width() as i128 {
        return Err(Trap::Shift);
    }
    Ok(b.value() as u32)
}

/// What a binary operator gives: its value, or its trap.
pub fn binary(op: BinOp, a: Num, b: Num) -> Result<Num, Trap>
    ensures { result ≡ binary_of op a b }
{
    let (x, y) = (a.value(), b.value());
    let kind = a.kind();
    match op {
        BinOp::Add => Ok(Num::wrapped(kind, x + y)),
        BinOp::Sub => Ok(Num::wrapped(kind, x - y)),
        BinOp::Mul => Ok(Num::wrapped(kind, product(kind, x, y))),
        BinOp::Div => {
            division_traps(a, b)?;
            Ok(Num::wrapped(kind, x / y))
        }
        BinOp::Rem => {
            division_traps(a, b)?;
            Ok(Num::wrapped(kind, x % y))
        }
        BinOp::Shl => {
            let count = shift_count(a, b)?;
            Ok(Num::wrapped(kind, x * (1 << count)))
        }
        BinOp::Shr => {
            let count = shift_count(a, b)?;
            Ok(Num::wrapped(kind, x >> count))
        }
        BinOp::And => Ok(Num::wrapped(kind, (a.pattern() & b.pattern()) as i128)),
        BinOp::Or => Ok(Num::wrapped(kind, (a.pattern() | b.pattern()) as i128)),
        BinOp::Xor => Ok(Num::wrapped(kind, (a.pattern() ^ b.pattern()) as i128)),
        BinOp::Eq => Ok(truth_number(x == y)),
        BinOp::Ne => Ok(truth_number(x != y)),
        BinOp::Lt => Ok(truth_number(x < y)),
        BinOp::Le => Ok(truth_number(x <= y)),
        BinOp::Gt => Ok(truth_number(x > y)),
        BinOp::Ge => Ok(truth_number(x >= y)),
    }
}

/// What a unary operator gives.
pub fn unary(op: UnOp, a: Num) -> Num
    ensures { result ≡ unary_of op a }
{
    match op {
        UnOp::Minus => Num::wrapped(a.kind(), -a.value()),
        UnOp::Flip => Num::wrapped(a.kind(), -1 - a.value()),
        UnOp::IsZero => truth_number(a.value() == 0),
    }
}
