//! Operations on numbers.

ghost use Rattle.std.specs.Prelude.{◌≡◌, IfOk, pos};
ghost use Rattle.std.specs.Bool.{OnTrue};
ghost use Rattle.rvt_num.specs.Kinds.{promoted_kind};
ghost use Rattle.rvt_num.specs.Operations.{Operands, binary_of, unary_of, is_shift};
ghost use Rattle.c_meaning.specs.Expressions.{operated};
ghost use Rattle.c_meaning.specs.Statements.{updated, bumped, operation, direction};

use crate::values::{number_of, truth_number};
use rvt_num::{BinOp, Kind, Num, Trap, UnOp, Value, binary, convert, promoted};
use rvt_tree::Bump;
use std::alloc::AllocError;

/// Whether an operation has operands of these kinds: promoted ones, and of one kind unless it is a shift.
fn are_operands(op: BinOp, a: Num, b: Num) -> bool
    ensures { OnTrue result (Operands op a b) }
{
    if !is_promoted(a.kind()) {
        return false;
    }
    if !is_promoted(b.kind()) {
        return false;
    }
    if is_shift(op) {
        return true;
    }
    are_one_kind(a.kind(), b.kind())
}

fn is_shift(op: BinOp) -> bool
    ensures { result ≡ is_shift op }
{
    match op {
        BinOp::Shl | BinOp::Shr => true,
        _ => false,
    }
}

fn are_one_kind(a: Kind, b: Kind) -> bool
    ensures { OnTrue result (a ≡ b) }
{
    a == b
}

fn is_promoted(kind: Kind) -> bool
    ensures { OnTrue result (promoted_kind kind ≡ kind) }
{
    match kind {
        Kind::I32 | Kind::U32 | Kind::I64 | Kind::U64 => true,
        _ => false,
    }
}

/// Want of memory for operands of other kinds than the operation has.
fn computed(op: BinOp, a: Num, b: Num) -> Result<Result<Num, Trap>, AllocError>
    ensures { IfOk result (λ number. number ≡ binary_of op a b) }
{
    if !are_operands(op, a, b) {
        return Err(AllocError);
    }
    Ok(binary(op, a, b))
}

/// An operation on the numbers of two values.
///
/// Want of memory also for numbers of kinds for which C has no such operation: a program that was read has none.
pub fn operated(op: BinOp, a: Value, b: Value) -> Result<Result<Value, Trap>, AllocError>
    ensures { IfOk result (λ value. value ≡ operated op a b) }
{
    let number = computed(op, number_of(a), number_of(b))?;
    match number {
        Ok(number) => Ok(Ok(Value::Num(number))),
        Err(trap) => Ok(Err(trap)),
    }
}

/// `-a`, `~a` and `!a`.
pub fn unary_number(op: UnOp, a: Num) -> Num
    ensures { result ≡ unary_of op a }
{
    match op {
        UnOp::Minus => Num::wrapped(a.kind(), -a.value()),
        UnOp::Flip => Num::wrapped(a.kind(), -1 - a.value()),
        UnOp::IsZero => truth_number(a.value() == 0),
    }
}

/// `x op= e`: computed in a kind and converted back to that of x. Want of memory as for `operated`.
pub fn updated(
    op: BinOp,
    kind: Kind,
    old: Value,
    value: Value,
) -> Result<Result<Value, Trap>, AllocError>
    ensures { IfOk result (λ new. new ≡ updated op kind old value) }
{
    let old = number_of(old);
    let number = computed(op, convert(kind, old), number_of(value))?;
    match number {
        Ok(number) => Ok(Ok(Value::Num(convert(old.kind(), number)))),
        Err(trap) => Ok(Err(trap)),
    }
}

/// `++` and `--` of an integer. Want of memory as for `operated`.
pub fn bumped(bump: Bump, old: Value) -> Result<Result<Value, Trap>, AllocError>
    ensures { IfOk result (λ new. new ≡ bumped bump old) }
{
    let old = number_of(old);
    let kind = promoted(old.kind());
    let one = Value::Num(Num::wrapped(kind, 1));
    let new = updated(operation(bump), kind, Value::Num(old), one)?;
    Ok(new)
}

fn operation(bump: Bump) -> BinOp
    ensures { result ≡ operation bump }
{
    match bump {
        Bump::UpAfter | Bump::UpBefore => BinOp::Add,
        Bump::DownAfter | Bump::DownBefore => BinOp::Sub,
    }
}

/// Forward or backward by so much.
pub fn direction(bump: Bump, by: u32) -> i128
    ensures { result ≡ direction bump (pos by) }
{
    match bump {
        Bump::UpAfter | Bump::UpBefore => i128::from(by),
        Bump::DownAfter | Bump::DownBefore => -i128::from(by),
    }
}
