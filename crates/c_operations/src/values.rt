//! Values as numbers, as conditions, and as pointers.

ghost use Rattle.std.specs.Prelude.{◌≡◌, ◌<◌, ◌^◌, not, pos, unsigned_abs};
ghost use Rattle.rvt_num.specs.Operations.{int_eq, truth};
ghost use Rattle.rvt_num.specs.Wrapping.{wrapped};
ghost use Rattle.rvt_num.specs.declared.values.Value.TheVariants.{Null, At};
ghost use Rattle.c_meaning.specs.Stores.{number_of, holds, same_pointer};
ghost use Rattle.c_meaning.specs.Expressions.{truth_value, times};

use rvt_num::{Kind, Num, Value};

/// The number of a value, 0 of a pointer.
pub fn number_of(value: Value) -> Num
    ensures { result ≡ number_of value }
{
    match value {
        Value::Num(number) => number,
        Value::Null => Num::wrapped(Kind::I32, 0),
        Value::At(_, _) => Num::wrapped(Kind::I32, 0),
    }
}

/// Whether a condition with this value holds.
pub fn holds(value: Value) -> bool
    ensures { result ≡ holds value }
{
    match value {
        Value::Num(number) => is_other_than_zero(number),
        Value::Null => false,
        Value::At(_, _) => true,
    }
}

fn is_other_than_zero(number: Num) -> bool
    ensures { result ≡ not (int_eq number.value (pos 0)) }
{
    number.value() != 0
}

/// 1 or 0, as an `int`.
pub fn truth_value(holds: bool) -> Value
    ensures { result ≡ truth_value holds }
{
    Value::Num(truth_number(holds))
}

/// The same as a number.
pub fn truth_number(holds: bool) -> Num
    ensures { result ≡ wrapped Kind.I32 (truth holds) }
{
    Num::wrapped(Kind::I32, if holds { 1 } else { 0 })
}

/// Both null, or one object and cell.
pub fn same_pointer(a: Value, b: Value) -> bool
    ensures { result ≡ same_pointer a b }
{
    match a {
        Value::Null => is_null(b),
        Value::At(object, cell) => is_at(b, object, cell),
        Value::Num(_) => false,
    }
}

fn is_null(value: Value) -> bool
    ensures { result ≡ same_pointer Null value }
{
    match value {
        Value::Null => true,
        Value::At(_, _) => false,
        Value::Num(_) => false,
    }
}

fn is_at(value: Value, object: u32, cell: u32) -> bool
    ensures { result ≡ same_pointer (At object cell) value }
{
    match value {
        Value::At(other, place) => object == other && cell == place,
        Value::Null => false,
        Value::Num(_) => false,
    }
}

/// A whole number of things of this size.
pub fn times(value: Value, size: u32) -> i128
    ensures value { result ≡ times value size }
    ensures small { unsigned_abs result < 2 ^ 96 }
{
    let number = number_of(value);
    let count = number.value();
    count * i128::from(size)
}
