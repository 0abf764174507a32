//! What the operations of tasks compute.

ghost use Rattle.std.specs.Prelude.{◌≡◌, IfOk};
ghost use Rattle.c_tasks.specs.Tasks.{unary_result, binary_result};

use c_operations::{
    bumped, direction, holds, number_of, operated, same_pointer, times, truth_value, unary_number,
    updated,
};
use c_places::Layouts;
use c_tasks::{Binary, Unary};
use rvt_num::{Trap, Value, convert};
use std::alloc::AllocError;

/// What is computed from one value.
///
/// Want of memory also for a number of a kind for which C has no such operation: a program that was read has none.
pub fn unary_result(
    layouts: &Layouts,
    op: Unary,
    v: Value,
) -> Result<Result<Value, Trap>, AllocError>
    ensures { IfOk result (λ computed. computed ≡ unary_result layouts.now op v) }
{
    match op {
        Unary::Convert(kind) => Ok(Ok(Value::Num(convert(kind, number_of(v))))),
        Unary::Number(op) => Ok(Ok(Value::Num(unary_number(op, number_of(v))))),
        Unary::Not => Ok(Ok(truth_value(!holds(v)))),
        Unary::Truth => Ok(Ok(truth_value(holds(v)))),
        Unary::Bump(bump) => {
            let computed = bumped(bump, v)?;
            Ok(computed)
        }
        Unary::BumpPointer(bump, size) => Ok(layouts.moved(v, direction(bump, size))),
    }
}

/// What is computed from two values.
///
/// Want of memory also for numbers of kinds for which C has no such operation: a program that was read has none.
pub fn binary_result(
    layouts: &Layouts,
    op: Binary,
    v: Value,
    w: Value,
) -> Result<Result<Value, Trap>, AllocError>
    ensures { IfOk result (λ computed. computed ≡ binary_result layouts.now op v w) }
{
    match op {
        Binary::Numbers(op) => {
            let computed = operated(op, v, w)?;
            Ok(computed)
        }
        Binary::SamePointer => Ok(Ok(truth_value(same_pointer(v, w)))),
        Binary::OtherPointer => Ok(Ok(truth_value(!same_pointer(v, w)))),
        Binary::Forward(size) => Ok(layouts.moved(v, times(w, size))),
        Binary::ForwardFrom(size) => Ok(layouts.moved(w, times(v, size))),
        Binary::Backward(size) => Ok(layouts.moved(v, -times(w, size))),
        Binary::Update(op, kind) => {
            let computed = updated(op, kind, v, w)?;
            Ok(computed)
        }
    }
}
