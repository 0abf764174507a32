//! Tasks on values: the operators (C 6.5).

ghost use Rattle.std.specs.Prelude.{◌≡◌, ◌+◌, IfOk};
ghost use Rattle.rvt_tree.specs.declared.programs.Program.{Program};
ghost use Rattle.c_meaning.specs.Outcomes.{and_then, unless_trapped};
ghost use Rattle.c_tasks.specs.Operands.{with_value, with_place};
ghost use Rattle.c_tasks.specs.Tasks.{step};
ghost use Rattle.c_tasks.specs.Weights.{tasks_weight};
ghost use Rattle.c_tasks.specs.declared.tasks.Task.TheVariants as T;
ghost use Rattle.c_steps.specs.Steps.{WorkDoes, progress_weight};

use crate::progress::Progress;
use crate::results::{binary_result, unary_result};
use c_operations::{number_of, times};
use c_places::{Layouts, Location};
use c_tasks::{Binary, Unary, Work};
use rvt_num::{Trap, Value};
use rvt_tree::Pointee;
use std::alloc::AllocError;

/// A value for the tasks that wait, or a trap.
fn give_or_trap<'a>(
    work: &mut Work<'a>,
    computed: Result<Value, Trap>,
) -> Result<Progress<'a>, AllocError>
    ensures next { IfOk result (λ progress. (program : Program) → WorkDoes program (λ d next on. and_then (unless_trapped computed) (λ v. next (with_value v on))) work.old progress work.new) }
    ensures light { IfOk result (λ progress. tasks_weight work.new.tasks.items + progress_weight progress ≡ tasks_weight work.old.tasks.items) }
{
    match computed {
        Ok(value) => {
            work.give(value)?;
            Ok(Progress::GoesOn)
        }
        Err(trap) => Ok(Progress::Traps(trap)),
    }
}

/// A place for the tasks that wait, or a trap.
fn give_place_or_trap<'a>(
    work: &mut Work<'a>,
    computed: Result<Location, Trap>,
) -> Result<Progress<'a>, AllocError>
    ensures next { IfOk result (λ progress. (program : Program) → WorkDoes program (λ d next on. and_then (unless_trapped computed) (λ place. next (with_place place on))) work.old progress work.new) }
    ensures light { IfOk result (λ progress. tasks_weight work.new.tasks.items + progress_weight progress ≡ tasks_weight work.old.tasks.items) }
{
    match computed {
        Ok(place) => {
            work.give_place(place)?;
            Ok(Progress::GoesOn)
        }
        Err(trap) => Ok(Progress::Traps(trap)),
    }
}

pub fn unary<'a>(
    layouts: &Layouts,
    work: &mut Work<'a>,
    op: Unary,
) -> Result<Progress<'a>, AllocError>
    ensures next { IfOk result (λ progress. WorkDoes layouts.now (λ d. step layouts.now d (T.Unary op)) work.old progress work.new) }
    ensures light { IfOk result (λ progress. tasks_weight work.new.tasks.items + progress_weight progress ≡ tasks_weight work.old.tasks.items) }
{
    let value = work.take_value();
    let computed = unary_result(layouts, op, value)?;
    give_or_trap(work, computed)
}

pub fn binary<'a>(
    layouts: &Layouts,
    work: &mut Work<'a>,
    op: Binary,
) -> Result<Progress<'a>, AllocError>
    ensures next { IfOk result (λ progress. WorkDoes layouts.now (λ d. step layouts.now d (T.Binary op)) work.old progress work.new) }
    ensures light { IfOk result (λ progress. tasks_weight work.new.tasks.items + progress_weight progress ≡ tasks_weight work.old.tasks.items) }
{
    let right = work.take_value();
    let left = work.take_value();
    let computed = binary_result(layouts, op, left, right)?;
    give_or_trap(work, computed)
}

/// The place to which a pointer points.
pub fn aim<'a>(
    layouts: &Layouts,
    work: &mut Work<'a>,
    pointee: Pointee,
) -> Result<Progress<'a>, AllocError>
    ensures next { IfOk result (λ progress. WorkDoes layouts.now (λ d. step layouts.now d (T.Aim pointee)) work.old progress work.new) }
    ensures light { IfOk result (λ progress. tasks_weight work.new.tasks.items + progress_weight progress ≡ tasks_weight work.old.tasks.items) }
{
    let pointer = work.take_value();
    let place = layouts.target(pointee, pointer);
    give_place_or_trap(work, place)
}

/// The place of an element.
pub fn element<'a>(work: &mut Work<'a>, count: u32, size: u32) -> Result<Progress<'a>, AllocError>
    ensures next { IfOk result (λ progress. (program : Program) → WorkDoes program (λ d. step program d (T.Element count size)) work.old progress work.new) }
    ensures light { IfOk result (λ progress. tasks_weight work.new.tasks.items + progress_weight progress ≡ tasks_weight work.old.tasks.items) }
{
    let index = work.take_value();
    let array = work.take_place();
    let place = array.element(number_of(index).value(), count, size)?;
    give_place_or_trap(work, place)
}

/// The pointer to an element.
pub fn element_address<'a>(
    layouts: &Layouts,
    work: &mut Work<'a>,
    size: u32,
) -> Result<Progress<'a>, AllocError>
    ensures next { IfOk result (λ progress. WorkDoes layouts.now (λ d. step layouts.now d (T.ElementAddress size)) work.old progress work.new) }
    ensures light { IfOk result (λ progress. tasks_weight work.new.tasks.items + progress_weight progress ≡ tasks_weight work.old.tasks.items) }
{
    let index = work.take_value();
    let array = work.take_place();
    let pointer = layouts.moved(array.pointer(), times(index, size));
    give_or_trap(work, pointer)
}
