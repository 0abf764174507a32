//! The zeros in place of what an initializer leaves out.

ghost use Rattle.std.specs.Prelude.{◌≡◌, ◌+◌, take, drop, OnOk, IfOk};
ghost use Rattle.c_tasks.specs.Operands.{operands, with_values, zeros_from};
ghost use Rattle.c_tasks.specs.Tasks.{TasksBecome};
ghost use Rattle.c_tasks.specs.Weights.{tasks_weight};

use c_tasks::{Task, Work, put};
use rvt_num::Value;
use std::alloc::AllocError;

/// Zeros from one on, so many, become values.
pub fn pad(work: &mut Work<'_>, at: usize, count: usize) -> Result<(), AllocError>
    ensures operands { OnOk result (operands work.new ≡ with_values (zeros_from at count (operands work.old)) (operands work.old)) }
    ensures tasks { OnOk result (work.new.tasks.items ≡ work.old.tasks.items) }
{
    let zeros = first(from(work.zeros.as_slice(), at), count);
    work.values.extend_from_slice(zeros)?;
    Ok(())
}

fn from(values: &[Value], at: usize) -> &[Value]
    ensures { result.now ≡ drop at values.now }
{
    if at < values.len() {
        &values[at..]
    } else {
        &[]
    }
}

fn first(values: &[Value], count: usize) -> &[Value]
    ensures { result.now ≡ take count values.now }
{
    if count < values.len() {
        &values[..count]
    } else {
        values
    }
}

/// The zeros after the first one are to come next.
pub fn pad_after<'a>(tasks: &mut Vec<Task<'a>>, at: usize, count: usize) -> Result<(), AllocError>
    ensures next { OnOk result (TasksBecome (λ program d next on. next (with_values (drop 1 (zeros_from at count on)) on)) tasks.old.items tasks.new.items) }
    ensures weight { OnOk result (tasks_weight tasks.new.items ≡ tasks_weight tasks.old.items + 1) }
{
    let after = sum(at, 1)?;
    put(tasks, Task::Pad(after, count.saturating_sub(1)))
}

/// Want of memory where the sum would pass 2^64.
pub fn sum(a: usize, b: usize) -> Result<usize, AllocError>
    ensures { IfOk result (λ c. c ≡ a + b) }
{
    if a > usize::MAX - b {
        return Err(AllocError);
    }
    Ok(a + b)
}
