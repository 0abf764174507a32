//! The cells of initializers, where zeros stand in place of those that they leave out.

ghost use Rattle.std.specs.Prelude.{◌≡◌, ◌+◌, ◌≤◌, OnOk};
ghost use Rattle.rvt_tree.specs.Syntax.{initial_value, initializer};
ghost use Rattle.rvt_tree.specs.Views.{expr_view, init_view, inits_view};
ghost use Rattle.c_tasks.specs.Tasks.{filling, filling_members, Becomes};
ghost use Rattle.c_tasks.specs.Weights.{tasks_weight, expression_weight, initializer_weight, members_weight};

use crate::zeros::{pad_after, sum};
use c_tasks::{Task, Work, put};
use rvt_tree::{Expr, Init, Inits};
use std::alloc::AllocError;

/// The cells that an initializer gives are to come next, in place of so many zeros from one on.
/// Want of memory also where the number of a zero would pass 2^64.
pub fn fill<'a>(
    work: &mut Work<'a>,
    init: &'a Init,
    at: usize,
    count: usize,
) -> Result<(), AllocError>
    ensures next { OnOk result (Becomes (λ program d. filling program d (init_view init.now) at count) work.old work.new) }
    ensures weight { OnOk result (tasks_weight work.new.tasks.items ≤ tasks_weight work.old.tasks.items + initializer_weight (init_view init.now)) }
{
    match init {
        Init::Value(e) => fill_cell(work, e, at, count),
        Init::Braces(members) => put(&mut work.tasks, Task::Members(members, at, count)),
    }
}

/// A cell, and the zeros after it.
fn fill_cell<'a>(
    work: &mut Work<'a>,
    e: &'a Expr,
    at: usize,
    count: usize,
) -> Result<(), AllocError>
    ensures next { OnOk result (Becomes (λ program d. filling program d (initial_value (expr_view e.now)) at count) work.old work.new) }
    ensures weight { OnOk result (tasks_weight work.new.tasks.items ≤ tasks_weight work.old.tasks.items + 1 + expression_weight (expr_view e.now)) }
{
    pad_after(&mut work.tasks, at, count)?;
    work.evaluate(e)
}

/// The cells of members are to come next, in place of so many zeros from one on.
/// Want of memory also where the number of a zero would pass 2^64.
pub fn fill_members<'a>(
    work: &mut Work<'a>,
    members: &'a Inits,
    at: usize,
    count: usize,
) -> Result<(), AllocError>
    ensures next { OnOk result (Becomes (λ program d. filling_members program d (inits_view members.now) at count) work.old work.new) }
    ensures weight { OnOk result (tasks_weight work.new.tasks.items ≤ tasks_weight work.old.tasks.items + members_weight (inits_view members.now)) }
{
    match members {
        Inits::End => put(&mut work.tasks, Task::Pad(at, count)),
        Inits::More(init, size, rest) => fill_first(work, init, *size, rest, at, count),
    }
}

/// The first member, and then the rest.
fn fill_first<'a>(
    work: &mut Work<'a>,
    init: &'a Init,
    size: u32,
    rest: &'a Box<Inits>,
    at: usize,
    count: usize,
) -> Result<(), AllocError>
    ensures next { OnOk result (Becomes (λ program d. filling_members program d (initializer (init_view init.now) size (inits_view rest.now.value)) at count) work.old work.new) }
    ensures weight { OnOk result (tasks_weight work.new.tasks.items ≤ tasks_weight work.old.tasks.items + 2 + initializer_weight (init_view init.now) + members_weight (inits_view rest.now.value)) }
{
    let size = size as usize;
    if size < count {
        fill_member(work, init, size, rest, at, count)
    } else {
        fill_last(work, init, size, rest, at, count)
    }
}

/// A member, where there are zeros for it and for others.
fn fill_member<'a>(
    work: &mut Work<'a>,
    init: &'a Init,
    size: usize,
    rest: &'a Box<Inits>,
    at: usize,
    count: usize,
) -> Result<(), AllocError>
    requires { size ≤ count }
    ensures next { OnOk result (Becomes (λ program d. filling_members program d (initializer (init_view init.now) size (inits_view rest.now.value)) at count) work.old work.new) }
    ensures weight { OnOk result (tasks_weight work.new.tasks.items ≤ tasks_weight work.old.tasks.items + 1 + initializer_weight (init_view init.now) + members_weight (inits_view rest.now.value)) }
{
    let after = sum(at, size)?;
    put(&mut work.tasks, Task::Members(rest, after, count - size))?;
    fill(work, init, at, size)
}

/// A member that takes all zeros.
fn fill_last<'a>(
    work: &mut Work<'a>,
    init: &'a Init,
    size: usize,
    rest: &'a Box<Inits>,
    at: usize,
    count: usize,
) -> Result<(), AllocError>
    requires { count ≤ size }
    ensures next { OnOk result (Becomes (λ program d. filling_members program d (initializer (init_view init.now) size (inits_view rest.now.value)) at count) work.old work.new) }
    ensures weight { OnOk result (tasks_weight work.new.tasks.items ≤ tasks_weight work.old.tasks.items + 1 + initializer_weight (init_view init.now) + members_weight (inits_view rest.now.value)) }
{
    put(&mut work.tasks, Task::Members(rest, at, 0))?;
    fill(work, init, at, count)
}
