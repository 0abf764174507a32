//! One task at a time.

ghost use Rattle.std.specs.Prelude.{◌≡◌, ◌+◌, ◌≤◌, IfOk};
ghost use Rattle.c_tasks.specs.Tasks.{step};
ghost use Rattle.c_tasks.specs.Weights.{task_weight, tasks_weight};
ghost use Rattle.c_steps.specs.Steps.{Does, progress_weight};

use crate::choices::{both, branch, choose, either, select};
use crate::operands::{aim, binary, element, element_address, unary};
use crate::places::{fetch, load, member, point, store};
use crate::progress::{Progress, goes_on};
use crate::scopes::{initialize, leave_scope};
use crate::statements::part;
use c_control::{leave_switch, rest};
use c_initializers::{fill_members, pad};
use c_operations::number_of;
use c_places::{Cells, Layouts};
use c_tasks::{Manner, Task, Work};
use std::alloc::{AllocError, Global};

/// Does one task.
///
/// Want of memory also where a number of a cell would pass 2^32, and where an operator meets numbers of kinds for which
/// C has no such operation: a program that was read has none.
pub fn perform<'a>(
    alloc: Global,
    layouts: &Layouts,
    cells: &mut Cells,
    work: &mut Work<'a>,
    task: Task<'a>,
) -> Result<Progress<'a>, AllocError>
    ensures next { IfOk result (λ progress. Does layouts.now (λ d. step layouts.now d task.entry) work.old cells.old progress work.new cells.new) }
    ensures weight { IfOk result (λ progress. tasks_weight work.new.tasks.items + 1 + progress_weight progress ≤ tasks_weight work.old.tasks.items + task_weight task.entry) }
{
    match task {
        Task::Evaluate(e) => goes_on(work.evaluate(e)),
        Task::EvaluateSide(e) => goes_on(work.evaluate(e)),
        Task::Locate(lvalue) => goes_on(work.locate(lvalue)),
        Task::Address(lvalue) => goes_on(work.address(lvalue)),
        Task::Arguments(arguments) => goes_on(work.pass(arguments)),
        Task::Unary(op) => unary(layouts, work, op),
        Task::Binary(op) => binary(layouts, work, op),
        Task::And(e) => goes_on(both(work, e)),
        Task::Or(e) => goes_on(either(work, e)),
        Task::Choose(first, second) => goes_on(choose(work, first, second)),
        Task::Call(function, height) => Ok(Progress::Calls(function, height)),
        Task::Load => goes_on(load(layouts, cells, work)),
        Task::Fetch => goes_on(fetch(layouts, cells, work)),
        Task::Store => {
            store(layouts, cells, work);
            Ok(Progress::GoesOn)
        }
        Task::Point => goes_on(point(work)),
        Task::Aim(pointee) => aim(layouts, work, pointee),
        Task::Member(cell) => goes_on(member(work, cell)),
        Task::Element(count, size) => element(work, count, size),
        Task::ElementAddress(size) => element_address(layouts, work, size),
        Task::Discard => {
            work.take_value();
            Ok(Progress::GoesOn)
        }
        Task::Members(members, at, count) => goes_on(fill_members(work, members, at, count)),
        Task::Pad(at, count) => goes_on(pad(work, at, count)),
        Task::Initialize(variable, height) => goes_on(initialize(
            alloc, layouts, cells, work, variable, height,
        )),
        Task::Statement(which, s) => part(layouts, cells, work, which, s),
        Task::Block(body) => goes_on(work.block(body)),
        Task::Rest(body) => goes_on(rest(work, body)),
        Task::Leave(body) => {
            leave_scope(cells, body);
            Ok(Progress::GoesOn)
        }
        Task::Branch(first, second) => goes_on(branch(work, first, second)),
        Task::Select(groups) => goes_on(select(work, groups)),
        Task::LeaveSwitch => {
            leave_switch(work);
            Ok(Progress::GoesOn)
        }
        Task::Acts(acts) => goes_on(work.act_all(acts)),
        Task::Complete => {
            work.end(Manner::Normally);
            Ok(Progress::GoesOn)
        }
        Task::Return => {
            let value = work.take_value();
            Ok(Progress::Returns(Some(number_of(value))))
        }
    }
}
