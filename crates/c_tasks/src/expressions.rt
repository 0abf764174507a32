//! Expressions: which tasks give their values and places (C 6.5).

ghost use Rattle.std.specs.Prelude.{◌≡◌, ◌+◌, ◌≤◌, OnOk};
ghost use Rattle.rvt_tree.specs.Syntax.{call};
ghost use Rattle.rvt_tree.specs.Views.{lvalue_view, expr_view, exprs_view};
ghost use Rattle.c_tasks.specs.Operands.{operands};
ghost use Rattle.c_tasks.specs.Tasks.{step, both, either, evaluating, locating, addressing, passing, Becomes, TasksBecome};
ghost use Rattle.c_tasks.specs.Weights.{task_weight, tasks_weight, expression_weight, lvalue_weight, arguments_weight};

use crate::tasks::{Binary, Task, Unary};
use crate::work::{Work, put};
use c_places::Location;
use rvt_num::{Kind, Num, UnOp, Value};
use rvt_tree::{Expr, Exprs, Lvalue, Pointee};
use std::alloc::AllocError;

/// The value of an operand, and then a task.
fn one<'a>(
    tasks: &mut Vec<Task<'a>>,
    then: Task<'a>,
    operand: &'a Box<Expr>,
) -> Result<(), AllocError>
    ensures next { OnOk result (TasksBecome (λ program d k. evaluating program d (expr_view operand.now.value) (step program d then.entry k)) tasks.old.items tasks.new.items) }
    ensures weight { OnOk result (tasks_weight tasks.new.items ≡ tasks_weight tasks.old.items + task_weight then.entry + (1 + expression_weight (expr_view operand.now.value))) }
{
    put(tasks, then)?;
    put(tasks, Task::Evaluate(operand))?;
    Ok(())
}

/// The values of two operands, and then an operation on them.
fn two<'a>(
    tasks: &mut Vec<Task<'a>>,
    operation: Binary,
    first: &'a Box<Expr>,
    second: &'a Box<Expr>,
) -> Result<(), AllocError>
    ensures next { OnOk result (TasksBecome (λ program d k. evaluating program d (expr_view first.now.value) (evaluating program d (expr_view second.now.value) (step program d (Task.Binary operation) k))) tasks.old.items tasks.new.items) }
    ensures weight { OnOk result (tasks_weight tasks.new.items ≡ tasks_weight tasks.old.items + 1 + (1 + expression_weight (expr_view second.now.value)) + (1 + expression_weight (expr_view first.now.value))) }
{
    put(tasks, Task::Binary(operation))?;
    put(tasks, Task::Evaluate(second))?;
    put(tasks, Task::Evaluate(first))?;
    Ok(())
}

/// The place of an lvalue, and then a task.
fn located<'a>(
    tasks: &mut Vec<Task<'a>>,
    then: Task<'a>,
    lvalue: &'a Box<Lvalue>,
) -> Result<(), AllocError>
    ensures next { OnOk result (TasksBecome (λ program d k. locating program d (lvalue_view lvalue.now.value) (step program d then.entry k)) tasks.old.items tasks.new.items) }
    ensures weight { OnOk result (tasks_weight tasks.new.items ≡ tasks_weight tasks.old.items + task_weight then.entry + (1 + lvalue_weight (lvalue_view lvalue.now.value))) }
{
    put(tasks, then)?;
    put(tasks, Task::Locate(lvalue))?;
    Ok(())
}

impl<'a> Work<'a> {
    /// The value of an expression is to come next.
    pub fn evaluate(&mut self, e: &'a Expr) -> Result<(), AllocError>
        ensures next { OnOk result (Becomes (λ program d. evaluating program d (expr_view e.now)) self.old self.new) }
        ensures weight { OnOk result (tasks_weight self.new.tasks.items ≤ tasks_weight self.old.tasks.items + expression_weight (expr_view e.now)) }
    {
        match e {
            Expr::Constant(number) => self.give(Value::Num(*number)),
            Expr::Null => self.give(Value::Null),
            Expr::Read(lvalue) => located(&mut self.tasks, Task::Load, lvalue),
            Expr::Address(lvalue) => put(&mut self.tasks, Task::Address(lvalue)),
            Expr::Decay(lvalue) => located(&mut self.tasks, Task::Point, lvalue),
            Expr::Cast(kind, a) => one(&mut self.tasks, Task::Unary(Unary::Convert(*kind)), a),
            Expr::Plus(a) => put(&mut self.tasks, Task::Evaluate(a)),
            Expr::Minus(a) => one(&mut self.tasks, Task::Unary(Unary::Number(UnOp::Minus)), a),
            Expr::Flip(a) => one(&mut self.tasks, Task::Unary(Unary::Number(UnOp::Flip)), a),
            Expr::Not(a) => one(&mut self.tasks, Task::Unary(Unary::Not), a),
            Expr::Binary(op, a, b) => two(&mut self.tasks, Binary::Numbers(*op), a, b),
            Expr::SamePointer(a, b) => two(&mut self.tasks, Binary::SamePointer, a, b),
            Expr::OtherPointer(a, b) => two(&mut self.tasks, Binary::OtherPointer, a, b),
            Expr::Forward(a, b, size) => two(&mut self.tasks, Binary::Forward(*size), a, b),
            Expr::ForwardFrom(a, b, size) => two(&mut self.tasks, Binary::ForwardFrom(*size), a, b),
            Expr::Backward(a, b, size) => two(&mut self.tasks, Binary::Backward(*size), a, b),
            Expr::Both(a, b) => one(&mut self.tasks, Task::And(b), a),
            Expr::Either(a, b) => one(&mut self.tasks, Task::Or(b), a),
            Expr::Choice(test, a, b) => one(&mut self.tasks, Task::Choose(a, b), test),
            Expr::Call(function, arguments) => self.call_with(*function, arguments),
        }
    }

    /// A call, after its arguments.
    fn call_with(&mut self, function: u32, arguments: &'a Box<Exprs>) -> Result<(), AllocError>
        ensures next { OnOk result (Becomes (λ program d. evaluating program d (call function (exprs_view arguments.now.value))) self.old self.new) }
        ensures weight { OnOk result (tasks_weight self.new.tasks.items ≡ tasks_weight self.old.tasks.items + 1 + (1 + arguments_weight (exprs_view arguments.now.value))) }
    {
        let height = self.values.len();
        put(&mut self.tasks, Task::Call(function, height))?;
        put(&mut self.tasks, Task::Arguments(arguments))?;
        Ok(())
    }

    /// The values of arguments are to come next, one after another.
    pub fn pass(&mut self, arguments: &'a Exprs) -> Result<(), AllocError>
        ensures next { OnOk result (Becomes (λ program d. passing program d (exprs_view arguments.now)) self.old self.new) }
        ensures weight { OnOk result (tasks_weight self.new.tasks.items ≤ tasks_weight self.old.tasks.items + arguments_weight (exprs_view arguments.now)) }
    {
        match arguments {
            Exprs::End => Ok(()),
            Exprs::More(e, rest) => {
                put(&mut self.tasks, Task::Arguments(rest))?;
                self.evaluate(e)
            }
        }
    }

    /// The place of an lvalue is to come next.
    pub fn locate(&mut self, lvalue: &'a Lvalue) -> Result<(), AllocError>
        ensures next { OnOk result (Becomes (λ program d. locating program d (lvalue_view lvalue.now)) self.old self.new) }
        ensures weight { OnOk result (tasks_weight self.new.tasks.items ≤ tasks_weight self.old.tasks.items + lvalue_weight (lvalue_view lvalue.now)) }
    {
        match lvalue {
            Lvalue::Variable(variable) => self.give_place(Location::new(*variable, 0)),
            Lvalue::Element(array, index, count, size) => {
                element(&mut self.tasks, Task::Element(*count, *size), array, index)
            }
            Lvalue::Member(aggregate, _, cell) => located(
                &mut self.tasks,
                Task::Member(*cell),
                aggregate,
            ),
            Lvalue::Target(pointer, pointee) => one(&mut self.tasks, Task::Aim(*pointee), pointer),
            Lvalue::Indexed(pointer, index, pointee, size) => {
                put(&mut self.tasks, Task::Aim(*pointee))?;
                two(&mut self.tasks, Binary::Forward(*size), pointer, index)
            }
            Lvalue::Arrow(pointer, structure, _, cell) => {
                put(&mut self.tasks, Task::Member(*cell))?;
                one(
                    &mut self.tasks,
                    Task::Aim(Pointee::Struct(*structure)),
                    pointer,
                )
            }
        }
    }

    /// The pointer to an lvalue is to come next.
    pub fn address(&mut self, lvalue: &'a Lvalue) -> Result<(), AllocError>
        ensures next { OnOk result (Becomes (λ program d. addressing program d (lvalue_view lvalue.now)) self.old self.new) }
        ensures weight { OnOk result (tasks_weight self.new.tasks.items ≤ tasks_weight self.old.tasks.items + lvalue_weight (lvalue_view lvalue.now)) }
    {
        match lvalue {
            Lvalue::Variable(variable) => self.give(Location::new(*variable, 0).pointer()),
            Lvalue::Element(array, index, _, size) => {
                element(&mut self.tasks, Task::ElementAddress(*size), array, index)
            }
            Lvalue::Member(aggregate, _, cell) => {
                put(&mut self.tasks, Task::Point)?;
                located(&mut self.tasks, Task::Member(*cell), aggregate)
            }
            Lvalue::Target(pointer, _) => put(&mut self.tasks, Task::Evaluate(pointer)),
            Lvalue::Indexed(pointer, index, _, size) => {
                two(&mut self.tasks, Binary::Forward(*size), pointer, index)
            }
            Lvalue::Arrow(pointer, structure, _, cell) => {
                put(&mut self.tasks, Task::Point)?;
                put(&mut self.tasks, Task::Member(*cell))?;
                one(
                    &mut self.tasks,
                    Task::Aim(Pointee::Struct(*structure)),
                    pointer,
                )
            }
        }
    }

    /// The right side of `&&`, if it counts.
    pub fn both(&mut self, left: bool, e: &'a Box<Expr>) -> Result<(), AllocError>
        ensures next { OnOk result (Becomes (λ program d. both program d left (expr_view e.now.value)) self.old self.new) }
        ensures weight { OnOk result (tasks_weight self.new.tasks.items ≤ tasks_weight self.old.tasks.items + 2 + expression_weight (expr_view e.now.value)) }
    {
        if left {
            one(&mut self.tasks, Task::Unary(Unary::Truth), e)
        } else {
            self.give(Value::Num(Num::wrapped(Kind::I32, 0)))
        }
    }

    /// The right side of `||`, if it counts.
    pub fn either(&mut self, left: bool, e: &'a Box<Expr>) -> Result<(), AllocError>
        ensures next { OnOk result (Becomes (λ program d. either program d left (expr_view e.now.value)) self.old self.new) }
        ensures weight { OnOk result (tasks_weight self.new.tasks.items ≤ tasks_weight self.old.tasks.items + 2 + expression_weight (expr_view e.now.value)) }
    {
        if left {
            self.give(Value::Num(Num::wrapped(Kind::I32, 1)))
        } else {
            one(&mut self.tasks, Task::Unary(Unary::Truth), e)
        }
    }
}

/// The place of an array and the value of an index, and then a task.
fn element<'a>(
    tasks: &mut Vec<Task<'a>>,
    then: Task<'a>,
    array: &'a Box<Lvalue>,
    index: &'a Box<Expr>,
) -> Result<(), AllocError>
    ensures next { OnOk result (TasksBecome (λ program d k. locating program d (lvalue_view array.now.value) (evaluating program d (expr_view index.now.value) (step program d then.entry k))) tasks.old.items tasks.new.items) }
    ensures weight { OnOk result (tasks_weight tasks.new.items ≡ tasks_weight tasks.old.items + task_weight then.entry + (1 + expression_weight (expr_view index.now.value)) + (1 + lvalue_weight (lvalue_view array.now.value))) }
{
    put(tasks, then)?;
    put(tasks, Task::Evaluate(index))?;
    put(tasks, Task::Locate(array))?;
    Ok(())
}
