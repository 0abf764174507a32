//! The code of what statements do (C 6.8.3).

ghost use Rattle.std.specs.Prelude.{◌≡◌, [], ◌∷◌, ◌++◌, OnOk};
ghost use Rattle.rvt_tree.specs.Views.{lvalue_view, expr_view, exprs_view, act_view, acts_view};
ghost use Rattle.c_code.specs.Expressions.{variable_of, place_code};
ghost use Rattle.c_code.specs.Acts.{discarding, calling, assigning, replacing, changing, act_code, acts_code};

use crate::emitting::put;
use crate::expressions::{arguments, locate, value, variable_of};
use crate::instructions::{Binary, Instruction, Unary};
use rvt_tree::{Act, Acts, Expr, Exprs, Lvalue};
use std::alloc::AllocError;

pub fn act(code: &mut Vec<Instruction>, act: &Act) -> Result<(), AllocError>
    ensures { OnOk result (code.new.items ≡ code.old.items ++ act_code (act_view act.now)) }
{
    match act {
        Act::Evaluate(e) => discard(code, e),
        Act::Call(function, list) => call(code, *function, list),
        Act::Discard(e) => discard(code, e),
        Act::DiscardCall(function, list) => call(code, *function, list),
        Act::Assign(lvalue, e) => assign(code, lvalue, e),
        Act::Update(op, lvalue, kind, e) => replace(code, Binary::Update(*op, *kind), lvalue, e),
        Act::Advance(lvalue, e, size) => replace(code, Binary::Forward(*size), lvalue, e),
        Act::Retreat(lvalue, e, size) => replace(code, Binary::Backward(*size), lvalue, e),
        Act::Bump(bump, lvalue) => change(code, Unary::Bump(*bump), lvalue),
        Act::BumpPointer(bump, lvalue, size) => {
            change(code, Unary::BumpPointer(*bump, *size), lvalue)
        }
    }
}

/// A value that nobody asks for.
fn discard(code: &mut Vec<Instruction>, e: &Expr) -> Result<(), AllocError>
    ensures { OnOk result (code.new.items ≡ code.old.items ++ discarding (expr_view e.now)) }
{
    value(code, e, 0, 0)?;
    put(code, Instruction::Discard(0))
}

fn call(code: &mut Vec<Instruction>, function: u32, list: &Exprs) -> Result<(), AllocError>
    ensures { OnOk result (code.new.items ≡ code.old.items ++ calling function (exprs_view list.now)) }
{
    let count = arguments(code, list, 0, 0)?;
    put(code, Instruction::Call(function, 0, count))?;
    put(code, Instruction::Discard(0))
}

fn assign(code: &mut Vec<Instruction>, lvalue: &Lvalue, e: &Expr) -> Result<(), AllocError>
    ensures { OnOk result (code.new.items ≡ code.old.items ++ assigning (variable_of (lvalue_view lvalue.now)) (place_code (lvalue_view lvalue.now) 0 0) (expr_view e.now)) }
{
    match variable_of(lvalue) {
        Some(variable) => {
            value(code, e, 0, 0)?;
            put(code, Instruction::Write(variable, 0))
        }
        None => {
            locate(code, lvalue, 0, 0)?;
            value(code, e, 0, 1)?;
            put(code, Instruction::Store(0, 0))
        }
    }
}

/// A place gets what is computed from what it holds and from the value of an expression.
fn replace(
    code: &mut Vec<Instruction>,
    compute: Binary,
    lvalue: &Lvalue,
    e: &Expr,
) -> Result<(), AllocError>
    ensures { OnOk result (code.new.items ≡ code.old.items ++ replacing (variable_of (lvalue_view lvalue.now)) (place_code (lvalue_view lvalue.now) 0 0) (expr_view e.now) compute) }
{
    match variable_of(lvalue) {
        Some(variable) => {
            put(code, Instruction::Read(variable, 0))?;
            value(code, e, 1, 0)?;
            put(code, Instruction::Binary(compute, 0))?;
            put(code, Instruction::Write(variable, 0))
        }
        None => {
            locate(code, lvalue, 0, 0)?;
            put(code, Instruction::Fetch(0, 0))?;
            value(code, e, 1, 1)?;
            put(code, Instruction::Binary(compute, 0))?;
            put(code, Instruction::Store(0, 0))
        }
    }
}

/// The same where nothing is evaluated.
fn change(code: &mut Vec<Instruction>, compute: Unary, lvalue: &Lvalue) -> Result<(), AllocError>
    ensures { OnOk result (code.new.items ≡ code.old.items ++ changing (variable_of (lvalue_view lvalue.now)) (place_code (lvalue_view lvalue.now) 0 0) compute) }
{
    match variable_of(lvalue) {
        Some(variable) => put(code, Instruction::Change(compute, variable)),
        None => {
            locate(code, lvalue, 0, 0)?;
            put(code, Instruction::Fetch(0, 0))?;
            put(code, Instruction::Unary(compute, 0))?;
            put(code, Instruction::Store(0, 0))
        }
    }
}

/// The last part of a `for` header.
pub fn acts(code: &mut Vec<Instruction>, list: &Acts) -> Result<(), AllocError>
    ensures { OnOk result (code.new.items ≡ code.old.items ++ acts_code (acts_view list.now)) }
{
    let mut left = list;
    'acts: while let Acts::More(first, rest) = left {
        act(code, first)?;
        left = rest;
    }
    Ok(())
}
