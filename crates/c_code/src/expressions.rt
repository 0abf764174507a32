//! The code of expressions (C 6.5).

ghost use Rattle.std.specs.Prelude.{◌≡◌, ℕ, pos, suc, [], ◌∷◌, ◌++◌, IfOk, OnOk};
ghost use Rattle.rvt_tree.specs.Views.{lvalue_view, expr_view, exprs_view};
ghost use Rattle.c_code.specs.Expressions.{variable_of, argument_count, reading, choosing, truth_code, place_code, address_code, value_code, arguments_code};
ghost use Rattle.c_code.specs.declared.instructions.Unary.TheVariants as One;
ghost use Rattle.c_code.specs.declared.instructions.Instruction.TheVariants as I;

use crate::emitting::{begin_second, jump_over, leave_room, next, put};
use crate::instructions::{Binary, Instruction, Unary, When};
use rvt_num::{Kind, Num, UnOp};
use rvt_tree::{Expr, Exprs, Lvalue, Pointee, Variable};
use std::alloc::AllocError;

/// The variable that an lvalue is, if it is one.
pub fn variable_of(lvalue: &Lvalue) -> Option<Variable>
    ensures { result ≡ variable_of (lvalue_view lvalue.now) }
{
    match lvalue {
        Lvalue::Variable(variable) => Some(*variable),
        Lvalue::Element(_, _, _, _) => None,
        Lvalue::Member(_, _, _) => None,
        Lvalue::Target(_, _) => None,
        Lvalue::Indexed(_, _, _, _) => None,
        Lvalue::Arrow(_, _, _, _) => None,
    }
}

/// 1 or 0, as an `int`, into a slot.
pub fn truth(value: i128, to: u32) -> Instruction
    ensures { (n : ℕ) → value ≡ pos n → result ≡ truth_code n to }
{
    Instruction::Constant(Num::wrapped(Kind::I32, value), to)
}

/// The place of an lvalue into a slot for places, with the slots for values from another on.
#[cycle(value)]
pub fn locate(
    code: &mut Vec<Instruction>,
    lvalue: &Lvalue,
    slot: u32,
    to: u32,
) -> Result<(), AllocError>
    ensures { OnOk result (code.new.items ≡ code.old.items ++ place_code (lvalue_view lvalue.now) slot to) }
{
    match lvalue {
        Lvalue::Variable(variable) => put(code, Instruction::Place(*variable, to)),
        Lvalue::Element(array, index, count, size) => {
            locate(code, array, slot, to)?;
            value(code, index, slot, next(to)?)?;
            put(code, Instruction::Element(*count, *size, to, slot))
        }
        Lvalue::Member(aggregate, _, cell) => {
            locate(code, aggregate, slot, to)?;
            put(code, Instruction::Member(*cell, to))
        }
        Lvalue::Target(pointer, pointee) => {
            value(code, pointer, slot, to)?;
            put(code, Instruction::Aim(*pointee, to, slot))
        }
        Lvalue::Indexed(pointer, index, pointee, size) => {
            value(code, pointer, slot, to)?;
            value(code, index, next(slot)?, to)?;
            put(code, Instruction::Binary(Binary::Forward(*size), slot))?;
            put(code, Instruction::Aim(*pointee, to, slot))
        }
        Lvalue::Arrow(pointer, structure, _, cell) => {
            value(code, pointer, slot, to)?;
            put(
                code,
                Instruction::Aim(Pointee::Struct(*structure), to, slot),
            )?;
            put(code, Instruction::Member(*cell, to))
        }
    }
}

/// `&` of a place.
#[cycle(value)]
fn address(
    code: &mut Vec<Instruction>,
    lvalue: &Lvalue,
    slot: u32,
    to: u32,
) -> Result<(), AllocError>
    ensures { OnOk result (code.new.items ≡ code.old.items ++ address_code (lvalue_view lvalue.now) slot to) }
{
    match lvalue {
        Lvalue::Variable(variable) => {
            put(code, Instruction::Place(*variable, to))?;
            put(code, Instruction::Point(to, slot))
        }
        Lvalue::Element(array, index, _, size) => {
            locate(code, array, slot, to)?;
            value(code, index, slot, next(to)?)?;
            put(code, Instruction::ElementAddress(*size, to, slot))
        }
        Lvalue::Member(aggregate, _, cell) => {
            locate(code, aggregate, slot, to)?;
            put(code, Instruction::Member(*cell, to))?;
            put(code, Instruction::Point(to, slot))
        }
        Lvalue::Target(pointer, _) => value(code, pointer, slot, to),
        Lvalue::Indexed(pointer, index, _, size) => {
            value(code, pointer, slot, to)?;
            value(code, index, next(slot)?, to)?;
            put(code, Instruction::Binary(Binary::Forward(*size), slot))
        }
        Lvalue::Arrow(pointer, structure, _, cell) => {
            value(code, pointer, slot, to)?;
            put(
                code,
                Instruction::Aim(Pointee::Struct(*structure), to, slot),
            )?;
            put(code, Instruction::Member(*cell, to))?;
            put(code, Instruction::Point(to, slot))
        }
    }
}

/// The value of an expression into a slot, with the slots for places from another on.
#[cycle(value)]
pub fn value(code: &mut Vec<Instruction>, e: &Expr, to: u32, place: u32) -> Result<(), AllocError>
    ensures { OnOk result (code.new.items ≡ code.old.items ++ value_code (expr_view e.now) to place) }
{
    match e {
        Expr::Constant(number) => put(code, Instruction::Constant(*number, to)),
        Expr::Null => put(code, Instruction::Null(to)),
        Expr::Read(lvalue) => read(code, lvalue, to, place),
        Expr::Address(lvalue) => address(code, lvalue, to, place),
        Expr::Decay(lvalue) => decay(code, lvalue, to, place),
        Expr::Cast(kind, a) => one(code, Unary::Convert(*kind), a, to, place),
        Expr::Plus(a) => value(code, a, to, place),
        Expr::Minus(a) => one(code, Unary::Number(UnOp::Minus), a, to, place),
        Expr::Flip(a) => one(code, Unary::Number(UnOp::Flip), a, to, place),
        Expr::Not(a) => one(code, Unary::Not, a, to, place),
        Expr::Binary(op, a, b) => {
            value(code, a, to, place)?;
            second(code, Binary::Numbers(*op), b, to, place)
        }
        Expr::SamePointer(a, b) => {
            value(code, a, to, place)?;
            second(code, Binary::SamePointer, b, to, place)
        }
        Expr::OtherPointer(a, b) => {
            value(code, a, to, place)?;
            second(code, Binary::OtherPointer, b, to, place)
        }
        Expr::Forward(a, b, size) => {
            value(code, a, to, place)?;
            second(code, Binary::Forward(*size), b, to, place)
        }
        Expr::ForwardFrom(a, b, size) => {
            value(code, a, to, place)?;
            second(code, Binary::ForwardFrom(*size), b, to, place)
        }
        Expr::Backward(a, b, size) => {
            value(code, a, to, place)?;
            second(code, Binary::Backward(*size), b, to, place)
        }
        Expr::Both(a, b) => {
            value(code, a, to, place)?;
            both(code, b, to, place)
        }
        Expr::Either(a, b) => {
            value(code, a, to, place)?;
            either(code, b, to, place)
        }
        Expr::Choice(test, a, b) => {
            value(code, test, to, place)?;
            let first = leave_room(code)?;
            value(code, a, to, place)?;
            let second = begin_second(code, first, to)?;
            value(code, b, to, place)?;
            jump_over(code, second, When::Always);
            Ok(())
        }
        Expr::Call(function, list) => {
            let count = arguments(code, list, to, place)?;
            put(code, Instruction::Call(*function, to, count))
        }
    }
}

/// The value at a place.
#[cycle(value)]
fn read(
    code: &mut Vec<Instruction>,
    lvalue: &Box<Lvalue>,
    to: u32,
    at: u32,
) -> Result<(), AllocError>
    ensures { OnOk result (code.new.items ≡ code.old.items ++ reading (variable_of (lvalue_view lvalue.now.value)) to at (place_code (lvalue_view lvalue.now.value) to at)) }
{
    match variable_of(lvalue) {
        Some(variable) => put(code, Instruction::Read(variable, to)),
        None => {
            locate(code, lvalue, to, at)?;
            put(code, Instruction::Load(at, to))
        }
    }
}

/// The pointer to a place.
#[cycle(value)]
fn decay(
    code: &mut Vec<Instruction>,
    lvalue: &Box<Lvalue>,
    to: u32,
    at: u32,
) -> Result<(), AllocError>
    ensures { OnOk result (code.new.items ≡ code.old.items ++ (place_code (lvalue_view lvalue.now.value) to at ++ I.Point at to ∷ [])) }
{
    locate(code, lvalue, to, at)?;
    put(code, Instruction::Point(at, to))
}

/// An operation on the value of an expression.
#[cycle(value)]
fn one(
    code: &mut Vec<Instruction>,
    operation: Unary,
    a: &Box<Expr>,
    to: u32,
    place: u32,
) -> Result<(), AllocError>
    ensures { OnOk result (code.new.items ≡ code.old.items ++ (value_code (expr_view a.now.value) to place ++ I.Unary operation to ∷ [])) }
{
    value(code, a, to, place)?;
    put(code, Instruction::Unary(operation, to))
}

/// The value of a second operand, and an operation on both.
#[cycle(value)]
fn second(
    code: &mut Vec<Instruction>,
    operation: Binary,
    b: &Box<Expr>,
    to: u32,
    place: u32,
) -> Result<(), AllocError>
    ensures { OnOk result (code.new.items ≡ code.old.items ++ (value_code (expr_view b.now.value) (suc to) place ++ I.Binary operation to ∷ [])) }
{
    value(code, b, next(to)?, place)?;
    put(code, Instruction::Binary(operation, to))
}

/// The right side of `&&`, where the left one holds.
#[cycle(value)]
fn both(code: &mut Vec<Instruction>, b: &Box<Expr>, to: u32, place: u32) -> Result<(), AllocError>
    ensures { OnOk result (code.new.items ≡ code.old.items ++ choosing to (value_code (expr_view b.now.value) to place ++ I.Unary One.Truth to ∷ []) (truth_code 0 to ∷ [])) }
{
    let first = leave_room(code)?;
    one(code, Unary::Truth, b, to, place)?;
    let second = begin_second(code, first, to)?;
    put(code, truth(0, to))?;
    jump_over(code, second, When::Always);
    Ok(())
}

/// The right side of `||`, where the left one does not hold.
#[cycle(value)]
fn either(code: &mut Vec<Instruction>, b: &Box<Expr>, to: u32, place: u32) -> Result<(), AllocError>
    ensures { OnOk result (code.new.items ≡ code.old.items ++ choosing to (truth_code 1 to ∷ []) (value_code (expr_view b.now.value) to place ++ I.Unary One.Truth to ∷ [])) }
{
    let first = leave_room(code)?;
    put(code, truth(1, to))?;
    let second = begin_second(code, first, to)?;
    one(code, Unary::Truth, b, to, place)?;
    jump_over(code, second, When::Always);
    Ok(())
}

/// The value of each argument, from a slot on. Gives how many there are.
#[cycle(value)]
pub fn arguments(
    code: &mut Vec<Instruction>,
    list: &Exprs,
    to: u32,
    place: u32,
) -> Result<u32, AllocError>
    ensures code { OnOk result (code.new.items ≡ code.old.items ++ arguments_code (exprs_view list.now) to place) }
    ensures count { IfOk result (λ count. count ≡ argument_count (exprs_view list.now)) }
{
    let mut left = list;
    let mut slot = to;
    let mut count = 0;
    'arguments: while let Exprs::More(e, rest) = left {
        value(code, e, slot, place)?;
        slot = next(slot)?;
        count = next(count)?;
        left = rest;
    }
    Ok(count)
}
