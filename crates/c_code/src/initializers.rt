//! The code of initializers (C 6.7.9).

ghost use Rattle.std.specs.Prelude.{◌≡◌, ◌+◌, ◌++◌, get_or, IfOk, OnOk};
ghost use Rattle.rvt_tree.specs.Syntax.{initial_value};
ghost use Rattle.rvt_tree.specs.Views.{expr_view, init_view, inits_view};
ghost use Rattle.c_code.specs.Initializers.{count_of, least, pad_code, cells_in, cells_in_members, initializer_code, members_code};

use crate::emitting::{next, put, sum};
use crate::expressions::value;
use crate::instructions::Instruction;
use rvt_tree::{Expr, Init, Inits, Variable};
use std::alloc::AllocError;
use std::marker::Model;

/// How many cells each local of a function and each object has.
#[derive(Drop)]
pub struct CellCounts {
    locals: Vec<u32>,
    objects: Vec<u32>,
}

impl Model for CellCounts {
    ghost use Rattle.c_code.specs.Initializers.{Counts};

    ghost Value = { Counts };

    ghost view = { λ counts. record { locals = counts.locals.items; objects = counts.objects.items } };
}

impl CellCounts {
    pub fn new(locals: Vec<u32>, objects: Vec<u32>) -> CellCounts
        ensures { result ≡ record { locals = locals.items; objects = objects.items } }
    {
        CellCounts { locals, objects }
    }

    /// How many cells a variable has, and 0 where there is none of its number.
    pub fn count(&self, variable: Variable) -> u32
        ensures { result ≡ count_of self.now variable }
    {
        match variable {
            Variable::Local(number) => count_at(self.locals.as_slice(), number),
            Variable::Object(number) => count_at(self.objects.as_slice(), number),
        }
    }
}

fn count_at(counts: &[u32], number: u32) -> u32
    ensures { result ≡ get_or counts.now number 0 }
{
    match counts.get(number as usize) {
        Some(count) => *count,
        None => 0,
    }
}

fn least(a: u32, b: u32) -> u32
    ensures { result ≡ least a b }
{
    if a <= b { a } else { b }
}

/// Zeros in place of cells, if there are any.
fn pad(code: &mut Vec<Instruction>, at: u32, count: u32, slot: u32) -> Result<(), AllocError>
    ensures { OnOk result (code.new.items ≡ code.old.items ++ pad_code at count slot) }
{
    if count == 0 {
        return Ok(());
    }
    put(code, Instruction::Pad(at, count, slot))
}

/// The cells in place of zeros from one on, so many, into the slots from one on. Gives the slot behind them.
#[cycle(initializer)]
pub fn initializer(
    code: &mut Vec<Instruction>,
    init: &Init,
    at: u32,
    size: u32,
    slot: u32,
) -> Result<u32, AllocError>
    ensures code { OnOk result (code.new.items ≡ code.old.items ++ initializer_code (init_view init.now) at size slot) }
    ensures next { IfOk result (λ next. next ≡ slot + cells_in (init_view init.now) size) }
{
    match init {
        Init::Value(e) => cell(code, e, at, size, slot),
        Init::Braces(list) => members(code, list, at, size, slot),
    }
}

/// A cell, and the zeros behind it.
fn cell(
    code: &mut Vec<Instruction>,
    e: &Expr,
    at: u32,
    size: u32,
    slot: u32,
) -> Result<u32, AllocError>
    ensures code { OnOk result (code.new.items ≡ code.old.items ++ initializer_code (initial_value (expr_view e.now)) at size slot) }
    ensures next { IfOk result (λ next. next ≡ slot + cells_in (initial_value (expr_view e.now)) size) }
{
    value(code, e, slot, 0)?;
    let others = size.saturating_sub(1);
    let behind = next(slot)?;
    pad(code, next(at)?, others, behind)?;
    sum(behind, others)
}

#[cycle(initializer)]
fn members(
    code: &mut Vec<Instruction>,
    list: &Inits,
    at: u32,
    size: u32,
    slot: u32,
) -> Result<u32, AllocError>
    ensures code { OnOk result (code.new.items ≡ code.old.items ++ members_code (inits_view list.now) at size slot) }
    ensures next { IfOk result (λ next. next ≡ slot + cells_in_members (inits_view list.now) size) }
{
    let mut left = list;
    let mut zero = at;
    let mut zeros = size;
    let mut to = slot;
    'members: while let Inits::More(init, own, rest) = left {
        to = initializer(code, init, zero, least(*own, zeros), to)?;
        zero = sum(zero, *own)?;
        zeros = zeros.saturating_sub(*own);
        left = rest;
    }
    pad(code, zero, zeros, to)?;
    sum(to, zeros)
}
