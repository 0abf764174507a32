//! Copies of values, and the literals that they are made of.

ghost use Rattle.std.specs.Prelude.{◌≡◌, ◌++◌, IfOk, OnOk};
ghost use Rattle.sym_values.specs.Values.{all_lits, lits_of};

use crate::answers::{Answer, AnswerShape};
use crate::fresh::push_value;
use aig_build::Lit;
use bit_ops::SymValue;
use bit_words::Word;
use bit_words::ripples::joined;
use rvt_num::Memory;
use std::alloc::Global;

fn copy_word(alloc: Global, word: &Word) -> Result<Word, Memory>
    ensures { IfOk result (λ copy. copy ≡ word.now) }
{
    let bits = joined(alloc, &word.bits, &[])?;
    Ok(Word {
        kind: word.kind,
        bits,
    })
}

fn copy_value(alloc: Global, value: &SymValue) -> Result<SymValue, Memory>
    ensures { IfOk result (λ copy. copy ≡ value.now) }
{
    match value {
        SymValue::Word(word) => {
            let copy = copy_word(alloc, word)?;
            Ok(SymValue::Word(copy))
        }
        SymValue::Pointer(object, cell) => {
            let object = copy_word(alloc, object)?;
            let cell = copy_word(alloc, cell)?;
            Ok(SymValue::Pointer(object, cell))
        }
    }
}

pub fn copy_values(alloc: Global, values: &[SymValue]) -> Result<Vec<SymValue>, Memory>
    ensures { IfOk result (λ copies. copies.items ≡ values.now) }
{
    let mut copies = Vec::new(alloc);
    'values: for value in values {
        let copy = copy_value(alloc, value)?;
        push_value(&mut copies, copy)?;
    }
    Ok(copies)
}

pub fn copy_answer(alloc: Global, answer: &Answer) -> Result<Answer, Memory>
    ensures { IfOk result (λ copy. copy ≡ answer.now) }
{
    let trap = match Vec::from_slice(alloc, &answer.trap) {
        Ok(trap) => trap,
        Err(_) => return Err(Memory),
    };
    let results = copy_values(alloc, &answer.results)?;
    let cells = copy_values(alloc, &answer.cells)?;
    Ok(Answer {
        trap,
        results,
        cells,
    })
}

pub fn copy_shape(alloc: Global, shape: &AnswerShape) -> Result<AnswerShape, Memory>
    ensures { IfOk result (λ copy. copy ≡ shape.now) }
{
    match (
        Vec::from_slice(alloc, &shape.traps),
        Vec::from_slice(alloc, &shape.results),
        Vec::from_slice(alloc, &shape.cells),
        Vec::from_slice(alloc, &shape.targets),
    ) {
        (Ok(traps), Ok(results), Ok(cells), Ok(targets)) => Ok(AnswerShape {
            traps,
            results,
            cells,
            targets,
        }),
        _ => Err(Memory),
    }
}

/// The literals of a list of values, in order.
pub fn key_lits(alloc: Global, values: &[SymValue]) -> Result<Vec<Lit>, Memory>
    ensures { IfOk result (λ lits. lits.items ≡ all_lits values.now) }
{
    let mut lits = Vec::new(alloc);
    'values: for value in values {
        push_lits(&mut lits, value)?;
    }
    Ok(lits)
}

fn push_lits(lits: &mut Vec<Lit>, value: &SymValue) -> Result<(), Memory>
    ensures { OnOk result (lits.new.items ≡ lits.old.items ++ lits_of value.now) }
{
    match value {
        SymValue::Word(word) => extend(lits, &word.bits),
        SymValue::Pointer(object, cell) => {
            extend(lits, &object.bits)?;
            extend(lits, &cell.bits)
        }
    }
}

fn extend(lits: &mut Vec<Lit>, more: &[Lit]) -> Result<(), Memory>
    ensures { OnOk result (lits.new.items ≡ lits.old.items ++ more.now) }
{
    match lits.extend_from_slice(more) {
        Ok(()) => Ok(()),
        Err(_) => Err(Memory),
    }
}
