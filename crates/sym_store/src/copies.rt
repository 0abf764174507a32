//! Copies of values.

ghost use Rattle.std.specs.Prelude.{◌≡◌, ◌++◌, ◌∷◌, [], IfOk, OnOk};

use bit_ops::SymValue;
use bit_words::Word;
use bit_words::ripples::joined;
use rvt_num::Memory;
use std::alloc::Global;

fn copy_word(alloc: Global, word: &Word) -> Result<Word, Memory>
    ensures { IfOk result (λ copy. copy ≡ word.now) }
{
    let bits = joined(alloc, &word.bits, &[])?;
    Ok(Word {
        kind: word.kind,
        bits,
    })
}

/// An equal value.
pub fn copy_value(alloc: Global, value: &SymValue) -> Result<SymValue, Memory>
    ensures { IfOk result (λ copy. copy ≡ value.now) }
{
    match value {
        SymValue::Word(word) => {
            let copy = copy_word(alloc, word)?;
            Ok(SymValue::Word(copy))
        }
        SymValue::Pointer(object, cell) => {
            let object = copy_word(alloc, object)?;
            let cell = copy_word(alloc, cell)?;
            Ok(SymValue::Pointer(object, cell))
        }
    }
}

pub fn copy_values(alloc: Global, values: &[SymValue]) -> Result<Vec<SymValue>, Memory>
    ensures { IfOk result (λ copies. copies.items ≡ values.now) }
{
    let mut copies = Vec::new(alloc);
    'values: for value in values {
        let copy = copy_value(alloc, value)?;
        push_value(&mut copies, copy)?;
    }
    Ok(copies)
}

pub fn push_value(values: &mut Vec<SymValue>, value: SymValue) -> Result<(), Memory>
    ensures { OnOk result (values.new.items ≡ values.old.items ++ value ∷ []) }
{
    match values.push(value) {
        Ok(()) => Ok(()),
        Err(_) => Err(Memory),
    }
}
