ghost use Rattle.std.specs.Prelude.{◌≡◌, ◌+◌, IfOk};
ghost use Rattle.sym_constants.specs.Constants.{constant_value, number_lits, number_word, zero_value};

use aig_build::Lit;
use bit_ops::SymValue;
use bit_words::Word;
use bit_words::ripples::push;
use core_ir::Shape;
use rvt_num::{Kind, Memory, Num, Value};
use std::alloc::Global;

/// The value made of constant literals.
pub fn constant(alloc: Global, value: Value) -> Result<SymValue, Memory>
    ensures { IfOk result (λ constant. constant ≡ constant_value value) }
{
    match value {
        Value::Num(number) => {
            let word = word_of(alloc, number.kind(), number.pattern() as u64)?;
            Ok(SymValue::Word(word))
        }
        Value::Null => {
            let value = pointer_of(alloc, 0, 0)?;
            Ok(value)
        }
        Value::At(object, cell) => {
            let value = pointer_of(alloc, object as u64 + 1, cell as u64)?;
            Ok(value)
        }
    }
}

/// Zero, or null.
pub fn zero(alloc: Global, shape: Shape) -> Result<SymValue, Memory>
    ensures { IfOk result (λ zero. zero ≡ zero_value shape) }
{
    match shape {
        Shape::Word(kind) => {
            let word = word_of(alloc, kind, 0)?;
            Ok(SymValue::Word(word))
        }
        Shape::Pointer(_, _) => {
            let value = pointer_of(alloc, 0, 0)?;
            Ok(value)
        }
    }
}

fn pointer_of(alloc: Global, object: u64, cell: u64) -> Result<SymValue, Memory>
    ensures { IfOk result (λ value. value ≡ SymValue.Pointer (number_word Kind.U32 object) (number_word Kind.U32 cell)) }
{
    let object = word_of(alloc, Kind::U32, object)?;
    let cell = word_of(alloc, Kind::U32, cell)?;
    Ok(SymValue::Pointer(object, cell))
}

/// The word with the lowest bits of a number.
fn word_of(alloc: Global, kind: Kind, number: u64) -> Result<Word, Memory>
    ensures { IfOk result (λ word. word ≡ number_word kind number) }
{
    let bits = bits_of(alloc, kind.width(), number)?;
    Ok(Word { kind, bits })
}

/// The lowest bits of a number as constant literals.
fn bits_of(alloc: Global, width: u32, number: u64) -> Result<Vec<Lit>, Memory>
    ensures { IfOk result (λ bits. bits.items ≡ number_lits width number) }
{
    let mut bits = Vec::new(alloc);
    let mut rest = number;
    'bits: for _ in 0..width {
        push(&mut bits, Lit::constant(rest % 2 == 1))?;
        rest /= 2;
    }
    Ok(bits)
}
