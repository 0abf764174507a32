ghost use Rattle.std.specs.Prelude.{◌≡◌, ◌<◌, ◌/◌, ◌%◌, Bool, List, false, pos, length, unsigned_abs, IfOk};
ghost use Rattle.aig_build.specs.Circuits.{Grows, lit_value};
ghost use Rattle.rvt_num.specs.Kinds.{is_signed, promoted_kind};
ghost use Rattle.rvt_num.specs.Operations.{int_eq, number_of};
ghost use Rattle.rvt_num.specs.Wrapping.{bits_of, reading};
ghost use Rattle.bit_words.specs.Words.{AreThere, word_number};
ghost use Rattle.bit_ops.specs.Built.{division_built, magnitudes_built, patterns_built, signed_built};
ghost use Rattle.bit_ops.specs.Signs.{signed_number};

use crate::divisions::quotient;
use crate::shifts::sign;
use aig_build::{Circuit, Lit};
use bit_words::gates::xor;
use bit_words::places::select;
use bit_words::ripples::joined;
use bit_words::{Word, word_negative};
use rvt_num::{BinOp, Memory};
use std::alloc::Global;

pub fn has_sign(a: &Word) -> bool
    ensures { result ≡ is_signed a.now.kind }
{
    a.kind.is_signed()
}

fn copied(alloc: Global, a: &Word) -> Result<Word, Memory>
    ensures { IfOk result (λ r. r ≡ a.now) }
{
    let bits = joined(alloc, &a.bits, &[])?;
    Ok(Word { kind: a.kind, bits })
}

/// The opposite of a word of a signed kind where the literal is true, else the word.
fn signed_as(alloc: Global, circuit: &mut Circuit, negative: Lit, a: &Word) -> Result<Word, Memory>
    requires negative_is_there { negative.node < length circuit.old }
    requires a_is_there { AreThere circuit.old a.now.bits }
    requires promoted { promoted_kind a.now.kind ≡ a.now.kind }
    ensures built { IfOk result (λ r. signed_built circuit.old negative a.now ≡ record { nodes = circuit.new; word = r }) }
    ensures value { IfOk result (λ r. (inputs : List Bool) → word_number circuit.new inputs r ≡ signed_number (lit_value circuit.old inputs negative) (word_number circuit.old inputs a.now)) }
    ensures same_kind { IfOk result (λ r. r.kind ≡ a.now.kind) }
    ensures there { IfOk result (λ r. AreThere circuit.new r.bits) }
    ensures grows { Grows circuit.old circuit.new }
{
    let _count = circuit.nodes();
    if !has_sign(a) {
        let word = copied(alloc, a)?;
        return Ok(word);
    }
    let other = word_negative(alloc, circuit, a)?;
    let word = select(alloc, circuit, negative, &other, a)?;
    Ok(word)
}

/// The quotient and the remainder of the patterns of two words, where the second is not 0.
fn patterns_divided(
    alloc: Global,
    circuit: &mut Circuit,
    a: &Word,
    b: &Word,
) -> Result<(Word, Word), Memory>
    requires a_is_there { AreThere circuit.old a.now.bits }
    requires b_is_there { AreThere circuit.old b.now.bits }
    requires same_kind { a.now.kind ≡ b.now.kind }
    ensures built { IfOk result (λ r. patterns_built circuit.old a.now b.now ≡ record { nodes = circuit.new; quotient = r.0; remainder = r.1 }) }
    ensures quotient { IfOk result (λ r. (inputs : List Bool) → 0 < bits_of (word_number circuit.old inputs b.now) → word_number circuit.new inputs r.0 ≡ record { kind = a.now.kind; value = reading a.now.kind (bits_of (word_number circuit.old inputs a.now) / bits_of (word_number circuit.old inputs b.now)) }) }
    ensures remainder { IfOk result (λ r. (inputs : List Bool) → 0 < bits_of (word_number circuit.old inputs b.now) → word_number circuit.new inputs r.1 ≡ record { kind = a.now.kind; value = reading a.now.kind (bits_of (word_number circuit.old inputs a.now) % bits_of (word_number circuit.old inputs b.now)) }) }
    ensures quotient_there { IfOk result (λ r. AreThere circuit.new r.0.bits) }
    ensures remainder_there { IfOk result (λ r. AreThere circuit.new r.1.bits) }
    ensures grows { Grows circuit.old circuit.new }
{
    let _count = circuit.nodes();
    let (times, rest) = quotient(alloc, circuit, &a.bits, &b.bits)?;
    Ok((
        Word {
            kind: a.kind,
            bits: times,
        },
        Word {
            kind: a.kind,
            bits: rest,
        },
    ))
}

/// The quotient and the remainder of the magnitudes of two words, where the second is not 0.
fn magnitudes_divided(
    alloc: Global,
    circuit: &mut Circuit,
    a: &Word,
    b: &Word,
) -> Result<(Word, Word), Memory>
    requires a_is_there { AreThere circuit.old a.now.bits }
    requires b_is_there { AreThere circuit.old b.now.bits }
    requires same_kind { a.now.kind ≡ b.now.kind }
    requires promoted { promoted_kind a.now.kind ≡ a.now.kind }
    ensures built { IfOk result (λ r. magnitudes_built circuit.old a.now b.now ≡ record { nodes = circuit.new; quotient = r.0; remainder = r.1 }) }
    ensures quotient { IfOk result (λ r. (inputs : List Bool) → int_eq (word_number circuit.old inputs b.now).value (pos 0) ≡ false → word_number circuit.new inputs r.0 ≡ record { kind = a.now.kind; value = reading a.now.kind (unsigned_abs (word_number circuit.old inputs a.now).value / unsigned_abs (word_number circuit.old inputs b.now).value) }) }
    ensures remainder { IfOk result (λ r. (inputs : List Bool) → int_eq (word_number circuit.old inputs b.now).value (pos 0) ≡ false → word_number circuit.new inputs r.1 ≡ record { kind = a.now.kind; value = reading a.now.kind (unsigned_abs (word_number circuit.old inputs a.now).value % unsigned_abs (word_number circuit.old inputs b.now).value) }) }
    ensures quotient_kind { IfOk result (λ r. r.0.kind ≡ a.now.kind) }
    ensures remainder_kind { IfOk result (λ r. r.1.kind ≡ a.now.kind) }
    ensures quotient_there { IfOk result (λ r. AreThere circuit.new r.0.bits) }
    ensures remainder_there { IfOk result (λ r. AreThere circuit.new r.1.bits) }
    ensures grows { Grows circuit.old circuit.new }
{
    let _first = circuit.nodes();
    let a_sign = sign(a);
    let b_sign = sign(b);
    let left = signed_as(alloc, circuit, a_sign, a)?;
    let _second = circuit.nodes();
    let right = signed_as(alloc, circuit, b_sign, b)?;
    let both = patterns_divided(alloc, circuit, &left, &right)?;
    Ok(both)
}

/// The quotient and the remainder of two words of one kind, where the second is not 0.
pub fn word_division(
    alloc: Global,
    circuit: &mut Circuit,
    a: &Word,
    b: &Word,
) -> Result<(Word, Word), Memory>
    requires a_is_there { AreThere circuit.old a.now.bits }
    requires b_is_there { AreThere circuit.old b.now.bits }
    requires same_kind { a.now.kind ≡ b.now.kind }
    requires promoted { promoted_kind a.now.kind ≡ a.now.kind }
    ensures built { IfOk result (λ r. division_built circuit.old a.now b.now ≡ record { nodes = circuit.new; quotient = r.0; remainder = r.1 }) }
    ensures quotient { IfOk result (λ r. (inputs : List Bool) → int_eq (word_number circuit.old inputs b.now).value (pos 0) ≡ false → word_number circuit.new inputs r.0 ≡ number_of BinOp.Div (word_number circuit.old inputs a.now) (word_number circuit.old inputs b.now)) }
    ensures remainder { IfOk result (λ r. (inputs : List Bool) → int_eq (word_number circuit.old inputs b.now).value (pos 0) ≡ false → word_number circuit.new inputs r.1 ≡ number_of BinOp.Rem (word_number circuit.old inputs a.now) (word_number circuit.old inputs b.now)) }
    ensures quotient_there { IfOk result (λ r. AreThere circuit.new r.0.bits) }
    ensures remainder_there { IfOk result (λ r. AreThere circuit.new r.1.bits) }
    ensures grows { Grows circuit.old circuit.new }
{
    let a_sign = sign(a);
    let b_sign = sign(b);
    let (times, rest) = magnitudes_divided(alloc, circuit, a, b)?;
    let _count = circuit.nodes();
    let differ = xor(circuit, a_sign, b_sign)?;
    let quotient = signed_as(alloc, circuit, differ, &times)?;
    let remainder = signed_as(alloc, circuit, a_sign, &rest)?;
    Ok((quotient, remainder))
}
