ghost use Rattle.std.specs.Prelude.{◌≡◌, ◌<◌, length, true, pos, Bool, List, IfOk};
ghost use Rattle.aig_build.specs.Circuits.{Grows, constant, lit_value};
ghost use Rattle.rvt_num.specs.Kinds.{promoted_kind, width};
ghost use Rattle.rvt_num.specs.Operations.{converted, int_eq, unary_of};
ghost use Rattle.bit_words.specs.Built.{convert_built, equal_built, flipped, not_zero_built, placed_built, resized, truth_word, unary_built, zero_word};
ghost use Rattle.bit_words.specs.Words.{AreThere, word_number};

use crate::cells::Cell;
use crate::comparisons::{equal, truth};
use crate::places::{flip, places, zero};
use crate::ripples::{joined, repeated};
use crate::words::Word;
use aig_build::{Circuit, Lit};
use rvt_num::{Kind, Memory, UnOp};
use std::alloc::Global;

/// The word with the opposite sign.
pub fn word_negative(alloc: Global, circuit: &mut Circuit, a: &Word) -> Result<Word, Memory>
    requires a_is_there { AreThere circuit.old a.now.bits }
    requires promoted { promoted_kind a.now.kind ≡ a.now.kind }
    ensures built { IfOk result (λ r. placed_built circuit.old Cell.Sum (constant true) (zero_word a.now.kind) (flipped a.now) ≡ record { nodes = circuit.new; word = r }) }
    ensures value { IfOk result (λ r. (inputs : List Bool) → word_number circuit.new inputs r ≡ unary_of UnOp.Minus (word_number circuit.old inputs a.now)) }
    ensures there { IfOk result (λ r. AreThere circuit.new r.bits) }
    ensures grows { Grows circuit.old circuit.new }
{
    let _count = circuit.nodes();
    let none = zero(alloc, a.kind)?;
    let other = flip(alloc, a)?;
    let word = places(
        alloc,
        circuit,
        Cell::Sum,
        &none,
        &other,
        Lit::constant(true),
    )?;
    Ok(word)
}

/// The word with every bit inverted.
fn word_flipped(alloc: Global, circuit: &Circuit, a: &Word) -> Result<Word, Memory>
    requires a_is_there { AreThere circuit.now a.now.bits }
    requires promoted { promoted_kind a.now.kind ≡ a.now.kind }
    ensures built { IfOk result (λ r. r ≡ flipped a.now) }
    ensures value { IfOk result (λ r. (inputs : List Bool) → word_number circuit.now inputs r ≡ unary_of UnOp.Flip (word_number circuit.now inputs a.now)) }
    ensures there { IfOk result (λ r. AreThere circuit.now r.bits) }
{
    let word = flip(alloc, a)?;
    Ok(word)
}

/// Whether the word is 0.
pub fn is_zero(alloc: Global, circuit: &mut Circuit, a: &Word) -> Result<Lit, Memory>
    requires a_is_there { AreThere circuit.old a.now.bits }
    ensures built { IfOk result (λ lit. equal_built circuit.old a.now (zero_word a.now.kind) ≡ record { nodes = circuit.new; lit = lit }) }
    ensures value { IfOk result (λ lit. (inputs : List Bool) → lit_value circuit.new inputs lit ≡ int_eq (word_number circuit.old inputs a.now).value (pos 0)) }
    ensures there { IfOk result (λ lit. lit.node < length circuit.new) }
    ensures grows { Grows circuit.old circuit.new }
{
    let _count = circuit.nodes();
    let none = zero(alloc, a.kind)?;
    let lit = equal(circuit, a, &none)?;
    Ok(lit)
}

/// The number 1 where the word is 0, else 0.
fn word_is_zero(alloc: Global, circuit: &mut Circuit, a: &Word) -> Result<Word, Memory>
    requires a_is_there { AreThere circuit.old a.now.bits }
    ensures built { IfOk result (λ r. truth_word (equal_built circuit.old a.now (zero_word a.now.kind)) ≡ record { nodes = circuit.new; word = r }) }
    ensures value { IfOk result (λ r. (inputs : List Bool) → word_number circuit.new inputs r ≡ unary_of UnOp.IsZero (word_number circuit.old inputs a.now)) }
    ensures there { IfOk result (λ r. AreThere circuit.new r.bits) }
    ensures grows { Grows circuit.old circuit.new }
{
    let lit = is_zero(alloc, circuit, a)?;
    let _count = circuit.nodes();
    let word = truth(alloc, lit)?;
    Ok(word)
}

/// An operation with one operand, of a promoted kind.
#[tactic(auto, unfolding(crate::specs::Built::unary_built))]
pub fn word_unary(alloc: Global, circuit: &mut Circuit, op: UnOp, a: &Word) -> Result<Word, Memory>
    requires a_is_there { AreThere circuit.old a.now.bits }
    requires promoted { promoted_kind a.now.kind ≡ a.now.kind }
    ensures built { IfOk result (λ r. unary_built circuit.old op a.now ≡ record { nodes = circuit.new; word = r }) }
    ensures value { IfOk result (λ r. (inputs : List Bool) → word_number circuit.new inputs r ≡ unary_of op (word_number circuit.old inputs a.now)) }
    ensures there { IfOk result (λ r. AreThere circuit.new r.bits) }
    ensures grows { Grows circuit.old circuit.new }
{
    match op {
        UnOp::Minus => {
            let word = word_negative(alloc, circuit, a)?;
            Ok(word)
        }
        UnOp::Flip => {
            let word = word_flipped(alloc, circuit, a)?;
            Ok(word)
        }
        UnOp::IsZero => {
            let word = word_is_zero(alloc, circuit, a)?;
            Ok(word)
        }
    }
}

/// The bits cut to the width of the kind, or going on with the sign.
fn resize(alloc: Global, kind: Kind, a: &Word) -> Result<Word, Memory>
    ensures bits { IfOk result (λ r. r ≡ resized kind a.now) }
    ensures wide { length a.now.bits ≡ width a.now.kind }
{
    let fill = if a.kind.is_signed() {
        a.bits[a.bits.len() - 1]
    } else {
        Lit::constant(false)
    };
    let count = kind.width() as usize;
    let others = repeated(alloc, fill, count)?;
    let all = joined(alloc, &a.bits, &others)?;
    let bits = joined(alloc, &all[..count], &[])?;
    Ok(Word { kind, bits })
}

/// The word of kind `bool` that is 1 where a is not 0.
fn not_zero(alloc: Global, circuit: &mut Circuit, a: &Word) -> Result<Word, Memory>
    requires a_is_there { AreThere circuit.old a.now.bits }
    ensures built { IfOk result (λ r. not_zero_built circuit.old a.now ≡ record { nodes = circuit.new; word = r }) }
    ensures value { IfOk result (λ r. (inputs : List Bool) → word_number circuit.new inputs r ≡ converted Kind.Bool (word_number circuit.old inputs a.now)) }
    ensures there { IfOk result (λ r. AreThere circuit.new r.bits) }
    ensures grows { Grows circuit.old circuit.new }
{
    let lit = is_zero(alloc, circuit, a)?;
    let bits = joined(alloc, &[lit.opposite()], &[])?;
    Ok(Word {
        kind: Kind::Bool,
        bits,
    })
}

/// The conversion of a word to a kind.
#[tactic(auto, unfolding(crate::specs::Built::convert_built))]
pub fn word_convert(
    alloc: Global,
    circuit: &mut Circuit,
    kind: Kind,
    a: &Word,
) -> Result<Word, Memory>
    requires a_is_there { AreThere circuit.old a.now.bits }
    ensures built { IfOk result (λ r. convert_built circuit.old kind a.now ≡ record { nodes = circuit.new; word = r }) }
    ensures value { IfOk result (λ r. (inputs : List Bool) → word_number circuit.new inputs r ≡ converted kind (word_number circuit.old inputs a.now)) }
    ensures there { IfOk result (λ r. AreThere circuit.new r.bits) }
    ensures grows { Grows circuit.old circuit.new }
{
    let _count = circuit.nodes();
    match kind {
        Kind::Bool => {
            let word = not_zero(alloc, circuit, a)?;
            Ok(word)
        }
        _ => {
            let word = resize(alloc, kind, a)?;
            Ok(word)
        }
    }
}
