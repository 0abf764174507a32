ghost use Rattle.std.specs.Prelude.{◌≡◌, ◌<◌, length, true, false, Bool, List, IfOk, if◌then◌else◌};
ghost use Rattle.aig_build.specs.Circuits.{Grows, constant, lit_value};
ghost use Rattle.rvt_num.specs.Kinds.{promoted_kind, width};
ghost use Rattle.rvt_num.specs.Operations.{number_of};
ghost use Rattle.bit_words.specs.Built.{placed_built, flipped, zero_word};
ghost use Rattle.bit_words.specs.Words.{AreThere, word_number};

use crate::cells::Cell;
use crate::ripples::{opposites, repeated, ripple};
use crate::words::Word;
use aig_build::{Circuit, Lit};
use rvt_num::{BinOp, Kind, Memory};
use std::alloc::Global;

/// The bits of a cell at each place of two words of one kind.
pub fn places(
    alloc: Global,
    circuit: &mut Circuit,
    which: Cell,
    a: &Word,
    b: &Word,
    carry: Lit,
) -> Result<Word, Memory>
    requires a_is_there { AreThere circuit.old a.now.bits }
    requires b_is_there { AreThere circuit.old b.now.bits }
    requires carry_is_there { carry.node < length circuit.old }
    requires same_kind { a.now.kind ≡ b.now.kind }
    ensures built { IfOk result (λ r. placed_built circuit.old which carry a.now b.now ≡ record { nodes = circuit.new; word = r }) }
    ensures there { IfOk result (λ r. AreThere circuit.new r.bits) }
    ensures a_wide { length a.now.bits ≡ width a.now.kind }
    ensures b_wide { length b.now.bits ≡ width b.now.kind }
    ensures grows { Grows circuit.old circuit.new }
{
    let (bits, _) = ripple(alloc, circuit, which, &a.bits, &b.bits, carry)?;
    Ok(Word { kind: a.kind, bits })
}

/// The word with every bit inverted.
pub fn flip(alloc: Global, a: &Word) -> Result<Word, Memory>
    ensures bits { IfOk result (λ r. r ≡ flipped a.now) }
    ensures wide { length a.now.bits ≡ width a.now.kind }
{
    let bits = opposites(alloc, &a.bits)?;
    Ok(Word { kind: a.kind, bits })
}

/// The number 0.
pub fn zero(alloc: Global, kind: Kind) -> Result<Word, Memory>
    ensures { IfOk result (λ r. r ≡ zero_word kind) }
{
    let bits = repeated(alloc, Lit::constant(false), kind.width() as usize)?;
    Ok(Word { kind, bits })
}

/// The difference of two words of one kind.
pub fn word_difference(
    alloc: Global,
    circuit: &mut Circuit,
    a: &Word,
    b: &Word,
) -> Result<Word, Memory>
    requires a_is_there { AreThere circuit.old a.now.bits }
    requires b_is_there { AreThere circuit.old b.now.bits }
    requires same_kind { a.now.kind ≡ b.now.kind }
    requires promoted { promoted_kind a.now.kind ≡ a.now.kind }
    ensures built { IfOk result (λ r. placed_built circuit.old Cell.Sum (constant true) a.now (flipped b.now) ≡ record { nodes = circuit.new; word = r }) }
    ensures value { IfOk result (λ r. (inputs : List Bool) → word_number circuit.new inputs r ≡ number_of BinOp.Sub (word_number circuit.old inputs a.now) (word_number circuit.old inputs b.now)) }
    ensures there { IfOk result (λ r. AreThere circuit.new r.bits) }
    ensures grows { Grows circuit.old circuit.new }
{
    let _count = circuit.nodes();
    let other = flip(alloc, b)?;
    let word = places(alloc, circuit, Cell::Sum, a, &other, Lit::constant(true))?;
    Ok(word)
}

/// The sum of two words of one kind.
pub fn word_sum(alloc: Global, circuit: &mut Circuit, a: &Word, b: &Word) -> Result<Word, Memory>
    requires a_is_there { AreThere circuit.old a.now.bits }
    requires b_is_there { AreThere circuit.old b.now.bits }
    requires same_kind { a.now.kind ≡ b.now.kind }
    requires promoted { promoted_kind a.now.kind ≡ a.now.kind }
    ensures built { IfOk result (λ r. placed_built circuit.old Cell.Sum (constant false) a.now b.now ≡ record { nodes = circuit.new; word = r }) }
    ensures value { IfOk result (λ r. (inputs : List Bool) → word_number circuit.new inputs r ≡ number_of BinOp.Add (word_number circuit.old inputs a.now) (word_number circuit.old inputs b.now)) }
    ensures there { IfOk result (λ r. AreThere circuit.new r.bits) }
    ensures grows { Grows circuit.old circuit.new }
{
    let _count = circuit.nodes();
    let word = places(alloc, circuit, Cell::Sum, a, b, Lit::constant(false))?;
    Ok(word)
}

/// The bits that both words have.
pub fn word_and(alloc: Global, circuit: &mut Circuit, a: &Word, b: &Word) -> Result<Word, Memory>
    requires a_is_there { AreThere circuit.old a.now.bits }
    requires b_is_there { AreThere circuit.old b.now.bits }
    requires same_kind { a.now.kind ≡ b.now.kind }
    requires promoted { promoted_kind a.now.kind ≡ a.now.kind }
    ensures built { IfOk result (λ r. placed_built circuit.old Cell.And (constant false) a.now b.now ≡ record { nodes = circuit.new; word = r }) }
    ensures value { IfOk result (λ r. (inputs : List Bool) → word_number circuit.new inputs r ≡ number_of BinOp.And (word_number circuit.old inputs a.now) (word_number circuit.old inputs b.now)) }
    ensures there { IfOk result (λ r. AreThere circuit.new r.bits) }
    ensures grows { Grows circuit.old circuit.new }
{
    let _count = circuit.nodes();
    let word = places(alloc, circuit, Cell::And, a, b, Lit::constant(false))?;
    Ok(word)
}

/// The bits that one of the words has.
pub fn word_or(alloc: Global, circuit: &mut Circuit, a: &Word, b: &Word) -> Result<Word, Memory>
    requires a_is_there { AreThere circuit.old a.now.bits }
    requires b_is_there { AreThere circuit.old b.now.bits }
    requires same_kind { a.now.kind ≡ b.now.kind }
    requires promoted { promoted_kind a.now.kind ≡ a.now.kind }
    ensures built { IfOk result (λ r. placed_built circuit.old Cell.Or (constant false) a.now b.now ≡ record { nodes = circuit.new; word = r }) }
    ensures value { IfOk result (λ r. (inputs : List Bool) → word_number circuit.new inputs r ≡ number_of BinOp.Or (word_number circuit.old inputs a.now) (word_number circuit.old inputs b.now)) }
    ensures there { IfOk result (λ r. AreThere circuit.new r.bits) }
    ensures grows { Grows circuit.old circuit.new }
{
    let _count = circuit.nodes();
    let word = places(alloc, circuit, Cell::Or, a, b, Lit::constant(false))?;
    Ok(word)
}

/// The bits in which the words differ.
pub fn word_xor(alloc: Global, circuit: &mut Circuit, a: &Word, b: &Word) -> Result<Word, Memory>
    requires a_is_there { AreThere circuit.old a.now.bits }
    requires b_is_there { AreThere circuit.old b.now.bits }
    requires same_kind { a.now.kind ≡ b.now.kind }
    requires promoted { promoted_kind a.now.kind ≡ a.now.kind }
    ensures built { IfOk result (λ r. placed_built circuit.old Cell.Xor (constant false) a.now b.now ≡ record { nodes = circuit.new; word = r }) }
    ensures value { IfOk result (λ r. (inputs : List Bool) → word_number circuit.new inputs r ≡ number_of BinOp.Xor (word_number circuit.old inputs a.now) (word_number circuit.old inputs b.now)) }
    ensures there { IfOk result (λ r. AreThere circuit.new r.bits) }
    ensures grows { Grows circuit.old circuit.new }
{
    let _count = circuit.nodes();
    let word = places(alloc, circuit, Cell::Xor, a, b, Lit::constant(false))?;
    Ok(word)
}

/// The word a where the literal is true, else b.
pub fn select(
    alloc: Global,
    circuit: &mut Circuit,
    which: Lit,
    a: &Word,
    b: &Word,
) -> Result<Word, Memory>
    requires which_is_there { which.node < length circuit.old }
    requires a_is_there { AreThere circuit.old a.now.bits }
    requires b_is_there { AreThere circuit.old b.now.bits }
    requires same_kind { a.now.kind ≡ b.now.kind }
    ensures built { IfOk result (λ r. placed_built circuit.old Cell.Choice which a.now b.now ≡ record { nodes = circuit.new; word = r }) }
    ensures value { IfOk result (λ r. (inputs : List Bool) → word_number circuit.new inputs r ≡ (if lit_value circuit.old inputs which then word_number circuit.old inputs a.now else word_number circuit.old inputs b.now)) }
    ensures there { IfOk result (λ r. AreThere circuit.new r.bits) }
    ensures grows { Grows circuit.old circuit.new }
{
    let _count = circuit.nodes();
    let word = places(alloc, circuit, Cell::Choice, a, b, which)?;
    Ok(word)
}
