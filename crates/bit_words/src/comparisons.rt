ghost use Rattle.std.specs.Prelude.{◌≡◌, ◌<◌, length, true, false, not, Bool, List, IfOk};
ghost use Rattle.aig_build.specs.Circuits.{Grows, lit_value};
ghost use Rattle.rvt_num.specs.Kinds.{width};
ghost use Rattle.rvt_num.specs.Operations.{int_eq, number_of};
ghost use Rattle.bit_words.specs.Orders.{order_of};
ghost use Rattle.bit_words.specs.Built.{carried_built, equal_built, negated, order_built, ordered_bits, ordered_word, truth_bits, truth_word};
ghost use Rattle.bit_words.specs.Words.{AreThere, word_number};

use crate::cells::Cell;
use crate::ripples::{carried, joined, repeated};
use crate::words::Word;
use aig_build::{Circuit, Lit};
use rvt_num::{BinOp, Kind, Memory};
use std::alloc::Global;

/// Whether two words of one kind are equal.
pub fn equal(circuit: &mut Circuit, a: &Word, b: &Word) -> Result<Lit, Memory>
    requires a_is_there { AreThere circuit.old a.now.bits }
    requires b_is_there { AreThere circuit.old b.now.bits }
    requires same_kind { a.now.kind ≡ b.now.kind }
    ensures built { IfOk result (λ lit. equal_built circuit.old a.now b.now ≡ record { nodes = circuit.new; lit = lit }) }
    ensures value { IfOk result (λ lit. (inputs : List Bool) → lit_value circuit.new inputs lit ≡ int_eq (word_number circuit.old inputs a.now).value (word_number circuit.old inputs b.now).value) }
    ensures there { IfOk result (λ lit. lit.node < length circuit.new) }
    ensures grows { Grows circuit.old circuit.new }
{
    let _count = circuit.nodes();
    let lit = carried(circuit, Cell::Equal, &a.bits, &b.bits, Lit::constant(true))?;
    Ok(lit)
}

/// Bits that are in the order of the numbers.
fn ordered(alloc: Global, kind: Kind, bits: &[Lit]) -> Result<Vec<Lit>, Memory>
    requires { 0 < length bits.now }
    ensures { IfOk result (λ r. r.items ≡ ordered_bits kind bits.now) }
{
    if kind.is_signed() {
        let last = bits.len() - 1;
        joined(alloc, &bits[..last], &[bits[last].opposite()])
    } else {
        joined(alloc, bits, &[])
    }
}

/// The word whose bits are in the order of the numbers.
fn in_order(alloc: Global, a: &Word) -> Result<Word, Memory>
    ensures bits { IfOk result (λ r. r ≡ ordered_word a.now) }
    ensures wide { length a.now.bits ≡ width a.now.kind }
{
    let bits = ordered(alloc, a.kind, &a.bits)?;
    Ok(Word { kind: a.kind, bits })
}

/// The carry that is left of a cell at each place of two words.
fn carried_words(
    circuit: &mut Circuit,
    which: Cell,
    a: &Word,
    b: &Word,
    carry: Lit,
) -> Result<Lit, Memory>
    requires a_is_there { AreThere circuit.old a.now.bits }
    requires b_is_there { AreThere circuit.old b.now.bits }
    requires carry_is_there { carry.node < length circuit.old }
    requires same_kind { a.now.kind ≡ b.now.kind }
    ensures built { IfOk result (λ lit. carried_built circuit.old which carry a.now.bits b.now.bits ≡ record { nodes = circuit.new; lit = lit }) }
    ensures there { IfOk result (λ lit. lit.node < length circuit.new) }
    ensures grows { Grows circuit.old circuit.new }
{
    let lit = carried(circuit, which, &a.bits, &b.bits, carry)?;
    Ok(lit)
}

/// Whether a is less than b, or equal to it where `or_equal` is true.
pub fn less(
    alloc: Global,
    circuit: &mut Circuit,
    a: &Word,
    b: &Word,
    or_equal: bool,
) -> Result<Lit, Memory>
    requires a_is_there { AreThere circuit.old a.now.bits }
    requires b_is_there { AreThere circuit.old b.now.bits }
    requires same_kind { a.now.kind ≡ b.now.kind }
    ensures built { IfOk result (λ lit. order_built circuit.old or_equal a.now b.now ≡ record { nodes = circuit.new; lit = lit }) }
    ensures value { IfOk result (λ lit. (inputs : List Bool) → lit_value circuit.new inputs lit ≡ order_of or_equal (word_number circuit.old inputs a.now).value (word_number circuit.old inputs b.now).value) }
    ensures there { IfOk result (λ lit. lit.node < length circuit.new) }
    ensures grows { Grows circuit.old circuit.new }
{
    let _count = circuit.nodes();
    let first = in_order(alloc, a)?;
    let second = in_order(alloc, b)?;
    let lit = carried_words(
        circuit,
        Cell::Less,
        &first,
        &second,
        Lit::constant(or_equal),
    )?;
    Ok(lit)
}

/// The number 1 where the literal is true, else 0.
pub fn truth(alloc: Global, lit: Lit) -> Result<Word, Memory>
    ensures { IfOk result (λ r. r ≡ record { kind = Kind.I32; bits = truth_bits lit }) }
{
    let zeros = repeated(alloc, Lit::constant(false), 31)?;
    let bits = joined(alloc, &[lit], &zeros)?;
    Ok(Word {
        kind: Kind::I32,
        bits,
    })
}

/// Whether a is less than b.
pub fn word_less(alloc: Global, circuit: &mut Circuit, a: &Word, b: &Word) -> Result<Word, Memory>
    requires a_is_there { AreThere circuit.old a.now.bits }
    requires b_is_there { AreThere circuit.old b.now.bits }
    requires same_kind { a.now.kind ≡ b.now.kind }
    ensures built { IfOk result (λ r. truth_word (order_built circuit.old false a.now b.now) ≡ record { nodes = circuit.new; word = r }) }
    ensures value { IfOk result (λ r. (inputs : List Bool) → word_number circuit.new inputs r ≡ number_of BinOp.Lt (word_number circuit.old inputs a.now) (word_number circuit.old inputs b.now)) }
    ensures there { IfOk result (λ r. AreThere circuit.new r.bits) }
    ensures grows { Grows circuit.old circuit.new }
{
    let lit = less(alloc, circuit, a, b, false)?;
    let _count = circuit.nodes();
    let word = truth(alloc, lit)?;
    Ok(word)
}

/// Whether a is less than b or equal to it.
pub fn word_at_most(
    alloc: Global,
    circuit: &mut Circuit,
    a: &Word,
    b: &Word,
) -> Result<Word, Memory>
    requires a_is_there { AreThere circuit.old a.now.bits }
    requires b_is_there { AreThere circuit.old b.now.bits }
    requires same_kind { a.now.kind ≡ b.now.kind }
    ensures built { IfOk result (λ r. truth_word (order_built circuit.old true a.now b.now) ≡ record { nodes = circuit.new; word = r }) }
    ensures value { IfOk result (λ r. (inputs : List Bool) → word_number circuit.new inputs r ≡ number_of BinOp.Le (word_number circuit.old inputs a.now) (word_number circuit.old inputs b.now)) }
    ensures there { IfOk result (λ r. AreThere circuit.new r.bits) }
    ensures grows { Grows circuit.old circuit.new }
{
    let lit = less(alloc, circuit, a, b, true)?;
    let _count = circuit.nodes();
    let word = truth(alloc, lit)?;
    Ok(word)
}

/// Whether a is greater than b.
pub fn word_greater(
    alloc: Global,
    circuit: &mut Circuit,
    a: &Word,
    b: &Word,
) -> Result<Word, Memory>
    requires a_is_there { AreThere circuit.old a.now.bits }
    requires b_is_there { AreThere circuit.old b.now.bits }
    requires same_kind { a.now.kind ≡ b.now.kind }
    ensures built { IfOk result (λ r. truth_word (order_built circuit.old false b.now a.now) ≡ record { nodes = circuit.new; word = r }) }
    ensures value { IfOk result (λ r. (inputs : List Bool) → word_number circuit.new inputs r ≡ number_of BinOp.Gt (word_number circuit.old inputs a.now) (word_number circuit.old inputs b.now)) }
    ensures there { IfOk result (λ r. AreThere circuit.new r.bits) }
    ensures grows { Grows circuit.old circuit.new }
{
    let lit = less(alloc, circuit, b, a, false)?;
    let _count = circuit.nodes();
    let word = truth(alloc, lit)?;
    Ok(word)
}

/// Whether a is greater than b or equal to it.
pub fn word_at_least(
    alloc: Global,
    circuit: &mut Circuit,
    a: &Word,
    b: &Word,
) -> Result<Word, Memory>
    requires a_is_there { AreThere circuit.old a.now.bits }
    requires b_is_there { AreThere circuit.old b.now.bits }
    requires same_kind { a.now.kind ≡ b.now.kind }
    ensures built { IfOk result (λ r. truth_word (order_built circuit.old true b.now a.now) ≡ record { nodes = circuit.new; word = r }) }
    ensures value { IfOk result (λ r. (inputs : List Bool) → word_number circuit.new inputs r ≡ number_of BinOp.Ge (word_number circuit.old inputs a.now) (word_number circuit.old inputs b.now)) }
    ensures there { IfOk result (λ r. AreThere circuit.new r.bits) }
    ensures grows { Grows circuit.old circuit.new }
{
    let lit = less(alloc, circuit, b, a, true)?;
    let _count = circuit.nodes();
    let word = truth(alloc, lit)?;
    Ok(word)
}

/// Whether the words are equal.
pub fn word_equal(alloc: Global, circuit: &mut Circuit, a: &Word, b: &Word) -> Result<Word, Memory>
    requires a_is_there { AreThere circuit.old a.now.bits }
    requires b_is_there { AreThere circuit.old b.now.bits }
    requires same_kind { a.now.kind ≡ b.now.kind }
    ensures built { IfOk result (λ r. truth_word (equal_built circuit.old a.now b.now) ≡ record { nodes = circuit.new; word = r }) }
    ensures value { IfOk result (λ r. (inputs : List Bool) → word_number circuit.new inputs r ≡ number_of BinOp.Eq (word_number circuit.old inputs a.now) (word_number circuit.old inputs b.now)) }
    ensures there { IfOk result (λ r. AreThere circuit.new r.bits) }
    ensures grows { Grows circuit.old circuit.new }
{
    let lit = equal(circuit, a, b)?;
    let _count = circuit.nodes();
    let word = truth(alloc, lit)?;
    Ok(word)
}

/// Whether the words differ.
pub fn word_different(
    alloc: Global,
    circuit: &mut Circuit,
    a: &Word,
    b: &Word,
) -> Result<Word, Memory>
    requires a_is_there { AreThere circuit.old a.now.bits }
    requires b_is_there { AreThere circuit.old b.now.bits }
    requires same_kind { a.now.kind ≡ b.now.kind }
    ensures built { IfOk result (λ r. truth_word (negated (equal_built circuit.old a.now b.now)) ≡ record { nodes = circuit.new; word = r }) }
    ensures value { IfOk result (λ r. (inputs : List Bool) → word_number circuit.new inputs r ≡ number_of BinOp.Ne (word_number circuit.old inputs a.now) (word_number circuit.old inputs b.now)) }
    ensures there { IfOk result (λ r. AreThere circuit.new r.bits) }
    ensures grows { Grows circuit.old circuit.new }
{
    let lit = equal(circuit, a, b)?;
    let _count = circuit.nodes();
    let word = truth(alloc, lit.opposite())?;
    Ok(word)
}
