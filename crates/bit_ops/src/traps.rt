ghost use Rattle.std.specs.Prelude.{◌≡◌, ◌<◌, ◌&&◌, negsuc, true, Bool, List, length, IfOk};
ghost use Rattle.aig_build.specs.Circuits.{Grows, lit_value};
ghost use Rattle.rvt_num.specs.Kinds.{is_signed, least};
ghost use Rattle.rvt_num.specs.Operations.{int_eq, quotient_overflows};
ghost use Rattle.bit_words.specs.Words.{AreThere, word_number};
ghost use Rattle.bit_ops.specs.Built.{both_built, least_word, no_traps, ones_word, overflow_built};

use crate::signs::has_sign;
use aig_build::{Circuit, Lit};
use bit_words::gates::and;
use bit_words::ripples::{joined, repeated};
use bit_words::{Word, equal};
use rvt_num::{Kind, Memory};
use std::alloc::Global;

/// For each trap whether an operation has it.
#[derive(Clone, Copy, PartialEq, Eq, Debug)]
pub struct TrapLits {
    pub divide: Lit,
    pub quotient: Lit,
    pub shift: Lit,
}

/// No trap.
pub fn no_trap() -> TrapLits
    ensures { result ≡ no_traps }
{
    TrapLits {
        divide: Lit::constant(false),
        quotient: Lit::constant(false),
        shift: Lit::constant(false),
    }
}

/// The bits of the least number of a signed kind.
fn least_number(alloc: Global, kind: Kind) -> Result<Word, Memory>
    ensures { IfOk result (λ r. r ≡ least_word kind) }
{
    let zeros = repeated(alloc, Lit::constant(false), kind.width() as usize - 1)?;
    let bits = joined(alloc, &zeros, &[Lit::constant(true)])?;
    Ok(Word { kind, bits })
}

/// Every bit set.
fn all_ones(alloc: Global, kind: Kind) -> Result<Word, Memory>
    ensures { IfOk result (λ r. r ≡ ones_word kind) }
{
    let bits = repeated(alloc, Lit::constant(true), kind.width() as usize)?;
    Ok(Word { kind, bits })
}

/// Whether a is the least number of its kind and b is -1.
fn both(alloc: Global, circuit: &mut Circuit, a: &Word, b: &Word) -> Result<Lit, Memory>
    requires a_is_there { AreThere circuit.old a.now.bits }
    requires b_is_there { AreThere circuit.old b.now.bits }
    requires a_signed { is_signed a.now.kind ≡ true }
    requires b_signed { is_signed b.now.kind ≡ true }
    ensures built { IfOk result (λ lit. both_built circuit.old a.now b.now ≡ record { nodes = circuit.new; lit = lit }) }
    ensures value { IfOk result (λ lit. (inputs : List Bool) → lit_value circuit.new inputs lit ≡ (int_eq (word_number circuit.old inputs a.now).value (least a.now.kind) && int_eq (word_number circuit.old inputs b.now).value (negsuc 0))) }
    ensures there { IfOk result (λ lit. lit.node < length circuit.new) }
    ensures grows { Grows circuit.old circuit.new }
{
    let _first = circuit.nodes();
    let smallest = least_number(alloc, a.kind)?;
    let is_least = equal(circuit, a, &smallest)?;
    let _second = circuit.nodes();
    let minus_one = all_ones(alloc, b.kind)?;
    let is_minus_one = equal(circuit, b, &minus_one)?;
    let _third = circuit.nodes();
    let lit = and(circuit, is_least, is_minus_one)?;
    Ok(lit)
}

/// Whether the least number of a signed kind is divided by -1.
pub fn overflows(alloc: Global, circuit: &mut Circuit, a: &Word, b: &Word) -> Result<Lit, Memory>
    requires a_is_there { AreThere circuit.old a.now.bits }
    requires b_is_there { AreThere circuit.old b.now.bits }
    requires same_kind { a.now.kind ≡ b.now.kind }
    ensures built { IfOk result (λ lit. overflow_built circuit.old a.now b.now ≡ record { nodes = circuit.new; lit = lit }) }
    ensures value { IfOk result (λ lit. (inputs : List Bool) → lit_value circuit.new inputs lit ≡ quotient_overflows (word_number circuit.old inputs a.now) (word_number circuit.old inputs b.now)) }
    ensures there { IfOk result (λ lit. lit.node < length circuit.new) }
    ensures grows { Grows circuit.old circuit.new }
{
    let _count = circuit.nodes();
    if !has_sign(a) {
        return Ok(Lit::constant(false));
    }
    let lit = both(alloc, circuit, a, b)?;
    Ok(lit)
}
