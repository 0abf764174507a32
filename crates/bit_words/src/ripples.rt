ghost use Rattle.std.specs.Prelude.{◌≡◌, ◌<◌, ◌≤◌, ◌++◌, ◌∷◌, [], length, map, replicate, IfOk, OnOk};
ghost use Rattle.aig_build.specs.Circuits.{Grows, opposite};
ghost use Rattle.bit_words.specs.Built.{carried_built, ripple_built};
ghost use Rattle.bit_words.specs.Words.{AreThere};

use crate::cells::{Cell, make_cell};
use aig_build::{Circuit, Lit};
use rvt_num::Memory;
use std::alloc::Global;

/// One more literal at the end.
pub fn push(lits: &mut Vec<Lit>, lit: Lit) -> Result<(), Memory>
    ensures { OnOk result (lits.new.items ≡ lits.old.items ++ lit ∷ []) }
{
    match lits.push(lit) {
        Ok(()) => Ok(()),
        Err(_) => Err(Memory),
    }
}

/// A cell at each place of two words of one width, from the lowest on: the bits, and the carry that is left.
pub fn ripple(
    alloc: Global,
    circuit: &mut Circuit,
    which: Cell,
    a: &[Lit],
    b: &[Lit],
    carry: Lit,
) -> Result<(Vec<Lit>, Lit), Memory>
    requires a_is_there { AreThere circuit.old a.now }
    requires b_is_there { AreThere circuit.old b.now }
    requires carry_is_there { carry.node < length circuit.old }
    requires same_width { length a.now ≡ length b.now }
    ensures built { IfOk result (λ r. ripple_built circuit.old which carry a.now b.now ≡ record { nodes = circuit.new; bits = r.0.items; carry = r.1 }) }
    ensures width { IfOk result (λ r. length r.0.items ≡ length a.now) }
    ensures bits_there { IfOk result (λ r. AreThere circuit.new r.0.items) }
    ensures carry_there { IfOk result (λ r. r.1.node < length circuit.new) }
    ensures grows { Grows circuit.old circuit.new }
{
    let _count = circuit.nodes();
    let mut bits = Vec::new(alloc);
    let mut carry = carry;
    for at in 0..a.len() {
        let (bit, next) = make_cell(circuit, which, a[at], b[at], carry)?;
        push(&mut bits, bit)?;
        carry = next;
    }
    Ok((bits, carry))
}

/// The carry that is left of a cell at each place of two words of one width.
pub fn carried(
    circuit: &mut Circuit,
    which: Cell,
    a: &[Lit],
    b: &[Lit],
    carry: Lit,
) -> Result<Lit, Memory>
    requires a_is_there { AreThere circuit.old a.now }
    requires b_is_there { AreThere circuit.old b.now }
    requires carry_is_there { carry.node < length circuit.old }
    requires same_width { length a.now ≡ length b.now }
    ensures built { IfOk result (λ lit. carried_built circuit.old which carry a.now b.now ≡ record { nodes = circuit.new; lit = lit }) }
    ensures there { IfOk result (λ lit. lit.node < length circuit.new) }
    ensures grows { Grows circuit.old circuit.new }
{
    let _count = circuit.nodes();
    let mut carry = carry;
    for at in 0..a.len() {
        let (_, next) = make_cell(circuit, which, a[at], b[at], carry)?;
        carry = next;
    }
    Ok(carry)
}

/// A literal n times.
pub fn repeated(alloc: Global, lit: Lit, n: usize) -> Result<Vec<Lit>, Memory>
    ensures { IfOk result (λ r. r.items ≡ replicate n lit) }
{
    match vec![in alloc; lit; n] {
        Ok(lits) => Ok(lits),
        Err(_) => Err(Memory),
    }
}

/// Two lists one after the other.
pub fn joined(alloc: Global, first: &[Lit], second: &[Lit]) -> Result<Vec<Lit>, Memory>
    ensures { IfOk result (λ r. r.items ≡ first.now ++ second.now) }
{
    let mut lits = Vec::new(alloc);
    match lits.extend_from_slice(first) {
        Ok(()) => {}
        Err(_) => return Err(Memory),
    }
    match lits.extend_from_slice(second) {
        Ok(()) => Ok(lits),
        Err(_) => Err(Memory),
    }
}

/// The opposite of each literal.
pub fn opposites(alloc: Global, lits: &[Lit]) -> Result<Vec<Lit>, Memory>
    ensures { IfOk result (λ r. r.items ≡ map opposite lits.now) }
{
    let mut others = Vec::new(alloc);
    for lit in lits {
        push(&mut others, lit.opposite())?;
    }
    Ok(others)
}
