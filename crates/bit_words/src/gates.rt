ghost use Rattle.std.specs.Prelude.{◌≡◌, ◌<◌, ◌≤◌, length, IfOk};
ghost use Rattle.aig_build.specs.Built.{and_built};
ghost use Rattle.aig_build.specs.Circuits.{IsCircuit, Grows};
ghost use Rattle.bit_words.specs.Built.{or_built, xor_built, choice_built, majority_built, full_sum_built};

use aig_build::{Circuit, Lit};
use rvt_num::Memory;

pub fn and(circuit: &mut Circuit, a: Lit, b: Lit) -> Result<Lit, Memory>
    requires a_is_there { a.node < length circuit.old }
    requires b_is_there { b.node < length circuit.old }
    ensures built { IfOk result (λ lit. and_built circuit.old a b ≡ record { nodes = circuit.new; lit = lit }) }
    ensures there { IfOk result (λ lit. lit.node < length circuit.new) }
    ensures longer { length circuit.old ≤ length circuit.new }
    ensures grows { Grows circuit.old circuit.new }
{
    match circuit.and(a, b) {
        Ok(lit) => Ok(lit),
        Err(_) => Err(Memory),
    }
}

#[tactic(auto, unfolding(crate::specs::Built::or_built))]
pub fn or(circuit: &mut Circuit, a: Lit, b: Lit) -> Result<Lit, Memory>
    requires a_is_there { a.node < length circuit.old }
    requires b_is_there { b.node < length circuit.old }
    ensures built { IfOk result (λ lit. or_built circuit.old a b ≡ record { nodes = circuit.new; lit = lit }) }
    ensures there { IfOk result (λ lit. lit.node < length circuit.new) }
    ensures longer { length circuit.old ≤ length circuit.new }
    ensures grows { Grows circuit.old circuit.new }
{
    let neither = and(circuit, a.opposite(), b.opposite())?;
    Ok(neither.opposite())
}

#[tactic(auto, unfolding(crate::specs::Built::xor_built))]
pub fn xor(circuit: &mut Circuit, a: Lit, b: Lit) -> Result<Lit, Memory>
    requires a_is_there { a.node < length circuit.old }
    requires b_is_there { b.node < length circuit.old }
    ensures built { IfOk result (λ lit. xor_built circuit.old a b ≡ record { nodes = circuit.new; lit = lit }) }
    ensures there { IfOk result (λ lit. lit.node < length circuit.new) }
    ensures longer { length circuit.old ≤ length circuit.new }
    ensures grows { Grows circuit.old circuit.new }
{
    let both = and(circuit, a, b)?;
    let neither = and(circuit, a.opposite(), b.opposite())?;
    let one = and(circuit, both.opposite(), neither.opposite())?;
    Ok(one)
}

/// The literal a where `which` is true, else b.
#[tactic(auto, unfolding(crate::specs::Built::choice_built))]
pub fn choice(circuit: &mut Circuit, which: Lit, a: Lit, b: Lit) -> Result<Lit, Memory>
    requires which_is_there { which.node < length circuit.old }
    requires a_is_there { a.node < length circuit.old }
    requires b_is_there { b.node < length circuit.old }
    ensures built { IfOk result (λ lit. choice_built circuit.old which a b ≡ record { nodes = circuit.new; lit = lit }) }
    ensures there { IfOk result (λ lit. lit.node < length circuit.new) }
    ensures longer { length circuit.old ≤ length circuit.new }
    ensures grows { Grows circuit.old circuit.new }
{
    let first = and(circuit, which, a)?;
    let second = and(circuit, which.opposite(), b)?;
    let either = or(circuit, first, second)?;
    Ok(either)
}

/// Whether two of three literals or all three are true.
#[tactic(auto, unfolding(crate::specs::Built::majority_built))]
pub fn majority(circuit: &mut Circuit, a: Lit, b: Lit, c: Lit) -> Result<Lit, Memory>
    requires a_is_there { a.node < length circuit.old }
    requires b_is_there { b.node < length circuit.old }
    requires c_is_there { c.node < length circuit.old }
    ensures built { IfOk result (λ lit. majority_built circuit.old a b c ≡ record { nodes = circuit.new; lit = lit }) }
    ensures there { IfOk result (λ lit. lit.node < length circuit.new) }
    ensures longer { length circuit.old ≤ length circuit.new }
    ensures grows { Grows circuit.old circuit.new }
{
    let both = and(circuit, a, b)?;
    let either = or(circuit, a, b)?;
    let with_c = and(circuit, c, either)?;
    let most = or(circuit, both, with_c)?;
    Ok(most)
}

/// The sum and the carry of three bits.
#[tactic(auto, unfolding(crate::specs::Built::full_sum_built))]
pub fn full_sum(circuit: &mut Circuit, a: Lit, b: Lit, c: Lit) -> Result<(Lit, Lit), Memory>
    requires a_is_there { a.node < length circuit.old }
    requires b_is_there { b.node < length circuit.old }
    requires c_is_there { c.node < length circuit.old }
    ensures built { IfOk result (λ r. full_sum_built circuit.old a b c ≡ record { nodes = circuit.new; sum = r.0; carry = r.1 }) }
    ensures sum_there { IfOk result (λ r. r.0.node < length circuit.new) }
    ensures carry_there { IfOk result (λ r. r.1.node < length circuit.new) }
    ensures longer { length circuit.old ≤ length circuit.new }
    ensures grows { Grows circuit.old circuit.new }
{
    let differ = xor(circuit, a, b)?;
    let sum = xor(circuit, differ, c)?;
    let both = and(circuit, a, b)?;
    let through = and(circuit, differ, c)?;
    let carry = or(circuit, both, through)?;
    Ok((sum, carry))
}
