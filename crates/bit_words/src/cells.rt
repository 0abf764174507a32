ghost use Rattle.std.specs.Prelude.{◌≡◌, ◌<◌, ◌≤◌, length, IfOk};
ghost use Rattle.aig_build.specs.Circuits.{Grows};
ghost use Rattle.bit_words.specs.Built.{cell_built};

use crate::gates::{and, choice, full_sum, majority, or, xor};
use aig_build::{Circuit, Lit};
use rvt_num::Memory;

/// What is done at each place of two words, from the lowest on, with a carry from place to place.
#[derive(Clone, Copy, PartialEq, Eq, Debug)]
pub enum Cell {
    /// The bits of the sum.
    Sum,
    And,
    Or,
    Xor,
    /// The carry says whether the first word so far is less than the second, or equal to it where the first carry was true.
    Less,
    /// The carry says whether the words so far are equal.
    Equal,
    /// The bit of the first word where the carry is true, else that of the second. The carry stays.
    Choice,
}

/// The bit and the carry of one place.
#[tactic(auto, unfolding(crate::specs::Built::cell_built))]
pub fn make_cell(
    circuit: &mut Circuit,
    which: Cell,
    a: Lit,
    b: Lit,
    carry: Lit,
) -> Result<(Lit, Lit), Memory>
    requires a_is_there { a.node < length circuit.old }
    requires b_is_there { b.node < length circuit.old }
    requires carry_is_there { carry.node < length circuit.old }
    ensures built { IfOk result (λ r. cell_built circuit.old which a b carry ≡ record { nodes = circuit.new; sum = r.0; carry = r.1 }) }
    ensures carry_there { IfOk result (λ r. r.1.node < length circuit.new) }
    ensures grows { Grows circuit.old circuit.new }
{
    match which {
        Cell::Sum => {
            let sum = full_sum(circuit, a, b, carry)?;
            Ok(sum)
        }
        Cell::And => {
            let bit = and(circuit, a, b)?;
            Ok((bit, carry))
        }
        Cell::Or => {
            let bit = or(circuit, a, b)?;
            Ok((bit, carry))
        }
        Cell::Xor => {
            let bit = xor(circuit, a, b)?;
            Ok((bit, carry))
        }
        Cell::Less => {
            let less = majority(circuit, a.opposite(), b, carry)?;
            Ok((less, less))
        }
        Cell::Equal => {
            let differ = xor(circuit, a, b)?;
            let equal = and(circuit, carry, differ.opposite())?;
            Ok((equal, equal))
        }
        Cell::Choice => {
            let bit = choice(circuit, carry, a, b)?;
            Ok((bit, carry))
        }
    }
}
