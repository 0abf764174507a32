ghost use Rattle.std.specs.Prelude.{◌≡◌, ◌<◌, ◌≤◌, ◌==◌, false, length, IfOk, if◌then◌else◌};
ghost use Rattle.aig_build.specs.Circuits.{Grows, constant};
ghost use Rattle.bit_words.specs.Words.{AreThere};
ghost use Rattle.sym_constants.specs.Tests.{as_lowest, test_built};

use aig_build::{Circuit, Lit};
use bit_words::gates::and;
use rvt_num::Memory;

/// Whether the literal is true and the number with these bits, the lowest first, is `number`.
pub fn test(circuit: &mut Circuit, also: Lit, bits: &[Lit], number: u64) -> Result<Lit, Memory>
    requires also_is_there { also.node < length circuit.old }
    requires bits_are_there { AreThere circuit.old bits.now }
    requires few { length bits.now ≤ 64 }
    ensures built { IfOk result (λ lit. test_built circuit.old also bits.now number ≡ record { nodes = circuit.new; lit = lit }) }
    ensures there { IfOk result (λ lit. lit.node < length circuit.new) }
    ensures grows { Grows circuit.old circuit.new }
{
    let wide = number as u128;
    let count = bits.len();
    let mut lit = first(circuit, also, wide >> count);
    'bits: for done in 0..count {
        let left = count - 1 - done;
        lit = and(circuit, lit, as_lowest(wide >> left, bits[left]))?;
    }
    Ok(lit)
}

/// The literal where the number is 0, else the constant false.
fn first(circuit: &Circuit, also: Lit, number: u128) -> Lit
    requires { also.node < length circuit.now }
    ensures same { result ≡ (if number == 0 then also else constant false) }
    ensures there { result.node < length circuit.now }
{
    let _count = circuit.nodes();
    if number == 0 {
        also
    } else {
        Lit::constant(false)
    }
}

/// The bit where the number is odd, else its opposite.
fn as_lowest(number: u128, bit: Lit) -> Lit
    ensures same { result ≡ as_lowest number bit }
    ensures there { result.node ≡ bit.node }
{
    if number % 2 == 1 { bit } else { bit.opposite() }
}
