ghost use Rattle.std.specs.Prelude.{◌≡◌, ◌/◌, ◌%◌, ◌<◌, Bool, List, length, IfOk};
ghost use Rattle.aig_build.specs.Circuits.{Grows};
ghost use Rattle.bit_words.specs.Words.{AreThere, number_of_bits, values};
ghost use Rattle.bit_ops.specs.Built.{place_built, quotient_built};

use aig_build::{Circuit, Lit};
use bit_words::cells::Cell;
use bit_words::ripples::{joined, opposites, repeated, ripple};
use rvt_num::Memory;
use std::alloc::Global;

/// One place of long division: whether the divisor fits into the remainder so far with the next bit, and what is left.
fn divide_place(
    alloc: Global,
    circuit: &mut Circuit,
    lowest: Lit,
    rest: &[Lit],
    divisor: &[Lit],
) -> Result<(Lit, Vec<Lit>), Memory>
    requires lowest_is_there { lowest.node < length circuit.old }
    requires rest_is_there { AreThere circuit.old rest.now }
    requires divisor_is_there { AreThere circuit.old divisor.now }
    requires same_width { length rest.now ≡ length divisor.now }
    ensures built { IfOk result (λ r. place_built circuit.old lowest rest.now divisor.now ≡ record { nodes = circuit.new; fits = r.0; rest = r.1.items }) }
    ensures width { IfOk result (λ r. length r.1.items ≡ length divisor.now) }
    ensures fits_there { IfOk result (λ r. r.0.node < length circuit.new) }
    ensures rest_there { IfOk result (λ r. AreThere circuit.new r.1.items) }
    ensures grows { Grows circuit.old circuit.new }
{
    let _count = circuit.nodes();
    let width = divisor.len();
    let so_far = joined(alloc, &[lowest], rest)?;
    let negative = opposites(alloc, divisor)?;
    let taken = joined(alloc, &negative, &[Lit::constant(true)])?;
    let (less, fits) = ripple(
        alloc,
        circuit,
        Cell::Sum,
        &so_far,
        &taken,
        Lit::constant(true),
    )?;
    let (left, _) = ripple(
        alloc,
        circuit,
        Cell::Choice,
        &less[..width],
        &so_far[..width],
        fits,
    )?;
    Ok((fits, left))
}

/// The quotient and the remainder of two numbers without a sign, where the divisor is not 0.
pub fn quotient(
    alloc: Global,
    circuit: &mut Circuit,
    a: &[Lit],
    divisor: &[Lit],
) -> Result<(Vec<Lit>, Vec<Lit>), Memory>
    requires a_is_there { AreThere circuit.old a.now }
    requires divisor_is_there { AreThere circuit.old divisor.now }
    ensures built { IfOk result (λ r. quotient_built circuit.old a.now divisor.now ≡ record { nodes = circuit.new; quotient = r.0.items; remainder = r.1.items }) }
    ensures quotient_value { IfOk result (λ r. (inputs : List Bool) → 0 < number_of_bits (values circuit.old inputs divisor.now) → number_of_bits (values circuit.new inputs r.0.items) ≡ number_of_bits (values circuit.old inputs a.now) / number_of_bits (values circuit.old inputs divisor.now)) }
    ensures remainder_value { IfOk result (λ r. (inputs : List Bool) → 0 < number_of_bits (values circuit.old inputs divisor.now) → number_of_bits (values circuit.new inputs r.1.items) ≡ number_of_bits (values circuit.old inputs a.now) % number_of_bits (values circuit.old inputs divisor.now)) }
    ensures quotient_width { IfOk result (λ r. length r.0.items ≡ length a.now) }
    ensures remainder_width { IfOk result (λ r. length r.1.items ≡ length divisor.now) }
    ensures quotient_there { IfOk result (λ r. AreThere circuit.new r.0.items) }
    ensures remainder_there { IfOk result (λ r. AreThere circuit.new r.1.items) }
    ensures grows { Grows circuit.old circuit.new }
{
    let _count = circuit.nodes();
    let mut quotient = Vec::new(alloc);
    let mut rest = repeated(alloc, Lit::constant(false), divisor.len())?;
    for done in 0..a.len() {
        let (fits, left) = divide_place(alloc, circuit, a[a.len() - 1 - done], &rest, divisor)?;
        quotient = joined(alloc, &[fits], &quotient)?;
        rest = left;
    }
    Ok((quotient, rest))
}
