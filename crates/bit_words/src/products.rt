ghost use Rattle.std.specs.Prelude.{◌≡◌, ◌+◌, ◌<◌, false, ◌≤◌, length, map, IfOk};
ghost use Rattle.aig_build.specs.Circuits.{Grows, constant, opposite};
ghost use Rattle.bit_words.specs.Built.{row_built, add_row_built, product_built};
ghost use Rattle.bit_words.specs.Words.{AreThere};

use crate::cells::Cell;
use crate::ripples::{joined, repeated, ripple};
use aig_build::{Circuit, Lit};
use rvt_num::Memory;
use std::alloc::Global;

/// The product of two numbers of one width, cut to that width.
pub fn product(
    alloc: Global,
    circuit: &mut Circuit,
    a: &[Lit],
    b: &[Lit],
) -> Result<Vec<Lit>, Memory>
    requires a_is_there { AreThere circuit.old a.now }
    requires b_is_there { AreThere circuit.old b.now }
    requires same_width { length a.now ≡ length b.now }
    ensures built { IfOk result (λ r. product_built circuit.old a.now b.now ≡ record { nodes = circuit.new; bits = r.items; carry = constant false }) }
    ensures width { IfOk result (λ r. length r.items ≡ length a.now) }
    ensures there { IfOk result (λ r. AreThere circuit.new r.items) }
    ensures grows { Grows circuit.old circuit.new }
{
    let _count = circuit.nodes();
    if b.is_empty() {
        return Ok(Vec::new(alloc));
    }
    let row = row(alloc, circuit, a, b[0])?;
    let high = product(alloc, circuit, &a[..a.len() - 1], &b[1..])?;
    let sum = add_row(alloc, circuit, &row, &high)?;
    Ok(sum)
}

/// The word where the literal is true, else 0.
fn row(alloc: Global, circuit: &mut Circuit, a: &[Lit], lit: Lit) -> Result<Vec<Lit>, Memory>
    requires a_is_there { AreThere circuit.old a.now }
    requires lit_is_there { lit.node < length circuit.old }
    ensures nodes { IfOk result (λ r. (row_built circuit.old a.now lit).nodes ≡ circuit.new) }
    ensures bits { IfOk result (λ r. (row_built circuit.old a.now lit).bits ≡ r.items) }
    ensures width { IfOk result (λ r. length r.items ≡ length a.now) }
    ensures there { IfOk result (λ r. AreThere circuit.new r.items) }
    ensures grows { Grows circuit.old circuit.new }
{
    let copies = repeated(alloc, lit, a.len())?;
    let none = Lit::constant(false);
    let _count = circuit.nodes();
    let (bits, _) = ripple(alloc, circuit, Cell::And, a, &copies, none)?;
    Ok(bits)
}

/// The sum of a row and twice a number that is one bit shorter.
fn add_row(
    alloc: Global,
    circuit: &mut Circuit,
    row: &[Lit],
    high: &[Lit],
) -> Result<Vec<Lit>, Memory>
    requires row_is_there { AreThere circuit.old row.now }
    requires high_is_there { AreThere circuit.old high.now }
    requires one_shorter { length row.now ≡ length high.now + 1 }
    ensures built { IfOk result (λ r. add_row_built circuit.old row.now high.now ≡ record { nodes = circuit.new; bits = r.items; carry = constant false }) }
    ensures grows { Grows circuit.old circuit.new }
{
    let (sum, _) = ripple(
        alloc,
        circuit,
        Cell::Sum,
        &row[1..],
        high,
        Lit::constant(false),
    )?;
    let bits = joined(alloc, &row[..1], &sum)?;
    Ok(bits)
}
