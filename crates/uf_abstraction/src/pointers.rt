//! Tests of pointers: whether one is null, or on one of its targets.

ghost use Rattle.std.specs.Prelude.{◌≡◌, ◌<◌, ◌++◌, fold, length, IfOk};
ghost use Rattle.aig_build.specs.Circuits.{Grows};
ghost use Rattle.bit_words.specs.Words.{AreThere};
ghost use Rattle.sym_values.specs.Values.{all_lits, lits_of};
ghost use Rattle.uf_abstraction.specs.Testing as spec;
ghost use Rattle.uf_abstraction.specs.Testing.{null_built, number_lits, target_built};

use aig_build::{Circuit, Lit};
use bit_ops::SymValue;
use bit_words::Word;
use bit_words::cells::Cell;
use bit_words::gates::{and, or};
use bit_words::ripples::{carried, joined, push, repeated};
use core_ir::Shape;
use rvt_num::Memory;
use std::alloc::Global;

/// The lowest bits of a number, as literals.
fn make_number(alloc: Global, width: usize, number: u64) -> Result<Vec<Lit>, Memory>
    ensures { IfOk result (λ lits. lits.items ≡ number_lits width number) }
{
    let mut lits = Vec::new(alloc);
    let mut left = number;
    'bits: for _ in 0..width {
        push(&mut lits, Lit::constant(left % 2 == 1))?;
        left = left / 2;
    }
    Ok(lits)
}

/// Whether a pointer is on this target.
#[tactic(auto, unfolding(crate::specs::Testing::target_built))]
fn on_target(
    alloc: Global,
    circuit: &mut Circuit,
    object: &Word,
    cell: &Word,
    target: (u32, u32, bool),
) -> Result<Lit, Memory>
    requires some { 0 < length circuit.old }
    requires object_is_there { AreThere circuit.old object.now.bits }
    requires cell_is_there { AreThere circuit.old cell.now.bits }
    ensures built { IfOk result (λ lit. target_built circuit.old object.now cell.now target ≡ record { nodes = circuit.new; lit = lit }) }
    ensures there { IfOk result (λ lit. lit.node < length circuit.new) }
    ensures grows { Grows circuit.old circuit.new }
{
    let bits = joined(alloc, &object.bits, &[Lit::constant(false)])?;
    let number = make_number(alloc, bits.len(), target.0 as u64 + 1)?;
    let named = carried(circuit, Cell::Equal, &bits, &number, Lit::constant(true))?;
    let most = make_number(alloc, cell.bits.len(), target.1 as u64)?;
    let within = carried(circuit, Cell::Less, &cell.bits, &most, Lit::constant(true))?;
    let both = and(circuit, named, within)?;
    Ok(both)
}

/// What holds so far, or that a pointer is on this target, unless it is a constant one for a `T *`.
#[tactic(auto, unfolding(crate::specs::Testing::or_target))]
fn or_target(
    alloc: Global,
    circuit: &mut Circuit,
    object: &Word,
    cell: &Word,
    to_const: bool,
    so_far: Lit,
    target: (u32, u32, bool),
) -> Result<Lit, Memory>
    requires so_far_is_there { so_far.node < length circuit.old }
    requires object_is_there { AreThere circuit.old object.now.bits }
    requires cell_is_there { AreThere circuit.old cell.now.bits }
    ensures built { IfOk result (λ lit. spec.or_target to_const object.now cell.now (record { nodes = circuit.old; lit = so_far }) target ≡ record { nodes = circuit.new; lit = lit }) }
    ensures there { IfOk result (λ lit. lit.node < length circuit.new) }
    ensures grows { Grows circuit.old circuit.new }
{
    if to_const || !target.2 {
        let on = on_target(alloc, circuit, object, cell, target)?;
        let either = or(circuit, so_far, on)?;
        Ok(either)
    } else {
        Ok(so_far)
    }
}

/// Whether a pointer is null: all its bits are zero.
fn is_null(alloc: Global, circuit: &mut Circuit, object: &Word, cell: &Word) -> Result<Lit, Memory>
    requires some { 0 < length circuit.old }
    requires object_is_there { AreThere circuit.old object.now.bits }
    requires cell_is_there { AreThere circuit.old cell.now.bits }
    ensures built { IfOk result (λ lit. null_built circuit.old (object.now.bits ++ cell.now.bits) ≡ record { nodes = circuit.new; lit = lit }) }
    ensures there { IfOk result (λ lit. lit.node < length circuit.new) }
    ensures grows { Grows circuit.old circuit.new }
{
    let bits = joined(alloc, &object.bits, &cell.bits)?;
    let zeros = repeated(alloc, Lit::constant(false), bits.len())?;
    let lit = carried(circuit, Cell::Equal, &bits, &zeros, Lit::constant(true))?;
    Ok(lit)
}

/// Whether a pointer is null or on one of its targets.
#[tactic(auto, unfolding(crate::specs::Testing::pointer_built))]
fn on_targets(
    alloc: Global,
    circuit: &mut Circuit,
    object: &Word,
    cell: &Word,
    to_const: bool,
    targets: &[(u32, u32, bool)],
) -> Result<Lit, Memory>
    requires some { 0 < length circuit.old }
    requires object_is_there { AreThere circuit.old object.now.bits }
    requires cell_is_there { AreThere circuit.old cell.now.bits }
    ensures built { IfOk result (λ lit. spec.pointer_built circuit.old targets.now to_const object.now cell.now ≡ record { nodes = circuit.new; lit = lit }) }
    ensures there { IfOk result (λ lit. lit.node < length circuit.new) }
    ensures grows { Grows circuit.old circuit.new }
{
    let mut lit = is_null(alloc, circuit, object, cell)?;
    'targets: for at in 0..targets.len() {
        lit = or_target(alloc, circuit, object, cell, to_const, lit, targets[at])?;
    }
    Ok(lit)
}

/// What holds so far, and that a result is null or on one of the targets, if it is a pointer.
#[tactic(auto, unfolding(crate::specs::Testing::with_result))]
fn with_result(
    alloc: Global,
    circuit: &mut Circuit,
    targets: &[(u32, u32, bool)],
    shape: Shape,
    value: &SymValue,
    so_far: Lit,
) -> Result<Lit, Memory>
    requires so_far_is_there { so_far.node < length circuit.old }
    requires value_is_there { AreThere circuit.old (lits_of value.now) }
    ensures built { IfOk result (λ lit. spec.with_result targets.now (record { nodes = circuit.old; lit = so_far }) shape value.now ≡ record { nodes = circuit.new; lit = lit }) }
    ensures there { IfOk result (λ lit. lit.node < length circuit.new) }
    ensures grows { Grows circuit.old circuit.new }
{
    match (shape, value) {
        (Shape::Pointer(_, to_const), SymValue::Pointer(object, cell)) => {
            let on = on_targets(alloc, circuit, object, cell, to_const, targets)?;
            let both = and(circuit, so_far, on)?;
            Ok(both)
        }
        _ => Ok(so_far),
    }
}

/// What holds so far, and that each pointer among the results is null or on one of the targets.
pub fn with_results(
    alloc: Global,
    circuit: &mut Circuit,
    targets: &[(u32, u32, bool)],
    shapes: &[Shape],
    values: &[SymValue],
    so_far: Lit,
) -> Result<Lit, Memory>
    requires so_far_is_there { so_far.node < length circuit.old }
    requires values_are_there { AreThere circuit.old (all_lits values.now) }
    requires one_a_shape { length shapes.now ≡ length values.now }
    ensures built { IfOk result (λ lit. spec.with_results targets.now (record { nodes = circuit.old; lit = so_far }) shapes.now values.now ≡ record { nodes = circuit.new; lit = lit }) }
    ensures there { IfOk result (λ lit. lit.node < length circuit.new) }
    ensures grows { Grows circuit.old circuit.new }
{
    let mut lit = so_far;
    'results: for at in 0..shapes.len() {
        lit = with_result(alloc, circuit, targets, shapes[at], &values[at], lit)?;
    }
    Ok(lit)
}
