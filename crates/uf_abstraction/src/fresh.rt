//! Answers of fresh inputs.

ghost use Rattle.std.specs.Prelude.{◌≡◌, ◌∷◌, [], ◌++◌, map, IfOk, OnOk};
ghost use Rattle.aig_build.specs.Built.{input_built};
ghost use Rattle.core_ir.specs.declared.units.Shape.TheVariants.{Word as word_shape};
ghost use Rattle.uf_abstraction.specs.Applying.{fresh_lits, fresh_word, fresh_value, fresh_values, fresh_traps, fresh_answer};

use crate::answers::{Answer, AnswerShape};
use aig_build::{Circuit, Lit};
use bit_ops::SymValue;
use bit_words::Word;
use bit_words::ripples::push;
use core_ir::Shape;
use rvt_num::{Kind, Memory, Trap};
use std::alloc::Global;

fn input(circuit: &mut Circuit) -> Result<Lit, Memory>
    ensures built { IfOk result (λ lit. input_built circuit.old ≡ record { nodes = circuit.new; lit = lit }) }
{
    match circuit.input() {
        Ok(lit) => Ok(lit),
        Err(_) => Err(Memory),
    }
}

/// This many inputs.
fn fresh_bits(alloc: Global, circuit: &mut Circuit, count: u32) -> Result<Vec<Lit>, Memory>
    ensures built { IfOk result (λ lits. fresh_lits circuit.old count ≡ record { nodes = circuit.new; lits = lits.items }) }
{
    let mut lits = Vec::new(alloc);
    'bits: for _ in 0..count {
        let lit = input(circuit)?;
        push(&mut lits, lit)?;
    }
    Ok(lits)
}

/// A word of inputs.
fn make_word(alloc: Global, circuit: &mut Circuit, kind: Kind) -> Result<Word, Memory>
    ensures built { IfOk result (λ word. fresh_word circuit.old kind ≡ record { nodes = circuit.new; word = word }) }
{
    let bits = fresh_bits(alloc, circuit, kind.width())?;
    Ok(Word { kind, bits })
}

/// A value of inputs.
fn make_value(alloc: Global, circuit: &mut Circuit, shape: Shape) -> Result<SymValue, Memory>
    ensures built { IfOk result (λ value. fresh_value circuit.old shape ≡ record { nodes = circuit.new; value = value }) }
{
    match shape {
        Shape::Word(kind) => {
            let word = make_word(alloc, circuit, kind)?;
            Ok(SymValue::Word(word))
        }
        Shape::Pointer(_, _) => {
            let object = make_word(alloc, circuit, Kind::U32)?;
            let cell = make_word(alloc, circuit, Kind::U32)?;
            Ok(SymValue::Pointer(object, cell))
        }
    }
}

/// A value for each shape.
fn make_values(
    alloc: Global,
    circuit: &mut Circuit,
    shapes: &[Shape],
) -> Result<Vec<SymValue>, Memory>
    ensures built { IfOk result (λ values. fresh_values circuit.old shapes.now ≡ record { nodes = circuit.new; values = values.items }) }
{
    let mut values = Vec::new(alloc);
    'shapes: for shape in shapes {
        let value = make_value(alloc, circuit, *shape)?;
        push_value(&mut values, value)?;
    }
    Ok(values)
}

pub fn push_value(values: &mut Vec<SymValue>, value: SymValue) -> Result<(), Memory>
    ensures { OnOk result (values.new.items ≡ values.old.items ++ value ∷ []) }
{
    match values.push(value) {
        Ok(()) => Ok(()),
        Err(_) => Err(Memory),
    }
}

/// An input for each trap.
fn make_traps(
    alloc: Global,
    circuit: &mut Circuit,
    traps: &[Trap],
) -> Result<Vec<(Trap, Lit)>, Memory>
    ensures built { IfOk result (λ made. fresh_traps circuit.old traps.now ≡ record { nodes = circuit.new; traps = made.items }) }
{
    let mut made = Vec::new(alloc);
    'traps: for trap in traps {
        let lit = input(circuit)?;
        push_trap(&mut made, *trap, lit)?;
    }
    Ok(made)
}

pub fn push_trap(traps: &mut Vec<(Trap, Lit)>, trap: Trap, lit: Lit) -> Result<(), Memory>
    ensures { OnOk result (traps.new.items ≡ traps.old.items ++ (trap, lit) ∷ []) }
{
    match traps.push((trap, lit)) {
        Ok(()) => Ok(()),
        Err(_) => Err(Memory),
    }
}

/// The shapes of words of these kinds.
fn word_shapes(alloc: Global, kinds: &[Kind]) -> Result<Vec<Shape>, Memory>
    ensures { IfOk result (λ shapes. shapes.items ≡ map word_shape kinds.now) }
{
    let mut shapes = Vec::new(alloc);
    'kinds: for kind in kinds {
        push_shape(&mut shapes, Shape::Word(*kind))?;
    }
    Ok(shapes)
}

fn push_shape(shapes: &mut Vec<Shape>, shape: Shape) -> Result<(), Memory>
    ensures { OnOk result (shapes.new.items ≡ shapes.old.items ++ shape ∷ []) }
{
    match shapes.push(shape) {
        Ok(()) => Ok(()),
        Err(_) => Err(Memory),
    }
}

/// An answer of inputs: first the traps, then the results, then the cells.
pub fn make_answer(
    alloc: Global,
    circuit: &mut Circuit,
    shape: &AnswerShape,
) -> Result<Answer, Memory>
    ensures built { IfOk result (λ answer. fresh_answer circuit.old shape.now ≡ record { nodes = circuit.new; answer = answer }) }
{
    let cell_shapes = word_shapes(alloc, &shape.cells)?;
    let trap = make_traps(alloc, circuit, &shape.traps)?;
    let results = make_values(alloc, circuit, &shape.results)?;
    let cells = make_values(alloc, circuit, &cell_shapes)?;
    Ok(Answer {
        trap,
        results,
        cells,
    })
}
