//! Two applications of unknown functions, and the assignments under which they are congruent.
ghost use Rattle.std.specs.Prelude.{◌≡◌, ◌<◌, length, IfOk, OnOk};
ghost use Rattle.application_examples.specs.Calls.{key_of, one_shape, AreCalls};

use aig_build::{Circuit, Lit};
use bit_ops::SymValue;
use bit_words::Word;
use core_ir::Shape;
use rvt_num::{Kind, Trap};
use std::alloc::Global;
use std::process::Abort;
use std::test::Fail;
use uf_abstraction::{AnswerShape, Applications, EntryName};

/// The inputs of an application: a key, two traps, the 32 bits of an object word and of a cell word, and the 8 bits of a cell. Those
/// of the second application come behind those of the first.
const KEY: usize = 0;

const TRAPS: usize = 1;

const OBJECT: usize = 3;

const CELL: usize = 35;

const STORED: usize = 67;

const SECOND: usize = 75;

#[test]
fn literally_equal_keys_make_no_input(rt: HostRuntime) -> Result<(), Fail> {
    let alloc = rt.alloc();
    let mut circuit = Circuit::new(alloc);
    let mut applications = Applications::new(alloc);
    let x = circuit.input()?;
    apply(alloc, &mut circuit, &mut applications, EntryName::Old(3), x)?;
    assert_eq!(rt; circuit.inputs(), 75);
    assert!(rt; x.node < circuit.nodes());
    apply(alloc, &mut circuit, &mut applications, EntryName::Old(3), x)?;
    assert_eq!(rt; circuit.inputs(), 75);
    assert!(rt; x.node < circuit.nodes());
    apply(alloc, &mut circuit, &mut applications, EntryName::New(3), x)?;
    assert_eq!(rt; circuit.inputs(), 149);
    Ok(())
}

#[test]
fn equal_keys_of_one_name_have_equal_answers(rt: HostRuntime) -> Result<(), Fail> {
    let same = EntryName::Shared(5);
    assert!(rt; congruent(&rt, rt.alloc(), same, &[])?);
    assert!(rt; !congruent(&rt, rt.alloc(), same, &[STORED])?);
    assert!(rt; congruent(&rt, rt.alloc(), same, &[KEY, STORED])?);
    assert!(rt; !congruent(&rt, rt.alloc(), same, &[KEY, SECOND + KEY, STORED])?);
    assert!(rt;
        congruent(
            &rt,
            rt.alloc(),
            same,
            &[KEY, SECOND + KEY, STORED, SECOND + STORED]
        )?
    );
    assert!(rt; congruent(&rt, rt.alloc(), EntryName::Old(5), &[STORED])?);
    Ok(())
}

#[test]
fn one_trap_at_most(rt: HostRuntime) -> Result<(), Fail> {
    let other = EntryName::Old(5);
    assert!(rt; congruent(&rt, rt.alloc(), other, &[TRAPS])?);
    assert!(rt; congruent(&rt, rt.alloc(), other, &[TRAPS + 1])?);
    assert!(rt; !congruent(&rt, rt.alloc(), other, &[TRAPS, TRAPS + 1])?);
    Ok(())
}

#[test]
fn pointers_are_on_their_targets(rt: HostRuntime) -> Result<(), Fail> {
    let other = EntryName::Old(5);
    // Object 2 is the number 3. It has the cells 0 to 2, and its end is cell 3.
    assert!(rt;
        congruent(
            &rt,
            rt.alloc(),
            other,
            &[OBJECT, OBJECT + 1, CELL, CELL + 1]
        )?
    );
    assert!(rt; !congruent(&rt, rt.alloc(), other, &[OBJECT, OBJECT + 1, CELL + 2])?);
    // Object 4 is the number 5, and it is constant.
    assert!(rt; !congruent(&rt, rt.alloc(), other, &[OBJECT, OBJECT + 2])?);
    // Object 0 is no target, and null has no cell 1.
    assert!(rt; !congruent(&rt, rt.alloc(), other, &[OBJECT])?);
    assert!(rt; !congruent(&rt, rt.alloc(), other, &[CELL])?);
    Ok(())
}

/// Whether two applications, the first under `Shared(5)` and the second under this name, are congruent where these inputs are true.
fn congruent(
    rt: &impl Abort,
    alloc: Global,
    name: EntryName,
    inputs: &[usize],
) -> Result<bool, Fail> {
    let mut circuit = Circuit::new(alloc);
    let mut applications = Applications::new(alloc);
    let x = circuit.input()?;
    apply(
        alloc,
        &mut circuit,
        &mut applications,
        EntryName::Shared(5),
        x,
    )?;
    let y = circuit.input()?;
    apply(alloc, &mut circuit, &mut applications, name, y)?;
    let lit = applications.congruence(&mut circuit)?;
    let mut bits = vec![in alloc; false; circuit.inputs() as usize]?;
    for at in 0..inputs.len() {
        assert!(rt; inputs[at] < bits.len());
        bits[inputs[at]] = true;
    }
    assert!(rt; bits.len() as u64 == circuit.inputs());
    let mut scratch = vec![in alloc; false; circuit.nodes() as usize]?;
    Ok(circuit.value(lit, &bits, &mut scratch))
}

/// One more application, whose key is a number of which each bit is this literal.
fn apply(
    alloc: Global,
    circuit: &mut Circuit,
    applications: &mut Applications,
    name: EntryName,
    lit: Lit,
) -> Result<(), Fail>
    requires there { lit.node < length circuit.old }
    requires calls { AreCalls circuit.old applications.old }
    ensures { OnOk result (AreCalls circuit.new applications.new) }
{
    let key = key(alloc, lit)?;
    let shape = shape(alloc)?;
    applications.apply(circuit, name, &key, &shape)?;
    Ok(())
}

fn key(alloc: Global, lit: Lit) -> Result<Vec<SymValue>, Fail>
    ensures { IfOk result (λ key. key.items ≡ key_of lit) }
{
    let word = Word {
        kind: Kind::U8,
        bits: vec![in alloc; lit; 8]?,
    };
    let mut key = Vec::new(alloc);
    key.push(SymValue::Word(word))?;
    Ok(key)
}

fn shape(alloc: Global) -> Result<AnswerShape, Fail>
    ensures { IfOk result (λ shape. shape ≡ one_shape) }
{
    let mut traps = Vec::new(alloc);
    traps.push(Trap::Divide)?;
    traps.push(Trap::Shift)?;
    let mut results = Vec::new(alloc);
    results.push(Shape::Pointer(0, false))?;
    let mut cells = Vec::new(alloc);
    cells.push(Kind::U8)?;
    let mut targets = Vec::new(alloc);
    targets.push((2, 3, false))?;
    targets.push((4, 1, true))?;
    Ok(AnswerShape {
        traps,
        results,
        cells,
        targets,
    })
}
