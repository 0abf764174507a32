ghost use Rattle.std.specs.Prelude.{◌≡◌, ◌<◌, [], false, length, option_copied, slice_get, true, IfOk, OnOk};
ghost use Rattle.aig_build.specs.Circuits.{Grows, constant};
ghost use Rattle.bit_words.specs.Built.{sign_bit};
ghost use Rattle.bit_words.specs.Words.{AreThere};
ghost use Rattle.sym_spots.specs.Aims.{index_tests, indexed, spread, spread_one, word_test, word_tests};
ghost use Rattle.sym_spots.specs.Spots.{AreAimsThere};
ghost use Rattle.sym_values.specs.Values.{all_lits};

use crate::aims::{Aim, moved, push_aim};
use aig_build::{Circuit, Lit};
use bit_ops::SymValue;
use bit_words::Word;
use bit_words::gates::{and, or};
use bit_words::ripples::push;
use core_ir::Index;
use rvt_num::Memory;
use std::alloc::Global;
use sym_constants::test;

/// The aims moved by all indexes, and whether all indexes are in range.
pub fn indexed(
    alloc: Global,
    circuit: &mut Circuit,
    registers: &[SymValue],
    aims: Vec<Aim>,
    indexes: &[Index],
) -> Result<(Vec<Aim>, Lit), Memory>
    requires registers_are_there { AreThere circuit.old (all_lits registers.now) }
    requires aims_are_there { AreAimsThere circuit.old aims.items }
    ensures built { IfOk result (λ r. indexed registers.now circuit.old aims.items (constant true) indexes.now ≡ record { nodes = circuit.new; aims = r.0.items; any = r.1 }) }
    ensures aims_there { IfOk result (λ r. AreAimsThere circuit.new r.0.items) }
    ensures inside_there { IfOk result (λ r. r.1.node < length circuit.new) }
    ensures grows { Grows circuit.old circuit.new }
{
    let _count = circuit.nodes();
    let mut aims = aims;
    let mut inside = Lit::constant(true);
    for at in 0..indexes.len() {
        let index = indexes[at];
        let (tests, any) = index_tests(alloc, circuit, registers, index)?;
        let all = and(circuit, inside, any)?;
        let next = spread(alloc, circuit, &aims, &tests, index.size as u64)?;
        aims = next;
        inside = all;
    }
    Ok((aims, inside))
}

/// For 0, 1 and so on whether the index is it, and whether it is one of them.
fn index_tests(
    alloc: Global,
    circuit: &mut Circuit,
    registers: &[SymValue],
    index: Index,
) -> Result<(Vec<Lit>, Lit), Memory>
    requires registers_are_there { AreThere circuit.old (all_lits registers.now) }
    ensures built { IfOk result (λ r. index_tests circuit.old (slice_get registers.now index.register) index.count ≡ record { nodes = circuit.new; lits = r.0.items; any = r.1 }) }
    ensures lits_there { IfOk result (λ r. AreThere circuit.new r.0.items) }
    ensures any_there { IfOk result (λ r. r.1.node < length circuit.new) }
    ensures grows { Grows circuit.old circuit.new }
{
    let _count = circuit.nodes();
    match value_at(registers, index.register) {
        Some(SymValue::Word(word)) => {
            let tests = word_tests(alloc, circuit, word, index.count)?;
            Ok(tests)
        }
        _ => Ok((Vec::new(alloc), Lit::constant(false))),
    }
}

/// The register, if it is there.
pub fn value_at(registers: &[SymValue], register: u32) -> Option<&SymValue>
    ensures { option_copied result ≡ slice_get registers.now register }
{
    registers.get(register as usize)
}

fn word_tests(
    alloc: Global,
    circuit: &mut Circuit,
    word: &Word,
    count: u32,
) -> Result<(Vec<Lit>, Lit), Memory>
    requires word_is_there { AreThere circuit.old word.now.bits }
    ensures built { IfOk result (λ r. word_tests circuit.old word.now count ≡ record { nodes = circuit.new; lits = r.0.items; any = r.1 }) }
    ensures lits_there { IfOk result (λ r. AreThere circuit.new r.0.items) }
    ensures any_there { IfOk result (λ r. r.1.node < length circuit.new) }
    ensures grows { Grows circuit.old circuit.new }
{
    let _count = circuit.nodes();
    let mut lits = Vec::new(alloc);
    let mut any = Lit::constant(false);
    for number in 0..count {
        let lit = word_test(circuit, word, number as u64)?;
        let one = or(circuit, any, lit)?;
        push(&mut lits, lit)?;
        any = one;
    }
    Ok((lits, any))
}

/// Whether the number of a word is this one.
fn word_test(circuit: &mut Circuit, word: &Word, number: u64) -> Result<Lit, Memory>
    requires word_is_there { AreThere circuit.old word.now.bits }
    ensures built { IfOk result (λ lit. word_test circuit.old word.now number ≡ record { nodes = circuit.new; lit = lit }) }
    ensures there { IfOk result (λ lit. lit.node < length circuit.new) }
    ensures grows { Grows circuit.old circuit.new }
{
    let _count = circuit.nodes();
    let lit = test(circuit, sign_of(word).opposite(), &word.bits, number)?;
    Ok(lit)
}

/// The highest bit of a word of a signed kind, and for others the constant false.
fn sign_of(word: &Word) -> Lit
    ensures { result ≡ sign_bit word.now }
{
    if word.kind.is_signed() {
        word.bits[word.bits.len() - 1]
    } else {
        Lit::constant(false)
    }
}

/// Each aim moved by each value of an index.
fn spread(
    alloc: Global,
    circuit: &mut Circuit,
    aims: &[Aim],
    tests: &[Lit],
    size: u64,
) -> Result<Vec<Aim>, Memory>
    requires aims_are_there { AreAimsThere circuit.old aims.now }
    requires tests_are_there { AreThere circuit.old tests.now }
    ensures built { IfOk result (λ r. spread size tests.now circuit.old [] aims.now ≡ record { nodes = circuit.new; aims = r.items }) }
    ensures there { IfOk result (λ r. AreAimsThere circuit.new r.items) }
    ensures grows { Grows circuit.old circuit.new }
{
    let mut out = Vec::new(alloc);
    for at in 0..aims.len() {
        spread_one(circuit, &mut out, aims[at], tests, size)?;
    }
    Ok(out)
}

/// One aim moved by each value of an index.
fn spread_one(
    circuit: &mut Circuit,
    out: &mut Vec<Aim>,
    aim: Aim,
    tests: &[Lit],
    size: u64,
) -> Result<(), Memory>
    requires aim_is_there { aim.lit.node < length circuit.old }
    requires out_is_there { AreAimsThere circuit.old out.old.items }
    requires tests_are_there { AreThere circuit.old tests.now }
    ensures built { OnOk result (spread_one aim.lit size circuit.old aim.target out.old.items tests.now ≡ record { nodes = circuit.new; aims = out.new.items }) }
    ensures there { OnOk result (AreAimsThere circuit.new out.new.items) }
    ensures grows { Grows circuit.old circuit.new }
{
    let mut target = aim.target;
    for at in 0..tests.len() {
        let here = and(circuit, aim.lit, tests[at])?;
        push_aim(out, here, target)?;
        target = moved(target, size)?;
    }
    Ok(())
}
