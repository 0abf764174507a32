ghost use Rattle.std.specs.Prelude.{◌≡◌, ◌<◌, ◌++◌, ◌∷◌, [], length, IfOk, OnOk};
ghost use Rattle.aig_build.specs.Circuits.{Grows};
ghost use Rattle.bit_words.specs.Words.{AreThere};
ghost use Rattle.sym_values.specs.Values.{all_lits, lits_of};
ghost use Rattle.sym_store.specs.Merging.{merged_lit, merged_lits, merged_word, merged_value, merged_values, IsAlike, AreAlike};

use crate::copies::push_value;
use aig_build::{Circuit, Lit};
use bit_ops::SymValue;
use bit_words::Word;
use bit_words::gates::choice;
use bit_words::ripples::push;
use rvt_num::Memory;
use std::alloc::Global;

/// The values of the first list where the literal is true, else those of the second. Where both have one literal, no gate is made.
pub fn merge(
    alloc: Global,
    circuit: &mut Circuit,
    which: Lit,
    first: &[SymValue],
    second: &[SymValue],
) -> Result<Vec<SymValue>, Memory>
    requires which_is_there { which.node < length circuit.old }
    requires first_is_there { AreThere circuit.old (all_lits first.now) }
    requires second_is_there { AreThere circuit.old (all_lits second.now) }
    requires alike { AreAlike first.now second.now }
    ensures built { IfOk result (λ values. merged_values circuit.old which first.now second.now ≡ record { nodes = circuit.new; values = values.items }) }
    ensures there { IfOk result (λ values. AreThere circuit.new (all_lits values.items)) }
    ensures grows { Grows circuit.old circuit.new }
{
    let mut values = Vec::new(alloc);
    for at in 0..first.len() {
        let value = merge_value(alloc, circuit, which, &first[at], &second[at])?;
        push_value(&mut values, value)?;
    }
    Ok(values)
}

/// The first value where the literal is true, else the second. Where both have one literal, no gate is made.
#[tactic(auto, unfolding(crate::specs::Merging::merged_value))]
pub fn merge_value(
    alloc: Global,
    circuit: &mut Circuit,
    which: Lit,
    first: &SymValue,
    second: &SymValue,
) -> Result<SymValue, Memory>
    requires which_is_there { which.node < length circuit.old }
    requires first_is_there { AreThere circuit.old (lits_of first.now) }
    requires second_is_there { AreThere circuit.old (lits_of second.now) }
    requires alike { IsAlike first.now second.now }
    ensures built { IfOk result (λ value. merged_value circuit.old which first.now second.now ≡ record { nodes = circuit.new; value = value }) }
    ensures there { IfOk result (λ value. AreThere circuit.new (lits_of value)) }
    ensures grows { Grows circuit.old circuit.new }
{
    match (first, second) {
        (SymValue::Word(a), SymValue::Word(b)) => {
            let word = merge_word(alloc, circuit, which, a, b)?;
            Ok(SymValue::Word(word))
        }
        (SymValue::Pointer(object, cell), SymValue::Pointer(other_object, other_cell)) => {
            let object = merge_word(alloc, circuit, which, object, other_object)?;
            let cell = merge_word(alloc, circuit, which, cell, other_cell)?;
            Ok(SymValue::Pointer(object, cell))
        }
        _ => unreachable!(),
    }
}

fn merge_word(
    alloc: Global,
    circuit: &mut Circuit,
    which: Lit,
    first: &Word,
    second: &Word,
) -> Result<Word, Memory>
    requires which_is_there { which.node < length circuit.old }
    requires first_is_there { AreThere circuit.old first.now.bits }
    requires second_is_there { AreThere circuit.old second.now.bits }
    requires same_kind { first.now.kind ≡ second.now.kind }
    ensures built { IfOk result (λ word. merged_word circuit.old which first.now second.now ≡ record { nodes = circuit.new; word = word }) }
    ensures there { IfOk result (λ word. AreThere circuit.new word.bits) }
    ensures grows { Grows circuit.old circuit.new }
{
    let bits = merge_lits(alloc, circuit, which, &first.bits, &second.bits)?;
    Ok(Word {
        kind: first.kind,
        bits,
    })
}

fn merge_lits(
    alloc: Global,
    circuit: &mut Circuit,
    which: Lit,
    first: &[Lit],
    second: &[Lit],
) -> Result<Vec<Lit>, Memory>
    requires which_is_there { which.node < length circuit.old }
    requires first_is_there { AreThere circuit.old first.now }
    requires second_is_there { AreThere circuit.old second.now }
    requires same_width { length first.now ≡ length second.now }
    ensures built { IfOk result (λ lits. merged_lits circuit.old which first.now second.now ≡ record { nodes = circuit.new; lits = lits.items }) }
    ensures width { IfOk result (λ lits. length lits.items ≡ length first.now) }
    ensures there { IfOk result (λ lits. AreThere circuit.new lits.items) }
    ensures grows { Grows circuit.old circuit.new }
{
    let mut lits = Vec::new(alloc);
    for at in 0..first.len() {
        let lit = merge_lit(circuit, which, first[at], second[at])?;
        push(&mut lits, lit)?;
    }
    Ok(lits)
}

fn merge_lit(circuit: &mut Circuit, which: Lit, a: Lit, b: Lit) -> Result<Lit, Memory>
    requires which_is_there { which.node < length circuit.old }
    requires a_is_there { a.node < length circuit.old }
    requires b_is_there { b.node < length circuit.old }
    ensures built { IfOk result (λ lit. merged_lit circuit.old which a b ≡ record { nodes = circuit.new; lit = lit }) }
    ensures there { IfOk result (λ lit. lit.node < length circuit.new) }
    ensures grows { Grows circuit.old circuit.new }
{
    if a == b {
        return Ok(a);
    }
    let lit = choice(circuit, which, a, b)?;
    Ok(lit)
}
