//! The test of congruence. Applications are compared with the earlier ones of their name alone.

ghost use Rattle.std.specs.Prelude.{◌≡◌, ◌+◌, ◌<◌, ◌++◌, ◌∷◌, [], Some, fold, length, map, slice_get, take, IfOk, OnOk};
ghost use Rattle.std.specs.List.{AllByRecursion};
ghost use Rattle.aig_build.specs.Circuits.{Grows};
ghost use Rattle.aig_build.specs.declared.lits.Lit.{Lit as Literal};
ghost use Rattle.bit_words.specs.Words.{AreThere};
ghost use Rattle.core_ir.specs.declared.units.Shape.{Shape};
ghost use Rattle.rvt_num.specs.declared.values.Trap.{Trap as Kind};
ghost use Rattle.uf_abstraction.specs.Applications as spec;
ghost use Rattle.uf_abstraction.specs.Applications.{Application, LitAnswer, trap_lits};
ghost use Rattle.uf_abstraction.specs.Applying.{IsThere};
ghost use Rattle.uf_abstraction.specs.Groups.{AreGroups, IsNoted, at_places, places_of};
ghost use Rattle.uf_abstraction.specs.Names.{application_of, meant, IsAsked};
ghost use Rattle.uf_abstraction.specs.Testing as test;
ghost use Rattle.uf_abstraction.specs.Testing.{congruence_built, no_traps, one_trap_built, with_trap_test, AreLaidOut, IsComparable};

use crate::answers::Answer;
use crate::applications::{Question, Reply};
use crate::copies::key_lits;
use crate::names::EntryName;
use crate::pointers::with_results;
use aig_build::{Circuit, Lit};
use bit_words::cells::Cell;
use bit_words::gates::{and, or};
use bit_words::ripples::{carried, joined, push};
use indexmap::IndexMap;
use rvt_num::{Memory, Trap};
use std::alloc::Global;

/// The literals of the traps of an answer.
fn trap_literals(alloc: Global, traps: &[(Trap, Lit)]) -> Result<Vec<Lit>, Memory>
    ensures { IfOk result (λ lits. lits.items ≡ trap_lits traps.now) }
{
    let mut lits = Vec::new(alloc);
    'traps: for trap in traps {
        push(&mut lits, trap.1)?;
    }
    Ok(lits)
}

/// All literals of an answer.
fn answer_lits(alloc: Global, answer: &Answer) -> Result<Vec<Lit>, Memory>
    ensures { IfOk result (λ lits. lits.items ≡ spec.answer_lits answer.now) }
{
    let traps = trap_literals(alloc, &answer.trap)?;
    let results = key_lits(alloc, &answer.results)?;
    let cells = key_lits(alloc, &answer.cells)?;
    let values = joined(alloc, &results, &cells)?;
    let lits = joined(alloc, &traps, &values)?;
    Ok(lits)
}

/// Whether two lists of literals have equal values.
fn equal(circuit: &mut Circuit, first: &[Lit], second: &[Lit]) -> Result<Lit, Memory>
    requires some { 0 < length circuit.old }
    requires first_is_there { AreThere circuit.old first.now }
    requires second_is_there { AreThere circuit.old second.now }
    requires same_length { length first.now ≡ length second.now }
    ensures built { IfOk result (λ lit. test.equal_built circuit.old first.now second.now ≡ record { nodes = circuit.new; lit = lit }) }
    ensures there { IfOk result (λ lit. lit.node < length circuit.new) }
    ensures grows { Grows circuit.old circuit.new }
{
    let lit = carried(circuit, Cell::Equal, first, second, Lit::constant(true))?;
    Ok(lit)
}

/// What holds so far, and that an application is alike to an earlier one of its name.
#[tactic(auto, unfolding(crate::specs::Testing::with_pair, crate::specs::Testing::alike_built))]
fn with_pair(
    alloc: Global,
    circuit: &mut Circuit,
    question: &Question,
    reply: &Reply,
    earlier: &Question,
    earlier_reply: &Reply,
    so_far: Lit,
) -> Result<Lit, Memory>
    requires so_far_is_there { so_far.node < length circuit.old }
    requires asked { IsAsked (question.now, reply.now) }
    requires earlier_asked { IsAsked (earlier.now, earlier_reply.now) }
    requires this_is_there { IsThere circuit.old (application_of (question.now, reply.now)) }
    requires earlier_is_there { IsThere circuit.old (application_of (earlier.now, earlier_reply.now)) }
    requires comparable { IsComparable (application_of (earlier.now, earlier_reply.now)) (application_of (question.now, reply.now)) }
    ensures built { IfOk result (λ lit. test.with_pair (application_of (question.now, reply.now)) (record { nodes = circuit.old; lit = so_far }) (application_of (earlier.now, earlier_reply.now)) ≡ record { nodes = circuit.new; lit = lit }) }
    ensures there { IfOk result (λ lit. lit.node < length circuit.new) }
    ensures grows { Grows circuit.old circuit.new }
{
    let answer = answer_lits(alloc, &reply.answer)?;
    let earlier_answer = answer_lits(alloc, &earlier_reply.answer)?;
    let keys = equal(circuit, &earlier.lits, &question.lits)?;
    let answers = equal(circuit, &earlier_answer, &answer)?;
    let apart = and(circuit, keys, answers.opposite())?;
    let lit = and(circuit, so_far, apart.opposite())?;
    Ok(lit)
}

/// One more trap: whether one is true so far, and whether no two of them are.
#[tactic(auto, unfolding(crate::specs::Testing::with_trap_test))]
fn with_trap(
    circuit: &mut Circuit,
    some: Lit,
    single: Lit,
    trap: &(Trap, Lit),
) -> Result<(Lit, Lit), Memory>
    requires some_is_there { some.node < length circuit.old }
    requires single_is_there { single.node < length circuit.old }
    requires trap_is_there { trap.now.1.node < length circuit.old }
    ensures built { IfOk result (λ r. with_trap_test (record { nodes = circuit.old; some = some; single = single }) trap.now ≡ record { nodes = circuit.new; some = r.0; single = r.1 }) }
    ensures some_there { IfOk result (λ r. r.0.node < length circuit.new) }
    ensures single_there { IfOk result (λ r. r.1.node < length circuit.new) }
    ensures grows { Grows circuit.old circuit.new }
{
    let two = and(circuit, some, trap.1)?;
    let single = and(circuit, single, two.opposite())?;
    let some = or(circuit, some, trap.1)?;
    Ok((some, single))
}

/// Whether at most one trap is true.
fn one_trap(circuit: &mut Circuit, traps: &[(Trap, Lit)]) -> Result<Lit, Memory>
    requires some { 0 < length circuit.old }
    requires traps_are_there { AreThere circuit.old (trap_lits traps.now) }
    ensures built { IfOk result (λ lit. one_trap_built circuit.old traps.now ≡ record { nodes = circuit.new; lit = lit }) }
    ensures there { IfOk result (λ lit. lit.node < length circuit.new) }
    ensures grows { Grows circuit.old circuit.new }
{
    let mut some = Lit::constant(false);
    let mut single = Lit::constant(true);
    'traps: for at in 0..traps.len() {
        let (next_some, next_single) = with_trap(circuit, some, single, &traps[at])?;
        some = next_some;
        single = next_single;
    }
    Ok(single)
}

/// What holds so far, and that an answer has at most one trap and its pointers on their targets.
fn with_answer(
    alloc: Global,
    circuit: &mut Circuit,
    question: &Question,
    reply: &Reply,
    so_far: Lit,
) -> Result<Lit, Memory>
    requires so_far_is_there { so_far.node < length circuit.old }
    requires answer_is_there { IsThere circuit.old (application_of (question.now, reply.now)) }
    requires one_a_shape { length reply.now.shape.results ≡ length reply.now.answer.results }
    ensures built { IfOk result (λ lit. test.with_answer (record { nodes = circuit.old; lit = so_far }) (application_of (question.now, reply.now)) ≡ record { nodes = circuit.new; lit = lit }) }
    ensures there { IfOk result (λ lit. lit.node < length circuit.new) }
    ensures grows { Grows circuit.old circuit.new }
{
    let single = one_trap(circuit, &reply.answer.trap)?;
    let both = and(circuit, so_far, single)?;
    let lit = with_results(
        alloc,
        circuit,
        &reply.shape.targets,
        &reply.shape.results,
        &reply.answer.results,
        both,
    )?;
    Ok(lit)
}

/// An application by its place.
fn entry<'a>(made: &'a IndexMap<Question, Reply>, place: usize) -> (&'a Question, &'a Reply)
    requires { place < length made.now.entries }
    ensures { slice_get made.now.entries place ≡ Some (result.0.now, result.1.now) }
{
    match made.get_index(place) {
        Some(entry) => entry,
        None => unreachable!(),
    }
}

/// What holds so far, and that an application is alike to those at these places.
fn with_places(
    alloc: Global,
    made: &IndexMap<Question, Reply>,
    circuit: &mut Circuit,
    places: &[usize],
    question: &Question,
    reply: &Reply,
    so_far: Lit,
) -> Result<Lit, Memory>
    requires so_far_is_there { so_far.node < length circuit.old }
    requires asked { AllByRecursion IsAsked made.now.entries }
    requires this_asked { IsAsked (question.now, reply.now) }
    requires this_is_there { IsThere circuit.old (application_of (question.now, reply.now)) }
    requires all_there { AllByRecursion (IsThere circuit.old) (map application_of made.now.entries) }
    requires places { AllByRecursion (λ place. place < length made.now.entries) places.now }
    requires comparable { AllByRecursion (λ a. IsComparable a (application_of (question.now, reply.now))) (at_places (map application_of made.now.entries) places.now) }
    ensures built { IfOk result (λ lit. fold (test.with_pair (application_of (question.now, reply.now))) (record { nodes = circuit.old; lit = so_far }) (at_places (map application_of made.now.entries) places.now) ≡ record { nodes = circuit.new; lit = lit }) }
    ensures there { IfOk result (λ lit. lit.node < length circuit.new) }
    ensures grows { Grows circuit.old circuit.new }
{
    let mut lit = so_far;
    'places: for at in 0..places.len() {
        let (earlier, earlier_reply) = entry(made, places[at]);
        lit = with_pair(alloc, circuit, question, reply, earlier, earlier_reply, lit)?;
    }
    Ok(lit)
}

/// What holds so far, and that an application is alike to the earlier ones of its name.
fn with_earlier(
    alloc: Global,
    made: &IndexMap<Question, Reply>,
    circuit: &mut Circuit,
    groups: &IndexMap<EntryName, Vec<usize>>,
    place: usize,
    so_far: Lit,
) -> Result<Lit, Memory>
    requires so_far_is_there { so_far.node < length circuit.old }
    requires asked { AllByRecursion IsAsked made.now.entries }
    requires all_there { AllByRecursion (IsThere circuit.old) (map application_of made.now.entries) }
    requires laid_out { AreLaidOut (map application_of made.now.entries) }
    requires in_range { place < length made.now.entries }
    requires grouped { AreGroups (map application_of made.now.entries) place (places_of groups.now.entries) }
    ensures built { IfOk result (λ lit. (b : Application) → slice_get (map application_of made.now.entries) place ≡ Some b → test.with_earlier b (record { nodes = circuit.old; lit = so_far }) (take place (map application_of made.now.entries)) ≡ record { nodes = circuit.new; lit = lit }) }
    ensures there { IfOk result (λ lit. lit.node < length circuit.new) }
    ensures grows { Grows circuit.old circuit.new }
{
    let (question, reply) = entry(made, place);
    match groups.get(&question.name) {
        Some(places) => {
            let lit = with_places(alloc, made, circuit, places, question, reply, so_far)?;
            Ok(lit)
        }
        None => Ok(so_far),
    }
}

/// One more place of a name.
fn note(
    alloc: Global,
    groups: &mut IndexMap<EntryName, Vec<usize>>,
    name: EntryName,
    place: usize,
) -> Result<(), Memory>
    ensures { OnOk result (IsNoted name place (places_of groups.old.entries) (places_of groups.new.entries)) }
{
    let mut places = match groups.swap_remove(&name) {
        Some(places) => places,
        None => Vec::new(alloc),
    };
    push_place(&mut places, place)?;
    match groups.insert(name, places) {
        Ok(_) => Ok(()),
        Err(_) => Err(Memory),
    }
}

fn push_place(places: &mut Vec<usize>, place: usize) -> Result<(), Memory>
    ensures { OnOk result (places.new.items ≡ places.old.items ++ place ∷ []) }
{
    match places.push(place) {
        Ok(()) => Ok(()),
        Err(_) => Err(Memory),
    }
}

/// What holds so far, and what the application at a place adds to it.
fn with_application(
    alloc: Global,
    made: &IndexMap<Question, Reply>,
    circuit: &mut Circuit,
    groups: &IndexMap<EntryName, Vec<usize>>,
    place: usize,
    so_far: Lit,
) -> Result<Lit, Memory>
    requires so_far_is_there { so_far.node < length circuit.old }
    requires asked { AllByRecursion IsAsked made.now.entries }
    requires all_there { AllByRecursion (IsThere circuit.old) (map application_of made.now.entries) }
    requires laid_out { AreLaidOut (map application_of made.now.entries) }
    requires in_range { place < length made.now.entries }
    requires grouped { AreGroups (map application_of made.now.entries) place (places_of groups.now.entries) }
    ensures built { IfOk result (λ lit. (b : Application) → slice_get (map application_of made.now.entries) place ≡ Some b → test.with_application (record { nodes = circuit.old; lit = so_far; before = take place (map application_of made.now.entries) }) b ≡ record { nodes = circuit.new; lit = lit; before = take (place + 1) (map application_of made.now.entries) }) }
    ensures there { IfOk result (λ lit. lit.node < length circuit.new) }
    ensures grows { Grows circuit.old circuit.new }
{
    let alike = with_earlier(alloc, made, circuit, groups, place, so_far)?;
    let (question, reply) = entry(made, place);
    let lit = with_answer(alloc, circuit, question, reply, alike)?;
    Ok(lit)
}

/// Notes the application at a place under its name.
fn note_entry(
    alloc: Global,
    made: &IndexMap<Question, Reply>,
    groups: &mut IndexMap<EntryName, Vec<usize>>,
    place: usize,
) -> Result<(), Memory>
    requires in_range { place < length made.now.entries }
    requires grouped { AreGroups (map application_of made.now.entries) place (places_of groups.old.entries) }
    ensures { OnOk result (AreGroups (map application_of made.now.entries) (place + 1) (places_of groups.new.entries)) }
{
    let (question, _) = entry(made, place);
    note(alloc, groups, question.name, place)?;
    Ok(())
}

/// A literal that is true exactly where the applications are congruent.
pub fn test_congruence(
    alloc: Global,
    made: &IndexMap<Question, Reply>,
    circuit: &mut Circuit,
) -> Result<Lit, Memory>
    requires some { 0 < length circuit.old }
    requires asked { AllByRecursion IsAsked made.now.entries }
    requires all_there { AllByRecursion (IsThere circuit.old) (map application_of made.now.entries) }
    requires laid_out { AreLaidOut (map application_of made.now.entries) }
    ensures built { IfOk result (λ lit. congruence_built circuit.old (map application_of made.now.entries) ≡ record { nodes = circuit.new; lit = lit }) }
    ensures there { IfOk result (λ lit. lit.node < length circuit.new) }
    ensures grows { Grows circuit.old circuit.new }
{
    let mut groups = IndexMap::new(alloc);
    let mut lit = Lit::constant(true);
    'made: for place in 0..made.len() {
        lit = with_application(alloc, made, circuit, &groups, place, lit)?;
        note_entry(alloc, made, &mut groups, place)?;
    }
    Ok(lit)
}
