ghost use Rattle.std.specs.Prelude.{◌≡◌, ◌≢◌, ℕ, ℤ, List, ◌<◌, ◌≤◌, [], ◌++◌, length, All, Contains, IfOk, OnOk, slice_index, IsTrue};
ghost use Rattle.chain_resolution.specs.Marked.{marked};
ghost use Rattle.clause_db.specs.Literal.{variable_of};
ghost use Rattle.clause_db.specs.Log.{literal_lists, results, IsDerived};
ghost use Rattle.clause_db.specs.Numbered.{IsNumbered};
ghost use Rattle.clause_db.specs.Propagation.{StrengthensPropagation};
ghost use Rattle.unit_propagation.specs.Quiet.{IsFalseClause};
ghost use Rattle.sat_search.specs.Latest.{IsLatest};
ghost use Rattle.sat_search.specs.Learning.{IsSearching, last_start};
ghost use Rattle.sat_search.specs.Parts.{IsPartFrom, ResolvesOn};

use crate::activities::place_at;
use crate::learning::{Latest, latest_of, level_bound, resolve_back};
use chain_resolution::MarkedClause;
use clause_db::{Clause, Clauses, LogLine, Memory, clause_at, variable};
use std::alloc::Global;
use unit_propagation::Trail;

/// Is the literal of the pivot, or one of the clause?
fn is_known(marks: &MarkedClause, literal: i64, pivot: u64) -> bool
    requires { 0 < variable_of literal }
    ensures { IsTrue result → variable_of literal ≢ pivot → Contains (marked marks.now.table.items) literal }
{
    if variable(literal) == pivot {
        return true;
    }
    marks.has(literal)
}

/// Has the clause each literal of another one but that of the pivot?
fn is_within(other: &Clause, marks: &MarkedClause, pivot: u64) -> bool
    ensures { IsTrue result → (l : ℤ) → Contains other.now.literals.items l → variable_of l ≢ pivot → Contains (marked marks.now.table.items) l }
{
    for place in 0..other.literals.len() {
        if !is_known(marks, other.literals[place], pivot) {
            return false;
        }
    }
    true
}

/// Resolves the literal that stands at a place of the trail away, where its reason has no literal that the clause
/// hasn't. From the bound on literals are kept.
fn resolve_within(
    clauses: &Clauses,
    lines: &[LogLine],
    trail: &Trail,
    marks: &mut MarkedClause,
    pivots: &mut Vec<(u64, u64)>,
    place: usize,
    bound: usize,
) -> Result<(), Memory>
    ensures part { OnOk result (IsPartFrom trail.now.places.items bound (marked marks.old.table.items) (marked marks.new.table.items)) }
    ensures chain { OnOk result (ResolvesOn (literal_lists clauses.now.list.items ++ results lines.now) pivots.old.items (marked marks.old.table.items) pivots.new.items (marked marks.new.table.items)) }
{
    if place == 0 {
        return Ok(());
    }
    if place >= bound {
        return Ok(());
    }
    if place > trail.literals.len() {
        return Ok(());
    }
    let pivot = variable(trail.literals[place - 1]);
    let number = trail.reasons[pivot as usize];
    let Some(other) = clause_at(clauses, lines, number) else {
        return Ok(());
    };
    if !is_within(other, marks, pivot) {
        return Ok(());
    }
    if !marks.resolve_with(other, pivot)? {
        return Ok(());
    }
    match pivots.push((pivot, number)) {
        Ok(()) => {}
        Err(_) => return Err(Memory),
    }
    Ok(())
}

/// Resolves what it can away, of the literals at these places of the trail.
fn shorten(
    clauses: &Clauses,
    lines: &[LogLine],
    trail: &Trail,
    marks: &mut MarkedClause,
    pivots: &mut Vec<(u64, u64)>,
    places: &[usize],
    bound: usize,
) -> Result<(), Memory>
    ensures part { OnOk result (IsPartFrom trail.now.places.items bound (marked marks.old.table.items) (marked marks.new.table.items)) }
    ensures chain { OnOk result (ResolvesOn (literal_lists clauses.now.list.items ++ results lines.now) pivots.old.items (marked marks.old.table.items) pivots.new.items (marked marks.new.table.items)) }
{
    for index in 0..places.len() {
        resolve_within(clauses, lines, trail, marks, pivots, places[index], bound)?;
    }
    Ok(())
}

/// The places on the trail where a clause's variables became known, the latest one first.
fn places_of(alloc: Global, marks: &MarkedClause, trail: &Trail) -> Result<Vec<usize>, Memory> {
    let mut places = Vec::new(alloc);
    for index in 0..marks.touched.len() {
        let v = marks.touched[index];
        if !marks.mentions(v as u64) {
            continue;
        }
        match places.push(place_at(&trail.places, v)) {
            Ok(()) => {}
            Err(_) => return Err(Memory),
        }
    }
    places.sort_unstable();
    places.reverse();
    Ok(places)
}

/// A clause that was learnt, as a line of a log, and the two latest places of its literals.
#[derive(Debug, Drop)]
pub struct Learnt {
    pub line: LogLine,
    pub latest: Latest,
}

/// Resolves a clause that is false back to one with a single literal of the last decision, or to the empty
/// clause where there is no decision, and leaves out the literals that the others make false.
pub fn learn(
    alloc: Global,
    clauses: &Clauses,
    lines: &[LogLine],
    trail: &Trail,
    marks: &mut MarkedClause,
    conflict: u64,
) -> Result<Learnt, Memory>
    requires searching { IsSearching (literal_lists clauses.now.list.items ++ results lines.now) trail.now.literals.items trail.now.starts.items trail.now.reasons.items }
    requires conflict { (clause : _) × IsNumbered (literal_lists clauses.now.list.items ++ results lines.now) conflict clause × IsFalseClause trail.now.literals.items clause }
    ensures derived { IfOk result (λ learnt. IsDerived (literal_lists clauses.now.list.items ++ results lines.now) learnt.line) }
    ensures all_false { IfOk result (λ learnt. IsFalseClause trail.now.literals.items learnt.line.result.literals.items) }
    ensures latest { IfOk result (λ learnt. IsLatest trail.now.places.items learnt.line.result.literals.items (length learnt.line.result.literals.items) learnt.latest.last learnt.latest.second) }
    ensures empty { IfOk result (λ learnt. length trail.now.starts.items ≡ 0 → learnt.line.result.literals.items ≡ []) }
    ensures one_behind { IfOk result (λ learnt. 0 < length trail.now.starts.items → (last_start trail.now.starts.items < learnt.latest.last) × (learnt.latest.second ≤ last_start trail.now.starts.items)) }
    ensures strengthens { IfOk result (λ learnt. 0 < length trail.now.starts.items → StrengthensPropagation (literal_lists clauses.now.list.items ++ results lines.now) learnt.line.result.literals.items) }
{
    let mut pivots = resolve_back(alloc, clauses, lines, trail, marks, conflict)?;
    let places = places_of(alloc, marks, trail)?;
    let bound = level_bound(trail);
    shorten(clauses, lines, trail, marks, &mut pivots, &places, bound)?;
    let result = marks.clause(alloc)?;
    let latest = latest_of(&result.literals, trail);
    let line = LogLine {
        first: conflict,
        pivots,
        result,
    };
    Ok(Learnt { line, latest })
}
