ghost use Rattle.std.specs.Prelude.{◌≡◌, ◌≢◌, ℕ, ◌+◌, ◌<◌, ◌≤◌, ◌^◌, ◌++◌, length, IfOk, All, slice_index, slice_index_or, vec_len, IsTrue, false, true, pos, Contains, OnOk, ◌↔◌, ◌-◌, [], ◌∷◌, List, ℤ};
ghost use Rattle.clause_db.specs.Log.{literal_lists, results};
ghost use Rattle.unit_propagation.specs.Quiet.{IsFalseClause, IsQuiet};
ghost use Rattle.unit_propagation.specs.Status.{FitsVariables};
ghost use Rattle.unit_propagation.specs.Watching.{entries, IsWatched};
ghost use Rattle.sat_search.specs.Latest.{IsLatest};
ghost use Rattle.sat_search.specs.Learning.{IsSearching, last_start};
ghost use Rattle.sat_search.specs.Found.{IsFound};

use crate::activities::Activities;
use crate::decisions::Decides;
use crate::found::Found;
use crate::learning::{Latest, backjump};
use crate::restarts::Restarts;
use crate::shortening::learn;
use chain_resolution::MarkedClause;
use clause_db::{Clause, Clauses, Log, LogLine, Memory, largest_variable};
use std::alloc::Global;
use unit_propagation::{Trail, Value, Watches};

/// Makes the literal true that the rule chose, and answers whether there was one.
fn decide<D: Decides>(
    rule: &mut D,
    clauses: &Clauses,
    lines: &[LogLine],
    trail: &mut Trail,
    watches: &Watches,
) -> Result<bool, Memory>
    requires variables { 0 < length trail.old.places.items }
    requires searching { IsSearching (literal_lists clauses.now.list.items ++ results lines.now) trail.old.literals.items trail.old.starts.items trail.old.reasons.items }
    requires quiet { IsQuiet trail.old.literals.items (literal_lists clauses.now.list.items ++ results lines.now) }
    requires watched { IsWatched (literal_lists clauses.now.list.items ++ results lines.now) trail.old.literals.items trail.old.starts.items (length trail.old.places.items) watches.now.head watches.now.pairs.items (entries watches.now.lists.items) watches.now.pending.items }
    requires handled { watches.now.head ≡ length trail.old.literals.items }
    ensures searching { IfOk result (λ _. IsSearching (literal_lists clauses.now.list.items ++ results lines.now) trail.new.literals.items trail.new.starts.items trail.new.reasons.items) }
    ensures watched { IfOk result (λ _. IsWatched (literal_lists clauses.now.list.items ++ results lines.now) trail.new.literals.items trail.new.starts.items (length trail.new.places.items) watches.now.head watches.now.pairs.items (entries watches.now.lists.items) watches.now.pending.items) }
    ensures longer { IfOk result (λ decided. IsTrue decided → length trail.old.literals.items < length trail.new.literals.items) }
    ensures none_free { IfOk result (λ decided. decided ≡ false → (v : ℕ) → 0 < v → v < length trail.new.places.items → 0 < slice_index trail.new.places.items v) }
    ensures unchanged { IfOk result (λ decided. decided ≡ false → trail.new.literals.items ≡ trail.old.literals.items) }
    ensures variables { length trail.new.places.items ≡ length trail.old.places.items }
{
    match rule.choose(trail) {
        None => Ok(false),
        Some(literal) => {
            trail.open_level()?;
            trail.push(literal, 0)?;
            Ok(true)
        }
    }
}

/// Is the variable true?
fn is_true(trail: &Trail, v: usize) -> bool
    requires positive { 0 < v }
    requires within { v < length trail.now.places.items }
    ensures { (result ≡ true) ↔ Contains trail.now.literals.items (pos v) }
{
    match trail.value(v as i64) {
        Value::True => true,
        Value::False => false,
        Value::Free => false,
    }
}

/// The truth value of each variable from 1 on.
fn assignment_of(alloc: Global, trail: &Trail) -> Result<Vec<bool>, Memory>
    requires { 0 < length trail.now.places.items }
    ensures each_variable { IfOk result (λ values. length values.items + 1 ≡ length trail.now.places.items) }
    ensures says { IfOk result (λ values. (v : ℕ) → 0 < v → v < length trail.now.places.items → (slice_index_or values.items (v - 1) false ≡ true) ↔ Contains trail.now.literals.items (pos v)) }
{
    let mut values = Vec::new(alloc);
    for v in 1..trail.places.len() {
        match values.push(is_true(trail, v)) {
            Ok(()) => {}
            Err(_) => return Err(Memory),
        }
    }
    Ok(values)
}

fn push_line(log: &mut Log, line: LogLine) -> Result<(), Memory>
    ensures { OnOk result (log.new.lines.items ≡ log.old.lines.items ++ line ∷ []) }
{
    match log.lines.push(line) {
        Ok(()) => Ok(()),
        Err(_) => Err(Memory),
    }
}

/// Takes back all decisions.
fn take_back(trail: &mut Trail, watches: &mut Watches)
    ensures searching { (clauses : List (List ℤ)) → IsSearching clauses trail.old.literals.items trail.old.starts.items trail.old.reasons.items → IsSearching clauses trail.new.literals.items trail.new.starts.items trail.new.reasons.items }
    ensures variables { length trail.new.places.items ≡ length trail.old.places.items }
    ensures watched { (clauses : List (List ℤ)) → IsWatched clauses trail.old.literals.items trail.old.starts.items (length trail.old.places.items) watches.old.head watches.old.pairs.items (entries watches.old.lists.items) watches.old.pending.items → IsWatched clauses trail.new.literals.items trail.new.starts.items (length trail.new.places.items) watches.new.head watches.new.pairs.items (entries watches.new.lists.items) watches.new.pending.items }
    ensures known { watches.new.pairs ≡ watches.old.pairs }
{
    if trail.starts.is_empty() {
        return;
    }
    trail.cut(0);
    watches.rewind(trail);
}

/// Takes back the decisions behind the latest literal but one of a learnt clause, and makes its latest literal
/// true, or starts again where that is due.
fn jump<D: Decides>(
    rule: &mut D,
    restarts: &mut Restarts,
    clauses: &Clauses,
    lines: &[LogLine],
    trail: &mut Trail,
    watches: &mut Watches,
    learnt: &Clause,
    latest: Latest,
) -> Result<(), Memory>
    requires searching { IsSearching (literal_lists clauses.now.list.items ++ results lines.now) trail.old.literals.items trail.old.starts.items trail.old.reasons.items }
    requires decided { 0 < length trail.old.starts.items }
    requires all_false { IsFalseClause trail.old.literals.items learnt.now.literals.items }
    requires latest { IsLatest trail.old.places.items learnt.now.literals.items (length learnt.now.literals.items) latest.last latest.second }
    requires after { last_start trail.old.starts.items < latest.last }
    requires before { latest.second ≤ last_start trail.old.starts.items }
    requires watched { IsWatched (literal_lists clauses.now.list.items ++ results lines.now) trail.old.literals.items trail.old.starts.items (length trail.old.places.items) watches.old.head watches.old.pairs.items (entries watches.old.lists.items) watches.old.pending.items }
    ensures searching { OnOk result (IsSearching ((literal_lists clauses.now.list.items ++ results lines.now) ++ learnt.now.literals.items ∷ []) trail.new.literals.items trail.new.starts.items trail.new.reasons.items) }
    ensures variables { length trail.new.places.items ≡ length trail.old.places.items }
    ensures watched { OnOk result (IsWatched (literal_lists clauses.now.list.items ++ results lines.now) trail.new.literals.items trail.new.starts.items (length trail.new.places.items) watches.new.head watches.new.pairs.items (entries watches.new.lists.items) watches.new.pending.items) }
    ensures known { watches.new.pairs ≡ watches.old.pairs }
{
    rule.undoing(trail, latest.second);
    backjump(clauses, lines, trail, watches, learnt, latest)?;
    if restarts.is_due() {
        rule.undoing(trail, 0);
        take_back(trail, watches);
        return Ok(());
    }
    Ok(())
}

/// A search by this rule over clauses whose variables are at most this one.
fn search_over<D: Decides>(
    rule: &mut D,
    alloc: Global,
    clauses: &Clauses,
    variables: u64,
    limit: u32,
) -> Result<Found, Memory>
    requires limit { 0 < limit }
    requires bounded { variables < 2 ^ 59 }
    requires fits { FitsVariables (variables + 1) (literal_lists clauses.now.list.items) }
    ensures { IfOk result (IsFound (literal_lists clauses.now.list.items) variables limit) }
{
    let mut trail = Trail::new(alloc, variables as usize)?;
    let mut watches = Watches::over(alloc, clauses, variables as usize)?;
    let mut restarts = Restarts::new();
    let mut marks = MarkedClause::new(alloc);
    let mut log = Log {
        lines: Vec::new(alloc),
    };
    'steps: loop {
        match watches.propagate(clauses, &log.lines, &mut trail)? {
            Some(conflict) => {
                let learnt = learn(alloc, clauses, &log.lines, &trail, &mut marks, conflict)?;
                let latest = learnt.latest;
                if latest.last == 0 {
                    push_line(&mut log, learnt.line)?;
                    return Ok(Found::Refuted(log));
                }
                if log.lines.len() + 1 == limit as usize {
                    push_line(&mut log, learnt.line)?;
                    return Ok(Found::Budget(log));
                }
                rule.learnt(&learnt.line);
                jump(
                    rule,
                    &mut restarts,
                    clauses,
                    &log.lines,
                    &mut trail,
                    &mut watches,
                    &learnt.line.result,
                    latest,
                )?;
                push_line(&mut log, learnt.line)?;
                watches.add()?;
                rule.decay();
            }
            None => {
                if !decide(rule, clauses, &log.lines, &mut trail, &watches)? {
                    let values = assignment_of(alloc, &trail)?;
                    return Ok(Found::Satisfied(values, log.lines.len() as u32));
                }
            }
        }
    }
}

/// The larger one of two numbers.
fn larger(a: u64, b: u64) -> u64
    ensures first { a ≤ result }
    ensures second { b ≤ result }
{
    if a < b { b } else { a }
}

/// Looks for an assignment that makes every clause true, up to this many conflicts.
pub fn search(alloc: Global, clauses: &Clauses, limit: u32) -> Result<Found, Memory>
    requires { 0 < limit }
    ensures { IfOk result (IsFound (literal_lists clauses.now.list.items) clauses.now.variables limit) }
{
    let variables = larger(clauses.variables, largest_variable(&clauses.list));
    if variables >= 1 << 59 {
        return Err(Memory);
    }
    let mut rule = Activities::new(alloc, variables as usize)?;
    let found = search_over(&mut rule, alloc, clauses, variables, limit)?;
    Ok(found)
}
