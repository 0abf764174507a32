ghost use Rattle.std.specs.Prelude.{◌≡◌, ◌≢◌, ℕ, ◌+◌, ◌<◌, ◌≤◌, [], ◌∷◌, ◌++◌, length, slice_index, slice_index_or, All, Contains, Option, IfOk, OnOk, IfSome, Some, None, true, IsTrue, ◌^◌};
ghost use Rattle.clause_db.specs.Literal.{variable_of, opposite, IsOrdered};
ghost use Rattle.clause_db.specs.Log.{literal_lists, results};
ghost use Rattle.unit_propagation.specs.Places.{literal_at};
ghost use Rattle.unit_propagation.specs.Quiet.{HasReasons};
ghost use Rattle.unit_propagation.specs.Status.{FitsVariables, Extends};
ghost use Rattle.unit_propagation.specs.Watching.{entries, watching, IsGuarded, IsWatched};
ghost use Rattle.unit_propagation.specs.Visiting.{IsNearer};
ghost use Rattle.unit_propagation.specs.Settling.{IsStanding, IsSettled, IsSettleStep, AreSettled, IsSettleEnd, IsBehindDecisions};

use crate::literals::next_not_false;
use crate::trail::{Trail, Value};
use crate::visits::Step;
use crate::watches::{Watched, Watches, code, enter};
use clause_db::{Clause, Clauses, LogLine, Memory, clause_at, variable};

/// What a trail says of a whole clause.
#[derive(Clone, Copy, Debug, PartialEq, Eq)]
pub enum Standing {
    /// Neither of these two is false.
    Two(i64, i64),
    /// The literal at this place is true, and all others are false.
    OneTrue(usize),
    /// This literal is free, and all others are false.
    Forces(i64),
    /// All are false.
    AllFalse,
}

fn standing_of(clause: &[i64], trail: &Trail) -> Standing
    requires ordered { IsOrdered clause.now }
    requires fits { All (λ l. variable_of l < length trail.now.places.items) clause.now }
    ensures { IsStanding trail.now.literals.items clause.now result }
{
    let first = next_not_false(clause, trail, 0);
    match first.value {
        Value::False => Standing::AllFalse,
        Value::True => {
            let second = next_not_false(clause, trail, first.place + 1);
            match second.value {
                Value::False => Standing::OneTrue(first.place),
                Value::True => Standing::Two(clause[first.place], clause[second.place]),
                Value::Free => Standing::Two(clause[first.place], clause[second.place]),
            }
        }
        Value::Free => {
            let second = next_not_false(clause, trail, first.place + 1);
            match second.value {
                Value::False => Standing::Forces(clause[first.place]),
                Value::True => Standing::Two(clause[first.place], clause[second.place]),
                Value::Free => Standing::Two(clause[first.place], clause[second.place]),
            }
        }
    }
}

/// The place of the literal that became false last, beside the one at this place.
fn latest_beside(clause: &[i64], trail: &Trail, beside: usize) -> Option<usize>
    requires { All (λ l. variable_of l < length trail.now.places.items) clause.now }
    ensures within { IfSome result (λ place. place < length clause.now) }
    ensures apart { IfSome result (λ place. place ≢ beside) }
{
    let mut latest = None;
    let mut last = 0;
    for place in 0..clause.len() {
        if place != beside {
            let here = trail.places[variable(clause[place]) as usize];
            if here > last {
                last = here;
                latest = Some(place);
            }
        }
    }
    latest
}

/// Did the variable become known on the last decision?
fn is_of_last_level(trail: &Trail, literal: i64) -> bool
    requires { variable_of literal < length trail.now.places.items }
    ensures { IsTrue result → IsBehindDecisions trail.now.starts.items (slice_index trail.now.places.items (variable_of literal)) }
{
    if trail.starts.is_empty() {
        return true;
    }
    trail.places[variable(literal) as usize] > trail.starts[trail.starts.len() - 1]
}

/// The literal that a clause with a true one can watch beside it.
fn partner(clause: &[i64], trail: &Trail, beside: usize) -> Option<i64>
    requires ordered { IsOrdered clause.now }
    requires fits { All (λ l. variable_of l < length trail.now.places.items) clause.now }
    requires within { beside < length clause.now }
    ensures has { IfSome result (λ l. Contains clause.now l) }
    ensures apart { IfSome result (λ l. literal_at clause.now beside ≢ l) }
    ensures late { IfSome result (λ l. IsBehindDecisions trail.now.starts.items (slice_index trail.now.places.items (variable_of l))) }
{
    match latest_beside(clause, trail, beside) {
        None => None,
        Some(place) => {
            if is_of_last_level(trail, clause[place]) {
                Some(clause[place])
            } else {
                None
            }
        }
    }
}

/// Has a clause watch these two literals.
fn watch(
    clauses: &Clauses,
    lines: &[LogLine],
    trail: &Trail,
    watches: &mut Watches,
    index: usize,
    first: i64,
    second: i64,
) -> Result<(), Memory>
    requires fits { FitsVariables (length trail.now.places.items) (literal_lists clauses.now.list.items ++ results lines.now) }
    requires watched { IsWatched (literal_lists clauses.now.list.items ++ results lines.now) trail.now.literals.items trail.now.starts.items (length trail.now.places.items) watches.old.head watches.old.pairs.items (entries watches.old.lists.items) watches.old.pending.items }
    requires within { index < length watches.old.pairs.items }
    requires has_first { Contains (slice_index_or (literal_lists clauses.now.list.items ++ results lines.now) index []) first }
    requires has_second { Contains (slice_index_or (literal_lists clauses.now.list.items ++ results lines.now) index []) second }
    requires differ { first ≢ second }
    requires first_guarded { IsGuarded trail.now.literals.items trail.now.starts.items watches.old.head (slice_index_or (literal_lists clauses.now.list.items ++ results lines.now) index []) first }
    requires second_guarded { IsGuarded trail.now.literals.items trail.now.starts.items watches.old.head (slice_index_or (literal_lists clauses.now.list.items ++ results lines.now) index []) second }
    ensures watched { OnOk result (IsWatched (literal_lists clauses.now.list.items ++ results lines.now) trail.now.literals.items trail.now.starts.items (length trail.now.places.items) watches.new.head watches.new.pairs.items (entries watches.new.lists.items) watches.new.pending.items) }
    ensures head { watches.new.head ≡ watches.old.head }
    ensures pending { watches.new.pending.items ≡ watches.old.pending.items }
    ensures known { length watches.new.pairs.items ≡ length watches.old.pairs.items }
    ensures here { OnOk result (slice_index_or watches.new.pairs.items index None ≢ None) }
{
    watches.pairs[index] = Some(Watched { first, second });
    let place_of_first = code(&watches.lists, first);
    enter(&mut watches.lists, place_of_first, index)?;
    let place_of_second = code(&watches.lists, second);
    enter(&mut watches.lists, place_of_second, index)?;
    Ok(())
}

/// What became of a clause that was looked at as a whole.
#[derive(Clone, Copy, Debug, PartialEq, Eq)]
pub enum Settled {
    /// It is watched now.
    Guarded,
    /// One of its literals is true.
    Satisfied,
    /// All are false.
    Falsified,
}

/// Looks at a whole clause.
fn settle(
    clauses: &Clauses,
    lines: &[LogLine],
    trail: &mut Trail,
    watches: &mut Watches,
    index: usize,
    clause: &Clause,
) -> Result<Settled, Memory>
    requires fits { FitsVariables (length trail.old.places.items) (literal_lists clauses.now.list.items ++ results lines.now) }
    requires reasons { HasReasons (literal_lists clauses.now.list.items ++ results lines.now) trail.old.literals.items trail.old.starts.items trail.old.reasons.items }
    requires watched { IsWatched (literal_lists clauses.now.list.items ++ results lines.now) trail.old.literals.items trail.old.starts.items (length trail.old.places.items) watches.old.head watches.old.pairs.items (entries watches.old.lists.items) watches.old.pending.items }
    requires within { index < length watches.old.pairs.items }
    requires here { clause.now.literals.items ≡ slice_index_or (literal_lists clauses.now.list.items ++ results lines.now) index [] }
    ensures extends { IfOk result (λ _. Extends trail.old.literals.items trail.new.literals.items) }
    ensures starts { IfOk result (λ _. trail.new.starts.items ≡ trail.old.starts.items) }
    ensures variables { length trail.new.places.items ≡ length trail.old.places.items }
    ensures reasons_kept { IfOk result (λ _. HasReasons (literal_lists clauses.now.list.items ++ results lines.now) trail.new.literals.items trail.new.starts.items trail.new.reasons.items) }
    ensures head { watches.new.head ≡ watches.old.head }
    ensures pending { watches.new.pending.items ≡ watches.old.pending.items }
    ensures known { length watches.new.pairs.items ≡ length watches.old.pairs.items }
    ensures watched { IfOk result (λ _. IsWatched (literal_lists clauses.now.list.items ++ results lines.now) trail.new.literals.items trail.new.starts.items (length trail.new.places.items) watches.new.head watches.new.pairs.items (entries watches.new.lists.items) watches.new.pending.items) }
    ensures settled { IfOk result (IsSettled trail.new.literals.items (slice_index_or (literal_lists clauses.now.list.items ++ results lines.now) index []) (slice_index_or watches.new.pairs.items index None)) }
{
    match standing_of(&clause.literals, trail) {
        Standing::Two(first, second) => {
            watch(clauses, lines, trail, watches, index, first, second)?;
            Ok(Settled::Guarded)
        }
        Standing::OneTrue(place) => match partner(&clause.literals, trail, place) {
            None => Ok(Settled::Satisfied),
            Some(second) => {
                let first = clause.literals[place];
                watch(clauses, lines, trail, watches, index, first, second)?;
                Ok(Settled::Guarded)
            }
        },
        Standing::Forces(literal) => {
            trail.push(literal, index as u64 + 1)?;
            Ok(Settled::Satisfied)
        }
        Standing::AllFalse => Ok(Settled::Falsified),
    }
}

/// Looks at the pending clause at a place as a whole.
fn settle_at(
    clauses: &Clauses,
    lines: &[LogLine],
    trail: &mut Trail,
    watches: &mut Watches,
    place: usize,
) -> Result<Step, Memory>
    requires fits { FitsVariables (length trail.old.places.items) (literal_lists clauses.now.list.items ++ results lines.now) }
    requires reasons { HasReasons (literal_lists clauses.now.list.items ++ results lines.now) trail.old.literals.items trail.old.starts.items trail.old.reasons.items }
    requires settled { AreSettled (literal_lists clauses.now.list.items ++ results lines.now) trail.old.literals.items trail.old.starts.items (length trail.old.places.items) watches.old.head place watches.old.pairs.items (entries watches.old.lists.items) watches.old.pending.items }
    requires within { place < length watches.old.pending.items }
    requires next { place + 1 < 2 ^ 64 }
    ensures extends { IfOk result (λ _. Extends trail.old.literals.items trail.new.literals.items) }
    ensures starts { IfOk result (λ _. trail.new.starts.items ≡ trail.old.starts.items) }
    ensures variables { length trail.new.places.items ≡ length trail.old.places.items }
    ensures reasons_kept { IfOk result (λ _. HasReasons (literal_lists clauses.now.list.items ++ results lines.now) trail.new.literals.items trail.new.starts.items trail.new.reasons.items) }
    ensures head { watches.new.head ≡ watches.old.head }
    ensures known { length watches.new.pairs.items ≡ length watches.old.pairs.items }
    ensures step { IfOk result (IsSettleStep (literal_lists clauses.now.list.items ++ results lines.now) trail.new.literals.items trail.new.starts.items (length trail.new.places.items) watches.new.head watches.new.pairs.items (entries watches.new.lists.items) watches.new.pending.items) }
    ensures nearer { IfOk result (IsNearer (length watches.old.pending.items) place (length watches.new.pending.items)) }
{
    let index = watches.pending[place];
    if index >= watches.pairs.len() {
        return Ok(Step::At(place + 1));
    }
    match clause_at(clauses, lines, index as u64 + 1) {
        None => unreachable!(),
        Some(clause) => match settle(clauses, lines, trail, watches, index, clause)? {
            Settled::Falsified => Ok(Step::Fails(index as u64 + 1)),
            Settled::Guarded => {
                watches.pending.swap_remove(place);
                Ok(Step::At(place))
            }
            Settled::Satisfied => {
                if trail.starts.is_empty() {
                    watches.pending.swap_remove(place);
                    return Ok(Step::At(place));
                }
                Ok(Step::At(place + 1))
            }
        },
    }
}

/// Looks at each pending clause as a whole.
pub fn settle_all(
    clauses: &Clauses,
    lines: &[LogLine],
    trail: &mut Trail,
    watches: &mut Watches,
) -> Result<Option<u64>, Memory>
    requires fits { FitsVariables (length trail.old.places.items) (literal_lists clauses.now.list.items ++ results lines.now) }
    requires reasons { HasReasons (literal_lists clauses.now.list.items ++ results lines.now) trail.old.literals.items trail.old.starts.items trail.old.reasons.items }
    requires watched { IsWatched (literal_lists clauses.now.list.items ++ results lines.now) trail.old.literals.items trail.old.starts.items (length trail.old.places.items) watches.old.head watches.old.pairs.items (entries watches.old.lists.items) watches.old.pending.items }
    ensures extends { IfOk result (λ _. Extends trail.old.literals.items trail.new.literals.items) }
    ensures starts { IfOk result (λ _. trail.new.starts.items ≡ trail.old.starts.items) }
    ensures variables { length trail.new.places.items ≡ length trail.old.places.items }
    ensures reasons_kept { IfOk result (λ _. HasReasons (literal_lists clauses.now.list.items ++ results lines.now) trail.new.literals.items trail.new.starts.items trail.new.reasons.items) }
    ensures head { watches.new.head ≡ watches.old.head }
    ensures known { length watches.new.pairs.items ≡ length watches.old.pairs.items }
    ensures settled { IfOk result (IsSettleEnd (literal_lists clauses.now.list.items ++ results lines.now) trail.new.literals.items trail.new.starts.items (length trail.new.places.items) watches.new.head watches.new.pairs.items (entries watches.new.lists.items) watches.new.pending.items) }
{
    let mut place = 0;
    'entries: while place < watches.pending.len() {
        match settle_at(clauses, lines, trail, watches, place)? {
            Step::At(next) => place = next,
            Step::Fails(number) => return Ok(Some(number)),
        }
    }
    Ok(None)
}
