ghost use Rattle.std.specs.Prelude.{◌≡◌, ℕ, ◌+◌, ◌<◌, ◌≤◌, ◌^◌, [], ◌∷◌, ◌++◌, length, slice_index_or, All, Contains, Option, IfOk, Some, None};
ghost use Rattle.clause_db.specs.Literal.{variable_of, opposite, IsOrdered};
ghost use Rattle.clause_db.specs.Log.{literal_lists, results};
ghost use Rattle.unit_propagation.specs.Quiet.{HasReasons};
ghost use Rattle.unit_propagation.specs.Status.{FitsVariables, Extends};
ghost use Rattle.unit_propagation.specs.Watching.{entries, watching, IsCovered, IsWatched};
ghost use Rattle.unit_propagation.specs.Visiting.{IsReplacement, IsLookBeside, IsLook, IsLookAt, IsVisiting, IsVisitStep, IsNearer, IsVisitEnd};

use crate::trail::{Trail, Value};
use crate::watches::{Watched, Watches, code, enter, entry, leave};
use clause_db::{Clause, Clauses, LogLine, Memory, clause_at};

/// What is to be done about a clause where a literal that it watches became false.
#[derive(Clone, Copy, Debug, PartialEq, Eq)]
pub enum Look {
    /// Nothing.
    Keeps,
    /// It watches the first one still, and now the second one.
    Moves(i64, i64),
    /// This literal is free, and all others are false.
    Forces(i64),
    /// All are false.
    Falsified,
}

/// A literal of the clause that is not false, beside the other one.
fn replacement(clause: &[i64], trail: &Trail, other: i64) -> Option<i64>
    requires { All (λ l. variable_of l < length trail.now.places.items) clause.now }
    ensures { IsReplacement trail.now.literals.items clause.now other result }
{
    for place in 0..clause.len() {
        if clause[place] != other {
            match trail.value(clause[place]) {
                Value::False => {}
                Value::True => return Some(clause[place]),
                Value::Free => return Some(clause[place]),
            }
        }
    }
    None
}

/// The same for a clause, which is read only here: most often its other watched literal is true.
fn replacement_in(clause: &Clause, trail: &Trail, other: i64) -> Option<i64>
    requires { All (λ l. variable_of l < length trail.now.places.items) clause.now.literals.items }
    ensures { IsReplacement trail.now.literals.items clause.now.literals.items other result }
{
    replacement(&clause.literals, trail, other)
}

/// What is to be done about a clause of which this is the other watched literal.
fn look_beside(clause: &Clause, trail: &Trail, other: i64) -> Look
    requires fits { All (λ l. variable_of l < length trail.now.places.items) clause.now.literals.items }
    requires stands { Contains clause.now.literals.items other }
    ensures { IsLookBeside trail.now.literals.items clause.now.literals.items other result }
{
    match trail.value(other) {
        Value::True => Look::Keeps,
        Value::False => match replacement_in(clause, trail, other) {
            Some(next) => Look::Moves(other, next),
            None => Look::Falsified,
        },
        Value::Free => match replacement_in(clause, trail, other) {
            Some(next) => Look::Moves(other, next),
            None => Look::Forces(other),
        },
    }
}

fn look_by(clause: &Clause, trail: &Trail, watched: Watched, falsified: i64) -> Look
    requires fits { All (λ l. variable_of l < length trail.now.places.items) clause.now.literals.items }
    requires has_first { Contains clause.now.literals.items watched.first }
    requires has_second { Contains clause.now.literals.items watched.second }
    ensures { IsLook trail.now.literals.items clause.now.literals.items watched falsified result }
{
    if watched.first == falsified {
        return look_beside(clause, trail, watched.second);
    }
    if watched.second == falsified {
        return look_beside(clause, trail, watched.first);
    }
    Look::Keeps
}

fn look_at(
    clauses: &Clauses,
    lines: &[LogLine],
    trail: &Trail,
    watches: &Watches,
    index: usize,
    falsified: i64,
) -> Look
    requires fits { FitsVariables (length trail.now.places.items) (literal_lists clauses.now.list.items ++ results lines.now) }
    requires watched { IsWatched (literal_lists clauses.now.list.items ++ results lines.now) trail.now.literals.items trail.now.starts.items (length trail.now.places.items) watches.now.head watches.now.pairs.items (entries watches.now.lists.items) watches.now.pending.items }
    ensures { IsLookAt (literal_lists clauses.now.list.items ++ results lines.now) trail.now.literals.items watches.now.pairs.items index falsified result }
{
    if index >= watches.pairs.len() {
        return Look::Keeps;
    }
    match watches.pairs[index] {
        None => Look::Keeps,
        Some(watched) => match clause_at(clauses, lines, index as u64 + 1) {
            None => Look::Keeps,
            Some(clause) => look_by(clause, trail, watched, falsified),
        },
    }
}

/// Where the visit of a list stands.
#[derive(Clone, Copy, Debug, PartialEq, Eq)]
pub enum Step {
    /// The next entry to be looked at.
    At(usize),
    /// The clause of this number is false.
    Fails(u64),
}

/// Looks at one clause whose watched literal became false.
fn visit(
    clauses: &Clauses,
    lines: &[LogLine],
    trail: &mut Trail,
    watches: &mut Watches,
    falsified: i64,
    place: usize,
    index: usize,
) -> Result<Step, Memory>
    requires fits { FitsVariables (length trail.old.places.items) (literal_lists clauses.now.list.items ++ results lines.now) }
    requires reasons { HasReasons (literal_lists clauses.now.list.items ++ results lines.now) trail.old.literals.items trail.old.starts.items trail.old.reasons.items }
    requires visiting { IsVisiting (literal_lists clauses.now.list.items ++ results lines.now) trail.old.literals.items trail.old.starts.items (length trail.old.places.items) watches.old.head falsified place watches.old.pairs.items (entries watches.old.lists.items) watches.old.pending.items }
    requires within { place < length (watching (entries watches.old.lists.items) falsified) }
    requires next { place + 1 < 2 ^ 64 }
    requires here { slice_index_or (watching (entries watches.old.lists.items) falsified) place 0 ≡ index }
    ensures extends { IfOk result (λ _. Extends trail.old.literals.items trail.new.literals.items) }
    ensures starts { IfOk result (λ _. trail.new.starts.items ≡ trail.old.starts.items) }
    ensures variables { length trail.new.places.items ≡ length trail.old.places.items }
    ensures reasons_kept { IfOk result (λ _. HasReasons (literal_lists clauses.now.list.items ++ results lines.now) trail.new.literals.items trail.new.starts.items trail.new.reasons.items) }
    ensures head { watches.new.head ≡ watches.old.head }
    ensures pending { watches.new.pending.items ≡ watches.old.pending.items }
    ensures known { length watches.new.pairs.items ≡ length watches.old.pairs.items }
    ensures step { IfOk result (IsVisitStep (literal_lists clauses.now.list.items ++ results lines.now) trail.new.literals.items trail.new.starts.items (length trail.new.places.items) watches.old.head falsified watches.new.pairs.items (entries watches.new.lists.items) watches.new.pending.items) }
    ensures nearer { IfOk result (IsNearer (length (watching (entries watches.old.lists.items) falsified)) place (length (watching (entries watches.new.lists.items) falsified))) }
{
    match look_at(clauses, lines, trail, watches, index, falsified) {
        Look::Keeps => Ok(Step::At(place + 1)),
        Look::Moves(first, second) => {
            watches.pairs[index] = Some(Watched { first, second });
            let place_of_second = code(&watches.lists, second);
            enter(&mut watches.lists, place_of_second, index)?;
            let place_of_falsified = code(&watches.lists, falsified);
            leave(&mut watches.lists, place_of_falsified, place);
            Ok(Step::At(place))
        }
        Look::Forces(literal) => {
            trail.push(literal, index as u64 + 1)?;
            Ok(Step::At(place + 1))
        }
        Look::Falsified => Ok(Step::Fails(index as u64 + 1)),
    }
}

/// Looks at each clause that watches a literal that became false.
pub fn visit_all(
    clauses: &Clauses,
    lines: &[LogLine],
    trail: &mut Trail,
    watches: &mut Watches,
    falsified: i64,
) -> Result<Option<u64>, Memory>
    requires fits { FitsVariables (length trail.old.places.items) (literal_lists clauses.now.list.items ++ results lines.now) }
    requires reasons { HasReasons (literal_lists clauses.now.list.items ++ results lines.now) trail.old.literals.items trail.old.starts.items trail.old.reasons.items }
    requires visiting { IsVisiting (literal_lists clauses.now.list.items ++ results lines.now) trail.old.literals.items trail.old.starts.items (length trail.old.places.items) watches.old.head falsified 0 watches.old.pairs.items (entries watches.old.lists.items) watches.old.pending.items }
    ensures extends { IfOk result (λ _. Extends trail.old.literals.items trail.new.literals.items) }
    ensures starts { IfOk result (λ _. trail.new.starts.items ≡ trail.old.starts.items) }
    ensures variables { length trail.new.places.items ≡ length trail.old.places.items }
    ensures reasons_kept { IfOk result (λ _. HasReasons (literal_lists clauses.now.list.items ++ results lines.now) trail.new.literals.items trail.new.starts.items trail.new.reasons.items) }
    ensures head { watches.new.head ≡ watches.old.head }
    ensures pending { watches.new.pending.items ≡ watches.old.pending.items }
    ensures known { length watches.new.pairs.items ≡ length watches.old.pairs.items }
    ensures visited { IfOk result (IsVisitEnd (literal_lists clauses.now.list.items ++ results lines.now) trail.new.literals.items trail.new.starts.items (length trail.new.places.items) watches.old.head watches.new.pairs.items (entries watches.new.lists.items) watches.new.pending.items) }
{
    let mut place = 0;
    'entries: loop {
        let list = code(&watches.lists, falsified);
        match entry(&watches.lists, list, place) {
            None => return Ok(None),
            Some(index) => {
                match visit(clauses, lines, trail, watches, falsified, place, index)? {
                    Step::At(next) => place = next,
                    Step::Fails(number) => return Ok(Some(number)),
                }
            }
        }
    }
}
