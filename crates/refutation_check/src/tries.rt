ghost use Rattle.std.specs.Prelude.{◌≡◌, ◌≢◌, ℕ, ◌+◌, ◌<◌, ◌≤◌, ◌^◌, [], ◌∷◌, ◌++◌, ◌↔◌, ℤ, List, length, slice_index, All, Contains, IsTrue, IfOk, IfErr, OnOk};
ghost use Rattle.std.specs.Bool.{OnTrue, OnFalse};
ghost use Rattle.clause_db.specs.Literal.{variable_of, opposite};
ghost use Rattle.clause_db.specs.Log.{literal_lists, results};
ghost use Rattle.clause_db.specs.Propagation.{PropagationRefutes, StrengthensPropagation};
ghost use Rattle.unit_propagation.specs.Places.{literal_at};
ghost use Rattle.unit_propagation.specs.Status.{FitsVariables, Extends};
ghost use Rattle.unit_propagation.specs.Truth.{IsFree};
ghost use Rattle.refutation_check.specs.Budget.{opposites_outside};
ghost use Rattle.refutation_check.specs.Runs.{IsRun, IsQuietRun, AreDecidedFrom, StaysDecided, RefutesWith, IsOutside, AreFalseWithin, GoesOn, IsBack};

use crate::orders::Order;
use crate::places::Places;
use clause_db::{Clauses, LogLine, Memory};
use unit_propagation::{Trail, Value, Watches};

/// Decides that a free literal is false, propagates, and answers whether no clause came to be false.
fn decide_false(
    clauses: &Clauses,
    before: &[LogLine],
    trail: &mut Trail,
    watches: &mut Watches,
    literal: i64,
) -> Result<bool, Memory>
    requires positive { 0 < variable_of literal }
    requires in_range { variable_of literal < 2 ^ 63 }
    requires within { variable_of literal < length trail.old.places.items }
    requires free { IsFree trail.old.literals.items literal }
    requires run { IsQuietRun (literal_lists clauses.now.list.items ++ results before.now) trail.old watches.old }
    ensures run { IfOk result (λ _. IsRun (literal_lists clauses.now.list.items ++ results before.now) trail.new watches.new) }
    ensures quiet { IfOk result (λ fine. OnTrue fine (IsQuietRun (literal_lists clauses.now.list.items ++ results before.now) trail.new watches.new)) }
    ensures extends { IfOk result (λ _. Extends trail.old.literals.items trail.new.literals.items) }
    ensures false_there { IfOk result (λ _. Contains trail.new.literals.items (opposite literal)) }
    ensures decided { IfOk result (λ _. StaysDecided literal trail.old trail.new) }
    ensures refuted { IfOk result (λ fine. OnFalse fine (RefutesWith (literal_lists clauses.now.list.items ++ results before.now) literal trail.old)) }
    ensures goes_on { IfOk result (λ _. GoesOn trail.old trail.new watches.new.head) }
    ensures variables { length trail.new.places.items ≡ length trail.old.places.items }
{
    trail.open_level()?;
    trail.push(-literal, 0)?;
    match watches.propagate(clauses, before, trail)? {
        Some(_) => Ok(false),
        None => Ok(true),
    }
}

/// Assumes that a literal is false, propagates, and answers whether that led to no contradiction.
fn assume_false(
    clauses: &Clauses,
    before: &[LogLine],
    trail: &mut Trail,
    watches: &mut Watches,
    literal: i64,
) -> Result<bool, Memory>
    requires positive { 0 < variable_of literal }
    requires in_range { variable_of literal < 2 ^ 63 }
    requires within { variable_of literal < length trail.old.places.items }
    requires run { IsQuietRun (literal_lists clauses.now.list.items ++ results before.now) trail.old watches.old }
    ensures run { IfOk result (λ _. IsRun (literal_lists clauses.now.list.items ++ results before.now) trail.new watches.new) }
    ensures quiet { IfOk result (λ fine. OnTrue fine (IsQuietRun (literal_lists clauses.now.list.items ++ results before.now) trail.new watches.new)) }
    ensures extends { IfOk result (λ _. Extends trail.old.literals.items trail.new.literals.items) }
    ensures false_there { IfOk result (λ fine. OnTrue fine (Contains trail.new.literals.items (opposite literal))) }
    ensures decided { IfOk result (λ fine. OnTrue fine (StaysDecided literal trail.old trail.new)) }
    ensures refuted { IfOk result (λ fine. OnFalse fine (RefutesWith (literal_lists clauses.now.list.items ++ results before.now) literal trail.old)) }
    ensures goes_on { IfOk result (λ _. GoesOn trail.old trail.new watches.new.head) }
    ensures variables { length trail.new.places.items ≡ length trail.old.places.items }
{
    match trail.value(literal) {
        Value::True => Ok(false),
        Value::False => Ok(true),
        Value::Free => {
            let fine = decide_false(clauses, before, trail, watches, literal)?;
            Ok(fine)
        }
    }
}

/// Assumes that the literal at a place is false, and answers whether that led to no contradiction.
/// The places that are left out are others.
fn assume_at(
    clauses: &Clauses,
    before: &[LogLine],
    trail: &mut Trail,
    watches: &mut Watches,
    order: &Order,
    place: usize,
    left_out: Places,
) -> Result<bool, Memory>
    requires fits { All (λ l. variable_of l < length trail.old.places.items) order.now.literals.items }
    requires within { place < length order.now.literals.items }
    requires outside { IsOutside left_out.from left_out.to place }
    requires run { IsQuietRun (literal_lists clauses.now.list.items ++ results before.now) trail.old watches.old }
    requires decided { AreDecidedFrom (opposites_outside order.now.literals.items left_out.from left_out.to) trail.old }
    ensures run { IfOk result (λ _. IsRun (literal_lists clauses.now.list.items ++ results before.now) trail.new watches.new) }
    ensures quiet { IfOk result (λ fine. OnTrue fine (IsQuietRun (literal_lists clauses.now.list.items ++ results before.now) trail.new watches.new)) }
    ensures decided { IfOk result (λ fine. OnTrue fine (AreDecidedFrom (opposites_outside order.now.literals.items left_out.from left_out.to) trail.new)) }
    ensures false_there { IfOk result (λ fine. OnTrue fine (Contains trail.new.literals.items (opposite (literal_at order.now.literals.items place)))) }
    ensures refuted { IfOk result (λ fine. OnFalse fine (PropagationRefutes (literal_lists clauses.now.list.items ++ results before.now) (opposites_outside order.now.literals.items left_out.from left_out.to))) }
    ensures goes_on { IfOk result (λ _. GoesOn trail.old trail.new watches.new.head) }
    ensures variables { length trail.new.places.items ≡ length trail.old.places.items }
{
    let fine = assume_false(clauses, before, trail, watches, order.literals[place])?;
    Ok(fine)
}

/// Assumes that the literals of one part are false, and answers whether that led to no
/// contradiction. The part that is left out is another.
pub fn assume_part(
    clauses: &Clauses,
    before: &[LogLine],
    trail: &mut Trail,
    watches: &mut Watches,
    order: &Order,
    part: Places,
    left_out: Places,
) -> Result<bool, Memory>
    requires fits { All (λ l. variable_of l < length trail.old.places.items) order.now.literals.items }
    requires within { part.to ≤ length order.now.literals.items }
    requires apart { (k : ℕ) → part.from ≤ k → k < part.to → IsOutside left_out.from left_out.to k }
    requires run { IsQuietRun (literal_lists clauses.now.list.items ++ results before.now) trail.old watches.old }
    requires decided { AreDecidedFrom (opposites_outside order.now.literals.items left_out.from left_out.to) trail.old }
    ensures run { IfOk result (λ _. IsRun (literal_lists clauses.now.list.items ++ results before.now) trail.new watches.new) }
    ensures quiet { IfOk result (λ fine. OnTrue fine (IsQuietRun (literal_lists clauses.now.list.items ++ results before.now) trail.new watches.new)) }
    ensures decided { IfOk result (λ fine. OnTrue fine (AreDecidedFrom (opposites_outside order.now.literals.items left_out.from left_out.to) trail.new)) }
    ensures false_there { IfOk result (λ fine. OnTrue fine (AreFalseWithin order.now.literals.items part.from part.to trail.new.literals.items)) }
    ensures refuted { IfOk result (λ fine. OnFalse fine (PropagationRefutes (literal_lists clauses.now.list.items ++ results before.now) (opposites_outside order.now.literals.items left_out.from left_out.to))) }
    ensures goes_on { IfOk result (λ _. GoesOn trail.old trail.new watches.new.head) }
    ensures variables { length trail.new.places.items ≡ length trail.old.places.items }
{
    for place in part.from..part.to {
        if !assume_at(clauses, before, trail, watches, order, place, left_out)? {
            return Ok(false);
        }
    }
    Ok(true)
}

/// Takes back all decisions but the first ones, as many as the level says.
pub fn take_back(trail: &mut Trail, watches: &mut Watches, level: usize)
    ensures run { (clauses : List (List ℤ)) → IsRun clauses trail.old watches.old → IsRun clauses trail.new watches.new }
    ensures back { (base : Trail) → level ≡ length base.starts.items → GoesOn base trail.old watches.old.head → IsBack base trail.new watches.new.head }
    ensures variables { length trail.new.places.items ≡ length trail.old.places.items }
{
    if level >= trail.starts.len() {
        return;
    }
    trail.cut(level);
    watches.rewind(trail);
}
