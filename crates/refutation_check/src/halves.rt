ghost use Rattle.std.specs.Prelude.{◌≡◌, ℕ, ◌+◌, ◌<◌, ◌≤◌, ◌++◌, ◌↔◌, length, All, Contains, IsTrue, IfOk};
ghost use Rattle.clause_db.specs.Literal.{variable_of};
ghost use Rattle.clause_db.specs.Log.{literal_lists, results};
ghost use Rattle.unit_propagation.specs.Places.{literal_at};
ghost use Rattle.refutation_check.specs.Budget.{IsNewAmong, opposites_outside};
ghost use Rattle.refutation_check.specs.Runs.{IsRun, IsQuietRun, AreDecidedFrom, IsOutside, AreFalseOutside, AreFalseOutsideBoth, GoesOn};

use crate::orders::Order;
use crate::places::Places;
use crate::tries::{assume_part, take_back};
use clause_db::{Clauses, LogLine, Memory};
use unit_propagation::{Trail, Value, Watches};

/// Is the literal at a place true?
fn is_true_at(trail: &Trail, order: &Order, place: usize) -> bool
    requires fits { All (λ l. variable_of l < length trail.now.places.items) order.now.literals.items }
    requires within { place < length order.now.literals.items }
    ensures { IsTrue result ↔ Contains trail.now.literals.items (literal_at order.now.literals.items place) }
{
    match trail.value(order.literals[place]) {
        Value::True => true,
        Value::False => false,
        Value::Free => false,
    }
}

/// The same as `is_new_among` for the places that are left out, where the literals of one more part are still to
/// be assumed to be false.
#[cycle(halves)]
fn is_new_without(
    clauses: &Clauses,
    before: &[LogLine],
    trail: &mut Trail,
    watches: &mut Watches,
    order: &Order,
    part: Places,
    left_out: Places,
) -> Result<bool, Memory>
    requires fits { All (λ l. variable_of l < length trail.old.places.items) order.now.literals.items }
    requires part { part.to ≤ length order.now.literals.items }
    requires some { left_out.from < left_out.to }
    requires within { left_out.to ≤ length order.now.literals.items }
    requires apart { (k : ℕ) → part.from ≤ k → k < part.to → IsOutside left_out.from left_out.to k }
    requires run { IsQuietRun (literal_lists clauses.now.list.items ++ results before.now) trail.old watches.old }
    requires decided { AreDecidedFrom (opposites_outside order.now.literals.items left_out.from left_out.to) trail.old }
    requires others { AreFalseOutsideBoth order.now.literals.items part.from part.to left_out.from left_out.to trail.old.literals.items }
    ensures run { IfOk result (λ _. IsRun (literal_lists clauses.now.list.items ++ results before.now) trail.new watches.new) }
    ensures answer { IfOk result (λ new. IsTrue new ↔ IsNewAmong (literal_lists clauses.now.list.items ++ results before.now) order.now.literals.items left_out.from left_out.to) }
    ensures goes_on { IfOk result (λ _. GoesOn trail.old trail.new watches.new.head) }
    ensures variables { length trail.new.places.items ≡ length trail.old.places.items }
{
    if !assume_part(clauses, before, trail, watches, order, part, left_out)? {
        return Ok(false);
    }
    let new = is_new_among(clauses, before, trail, watches, order, left_out)?;
    Ok(new)
}

/// Is the clause new at one of these places, where the literals at all others are assumed to be false? What is
/// assumed for one half of the places serves all tries in the other half, so the recursion is as deep as the
/// number of places can be halved.
#[cycle(halves)]
pub fn is_new_among(
    clauses: &Clauses,
    before: &[LogLine],
    trail: &mut Trail,
    watches: &mut Watches,
    order: &Order,
    places: Places,
) -> Result<bool, Memory>
    requires fits { All (λ l. variable_of l < length trail.old.places.items) order.now.literals.items }
    requires some { places.from < places.to }
    requires within { places.to ≤ length order.now.literals.items }
    requires run { IsQuietRun (literal_lists clauses.now.list.items ++ results before.now) trail.old watches.old }
    requires decided { AreDecidedFrom (opposites_outside order.now.literals.items places.from places.to) trail.old }
    requires others { AreFalseOutside order.now.literals.items places.from places.to trail.old.literals.items }
    ensures run { IfOk result (λ _. IsRun (literal_lists clauses.now.list.items ++ results before.now) trail.new watches.new) }
    ensures answer { IfOk result (λ new. IsTrue new ↔ IsNewAmong (literal_lists clauses.now.list.items ++ results before.now) order.now.literals.items places.from places.to) }
    ensures goes_on { IfOk result (λ _. GoesOn trail.old trail.new watches.new.head) }
    ensures variables { length trail.new.places.items ≡ length trail.old.places.items }
{
    if places.to - places.from == 1 {
        return Ok(!is_true_at(trail, order, places.from));
    }
    let middle = places.from + (places.to - places.from) / 2;
    let left = Places {
        from: places.from,
        to: middle,
    };
    let right = Places {
        from: middle,
        to: places.to,
    };
    let level = trail.starts.len();
    if is_new_without(clauses, before, trail, watches, order, left, right)? {
        return Ok(true);
    }
    take_back(trail, watches, level);
    let new = is_new_without(clauses, before, trail, watches, order, right, left)?;
    Ok(new)
}
