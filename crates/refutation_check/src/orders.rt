ghost use Rattle.std.specs.Prelude.{◌≡◌, ◌<◌, length, IfOk, IfSome};
ghost use Rattle.clause_db.specs.Literal.{AreInRange};
ghost use Rattle.refutation_check.specs.Distinct.{AreDistinct, HaveSameLiterals};

use clause_db::{Clause, Clauses, LogLine, Memory, clause_at, variable};
use std::alloc::Global;

/// The literals of a clause, in the order in which they are to be assumed: what stands at the end is left out
/// first.
#[derive(Drop)]
pub struct Order {
    pub literals: Vec<i64>,
    ghost distinct: { AreDistinct literals.items },
    ghost in_range: { AreInRange literals.items },
}

impl Order {
    /// The literals of a clause, as they stand there.
    fn as_in(alloc: Global, clause: &Clause) -> Result<Order, Memory>
        ensures { IfOk result (λ order. order.literals.items ≡ clause.now.literals.items) }
    {
        let mut literals = Vec::new(alloc);
        match literals.extend_from_slice(&clause.literals) {
            Ok(()) => {}
            Err(_) => return Err(Memory),
        }
        Ok(Order { literals })
    }

    /// Puts two literals in each other's place.
    fn swap(&mut self, first: usize, second: usize)
        requires first { first < length self.old.literals.items }
        requires second { second < length self.old.literals.items }
        ensures same { HaveSameLiterals self.old.literals.items self.new.literals.items }
        ensures length { length self.new.literals.items ≡ length self.old.literals.items }
    {
        self.literals.swap(first, second);
    }
}

/// Has the clause this literal?
fn has(clause: &Clause, literal: i64) -> bool {
    let mut from = 0;
    let mut to = clause.literals.len();
    'places: while from < to {
        let middle = from + (to - from) / 2;
        if variable(clause.literals[middle]) < variable(literal) {
            from = middle + 1;
        } else {
            to = middle;
        }
    }
    from < clause.literals.len() && clause.literals[from] == literal
}

/// The place of a variable's literal.
fn place_of(order: &Order, v: u64) -> Option<usize>
    ensures { IfSome result (λ place. place < length order.now.literals.items) }
{
    for place in 0..order.literals.len() {
        if variable(order.literals[place]) == v {
            return Some(place);
        }
    }
    None
}

/// The literals of a clause, behind them those that a hint has as well, and at the end the one of a variable.
pub fn order_of(alloc: Global, clause: &Clause, hint: &Clause, last: u64) -> Result<Order, Memory>
    ensures { IfOk result (λ order. HaveSameLiterals clause.now.literals.items order.literals.items) }
{
    let mut order = Order::as_in(alloc, clause)?;
    let mut end = order.literals.len();
    let mut place = end;
    'literals: while place > 0 {
        place -= 1;
        if !has(hint, order.literals[place]) {
            continue;
        }
        end -= 1;
        order.swap(place, end);
    }
    let Some(place) = place_of(&order, last) else {
        return Ok(order);
    };
    let latest = order.literals.len() - 1;
    order.swap(place, latest);
    Ok(order)
}

/// Notes the variables on which a line resolves with lines above it.
fn note_uses(uses: &mut [u64], before: usize, line: &LogLine) {
    for pivot in &line.pivots {
        let number = pivot.1 as usize;
        if number > before && number - before <= uses.len() && uses[number - before - 1] == 0 {
            uses[number - before - 1] = pivot.0;
        }
    }
}

/// By line, the variable on which a later line first resolves with it, or 0. What a search has learnt is at once
/// the reason of the literal at which it tells propagation something new.
pub fn uses_of(alloc: Global, clauses: &Clauses, lines: &[LogLine]) -> Result<Vec<u64>, Memory> {
    let mut uses = match vec![in alloc; 0; lines.len()] {
        Ok(uses) => uses,
        Err(_) => return Err(Memory),
    };
    for line in lines {
        note_uses(&mut uses, clauses.list.len(), line);
    }
    Ok(uses)
}

/// What is noted for a line.
pub fn use_at(uses: &Vec<u64>, line: usize) -> u64 {
    if line < uses.len() { uses[line] } else { 0 }
}

/// The clause of a line's last resolution, or else its result. A clause that a search has learnt from a conflict
/// tells propagation something new at a literal which it has from there.
pub fn hint_of<'a>(clauses: &'a Clauses, before: &'a [LogLine], line: &'a LogLine) -> &'a Clause {
    match line.pivots.last() {
        Some(pivot) => match clause_at(clauses, before, pivot.1) {
            Some(clause) => clause,
            None => &line.result,
        },
        None => &line.result,
    }
}
