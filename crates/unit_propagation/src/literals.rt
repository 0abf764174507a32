ghost use Rattle.std.specs.Prelude.{◌<◌, ◌≤◌, length, All};
ghost use Rattle.clause_db.specs.Literal.{variable_of};
ghost use Rattle.unit_propagation.specs.Status.{IsNext};

use crate::trail::{Trail, Value};

/// The next literal of a clause that is not false: its place, and whether it is true or free. Where there is
/// none, the value is false.
#[derive(Clone, Copy, Debug, PartialEq, Eq)]
pub struct Next {
    pub place: usize,
    pub value: Value,
}

pub fn next_not_false(clause: &[i64], trail: &Trail, from: usize) -> Next
    requires fits { All (λ l. variable_of l < length trail.now.places.items) clause.now }
    requires within { from ≤ length clause.now }
    ensures { IsNext trail.now.literals.items clause.now from result.place result.value }
{
    for place in from..clause.len() {
        match trail.value(clause[place]) {
            Value::False => {}
            value => return Next { place, value },
        }
    }
    Next {
        place: clause.len(),
        value: Value::False,
    }
}
