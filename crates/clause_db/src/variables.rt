ghost use Rattle.std.specs.Prelude.{◌≡◌, ◌<◌, ◌≤◌, ◌↔◌, IsTrue, All, Any};
ghost use Rattle.clause_db.specs.Literal.{variable_of, IsOrdered, AreInRange};
ghost use Rattle.clause_db.specs.Log.{literal_lists};

use crate::clause::{Clause, variable};

/// The greatest number that a variable may have.
pub const GREATEST_VARIABLE: u64 = 0x7fff_ffff_ffff_ffff;

/// May these literals stand as a clause: by increasing variable, and each variable a number from 1 on?
pub fn is_clause(literals: &[i64]) -> bool
    ensures { IsTrue result ↔ (IsOrdered literals.now × AreInRange literals.now) }
{
    let mut last = 0;
    for place in 0..literals.len() {
        let next = variable(literals[place]);
        if next <= last {
            return false;
        }
        if next > GREATEST_VARIABLE {
            return false;
        }
        last = next;
    }
    true
}

/// The largest variable of a clause, or 0 for the empty one.
fn largest_of(literals: &[i64]) -> u64
    requires { IsOrdered literals.now }
    ensures within { All (λ l. variable_of l ≤ result) literals.now }
    ensures stands { 0 < result → Any (λ l. variable_of l ≡ result) literals.now }
{
    if literals.len() == 0 {
        return 0;
    }
    variable(literals[literals.len() - 1])
}

/// The largest variable that stands in a clause, or 0 where none does.
pub fn largest_variable(clauses: &[Clause]) -> u64
    ensures within { All (λ c. All (λ l. variable_of l ≤ result) c) (literal_lists clauses.now) }
    ensures stands { 0 < result → Any (λ c. Any (λ l. variable_of l ≡ result) c) (literal_lists clauses.now) }
{
    let mut largest = 0;
    for place in 0..clauses.len() {
        let here = largest_of(&clauses[place].literals);
        if here > largest {
            largest = here;
        }
    }
    largest
}
