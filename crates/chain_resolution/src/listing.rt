ghost use Rattle.std.specs.Prelude.{◌≡◌, ℕ, ℤ, ◌<◌, pos, length, slice_index, slice_index_or, IfOk, Contains};
ghost use Rattle.std.specs.List.Sorted.{IsNonDecreasing};
ghost use Rattle.clause_db.specs.Literal.{variable_of, IsOrdered};
ghost use Rattle.chain_resolution.specs.Marked.{marked, AreAtVariables};

use crate::table::at;
use clause_db::Memory;
use std::alloc::Global;

/// The literals that stand in a table at these places, which are in order.
pub fn literals_at(alloc: Global, table: &[i64], places: &[usize]) -> Result<Vec<i64>, Memory>
    requires at_variables { AreAtVariables table.now }
    requires in_order { IsNonDecreasing places.now }
    ensures ordered { IfOk result (λ literals. IsOrdered literals.items) }
    ensures from_table { IfOk result (λ literals. (l : ℤ) → Contains literals.items l → Contains (marked table.now) l) }
    ensures all { IfOk result (λ literals. (k : ℕ) → k < length places.now → 0 < variable_of (slice_index_or table.now (slice_index places.now k) (pos 0)) → Contains literals.items (slice_index_or table.now (slice_index places.now k) (pos 0))) }
{
    let mut literals = Vec::new(alloc);
    let mut last = 0;
    for index in 0..places.len() {
        let place = places[index];
        if place <= last {
            continue;
        }
        let literal = at(table, place);
        if literal == 0 {
            continue;
        }
        match literals.push(literal) {
            Ok(()) => {}
            Err(_) => return Err(Memory),
        }
        last = place;
    }
    Ok(literals)
}
