ghost use Rattle.std.specs.Prelude.{◌≡◌, ◌≢◌, ℕ, ◌<◌, ◌↔◌, ◌^◌, pos, length, slice_index_or, count_by, IsTrue, OnOk, Contains};
ghost use Rattle.clause_db.specs.Literal.{variable_of, opposite, IsOrdered, AreInRange};
ghost use Rattle.clause_db.specs.Resolution.{ClashesOnlyAt};
ghost use Rattle.chain_resolution.specs.Marked.{is_literal, marked, AreAtVariables};

use clause_db::{Memory, variable};

/// What stands at a place of a table, or 0 behind its end.
pub fn at(table: &[i64], place: usize) -> i64
    ensures { result ≡ slice_index_or table.now place (pos 0) }
{
    if place < table.len() { table[place] } else { 0 }
}

/// Makes a table long enough to have this place.
pub fn make_room(table: &mut Vec<i64>, place: usize) -> Result<(), Memory>
    requires { place < 2 ^ 63 }
    ensures within { OnOk result (place < length table.new.items) }
    ensures unchanged { (k : ℕ) → slice_index_or table.new.items k (pos 0) ≡ slice_index_or table.old.items k (pos 0) }
    ensures count { count_by is_literal table.new.items ≡ count_by is_literal table.old.items }
{
    if place < table.len() {
        return Ok(());
    }
    match table.resize(place + 1, 0) {
        Ok(()) => Ok(()),
        Err(_) => Err(Memory),
    }
}

/// Has the clause of a table the opposite of this literal?
fn has_opposite(table: &[i64], literal: i64) -> bool
    requires at_variables { AreAtVariables table.now }
    requires positive { 0 < variable_of literal }
    ensures { IsTrue result ↔ Contains (marked table.now) (opposite literal) }
{
    let here = at(table, variable(literal) as usize);
    if here == 0 {
        return false;
    }
    if here == literal {
        return false;
    }
    true
}

/// Does the variable, and no other, stand in the clause of a table and in another one with opposite signs?
pub fn clashes_only_at(table: &[i64], other: &[i64], pivot: u64) -> bool
    requires at_variables { AreAtVariables table.now }
    requires in_range { AreInRange other.now }
    ensures { IsTrue result ↔ ClashesOnlyAt pivot (marked table.now) other.now }
{
    let mut found = false;
    for place in 0..other.len() {
        if !has_opposite(table, other[place]) {
            continue;
        }
        if variable(other[place]) != pivot {
            return false;
        }
        found = true;
    }
    found
}
