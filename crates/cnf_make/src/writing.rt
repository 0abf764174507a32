ghost use Rattle.std.specs.Prelude.{◌≡◌, ◌≢◌, ◌<◌, ◌^◌, ◌∷◌, [], ◌++◌, OnOk};
ghost use Rattle.clause_db.specs.Literal.{IsOrdered, AreInRange};
ghost use Rattle.clause_db.specs.Log.{literal_lists};
ghost use Rattle.cnf_make.specs.Tseitin.{literal as literal_of, gate_clauses};

use clause_db::{Clause, Memory};
use std::alloc::Global;

/// The literal of a variable.
pub fn literal(variable: u64, negated: bool) -> i64
    requires { variable < 2 ^ 63 }
    ensures { result ≡ literal_of (variable, negated) }
{
    let positive = variable as i64;
    if negated { -positive } else { positive }
}

/// One more clause at the end.
pub fn write(alloc: Global, list: &mut Vec<Clause>, literals: &[i64]) -> Result<(), Memory>
    requires ordered { IsOrdered literals.now }
    requires in_range { AreInRange literals.now }
    ensures { OnOk result (literal_lists list.new.items ≡ literal_lists list.old.items ++ literals.now ∷ []) }
{
    let mut owned = Vec::new(alloc);
    match owned.extend_from_slice(literals) {
        Ok(()) => {}
        Err(_) => return Err(Memory),
    }
    match list.push(Clause { literals: owned }) {
        Ok(()) => Ok(()),
        Err(_) => Err(Memory),
    }
}

/// The clauses of a gate g of a and b.
pub fn write_gate(
    alloc: Global,
    list: &mut Vec<Clause>,
    a: (u64, bool),
    b: (u64, bool),
    g: u64,
) -> Result<(), Memory>
    requires first { 0 < a.0 }
    requires second { 0 < b.0 }
    requires first_before { a.0 < g }
    requires second_before { b.0 < g }
    requires different { a.0 ≢ b.0 }
    requires in_range { g < 2 ^ 63 }
    ensures { OnOk result (literal_lists list.new.items ≡ literal_lists list.old.items ++ gate_clauses a b g) }
{
    let not_g = literal(g, true);
    write(alloc, list, &[literal(a.0, a.1), not_g])?;
    write(alloc, list, &[literal(b.0, b.1), not_g])?;
    let not_a = literal(a.0, !a.1);
    let not_b = literal(b.0, !b.1);
    if a.0 < b.0 {
        write(alloc, list, &[not_a, not_b, literal(g, false)])?;
    } else {
        write(alloc, list, &[not_b, not_a, literal(g, false)])?;
    }
    Ok(())
}
