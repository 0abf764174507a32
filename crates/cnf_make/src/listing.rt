ghost use Rattle.std.specs.Prelude.{◌≡◌, ℕ, Bool, true, List, ◌<◌, ◌^◌, ◌++◌, length, slice_index_or, IfOk, OnOk};
ghost use Rattle.aig_build.specs.Circuits.{IsCircuit, input_count, lit_value};
ghost use Rattle.clause_db.specs.Assignment.{Satisfies};
ghost use Rattle.cnf_make.specs.Inputs.{input_bits, CanSatisfy};
ghost use Rattle.clause_db.specs.Log.{literal_lists};
ghost use Rattle.cnf_make.specs.Needed.{needed};
ghost use Rattle.cnf_make.specs.Tseitin.{variable_of, signed as signed_of, clauses_at, clause_list, variable_count};

use crate::needs::needs;
use crate::numbers::numbers;
use crate::writing::{literal, write, write_gate};
use aig_build::{Circuit, Lit};
use clause_db::{Clause, Clauses, Memory};
use std::alloc::Global;

/// The variable of a literal's node, and whether the clauses have it negated.
fn signed(circuit: &Circuit, marks: &[bool], table: &[u64], lit: Lit) -> (u64, bool)
    requires there { lit.node < length circuit.now }
    requires length { length table.now ≡ length circuit.now }
    requires variables { (n : ℕ) → n < length circuit.now → slice_index_or table.now n 0 ≡ variable_of circuit.now marks.now n }
    ensures { result ≡ signed_of circuit.now marks.now lit }
{
    (table[lit.node as usize], lit.negated != (lit.node == 0))
}

/// The clauses of a node, if it is a gate that is needed.
fn write_node(
    alloc: Global,
    list: &mut Vec<Clause>,
    circuit: &Circuit,
    bad: Lit,
    marks: &[bool],
    table: &[u64],
    node: usize,
) -> Result<(), Memory>
    requires circuit { IsCircuit circuit.now }
    requires there { node < length circuit.now }
    requires few { length circuit.now < 2 ^ 60 }
    requires bad { bad.node < length circuit.now }
    requires marks { marks.now ≡ needed circuit.now bad }
    requires marks_length { length marks.now ≡ length circuit.now }
    requires length { length table.now ≡ length circuit.now }
    requires variables { (n : ℕ) → n < length circuit.now → slice_index_or table.now n 0 ≡ variable_of circuit.now marks.now n }
    ensures { OnOk result (literal_lists list.new.items ≡ literal_lists list.old.items ++ clauses_at circuit.now marks.now node) }
{
    if !marks[node] {
        return Ok(());
    }
    match circuit.gate(node as u64) {
        Some((a, b)) => {
            let first = signed(circuit, marks, table, a);
            let second = signed(circuit, marks, table, b);
            write_gate(alloc, list, first, second, table[node])
        }
        None => Ok(()),
    }
}

/// The Tseitin clauses of the gates that `bad` needs, and the clause of `bad`.
pub fn clauses(alloc: Global, circuit: &Circuit, bad: Lit) -> Result<Clauses, Memory>
    requires { bad.node < length circuit.now }
    ensures list { IfOk result (λ made. literal_lists made.list.items ≡ clause_list circuit.now bad) }
    ensures variables { IfOk result (λ made. made.variables ≡ variable_count circuit.now bad) }
    ensures sound { IfOk result (λ made. (assignment : ℕ → Bool) → Satisfies assignment (literal_lists made.list.items) → lit_value circuit.now (input_bits (input_count circuit.now) assignment) bad ≡ true) }
    ensures complete { IfOk result (λ made. (bits : List Bool) → lit_value circuit.now bits bad ≡ true → CanSatisfy (literal_lists made.list.items) (input_count circuit.now) bits) }
{
    let marks = needs(alloc, circuit, bad)?;
    let table = numbers(alloc, circuit, &marks)?;
    let mut list = Vec::new(alloc);
    write(alloc, &mut list, &[1])?;
    let mut variables = circuit.inputs() + 1;
    'gates: for node in 0..circuit.nodes() as usize {
        write_node(alloc, &mut list, circuit, bad, &marks, &table, node)?;
        if marks[node] {
            variables += 1;
        }
    }
    let last = signed(circuit, &marks, &table, bad);
    write(alloc, &mut list, &[literal(last.0, last.1)])?;
    Ok(Clauses { list, variables })
}
