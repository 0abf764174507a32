ghost use Rattle.std.specs.Prelude.{◌≡◌, ℕ, ◌<◌, length, slice_index_or, IfOk};
ghost use Rattle.cnf_make.specs.Tseitin.{variable_of};

use aig_build::Circuit;
use clause_db::Memory;
use std::alloc::Global;

/// The variable of each node that has one.
pub fn numbers(alloc: Global, circuit: &Circuit, marks: &[bool]) -> Result<Vec<u64>, Memory>
    requires { length marks.now ≡ length circuit.now }
    ensures length { IfOk result (λ table. length table.items ≡ length circuit.now) }
    ensures variables { IfOk result (λ table. (n : ℕ) → n < length circuit.now → slice_index_or table.items n 0 ≡ variable_of circuit.now marks.now n) }
{
    let mut table = match Vec::with_capacity(alloc, marks.len()) {
        Ok(table) => table,
        Err(_) => return Err(Memory),
    };
    let mut input: u64 = 1;
    let mut gate: u64 = circuit.inputs() + 2;
    'up: for node in 0..circuit.nodes() as usize {
        if marks[node] {
            table.push_reserved(gate);
            gate += 1;
        } else {
            table.push_reserved(input);
        }
        match circuit.gate(node as u64) {
            Some(_) => {}
            None => input += 1,
        }
    }
    Ok(table)
}
