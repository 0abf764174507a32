ghost use Rattle.std.specs.Prelude.{◌≡◌, ◌<◌, length, IfOk};
ghost use Rattle.cnf_make.specs.Needed.{marked, needed};

use aig_build::{Circuit, Lit};
use clause_db::Memory;
use std::alloc::Global;

/// Marks the node of a literal where it is a gate.
fn mark(circuit: &Circuit, marks: &mut Vec<bool>, lit: Lit)
    requires there { lit.node < length circuit.now }
    requires room { length marks.old.items ≡ length circuit.now }
    ensures { marks.new.items ≡ marked circuit.now marks.old.items lit }
{
    if circuit.gate(lit.node).is_some() {
        marks[lit.node as usize] = true;
    }
}

/// The gates that a literal needs.
pub fn needs(alloc: Global, circuit: &Circuit, bad: Lit) -> Result<Vec<bool>, Memory>
    requires there { bad.node < length circuit.now }
    ensures marks { IfOk result (λ marks. marks.items ≡ needed circuit.now bad) }
    ensures length { IfOk result (λ marks. length marks.items ≡ length circuit.now) }
{
    let mut node = circuit.nodes() as usize;
    let mut marks = match vec![in alloc; false; node] {
        Ok(marks) => marks,
        Err(_) => return Err(Memory),
    };
    mark(circuit, &mut marks, bad);
    'down: while node > 0 {
        node -= 1;
        if !marks[node] {
            continue;
        }
        match circuit.gate(node as u64) {
            Some((a, b)) => {
                mark(circuit, &mut marks, a);
                mark(circuit, &mut marks, b);
            }
            None => {}
        }
    }
    Ok(marks)
}
