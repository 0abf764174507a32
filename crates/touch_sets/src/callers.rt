//! The graph of callers.

ghost use Rattle.std.specs.Prelude.{◌≡◌, ℕ, ◌<◌, ◌≤◌, ◌^◌, ◌↔◌, ◌⊎◌, length, IfOk, OnOk};
ghost use Rattle.call_graph.specs.Graphs.{Edge, rows};
ghost use Rattle.core_ir.specs.Calls.{Among};
ghost use Rattle.touch_sets.specs.Callers.{AreCallers};

use core_ir::{Core, all_calls};
use graph_marks::{Graph, Memory};
use std::alloc::Global;

/// An edge leads from each unit to those that call it. More units than a number of 32 bits tells are too many.
pub fn caller_graph(alloc: Global, core: &Core) -> Result<Graph, Memory>
    ensures callers { IfOk result (λ graph. AreCallers core.now (rows graph.successors.items)) }
    ensures few { IfOk result (λ graph. length graph.successors.items ≤ 2 ^ 32) }
{
    let count = core.units.len();
    if count > 4_294_967_296 {
        return Err(Memory);
    }
    let mut successors = empty_rows(alloc, count)?;
    'units: for unit in 0..count {
        let calls = match all_calls(alloc, core, unit as u32) {
            Ok(calls) => calls,
            Err(_) => return Err(Memory),
        };
        push_caller(&mut successors, calls.as_slice(), unit as u32)?;
    }
    Ok(Graph { successors })
}

fn empty_rows(alloc: Global, count: usize) -> Result<Vec<Vec<u32>>, Memory>
    ensures length { IfOk result (λ empty. length empty.items ≡ count) }
    ensures edges { IfOk result (λ empty. (v u : ℕ) → Edge (rows empty.items) v u → ⊥) }
{
    let mut empty = Vec::new(alloc);
    'rows: for _row in 0..count {
        match empty.push(Vec::new(alloc)) {
            Ok(()) => {}
            Err(_) => return Err(Memory),
        }
    }
    Ok(empty)
}

// Enters a unit as the caller of each unit that it calls and that is there.
fn push_caller(successors: &mut Vec<Vec<u32>>, calls: &[u32], caller: u32) -> Result<(), Memory>
    ensures length { OnOk result (length successors.new.items ≡ length successors.old.items) }
    ensures edges { OnOk result ((v u : ℕ) → Edge (rows successors.new.items) v u ↔ (Edge (rows successors.old.items) v u ⊎ ((u ≡ caller) × Among v calls.now × (v < length successors.old.items)))) }
{
    'calls: for callee in calls {
        push_edge(successors, *callee as usize, caller)?;
    }
    Ok(())
}

fn push_edge(successors: &mut Vec<Vec<u32>>, from: usize, to: u32) -> Result<(), Memory>
    ensures length { OnOk result (length successors.new.items ≡ length successors.old.items) }
    ensures edges { OnOk result ((v u : ℕ) → Edge (rows successors.new.items) v u ↔ (Edge (rows successors.old.items) v u ⊎ ((u ≡ to) × (v ≡ from) × (v < length successors.old.items)))) }
{
    if from >= successors.len() {
        return Ok(());
    }
    match successors[from].push(to) {
        Ok(()) => {}
        Err(_) => return Err(Memory),
    }
    Ok(())
}
