ghost use Rattle.std.specs.Prelude.{◌≡◌, ℕ, ◌≤◌, ◌^◌, ◌↔◌, true, map, length, IfOk};
ghost use Rattle.call_graph.specs.Graphs.{At, IsGraph, rows};
ghost use Rattle.file_typing.specs.CallCycles.{IsOnCycle};
ghost use Rattle.call_cycles.specs.Noted.{calls_between};

use crate::notes::FunctionNotes;
use graph_marks::{Graph, Memory, on_cycles};
use std::alloc::Global;
use typing_base::Call;

/// For each function, whether it is on a call cycle: it calls itself, or calls lead from it back to it.
pub fn on_cycle(alloc: Global, functions: &[FunctionNotes]) -> Result<Vec<bool>, Memory>
    requires known { IsGraph (calls_between functions.now) }
    requires few { length functions.now ≤ 2 ^ 32 }
    ensures length { IfOk result (λ flags. length flags.items ≡ length functions.now) }
    ensures cycles { IfOk result (λ flags. (number : ℕ) → At flags.items number true ↔ IsOnCycle (calls_between functions.now) number) }
{
    let graph = graph_of(alloc, functions)?;
    let flags = on_cycles(alloc, &graph)?;
    Ok(flags)
}

fn graph_of(alloc: Global, functions: &[FunctionNotes]) -> Result<Graph, Memory>
    ensures { IfOk result (λ graph. rows graph.successors.items ≡ calls_between functions.now) }
{
    let mut successors = Vec::new(alloc);
    'functions: for function in functions {
        let called = functions_called(alloc, function.calls)?;
        match successors.push(called) {
            Ok(()) => {}
            Err(_) => return Err(Memory),
        }
    }
    Ok(Graph { successors })
}

fn functions_called(alloc: Global, calls: &[Call]) -> Result<Vec<u32>, Memory>
    ensures { IfOk result (λ called. called.items ≡ map (λ call. call.function) calls.now) }
{
    let mut called = Vec::new(alloc);
    'calls: for call in calls {
        match called.push(call.function) {
            Ok(()) => {}
            Err(_) => return Err(Memory),
        }
    }
    Ok(called)
}
