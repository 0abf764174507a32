ghost use Rattle.std.specs.Prelude.{◌≡◌, ℕ, ◌<◌, ◌≤◌, ◌^◌, ◌↔◌, ◌⊎◌, true, IsTrue, length, IfOk};
ghost use Rattle.call_graph.specs.Graphs.{At, Edge, IsGraph, rows};
ghost use Rattle.graph_marks.specs.Cycles.{IsOnCycle};
ghost use Rattle.graph_marks.specs.Marks.{Stands};

use call_graph::{Graph, Memory, components};
use std::alloc::Global;

/// Which vertices lie on a cycle; an edge from a vertex to itself is one.
pub fn on_cycles(alloc: Global, graph: &Graph) -> Result<Vec<bool>, Memory>
    requires graph { IsGraph (rows graph.now.successors.items) }
    requires few { length graph.now.successors.items ≤ 2 ^ 32 }
    ensures length { IfOk result (λ flags. length flags.items ≡ length graph.now.successors.items) }
    ensures cycles { IfOk result (λ flags. (v : ℕ) → At flags.items v true ↔ IsOnCycle (rows graph.now.successors.items) v) }
{
    let groups = components(alloc, graph)?;
    let mut flags = match vec![in alloc; false; graph.successors.len()] {
        Ok(flags) => flags,
        Err(_) => return Err(Memory),
    };
    'groups: for group in &groups {
        flag_cycle(graph, group.as_slice(), &mut flags);
    }
    Ok(flags)
}

// Flags the vertices of a component that lie on a cycle.
fn flag_cycle(graph: &Graph, group: &[u32], flags: &mut Vec<bool>)
    requires sized { length flags.old.items ≡ length graph.now.successors.items }
    requires group { (v : ℕ) → Stands group.now v → v < length graph.now.successors.items }
    ensures length { length flags.new.items ≡ length flags.old.items }
    ensures flags { (v : ℕ) → At flags.new.items v true ↔ (At flags.old.items v true ⊎ (Stands group.now v × (1 < length group.now ⊎ Edge (rows graph.now.successors.items) v v))) }
{
    'members: for vertex in group {
        if !goes_round(graph, group, *vertex) {
            continue;
        }
        flags[*vertex as usize] = true;
    }
}

// A member of a component with several members comes back to itself.
fn goes_round(graph: &Graph, group: &[u32], vertex: u32) -> bool
    requires { vertex < length graph.now.successors.items }
    ensures { IsTrue result ↔ (1 < length group.now ⊎ Edge (rows graph.now.successors.items) vertex vertex) }
{
    if group.len() > 1 {
        return true;
    }
    stands_in(graph.successors[vertex as usize].as_slice(), vertex)
}

fn stands_in(vertices: &[u32], vertex: u32) -> bool
    ensures { IsTrue result ↔ Stands vertices.now vertex }
{
    'vertices: for other in vertices {
        if *other == vertex {
            return true;
        }
    }
    false
}
