ghost use Rattle.std.specs.Prelude.{◌≡◌, ℕ, ◌≤◌, ◌^◌, ◌↔◌, true, length, IfOk};
ghost use Rattle.call_graph.specs.Graphs.{At, IsGraph, rows};
ghost use Rattle.graph_marks.specs.Marks.{AreSeeds, Spreads};

use call_graph::{Graph, Memory};
use std::alloc::Global;

/// The vertices that a mark reaches: it begins at the seeds, goes along edges, and stops before each blocked vertex.
pub fn spread(
    alloc: Global,
    graph: &Graph,
    seeds: &[bool],
    blocked: &[bool],
) -> Result<Vec<bool>, Memory>
    requires graph { IsGraph (rows graph.now.successors.items) }
    requires few { length graph.now.successors.items ≤ 2 ^ 32 }
    requires seeds { length seeds.now ≡ length graph.now.successors.items }
    requires blocked { length blocked.now ≡ length graph.now.successors.items }
    ensures length { IfOk result (λ marks. length marks.items ≡ length graph.now.successors.items) }
    ensures marks { IfOk result (λ marks. (v : ℕ) → At marks.items v true ↔ Spreads (rows graph.now.successors.items) seeds.now blocked.now v) }
{
    let mut marks = match vec![in alloc; false; graph.successors.len()] {
        Ok(marks) => marks,
        Err(_) => return Err(Memory),
    };
    // the ends of edges from marked vertices that are still to be looked at
    let mut pending = seeds_of(alloc, seeds)?;
    'steps: while let Some(vertex) = pending.pop() {
        if blocked[vertex as usize] {
            continue;
        }
        if marks[vertex as usize] {
            continue;
        }
        marks[vertex as usize] = true;
        match pending.extend_from_slice(graph.successors[vertex as usize].as_slice()) {
            Ok(()) => {}
            Err(_) => return Err(Memory),
        }
    }
    Ok(marks)
}

// The vertices that are seeds.
fn seeds_of(alloc: Global, seeds: &[bool]) -> Result<Vec<u32>, Memory>
    requires { length seeds.now ≤ 2 ^ 32 }
    ensures { IfOk result (λ vertices. AreSeeds seeds.now vertices.items) }
{
    let mut vertices = Vec::new(alloc);
    'seeds: for (vertex, seed) in seeds.iter().enumerate() {
        if !*seed {
            continue;
        }
        match vertices.push(vertex as u32) {
            Ok(()) => {}
            Err(_) => return Err(Memory),
        }
    }
    Ok(vertices)
}
