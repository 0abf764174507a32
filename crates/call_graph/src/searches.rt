ghost use Rattle.std.specs.Prelude.{◌≤◌, ◌^◌, length, IfOk};
ghost use Rattle.call_graph.specs.Components.{AreComponents};
ghost use Rattle.call_graph.specs.Graphs.{IsGraph, rows};

use crate::graphs::{Graph, Memory};
use crate::walks::Walk;
use std::alloc::Global;

/// The strongly connected components of a graph, each after those that it reaches.
pub fn components(alloc: Global, graph: &Graph) -> Result<Vec<Vec<u32>>, Memory>
    requires graph { IsGraph (rows graph.now.successors.items) }
    requires few { length graph.now.successors.items ≤ 2 ^ 32 }
    ensures { IfOk result (λ groups. AreComponents (rows graph.now.successors.items) (rows groups.items)) }
{
    let count = graph.successors.len();
    let places = match vec![in alloc; None; count] {
        Ok(places) => places,
        Err(_) => return Err(Memory),
    };
    let mut walk = Walk {
        places,
        open: Vec::new(alloc),
        pending: Vec::new(alloc),
        blocks: Vec::new(alloc),
        groups: Vec::new(alloc),
    };
    'vertices: for vertex in 0..count {
        match walk.places[vertex] {
            Some(_) => continue,
            None => {}
        }
        walk.enter(graph, vertex as u32)?;
        'steps: while !walk.blocks.is_empty() {
            walk.step(graph)?;
        }
    }
    Ok(walk.groups)
}
