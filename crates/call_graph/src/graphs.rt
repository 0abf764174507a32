ghost use Rattle.std.specs.Prelude.{ℕ, ◌<◌, ◌↔◌, IsTrue, length};
ghost use Rattle.call_graph.specs.Graphs.{At, IsGraph, rows};

/// A directed graph over the vertices from 0 on: for each vertex, those to which an edge leads from it.
#[derive(Drop)]
pub struct Graph {
    pub successors: Vec<Vec<u32>>,
}

impl Graph {
    /// Whether each edge leads to a vertex of the graph.
    pub fn is_closed(&self) -> bool
        ensures { IsTrue result ↔ IsGraph (rows self.now.successors.items) }
    {
        let count = self.successors.len();
        'rows: for row in &self.successors {
            if !all_below(row.as_slice(), count) {
                return false;
            }
        }
        true
    }
}

fn all_below(vertices: &[u32], count: usize) -> bool
    ensures { IsTrue result ↔ ((place vertex : ℕ) → At vertices.now place vertex → vertex < count) }
{
    'vertices: for vertex in vertices {
        if *vertex as usize >= count {
            return false;
        }
    }
    true
}

/// There is too little memory.
#[derive(Clone, Copy, Debug, PartialEq, Eq)]
pub struct Memory;
