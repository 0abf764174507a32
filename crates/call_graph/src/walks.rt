ghost use Rattle.std.specs.Prelude.{◌≡◌, ℕ, ◌+◌, ◌<◌, ◌-◌, ◌≤◌, length, Some, None, OnOk};
ghost use Rattle.call_graph.specs.Graphs.{At, IsGraph, Reaches, rows};
ghost use Rattle.call_graph.specs.Walks.{IsWalk, work};

use crate::graphs::{Graph, Memory};

/// Where a block of open vertices begins that reach each other, and where the ends of their edges begin.
#[derive(Clone, Copy)]
pub struct Block {
    pub open: usize,
    pub pending: usize,
}

/// A walk through a graph: the open vertices lie on one path of blocks, and the groups are done.
#[derive(Drop)]
pub struct Walk {
    /// By vertex: its place among the open ones when it was seen first.
    pub places: Vec<Option<usize>>,
    pub open: Vec<u32>,
    /// The ends of edges from open vertices that are still to be followed.
    pub pending: Vec<u32>,
    pub blocks: Vec<Block>,
    pub groups: Vec<Vec<u32>>,
}

impl Walk {
    /// Opens a vertex that wasn't seen, as a block of its own.
    pub fn enter(&mut self, graph: &Graph, vertex: u32) -> Result<(), Memory>
        requires graph { IsGraph (rows graph.now.successors.items) }
        requires walk { IsWalk (rows graph.now.successors.items) self.old.places.items self.old.open.items self.old.pending.items self.old.blocks.items (rows self.old.groups.items) }
        requires unseen { At self.old.places.items vertex None }
        requires reached { (u i : ℕ) → At self.old.open.items i u → Reaches (rows graph.now.successors.items) u vertex }
        ensures walk { OnOk result (IsWalk (rows graph.now.successors.items) self.new.places.items self.new.open.items self.new.pending.items self.new.blocks.items (rows self.new.groups.items)) }
        ensures kept { OnOk result ((v i : ℕ) → At self.old.places.items v (Some i) → At self.new.places.items v (Some i)) }
        ensures seen { OnOk result ((i : ℕ) × At self.new.places.items vertex (Some i)) }
        ensures less { OnOk result (work (rows graph.now.successors.items) self.new.places.items self.new.pending.items self.new.blocks.items < work (rows graph.now.successors.items) self.old.places.items self.old.pending.items self.old.blocks.items) }
    {
        let block = Block {
            open: self.open.len(),
            pending: self.pending.len(),
        };
        self.places[vertex as usize] = Some(block.open);
        match self.open.push(vertex) {
            Ok(()) => {}
            Err(_) => return Err(Memory),
        }
        match self
            .pending
            .extend_from_slice(graph.successors[vertex as usize].as_slice())
        {
            Ok(()) => {}
            Err(_) => return Err(Memory),
        }
        match self.blocks.push(block) {
            Ok(()) => {}
            Err(_) => return Err(Memory),
        }
        Ok(())
    }

    /// Closes the last block, from which no edge is left to follow: its vertices are a group.
    fn close(&mut self, graph: &Graph, top: Block) -> Result<(), Memory>
        requires walk { IsWalk (rows graph.now.successors.items) self.old.places.items self.old.open.items self.old.pending.items self.old.blocks.items (rows self.old.groups.items) }
        requires last { At self.old.blocks.items (length self.old.blocks.items - 1) top }
        requires followed { length self.old.pending.items ≡ top.pending }
        ensures walk { OnOk result (IsWalk (rows graph.now.successors.items) self.new.places.items self.new.open.items self.new.pending.items self.new.blocks.items (rows self.new.groups.items)) }
        ensures kept { self.new.places.items ≡ self.old.places.items }
        ensures less { OnOk result (work (rows graph.now.successors.items) self.new.places.items self.new.pending.items self.new.blocks.items < work (rows graph.now.successors.items) self.old.places.items self.old.pending.items self.old.blocks.items) }
    {
        self.blocks.pop();
        let group = match self.open.split_off(top.open) {
            Ok(group) => group,
            Err(_) => return Err(Memory),
        };
        match self.groups.push(group) {
            Ok(()) => {}
            Err(_) => return Err(Memory),
        }
        Ok(())
    }

    /// One step: an edge from the last block is followed, two blocks become one, or the last block is closed.
    pub fn step(&mut self, graph: &Graph) -> Result<(), Memory>
        requires graph { IsGraph (rows graph.now.successors.items) }
        requires walk { IsWalk (rows graph.now.successors.items) self.old.places.items self.old.open.items self.old.pending.items self.old.blocks.items (rows self.old.groups.items) }
        requires block { 0 < length self.old.blocks.items }
        ensures walk { OnOk result (IsWalk (rows graph.now.successors.items) self.new.places.items self.new.open.items self.new.pending.items self.new.blocks.items (rows self.new.groups.items)) }
        ensures kept { OnOk result ((v i : ℕ) → At self.old.places.items v (Some i) → At self.new.places.items v (Some i)) }
        ensures less { OnOk result (work (rows graph.now.successors.items) self.new.places.items self.new.pending.items self.new.blocks.items < work (rows graph.now.successors.items) self.old.places.items self.old.pending.items self.old.blocks.items) }
    {
        let top = self.blocks[self.blocks.len() - 1];
        if self.pending.len() == top.pending {
            return self.close(graph, top);
        }
        let vertex = self.pending[self.pending.len() - 1];
        match self.places[vertex as usize] {
            None => self.enter(graph, vertex),
            Some(place) => {
                if place >= top.open {
                    self.pending.pop();
                    return Ok(());
                }
                if self.open[place] != vertex {
                    self.pending.pop();
                    return Ok(());
                }
                self.blocks.pop();
                Ok(())
            }
        }
    }
}
