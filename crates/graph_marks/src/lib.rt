//! Marks that spread along the edges of a graph, and the vertices on its cycles, in linear time.
#![tactic(auto)]

mod cycles;
mod marks;
#[cfg(test)]
mod tests;

pub use call_graph::{Graph, Memory};
pub use cycles::on_cycles;
pub use marks::spread;
