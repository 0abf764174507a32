//! The strongly connected components of a directed graph, in linear time.
#![tactic(auto)]

mod graphs;
mod searches;
#[cfg(test)]
mod tests;
mod walks;

pub use graphs::{Graph, Memory};
pub use searches::components;
