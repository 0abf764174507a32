//! Pairs that call one another, bottom up.
#![tactic(auto)]

mod pairs;
#[cfg(test)]
mod tests;

pub use call_graph::Memory;
pub use pairs::groups;
