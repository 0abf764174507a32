//! The Tseitin clauses of a circuit.
#![tactic(auto)]

mod listing;
mod needs;
mod numbers;
mod writing;

pub use listing::clauses;
