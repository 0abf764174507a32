// A search for an assignment, by decisions, unit propagation and clauses learnt from conflicts.
#![tactic(auto)]

mod activities;
mod decisions;
mod found;
mod learning;
mod restarts;
mod shortening;
mod solver;

pub use found::Found;
pub use solver::search;
