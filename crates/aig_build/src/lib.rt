//! Circuits of two-input conjunctions with negated edges, in which equal gates are shared.
#![tactic(auto)]

mod circuits;
mod lits;
mod packed;
#[cfg(test)]
mod tests;

pub use circuits::Circuit;
pub use lits::{Lit, Memory};
