//! The two proof rules, and what a settlement claims by them.
#![tactic(auto)]

pub mod laws;
mod settlements;
#[cfg(test)]
mod tests;

pub use settlements::{ClaimList, Gone, Memory, Settlement, Side, Stay, claims};
