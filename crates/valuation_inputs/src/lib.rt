//! Valuations of a circuit are assignments of its inputs.
#![tactic(auto)]

pub mod laws;
