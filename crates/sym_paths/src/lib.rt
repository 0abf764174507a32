//! Runs of a unit so far, made of literals: where they go on, how they end, and what they call.
#![tactic(auto)]

pub mod laws;
mod runs;

pub use runs::{
    Exit, How, Run, State, SymCall, branch, end, end_at, exchange, join, push_call, stop,
};
