//! The functions that a body calls.
#![tactic(auto)]

mod actions;
mod calls;
mod expressions;
mod initializers;
mod statements;

pub use calls::calls_in;
