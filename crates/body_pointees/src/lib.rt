//! What the pointers point to that a body dereferences.
#![tactic(auto)]

mod actions;
mod bodies;
mod expressions;
mod initializers;
mod statements;

pub use bodies::pointees_in;
