//! The functions of a program over another table of objects: each object stands under its number there.
#![tactic(auto)]

mod bodies;
mod functions;
mod locals;

pub use functions::renumbered;
