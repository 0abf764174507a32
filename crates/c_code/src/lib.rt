//! Flat code of the functions of a program: each construct of C as the instructions that do it, one after another.
#![tactic(auto)]

mod acts;
mod bodies;
mod emitting;
mod expressions;
mod initializers;
mod instructions;
mod loops;
mod statements;

pub use bodies::compile;
pub use initializers::CellCounts;
pub use instructions::{Binary, Instruction, Manner, Unary, When};
