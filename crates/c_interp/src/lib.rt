//! An interpreter of programs. It has a stack of its own: calls in one another take no stack of the process.
#![tactic(auto)]

mod engine;
mod events;
mod frames;
mod machine;

pub use machine::{Machine, Stop};
