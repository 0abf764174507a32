//! A stack.
#![tactic(auto)]

mod stack;

pub use stack::Stack;
