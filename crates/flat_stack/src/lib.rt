//! The cells of a run in one array, whose length is fixed when it is made.
#![tactic(auto)]

mod stack;

pub use stack::FlatStack;
