//! What is computed from the values of a running program.
#![tactic(auto)]

mod arithmetic;
mod values;

pub use arithmetic::{bumped, direction, operated, unary_number, updated};
pub use values::{holds, number_of, same_pointer, times, truth_value};
