//! The values of a running program in cells of 16 bytes, and the operations on them without want of memory.
#![tactic(auto)]

mod cells;
mod narrow;
mod operations;
mod quick;
mod wide;

pub use cells::Cell;
pub use operations::{bumped, converted, operated, same_pointer, unary_number, updated};
pub use quick::truth_value;
