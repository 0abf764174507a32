//! Equality of trees where functions, objects and structs are compared through a pairing.
#![tactic(auto)]

mod expression_forms;
mod loops;
mod same;
mod statement_forms;

pub use loops::same_loop;
pub use same::{are_paired, same_pointee, same_tree};
