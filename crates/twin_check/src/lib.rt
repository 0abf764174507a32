//! Which paired functions are twins: equal but for the pairing, and calling only twins.
#![tactic(auto)]

mod functions;
mod sets;

pub use functions::{are_twins, same_type};
pub use sets::closed_twins;
