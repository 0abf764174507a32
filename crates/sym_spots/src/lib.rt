//! Where the spots of a symbolic run may be, and how they trap.
#![tactic(auto)]

mod aims;
mod indexes;
pub mod laws;
mod pointers;
mod spots;

pub use aims::{Aim, Target, sum};
pub use spots::{SpotTraps, aims_of};
