//! Symbolic runs of units: a walk over a unit's code, and the end that it comes to.
#![tactic(auto)]

mod ends;
mod steps;
mod units;
mod walks;

pub use ends::{SymEnd, Values, ending, put_back};
pub use steps::{MadeCall, Steps};
pub use units::run_unit;
pub use walks::walk;
