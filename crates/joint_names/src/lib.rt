//! The names under which the objects of the joint table are printed.
#![tactic(auto)]

mod printed;

pub use printed::printed_name;
