//! The programs of two files over their joint table of objects.
//!
//! What the programs are stands in specs/JointPrograms.
#![tactic(auto)]

mod arrays;
mod faults;
pub mod laws;
mod numbers;
mod objects;
mod pairings;
mod programs;
mod sides;
mod structs;
mod tables;
mod types;

pub use faults::JointFault;
pub use programs::{JointPrograms, joint_programs};
